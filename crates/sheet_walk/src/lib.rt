// The records of a sheet: the one at a place, what the one says that begins a segment, and how much those have that follow it.
#![tactic(auto)]

ghost use Rattle.std.specs.Prelude.{◌≡◌, ◌||◌, cond, ◌+◌, ◌*◌, ◌≤◌, min, eqb, length, drop};
ghost use Rattle.hrr.specs.InnerScatterers.{Narrow};
ghost use Rattle.format.specs.Sheet.{body_length};
ghost use Rattle.format.specs.Lengths.{record_length};
ghost use Rattle.format.specs.Writer.{listed, due, share as share_of, carried as carriedBy};
ghost use Rattle.sheet_walk.specs.InnerShape.{place_at, is_rest, scatterers_behind, lead_of, size_by, Bounded, is_full_at, Tells};

// The bytes of four scatterers' records.
const FOUR: usize = 4 * format::ScattererRecord::WHOLE;

// The kinds are the numbers below this one, without 0.
const KINDS: usize = format::ScattererRecord::KIND as usize + 1;

// The length of the body of each kind of record, from 0, which is no kind.
static BODY_LENGTHS: [usize; KINDS] = [
    0,
    format::HeaderRecord::LEN,
    format::MissionRecord::LEN,
    format::DwellRecord::LEN,
    format::TargetRecord::LEN,
    format::TextRecord::LEN,
    format::PieceRecord::LEN,
    format::OpaqueRecord::LEN,
    format::JobRecord::LEN,
    format::TestRecord::LEN,
    format::LocationRecord::LEN,
    format::HrrRecord::LEN,
    format::ScattererRecord::LEN,
];

// The length of the body that a kind fixes, and 0 for a number that is no kind. Most records are targets or pieces: known by a test, they are
// passed over without waiting for the table.
#[tactic(auto, unfolding(format::specs::Sheet::body_length))]
fn body_length(kind: u8) -> usize
    ensures { (result ≡ body_length kind) × (result ≤ 87) }
{
    match kind {
        format::TargetRecord::KIND => format::TargetRecord::LEN,
        format::PieceRecord::KIND => format::PieceRecord::LEN,
        _ => BODY_LENGTHS.get(usize::from(kind)).copied().unwrap_or(0),
    }
}

// What is at a place of a sheet.
// Kept: an enum of its own. A record, the end and a cut are three cases of one answer; as `Option<Result<..>>` a caller would match twice.
#[derive(Clone, Copy, Debug, PartialEq, Eq)]
pub enum Place {
    // A whole record: its kind, and the place behind its body. The body begins behind the byte of kind.
    Whole(u8, usize),
    // The sheet's end.
    End,
    // A record that is cut or of no kind.
    Cut,
}

// Any bytes may be handed in, and any place.
#[tactic(auto, unfolding(crate::specs::InnerShape::place_at))]
pub fn record_at(x: &[u8], at: usize) -> Place
    ensures { result ≡ place_at x.now at }
{
    let Some(&kind) = x.get(at) else {
        return Place::End;
    };
    let n = body_length(kind);
    if n == 0 {
        return Place::Cut;
    }
    let behind = x.len() - at - 1;
    if behind < n {
        return Place::Cut;
    }
    let end = at + 1 + n;
    Place::Whole(kind, end)
}

// Whether row 17 lets a sheet pass from a place behind its header on: whole records to its end, of which none is a header.
pub fn is_rest(x: &[u8], start: usize) -> bool
    ensures { result ≡ is_rest (listed (drop start x.now)) }
{
    let mut at = start;
    loop {
        match record_at(x, at) {
            Place::End => return true,
            Place::Cut => return false,
            Place::Whole(kind, end) => {
                if kind == format::HeaderRecord::KIND {
                    return false;
                }
                at = end;
            }
        }
    }
}

// Whether a record of the kind follows another one: a target, a piece or a scatterer.
pub fn is_follower(kind: u8) -> bool
    ensures { result ≡ (eqb kind 4 || eqb kind 6 || eqb kind 12) }
{
    matches!(
        kind,
        format::TargetRecord::KIND | format::PieceRecord::KIND | format::ScattererRecord::KIND
    )
}

// What a record says that begins a segment.
#[derive(Clone, Copy, Debug, PartialEq, Eq)]
pub struct Lead {
    pub segment_type: u8,
    // How many bytes it gives to the segment's body.
    pub given: usize,
    // The kind that is due behind it, how much of it, and how many bytes of the body each of these takes.
    pub follower: u8,
    pub left: usize,
    pub each: usize,
}

// A record with nothing behind it.
// Kept: the kind 0 for none, which `due` of format/specs/Writer.antt says where nothing is due.
fn alone(segment_type: u8, given: usize) -> Lead
    requires { given ≤ 87 }
    ensures bounded { Bounded result }
    ensures value { result ≡ record { segment_type = segment_type; given = given; follower = 0; left = 0; each = 1 } }
{
    Lead {
        segment_type,
        given,
        follower: 0,
        left: 0,
        each: 1,
    }
}

// A record with pieces behind it, of so many bytes.
fn in_pieces(segment_type: u8, given: usize, bytes: u32) -> Lead
    requires { given ≤ 87 }
    ensures bounded { Bounded result }
    ensures value { result ≡ record { segment_type = segment_type; given = given; follower = 6; left = bytes; each = 1 } }
{
    Lead {
        segment_type,
        given,
        follower: format::PieceRecord::KIND,
        left: bytes as usize,
        each: 1,
    }
}

// A dwell, with D5 targets behind it.
fn with_targets(b: &[u8]) -> Lead
    requires { length b.now ≡ body_length 3 }
    ensures bounded { Bounded result }
    ensures value { result ≡ lead_of (record { kind = 3; body = b.now }) }
{
    let mask = octets::get_u64(b, 0);
    let targets = octets::get_u16(b, format::DwellRecord::D5);
    Lead {
        segment_type: 2,
        given: 8 + mask::dwell_length(mask),
        follower: format::TargetRecord::KIND,
        left: usize::from(targets),
        each: mask::target_length(mask),
    }
}

// The scatterers behind a record of kind 11, whose body is b: so many, and the bytes that each number of them takes when it is spelt, at most
// the two that it has on the sheet.
pub fn scatterers_behind(b: &[u8]) -> hrr::Scatterers
    requires { length b.now ≡ body_length 11 }
    ensures { (result ≡ scatterers_behind b.now) × (result.count ≤ 4294836225) × Narrow result }
{
    let s = hrr::scatterers_of(hrr::mask_of(b), &b[format::HrrRecord::FIELDS..]);
    hrr::Scatterers {
        magnitude: s.magnitude.min(2),
        phase: s.phase.min(2),
        range: s.range.min(2),
        doppler: s.doppler.min(2),
        count: s.count,
    }
}

// An HRR record, with its scatterers behind it.
fn with_scatterers(b: &[u8]) -> Lead
    requires { length b.now ≡ body_length 11 }
    ensures bounded { Bounded result }
    ensures value { result ≡ lead_of (record { kind = 11; body = b.now }) }
{
    let s = scatterers_behind(b);
    Lead {
        segment_type: 3,
        given: hrr::MASK + hrr::fields_length(hrr::mask_of(b)),
        follower: format::ScattererRecord::KIND,
        left: s.count,
        each: hrr::each_of(s),
    }
}

// The kind and the count that a full piece begins with, as one number, the first byte the lowest: so the compiler takes both at once.
const FULL_PIECE: u16 = format::PieceRecord::KIND as u16 + 256 * format::PieceRecord::FULL as u16;

// Whether the bytes at a place are the kind and the count of a full piece.
pub fn is_full_piece(x: &[u8], at: usize) -> bool
    requires { at + 2 ≤ length x.now }
    ensures { result ≡ is_full_at x.now at }
{
    u16::from_le_bytes([x[at], x[at + 1]]) == FULL_PIECE
}

// Whether x begins with so many full pieces. The loop goes on where one is none: with a branch for each it waits longer.
pub fn are_full_pieces(x: &[u8], count: usize) -> bool
    ensures { Tells result 6 count x.now }
{
    if x.len() / format::PieceRecord::WHOLE < count {
        return false;
    }
    let mut all = true;
    for i in 0..count {
        all &= is_full_piece(x, i * format::PieceRecord::WHOLE);
    }
    all
}

// Whether x begins with four scatterers.
// Kept: by places, as the loops below, and not by `chunks_exact`: `Tells` speaks of places of x, and so do the loops that put the records.
fn are_four(x: &[u8]) -> bool
    requires { 4 * record_length 12 ≤ length x.now }
    ensures { Tells result 12 4 x.now }
{
    x[0] == format::ScattererRecord::KIND
        && x[format::ScattererRecord::WHOLE] == format::ScattererRecord::KIND
        && x[2 * format::ScattererRecord::WHOLE] == format::ScattererRecord::KIND
        && x[3 * format::ScattererRecord::WHOLE] == format::ScattererRecord::KIND
}

// Whether x begins with n times four scatterers.
fn are_fours(x: &[u8], n: usize) -> bool
    requires { n * 4 * record_length 12 ≤ length x.now }
    ensures { Tells result 12 (n * 4) x.now }
{
    for i in 0..n {
        if !are_four(&x[i * FOUR..]) {
            return false;
        }
    }
    true
}

// The same by one record a turn, for the few that are left.
fn are_few(x: &[u8], count: usize) -> bool
    requires { count * record_length 12 ≤ length x.now }
    ensures { Tells result 12 count x.now }
{
    for i in 0..count {
        if x[i * format::ScattererRecord::WHOLE] != format::ScattererRecord::KIND {
            return false;
        }
    }
    true
}

// Whether x begins with so many scatterers. Four are looked at in a turn: with one record a turn, the branch for each is what the loop waits for.
pub fn are_scatterers(x: &[u8], count: usize) -> bool
    ensures { Tells result 12 count x.now }
{
    if x.len() / format::ScattererRecord::WHOLE < count {
        return false;
    }
    let fours = count / 4;
    if !are_fours(x, fours) {
        return false;
    }
    are_few(&x[fours * FOUR..], count % 4)
}

// By the record's kind.
pub fn lead_of(kind: u8, b: &[u8]) -> Lead
    requires { (length b.now ≡ body_length kind) × (1 ≤ length b.now) }
    ensures bounded { Bounded result }
    ensures value { result ≡ lead_of (record { kind = kind; body = b.now }) }
{
    match kind {
        format::MissionRecord::KIND => alone(1, b.len()),
        format::DwellRecord::KIND => with_targets(b),
        format::TextRecord::KIND => {
            let bytes = octets::get_u32(b, format::TextRecord::F3_LENGTH);
            in_pieces(6, format::TextRecord::F3_LENGTH, bytes)
        }
        format::OpaqueRecord::KIND => {
            let bytes = octets::get_u32(b, format::OpaqueRecord::BODY_LENGTH);
            in_pieces(b[0], 0, bytes)
        }
        format::JobRecord::KIND => alone(5, format::JobRecord::MARK),
        format::TestRecord::KIND => alone(10, b.len()),
        format::LocationRecord::KIND => alone(13, b.len()),
        format::HrrRecord::KIND => with_scatterers(b),
        _ => alone(b[0], b.len()),
    }
}

// The size S2 of the segment that the record begins.
pub fn segment_size(l: Lead) -> usize
    requires { Bounded l }
    ensures { (result ≡ size_by l) × (result ≤ 154618822712) }
{
    5 + l.given + l.left * l.each
}

// How much of what is left of its kind the next follower has: a piece 32 bytes or, the last, all; any other is one.
pub fn share(follower: u8, left: usize) -> usize
    ensures { result ≡ share_of (due follower left) }
{
    if follower == format::PieceRecord::KIND {
        left.min(format::PieceRecord::FULL)
    } else {
        1
    }
}

// How much a follower has: a piece by its count.
#[tactic(auto, unfolding(format::specs::Sheet::body_length))]
pub fn carried(kind: u8, b: &[u8]) -> usize
    requires { length b.now ≡ body_length kind }
    ensures { result ≡ carriedBy (record { kind = kind; body = b.now }) }
{
    if kind == format::PieceRecord::KIND {
        usize::from(b[0])
    } else {
        1
    }
}
