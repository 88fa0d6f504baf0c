// The packet that a sheet spells: the header, then each segment with S2 worked out and only announced fields.
#![tactic(auto)]

ghost use Rattle.std.specs.Prelude.{Ok, Err, ◌≡◌, true, ◌||◌, cond, ◌∷◌, ◌⊎◌, ◌*◌, ◌≤◌, eqb, length, get_or, take, drop};
ghost use Rattle.std.proofs.lemmas.List.Edits.{sets};
ghost use Rattle.octets.specs.Octets.{bytes};
ghost use Rattle.format.specs.Sheet.{body_length};
ghost use Rattle.format.specs.Lengths.{record_length};
ghost use Rattle.format.specs.Writer.{listed, due, called_for, given as given_of, spell as spellSheet};
ghost use Rattle.sheet_walk.specs.InnerShape.{place_at, is_rest, Shaped};
ghost use Rattle.spelling.specs.declared.Misshapen.TheVariants.{Unlisted, Incomplete};
ghost use Rattle.spelling.specs.InnerSpelling.{begun, spelt, carried_all, spelt_next, read_next, record_in, leading, Begins, Spellable, SpellableNext, Followed, Put};
ghost use Rattle.spelling.specs.InnerSpelling.{header_end, surveyed, capped as cappedAt, counted, Passes};

use sheet_walk::Place;

// What rows 17 and 18 say of a sheet.
#[derive(Clone, Copy, Debug, PartialEq, Eq)]
pub enum Misshapen {
    // Row 17 applies.
    Unlisted,
    // Row 17 does not, and row 18 does.
    Incomplete,
}

// The kind that is due next, how much of it, and the bytes spelt so far.
#[derive(Clone, Copy, Debug, PartialEq, Eq)]
struct Counted {
    follower: u8,
    left: usize,
    sum: usize,
}

// No packet is longer than 65,536 bytes; one byte more stands for any length above that, so that sums stay small.
fn capped(n: usize) -> usize
    ensures { result ≡ cappedAt n }
{
    n.min(format::LONGEST_PACKET + 1)
}

// What is counted behind a record, or nothing where it stands where it may not.
fn count(before: Counted, kind: u8, b: &[u8]) -> Option<Counted>
    requires { (length b.now ≡ body_length kind) × (1 ≤ length b.now) × (before.sum ≤ 65537) }
    ensures { result ≡ counted (due before.follower before.left) before.sum (record_in kind b.now) }
{
    if 0 < before.left {
        if kind != before.follower {
            return None;
        }
        let n = sheet_walk::share(before.follower, before.left);
        if sheet_walk::carried(kind, b) != n {
            return None;
        }
        let left = before.left - n;
        return Some(Counted { left, ..before });
    }
    if sheet_walk::is_follower(kind) {
        return None;
    }
    let l = sheet_walk::lead_of(kind, b);
    let sum = capped(before.sum + sheet_walk::segment_size(l));
    Some(Counted {
        follower: l.follower,
        left: l.left,
        sum,
    })
}

// What is said of a sheet to which row 18 applies, unless row 17 does from a place on.
fn incomplete(x: &[u8], at: usize) -> Misshapen
    ensures { result ≡ cond (is_rest (listed (drop at x.now))) Incomplete Unlisted }
{
    if sheet_walk::is_rest(x, at) {
        Misshapen::Incomplete
    } else {
        Misshapen::Unlisted
    }
}

// The place behind the header at the front of x.
fn header_end(x: &[u8]) -> Option<usize>
    ensures { result ≡ header_end (place_at x.now 0) }
{
    match sheet_walk::record_at(x, 0) {
        Place::Whole(format::HeaderRecord::KIND, end) => Some(end),
        _ => None,
    }
}

// A place on the sheet, and how much is left there of what is due.
#[derive(Clone, Copy, Debug, PartialEq, Eq)]
struct Ahead {
    at: usize,
    left: usize,
}

// How far the walk can go at once from a place behind a record that begins a segment: past all the scatterers that are due, or past all the full
// pieces, where they are there. They are looked at once, behind that record: where one is missing, the walk finds it record by record.
fn passed(x: &[u8], at: usize, follower: u8, left: usize) -> Ahead
    requires { at ≤ length x.now }
    ensures { Passes x.now at follower left result }
{
    if follower == format::PieceRecord::KIND {
        let full = left / format::PieceRecord::FULL;
        if sheet_walk::are_full_pieces(&x[at..], full) {
            return Ahead {
                at: at + full * format::PieceRecord::WHOLE,
                left: left % format::PieceRecord::FULL,
            };
        }
        return Ahead { at, left };
    }
    if follower != format::ScattererRecord::KIND {
        return Ahead { at, left };
    }
    if sheet_walk::are_scatterers(&x[at..], left) {
        return Ahead {
            at: at + left * format::ScattererRecord::WHOLE,
            left: 0,
        };
    }
    Ahead { at, left }
}

// What is found at the sheet's end, where so much is due and so many bytes are spelt.
fn ended(left: usize, sum: usize) -> Result<usize, Misshapen>
    ensures { result ≡ cond (eqb left 0) (Ok sum) (Err Incomplete) }
{
    if left == 0 {
        Ok(sum)
    } else {
        Err(Misshapen::Incomplete)
    }
}

// Rows 17 and 18 and the length of the packet, in one walk; 65,537 stands for any greater one. A later fault of row 17 comes before an earlier
// one of row 18.
pub fn survey_of(x: &[u8]) -> Result<usize, Misshapen>
    ensures { result ≡ surveyed x.now }
{
    let Some(mut at) = header_end(x) else {
        return Err(Misshapen::Unlisted);
    };
    let mut counted = Counted {
        follower: 0,
        left: 0,
        sum: format::HeaderRecord::LEN,
    };
    loop {
        match sheet_walk::record_at(x, at) {
            Place::Cut => return Err(Misshapen::Unlisted),
            Place::End => return ended(counted.left, counted.sum),
            Place::Whole(kind, end) => {
                if kind == format::HeaderRecord::KIND {
                    return Err(Misshapen::Unlisted);
                }
                let from = at + 1;
                let Some(next) = count(counted, kind, &x[from..end]) else {
                    return Err(incomplete(x, end));
                };
                if 0 < counted.left {
                    counted = next;
                    at = end;
                } else {
                    let ahead = passed(x, end, next.follower, next.left);
                    counted = Counted {
                        left: ahead.left,
                        ..next
                    };
                    at = ahead.at;
                }
            }
        }
    }
}

// A segment's header.
fn put_head(segment_type: u8, size: u32, o: &mut [u8])
    requires { 5 ≤ length o.old }
    ensures { o.new ≡ sets o.old 0 (segment_type ∷ bytes 4 size) }
{
    o[0] = segment_type;
    octets::put_u32(o, 1, size);
}

// The mask of an HRR segment, and the fields that it announces.
fn put_masked_hrr(b: &[u8], o: &mut [u8])
    requires { (length b.now ≡ body_length 11) × (length (given_of (record_in 11 b.now)) ≤ length o.old) }
    ensures { o.new ≡ sets o.old 0 (given_of (record_in 11 b.now)) }
{
    copies::copy::<5>(b, 0, o, 0);
    pack_hrr::hrr_fields(b, hrr::MASK, hrr::mask_of(b), o, hrr::MASK);
}

// The bytes that a record gives which begins a segment, so many.
fn put_given(kind: u8, b: &[u8], n: usize, o: &mut [u8])
    requires { (length b.now ≡ body_length kind) × (n ≡ length (given_of (record_in kind b.now))) × (n ≤ length o.old) }
    ensures { o.new ≡ sets o.old 0 (given_of (record_in kind b.now)) }
{
    if kind == format::DwellRecord::KIND {
        copies::copy::<8>(b, 0, o, 0);
        pack::dwell_fields(b, 8, octets::get_u64(b, 0), o, 8);
        return;
    }
    if kind == format::HrrRecord::KIND {
        put_masked_hrr(b, o);
        return;
    }
    copies::copy_each(&b[..n], o, 0);
}

// A record that begins a segment: the segment's header, and what the record gives. It answers how many bytes.
fn put_leader(kind: u8, b: &[u8], o: &mut [u8]) -> usize
    requires { (Begins (record_in kind b.now)) × (length (begun (record_in kind b.now)) ≤ length o.old) }
    ensures value { result ≡ length (begun (record_in kind b.now)) }
    ensures o_after { o.new ≡ sets o.old 0 (begun (record_in kind b.now)) }
{
    let l = sheet_walk::lead_of(kind, b);
    let size = sheet_walk::segment_size(l);
    put_head(l.segment_type, size as u32, o);
    let n = l.given;
    put_given(kind, b, n, &mut o[5..]);
    5 + n
}

// The bytes of a piece. It answers how many.
fn put_piece(b: &[u8], o: &mut [u8]) -> usize
    requires { (length b.now ≡ 33) × (get_or b.now 0 0 ≤ 32) × (get_or b.now 0 0 ≤ length o.old) }
    ensures value { result ≡ get_or b.now 0 0 }
    ensures o_after { o.new ≡ sets o.old 0 (take (get_or b.now 0 0) (drop 1 b.now)) }
{
    let count = usize::from(b[0]);
    let to = format::PieceRecord::BYTES + count;
    copies::copy_each(&b[format::PieceRecord::BYTES..to], o, 0);
    count
}

// What a record adds to the packet: a follower by the body of the one that begins its segment. It answers how many bytes.
fn put_record(kind: u8, leader: &[u8], b: &[u8], o: &mut [u8]) -> usize
    requires { (Spellable leader.now (record_in kind b.now)) × (length (spelt (leading leader.now) (record_in kind b.now)) ≤ length o.old) }
    ensures value { result ≡ length (spelt (leading leader.now) (record_in kind b.now)) }
    ensures o_after { o.new ≡ sets o.old 0 (spelt (leading leader.now) (record_in kind b.now)) }
{
    if kind == format::TargetRecord::KIND {
        return pack::target_fields(b, 0, octets::get_u64(leader, 0), o, 0);
    }
    if kind == format::PieceRecord::KIND {
        return put_piece(b, o);
    }
    put_leader(kind, b, o)
}

// How far a step of the walk goes on the sheet behind a record, and in the packet.
#[derive(Clone, Copy, Debug, PartialEq, Eq)]
struct Step {
    read: usize,
    written: usize,
}

// The scatterers that a record of kind 11 with the body b calls for, which rest begins with.
fn put_scatterers(b: &[u8], rest: &[u8], o: &mut [u8]) -> Step
    requires { (length b.now ≡ body_length 11) × Followed (record_in 11 b.now) rest.now o.old }
    ensures { Put (record_in 11 b.now) rest.now o.old result o.new }
{
    let s = sheet_walk::scatterers_behind(b);
    let each = hrr::each_of(s);
    pack_hrr::scatterers(rest, s, s.count, o);
    Step {
        read: s.count * format::ScattererRecord::WHOLE,
        written: s.count * each,
    }
}

// The bytes of so many full pieces, which rest begins with: each straight from the sheet.
fn put_full_pieces(rest: &[u8], count: usize, o: &mut [u8])
    requires { (count * record_length 6 ≤ length rest.now) × (count * 32 ≤ length o.old) }
    ensures { o.new ≡ sets o.old 0 (carried_all count rest.now) }
{
    for i in 0..count {
        let from = i * format::PieceRecord::WHOLE + 1 + format::PieceRecord::BYTES;
        copies::copy32(rest, from, o, i * format::PieceRecord::FULL);
    }
}

// How many bytes the pieces carry behind a record of kind 5 or 7.
fn in_pieces(kind: u8, b: &[u8]) -> u32
    requires { (length b.now ≡ body_length kind) × ((kind ≡ 5) ⊎ (kind ≡ 7)) }
    ensures { result ≡ (called_for (record_in kind b.now)).left }
{
    if kind == format::TextRecord::KIND {
        octets::get_u32(b, format::TextRecord::F3_LENGTH)
    } else {
        octets::get_u32(b, format::OpaqueRecord::BODY_LENGTH)
    }
}

// The full pieces that a record of kind 5 or 7 calls for, which rest begins with. One that is not full, the last, is put by itself.
fn put_pieces(kind: u8, b: &[u8], rest: &[u8], o: &mut [u8]) -> Step
    requires { (length b.now ≡ body_length kind) × ((kind ≡ 5) ⊎ (kind ≡ 7)) × Followed (record_in kind b.now) rest.now o.old }
    ensures { Put (record_in kind b.now) rest.now o.old result o.new }
{
    let full = in_pieces(kind, b) as usize / format::PieceRecord::FULL;
    put_full_pieces(rest, full, o);
    Step {
        read: full * format::PieceRecord::WHOLE,
        written: full * format::PieceRecord::FULL,
    }
}

// Whether a record of the kind has a row of records behind it that is put at once: pieces or scatterers.
fn leads_row(kind: u8) -> bool
    ensures { result ≡ (eqb kind 5 || eqb kind 7 || eqb kind 11) }
{
    matches!(
        kind,
        format::TextRecord::KIND | format::OpaqueRecord::KIND | format::HrrRecord::KIND
    )
}

// That row, which rest begins with.
fn put_row(kind: u8, b: &[u8], rest: &[u8], o: &mut [u8]) -> Step
    requires { (length b.now ≡ body_length kind) × ((eqb kind 5 || eqb kind 7 || eqb kind 11) ≡ true) × Followed (record_in kind b.now) rest.now o.old }
    ensures { Put (record_in kind b.now) rest.now o.old result o.new }
{
    if kind == format::HrrRecord::KIND {
        return put_scatterers(b, rest, o);
    }
    put_pieces(kind, b, rest, o)
}

// What a record adds to the packet, with the row behind it.
fn put_next(kind: u8, leader: &[u8], b: &[u8], rest: &[u8], o: &mut [u8]) -> Step
    requires { SpellableNext leader.now (record_in kind b.now) rest.now × (length (spelt_next (leading leader.now) (record_in kind b.now) rest.now) ≤ length o.old) }
    ensures read_value { (result.read ≡ read_next (record_in kind b.now)) × (result.written ≡ length (spelt_next (leading leader.now) (record_in kind b.now) rest.now)) }
    ensures o_after { o.new ≡ sets o.old 0 (spelt_next (leading leader.now) (record_in kind b.now) rest.now) }
{
    let n = put_record(kind, leader, b, o);
    if leads_row(kind) {
        let behind = put_row(kind, b, rest, &mut o[n..]);
        return Step {
            read: behind.read,
            written: n + behind.written,
        };
    }
    Step {
        read: 0,
        written: n,
    }
}

// The packet that x spells, at the front of o. The body of the record that begins a segment is handed on to those behind it.
pub fn spell(x: &[u8], o: &mut [u8])
    requires { (Shaped x.now) × (length (spellSheet x.now) ≤ 65536) × (length (spellSheet x.now) ≤ length o.old) }
    ensures { o.new ≡ sets o.old 0 (spellSheet x.now) }
{
    copies::copy32(x, 1, o, 0);
    let mut at = format::HeaderRecord::WHOLE;
    let mut to = format::HeaderRecord::LEN;
    let mut begins = 1;
    let mut ends = format::HeaderRecord::WHOLE;
    while let Place::Whole(kind, end) = sheet_walk::record_at(x, at) {
        let from = at + 1;
        let step = put_next(
            kind,
            &x[begins..ends],
            &x[from..end],
            &x[end..],
            &mut o[to..],
        );
        to += step.written;
        at = end + step.read;
        if !sheet_walk::is_follower(kind) {
            begins = from;
            ends = end;
        }
    }
}
