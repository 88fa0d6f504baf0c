// The rows of each segment, and the walk that checks them all before anything is written.
#![tactic(auto)]

ghost use Rattle.std.specs.Prelude.{◌≡◌, ◌+◌, ◌*◌, ◌≤◌, length};
ghost use Rattle.std.proofs.lemmas.List.Edits.{sets};
ghost use Rattle.format.specs.Check.{Passed, check_of};
ghost use Rattle.format.specs.Answer.{answer_of};
ghost use Rattle.hrr.specs.Hrr.{hrr_mask, hrr_fields, scatterer_count};
ghost use Rattle.format.specs.Packet.{is_known, type_at, size_at, body_at};
ghost use Rattle.format.specs.Sheet.{piece_count};
ghost use Rattle.format.specs.Lengths.{record_length};
ghost use Rattle.format.specs.Rows.{first_row, hrr_rows, body_rows, segment_rows};
ghost use Rattle.format.specs.Reader.{dwells_in};
ghost use Rattle.segments.specs.InnerWalk.{Checked, bytes_of, targets_of_type, found_at, pair_numbers, no_dwells, past_pair, past, past_all, AtMost, longest_rest, most_dwells, CheckedAll, segments_of, rest_answer};

use format::{Counts, Fault, Refusal};

fn is_known_type(segment_type: u8) -> bool
    ensures { result ≡ is_known segment_type }
{
    match segment_type {
        1..=13 | 101 | 102 => true,
        _ => false,
    }
}

// The rows of a segment's body, by the segment's type.
fn body_check(r: format::Reading, segment_type: u8, b: &[u8]) -> Result<(), Fault>
    ensures { check_of result ≡ first_row (body_rows r segment_type b.now) }
{
    match segment_type {
        1 => checks::mission_check(b),
        2 => dwell_checks::dwell_check(r, b),
        3 => {
            if editions::is_hrr_read(r) {
                hrr_checks::hrr_check(b)
            } else {
                Ok(())
            }
        }
        5 => checks::job_check(r, b),
        6 => checks::text_check(b),
        10 => checks::kept_check(format::TestRecord::LEN, b),
        13 => checks::kept_check(format::LocationRecord::LEN, b),
        _ => Ok(()),
    }
}

// The size S2 of the segment at the front of l.
pub fn size_at(l: &[u8]) -> usize
    requires { 5 ≤ length l.now }
    ensures { result ≡ size_at l.now }
{
    octets::get_u32(l, 1) as usize
}

// The rows of the segment at the front of l, which is what is left of the packet.
pub fn segment_check(r: format::Reading, l: &[u8]) -> Result<(), Fault>
    ensures { check_of result ≡ first_row (segment_rows r l.now) }
{
    if l.len() < 5 {
        return Err(Fault::row(6));
    }
    let segment_type = l[0];
    if !is_known_type(segment_type) {
        return Err(Fault::row(7));
    }
    let size = size_at(l);
    if size < 5 || l.len() < size {
        return Err(Fault::row(8));
    }
    if editions::is_older(r) && segment_type == 3 {
        return Err(Fault::row(15));
    }
    body_check(r, segment_type, &l[5..size])
}

// The bytes of the records that carry n bytes of text or of an opaque body.
pub fn pieces_length(n: usize) -> usize
    requires { n ≤ 65536 }
    ensures { result ≡ piece_count n * record_length 6 }
{
    (n + format::PieceRecord::FULL - 1) / format::PieceRecord::FULL * format::PieceRecord::WHOLE
}

// The targets of a segment, by its type.
fn targets_in(r: format::Reading, segment_type: u8, b: &[u8]) -> usize
    requires { Checked r segment_type b.now }
    ensures { (result ≡ targets_of_type segment_type b.now) × (result ≤ 65535) }
{
    if segment_type == 2 {
        dwell_checks::target_count(b) as usize
    } else {
        0
    }
}

// The bytes that the records of an opaque segment take on the sheet.
fn opaque_length(b: &[u8]) -> usize
    requires { length b.now ≤ 65536 }
    ensures { result ≡ record_length 7 + piece_count (length b.now) * record_length 6 }
{
    format::OpaqueRecord::WHOLE + pieces_length(b.len())
}

// And of an HRR segment to whose body b no row applies.
fn hrr_length(b: &[u8]) -> usize
    requires { first_row (hrr_rows b.now) ≡ Passed }
    ensures { result ≡ record_length 11 + scatterer_count (hrr_mask b.now) (hrr_fields b.now) * record_length 12 }
{
    let s = hrr_checks::scatterers_in(b);
    format::HrrRecord::WHOLE + s.count * format::ScattererRecord::WHOLE
}

// The bytes that the records of a segment take on the sheet, by its type.
pub fn records_length(r: format::Reading, segment_type: u8, b: &[u8]) -> usize
    requires { Checked r segment_type b.now }
    ensures { result ≡ length (bytes_of r segment_type b.now) }
{
    match segment_type {
        1 => format::MissionRecord::WHOLE,
        2 => format::DwellRecord::WHOLE
            + targets_in(r, segment_type, b) * format::TargetRecord::WHOLE,
        3 => {
            if editions::is_hrr_read(r) {
                hrr_length(b)
            } else {
                opaque_length(b)
            }
        }
        5 => format::JobRecord::WHOLE,
        6 => format::TextRecord::WHOLE + pieces_length(b.len() - format::TextRecord::F3),
        10 => format::TestRecord::WHOLE,
        13 => format::LocationRecord::WHOLE,
        _ => opaque_length(b),
    }
}

// What stands at the front of what is left of a packet, where no row applies to it.
#[derive(Clone, Copy, Debug, PartialEq, Eq)]
pub struct Found {
    // The segment's size.
    pub size: usize,
    pub targets: usize,
    // The bytes that its records take on the sheet.
    pub length: usize,
}

// The segment at the front of l.
pub fn segment_at(r: format::Reading, l: &[u8]) -> Result<Found, Fault>
    requires { length l.now ≤ 65536 }
    ensures { result ≡ found_at r l.now }
{
    segment_check(r, l)?;
    let segment_type = l[0];
    let size = size_at(l);
    let b = &l[5..size];
    Ok(Found {
        size,
        targets: targets_in(r, segment_type, b),
        length: records_length(r, segment_type, b),
    })
}

// What the walk knows of the dwells that it has passed, by the number that D2 and D3 of each spell together.
#[derive(Clone, Copy)]
pub struct Dwells {
    // How often it rose, and how often it fell; the first is a rise.
    pub rises: usize,
    pub falls: usize,
    // One more than the last; 0 before the first.
    pub above: u64,
}

// Where D2 and D3 stand in a dwell's segment: behind its header of 5 bytes and the mask.
const PAIR: usize = 13;

// The same past a dwell with this pair of D2 and D3.
fn pair_past(dwells: Dwells, pair: u32) -> Dwells
    requires { AtMost 65536 dwells }
    ensures { result ≡ past_pair dwells pair }
{
    let number = u64::from(pair);
    let above = number + 1;
    let risen = usize::from(dwells.above <= number);
    let fallen = usize::from(above < dwells.above);
    Dwells {
        rises: dwells.rises + risen,
        falls: dwells.falls + fallen,
        above,
    }
}

// The same past the segment at the front of l, to which no row applies.
fn dwells_past(r: format::Reading, dwells: Dwells, l: &[u8]) -> Dwells
    requires { (first_row (segment_rows r l.now) ≡ Passed) × AtMost 65536 dwells }
    ensures { result ≡ past dwells (type_at l.now) (body_at l.now) }
{
    if l[0] == 2 {
        pair_past(dwells, octets::get_u32(l, PAIR))
    } else {
        dwells
    }
}

// The pairs of D2 and D3 of all dwells of l, the packet behind its header, once no row applies; and how many they are. The contract
// alone needs r: it says by which reading no row applies.
fn pairs_of(r: format::Reading, l: &[u8], o: &mut [u32]) -> usize
    requires { CheckedAll r l.now × (most_dwells l.now ≤ length o.old) }
    ensures value { (result ≡ length (pair_numbers (segments_of r l.now))) × (result ≤ length o.old) }
    ensures o_after { o.new ≡ sets o.old 0 (pair_numbers (segments_of r l.now)) }
{
    let mut at = 0;
    let mut n = 0;
    while at < l.len() {
        let t = &l[at..];
        if t[0] == 2 {
            o[n] = octets::get_u32(t, PAIR);
            n += 1;
        }
        at += size_at(t);
    }
    n
}

// How many of them are different, by way of a lent array.
fn different_pairs(r: format::Reading, l: &[u8], o: &mut [u32]) -> usize
    requires { CheckedAll r l.now × (most_dwells l.now ≤ length o.old) }
    ensures { result ≡ dwells_in (segments_of r l.now) }
{
    let n = pairs_of(r, l, o);
    distinct::count_different(&o[..n])
}

// A segment of a dwell takes so many bytes at least: those of a mask and of the required fields, behind the segment's header.
const LEAST_DWELL: usize = 48;

// As many dwells as a packet has room for.
const MOST_DWELLS: usize = (format::LONGEST_PACKET - format::HeaderRecord::LEN) / LEAST_DWELL;

// So few that the array for them costs next to nothing: an array is cleared before it is lent.
const FEW_DWELLS: usize = 32;

// The same by way of an array of N. It stands apart, so that what is around it does not decide where the search's short loop comes to lie.
#[inline(never)]
fn different_in<const N: usize>(r: format::Reading, l: &[u8]) -> usize
    requires { CheckedAll r l.now × (most_dwells l.now ≤ N) × (N ≤ 1364) }
    ensures { result ≡ dwells_in (segments_of r l.now) }
{
    let mut pairs = [0u32; N];
    different_pairs(r, l, &mut pairs)
}

// The dwells of l, by what the walk knows of them at its end. D2 and D3 are running counts: where they never fell, each rise is a further
// dwell. Only where they did are they held against each other.
fn dwell_count(r: format::Reading, l: &[u8], dwells: Dwells) -> usize
    requires { CheckedAll r l.now × (dwells ≡ past_all no_dwells (segments_of r l.now)) }
    ensures { result ≡ dwells_in (segments_of r l.now) }
{
    if dwells.falls == 0 {
        return dwells.rises;
    }
    if l.len() / LEAST_DWELL <= FEW_DWELLS {
        return different_in::<FEW_DWELLS>(r, l);
    }
    different_in::<MOST_DWELLS>(r, l)
}

// The answer but for row 16, of l, the packet behind its header.
pub fn check(r: format::Reading, l: &[u8]) -> Result<Counts, Refusal>
    requires { length l.now ≤ longest_rest }
    ensures { answer_of result ≡ rest_answer r l.now }
{
    // Kept: a place that is moved on. An iterator would hand out a Result for each segment, to be taken apart here all the same: no plainer.
    let mut at = 0;
    let mut segments = 0;
    let mut dwells = Dwells {
        rises: 0,
        falls: 0,
        above: 0,
    };
    let mut targets = 0;
    let mut length = format::HeaderRecord::WHOLE;
    while at < l.len() {
        let t = &l[at..];
        let found = segment_at(r, t).map_err(|fault| fault.in_segment(segments + 1))?;
        segments += 1;
        dwells = dwells_past(r, dwells, t);
        targets += found.targets;
        length += found.length;
        at += found.size;
    }
    Ok(Counts {
        segments,
        dwells: dwell_count(r, l, dwells),
        targets,
        length,
    })
}
