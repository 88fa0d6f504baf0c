// Both readings: a packet of any bytes, read as any edition onto a lent sheet.
#![tactic(auto)]

ghost use Rattle.std.specs.Prelude.{◌≡◌, [], ◌≤◌, length};
ghost use Rattle.std.proofs.lemmas.List.Edits.{sets};
ghost use Rattle.format.specs.Answer.{answer_of, outcome};
ghost use Rattle.format.specs.Edition.{as_edition};
ghost use Rattle.format.specs.Reader.{sheet as sheetOf, reading_answer, check as checkOutcome, read as readOutcome};
ghost use Rattle.segments.specs.InnerWalk.{Checked, bytes_of, CheckedAll, CheckedPacket, all_bytes};

use format::{Counts, Refusal};

// The records of a segment that is checked, by its type.
fn lay_out(r: format::Reading, segment_type: u8, b: &[u8], o: &mut [u8])
    requires { Checked r segment_type b.now × (length (bytes_of r segment_type b.now) ≤ length o.old) }
    ensures { o.new ≡ sets o.old 0 (bytes_of r segment_type b.now) }
{
    match segment_type {
        1 => records::mission_records(b, o),
        2 => dwell_records::dwell_records(r, b, o),
        3 => {
            if editions::is_hrr_read(r) {
                hrr_records::hrr_records(b, o)
            } else {
                records::opaque_records(segment_type, b, o)
            }
        }
        5 => records::job_records(r, b, o),
        6 => records::text_records(b, o),
        10 => records::test_records(b, o),
        13 => records::location_records(b, o),
        _ => records::opaque_records(segment_type, b, o),
    }
}

// The same, and how many bytes they take: in one function, where the compiler goes by the type once.
pub fn segment_records(r: format::Reading, segment_type: u8, b: &[u8], o: &mut [u8]) -> usize
    requires { Checked r segment_type b.now × (length (bytes_of r segment_type b.now) ≤ length o.old) }
    ensures value { result ≡ length (bytes_of r segment_type b.now) }
    ensures o_after { o.new ≡ sets o.old 0 (bytes_of r segment_type b.now) }
{
    lay_out(r, segment_type, b, o);
    segments::records_length(r, segment_type, b)
}

// The records of all segments of l, the packet behind its header, once no row applies.
fn packet_records(r: format::Reading, l: &[u8], o: &mut [u8])
    requires { CheckedAll r l.now × (length (all_bytes r l.now) ≤ length o.old) }
    ensures { o.new ≡ sets o.old 0 (all_bytes r l.now) }
{
    let mut at = 0;
    let mut to = 0;
    while at < l.len() {
        let t = &l[at..];
        let size = segments::size_at(t);
        let segment_type = t[0];
        let b = &t[5..size];
        to += segment_records(r, segment_type, b, &mut o[to..]);
        at += size;
    }
}

// Rows 1 to 15, 21 and 22 of the packet, with no sheet lent: the counts, and the length that its sheet has.
fn check_with(settings: format::Settings, packet: &[u8]) -> Result<Counts, Refusal>
    ensures { answer_of result ≡ reading_answer settings packet.now (length (sheetOf settings packet.now)) }
{
    checks::header_check(settings, packet).map_err(|fault| fault.in_segment(0))?;
    let r = checks::reading_of(settings, packet);
    segments::check(r, &packet[format::HeaderRecord::LEN..])
}

// The sheet of a packet to which no row applies: the header's record, and those of the segments behind it.
fn set_out(settings: format::Settings, packet: &[u8], sheet: &mut [u8])
    requires { CheckedPacket settings packet.now × (length (sheetOf settings packet.now) ≤ length sheet.old) }
    ensures { sheet.new ≡ sets sheet.old 0 (sheetOf settings packet.now) }
{
    let r = checks::reading_of(settings, packet);
    records::header_record(packet, sheet);
    packet_records(
        r,
        &packet[format::HeaderRecord::LEN..],
        &mut sheet[format::HeaderRecord::WHOLE..],
    );
}

// The sheet set out where it is lent enough. Nothing is written before every row has been looked at.
fn read_with(settings: format::Settings, packet: &[u8], sheet: &mut [u8]) -> Result<Counts, Refusal>
    ensures { outcome (answer_of result) sheet.new ≡ readOutcome settings packet.now sheet.old }
{
    let counts = check_with(settings, packet)?;
    if sheet.len() < counts.length {
        return Err(Refusal::row(16));
    }
    set_out(settings, packet, sheet);
    Ok(counts)
}

// The answer of the packet read as this edition, with no sheet lent.
pub fn check(edition: u32, packet: &[u8]) -> Result<Counts, Refusal>
    ensures { outcome (answer_of result) [] ≡ checkOutcome (as_edition edition) packet.now }
{
    check_with(format::Settings { edition }, packet)
}

// Reads the packet as this edition, and sets it out on the lent sheet.
pub fn read(edition: u32, packet: &[u8], sheet: &mut [u8]) -> Result<Counts, Refusal>
    ensures { outcome (answer_of result) sheet.new ≡ readOutcome (as_edition edition) packet.now sheet.old }
{
    read_with(format::Settings { edition }, packet, sheet)
}
