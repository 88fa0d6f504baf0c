// Judges packets by both readings: reads a list of them from standard input, one a line, as `NAME: HEX`. It answers each by `NAME: ` and `alike`
// or `new` with the answer of the Edition 1 reading, or by the refusal of the Edition 3 reading, or by `broken`; or by what is wrong with
// the line.
#![tactic(auto)]

ghost use Rattle.std.specs.Prelude.{◌≡◌, ◌&&◌, cond, List, [], ◌∷◌, ◌++◌, ℕ, ◌+◌, ◌/◌, ◌≤◌, eqb, leb, ltb, length, IsOk};
ghost use Rattle.std.proofs.lemmas.List.Edits.{sets};
ghost use Rattle.lines.specs.Lines.{before, length_of};
ghost use Rattle.format.specs.Edition.{as_edition};
ghost use Rattle.format.specs.Packet.{version};
ghost use Rattle.format.specs.Answer.{answer_of, outcome};
ghost use Rattle.format.specs.Check.{check_of};
ghost use Rattle.format.specs.Rows.{first_row};
ghost use Rattle.format.specs.New.{new_of, new_rows, first_new};
ghost use Rattle.format.specs.Reader.{parsed, read};
ghost use Rattle.format.specs.Writer.{is_same};
ghost use Rattle.segments.specs.InnerWalk.{CheckedPacket};
ghost use Rattle.demands.specs.Places.{is_withheld_in};
ghost use Rattle.demands.specs.Demands.{BothRead};
ghost use Rattle.gmti_editions.specs.declared.Verdict.TheVariants.{Alike};
ghost use Rattle.gmti_editions.specs.Verdict.{zero_where, is_withheld_sheet, is_older_sheet, filled_for, is_returned, is_alike, alike_verdict, new_verdict, older_verdict, new_in, verdict as verdictOf, Version1Read, Demanded};
ghost use Rattle.vectors.specs.Vectors.{hex_fault, unhexed};
ghost use Rattle.gmti_editions.specs.Line.{judged_text, packet_text, hex_of, line_fault, said_of, answer_of as line_answer};

use format::{Counts, DwellRecord, Fault, JobRecord, NewThing, Refusal};
use lines::Line;
use sheet_walk::Place;
use std::io;
use streams::Failed;

// What both readings and the writer make of a packet.
#[derive(Clone, Copy)]
enum Verdict {
    // The Edition 3 reading refuses the packet: the demand says nothing of it.
    NotRead,
    // The packet holds something new: the Edition 1 reading refuses it with 15, and names the first such thing.
    New,
    // It holds nothing new: both readings accept, their sheets are alike, and the filled in one is written back to the packet.
    Alike,
    // None of these: the demand does not hold.
    Broken,
}

// The verdict on a packet, and the answers of both readings.
#[derive(Clone, Copy)]
struct Judged {
    verdict: Verdict,
    newer: Result<Counts, Refusal>,
    older: Result<Counts, Refusal>,
}

// The first thing in a segment that is new in Edition 3, as a row of the table of refusals. The body has what is looked at.
fn new_row(segment_type: u8, b: &[u8]) -> Result<(), Fault>
    requires { (segment_type ≡ 2 → 8 ≤ length b.now) × (segment_type ≡ 5 → 46 ≤ length b.now) }
    ensures { check_of result ≡ first_row (new_rows (record { type = segment_type; body = b.now })) }
{
    if segment_type == 3 {
        return Err(Fault::row(15));
    }
    if segment_type == 2 {
        let field = mask::new_in_mask(octets::get_u64(b, 0));
        return checks::naming_row(15, field as usize);
    }
    if segment_type == 5 && editions::is_new_mode(b[JobRecord::J14]) {
        return Err(Fault::naming(15, 14));
    }
    Ok(())
}

// The first thing in a packet that is new in Edition 3, where the Edition 3 reading finds no fault in it.
fn first_new(packet: &[u8]) -> Option<NewThing>
    requires { CheckedPacket (as_edition 3) packet.now }
    ensures { new_of result ≡ first_new 1 (parsed (as_edition 3) packet.now).segments }
{
    let mut at = format::HeaderRecord::LEN;
    let mut segment = 1;
    while at < packet.len() {
        let t = &packet[at..];
        let size = segments::size_at(t);
        let segment_type = t[0];
        if let Err(fault) = new_row(segment_type, &t[5..size]) {
            return Some(NewThing {
                segment,
                field: fault.field,
            });
        }
        segment += 1;
        at += size;
    }
    None
}

// Whether the packet is of version 3: P1 begins with the character 3.
fn is_version_3(packet: &[u8]) -> bool
    ensures { result ≡ eqb (version packet.now) 3 }
{
    0 < packet.len() && packet[0] == b'3'
}

// What the Edition 1 reading cannot read: nothing in a version 1 packet, and else the first new thing.
fn new_in(packet: &[u8]) -> Option<NewThing>
    requires { CheckedPacket (as_edition 3) packet.now }
    ensures { new_of result ≡ new_in packet.now }
{
    if is_version_3(packet) {
        first_new(packet)
    } else {
        None
    }
}

// Whether i is one of the places from one up to another.
fn is_within(i: usize, from: usize, to: usize) -> bool
    ensures { result ≡ (leb from i && ltb i to) }
{
    from <= i && i < to
}

// Whether byte i of the body of a record of this kind is withheld: it is one of D27 or J26, or of the mark, which stands last.
fn is_withheld_in(kind: u8, i: usize) -> bool
    ensures { (b : List ℕ) → result ≡ is_withheld_in (record { kind = kind; body = b }) i }
{
    if kind == DwellRecord::KIND {
        return is_within(i, DwellRecord::D27, DwellRecord::D27 + 2)
            || is_within(i, DwellRecord::MARK, DwellRecord::LEN);
    }
    if kind == JobRecord::KIND {
        return is_within(i, JobRecord::J26, JobRecord::J26 + 1)
            || is_within(i, JobRecord::MARK, JobRecord::LEN);
    }
    false
}

// Byte i of the body of a record of this kind, as the older sheet is to have it.
fn older_byte(kind: u8, i: usize, byte: u8) -> u8
    ensures { (b : List ℕ) → result ≡ cond (is_withheld_in (record { kind = kind; body = b }) i) 0 byte }
{
    if is_withheld_in(kind, i) { 0 } else { byte }
}

// Whether the body of an older record is that of the newer one, of this kind, with zeros where it is withheld.
fn is_older_body(kind: u8, older: &[u8], newer: &[u8]) -> bool
    requires { length older.now ≡ length newer.now }
    ensures { result ≡ is_same (zero_where (is_withheld_in (record { kind = kind; body = newer.now })) newer.now) older.now }
{
    for i in 0..newer.len() {
        if older_byte(kind, i, newer[i]) != older[i] {
            return false;
        }
    }
    true
}

// Whether the older sheet is the newer one with zeros where it is withheld, record by record of the newer one. Any bytes may be handed in:
// nothing is withheld behind the last whole record.
fn is_withheld_sheet(older: &[u8], newer: &[u8]) -> bool
    ensures { result ≡ is_withheld_sheet older.now newer.now }
{
    if older.len() != newer.len() {
        return false;
    }
    let mut at = 0;
    loop {
        let Place::Whole(kind, end) = sheet_walk::record_at(newer, at) else {
            return readback::same(&newer[at..], &older[at..]);
        };
        if kind != older[at] {
            return false;
        }
        let body = at + 1;
        if !is_older_body(kind, &older[body..end], &newer[body..end]) {
            return false;
        }
        at = end;
    }
}

// The same of the sheets of a packet: of a version 1 packet both are equal.
fn is_older_sheet(packet: &[u8], older: &[u8], newer: &[u8]) -> bool
    ensures { result ≡ is_older_sheet packet.now older.now newer.now }
{
    if is_version_3(packet) {
        is_withheld_sheet(older, newer)
    } else {
        readback::same(newer, older)
    }
}

// Whether the writer's answer and buffer are the packet l with these counts.
fn is_returned(l: &[u8], counts: Counts, a: Result<Counts, Refusal>, buffer: &[u8]) -> bool
    ensures { result ≡ is_returned l.now counts.segments counts.dwells counts.targets (outcome (answer_of a) buffer.now) }
{
    match a {
        Err(_) => false,
        Ok(written) => {
            let length = written.length;
            written == Counts { length, ..counts }
                && readback::same(printing::front(buffer, length), l)
        }
    }
}

// The older sheet, filled in from the newer one where the packet is of version 3: that of a version 1 packet shows all of it.
fn fill_for(packet: &[u8], older: &mut [u8], newer: &[u8])
    ensures { older.new ≡ filled_for packet.now older.old newer.now }
{
    if is_version_3(packet) {
        filling::fill_in(older, newer);
    }
}

// Whether the older sheet is the one that is due beside the newer one, and filled in from that is written back to the packet l with these
// counts.
fn is_alike(l: &[u8], counts: Counts, older: &mut [u8], newer: &[u8], buffer: &mut [u8]) -> bool
    ensures { result ≡ is_alike l.now counts.segments counts.dwells counts.targets older.old newer.now buffer.old }
{
    if !is_older_sheet(l, older, newer) {
        return false;
    }
    fill_for(l, older, newer);
    let a = writer::write(older, buffer);
    is_returned(l, counts, a, buffer)
}

// The verdict where the packet holds nothing new, and the Edition 3 reading accepts with these counts and this length.
// Kept: three lent slices. A struct of them would be taken apart in each function, since each lends them on in another way.
fn alike_verdict(
    l: &[u8],
    counts: Counts,
    a: Result<Counts, Refusal>,
    older: &mut [u8],
    newer: &[u8],
    buffer: &mut [u8],
) -> Verdict
    requires { (counts.length ≤ length older.old) × (counts.length ≤ length newer.now) }
    ensures { result ≡ alike_verdict l.now counts.segments counts.dwells counts.targets counts.length (answer_of a) older.old newer.now buffer.old }
{
    let n = counts.length;
    if a == Ok(counts) && is_alike(l, counts, &mut older[..n], &newer[..n], buffer) {
        Verdict::Alike
    } else {
        Verdict::Broken
    }
}

// The verdict where this is the first new thing in the packet.
fn new_verdict(first: NewThing, a: Result<Counts, Refusal>) -> Verdict
    ensures { result ≡ new_verdict first.segment first.field (answer_of a) }
{
    let due = Refusal {
        number: 15,
        segment: first.segment,
        field: first.field,
    };
    if a == Err(due) {
        Verdict::New
    } else {
        Verdict::Broken
    }
}

// The verdict where the Edition 3 reading accepts with these counts and this length.
fn older_verdict(
    l: &[u8],
    counts: Counts,
    a: Result<Counts, Refusal>,
    older: &mut [u8],
    newer: &[u8],
    buffer: &mut [u8],
) -> Verdict
    requires { CheckedPacket (as_edition 3) l.now × (counts.length ≤ length older.old) × (counts.length ≤ length newer.now) }
    ensures { result ≡ older_verdict l.now counts.segments counts.dwells counts.targets counts.length (new_in l.now) (answer_of a) older.old newer.now buffer.old }
{
    match new_in(l) {
        None => alike_verdict(l, counts, a, older, newer, buffer),
        Some(first) => new_verdict(first, a),
    }
}

// Both readings of the packet l, and the writer. Of a version 3 packet that the Edition 3 reading accepts, and a buffer at least as long,
// demand 3 holds, and the verdict is the one that it has. On a version 1 packet it is Alike.
fn judge(l: &[u8], older: &mut [u8], newer: &mut [u8], buffer: &mut [u8]) -> Judged
    requires { length older.old ≡ length newer.old }
    ensures verdict_value { result.verdict ≡ verdictOf l.now older.old newer.old buffer.old }
    ensures newer_after { (answer_of result.newer ≡ (read (as_edition 3) l.now newer.old).answer) × (answer_of result.older ≡ (read (as_edition 1) l.now older.old).answer) }
    ensures demanded { (s d t n : ℕ) → BothRead l.now older.old newer.old s d t n → length l.now ≤ length buffer.old → Demanded l.now older.old newer.old s d t n result.verdict }
    ensures verdict_value_2 { (s d t n : ℕ) → Version1Read l.now older.old newer.old s d t n → length l.now ≤ length buffer.old → result.verdict ≡ Alike }
{
    let a3 = reader::read(3, l, newer);
    let a1 = reader::read(1, l, older);
    let verdict = match a3 {
        Err(_) => Verdict::NotRead,
        Ok(counts) => older_verdict(l, counts, a1, older, newer, buffer),
    };
    Judged {
        verdict: verdict,
        newer: a3,
        older: a1,
    }
}

// The word of a verdict, and the answer behind it: that of the Edition 1 reading, or the Edition 3 reading's refusal.
fn put_judged(o: &mut [u8], at: usize, j: Judged) -> usize
    requires { at + 92 ≤ length o.old }
    ensures value { (result ≡ at + length (judged_text j.verdict (answer_of j.newer) (answer_of j.older))) × (result ≤ at + 92) }
    ensures o_after { o.new ≡ sets o.old at (judged_text j.verdict (answer_of j.newer) (answer_of j.older)) }
{
    let verdict = j.verdict;
    let newer = j.newer;
    let older = j.older;
    match verdict {
        Verdict::NotRead => printing::put_answer(o, at, newer),
        Verdict::New => {
            copies::copy_all(b"new ", o, at);
            printing::put_answer(o, at + 4, older)
        }
        Verdict::Alike => {
            copies::copy_all(b"alike ", o, at);
            printing::put_answer(o, at + 6, older)
        }
        Verdict::Broken => {
            copies::copy_all(b"broken", o, at);
            at + 6
        }
    }
}

// The line that answers the packet of this name, at the front of out; answers its length.
fn put_line(out: &mut [u8], name: &[u8], j: Judged) -> usize
    requires { length name.now + 95 ≤ length out.old }
    ensures value { (result ≡ length (name.now ++ (58 ∷ 32 ∷ []) ++ judged_text j.verdict (answer_of j.newer) (answer_of j.older) ++ (10 ∷ []))) × (result ≤ length out.new) }
    ensures out_after { out.new ≡ sets out.old 0 (name.now ++ (58 ∷ 32 ∷ []) ++ judged_text j.verdict (answer_of j.newer) (answer_of j.older) ++ (10 ∷ [])) }
{
    let p = vectors::put_name(out, name);
    let q = put_judged(out, p, j);
    out[q] = b'\n';
    q + 1
}

// What is wrong with a line whose name ends at this place.
fn fault(line: &[u8], name: usize) -> Result<(), vectors::Fault>
    requires { name ≡ before 58 line.now }
    ensures { result ≡ line_fault line.now }
{
    if !vectors::is_colon(line, name) {
        return Err(vectors::Fault::Form);
    }
    let hex = vectors::further(line, name, 2);
    vectors::hex_fault(&line[hex..])
}

// The line that answers the packet of a line without fault, whose name ends at this place.
fn put_packet(
    line: &[u8],
    name: usize,
    packet: &mut [u8],
    older: &mut [u8],
    newer: &mut [u8],
    buffer: &mut [u8],
    out: &mut [u8],
) -> usize
    requires name_value { (name ≡ before 58 line.now) × IsOk (hex_fault (hex_of line.now)) }
    requires line_in_bounds { length line.now / 2 ≤ length packet.old }
    requires older_len { length older.old ≡ length newer.old }
    requires line_in_bounds_2 { length line.now + 95 ≤ length out.old }
    ensures value { (result ≡ length (said_of line.now (packet_text (unhexed (hex_of line.now)) older.old newer.old buffer.old))) × (result ≤ length out.new) }
    ensures out_after { out.new ≡ sets out.old 0 (said_of line.now (packet_text (unhexed (hex_of line.now)) older.old newer.old buffer.old)) }
{
    let hex = vectors::further(line, name, 2);
    let n = vectors::unhex(&line[hex..], packet);
    let j = judge(&packet[..n], older, newer, buffer);
    put_line(out, &line[..name], j)
}

// The line that answers a line, at the front of out; answers its length.
fn answer(
    line: &[u8],
    packet: &mut [u8],
    older: &mut [u8],
    newer: &mut [u8],
    buffer: &mut [u8],
    out: &mut [u8],
) -> usize
    requires line_in_bounds { length line.now / 2 ≤ length packet.old }
    requires older_len { length older.old ≡ length newer.old }
    requires line_in_bounds_2 { length line.now + 95 ≤ length out.old }
    ensures value { (result ≡ length (line_answer line.now older.old newer.old buffer.old)) × (result ≤ length out.new) }
    ensures out_after { out.new ≡ sets out.old 0 (line_answer line.now older.old newer.old buffer.old) }
{
    let name = lines::find(line, 0, b':');
    match fault(line, name) {
        Err(f) => vectors::put_unread(out, &line[..name], Err(f)),
        Ok(()) => put_packet(line, name, packet, older, newer, buffer, out),
    }
}

// The line that answers one of which only the front is held.
fn put_cut(front: &[u8], out: &mut [u8]) -> usize
    requires { length front.now + 16 ≤ length out.old }
{
    let name = lines::find(front, 0, b':');
    vectors::put_unread(out, &front[..name], Err(vectors::Fault::Length))
}

// The longest line that is read, with its end; two digits of it spell a byte. The answer has its name, and at most 95 bytes behind it.
const INPUT: usize = 262144;

const PACKET: usize = INPUT / 2;

const OUT: usize = INPUT + 95;

fn run(
    rt: &(impl io::Input + Print + Eprint),
    input: &mut [u8; INPUT],
    packet: &mut [u8; PACKET],
    older: &mut [u8; format::LONGEST_SHEET],
    newer: &mut [u8; format::LONGEST_SHEET],
    buffer: &mut [u8; format::LONGEST_PACKET],
    out: &mut [u8; OUT],
) -> Result<(), Failed> {
    lines::for_each(
        rt,
        b"gmti_editions: standard input",
        input,
        |line: Line<'_>|
            requires { length_of line ≤ 262144 }
        {
            let n = match line {
                Line::Whole(line) => answer(line, packet, older, newer, buffer, out),
                Line::Cut(front) => put_cut(front, out),
            };
            streams::write_all(
                rt,
                b"gmti_editions: standard output is cut",
                printing::front(out, n),
            )
        },
    )
}

fn main(rt: HostRuntime) {
    let mut input = [0u8; INPUT];
    let mut packet = [0u8; PACKET];
    let mut older = [0u8; format::LONGEST_SHEET];
    let mut newer = [0u8; format::LONGEST_SHEET];
    let mut buffer = [0u8; format::LONGEST_PACKET];
    let mut out = [0u8; OUT];
    // Where a read or a write failed, that has been said.
    let _ = run(
        &rt,
        &mut input,
        &mut packet,
        &mut older,
        &mut newer,
        &mut buffer,
        &mut out,
    );
}
