// Reads test vectors from standard input, one a line, as `NAME: E LENT HEX`: the edition of the reading, how many bytes of sheet are
// lent, and the packet in hex; or with `w` in the place of the edition how many bytes of packet are lent to the writer, and the sheet. It
// answers each by `NAME: `, the answer, and the lent bytes in hex, or by what is wrong with the line.
#![tactic(auto)]

ghost use Rattle.std.specs.Prelude.{◌≡◌, cond, ◌+◌, ◌/◌, ◌≤◌, length, drop, is_none, unwrap_or, IfOk, IsOk};
ghost use Rattle.lines.specs.Lines.{length_of};
ghost use Rattle.format.specs.Edition.{as_edition};
ghost use Rattle.format.specs.Answer.{answer_of, outcome};
ghost use Rattle.format.specs.Reader.{read};
ghost use Rattle.format.specs.Writer.{write};
ghost use Rattle.vectors.specs.Vectors.{hex_fault};

use format::{Counts, Refusal};
use lines::Line;
use std::io;
use streams::Failed;
use vectors::Fault;

// A vector: the edition of its reading, or none if it is the writer's; how many bytes are lent, and where its packet or sheet begins.
#[derive(Clone, Copy, Debug, PartialEq, Eq)]
struct Vector {
    edition: Option<u32>,
    lent: usize,
    hex: usize,
}

// What stands in the place of the edition.
fn edition_of(word: &[u8]) -> Result<Option<u32>, Fault> {
    match word {
        b"w" => Ok(None),
        _ => Ok(Some(vectors::number_of(word).ok_or(Fault::Number)?)),
    }
}

// How many bytes are to be lent.
fn lent_of(word: &[u8]) -> Result<usize, Fault>
    ensures { IfOk result (λ lent. lent ≤ 8192) }
{
    match vectors::number_of(word) {
        Some(n) if n <= 8192 => Ok(n as usize),
        _ => Err(Fault::Number),
    }
}

// The vector of a line whose name ends at this place.
fn parse(line: &[u8], name: usize) -> Result<Vector, Fault>
    requires { name ≤ length line.now }
    ensures { IfOk result (λ v. (v.lent ≤ 8192) × ((v.hex ≤ length line.now) × IsOk (hex_fault (drop v.hex line.now)))) }
{
    if !vectors::is_colon(line, name) {
        return Err(Fault::Form);
    }
    let e = vectors::further(line, name, 2);
    let e_end = lines::find(line, e, b' ');
    let n = vectors::further(line, e_end, 1);
    let n_end = lines::find(line, n, b' ');
    if n_end == line.len() {
        return Err(Fault::Form);
    }
    let edition = edition_of(&line[e..e_end])?;
    let lent = lent_of(&line[n..n_end])?;
    let hex = vectors::further(line, n_end, 1);
    vectors::hex_fault(&line[hex..])?;
    Ok(Vector { edition, lent, hex })
}

// The edition's reading of a packet, or the writer's answer to a sheet.
fn called(edition: Option<u32>, given: &[u8], lent: &mut [u8]) -> Result<Counts, Refusal>
    ensures { outcome (answer_of result) lent.new ≡ cond (is_none edition) (write given.now lent.old) (read (as_edition (unwrap_or edition 0)) given.now lent.old) }
{
    match edition {
        Some(edition) => reader::read(edition, given, lent),
        None => writer::write(given, lent),
    }
}

// The line that answers a vector, at the front of out; answers its length. What is lent holds a byte of its own before the call, so that it
// is seen where it is left unchanged.
fn answer(line: &[u8], packet: &mut [u8], sheet: &mut [u8], out: &mut [u8]) -> usize
    requires line_in_bounds { length line.now / 2 ≤ length packet.old }
    requires in_bounds { 8192 ≤ length sheet.old }
    requires line_in_bounds_2 { length line.now + 16474 ≤ length out.old }
    ensures { result ≤ length out.new }
{
    let end = lines::find(line, 0, b':');
    let name = &line[..end];
    match parse(line, end) {
        Err(fault) => vectors::put_unread(out, name, Err(fault)),
        Ok(v) => {
            let n = vectors::unhex(&line[v.hex..], packet);
            let lent = &mut sheet[..v.lent];
            lent.fill(0xAA);
            let a = called(v.edition, &packet[..n], lent);
            vectors::put_line(out, name, a, lent)
        }
    }
}

// The line that answers one of which only the front is held.
fn put_cut(front: &[u8], out: &mut [u8]) -> usize
    requires { length front.now + 16 ≤ length out.old }
{
    let end = lines::find(front, 0, b':');
    vectors::put_unread(out, &front[..end], Err(Fault::Length))
}

// The longest line that is read, with its end; two digits of it spell a byte. The answer has its name, the lent bytes in hex, and at most 90
// bytes between and behind them.
const INPUT: usize = 262144;

const PACKET: usize = INPUT / 2;

const LENT: usize = 8192;

const OUT: usize = INPUT + 2 * LENT + 90;

fn run(
    rt: &(impl io::Input + Print + Eprint),
    input: &mut [u8; INPUT],
    packet: &mut [u8; PACKET],
    sheet: &mut [u8; LENT],
    out: &mut [u8; OUT],
) -> Result<(), Failed> {
    lines::for_each(
        rt,
        b"gmti_trials: standard input",
        input,
        |line: Line<'_>|
            requires { length_of line ≤ 262144 }
        {
            let n = match line {
                Line::Whole(line) => answer(line, packet, sheet, out),
                Line::Cut(front) => put_cut(front, out),
            };
            streams::write_all(
                rt,
                b"gmti_trials: standard output is cut",
                printing::front(out, n),
            )
        },
    )
}

fn main(rt: HostRuntime) {
    let mut input = [0u8; INPUT];
    let mut packet = [0u8; PACKET];
    let mut sheet = [0u8; LENT];
    let mut out = [0u8; OUT];
    // Where a read or a write failed, that has been said.
    let _ = run(&rt, &mut input, &mut packet, &mut sheet, &mut out);
}
