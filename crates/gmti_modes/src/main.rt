// Tells radar modes: reads their numbers from standard input, one a line. It answers each by the number, its system in Edition 1's table and in
// Edition 3's, each with the system's own number, and whether the mode is new in Edition 3; or by what is wrong with the line.
#![tactic(auto)]

ghost use Rattle.std.specs.Prelude.{◌≡◌, ◌++◌, ◌+◌, ◌≤◌, true, false, length, MatchOption};
ghost use Rattle.std.proofs.lemmas.List.Edits.{sets};
ghost use Rattle.format.specs.Edition.{is_new_mode};
ghost use Rattle.lines.specs.Lines.{length_of};
ghost use Rattle.modes.specs.Modes.{lookup, system_of};
ghost use Rattle.modes.specs.Tables.{name_of};
ghost use Rattle.printing.specs.InnerPut.{Put};
ghost use Rattle.vectors.specs.Vectors.{spelt};
ghost use Rattle.gmti_modes.specs.Line.{ascii, is_mode, system_text, new_text, mode_text, answer_of};

use lines::Line;
use std::io;
use streams::Failed;
use vectors::Fault;

// The name of a system, in at most 11 bytes.
fn name(system: u8) -> &'static [u8]
    requires { system ≤ 12 }
    ensures { (result.now ≡ ascii (name_of system)) × (length result.now ≤ 11) }
{
    match system {
        1 => b"Generic",
        2 => b"Joint STARS",
        3 => b"ASARS-AIP",
        4 => b"ASARS-2",
        5 => b"TUAV",
        6 => b"ARL-M",
        7 => b"HORIZON",
        8 => b"CRESO",
        9 => b"ASTOR",
        10 => b"Lynx I/II",
        11 => b"Global Hawk",
        12 => b"VADER",
        _ => b"Reserved",
    }
}

// And its number in parentheses, in at most 34 bytes together.
fn put_system(o: &mut [u8], at: usize, system: u8) -> usize
    requires { (system ≤ 12) × (at + 34 ≤ length o.old) }
    ensures { Put 34 o.old at (system_text system) result o.new }
{
    let p = vectors::put_word(o, at, name(system));
    let q = vectors::put_word(o, p, b" (");
    let r = printing::put_decimal(o, q, system as usize);
    vectors::put_word(o, r, b")")
}

// The system of a mode in an edition, behind at most 12 bytes of words.
fn put_edition(o: &mut [u8], at: usize, words: &[u8], edition: u32, mode: u8) -> usize
    requires { (length words.now ≤ 12) × (at + 46 ≤ length o.old) }
    ensures { Put 46 o.old at (words.now ++ system_text (system_of (lookup edition mode))) result o.new }
{
    let p = vectors::put_word(o, at, words);
    let system = modes::system_of(modes::mode_system(edition, mode));
    put_system(o, p, system)
}

// Whether the mode is new, in at most 9 bytes.
fn put_new(o: &mut [u8], at: usize, mode: u8) -> usize
    requires { at + 9 ≤ length o.old }
    ensures { Put 9 o.old at (new_text (is_new_mode mode)) result o.new }
{
    if editions::is_new_mode(mode) {
        vectors::put_word(o, at, b", new")
    } else {
        vectors::put_word(o, at, b", not new")
    }
}

// What is said of a mode, in at most 101 bytes.
fn put_mode(o: &mut [u8], at: usize, mode: u8) -> usize
    requires { at + 101 ≤ length o.old }
    ensures { Put 101 o.old at (mode_text mode) result o.new }
{
    let p = put_edition(o, at, b"Edition 1 ", 1, mode);
    let q = put_edition(o, p, b", Edition 3 ", 3, mode);
    put_new(o, q, mode)
}

// The mode whose number a line is.
fn mode_of(line: &[u8]) -> Option<u8>
    ensures { MatchOption result (is_mode line.now ≡ false) (λ mode. (is_mode line.now ≡ true) × (mode ≡ spelt line.now 0)) }
{
    let n = vectors::number_of(line)?;
    u8::try_from(n).ok()
}

// The line that answers a line, at the front of o; answers its length.
fn answer(line: &[u8], o: &mut [u8]) -> usize
    requires { length line.now + 104 ≤ length o.old }
    ensures value { (result ≡ length (answer_of line.now)) × (result ≤ length o.new) }
    ensures o_after { o.new ≡ sets o.old 0 (answer_of line.now) }
{
    let Some(mode) = mode_of(line) else {
        return vectors::put_unread(o, line, Err(Fault::Number));
    };
    let p = vectors::put_name(o, line);
    let q = put_mode(o, p, mode);
    o[q] = b'\n';
    q + 1
}

// The longest line that is read, with its end. The answer has the line, and at most 104 bytes behind it.
const INPUT: usize = 4096;

const OUT: usize = INPUT + 104;

fn run(
    rt: &(impl io::Input + Print + Eprint),
    input: &mut [u8; INPUT],
    out: &mut [u8; OUT],
) -> Result<(), Failed> {
    lines::for_each(
        rt,
        b"gmti_modes: standard input",
        input,
        |line: Line<'_>|
            requires { length_of line ≤ 4096 }
        {
            let n = match line {
                Line::Whole(line) => answer(line, out),
                Line::Cut(front) => vectors::put_unread(out, front, Err(Fault::Length)),
            };
            streams::write_all(
                rt,
                b"gmti_modes: standard output is cut",
                printing::front(out, n),
            )
        },
    )
}

fn main(rt: HostRuntime) {
    let mut input = [0u8; INPUT];
    let mut out = [0u8; OUT];
    // Where a read or a write failed, that has been said.
    let _ = run(&rt, &mut input, &mut out);
}
