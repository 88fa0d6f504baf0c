// Reads one packet from standard input as the edition that its one argument names, 1 or 3, and writes the sheet's bytes to standard
// output, or the line of the refusal.
#![tactic(auto)]

ghost use Rattle.std.specs.Prelude.{◌≡◌, cond, [], ◌∷◌, ◌≤◌, length, Some, None, unwrap_or};
ghost use Rattle.format.specs.Edition.{as_edition};
ghost use Rattle.format.specs.Reader.{read};
ghost use Rattle.format.specs.Writer.{is_same};
ghost use Rattle.gmti_sheet.specs.Said.{said_of};

use std::env::{Env, FillError};
use std::io;
use streams::Failed;

// The edition that a word names.
fn edition_of(word: &[u8]) -> Option<u32>
    ensures { result ≡ cond (is_same word.now (49 ∷ [])) (Some 1) (cond (is_same word.now (51 ∷ [])) (Some 3) None) }
{
    match word {
        b"1" => Some(1),
        b"3" => Some(3),
        _ => None,
    }
}

// The edition of the program's one argument. Two bytes are room for a word of one letter, and tell that a word is longer.
fn edition_asked(rt: &impl Env) -> Option<u32> {
    let mut word = [0u8; 2];
    let mut next = [0u8; 2];
    let asked = rt.arg(1, &mut word);
    match (asked, rt.arg(2, &mut next)) {
        (Ok(n), Err(FillError::NotPresent)) => edition_of(&word[..n]),
        _ => None,
    }
}

// The sheet of the packet, or the line of the refusal. Row 1 refuses an edition of 0, which stands for any that is none.
fn answer<'a>(
    edition: Option<u32>,
    packet: &[u8],
    sheet: &'a mut [u8],
    line: &'a mut [u8],
) -> &'a [u8]
    requires { 96 ≤ length line.old }
    ensures { result.now ≡ said_of (read (as_edition (unwrap_or edition 0)) packet.now sheet.old) }
{
    let a = reader::read(edition.unwrap_or(0), packet, sheet);
    match a {
        Ok(counts) => printing::front(sheet, counts.length),
        Err(_) => {
            let k = printing::answer_line(line, a);
            printing::front(line, k)
        }
    }
}

// One byte more than the longest packet has tells that the input is longer, and row 2 refuses it.
fn run(
    rt: &(impl Env + io::Input + Print + Eprint),
    packet: &mut [u8; format::LONGEST_PACKET + 1],
    sheet: &mut [u8; format::LONGEST_SHEET],
    line: &mut [u8; printing::LINE],
) -> Result<(), Failed> {
    let n = streams::read_all(rt, b"gmti_sheet: standard input", packet)?;
    let said = answer(edition_asked(rt), &packet[..n], sheet, line);
    streams::write_all(rt, b"gmti_sheet: standard output is cut", said)
}

fn main(rt: HostRuntime) {
    let mut packet = [0u8; format::LONGEST_PACKET + 1];
    let mut sheet = [0u8; format::LONGEST_SHEET];
    let mut line = [0u8; printing::LINE];
    // Where a read or a write failed, that has been said.
    let _ = run(&rt, &mut packet, &mut sheet, &mut line);
}
