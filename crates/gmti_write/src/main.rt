// Reads a sheet from standard input, and writes the packet's bytes to standard output, or the line of the refusal.
#![tactic(auto)]

ghost use Rattle.std.specs.Prelude.{◌≤◌, length};

use std::io;
use streams::Failed;

// What the sheet spells, or the line of the refusal.
fn answer<'a>(sheet: &[u8], packet: &'a mut [u8], line: &'a mut [u8]) -> &'a [u8]
    requires { 96 ≤ length line.old }
{
    let a = writer::write(sheet, packet);
    match a {
        Ok(counts) => printing::front(packet, counts.length),
        Err(_) => {
            let k = printing::answer_line(line, a);
            printing::front(line, k)
        }
    }
}

// No reading gives a sheet that fills the lent memory, which has a byte more than the longest. Which row refuses such an input can't be
// told without all of it, so it gets no answer.
fn run(
    rt: &(impl io::Input + Print + Eprint),
    sheet: &mut [u8; format::LONGEST_SHEET + 1],
    packet: &mut [u8; format::LONGEST_PACKET],
    line: &mut [u8; printing::LINE],
) -> Result<(), Failed> {
    let n = streams::read_all(rt, b"gmti_write: standard input", sheet)?;
    if n == sheet.len() {
        streams::complain(rt, b"gmti_write: standard input is longer than any sheet\n");
        return Ok(());
    }
    let said = answer(&sheet[..n], packet, line);
    streams::write_all(rt, b"gmti_write: standard output is cut", said)
}

fn main(rt: HostRuntime) {
    let mut sheet = [0u8; format::LONGEST_SHEET + 1];
    let mut packet = [0u8; format::LONGEST_PACKET];
    let mut line = [0u8; printing::LINE];
    // Where a read or a write failed, that has been said.
    let _ = run(&rt, &mut sheet, &mut packet, &mut line);
}
