// Reads one packet as Edition 3 from standard input, and prints its answer and each target's latitude and longitude.
#![tactic(auto)]

ghost use Rattle.std.specs.Prelude.{◌≡◌, ◌+◌, ◌≤◌, length};
ghost use Rattle.std.proofs.lemmas.List.Edits.{sets};
ghost use Rattle.format.specs.Edition.{as_edition};
ghost use Rattle.format.specs.Reader.{read};
ghost use Rattle.gmti_read.specs.Printed.{printed_of};

use std::io;
use streams::Failed;

// All that is printed of these bytes, at the front of out; answers its length.
fn answer(packet: &[u8], sheet: &mut [u8], out: &mut [u8]) -> usize
    requires { 96 + length sheet.old ≤ length out.old }
    ensures value { (result ≡ length (printed_of (read (as_edition 3) packet.now sheet.old))) × (result ≤ length out.new) }
    ensures out_after { out.new ≡ sets out.old 0 (printed_of (read (as_edition 3) packet.now sheet.old)) }
{
    let a = reader::read(3, packet, sheet);
    printing::print(a, sheet, out)
}

// The sheet buffer that document 01 gives the program.
const SHEET: usize = 65536;

// One byte more than the longest packet has tells that the input is longer, and row 2 refuses it.
fn run(
    rt: &(impl io::Input + Print + Eprint),
    packet: &mut [u8; format::LONGEST_PACKET + 1],
    sheet: &mut [u8; SHEET],
    out: &mut [u8; printing::LINE + SHEET],
) -> Result<(), Failed> {
    let n = streams::read_all(rt, b"gmti_read: standard input", packet)?;
    let k = answer(&packet[..n], sheet, out);
    streams::write_all(rt, b"gmti_read: standard output is cut", &out[..k])
}

fn main(rt: HostRuntime) {
    let mut packet = [0u8; format::LONGEST_PACKET + 1];
    let mut sheet = [0u8; SHEET];
    let mut out = [0u8; printing::LINE + SHEET];
    // Where a read or a write failed, that has been said.
    let _ = run(&rt, &mut packet, &mut sheet, &mut out);
}
