// Reads a number k from standard input, and writes a packet of one dwell with k targets of 4 bytes, whose sheet falls 542 bytes short of the
// bound.
#![tactic(auto)]

ghost use Rattle.std.specs.Prelude.{◌≡◌, ◌+◌, ◌*◌, ◌≤◌, length, MatchOption};
ghost use Rattle.std.proofs.lemmas.List.Edits.{sets};
ghost use Rattle.gmti_longest.specs.Longest.{without_line_feed, asked, delta_packet, written};

use std::io;
use streams::Failed;

// The packet's bytes in front of its targets: its header, the segment's, the mask, D2 to D11, D24 to D27. The bytes of each target, and the
// most that fit.
const FRONT: usize = format::HeaderRecord::LEN + 5 + 8 + 31 + 12;

const EACH: usize = 4;

const MOST: usize = (format::LONGEST_PACKET - FRONT) / EACH;

// D2 to D11, D24 to D27, D32.4 and D32.5.
const MASK: u64 = 0xFFC0_03C0_6000_0000;

// The input but for a line feed at its end.
fn without_line_feed(input: &[u8]) -> &[u8]
    ensures { result.now ≡ without_line_feed input.now }
{
    input.strip_suffix(b"\n").unwrap_or(input)
}

// The k that the input asks for, if it asks for one.
fn asked(input: &[u8]) -> Option<usize>
    ensures { MatchOption result (asked input.now ≡ 0) (λ k. (k ≡ asked input.now) × ((1 ≤ k) × (k ≤ 16362))) }
{
    let word = without_line_feed(input);
    if word.starts_with(b"0") {
        return None;
    }
    let k = vectors::number_of(word)? as usize;
    if 1 <= k && k <= MOST { Some(k) } else { None }
}

// The packet with k targets, at the front of o; answers its length.
fn lay_out(k: usize, o: &mut [u8]) -> usize
    requires { (k ≤ 16362) × (88 + 4 * k ≤ length o.old) }
    ensures { (result ≡ 88 + 4 * k) × (o.new ≡ sets o.old 0 (delta_packet k)) }
{
    let n = FRONT + EACH * k;
    // P1 and P2; P3 to P10 and the segment's type; its size, the mask and D2 to D4; D5; all else.
    copies::copy_all(b"30", o, 0);
    octets::put_u32(o, 2, n as u32);
    copies::copy_all(b"  \0  \0\0\0          \0\0\0\0\0\0\0\0\x02", o, 6);
    octets::put_u32(o, 33, (n - 32) as u32);
    octets::put_u64(o, 37, MASK);
    copies::clear(o, 45, 5);
    octets::put_u16(o, 50, k as u16);
    copies::clear(o, 52, n - 52);
    n
}

// All that is written for the input, at the front of o; answers its length.
fn answer(input: &[u8], o: &mut [u8]) -> usize
    requires { 65536 ≤ length o.old }
    ensures value { result ≡ length (written input.now) }
    ensures o_after { o.new ≡ sets o.old 0 (written input.now) }
{
    match asked(input) {
        Some(k) => lay_out(k, o),
        None => 0,
    }
}

// The first 7 bytes of an input decide what is written for it (specs/Input.antt), so no more are read.
const INPUT: usize = 7;

fn run(
    rt: &(impl io::Input + Print + Eprint),
    input: &mut [u8],
    packet: &mut [u8; format::LONGEST_PACKET],
) -> Result<(), Failed>
    requires { 7 ≤ length input.old }
{
    let n = streams::read_all(rt, b"gmti_longest: standard input", input)?;
    let length = answer(&input[..n], packet);
    streams::write_all(
        rt,
        b"gmti_longest: standard output is cut",
        printing::front(packet, length),
    )
}

fn main(rt: HostRuntime) {
    let mut input = [0u8; INPUT];
    let mut packet = [0u8; format::LONGEST_PACKET];
    // Where a read or a write failed, that has been said.
    let _ = run(&rt, &mut input, &mut packet);
}
