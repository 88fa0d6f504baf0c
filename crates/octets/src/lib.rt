// Numbers in a slice of bytes, highest byte first.
// Kept: sums of bytes and stores byte by byte, of which the compiler makes moves. The library's `from_be_bytes` and `to_be_bytes` take and give an
// array, and between a packet and the pieces of its sheet there is to be none.
// Kept: a function for each type, as the library has a `from_be_bytes` for each. No trait of the library's ties a number's type to its bytes,
// and one of this crate's own, with an impl for each, is no plainer.
#![tactic(auto)]

ghost use Rattle.std.specs.Prelude.{◌≡◌, ◌+◌, ◌≤◌, ◌<◌, length, drop};
ghost use Rattle.std.proofs.lemmas.List.Edits.{sets};
ghost use Rattle.octets.specs.Octets.{be, bytes, twos, signed, signed_bytes, between};

pub fn get_u16(s: &[u8], at: usize) -> u16
    requires { at + 2 ≤ length s.now }
    ensures { result ≡ be 2 (drop at s.now) }
{
    u16::from(s[at]) * 256 + u16::from(s[at + 1])
}

pub fn get_u32(s: &[u8], at: usize) -> u32
    requires { at + 4 ≤ length s.now }
    ensures { result ≡ be 4 (drop at s.now) }
{
    u32::from(get_u16(s, at)) * 65536 + u32::from(get_u16(s, at + 2))
}

// One sum of four numbers and not two of 32 bits: of two the compiler makes no single move.
pub fn get_u64(s: &[u8], at: usize) -> u64
    requires { at + 8 ≤ length s.now }
    ensures { result ≡ be 8 (drop at s.now) }
{
    u64::from(get_u16(s, at)) * 281474976710656
        + u64::from(get_u16(s, at + 2)) * 4294967296
        + u64::from(get_u16(s, at + 4)) * 65536
        + u64::from(get_u16(s, at + 6))
}

pub fn get_i16(s: &[u8], at: usize) -> i16
    requires { at + 2 ≤ length s.now }
    ensures { result ≡ signed 2 (drop at s.now) }
{
    get_u16(s, at).cast_signed()
}

pub fn get_i32(s: &[u8], at: usize) -> i32
    requires { at + 4 ≤ length s.now }
    ensures { result ≡ signed 4 (drop at s.now) }
{
    get_u32(s, at).cast_signed()
}

// The writers store the bytes from at on, and nothing else: `sets l i vs` is the list l with vs stored from the place i on.
pub fn put_u16(s: &mut [u8], at: usize, v: u16)
    requires { at + 2 ≤ length s.old }
    ensures { s.new ≡ sets s.old at (bytes 2 v) }
{
    s[at] = (v / 256 % 256) as u8;
    s[at + 1] = (v % 256) as u8;
}

pub fn put_u32(s: &mut [u8], at: usize, v: u32)
    requires { at + 4 ≤ length s.old }
    ensures { s.new ≡ sets s.old at (bytes 4 v) }
{
    put_u16(s, at, (v / 65536) as u16);
    put_u16(s, at + 2, (v % 65536) as u16);
}

pub fn put_u64(s: &mut [u8], at: usize, v: u64)
    requires { at + 8 ≤ length s.old }
    ensures { s.new ≡ sets s.old at (bytes 8 v) }
{
    put_u32(s, at, (v / 4294967296) as u32);
    put_u32(s, at + 4, (v % 4294967296) as u32);
}

pub fn put_i32(s: &mut [u8], at: usize, v: i32)
    requires { at + 4 ≤ length s.old }
    ensures { s.new ≡ sets s.old at (signed_bytes 4 v) }
{
    put_u32(s, at, v.cast_unsigned());
}

// Whether x is one of first to last.
pub fn is_between(first: u8, last: u8, x: u8) -> bool
    ensures { result ≡ between first last x }
{
    (first..=last).contains(&x)
}
