// The parts of a program that reads a list of packets or sheets as text, one a line. Nothing is asked of the text itself: a line that
// has not its program's form is answered by what is wrong with it.
#![tactic(auto)]

ghost use Rattle.std.specs.Prelude.{◌≡◌, [], ◌∷◌, ◌++◌, ◌+◌, ◌*◌, ◌/◌, ◌≤◌, ◌<◌, min, length, drop, unwrap_or, is_some, ltb, IfSome, IsOk};
ghost use Rattle.std.proofs.lemmas.List.Edits.{sets};
ghost use Rattle.format.specs.Answer.{answer_of};
ghost use Rattle.vectors.specs.Vectors.{is_colon, is_number, digit_value, with_digit, spelt, number_of, hex_fault, is_hex, nibble, unhexed, hex_digit, hexed, fault_text, unread_line, vector_line};

use format::{Counts, Refusal};

// What is wrong with a line.
#[derive(Clone, Copy, Debug, PartialEq, Eq)]
pub enum Fault {
    // It lacks a colon or a space where one is due.
    Form,
    // A number has another character than digits, or is too large.
    Number,
    // A character is no hex digit.
    Digit,
    // The last byte has one hex digit.
    Half,
    // The line is longer than the program holds.
    Length,
}

// The place k bytes further, or the end of s.
pub fn further(s: &[u8], at: usize, k: usize) -> usize
    requires { at ≤ length s.now }
    ensures { (result ≡ min (length s.now) (at + k)) × (result ≤ length s.now) }
{
    at + k.min(s.len() - at)
}

// Whether a colon and a space stand at this place.
pub fn is_colon(s: &[u8], at: usize) -> bool
    requires { at ≤ length s.now }
    ensures { result ≡ is_colon (drop at s.now) }
{
    s[at..].starts_with(b": ")
}

// Whether s is digits, one at least.
pub fn is_number(s: &[u8]) -> bool
    ensures { result ≡ is_number s.now }
{
    !s.is_empty() && s.iter().all(|c| c.is_ascii_digit())
}

#[tactic(auto, unfolding(crate::specs::Vectors::digit_value, crate::specs::Vectors::is_digit))]
fn digit_value(c: u8) -> u64
    ensures { (result ≡ digit_value c) × (result < 10) }
{
    if c.is_ascii_digit() {
        u64::from(c - b'0')
    } else {
        0
    }
}

#[tactic(auto, unfolding(crate::specs::Vectors::with_digit))]
fn with_digit(n: u64, c: u8) -> u64
    requires { n ≤ 4294967296 }
    ensures { (result ≡ with_digit n c) × (result ≤ 4294967296) }
{
    (n * 10 + digit_value(c)).min(4294967296)
}

// The number that the digits of s spell; 2^32 stands for any that 32 bits do not hold.
pub fn number(s: &[u8]) -> u64
    ensures { result ≡ spelt s.now 0 }
{
    let mut n = 0;
    for c in s {
        n = with_digit(n, *c);
    }
    n
}

// The number that s spells in digits, one at least, where 32 bits hold it.
#[tactic(auto, unfolding(crate::specs::Vectors::number_of))]
pub fn number_of(s: &[u8]) -> Option<u32>
    ensures { result ≡ number_of s.now }
{
    if !is_number(s) {
        return None;
    }
    u32::try_from(number(s)).ok()
}

// The value of a hex digit.
// Kept: by ranges. With the library's `to_digit` a list of long packets takes 1.4 times the time.
#[tactic(auto, unfolding(crate::specs::Vectors::nibble))]
fn nibble(c: u8) -> Option<u8>
    ensures value { unwrap_or result 16 ≡ nibble c }
    ensures variant { is_some result ≡ ltb (nibble c) 16 }
    ensures upper_bound { IfSome result (λ d. d < 16) }
{
    match c {
        b'0'..=b'9' => Some(c - b'0'),
        b'A'..=b'F' => Some(c - b'A' + 10),
        b'a'..=b'f' => Some(c - b'a' + 10),
        _ => None,
    }
}

fn is_hex(s: &[u8]) -> bool
    ensures { result ≡ is_hex s.now }
{
    s.iter().all(|c| nibble(*c).is_some())
}

// What keeps s from being bytes in hex.
#[tactic(auto, unfolding(crate::specs::Vectors::hex_fault))]
pub fn hex_fault(s: &[u8]) -> Result<(), Fault>
    ensures { result ≡ hex_fault s.now }
{
    if !is_hex(s) {
        return Err(Fault::Digit);
    }
    if s.len() % 2 != 0 {
        return Err(Fault::Half);
    }
    Ok(())
}

// The bytes that the hex digits of s spell, at the front of o; answers how many.
pub fn unhex(s: &[u8], o: &mut [u8]) -> usize
    requires s_value { IsOk (hex_fault s.now) }
    requires s_in_bounds { length s.now / 2 ≤ length o.old }
    ensures value { (result ≡ length s.now / 2) × (result ≤ length o.new) }
    ensures o_after { o.new ≡ sets o.old 0 (unhexed s.now) }
{
    let n = s.len() / 2;
    // Kept: the index, since the loop stands at one place of o and at two of s, as `pairs` of specs/Vectors.antt says it; and the 16 for
    // none, though each of these is a digit: `unwrap` tests for one, and keeps the loop from taking many at once.
    for i in 0..n {
        o[i] = nibble(s[2 * i]).unwrap_or(16) * 16 + nibble(s[2 * i + 1]).unwrap_or(16);
    }
    n
}

fn hex_digit(d: u8) -> u8
    requires { d < 16 }
    ensures { result ≡ hex_digit d }
{
    if d < 10 { b'0' + d } else { b'a' - 10 + d }
}

// The bytes of s in hex, from `at` on in o; answers the place behind them.
pub fn put_hex(o: &mut [u8], at: usize, s: &[u8]) -> usize
    requires { at + 2 * length s.now ≤ length o.old }
    ensures value { result ≡ at + 2 * length s.now }
    ensures o_after { o.new ≡ sets o.old at (hexed s.now) }
{
    let mut p = at;
    // Kept: the place p, which is the answer too.
    for x in s {
        o[p] = hex_digit(*x / 16);
        o[p + 1] = hex_digit(*x % 16);
        p += 2;
    }
    p
}

// A word, from `at` on in o; answers the place behind it.
pub fn put_word(o: &mut [u8], at: usize, word: &[u8]) -> usize
    requires { at + length word.now ≤ length o.old }
    ensures value { result ≡ at + length word.now }
    ensures o_after { o.new ≡ sets o.old at word.now }
{
    copies::copy_all(word, o, at);
    at + word.len()
}

pub fn put_name(o: &mut [u8], name: &[u8]) -> usize
    requires { length name.now + 2 ≤ length o.old }
    ensures value { result ≡ length name.now + 2 }
    ensures o_after { o.new ≡ sets o.old 0 (name.now ++ (58 ∷ 32 ∷ [])) }
{
    let p = put_word(o, 0, name);
    put_word(o, p, b": ")
}

// The line that answers a vector, at the front of o; answers its length.
pub fn put_line(o: &mut [u8], name: &[u8], a: Result<Counts, Refusal>, sheet: &[u8]) -> usize
    requires { length name.now + 2 * length sheet.now + 90 ≤ length o.old }
    ensures value { (result ≡ length (vector_line name.now (answer_of a) sheet.now)) × (result ≤ length o.new) }
    ensures o_after { o.new ≡ sets o.old 0 (vector_line name.now (answer_of a) sheet.now) }
{
    let p = put_name(o, name);
    let q = printing::put_answer(o, p, a);
    o[q] = b' ';
    let r = put_hex(o, q + 1, sheet);
    o[r] = b'\n';
    r + 1
}

// The words for what is wrong with a line, and none where nothing is.
#[tactic(auto, unfolding(crate::specs::Vectors::fault_text))]
fn words(f: Result<(), Fault>) -> &'static [u8]
    ensures { (result.now ≡ fault_text f) × (length result.now ≤ 13) }
{
    match f {
        Ok(()) => b"",
        Err(Fault::Form) => b"unread form",
        Err(Fault::Number) => b"unread number",
        Err(Fault::Digit) => b"unread digit",
        Err(Fault::Half) => b"unread half",
        Err(Fault::Length) => b"unread length",
    }
}

// The line that answers one that is not read, at the front of o; answers its length.
pub fn put_unread(o: &mut [u8], name: &[u8], f: Result<(), Fault>) -> usize
    requires { length name.now + 16 ≤ length o.old }
    ensures value { (result ≡ length (unread_line name.now f)) × (result ≤ length o.new) }
    ensures o_after { o.new ≡ sets o.old 0 (unread_line name.now f) }
{
    let p = put_name(o, name);
    let q = put_word(o, p, words(f));
    o[q] = b'\n';
    q + 1
}
