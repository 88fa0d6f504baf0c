// What the program prints, laid out in a lent buffer. Each function answers the place behind its bytes.
#![tactic(auto)]

ghost use Rattle.std.specs.Prelude.{◌≡◌, [], ◌∷◌, ◌+◌, ◌≤◌, ◌<◌, length, take};
ghost use Rattle.std.proofs.lemmas.List.Edits.{sets};
ghost use Rattle.format.specs.Answer.{answer_of};
ghost use Rattle.format.specs.Sheet.{body_length};
ghost use Rattle.format.specs.Writer.{listed};
ghost use Rattle.printing.specs.Printing.{decimal, signed_decimal, spaced, answer_text, answer_line, target_line, record_line, target_lines, printed};
ghost use Rattle.printing.specs.InnerPut.{Put};

use format::{Counts, Refusal, TargetRecord};
use sheet_walk::Place;

// Room for the line of an answer.
pub const LINE: usize = 96;

fn digit(d: usize) -> u8
    requires { d < 10 }
    ensures { result ≡ 48 + d }
{
    (48 + d) as u8
}

// The digits in front of the last are those of n / 10. A usize has at most 20, so calls nest no deeper.
pub fn put_decimal(o: &mut [u8], at: usize, n: usize) -> usize
    requires { at + length (decimal n) ≤ length o.old }
    ensures value { result ≡ at + length (decimal n) }
    ensures o_after { o.new ≡ sets o.old at (decimal n) }
{
    if n < 10 {
        o[at] = digit(n);
        at + 1
    } else {
        let p = put_decimal(o, at, n / 10);
        o[p] = digit(n % 10);
        p + 1
    }
}

// The numbers of a line, each after a space, in at most 21 bytes.
fn put_spaced(o: &mut [u8], at: usize, n: usize) -> usize
    requires { at + 21 ≤ length o.old }
    ensures { Put 21 o.old at (spaced (n ∷ [])) result o.new }
{
    o[at] = 32;
    put_decimal(o, at + 1, n)
}

fn put_three(o: &mut [u8], at: usize, a: usize, b: usize, c: usize) -> usize
    requires { at + 63 ≤ length o.old }
    ensures { Put 63 o.old at (spaced (a ∷ b ∷ c ∷ [])) result o.new }
{
    let p = put_spaced(o, at, a);
    let q = put_spaced(o, p, b);
    put_spaced(o, q, c)
}

// An answer without the end of its line, in at most 86 bytes.
pub fn put_answer(o: &mut [u8], at: usize, a: Result<Counts, Refusal>) -> usize
    requires { at + 86 ≤ length o.old }
    ensures value { (result ≡ at + length (answer_text (answer_of a))) × (result ≤ at + 86) }
    ensures o_after { o.new ≡ sets o.old at (answer_text (answer_of a)) }
{
    match a {
        Ok(counts) => {
            o[at] = b'o';
            o[at + 1] = b'k';
            let p = put_three(o, at + 2, counts.segments, counts.dwells, counts.targets);
            put_spaced(o, p, counts.length)
        }
        Err(refusal) => {
            o[at] = b'n';
            o[at + 1] = b'o';
            put_three(o, at + 2, refusal.number, refusal.segment, refusal.field)
        }
    }
}

pub fn answer_line(o: &mut [u8], a: Result<Counts, Refusal>) -> usize
    requires { 96 ≤ length o.old }
    ensures value { (result ≡ length (answer_line (answer_of a))) × (result ≤ 96) }
    ensures o_after { o.new ≡ sets o.old 0 (answer_line (answer_of a)) }
{
    let p = put_answer(o, 0, a);
    o[p] = b'\n';
    p + 1
}

fn put_signed(o: &mut [u8], at: usize, z: i32) -> usize
    requires { at + 21 ≤ length o.old }
    ensures { Put 21 o.old at (signed_decimal z) result o.new }
{
    if z < 0 {
        o[at] = b'-';
        put_decimal(o, at + 1, z.unsigned_abs() as usize)
    } else {
        put_decimal(o, at, z as usize)
    }
}

// The line of a target is shorter than its body.
fn target_line(o: &mut [u8], at: usize, b: &[u8]) -> usize
    requires { (at + body_length 4 ≤ length o.old) × (length b.now ≡ body_length 4) }
    ensures { Put (body_length 4) o.old at (target_line b.now) result o.new }
{
    let p = put_signed(o, at, octets::get_i32(b, TargetRecord::LATITUDE));
    let q = put_spaced(o, p, octets::get_u32(b, TargetRecord::LONGITUDE) as usize);
    o[q] = b'\n';
    q + 1
}

fn record_line(o: &mut [u8], at: usize, kind: u8, b: &[u8]) -> usize
    requires { (at + body_length kind ≤ length o.old) × (length b.now ≡ body_length kind) }
    ensures { Put (body_length kind) o.old at (record_line (record { kind = kind; body = b.now })) result o.new }
{
    if kind == TargetRecord::KIND {
        target_line(o, at, b)
    } else {
        at
    }
}

// The records of x up to its end, or to one that is cut or of no kind.
fn target_lines(o: &mut [u8], start: usize, x: &[u8]) -> usize
    requires { start + length x.now ≤ length o.old }
    ensures { Put (length x.now) o.old start (target_lines (listed x.now).records) result o.new }
{
    let mut p = start;
    let mut at = 0;
    loop {
        match sheet_walk::record_at(x, at) {
            Place::Whole(kind, end) => {
                let body = at + 1;
                p = record_line(o, p, kind, &x[body..end]);
                at = end;
            }
            Place::End => {
                return p;
            }
            Place::Cut => {
                return p;
            }
        }
    }
}

// The first n bytes of s, or all of them.
pub fn front(s: &[u8], n: usize) -> &[u8]
    ensures { result.now ≡ take n s.now }
{
    &s[..n.min(s.len())]
}

pub fn print(a: Result<Counts, Refusal>, sheet: &[u8], o: &mut [u8]) -> usize
    requires { 96 + length sheet.now ≤ length o.old }
    ensures value { result ≡ length (printed (answer_of a) sheet.now) }
    ensures o_after { o.new ≡ sets o.old 0 (printed (answer_of a) sheet.now) }
    ensures upper_bound { result ≤ 96 + length sheet.now }
{
    let p = answer_line(o, a);
    match a {
        Ok(counts) => target_lines(o, p, front(sheet, counts.length)),
        Err(_) => p,
    }
}
