// Standard input and output for the programs. A read that fails is no end of the input, and a write that fails is no write: each says so
// in a line on standard error, behind the words by which the caller names it, and the caller is told. A call that a signal
// interrupts is made again. Nothing is allocated.
#![tactic(auto)]

ghost use Rattle.std.specs.Prelude.{◌≡◌, ◌≤◌, length, IfOk, IfSome, MatchOption};

use std::io::{Cursor, ErrorKind, Read, Write};
use std::str::from_utf8;
use std::{fmt, io};

// A read or a write failed, which has been said.
#[derive(Clone, Copy, Debug, PartialEq, Eq, Drop)]
pub struct Failed;

// What a read gave that moved n bytes: so many, or none at the end of the input.
fn bytes_or_end(n: usize) -> Option<usize>
    ensures { MatchOption result (n ≡ 0) (λ k. (k ≡ n) × (1 ≤ k)) }
{
    if n == 0 { None } else { Some(n) }
}

// Some bytes of standard input, at the front of o; answers how many, one at least, and none at the end of the input. Where o has no room,
// nothing read would look like the end of the input. A proved loop has to end, and nothing says that signals do: so it has more turns
// than any run uses up.
pub fn read_some(
    rt: &(impl io::Input + Eprint),
    what: &[u8],
    o: &mut [u8],
) -> Result<Option<usize>, Failed>
    requires { 1 ≤ length o.old }
    ensures { IfOk result (λ read. IfSome read (λ n. (1 ≤ n) × (n ≤ length o.old))) }
{
    for _ in 0..u64::MAX {
        match rt.reader().read(o) {
            Ok(n) => {
                return Ok(bytes_or_end(n));
            }
            Err(e) if e.kind() == ErrorKind::Interrupted => {}
            Err(e) => {
                return Err(fail(rt, what, e));
            }
        }
    }
    Err(fail(rt, what, io::Error::from(ErrorKind::Interrupted)))
}

// All of standard input, or as much of it as o has room for; answers how many bytes. What came before a read that failed is not the input.
pub fn read_all(rt: &(impl io::Input + Eprint), what: &[u8], o: &mut [u8]) -> Result<usize, Failed>
    ensures { IfOk result (λ n. n ≤ length o.new) }
{
    let mut n = 0;
    while n < o.len() {
        let Some(k) = read_some(rt, what, &mut o[n..])? else {
            return Ok(n);
        };
        n += k;
    }
    Ok(n)
}

// Writes s, all of it, to standard output.
pub fn write_all(rt: &(impl Print + Eprint), what: &[u8], s: &[u8]) -> Result<(), Failed> {
    let mut rest = s;
    for _ in 0..u64::MAX {
        if rest.is_empty() {
            return Ok(());
        }
        match rt.write_some(rest) {
            Ok(n) => {
                rest = &rest[n..];
            }
            Err(e) if e.kind() == ErrorKind::Interrupted => {}
            Err(e) => {
                return Err(fail(rt, what, e));
            }
        }
    }
    Err(fail(rt, what, io::Error::from(ErrorKind::Interrupted)))
}

// Says on standard error why there is no answer.
pub fn complain(rt: &impl Eprint, line: &[u8]) {
    let _ = rt.eprint(Words(line));
}

// Says on standard error what failed, as the caller names it, and why. Where that can't be said either, nothing is left to be done.
fn fail(rt: &impl Eprint, what: &[u8], e: io::Error) -> Failed {
    let (text, n) = text_of(e);
    let what = Words(what);
    let why = Words(reason(&text[..n]));
    let _ = eprintln!(rt; "{what}: {why}");
    Failed
}

// What std says of an error, at the front, and how long that is.
// Kept: an array and a length, since nothing is allocated and no slice of a local can be handed out.
fn text_of(e: io::Error) -> ([u8; 256], usize)
    ensures { result.1 ≤ 256 }
{
    let mut text = Cursor::new([0u8; 256]);
    let _ = write!(text, "{e}");
    let n = text.position().min(256) as usize;
    (text.into_inner(), n)
}

// The system's words, without the number that std puts behind them, as in "Input/output error (os error 5)".
fn reason(said: &[u8]) -> &[u8] {
    let Ok(text) = from_utf8(said) else {
        return said;
    };
    match text.split_once(" (os error ") {
        Some((words, _)) => words.as_bytes(),
        None => said,
    }
}

// Bytes to be printed. Standard error takes text alone, so what is none shows as the replacement character.
#[derive(Drop)]
struct Words<'a>(&'a [u8]);

impl fmt::Display for Words<'_> {
    fn fmt<W: fmt::Write>(&self, f: &mut fmt::Formatter<W>) -> fmt::Result {
        for chunk in self.0.utf8_chunks() {
            f.write_str(chunk.valid())?;
            if !chunk.invalid().is_empty() {
                f.write_char(char::REPLACEMENT_CHARACTER)?;
            }
        }
        Ok(())
    }
}
