// The lines of standard input, one after another, in lent memory that has room for the longest: a list of any length is read so.
#![tactic(auto)]

ghost use Rattle.std.specs.Prelude.{◌≡◌, ℕ, ◌+◌, ◌-◌, ◌≤◌, length, take, drop, IfOk, IfSome};
ghost use Rattle.lines.specs.Lines.{before, HeldWithin, NextWithin, length_of};

use std::io;
use streams::Failed;

// What is handed on of a line.
#[derive(Clone, Copy, Debug, PartialEq, Eq)]
pub enum Line<'a> {
    // All of it without its line feed, which the last line may lack.
    Whole(&'a [u8]),
    // The first bytes of one that the lent memory, which they fill, does not hold.
    Cut(&'a [u8]),
}

// What comes next.
#[derive(Clone, Copy, Debug, PartialEq, Eq)]
enum Next {
    // A line, from the first place to the second, without its line feed.
    Whole(usize, usize),
    // A line that the lent memory does not hold: it is full of the line's first bytes.
    Cut,
}

// What is to be read behind what is held.
#[derive(Clone, Copy, Debug, PartialEq, Eq)]
enum Rest {
    // More lines.
    Lines,
    // The rest of a line that was too long.
    CutLine,
    // Nothing: the input is at its end.
    Nothing,
}

// A reader of lines: of the lent memory the bytes from `from` to `end` have been read and not yet handed on.
// Kept: two places and no range, which is not copied and would be no plainer in the contracts.
#[derive(Clone, Copy, Debug, PartialEq, Eq, Drop)]
struct Lines {
    from: usize,
    end: usize,
    rest: Rest,
}

// How many bytes of s stand before the first byte b: all, where there is none.
fn before(s: &[u8], b: u8) -> usize
    ensures { (result ≡ before b s.now) × (result ≤ length s.now) }
{
    s.iter().position(|c| *c == b).unwrap_or(s.len())
}

// The place of the first byte b from `at` on, or the end of s.
pub fn find(s: &[u8], at: usize, b: u8) -> usize
    requires { at ≤ length s.now }
    ensures value { result ≡ at + before b (drop at s.now) }
    ensures lower_bound { (at ≤ result) × (result ≤ length s.now) }
{
    at + before(&s[at..], b)
}

impl Lines {
    // Nothing is held.
    fn empty(rest: Rest) -> Self
        ensures { (result.from ≡ 0) × (result.end ≡ 0) }
    {
        Self {
            from: 0,
            end: 0,
            rest,
        }
    }

    // The line from `from` to `to`: what is behind its line feed, up to `end`, is held.
    fn whole(&mut self, from: usize, to: usize, end: usize) -> Option<Next>
        requires { (from ≤ to) × (to + 1 ≤ end) }
        ensures { HeldWithin end self.new × IfSome result (NextWithin end) }
    {
        *self = Self {
            from: to + 1,
            end,
            rest: Rest::Lines,
        };
        Some(Next::Whole(from, to))
    }

    // At the end of the input, behind which nothing is read: the bytes in front, if there are any, are the last line.
    fn last(&mut self, end: usize) -> Option<Next>
        ensures { HeldWithin end self.new × IfSome result (NextWithin end) }
    {
        *self = Self::empty(Rest::Nothing);
        if end == 0 {
            None
        } else {
            Some(Next::Whole(0, end))
        }
    }

    // The line whose first bytes, without a line feed, are the first `front` of b. The rest is read, and only what is new is searched.
    fn read_line(
        &mut self,
        rt: &(impl io::Input + Eprint),
        what: &[u8],
        b: &mut [u8],
        front: usize,
    ) -> Result<Option<Next>, Failed>
        requires { front ≤ length b.old }
        ensures { IfOk result (λ next. HeldWithin (length b.new) self.new × IfSome next (NextWithin (length b.new))) }
    {
        let mut end = front;
        while end < b.len() {
            let Some(n) = streams::read_some(rt, what, &mut b[end..])? else {
                return Ok(self.last(end));
            };
            let read = end + n;
            let to = find(&b[..read], end, b'\n');
            if to < read {
                return Ok(self.whole(0, to, read));
            }
            end = read;
        }
        *self = Self::empty(Rest::CutLine);
        Ok(Some(Next::Cut))
    }

    // The line that begins at `from`.
    fn line_from(
        &mut self,
        rt: &(impl io::Input + Eprint),
        what: &[u8],
        b: &mut [u8],
        from: usize,
        end: usize,
    ) -> Result<Option<Next>, Failed>
        requires { (from ≤ end) × (end ≤ length b.old) }
        ensures { IfOk result (λ next. HeldWithin (length b.new) self.new × IfSome next (NextWithin (length b.new))) }
    {
        let to = find(&b[..end], from, b'\n');
        if to < end {
            return Ok(self.whole(from, to, end));
        }
        let front = to_front(b, from, end);
        self.read_line(rt, what, b, front)
    }

    // The line behind one that was cut, whose rest goes unread. As in `streams`, the loop has more turns than any run uses up.
    fn line_behind(
        &mut self,
        rt: &(impl io::Input + Eprint),
        what: &[u8],
        b: &mut [u8],
    ) -> Result<Option<Next>, Failed>
        requires { 1 ≤ length b.old }
        ensures { IfOk result (λ next. HeldWithin (length b.new) self.new × IfSome next (NextWithin (length b.new))) }
    {
        for _ in 0..u64::MAX {
            let Some(n) = streams::read_some(rt, what, b)? else {
                break;
            };
            let to = find(&b[..n], 0, b'\n');
            if to < n {
                return self.line_from(rt, what, b, to + 1, n);
            }
        }
        *self = Self::empty(Rest::Nothing);
        Ok(None)
    }

    // The next line of standard input, and none at its end.
    fn next(
        &mut self,
        rt: &(impl io::Input + Eprint),
        what: &[u8],
        b: &mut [u8],
    ) -> Result<Option<Next>, Failed>
        requires { (1 ≤ length b.old) × HeldWithin (length b.old) self.old }
        ensures { IfOk result (λ next. HeldWithin (length b.new) self.new × IfSome next (NextWithin (length b.new))) }
    {
        match self.rest {
            Rest::Lines => self.line_from(rt, what, b, self.from, self.end),
            Rest::CutLine => self.line_behind(rt, what, b),
            Rest::Nothing => Ok(None),
        }
    }
}

// Moves the bytes from `from` to `end` to the front; answers how many they are.
fn to_front(b: &mut [u8], from: usize, end: usize) -> usize
    requires { (from ≤ end) × (end ≤ length b.old) }
    ensures value { result ≡ end - from }
    ensures b_after { take result b.new ≡ take result (drop from b.old) }
{
    b.copy_within(from..end, 0);
    end - from
}

// Hands the lines of standard input on to f, one after another, until the input is at its end or something fails. As in `streams`, the loop
// has more turns than any run uses up.
pub fn for_each<F: FnMut(Line<'_>) -> Result<(), Failed>>(
    rt: &(impl io::Input + Eprint),
    what: &[u8],
    b: &mut [u8],
    mut f: F,
) -> Result<(), Failed>
    requires b_not_empty { 1 ≤ length b.old }
    requires callable { (state : F) (line : _) → length_of line ≤ length b.old → F.pre state line }
{
    let mut lines = Lines::empty(Rest::Lines);
    for _ in 0..u64::MAX {
        match lines.next(rt, what, b)? {
            Some(Next::Whole(from, to)) => f(Line::Whole(&b[from..to]))?,
            Some(Next::Cut) => f(Line::Cut(b))?,
            None => return Ok(()),
        }
    }
    Ok(())
}
