// Whether bytes are text. A byte has a rank: at most a limit for the bytes of a set, above it for all others. A fold keeps the highest rank, by
// differences and choices of numbers alone: with no branch on the bytes the compiler takes many of them at a time.
// Kept: the ranks. A fold over `matches!(c, 0x20..=0x7E | ..)` was tried: the bar 'free text' rose from 1.00 to 1.57, or 1.66 by bytes.
#![tactic(auto)]

ghost use Rattle.std.specs.Prelude.{◌≡◌, nat_le};
ghost use Rattle.text.specs.Text.{is_line_byte, is_text_byte, is_line, is_text};

// 0x20 to 0x7E have the ranks 0 to 94. A byte below 0x20 counts as 256 more, so that its rank is above 94 too.
fn line_rank(c: u8) -> u8
    ensures { nat_le result 94 ≡ is_line_byte c }
{
    c.wrapping_sub(0x20)
}

// Text on one line.
pub fn is_line(s: &[u8]) -> bool
    ensures { result ≡ is_line s.now }
{
    s.iter().fold(0u8, |highest, &c| highest.max(line_rank(c))) <= 94
}

// At most 2 for a byte of any text: 0 for 0x20 to 0x7C, 1 for 0x7D and 2 for 0x7E. With their lowest bit turned, 0x0A, 0x0D and 0x0C are 0x0B,
// 0x0C and 0x0D, which from 0x0B on are 0, 1 and 2 again. Of the two ranks the lower counts.
fn text_rank(c: u8) -> u8
    ensures { nat_le result 2 ≡ is_text_byte c }
{
    let above = c.wrapping_sub(0x20);
    let printable = above.saturating_sub(92);
    let control = (c ^ 1).wrapping_sub(0x0B);
    printable.min(control)
}

// Any text.
pub fn is_text(s: &[u8]) -> bool
    ensures { result ≡ is_text s.now }
{
    s.iter().fold(0u8, |highest, &c| highest.max(text_rank(c))) <= 2
}
