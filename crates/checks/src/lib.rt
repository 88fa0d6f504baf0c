// The rows of the call, the header, and each body that has no mask, in their order. A function answers the first row that applies.
#![tactic(auto)]

ghost use Rattle.std.specs.Prelude.{◌≡◌, ◌&&◌, ◌||◌, cond, [], ◌∷◌, ◌≤◌, eqb, length};
ghost use Rattle.text.specs.Text.{text_fault};
ghost use Rattle.octets.specs.Octets.{between};
ghost use Rattle.format.specs.Packet.{header_widths, header_texts, mission_widths, mission_texts, free_text_widths, free_text_texts};
ghost use Rattle.format.specs.Check.{Passed, check_of};
ghost use Rattle.format.specs.Rows.{naming, first_row, header_rows, mission_rows, job_rows, text_rows, kept_rows};
ghost use Rattle.format.specs.Reader.{reading_of};

use format::Fault;

// The row with this number, where a field is at fault; 0 says that none is.
pub fn naming_row(number: usize, field: usize) -> Result<(), Fault>
    ensures { check_of result ≡ first_row (naming number field ∷ []) }
{
    if field == 0 {
        Ok(())
    } else {
        Err(Fault::naming(number, field))
    }
}

fn is_edition(edition: u32) -> bool
    ensures { result ≡ (eqb edition 1 || eqb edition 3) }
{
    matches!(edition, 1 | 3)
}

// P1: the character 1 or 3, and a digit.
fn is_version(first: u8, second: u8) -> bool
    ensures { result ≡ ((eqb first 0x31 || eqb first 0x33) && between 0x30 0x39 second) }
{
    matches!(first, b'1' | b'3') && second.is_ascii_digit()
}

// The number i, j or k of the first of three tests that fails, and 0 where none does. All three are made first, with no branch between, since
// nearly every packet passes all of them.
// Kept: six arguments. An array of pairs would be walked by a loop with an invariant, for three tests that stand here one under the other.
fn first_failed(a: bool, i: usize, b: bool, j: usize, c: bool, k: usize) -> usize
    ensures { result ≡ cond a (cond b (cond c 0 k) j) i }
{
    if !a {
        return i;
    }
    if !b {
        return j;
    }
    if !c {
        return k;
    }
    0
}

// P3, P5 and P8.
fn header_text(l: &[u8]) -> Result<(), Fault>
    requires { 32 ≤ length l.now }
    ensures { check_of result ≡ first_row (naming 5 (text_fault header_widths header_texts l.now) ∷ []) }
{
    let p3 = text::is_line(&l[6..8]);
    let p5 = text::is_line(&l[9..11]);
    let p8 = text::is_line(&l[14..24]);
    naming_row(5, first_failed(p3, 3, p5, 5, p8, 8))
}

pub fn header_check(settings: format::Settings, l: &[u8]) -> Result<(), Fault>
    ensures { check_of result ≡ first_row (header_rows settings l.now) }
{
    if !is_edition(settings.edition) {
        return Err(Fault::row(1));
    }
    if l.len() < format::HeaderRecord::LEN || format::LONGEST_PACKET < l.len() {
        return Err(Fault::row(2));
    }
    if !is_version(l[0], l[1]) {
        return Err(Fault::row(3));
    }
    if octets::get_u32(l, 2) as usize != l.len() {
        return Err(Fault::row(4));
    }
    header_text(l)
}

// The reading of a packet to whose header no row applies: what is asked for, and the version, which P1 begins with.
pub fn reading_of(settings: format::Settings, packet: &[u8]) -> format::Reading
    requires { first_row (header_rows settings packet.now) ≡ Passed }
    ensures { result ≡ reading_of settings packet.now }
{
    let first = packet[0];
    let version = first - 48;
    format::Reading { settings, version }
}

// M1, M2 and M4.
fn mission_text(b: &[u8]) -> Result<(), Fault>
    requires { 39 ≤ length b.now }
    ensures { check_of result ≡ first_row (naming 10 (text_fault mission_widths mission_texts b.now) ∷ []) }
{
    let m1 = text::is_line(&b[0..12]);
    let m2 = text::is_line(&b[12..24]);
    let m4 = text::is_line(&b[25..35]);
    naming_row(10, first_failed(m1, 1, m2, 2, m4, 4))
}

pub fn mission_check(b: &[u8]) -> Result<(), Fault>
    ensures { check_of result ≡ first_row (mission_rows b.now) }
{
    if b.len() != 39 {
        return Err(Fault::row(9));
    }
    mission_text(b)?;
    if !octets::is_between(1, 12, b[37]) {
        return Err(Fault::naming(13, 6));
    }
    if !octets::is_between(1, 31, b[38]) {
        return Err(Fault::naming(13, 7));
    }
    Ok(())
}

pub fn job_check(r: format::Reading, b: &[u8]) -> Result<(), Fault>
    ensures { check_of result ≡ first_row (job_rows r b.now) }
{
    if b.len() != 68 {
        return Err(Fault::row(9));
    }
    if !text::is_line(&b[5..11]) {
        return Err(Fault::naming(10, 3));
    }
    if editions::is_older(r) && editions::is_new_mode(b[format::JobRecord::J14]) {
        return Err(Fault::naming(15, 14));
    }
    Ok(())
}

// F1 and F2, each on one line, and F3, any text.
fn free_text(b: &[u8]) -> Result<(), Fault>
    requires { 20 ≤ length b.now }
    ensures { check_of result ≡ first_row (naming 10 (text_fault (free_text_widths b.now) free_text_texts b.now) ∷ []) }
{
    let f1 = text::is_line(&b[0..10]);
    let f2 = text::is_line(&b[10..20]);
    let f3 = text::is_text(&b[20..]);
    naming_row(10, first_failed(f1, 1, f2, 2, f3, 3))
}

pub fn text_check(b: &[u8]) -> Result<(), Fault>
    ensures { check_of result ≡ first_row (text_rows b.now) }
{
    if b.len() < 20 {
        return Err(Fault::row(9));
    }
    free_text(b)
}

// A body that is kept as bytes, of which there are n.
pub fn kept_check(n: usize, b: &[u8]) -> Result<(), Fault>
    ensures { check_of result ≡ first_row (kept_rows n b.now) }
{
    if b.len() != n {
        return Err(Fault::row(9));
    }
    Ok(())
}
