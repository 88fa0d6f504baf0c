// The mask of an HRR segment and what goes by it: the bytes that it announces, and the scatterers. Read as 8 bytes of which the last 3 are zero,
// the mask numbers its fields as a dwell's does.
#![tactic(auto)]

ghost use Rattle.std.specs.Prelude.{◌≡◌, true, not, ◌&&◌, ◌||◌, cond, ℕ, ◌+◌, ◌*◌, ◌≤◌, length};
ghost use Rattle.octets.specs.Layout.{total};
ghost use Rattle.mask.specs.Fields.{announced, taken, announced_length};
ghost use Rattle.hrr.specs.Hrr.{hrr_mask, is_hrr_mask, hrr_widths, hrr_fields};
ghost use Rattle.hrr.specs.InnerScatterers.{widths, Headed, Wide, with_widths, scatterers_of, widths_of, Fitting, Bounded, Narrow, digits, NarrowDigits, number_if};

// Sets of fields, each a word with their bits: the mandatory ones with the magnitude, and what the last six bits would announce.
const MANDATORY: u64 = 0xE2FB_C782_0000_0000;

const SPARE: u64 = 0x0000_0000_3F00_0000;

// The bytes of the mask.
pub const MASK: usize = 5;

// Where the numbers stand in H2 to H31 at full widths that tell the scatterers.
const H6: usize = 7;

const H7: usize = 9;

const H8: usize = 11;

const H25: usize = 45;

const H26: usize = 46;

// The bytes of a range index or a Doppler index.
const INDEX: u8 = 1;

// The mask at the front of a body, or of a record's.
#[tactic(auto, unfolding(octets::specs::Octets::be, crate::specs::Hrr::hrr_mask))]
pub fn mask_of(b: &[u8]) -> u64
    requires { 5 ≤ length b.now }
    ensures { result ≡ hrr_mask b.now }
{
    u64::from_be_bytes([b[0], b[1], b[2], b[3], b[4], 0, 0, 0])
}

// The fields at fault, each at its bit.
fn faults(mask: u64) -> u64
    ensures { (n : ℕ) → announced result n ≡ ((announced 0xE2FB_C782_0000_0000 n && not (announced mask n)) || (announced 0x3F00_0000 n && announced mask n)) }
{
    mask::missing(mask, MANDATORY) | mask::common(mask, SPARE)
}

// Whether row 21 lets the mask pass.
pub fn is_mask(mask: u64) -> bool
    ensures { result ≡ is_hrr_mask mask }
{
    faults(mask) == 0
}

// The bytes of four fields, for each of the 16 ways to announce them. The first field is the highest bit of the index. Where three fields are
// left, the table counts the one behind them as 0.
const LENGTHS_H2_TO_5: [u8; 16] = [0, 2, 1, 3, 2, 4, 3, 5, 2, 4, 3, 5, 4, 6, 5, 7];

const LENGTHS_H6_TO_9: [u8; 16] = [0, 1, 2, 3, 2, 3, 4, 5, 2, 3, 4, 5, 4, 5, 6, 7];

const LENGTHS_H10_TO_13: [u8; 16] = [0, 4, 2, 6, 2, 6, 4, 8, 1, 5, 3, 7, 3, 7, 5, 9];

const LENGTHS_H14_TO_17: [u8; 16] = [0, 1, 1, 2, 4, 5, 5, 6, 4, 5, 5, 6, 8, 9, 9, 10];

const LENGTHS_H18_TO_21: [u8; 16] = [0, 2, 1, 3, 2, 4, 3, 5, 1, 3, 2, 4, 3, 5, 4, 6];

const LENGTHS_H22_TO_24: [u8; 16] = [0, 0, 1, 1, 1, 1, 2, 2, 4, 4, 5, 5, 5, 5, 6, 6];

const LENGTHS_H25_TO_28: [u8; 16] = [0, 4, 1, 5, 1, 5, 2, 6, 1, 5, 2, 6, 2, 6, 3, 7];

const LENGTHS_H29_TO_31: [u8; 16] = [0, 0, 4, 4, 4, 4, 8, 8, 1, 1, 5, 5, 5, 5, 9, 9];

// The bytes of the announced fields in front of H25, of any mask.
pub fn length_before_h25(mask: u64) -> usize
    ensures { (result ≡ announced_length mask 2 (widths 2 24)) × (result ≤ 45) }
{
    mask::four(mask, 2, &LENGTHS_H2_TO_5)
        + mask::four(mask, 6, &LENGTHS_H6_TO_9)
        + mask::four(mask, 10, &LENGTHS_H10_TO_13)
        + mask::four(mask, 14, &LENGTHS_H14_TO_17)
        + mask::four(mask, 18, &LENGTHS_H18_TO_21)
        + mask::four(mask, 22, &LENGTHS_H22_TO_24)
}

// And of all of them.
pub fn fields_length(mask: u64) -> usize
    ensures { (result ≡ announced_length mask 2 hrr_widths) × (result ≤ 61) }
{
    length_before_h25(mask)
        + mask::four(mask, 25, &LENGTHS_H25_TO_28)
        + mask::four(mask, 29, &LENGTHS_H29_TO_31)
}

// The scatterers of a segment: the bytes that the magnitude, the phase and the two indices of each take, and how many they are.
#[derive(Clone, Copy, Debug, PartialEq, Eq)]
pub struct Scatterers {
    pub magnitude: usize,
    pub phase: usize,
    pub range: usize,
    pub doppler: usize,
    pub count: usize,
}

// The number in the two bytes at `at` where the mask announces field n, and else 0.
fn number_if(b: &[u8], mask: u64, n: usize, at: usize) -> u16
    requires { (2 ≤ n) × (n ≤ 65) × (announced mask n ≡ true → at + 2 ≤ length b.now) }
    ensures { result ≡ number_if mask n at b.now }
{
    if mask::has(mask, n) {
        octets::get_u16(b, at)
    } else {
        0
    }
}

// How many there are by H6, H7 and H8, of which an absent one is 0.
fn count_of(mask: u64, h6: u16, h7: u16, h8: u16) -> usize
    ensures { (result ≡ cond (announced mask 6) h6 (h7 * h8)) × (result ≤ 4294836225) }
{
    if mask::has(mask, 6) {
        usize::from(h6)
    } else {
        usize::from(h7) * usize::from(h8)
    }
}

// The same with the widths: H25, H26 and those of the indices, where they are announced.
fn with_widths(mask: u64, h25: u8, h26: u8, count: usize) -> Scatterers
    requires { count ≤ 4294836225 }
    ensures { (result ≡ with_widths mask h25 h26 count) × Bounded result }
{
    Scatterers {
        magnitude: mask::width_if(mask, 32, h25),
        phase: mask::width_if(mask, 33, h26),
        range: mask::width_if(mask, 34, INDEX),
        doppler: mask::width_if(mask, 35, INDEX),
        count,
    }
}

// By the mask and by H2 to H31 at full widths, which f begins with.
#[tactic(auto, unfolding(octets::specs::Layout::total, octets::specs::Layout::value))]
pub fn scatterers_of(mask: u64, f: &[u8]) -> Scatterers
    requires { Wide f.now }
    ensures { (result ≡ scatterers_of mask f.now) × Bounded result }
{
    let count = count_of(
        mask,
        number_if(f, mask, 6, H6),
        number_if(f, mask, 7, H7),
        number_if(f, mask, 8, H8),
    );
    with_widths(mask, f[H25], f[H26], count)
}

// The same of a segment's body, where the announced fields alone stand: from `at` on H25 and H26.
pub fn scatterers_in(b: &[u8], mask: u64, at: usize) -> Scatterers
    requires { Headed mask b.now × (at ≡ 5 + announced_length mask 2 (widths 2 24)) }
    ensures { (result ≡ scatterers_of mask (hrr_fields b.now)) × Bounded result }
{
    let h6 = MASK + mask::four(mask, 2, &LENGTHS_H2_TO_5);
    let h7 = h6 + mask::width_if(mask, 6, 2);
    let h8 = h7 + mask::width_if(mask, 7, 2);
    let count = count_of(
        mask,
        number_if(b, mask, 6, h6),
        number_if(b, mask, 7, h7),
        number_if(b, mask, 8, h8),
    );
    with_widths(mask, b[at], b[at + 1], count)
}

// The bytes of a scatterer.
#[tactic(auto, unfolding(octets::specs::Layout::total))]
pub fn each_of(s: Scatterers) -> usize
    requires { Fitting s }
    ensures { (result ≡ total (widths_of s)) × (result ≤ 1020) }
{
    s.magnitude + s.phase + s.range + s.doppler
}

// The four widths as the digits of a number, by which a loop is chosen that knows them.
pub fn pattern_of(s: Scatterers) -> usize
    requires { Narrow s }
    ensures { (digits result ≡ widths_of s) × NarrowDigits result }
{
    s.magnitude * 1000 + s.phase * 100 + s.range * 10 + s.doppler
}

// What f does with that number to what is lent. For each pattern of widths that row 22 lets pass it is called with a constant: so the compiler
// makes of it a loop that knows the widths, and tests none.
// Kept: an arm for each pattern. The compiler has a constant only where one stands in the code, so that no loop over a table does the same.
pub fn by_pattern<F: FnOnce(usize, &mut [u8])>(s: Scatterers, o: &mut [u8], f: F)
    requires { Narrow s × ((n : ℕ) (lent : _) → digits n ≡ widths_of s → NarrowDigits n → lent.now ≡ o.old → F.pre f n lent) }
    ensures { (n : ℕ) × (lent : _) × (left : _) × (digits n ≡ widths_of s) × NarrowDigits n × (lent.now ≡ o.old) × F.post f n lent tt left × (left.now ≡ o.new) }
{
    let n = pattern_of(s);
    match n {
        1000 => f(1000, o),
        1001 => f(1001, o),
        1010 => f(1010, o),
        1011 => f(1011, o),
        1100 => f(1100, o),
        1101 => f(1101, o),
        1110 => f(1110, o),
        1111 => f(1111, o),
        1200 => f(1200, o),
        1201 => f(1201, o),
        1210 => f(1210, o),
        1211 => f(1211, o),
        2000 => f(2000, o),
        2001 => f(2001, o),
        2010 => f(2010, o),
        2011 => f(2011, o),
        2100 => f(2100, o),
        2101 => f(2101, o),
        2110 => f(2110, o),
        2111 => f(2111, o),
        2200 => f(2200, o),
        2201 => f(2201, o),
        2210 => f(2210, o),
        2211 => f(2211, o),
        _ => f(n, o),
    }
}
