// The mask of a dwell: fields at fault, and the length of what it announces. Presence, groups and reserved bits are
// decided by shifts and masks over a u64, and the field at fault by leading zeros.
#![tactic(auto)]

ghost use Rattle.std.specs.Prelude.{◌≡◌, not, ◌&&◌, ℕ, ◌-◌, ◌/◌, ◌%◌, ◌^◌, ◌≤◌, ◌<◌, get_or, eqb};
ghost use Rattle.std.specs.Int.Bits.{bit_and};
ghost use Rattle.mask.specs.Fields.{announced, taken, announced_length, dwell_widths, target_widths, dwell_size};
ghost use Rattle.mask.specs.InnerFields.{widths, Required};
ghost use Rattle.mask.specs.Mask.{is_fault, is_doubled, lowest_fault, new_in_mask, is_placed};

// Sets of fields, each a word with their bits; those that other crates need too are public.
// D2 to D9 and D24 to D27.
const REQUIRED: u64 = 0xFF00_03C0_0000_0000;

// Bits 15 to 0.
const RESERVED: u64 = 0x0000_0000_0000_FFFF;

const D32_18: u64 = 0x0000_0000_0001_0000;

const D12_TO_14: u64 = 0x0038_0000_0000_0000;

const D15_TO_17: u64 = 0x0007_0000_0000_0000;

const D18_TO_20: u64 = 0x0000_E000_0000_0000;

const D21_TO_23: u64 = 0x0000_1C00_0000_0000;

const D10_D11_D32_4_D32_5: u64 = 0x00C0_0000_6000_0000;

// A target's position, in full or as a distance; and what stands behind it, up to the group of D32.16 and D32.17.
pub const D32_2_AND_3: u64 = 0x0000_0001_8000_0000;

pub const D32_4_AND_5: u64 = 0x0000_0000_6000_0000;

pub const D32_6_TO_15: u64 = 0x0000_0000_1FF8_0000;

const D32_16_AND_17: u64 = 0x0000_0000_0006_0000;

const D28_TO_30: u64 = 0x0000_0038_0000_0000;

// The fields of the set that the mask leaves out.
pub fn missing(mask: u64, set: u64) -> u64
    ensures { (n : ℕ) → announced result n ≡ (announced set n && not (announced mask n)) }
{
    set & !mask
}

// The fields of the set that the mask has.
pub fn common(mask: u64, set: u64) -> u64
    ensures { (n : ℕ) → announced result n ≡ (announced set n && announced mask n) }
{
    set & mask
}

// The fields of the set that the mask leaves out, where the mask has another field of the set.
fn gaps(mask: u64, set: u64) -> u64
    ensures { (n : ℕ) → announced result n ≡ (announced set n && not (announced mask n) && not (eqb (bit_and mask set) 0)) }
{
    if mask & set == 0 {
        0
    } else {
        missing(mask, set)
    }
}

// Whether the mask announces the field n.
pub fn has(mask: u64, n: usize) -> bool
    requires { (2 ≤ n) × (n ≤ 65) }
    ensures { result ≡ announced mask n }
{
    (mask >> (65 - n)) & 1 == 1
}

// The bytes that field n of width w takes.
pub fn width_if(mask: u64, n: usize, w: u8) -> usize
    requires { (2 ≤ n) × (n ≤ 65) }
    ensures { (result ≡ taken mask n w) × (result ≤ 255) }
{
    if has(mask, n) { usize::from(w) } else { 0 }
}

// D32.4 and D32.5, where they are set beside D32.2 and D32.3.
fn doubled(mask: u64) -> u64
    ensures { (n : ℕ) → 2 ≤ n → n < 66 → announced result n ≡ is_doubled mask n }
{
    if has(mask, 33) && has(mask, 34) {
        common(mask, D32_4_AND_5)
    } else {
        0
    }
}

// What holds in version 1 alone.
fn in_version1(version: u8, word: u64) -> u64
    ensures { (n : ℕ) → announced result n ≡ (eqb version 1 && announced word n) }
{
    if version == 1 { word } else { 0 }
}

// The fields at fault, each at its bit.
fn faults(mask: u64, version: u8) -> u64
    ensures { (n : ℕ) → 2 ≤ n → n < 66 → announced result n ≡ is_fault version mask n }
{
    let a = missing(mask, REQUIRED)
        | common(mask, RESERVED)
        | in_version1(version, common(mask, D32_18));
    let b = a
        | gaps(mask, D12_TO_14)
        | gaps(mask, D15_TO_17)
        | gaps(mask, D18_TO_20)
        | gaps(mask, D21_TO_23);
    let c = b
        | gaps(mask, D10_D11_D32_4_D32_5)
        | gaps(mask, D32_2_AND_3)
        | gaps(mask, D32_16_AND_17);
    c | in_version1(version, gaps(mask, D28_TO_30)) | doubled(mask)
}

// The lowest field at fault, and 0 where none is.
// Kept: 0 for none, here and in the next: `lowest_fault` and `new_in_mask` of specs/, which rows 11 and 15 name by `naming`, say 0 for none.
pub fn lowest_fault(mask: u64, version: u8) -> u32
    ensures { result ≡ lowest_fault version mask }
{
    let w = faults(mask, version);
    if w == 0 { 0 } else { 2 + w.leading_zeros() }
}

// The field of what the mask has that is new in Edition 3, and 0 where it has nothing new.
pub fn new_in_mask(mask: u64) -> u32
    ensures { result ≡ new_in_mask mask }
{
    let w = gaps(mask, D28_TO_30);
    if w != 0 {
        return 2 + w.leading_zeros();
    }
    if has(mask, 49) { 49 } else { 0 }
}

// Whether the mask announces positions of targets.
#[tactic(auto, unfolding(crate::specs::Mask::is_placed))]
pub fn is_placed(mask: u64) -> bool
    ensures { result ≡ is_placed mask }
{
    has(mask, 33) && has(mask, 34) || has(mask, 35) && has(mask, 36)
}

// The bytes of four fields, for each of the 16 ways to announce them. The first field is the highest bit of the index. Where two fields are
// left, the tables count the two behind them as 0.
const LENGTHS_D2_TO_5: [u8; 16] = [0, 2, 1, 3, 2, 4, 3, 5, 2, 4, 3, 5, 4, 6, 5, 7];

// D10 to D13 have the same widths.
const LENGTHS_D6_TO_9: [u8; 16] = [0, 4, 4, 8, 4, 8, 8, 12, 4, 8, 8, 12, 8, 12, 12, 16];

const LENGTHS_D14_TO_17: [u8; 16] = [0, 1, 4, 5, 2, 3, 6, 7, 2, 3, 6, 7, 4, 5, 8, 9];

const LENGTHS_D18_TO_21: [u8; 16] = [0, 2, 2, 4, 2, 4, 4, 6, 1, 3, 3, 5, 3, 5, 5, 7];

const LENGTHS_D22_AND_23: [u8; 16] = [0, 0, 0, 0, 2, 2, 2, 2, 2, 2, 2, 2, 4, 4, 4, 4];

const LENGTHS_D24_TO_27: [u8; 16] = [0, 2, 2, 4, 4, 6, 6, 8, 4, 6, 6, 8, 8, 10, 10, 12];

const LENGTHS_D28_TO_31: [u8; 16] = [0, 1, 2, 3, 2, 3, 4, 5, 2, 3, 4, 5, 4, 5, 6, 7];

const LENGTHS_D32_1_TO_4: [u8; 16] = [0, 2, 4, 6, 4, 6, 8, 10, 2, 4, 6, 8, 6, 8, 10, 12];

const LENGTHS_D32_5_TO_8: [u8; 16] = [0, 2, 2, 4, 2, 4, 4, 6, 2, 4, 4, 6, 4, 6, 6, 8];

const LENGTHS_D32_9_TO_12: [u8; 16] = [0, 2, 1, 3, 1, 3, 2, 4, 1, 3, 2, 4, 2, 4, 3, 5];

const LENGTHS_D32_13_TO_16: [u8; 16] = [0, 1, 2, 3, 1, 2, 3, 4, 2, 3, 4, 5, 3, 4, 5, 6];

const LENGTHS_D32_17_AND_18: [u8; 16] = [0, 0, 0, 0, 1, 1, 1, 1, 4, 4, 4, 4, 5, 5, 5, 5];

// The bytes that the four fields from n on take, by their table: one look in place of four tests.
pub fn four(mask: u64, n: usize, lengths: &[u8; 16]) -> usize
    requires { (2 ≤ n) × (n ≤ 62) }
    ensures { (result ≡ get_or lengths.now (mask / 2 ^ (62 - n) % 16) 0) × (result < 256) }
{
    let i = ((mask >> (62 - n)) & 15) as usize;
    usize::from(lengths[i])
}

// The bytes of the announced fields of a dwell in front of D24: where D24 stands behind the mask. D2 to D9 are required, and take 23.
pub fn length_before_d24(mask: u64) -> usize
    requires { Required mask }
    ensures { (result ≡ announced_length mask 2 (widths 2 23)) × (result ≤ 59) }
{
    23 + four(mask, 10, &LENGTHS_D6_TO_9)
        + four(mask, 14, &LENGTHS_D14_TO_17)
        + four(mask, 18, &LENGTHS_D18_TO_21)
        + four(mask, 22, &LENGTHS_D22_AND_23)
}

// And from D24 on. D24 to D27 are required, and take 12.
pub fn length_from_d24(mask: u64) -> usize
    requires { Required mask }
    ensures { (result ≡ announced_length mask 24 (widths 24 31)) × (result ≤ 19) }
{
    12 + four(mask, 28, &LENGTHS_D28_TO_31)
}

// The bytes of the announced fields of a dwell before its targets, of any mask.
pub fn dwell_length(mask: u64) -> usize
    ensures { result ≡ announced_length mask 2 dwell_widths }
{
    four(mask, 2, &LENGTHS_D2_TO_5)
        + four(mask, 6, &LENGTHS_D6_TO_9)
        + four(mask, 10, &LENGTHS_D6_TO_9)
        + four(mask, 14, &LENGTHS_D14_TO_17)
        + four(mask, 18, &LENGTHS_D18_TO_21)
        + four(mask, 22, &LENGTHS_D22_AND_23)
        + four(mask, 24, &LENGTHS_D24_TO_27)
        + four(mask, 28, &LENGTHS_D28_TO_31)
}

// The bytes of the announced fields of one target.
pub fn target_length(mask: u64) -> usize
    ensures { result ≡ announced_length mask 32 target_widths }
{
    four(mask, 32, &LENGTHS_D32_1_TO_4)
        + four(mask, 36, &LENGTHS_D32_5_TO_8)
        + four(mask, 40, &LENGTHS_D32_9_TO_12)
        + four(mask, 44, &LENGTHS_D32_13_TO_16)
        + four(mask, 48, &LENGTHS_D32_17_AND_18)
}

// The size S2 of a dwell segment with so many targets.
pub fn dwell_size(mask: u64, targets: u16) -> usize
    ensures { result ≡ dwell_size mask targets }
{
    13 + dwell_length(mask) + usize::from(targets) * target_length(mask)
}
