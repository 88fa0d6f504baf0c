// The way back from fields at full widths: only the announced ones, by a cursor that goes from p on in s, to q on in o.
// Fields that mostly come together are copied as one block where the mask has them all, and passed over as one where it has none. Behind a
// block p is worked out from its front alone: the compiler then sees that it is the same however the block was packed.
// A function has at most six calls that store: behind more of them the prover does not find what the function requires.
// Kept: one call a field, as the page has one line a field. A width is a constant of the call, so no loop over the table can hand it on.
// What a call requires is found without an answer once these two definitions are open.
#![tactic(auto, unfolding(mask::specs::Fields::announced_length, octets::specs::Layout::total))]

ghost use Rattle.std.specs.Prelude.{[], ◌∷◌, ◌≤◌};
ghost use Rattle.mask.specs.Fields.{dwell_widths, target_widths};
ghost use Rattle.mask.specs.InnerFields.{widths};
ghost use Rattle.pack.specs.InnerPacked.{Packable, Packed, PackableFor, PackedBy};

use unpack::Cursor;

// The blocks, each as a word with the bits of its fields.
const D2_TO_9: u64 = 0xFF00_0000_0000_0000;

const D24_TO_27: u64 = 0x0000_03C0_0000_0000;

// Field n, of N bytes.
pub fn field<const N: usize>(u: &mut Cursor, n: usize)
    requires { (2 ≤ n) × (n ≤ 65) × PackableFor n (N ∷ []) u.old }
    ensures { PackedBy n (N ∷ []) u.old u.new }
{
    if mask::has(u.mask, n) {
        u.block::<N>();
    } else {
        u.p += N;
    }
}

// The end of D2 to D9, where these are no block.
fn d6_to_9(u: &mut Cursor)
    requires { PackableFor 6 (widths 6 9) u.old }
    ensures { PackedBy 6 (widths 6 9) u.old u.new }
{
    field::<4>(u, 6);
    field::<4>(u, 7);
    field::<4>(u, 8);
    field::<4>(u, 9);
}

fn d2_to_9(u: &mut Cursor)
    requires { PackableFor 2 (widths 2 9) u.old }
    ensures { PackedBy 2 (widths 2 9) u.old u.new }
{
    let behind = u.p + 23;
    if unpack::has_all(u.mask, D2_TO_9) {
        u.block::<23>();
    } else if !unpack::has_none(u.mask, D2_TO_9) {
        field::<2>(u, 2);
        field::<2>(u, 3);
        field::<1>(u, 4);
        field::<2>(u, 5);
        d6_to_9(u);
    }
    u.p = behind;
}

fn d10_to_14(u: &mut Cursor)
    requires { PackableFor 10 (widths 10 14) u.old }
    ensures { PackedBy 10 (widths 10 14) u.old u.new }
{
    field::<4>(u, 10);
    field::<4>(u, 11);
    field::<4>(u, 12);
    field::<4>(u, 13);
    field::<2>(u, 14);
}

fn d15_to_19(u: &mut Cursor)
    requires { PackableFor 15 (widths 15 19) u.old }
    ensures { PackedBy 15 (widths 15 19) u.old u.new }
{
    field::<2>(u, 15);
    field::<4>(u, 16);
    field::<1>(u, 17);
    field::<1>(u, 18);
    field::<2>(u, 19);
}

fn d20_to_23(u: &mut Cursor)
    requires { PackableFor 20 (widths 20 23) u.old }
    ensures { PackedBy 20 (widths 20 23) u.old u.new }
{
    field::<2>(u, 20);
    field::<2>(u, 21);
    field::<2>(u, 22);
    field::<2>(u, 23);
}

fn d24_to_27(u: &mut Cursor)
    requires { PackableFor 24 (widths 24 27) u.old }
    ensures { PackedBy 24 (widths 24 27) u.old u.new }
{
    let behind = u.p + 12;
    if unpack::has_all(u.mask, D24_TO_27) {
        u.block::<12>();
    } else if !unpack::has_none(u.mask, D24_TO_27) {
        field::<4>(u, 24);
        field::<4>(u, 25);
        field::<2>(u, 26);
        field::<2>(u, 27);
    }
    u.p = behind;
}

fn d28_to_31(u: &mut Cursor)
    requires { PackableFor 28 (widths 28 31) u.old }
    ensures { PackedBy 28 (widths 28 31) u.old u.new }
{
    field::<2>(u, 28);
    field::<2>(u, 29);
    field::<2>(u, 30);
    field::<1>(u, 31);
}

// D2 to D31, of 78 bytes. It answers where the targets go in o.
pub fn dwell_fields(s: &[u8], p: usize, mask: u64, o: &mut [u8], q: usize) -> usize
    requires { Packable mask 2 dwell_widths s.now p o.old q }
    ensures { Packed mask 2 dwell_widths s.now p o.old q result o.new }
{
    let mut u = Cursor { s, p, mask, o, q };
    d2_to_9(&mut u);
    d10_to_14(&mut u);
    d15_to_19(&mut u);
    d20_to_23(&mut u);
    d24_to_27(&mut u);
    d28_to_31(&mut u);
    u.q
}

fn d32_2_and_3(u: &mut Cursor)
    requires { PackableFor 33 (widths 33 34) u.old }
    ensures { PackedBy 33 (widths 33 34) u.old u.new }
{
    let behind = u.p + 8;
    if unpack::has_all(u.mask, mask::D32_2_AND_3) {
        u.block::<8>();
    } else if !unpack::has_none(u.mask, mask::D32_2_AND_3) {
        field::<4>(u, 33);
        field::<4>(u, 34);
    }
    u.p = behind;
}

fn d32_4_and_5(u: &mut Cursor)
    requires { PackableFor 35 (widths 35 36) u.old }
    ensures { PackedBy 35 (widths 35 36) u.old u.new }
{
    let behind = u.p + 4;
    if unpack::has_all(u.mask, mask::D32_4_AND_5) {
        u.block::<4>();
    } else if !unpack::has_none(u.mask, mask::D32_4_AND_5) {
        field::<2>(u, 35);
        field::<2>(u, 36);
    }
    u.p = behind;
}

// The end of D32.6 to D32.15, where these are no block.
fn d32_10_to_15(u: &mut Cursor)
    requires { PackableFor 41 (widths 41 46) u.old }
    ensures { PackedBy 41 (widths 41 46) u.old u.new }
{
    field::<1>(u, 41);
    field::<1>(u, 42);
    field::<2>(u, 43);
    field::<2>(u, 44);
    field::<1>(u, 45);
    field::<2>(u, 46);
}

fn d32_6_to_15(u: &mut Cursor)
    requires { PackableFor 37 (widths 37 46) u.old }
    ensures { PackedBy 37 (widths 37 46) u.old u.new }
{
    let behind = u.p + 16;
    if unpack::has_all(u.mask, mask::D32_6_TO_15) {
        u.block::<16>();
    } else if !unpack::has_none(u.mask, mask::D32_6_TO_15) {
        field::<2>(u, 37);
        field::<2>(u, 38);
        field::<2>(u, 39);
        field::<1>(u, 40);
        d32_10_to_15(u);
    }
    u.p = behind;
}

fn d32_16_to_18(u: &mut Cursor)
    requires { PackableFor 47 (widths 47 49) u.old }
    ensures { PackedBy 47 (widths 47 49) u.old u.new }
{
    field::<1>(u, 47);
    field::<4>(u, 48);
    field::<1>(u, 49);
}

// D32.1 to D32.18, of 36 bytes. It answers where the next target goes in o.
pub fn target_fields(s: &[u8], p: usize, mask: u64, o: &mut [u8], q: usize) -> usize
    requires { Packable mask 32 target_widths s.now p o.old q }
    ensures { Packed mask 32 target_widths s.now p o.old q result o.new }
{
    let mut u = Cursor { s, p, mask, o, q };
    field::<2>(&mut u, 32);
    d32_2_and_3(&mut u);
    d32_4_and_5(&mut u);
    d32_6_to_15(&mut u);
    d32_16_to_18(&mut u);
    u.q
}
