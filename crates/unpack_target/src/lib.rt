// D32.1 to D32.18 of a target at full widths, by a cursor that goes from p on in s, to q on in o.
// Behind a block q is worked out from its front alone: the compiler then sees that it is the same however the block was laid out.
// Fields that mostly come together are copied as one block where the mask has them all, and cleared as one where it has none.
// Kept: one call a field, as the page has one line a field. A width is a constant of the call, so no loop over the table can hand it on.
// What a call requires is found without an answer once these two definitions are open.
#![tactic(auto, unfolding(mask::specs::Fields::announced_length, octets::specs::Layout::total))]

ghost use Rattle.mask.specs.Fields.{d32, target_widths};
ghost use Rattle.mask.specs.InnerFields.{widths};
ghost use Rattle.unpack.specs.InnerLaid.{Room, Laid, RoomFor, Moved, Clear};

use unpack::Cursor;

// D32.2 and D32.3.
fn places(u: &mut Cursor)
    requires { RoomFor (d32 2) (widths (d32 2) (d32 3)) u.old }
    ensures { Moved (d32 2) (widths (d32 2) (d32 3)) u.old u.new }
{
    let behind = u.q + 8;
    if unpack::has_all(u.mask, mask::D32_2_AND_3) {
        u.block::<8>();
    } else if unpack::has_none(u.mask, mask::D32_2_AND_3) {
        u.blank(8);
    } else {
        u.field::<4>(33);
        u.field::<4>(34);
    }
    u.q = behind;
}

// D32.4 and D32.5.
fn deltas(u: &mut Cursor)
    requires { RoomFor (d32 4) (widths (d32 4) (d32 5)) u.old }
    ensures { Moved (d32 4) (widths (d32 4) (d32 5)) u.old u.new }
{
    let behind = u.q + 4;
    if unpack::has_all(u.mask, mask::D32_4_AND_5) {
        u.block::<4>();
    } else if unpack::has_none(u.mask, mask::D32_4_AND_5) {
        u.blank(4);
    } else {
        u.field::<2>(35);
        u.field::<2>(36);
    }
    u.q = behind;
}

fn d32_6_to_10(u: &mut Cursor)
    requires { RoomFor (d32 6) (widths (d32 6) (d32 10)) u.old × Clear 8 u.old.o.now u.old.q }
    ensures { Moved (d32 6) (widths (d32 6) (d32 10)) u.old u.new }
{
    u.field_onto_zeros::<2>(37);
    u.field_onto_zeros::<2>(38);
    u.field_onto_zeros::<2>(39);
    u.field::<1>(40);
    u.field::<1>(41);
}

fn d32_11_to_15(u: &mut Cursor)
    requires { RoomFor (d32 11) (widths (d32 11) (d32 15)) u.old × Clear 8 u.old.o.now u.old.q }
    ensures { Moved (d32 11) (widths (d32 11) (d32 15)) u.old u.new }
{
    u.field::<1>(42);
    u.field_onto_zeros::<2>(43);
    u.field_onto_zeros::<2>(44);
    u.field::<1>(45);
    u.field_onto_zeros::<2>(46);
}

// D32.6 to D32.15.
fn middle(u: &mut Cursor)
    requires { RoomFor (d32 6) (widths (d32 6) (d32 15)) u.old }
    ensures { Moved (d32 6) (widths (d32 6) (d32 15)) u.old u.new }
{
    let behind = u.q + 16;
    if unpack::has_all(u.mask, mask::D32_6_TO_15) {
        u.block::<16>();
    } else if unpack::has_none(u.mask, mask::D32_6_TO_15) {
        u.blank(16);
    } else {
        copies::clear(u.o, u.q, 16); // onto which the announced ones go
        d32_6_to_10(u);
        d32_11_to_15(u);
    }
    u.q = behind;
}

fn d32_16_and_17(u: &mut Cursor)
    requires { RoomFor (d32 16) (widths (d32 16) (d32 17)) u.old }
    ensures { Moved (d32 16) (widths (d32 16) (d32 17)) u.old u.new }
{
    u.field::<1>(47);
    u.field::<4>(48);
}

const D32_6_TO_17: u64 = 0x0000_0000_1FFE_0000;

// D32.6 to D32.17, all that Edition 1 has behind the position.
fn behind(u: &mut Cursor)
    requires { RoomFor (d32 6) (widths (d32 6) (d32 17)) u.old }
    ensures { Moved (d32 6) (widths (d32 6) (d32 17)) u.old u.new }
{
    let behind = u.q + 21;
    if unpack::has_all(u.mask, D32_6_TO_17) {
        u.block::<21>();
    } else {
        middle(u);
        d32_16_and_17(u);
    }
    u.q = behind;
}

// D32.1 to D32.18, 36 bytes. It answers where the next target begins in s.
pub fn target_fields(s: &[u8], p: usize, mask: u64, o: &mut [u8], q: usize) -> usize
    requires { Room mask (d32 1) target_widths s.now p o.old q }
    ensures { Laid mask (d32 1) target_widths s.now p o.old q result o.new }
{
    let mut u = Cursor { s, p, mask, o, q };
    u.field::<2>(32);
    places(&mut u);
    deltas(&mut u);
    behind(&mut u);
    u.field::<1>(49);
    u.p
}
