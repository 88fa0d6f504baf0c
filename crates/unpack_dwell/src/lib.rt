// D2 to D31 of a dwell at full widths, by a cursor that goes from p on in s, to q on in o.
// Kept: one call a field, as the page has one line a field. A width is a constant of the call, so no loop over the table can hand it on.
// What a call requires is found without an answer once these two definitions are open.
#![tactic(auto, unfolding(mask::specs::Fields::announced_length, octets::specs::Layout::total))]

ghost use Rattle.mask.specs.Fields.{dwell_widths};
ghost use Rattle.mask.specs.InnerFields.{widths, Required};
ghost use Rattle.unpack.specs.InnerLaid.{Room, Laid, RoomFor, Moved};

use unpack::Cursor;

// D2 to D9, which every mask without fault announces.
fn d2_to_9(u: &mut Cursor)
    requires { Required u.old.mask × RoomFor 2 (widths 2 9) u.old }
    ensures { Moved 2 (widths 2 9) u.old u.new }
{
    u.block::<23>();
}

fn d10_to_14(u: &mut Cursor)
    requires { RoomFor 10 (widths 10 14) u.old }
    ensures { Moved 10 (widths 10 14) u.old u.new }
{
    u.field::<4>(10);
    u.field::<4>(11);
    u.field::<4>(12);
    u.field::<4>(13);
    u.field::<2>(14);
}

fn d15_to_19(u: &mut Cursor)
    requires { RoomFor 15 (widths 15 19) u.old }
    ensures { Moved 15 (widths 15 19) u.old u.new }
{
    u.field::<2>(15);
    u.field::<4>(16);
    u.field::<1>(17);
    u.field::<1>(18);
    u.field::<2>(19);
}

fn d20_to_23(u: &mut Cursor)
    requires { RoomFor 20 (widths 20 23) u.old }
    ensures { Moved 20 (widths 20 23) u.old u.new }
{
    u.field::<2>(20);
    u.field::<2>(21);
    u.field::<2>(22);
    u.field::<2>(23);
}

// D24 to D27, which every mask without fault announces.
fn d24_to_27(u: &mut Cursor)
    requires { Required u.old.mask × RoomFor 24 (widths 24 27) u.old }
    ensures { Moved 24 (widths 24 27) u.old u.new }
{
    u.block::<12>();
}

fn d28_to_31(u: &mut Cursor)
    requires { RoomFor 28 (widths 28 31) u.old }
    ensures { Moved 28 (widths 28 31) u.old u.new }
{
    u.field::<2>(28);
    u.field::<2>(29);
    u.field::<2>(30);
    u.field::<1>(31);
}

fn d2_to_19(u: &mut Cursor)
    requires { Required u.old.mask × RoomFor 2 (widths 2 19) u.old }
    ensures { Moved 2 (widths 2 19) u.old u.new }
{
    d2_to_9(u);
    d10_to_14(u);
    d15_to_19(u);
}

fn d20_to_31(u: &mut Cursor)
    requires { Required u.old.mask × RoomFor 20 (widths 20 31) u.old }
    ensures { Moved 20 (widths 20 31) u.old u.new }
{
    d20_to_23(u);
    d24_to_27(u);
    d28_to_31(u);
}

// D2 to D31, 78 bytes, of a mask that announces those that are required. It answers where the targets begin in s.
pub fn dwell_fields(s: &[u8], p: usize, mask: u64, o: &mut [u8], q: usize) -> usize
    requires { Required mask × Room mask 2 dwell_widths s.now p o.old q }
    ensures { Laid mask 2 dwell_widths s.now p o.old q result o.new }
{
    let mut u = Cursor { s, p, mask, o, q };
    d2_to_19(&mut u);
    d20_to_31(&mut u);
    u.p
}
