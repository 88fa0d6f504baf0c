// H2 to H31 of an HRR segment at full widths, by a cursor that goes from p on in s, to q on in o.
// Kept: one call a field, as the page has one line a field. A width is a constant of the call, so no loop over the table can hand it on.
// What a call requires is found without an answer once these two definitions are open.
#![tactic(auto, unfolding(mask::specs::Fields::announced_length, octets::specs::Layout::total))]

ghost use Rattle.hrr.specs.Hrr.{hrr_widths};
ghost use Rattle.hrr.specs.InnerScatterers.{widths};
ghost use Rattle.unpack.specs.InnerLaid.{Room, Laid, RoomFor, Moved};

use unpack::Cursor;

fn h2_to_7(u: &mut Cursor)
    requires { RoomFor 2 (widths 2 7) u.old }
    ensures { Moved 2 (widths 2 7) u.old u.new }
{
    u.field::<2>(2);
    u.field::<2>(3);
    u.field::<1>(4);
    u.field::<2>(5);
    u.field::<2>(6);
    u.field::<2>(7);
}

fn h8_to_13(u: &mut Cursor)
    requires { RoomFor 8 (widths 8 13) u.old }
    ensures { Moved 8 (widths 8 13) u.old u.new }
{
    u.field::<2>(8);
    u.field::<1>(9);
    u.field::<1>(10);
    u.field::<2>(11);
    u.field::<2>(12);
    u.field::<4>(13);
}

fn h14_to_19(u: &mut Cursor)
    requires { RoomFor 14 (widths 14 19) u.old }
    ensures { Moved 14 (widths 14 19) u.old u.new }
{
    u.field::<4>(14);
    u.field::<4>(15);
    u.field::<1>(16);
    u.field::<1>(17);
    u.field::<1>(18);
    u.field::<2>(19);
}

fn h20_to_25(u: &mut Cursor)
    requires { RoomFor 20 (widths 20 25) u.old }
    ensures { Moved 20 (widths 20 25) u.old u.new }
{
    u.field::<1>(20);
    u.field::<2>(21);
    u.field::<4>(22);
    u.field::<1>(23);
    u.field::<1>(24);
    u.field::<1>(25);
}

fn h26_to_31(u: &mut Cursor)
    requires { RoomFor 26 (widths 26 31) u.old }
    ensures { Moved 26 (widths 26 31) u.old u.new }
{
    u.field::<1>(26);
    u.field::<1>(27);
    u.field::<4>(28);
    u.field::<1>(29);
    u.field::<4>(30);
    u.field::<4>(31);
}

// All of them, 61 bytes. It answers where the scatterers begin in s.
pub fn hrr_fields(s: &[u8], p: usize, mask: u64, o: &mut [u8], q: usize) -> usize
    requires { Room mask 2 hrr_widths s.now p o.old q }
    ensures { Laid mask 2 hrr_widths s.now p o.old q result o.new }
{
    let mut u = Cursor { s, p, mask, o, q };
    h2_to_7(&mut u);
    h8_to_13(&mut u);
    h14_to_19(&mut u);
    h20_to_25(&mut u);
    h26_to_31(&mut u);
    u.p
}
