// The way back of an HRR segment: of H2 to H31 at full widths the announced ones alone, by a cursor that goes from p on in s, to q on in o; and
// scatterers.
// Kept: one call a field, as the page has one line a field. A width is a constant of the call, so no loop over the table can hand it on.
// What a call requires is found without an answer once these two definitions are open.
#![tactic(auto, unfolding(mask::specs::Fields::announced_length, octets::specs::Layout::total))]

ghost use Rattle.std.specs.Prelude.{◌≡◌, ◌+◌, ◌-◌, ◌*◌, ◌≤◌, length, take, drop};
ghost use Rattle.std.proofs.lemmas.List.Edits.{sets};
ghost use Rattle.octets.specs.Layout.{total};
ghost use Rattle.words.specs.InnerWords.{Spells};
ghost use Rattle.hrr.specs.Hrr.{hrr_widths, narrowed};
ghost use Rattle.hrr.specs.InnerScatterers.{widths, widths_of, Narrow, digits, NarrowDigits};
ghost use Rattle.pack.specs.InnerPacked.{Packable, Packed, PackableFor, PackedBy};
ghost use Rattle.format.specs.Lengths.{record_length};
ghost use Rattle.pack_hrr.specs.InnerNarrowed.{narrowed_all};

use unpack::Cursor;

fn h2_to_7(u: &mut Cursor)
    requires { PackableFor 2 (widths 2 7) u.old }
    ensures { PackedBy 2 (widths 2 7) u.old u.new }
{
    pack::field::<2>(u, 2);
    pack::field::<2>(u, 3);
    pack::field::<1>(u, 4);
    pack::field::<2>(u, 5);
    pack::field::<2>(u, 6);
    pack::field::<2>(u, 7);
}

fn h8_to_13(u: &mut Cursor)
    requires { PackableFor 8 (widths 8 13) u.old }
    ensures { PackedBy 8 (widths 8 13) u.old u.new }
{
    pack::field::<2>(u, 8);
    pack::field::<1>(u, 9);
    pack::field::<1>(u, 10);
    pack::field::<2>(u, 11);
    pack::field::<2>(u, 12);
    pack::field::<4>(u, 13);
}

fn h14_to_19(u: &mut Cursor)
    requires { PackableFor 14 (widths 14 19) u.old }
    ensures { PackedBy 14 (widths 14 19) u.old u.new }
{
    pack::field::<4>(u, 14);
    pack::field::<4>(u, 15);
    pack::field::<1>(u, 16);
    pack::field::<1>(u, 17);
    pack::field::<1>(u, 18);
    pack::field::<2>(u, 19);
}

fn h20_to_25(u: &mut Cursor)
    requires { PackableFor 20 (widths 20 25) u.old }
    ensures { PackedBy 20 (widths 20 25) u.old u.new }
{
    pack::field::<1>(u, 20);
    pack::field::<2>(u, 21);
    pack::field::<4>(u, 22);
    pack::field::<1>(u, 23);
    pack::field::<1>(u, 24);
    pack::field::<1>(u, 25);
}

fn h26_to_31(u: &mut Cursor)
    requires { PackableFor 26 (widths 26 31) u.old }
    ensures { PackedBy 26 (widths 26 31) u.old u.new }
{
    pack::field::<1>(u, 26);
    pack::field::<1>(u, 27);
    pack::field::<4>(u, 28);
    pack::field::<1>(u, 29);
    pack::field::<4>(u, 30);
    pack::field::<4>(u, 31);
}

// All of them, of 61 bytes. It answers where the scatterers go in o.
pub fn hrr_fields(s: &[u8], p: usize, mask: u64, o: &mut [u8], q: usize) -> usize
    requires { Packable mask 2 hrr_widths s.now p o.old q }
    ensures { Packed mask 2 hrr_widths s.now p o.old q result o.new }
{
    let mut u = Cursor { s, p, mask, o, q };
    h2_to_7(&mut u);
    h8_to_13(&mut u);
    h14_to_19(&mut u);
    h20_to_25(&mut u);
    h26_to_31(&mut u);
    u.q
}

// The number in the last w of the two bytes at a place of x, none to two.
fn narrow(x: &[u8], at: usize, w: usize) -> u64
    requires { (w ≤ 2) × (at + 2 ≤ length x.now) }
    ensures { Spells w result (drop (2 - w) (take 2 (drop at x.now))) }
{
    words::get(x, at + (2 - w), w)
}

// The scatterer whose record x begins with, the kind and four numbers of two bytes; its widths are the digits of n.
fn scatterer(x: &[u8], n: usize, o: &mut [u8])
    requires { NarrowDigits n × (record_length 12 ≤ length x.now) × (total (digits n) ≤ length o.old) }
    ensures { o.new ≡ sets o.old 0 (narrowed (digits n) (drop 1 x.now)) }
{
    let magnitude = n / 1000;
    let phase = n / 100 % 10;
    let range = n / 10 % 10;
    let doppler = n % 10;
    let range_at = magnitude + phase;
    let first = words::join(narrow(x, 1, magnitude), magnitude, narrow(x, 3, phase));
    let last = words::join(narrow(x, 5, range), range, narrow(x, 7, doppler));
    words::put(
        o,
        0,
        range_at + (range + doppler),
        words::join(first, range_at, last),
    );
}

// So many of them, of `each` bytes. That number is handed on and not worked out anew: where the compiler knows it to be one, it gathers sixteen
// scatterers at a time, which takes longer.
// Kept: a loop that counts. With `chunks_exact` zipped to `chunks_exact_mut` 65,463 scatterers of one byte take 176 µs to write, and so 130.
fn each_scatterer(x: &[u8], n: usize, each: usize, count: usize, o: &mut [u8])
    requires { NarrowDigits n × (each ≡ total (digits n)) × (count * record_length 12 ≤ length x.now) × (count * each ≤ length o.old) }
    ensures { o.new ≡ sets o.old 0 (narrowed_all (digits n) count x.now) }
{
    let mut at: usize = 0;
    let mut q: usize = 0;
    for i in 0..count {
        scatterer(&x[at..], n, &mut o[q..]);
        at += format::ScattererRecord::WHOLE;
        q += each;
    }
}

// So many scatterers of these widths, whose records x begins with.
pub fn scatterers(x: &[u8], s: hrr::Scatterers, count: usize, o: &mut [u8])
    requires { Narrow s × (count * record_length 12 ≤ length x.now) × (count * total (widths_of s) ≤ length o.old) }
    ensures { o.new ≡ sets o.old 0 (narrowed_all (widths_of s) count x.now) }
{
    let each = hrr::each_of(s);
    hrr::by_pattern(s, o, |n, o| each_scatterer(x, n, each, count, o));
}
