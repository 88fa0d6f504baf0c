// Up to eight bytes as one number, the first of them the lowest: so the compiler moves them in one step or two. Where it knows a width, it tests
// none.
#![tactic(auto)]

ghost use Rattle.std.specs.Prelude.{◌≡◌, ◌+◌, ◌*◌, ◌/◌, ◌^◌, ◌≤◌, ◌<◌, length, take, drop};
ghost use Rattle.std.proofs.lemmas.List.Edits.{sets};
ghost use Rattle.words.specs.InnerWords.{low, Spells};

// The number in w bytes at a place of t, none to two.
pub fn get(t: &[u8], at: usize, w: usize) -> u64
    requires { (w ≤ 2) × (at + w ≤ length t.now) }
    ensures { Spells w result (take w (drop at t.now)) }
{
    match w {
        1 => u64::from(t[at]),
        2 => u64::from(u16::from_le_bytes([t[at], t[at + 1]])),
        _ => 0,
    }
}

// The number whose lowest k bytes are those of a, and the next ones those of b.
pub fn join(a: u64, k: usize, b: u64) -> u64
    requires { (k ≤ 4) × (a < 256 ^ k) × (b < 4294967296) }
    ensures { result ≡ a + b * 256 ^ k }
{
    a + (b << (8 * k as u32))
}

// The N lowest bytes of a number.
fn lowest<const N: usize>(o: &mut [u8], q: usize, v: u64)
    requires { (N ≤ 8) × (q + N ≤ length o.old) }
    ensures { o.new ≡ sets o.old q (low N v) }
{
    o[q..q + N].copy_from_slice(&v.to_le_bytes()[..N]);
}

// So many of them, up to all eight.
// Kept: an arm for each number. Of one that the compiler does not know it would call memcpy, and the library for C is to ask for no such function.
#[tactic(auto, unfolding(crate::specs::InnerWords::low))]
pub fn put(o: &mut [u8], q: usize, n: usize, v: u64)
    requires { (n ≤ 8) × (q + n ≤ length o.old) }
    ensures { o.new ≡ sets o.old q (low n v) }
{
    match n {
        0 => {}
        1 => lowest::<1>(o, q, v),
        2 => lowest::<2>(o, q, v),
        3 => lowest::<3>(o, q, v),
        4 => lowest::<4>(o, q, v),
        5 => lowest::<5>(o, q, v),
        6 => lowest::<6>(o, q, v),
        7 => lowest::<7>(o, q, v),
        _ => lowest::<8>(o, q, v),
    }
}
