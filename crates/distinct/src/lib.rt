// How many different numbers there are in a slice.
#![tactic(auto)]

ghost use Rattle.std.specs.Prelude.{◌≡◌, eqb, length};
ghost use Rattle.distinct.specs.Distinct.{is_among, without_repeats};

// Whether x is one of the numbers. The fold does not leave early, so that the compiler holds several at a time against x.
// Kept: not `contains`, which does. It was tried: the bar '1,364 dwells, falling / rising' rose from 2.21 to 2.67.
fn is_among(x: u32, s: &[u32]) -> bool
    ensures { result ≡ is_among eqb x s.now }
{
    s.iter().fold(false, |seen, &y| seen | (x == y))
}

// A number counts where none behind it is the same.
pub fn count_different(s: &[u32]) -> usize
    ensures { result ≡ length (without_repeats eqb s.now) }
{
    let mut n = 0;
    let mut rest = s;
    while let Some((&x, behind)) = rest.split_first() {
        n += usize::from(!is_among(x, behind));
        rest = behind;
    }
    n
}
