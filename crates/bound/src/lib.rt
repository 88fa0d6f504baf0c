// How many bytes to set aside for a sheet before its packet is read.
#![tactic(auto)]

ghost use Rattle.std.specs.Prelude.{◌≡◌};
ghost use Rattle.format.specs.Bound.{sheet_bound, EnoughFor};

// What is enough for the sheet of a packet of n bytes, whatever they are: lent so many, no reading of it is refused with 16. No packet has
// under 32 bytes or above 65,536, and for such an n it is 0.
pub fn sheet_bound(n: usize) -> usize
    ensures { (result ≡ sheet_bound n) × EnoughFor n result }
{
    if n < format::HeaderRecord::LEN {
        return 0;
    }
    if format::LONGEST_PACKET < n {
        return 0;
    }
    format::HeaderRecord::WHOLE + format::TargetRecord::WHOLE * (n - format::HeaderRecord::LEN) / 4
}
