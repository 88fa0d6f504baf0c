// Announced fields on their way between a packet and a sheet, one after another, and laid out there at their full widths. The functions of
// dwells, targets and HRR segments, which lay out several, promise the same over longer lists of widths.
#![tactic(auto)]

ghost use Rattle.std.specs.Prelude.{◌≡◌, [], ◌∷◌, ◌+◌, ◌≤◌, eqb, length};
ghost use Rattle.std.specs.Int.Bits.{bit_and};
ghost use Rattle.copies.specs.InnerCopied.{copied, cleared};
ghost use Rattle.unpack.specs.InnerLaid.{RoomFor, Moved, Stored, Clear};

// How far fields with this mask have got: from p on in s, to q on in o.
#[derive(Drop)]
pub struct Cursor<'a> {
    pub s: &'a [u8],
    pub p: usize,
    pub mask: u64,
    pub o: &'a mut [u8],
    pub q: usize,
}

impl Cursor<'_> {
    // Field n, of N bytes.
    pub fn field<const N: usize>(&mut self, n: usize)
        requires { (2 ≤ n) × (n ≤ 65) × RoomFor n (N ∷ []) self.old }
        ensures { Moved n (N ∷ []) self.old self.new }
    {
        if mask::has(self.mask, n) {
            self.block::<N>();
        } else {
            self.blank(N);
        }
    }

    // The same onto zeros: an absent field stores nothing, and an announced one is one move. For a field of one byte this is no faster.
    pub fn field_onto_zeros<const N: usize>(&mut self, n: usize)
        requires { (2 ≤ n) × (n ≤ 65) × RoomFor n (N ∷ []) self.old × Clear N self.old.o.now self.old.q }
        ensures { Moved n (N ∷ []) self.old self.new }
    {
        if mask::has(self.mask, n) {
            self.block::<N>();
        } else {
            self.q += N;
        }
    }

    // A block of N bytes, of fields that are all announced.
    pub fn block<const N: usize>(&mut self)
        requires { (self.old.p + N ≤ length self.old.s.now) × (self.old.q + N ≤ length self.old.o.now) }
        ensures { Stored N N (copied N self.old.s.now self.old.p self.old.o.now self.old.q) self.old self.new }
    {
        copies::copy::<N>(self.s, self.p, self.o, self.q);
        self.p += N;
        self.q += N;
    }

    // A block of n bytes, of fields of which none is announced.
    pub fn blank(&mut self, n: usize)
        requires { self.old.q + n ≤ length self.old.o.now }
        ensures { Stored 0 n (cleared n self.old.o.now self.old.q) self.old self.new }
    {
        copies::clear(self.o, self.q, n);
        self.q += n;
    }
}

// Whether the mask has every field of the set, and whether it has none.
pub fn has_all(mask: u64, set: u64) -> bool
    ensures { result ≡ eqb (bit_and mask set) set }
{
    mask & set == set
}

pub fn has_none(mask: u64, set: u64) -> bool
    ensures { result ≡ eqb (bit_and mask set) 0 }
{
    mask & set == 0
}
