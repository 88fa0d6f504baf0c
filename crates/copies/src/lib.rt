// Bytes copied from p on in s to q on in o, and zeros stored.
#![tactic(auto)]

ghost use Rattle.std.specs.Prelude.{◌≡◌, ◌+◌, ◌≤◌, length};
ghost use Rattle.std.proofs.lemmas.List.Edits.{sets};
ghost use Rattle.copies.specs.InnerCopied.{Room, copied, cleared};

// All N bytes are read before the first is written: only so does the compiler, which cannot tell that s and o lie apart, move them as a whole.
pub fn copy<const N: usize>(s: &[u8], p: usize, o: &mut [u8], q: usize)
    requires { Room N s.now p o.old q }
    ensures { o.new ≡ copied N s.now p o.old q }
{
    let mut whole = [0u8; N];
    whole.copy_from_slice(&s[p..p + N]);
    o[q..q + N].copy_from_slice(&whole);
}

// Kept: 32 bytes as four numbers, by hand. As `copy::<32>` the free text takes 1.3 times the reader by hand, and its goal is 1; this form takes
// 0.88 to 1.12, by where the code comes to lie.
pub fn copy32(s: &[u8], p: usize, o: &mut [u8], q: usize)
    requires { Room 32 s.now p o.old q }
    ensures { o.new ≡ copied 32 s.now p o.old q }
{
    let a = octets::get_u64(s, p);
    let b = octets::get_u64(s, p + 8);
    let c = octets::get_u64(s, p + 16);
    let d = octets::get_u64(s, p + 24);
    octets::put_u64(o, q, a);
    octets::put_u64(o, q + 8, b);
    octets::put_u64(o, q + 16, c);
    octets::put_u64(o, q + 24, d);
}

// All of s, which the compiler moves as a whole where it knows the length.
pub fn copy_all(s: &[u8], o: &mut [u8], q: usize)
    requires { q + length s.now ≤ length o.old }
    ensures { o.new ≡ sets o.old q s.now }
{
    o[q..q + s.len()].copy_from_slice(s);
}

// All of s, of a length that the compiler does not know. `copy_all` calls memmove there, and the library for C is to ask for no such function.
// Kept: by places, as `copied_next` says it: a place of s and one of o, which goes on from q.
pub fn copy_each(s: &[u8], o: &mut [u8], q: usize)
    requires { q + length s.now ≤ length o.old }
    ensures { o.new ≡ sets o.old q s.now }
{
    for i in 0..s.len() {
        o[q + i] = s[i];
    }
}

// n zeros.
pub fn clear(o: &mut [u8], q: usize, n: usize)
    requires { q + n ≤ length o.old }
    ensures { o.new ≡ cleared n o.old q }
{
    o[q..q + n].fill(0);
}
