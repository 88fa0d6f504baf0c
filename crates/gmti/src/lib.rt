// The library for C and Rust: both readings, the writer, how long a sheet can get, and the systems of radar modes, exported under names of C.
// A slice is a pointer and a length there, and an answer is room for seven numbers of 32 bits. Nothing is asked of the bytes that are handed
// in; that each pointer has as many as its length says, and that lent memory lies apart from the rest, is the caller's care.
#![tactic(auto)]

ghost use Rattle.std.specs.Prelude.{◌≡◌, ℕ, ◌^◌, ◌<◌, get_or};
ghost use Rattle.format.specs.Edition.{as_edition};
ghost use Rattle.format.specs.Answer.{answer_of, numbers_of};
ghost use Rattle.format.specs.Reader.{read as readOutcome};
ghost use Rattle.format.specs.Bound.{sheet_bound, EnoughFor};
ghost use Rattle.format.specs.Writer.{write as writeOutcome};
ghost use Rattle.modes.specs.Modes.{lookup, number_of, system_of};

use format::{Counts, Refusal};

// The seven numbers of an answer, in their order: number, segment, field, segments, dwells, targets, length. A caller in C takes 32 bits of each,
// so they must fit; those of `gmti_read` and `gmti_write` do, whatever they are given (crate demands, proofs/Numbers.antt).
fn numbers(a: Result<Counts, Refusal>) -> [u32; 7]
    requires { (i : ℕ) → get_or (numbers_of (answer_of a)) i 0 < 2 ^ 32 }
    ensures { result ≡ numbers_of (answer_of a) }
{
    match a {
        Ok(c) => [
            0,
            0,
            0,
            c.segments as u32,
            c.dwells as u32,
            c.targets as u32,
            c.length as u32,
        ],
        Err(r) => [
            r.number as u32,
            r.segment as u32,
            r.field as u32,
            0,
            0,
            0,
            0,
        ],
    }
}

// Reads the packet as this edition onto the lent sheet, for C:
// void gmti_read(uint32_t edition, const uint8_t *packet, size_t packet_length, uint8_t *sheet, size_t sheet_length, uint32_t *answer)
#[unsafe(no_mangle)]
pub extern "C" fn gmti_read(edition: u32, packet: &[u8], sheet: &mut [u8], answer: &mut [u32; 7])
    ensures answer_after { answer.new ≡ (readOutcome (as_edition edition) packet.now sheet.old).numbers }
    ensures sheet_after { sheet.new ≡ (readOutcome (as_edition edition) packet.now sheet.old).left }
{
    *answer = numbers(reader::read(edition, packet, sheet));
}

// Writes the packet that reads to this sheet into the lent buffer, for C:
// void gmti_write(const uint8_t *sheet, size_t sheet_length, uint8_t *packet, size_t packet_length, uint32_t *answer)
#[unsafe(no_mangle)]
pub extern "C" fn gmti_write(sheet: &[u8], packet: &mut [u8], answer: &mut [u32; 7])
    ensures answer_after { answer.new ≡ (writeOutcome sheet.now packet.old).numbers }
    ensures packet_after { packet.new ≡ (writeOutcome sheet.now packet.old).left }
{
    *answer = numbers(writer::write(sheet, packet));
}

// How many bytes are enough for the sheet of a packet of n bytes; 0 for an n that no packet has. For C:
// size_t gmti_sheet_bound(size_t packet_length)
#[unsafe(no_mangle)]
pub extern "C" fn gmti_sheet_bound(n: usize) -> usize
    ensures { (result ≡ sheet_bound n) × EnoughFor n result }
{
    bound::sheet_bound(n)
}

// The number of the system that an edition's table gives a radar mode, stored; answers 0, or 23 where the edition is neither 1 nor 3. For C:
// uint32_t gmti_mode_system(uint32_t edition, uint8_t mode, uint32_t *system)
#[unsafe(no_mangle)]
pub extern "C" fn gmti_mode_system(edition: u32, mode: u8, system: &mut u32) -> u32
    ensures value { result ≡ number_of (lookup edition mode) }
    ensures system_after { system.new ≡ system_of (lookup edition mode) }
{
    let l = modes::mode_system(edition, mode);
    *system = modes::system_of(l) as u32;
    modes::number_of(l)
}
