// The writer: a sheet of any bytes, back to the packet that reads to it.
#![tactic(auto)]

ghost use Rattle.std.specs.Prelude.{◌≡◌, cond, [], ◌≤◌, length};
ghost use Rattle.format.specs.Check.{Passed, Failed};
ghost use Rattle.format.specs.Answer.{answer_of, outcome};
ghost use Rattle.format.specs.Writer.{spell, reads_back, writer_answer, check as checkOutcome, write as writeOutcome};
ghost use Rattle.sheet_walk.specs.InnerShape.{Shaped};
ghost use Rattle.spelling.specs.InnerSpelling.{capped};
ghost use Rattle.writer.specs.InnerPlaced.{Spells, Settled};

use format::{Counts, Refusal};
use spelling::Misshapen;

// Row 19 of the packet that x spells: it must read to x. Only the packet's rows and the length of its sheet are worked out first; the
// sheet is then compared with x a few records at a time.
fn read_back(packet: &[u8], x: &[u8]) -> Result<Counts, Refusal>
    requires { packet.now ≡ spell x.now }
    ensures { answer_of result ≡ writer_answer x.now (cond (reads_back (spell x.now) x.now) Passed (Failed 19 0)) }
{
    let counts = reader::check(3, packet).map_err(|_| Refusal::row(19))?;
    if counts.length == x.len() && readback::is_sheet(format::Settings { edition: 3 }, packet, x) {
        Ok(Counts {
            length: packet.len(),
            ..counts
        })
    } else {
        Err(Refusal::row(19))
    }
}

// A sheet of the right shape that spells n bytes: spelt into a lent array, and read back. The packet goes into the lent buffer where it is
// accepted and there is room.
fn write_through(x: &[u8], n: usize, spelt: &mut [u8], o: &mut [u8]) -> Result<Counts, Refusal>
    requires { Spells x.now n × (n ≤ 65536) × (n ≤ length spelt.old) }
    ensures { Settled x.now o.old (answer_of result) o.new }
{
    spelling::spell(x, spelt);
    let packet = &spelt[..n];
    let counts = read_back(packet, x)?;
    if packet.len() <= o.len() {
        copies::copy_each(packet, o, 0);
    }
    Ok(counts)
}

// An array is cleared before it is lent, so its size goes by the packet's length.
const SMALL: usize = 256;

const MIDDLE: usize = 2048;

const LARGE: usize = 16384;

// The same, by way of an array of N bytes.
fn write_in<const N: usize>(x: &[u8], n: usize, o: &mut [u8]) -> Result<Counts, Refusal>
    requires { Spells x.now n × (n ≤ N) × (N ≤ 65536) }
    ensures { Settled x.now o.old (answer_of result) o.new }
{
    let mut spelt = [0u8; N];
    write_through(x, n, &mut spelt, o)
}

// A sheet of the right shape: n is the length of what it spells, or one more than the longest packet has where that is longer.
fn write_shaped(x: &[u8], n: usize, o: &mut [u8]) -> Result<Counts, Refusal>
    requires { Shaped x.now × (n ≡ capped (length (spell x.now))) }
    ensures { Settled x.now o.old (answer_of result) o.new }
{
    if format::LONGEST_PACKET < n {
        return Err(Refusal::row(19));
    }
    if n <= SMALL {
        return write_in::<SMALL>(x, n, o);
    }
    if n <= MIDDLE {
        return write_in::<MIDDLE>(x, n, o);
    }
    if n <= LARGE {
        return write_in::<LARGE>(x, n, o);
    }
    write_in::<{ format::LONGEST_PACKET }>(x, n, o)
}

// Rows 17 to 19 of any bytes; an accepted packet goes into the lent buffer where there is room for it.
fn write_where_room(x: &[u8], o: &mut [u8]) -> Result<Counts, Refusal>
    ensures { Settled x.now o.old (answer_of result) o.new }
{
    match spelling::survey_of(x) {
        Err(Misshapen::Unlisted) => Err(Refusal::row(17)),
        Err(Misshapen::Incomplete) => Err(Refusal::row(18)),
        Ok(n) => write_shaped(x, n, o),
    }
}

// Rows 17 to 19 of a sheet by itself: whether a reading gives it, and the counts and the length of its packet.
pub fn check(x: &[u8]) -> Result<Counts, Refusal>
    ensures { outcome (answer_of result) [] ≡ checkOutcome x.now }
{
    let mut none = [0u8; 1];
    write_where_room(x, &mut none)
}

// Writes the packet that reads to this sheet into the lent buffer. Nothing is written before every row has been looked at.
pub fn write(x: &[u8], o: &mut [u8]) -> Result<Counts, Refusal>
    ensures { outcome (answer_of result) o.new ≡ writeOutcome x.now o.old }
{
    let room = o.len();
    let counts = write_where_room(x, o)?;
    if room < counts.length {
        return Err(Refusal::row(20));
    }
    Ok(counts)
}
