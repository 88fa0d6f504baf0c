// The records of a sheet that are laid out from bytes at constant places: a filler for each gets the sheet from its place on. What is copied is
// cut to the length that the record has for it, which the compiler so knows.
// Kept: a length is cast by `as`, which is proved to lose nothing; `try_from` answers an `Err` here that there never is.
#![tactic(auto, using(crate::proofs::Laid::cut), unfolding(format::specs::Sheet::body_length))]

ghost use Rattle.std.specs.Prelude.{◌≡◌, cond, [], ◌∷◌, ◌++◌, ◌+◌, ◌-◌, ◌*◌, ◌≤◌, length, take};
ghost use Rattle.std.proofs.lemmas.List.Edits.{sets};
ghost use Rattle.octets.specs.Octets.{bytes};
ghost use Rattle.format.specs.Edition.{is_older};
ghost use Rattle.format.specs.Sheet.{body_length, record_of, header_record, piece_record, piece_records, pieces_of, piece_count, mission_records, text_records, opaque_records, job_records, test_records, location_records, record_bytes};
ghost use Rattle.format.specs.Lengths.{record_length};

// Places in whole records, which begin with their kind.
const J26: usize = 1 + format::JobRecord::J26;

const JOB_MARK: usize = 1 + format::JobRecord::MARK;

const F3_LENGTH: usize = 1 + format::TextRecord::F3_LENGTH;

const BODY_LENGTH: usize = 1 + format::OpaqueRecord::BODY_LENGTH;

const BYTES: usize = 1 + format::PieceRecord::BYTES;

// The bytes of a full piece, and the count that it begins with.
const FULL: usize = format::PieceRecord::FULL;

const COUNT: u8 = format::PieceRecord::FULL as u8;

// A byte by itself: a record's kind, a type, a count or a mark.
pub fn put_byte(o: &mut [u8], q: usize, v: u8)
    requires { q + 1 ≤ length o.old }
    ensures { o.new ≡ sets o.old q (v ∷ []) }
{
    o[q] = v;
}

pub fn header_record(l: &[u8], o: &mut [u8])
    requires { (body_length 1 ≤ length l.now) × (record_length 1 ≤ length o.old) }
    ensures { o.new ≡ sets o.old 0 (record_bytes (header_record l.now ∷ [])) }
{
    put_byte(o, 0, format::HeaderRecord::KIND);
    copies::copy32(&l[..format::HeaderRecord::LEN], 0, o, 1);
}

pub fn mission_records(b: &[u8], o: &mut [u8])
    requires { (length b.now ≡ body_length 2) × (record_length 2 ≤ length o.old) }
    ensures { o.new ≡ sets o.old 0 (record_bytes (mission_records b.now)) }
{
    put_byte(o, 0, format::MissionRecord::KIND);
    copies::copy_all(&b[..format::MissionRecord::LEN], o, 1);
}

// J26 as the reading shows it.
fn j26_shown(r: format::Reading, j26: u8) -> u8
    ensures { result ≡ cond (is_older r) 0 j26 }
{
    if editions::is_older(r) { 0 } else { j26 }
}

// Its body is one byte shorter than the record's, which ends with the mark.
pub fn job_records(r: format::Reading, b: &[u8], o: &mut [u8])
    requires { (length b.now + 1 ≡ body_length 8) × (record_length 8 ≤ length o.old) }
    ensures { o.new ≡ sets o.old 0 (record_bytes (job_records r b.now)) }
{
    put_byte(o, 0, format::JobRecord::KIND);
    copies::copy_all(&b[..format::JobRecord::MARK], o, 1);
    put_byte(o, J26, j26_shown(r, b[format::JobRecord::J26]));
    put_byte(o, JOB_MARK, editions::mark_of(r));
}

pub fn test_records(b: &[u8], o: &mut [u8])
    requires { (length b.now ≡ body_length 9) × (record_length 9 ≤ length o.old) }
    ensures { o.new ≡ sets o.old 0 (record_bytes (test_records b.now)) }
{
    put_byte(o, 0, format::TestRecord::KIND);
    copies::copy_all(&b[..format::TestRecord::LEN], o, 1);
}

pub fn location_records(b: &[u8], o: &mut [u8])
    requires { (length b.now ≡ body_length 10) × (record_length 10 ≤ length o.old) }
    ensures { o.new ≡ sets o.old 0 (record_bytes (location_records b.now)) }
{
    put_byte(o, 0, format::LocationRecord::KIND);
    copies::copy_all(&b[..format::LocationRecord::LEN], o, 1);
}

// A full piece.
fn full_piece(b: &[u8], o: &mut [u8])
    requires { (32 ≤ length b.now) × (record_length 6 ≤ length o.old) }
    ensures { o.new ≡ sets o.old 0 (record_bytes (piece_record b.now ∷ [])) }
{
    put_byte(o, 0, format::PieceRecord::KIND);
    put_byte(o, 1, COUNT);
    copies::copy32(b, 0, o, BYTES);
}

// The last piece, which is not full: zeros behind its bytes.
fn last_piece(b: &[u8], o: &mut [u8])
    requires { (length b.now ≤ 31) × (record_length 6 ≤ length o.old) }
    ensures { o.new ≡ sets o.old 0 (record_bytes (piece_record b.now ∷ [])) }
{
    put_byte(o, 0, format::PieceRecord::KIND);
    put_byte(o, 1, b.len() as u8);
    copies::clear(o, BYTES, FULL);
    copies::copy_each(b, o, BYTES);
}

// Kept: a loop that counts. With `chunks_exact` zipped to `chunks_exact_mut` the free text takes 1.14 times the reader by hand, and so 1.00 to 1.12,
// by where the loop comes to lie in the code; its goal is 1.
fn full_pieces(b: &[u8], count: usize, o: &mut [u8])
    requires { (count * 32 ≤ length b.now) × (count * record_length 6 ≤ length o.old) }
    ensures { o.new ≡ sets o.old 0 (record_bytes (piece_records count b.now)) }
{
    for i in 0..count {
        full_piece(&b[i * FULL..], &mut o[i * format::PieceRecord::WHOLE..]);
    }
}

// The pieces that carry b.
pub fn piece_records(b: &[u8], o: &mut [u8])
    requires { piece_count (length b.now) * record_length 6 ≤ length o.old }
    ensures { o.new ≡ sets o.old 0 (record_bytes (pieces_of b.now)) }
{
    let full = b.len() / FULL;
    full_pieces(b, full, o);
    if full * FULL < b.len() {
        last_piece(
            &b[full * FULL..],
            &mut o[full * format::PieceRecord::WHOLE..],
        );
    }
}

// The record of a text, without its pieces.
pub fn text_record(b: &[u8], o: &mut [u8])
    requires { (20 ≤ length b.now) × (length b.now ≤ 65536) × (record_length 5 ≤ length o.old) }
    ensures { o.new ≡ sets o.old 0 (record_bytes (record_of 5 (take 20 b.now ++ bytes 4 (length b.now - 20)) ∷ [])) }
{
    put_byte(o, 0, format::TextRecord::KIND);
    copies::copy_all(&b[..format::TextRecord::F3], o, 1);
    octets::put_u32(o, F3_LENGTH, (b.len() - format::TextRecord::F3) as u32);
}

pub fn text_records(b: &[u8], o: &mut [u8])
    requires { (20 ≤ length b.now) × (length b.now ≤ 65536) × (record_length 5 + piece_count (length b.now - 20) * record_length 6 ≤ length o.old) }
    ensures { o.new ≡ sets o.old 0 (record_bytes (text_records b.now)) }
{
    text_record(b, o);
    piece_records(
        &b[format::TextRecord::F3..],
        &mut o[format::TextRecord::WHOLE..],
    );
}

// The record of an opaque segment, without its pieces.
pub fn opaque_record(segment_type: u8, b: &[u8], o: &mut [u8])
    requires { (length b.now ≤ 65536) × (record_length 7 ≤ length o.old) }
    ensures { o.new ≡ sets o.old 0 (record_bytes (record_of 7 (segment_type ∷ bytes 4 (length b.now)) ∷ [])) }
{
    put_byte(o, 0, format::OpaqueRecord::KIND);
    put_byte(o, 1, segment_type);
    octets::put_u32(o, BODY_LENGTH, b.len() as u32);
}

pub fn opaque_records(segment_type: u8, b: &[u8], o: &mut [u8])
    requires { (length b.now ≤ 65536) × (record_length 7 + piece_count (length b.now) * record_length 6 ≤ length o.old) }
    ensures { o.new ≡ sets o.old 0 (record_bytes (opaque_records segment_type b.now)) }
{
    opaque_record(segment_type, b, o);
    piece_records(b, &mut o[format::OpaqueRecord::WHOLE..]);
}
