// Whether a sheet is the one that a packet reads to. The records are laid out a few at a time in a small window, and compared there: no
// array as long as the sheet is needed, nor its clearing. Full pieces of longer segments are not laid out, but compared where they stand.
#![tactic(auto)]

ghost use Rattle.std.specs.Prelude.{◌≡◌, cond, [], ◌∷◌, ◌++◌, ◌+◌, ◌*◌, ◌≤◌, min, eqb, length, take};
ghost use Rattle.octets.specs.Layout.{total};
ghost use Rattle.hrr.specs.Hrr.{hrr_mask, hrr_fields, scatterer_count};
ghost use Rattle.hrr.specs.InnerScatterers.{widths_of, Narrow};
ghost use Rattle.format.specs.Check.{Passed};
ghost use Rattle.format.specs.Dwell.{target_count};
ghost use Rattle.format.specs.Sheet.{target_records, dwell_records, scatterer_records, hrr_records, piece_record, piece_records, pieces_of, piece_count, opaque_records, record_bytes};
ghost use Rattle.format.specs.Lengths.{record_length};
ghost use Rattle.format.specs.Rows.{first_row, targets_rows, dwell_rows, hrr_rows};
ghost use Rattle.format.specs.Reader.{sheet};
ghost use Rattle.format.specs.Writer.{is_same};
ghost use Rattle.dwell_checks.specs.InnerPlan.{Holds};
ghost use Rattle.segments.specs.InnerWalk.{Checked, bytes_of, CheckedAll, CheckedPacket, all_bytes};

// The bytes of the window that records are laid out in. The loop that compares takes 32 bytes a step: as many scatterers of 9 bytes as fit, 64,
// fill whole steps. Nothing is left over then to be compared byte by byte.
const WINDOW: usize = 576;

// How many targets and scatterers it has room for.
const TARGETS: usize = WINDOW / format::TargetRecord::WHOLE;

const SCATTERERS: usize = WINDOW / format::ScattererRecord::WHOLE;

// Where the bytes of a piece begin in its record.
const BYTES: usize = 1 + format::PieceRecord::BYTES;

// 0 where two bytes are equal, else 1.
fn differs(x: u8, y: u8) -> u8
    ensures { result ≡ cond (eqb x y) 0 1 }
{
    u8::from(x != y)
}

// Whether two runs of bytes are equal. The loop goes on where they differ, and gathers in a byte: so it takes many bytes in a step.
// Kept: no `==`. It was tried: the free text took 2.6 times its reading to write, where the goal is 2.5, and so takes 2.0.
// Kept: places that are counted. With `zip` and `fold` it is as fast, but the proof that they fold to this did not close.
pub fn same(a: &[u8], b: &[u8]) -> bool
    ensures { result ≡ is_same a.now b.now }
{
    if a.len() != b.len() {
        return false;
    }
    let mut seen: u8 = 0;
    for i in 0..a.len() {
        seen |= differs(a[i], b[i]);
    }
    seen == 0
}

// Whether x is what stands at the front of the window.
fn is_front(window: &[u8], x: &[u8]) -> bool
    requires { length x.now ≤ length window.now }
    ensures { result ≡ is_same (take (length x.now) window.now) x.now }
{
    let n = x.len();
    same(&window[0..n], x)
}

// The targets of this plan, which stand from t on, and to which no row applies: as many at a time as the window has room for.
// Kept: a loop of its own beside that of `same_scatterers`. With the filler as a closure, each call would have to say over again what
// `target_records` and `scatterer_records` say of what they lay out.
fn same_targets(t: &[u8], p: dwell_checks::Plan, x: &[u8], window: &mut [u8; WINDOW]) -> bool
    requires { Holds p p.count t.now × (p.count * record_length 4 ≡ length x.now) × (first_row (targets_rows p.mask p.area p.count t.now) ≡ Passed) }
    ensures { result ≡ is_same (record_bytes (target_records p.mask p.area p.count t.now)) x.now }
{
    let mut done = 0;
    while done < p.count {
        let k = TARGETS.min(p.count - done);
        let at = done * p.each;
        let q = done * format::TargetRecord::WHOLE;
        let to = q + k * format::TargetRecord::WHOLE;
        dwell_records::target_records(&t[at..], p, k, window);
        if !is_front(window, &x[q..to]) {
            return false;
        }
        done += k;
    }
    true
}

// A dwell to whose body b no row applies, and its targets.
fn same_dwell(r: format::Reading, b: &[u8], x: &[u8], window: &mut [u8; WINDOW]) -> bool
    requires { (first_row (dwell_rows r b.now) ≡ Passed) × (record_length 3 + target_count b.now * record_length 4 ≡ length x.now) }
    ensures { result ≡ is_same (record_bytes (dwell_records r b.now)) x.now }
{
    let mask = octets::get_u64(b, 0);
    let p = dwell_checks::plan_of(b, mask);
    let start = p.start;
    dwell_records::dwell_record(r, b, mask, window);
    if !is_front(window, &x[0..format::DwellRecord::WHOLE]) {
        return false;
    }
    same_targets(&b[start..], p, &x[format::DwellRecord::WHOLE..], window)
}

// The scatterers of `each` bytes, which stand from t on: as many at a time as the window has room for.
fn same_scatterers(
    t: &[u8],
    s: hrr::Scatterers,
    each: usize,
    x: &[u8],
    window: &mut [u8; WINDOW],
) -> bool
    requires { Narrow s × (each ≡ total (widths_of s)) × (s.count * each ≤ length t.now) × (s.count * record_length 12 ≡ length x.now) }
    ensures { result ≡ is_same (record_bytes (scatterer_records (widths_of s) s.count t.now)) x.now }
{
    let mut done = 0;
    while done < s.count {
        let k = SCATTERERS.min(s.count - done);
        let at = done * each;
        let q = done * format::ScattererRecord::WHOLE;
        let to = q + k * format::ScattererRecord::WHOLE;
        hrr_records::scatterer_records(&t[at..], s, k, window);
        if !is_front(window, &x[q..to]) {
            return false;
        }
        done += k;
    }
    true
}

// An HRR segment to whose body b no row applies.
fn same_hrr(b: &[u8], x: &[u8], window: &mut [u8; WINDOW]) -> bool
    requires { (first_row (hrr_rows b.now) ≡ Passed) × (record_length 11 + scatterer_count (hrr_mask b.now) (hrr_fields b.now) * record_length 12 ≡ length x.now) }
    ensures { result ≡ is_same (record_bytes (hrr_records b.now)) x.now }
{
    let mask = hrr::mask_of(b);
    let start = hrr::MASK + hrr::fields_length(mask);
    let s = hrr_checks::scatterers_in(b);
    hrr_records::hrr_record(b, mask, window);
    if !is_front(window, &x[0..format::HrrRecord::WHOLE]) {
        return false;
    }
    same_scatterers(
        &b[start..],
        s,
        hrr::each_of(s),
        &x[format::HrrRecord::WHOLE..],
        window,
    )
}

// A full piece, which x begins with: its kind and its count, and the 32 bytes that b begins with. They are compared where they stand.
fn same_piece(b: &[u8], x: &[u8]) -> bool
    requires { (32 ≤ length b.now) × (record_length 6 ≤ length x.now) }
    ensures { result ≡ is_same (record_bytes (piece_record b.now ∷ [])) (take (record_length 6) x.now) }
{
    sheet_walk::is_full_piece(x, 0)
        && same(
            &b[..format::PieceRecord::FULL],
            &x[BYTES..format::PieceRecord::WHOLE],
        )
}

// So many full pieces, which x begins with.
fn same_full_pieces(b: &[u8], count: usize, x: &[u8]) -> bool
    requires { (count * 32 ≤ length b.now) × (count * record_length 6 ≤ length x.now) }
    ensures { result ≡ is_same (record_bytes (piece_records count b.now)) (take (count * record_length 6) x.now) }
{
    for i in 0..count {
        if !same_piece(
            &b[i * format::PieceRecord::FULL..],
            &x[i * format::PieceRecord::WHOLE..],
        ) {
            return false;
        }
    }
    true
}

// The pieces that carry b: the full ones, and the last, which is laid out in the window.
fn same_pieces(b: &[u8], x: &[u8], window: &mut [u8; WINDOW]) -> bool
    requires { (piece_count (length b.now) * record_length 6 ≡ length x.now) }
    ensures { result ≡ is_same (record_bytes (pieces_of b.now)) x.now }
{
    let full = b.len() / format::PieceRecord::FULL;
    if !same_full_pieces(b, full, x) {
        return false;
    }
    let at = full * format::PieceRecord::FULL;
    let q = full * format::PieceRecord::WHOLE;
    records::piece_records(&b[at..], window);
    is_front(window, &x[q..])
}

// A record that stands at the front of the window, and behind it the pieces that carry b.
fn same_with_pieces(head: usize, b: &[u8], x: &[u8], window: &mut [u8; WINDOW]) -> bool
    requires { (head ≤ length window.old) × (head + piece_count (length b.now) * record_length 6 ≡ length x.now) }
    ensures { result ≡ is_same (take head window.old ++ record_bytes (pieces_of b.now)) x.now }
{
    if !is_front(window, &x[0..head]) {
        return false;
    }
    same_pieces(b, &x[head..], window)
}

// An opaque segment.
fn same_opaque(segment_type: u8, b: &[u8], x: &[u8], window: &mut [u8; WINDOW]) -> bool
    requires { (length b.now ≤ 65536) × (record_length 7 + piece_count (length b.now) * record_length 6 ≡ length x.now) }
    ensures { result ≡ is_same (record_bytes (opaque_records segment_type b.now)) x.now }
{
    records::opaque_record(segment_type, b, window);
    same_with_pieces(format::OpaqueRecord::WHOLE, b, x, window)
}

// The records of a segment that is checked. Where they fit into the window they are laid out there as the reader does; longer ones have
// targets, scatterers or pieces, and are compared part by part.
fn same_segment(
    r: format::Reading,
    segment_type: u8,
    b: &[u8],
    x: &[u8],
    window: &mut [u8; WINDOW],
) -> bool
    requires { Checked r segment_type b.now × (length (bytes_of r segment_type b.now) ≡ length x.now) }
    ensures { result ≡ is_same (bytes_of r segment_type b.now) x.now }
{
    if x.len() <= WINDOW {
        reader::segment_records(r, segment_type, b, window);
        return is_front(window, x);
    }
    match segment_type {
        2 => same_dwell(r, b, x, window),
        3 => {
            if editions::is_hrr_read(r) {
                same_hrr(b, x, window)
            } else {
                same_opaque(segment_type, b, x, window)
            }
        }
        6 => {
            records::text_record(b, window);
            same_with_pieces(
                format::TextRecord::WHOLE,
                &b[format::TextRecord::F3..],
                x,
                window,
            )
        }
        _ => same_opaque(segment_type, b, x, window),
    }
}

// The records of all segments of l, the packet behind its header, to which no row applies.
fn same_records(r: format::Reading, l: &[u8], x: &[u8], window: &mut [u8; WINDOW]) -> bool
    requires { CheckedAll r l.now × (length (all_bytes r l.now) ≡ length x.now) }
    ensures { result ≡ is_same (all_bytes r l.now) x.now }
{
    let mut at = 0;
    let mut from = 0;
    while at < l.len() {
        let t = &l[at..];
        let size = segments::size_at(t);
        let segment_type = t[0];
        let b = &t[5..size];
        let to = from + segments::records_length(r, segment_type, b);
        if !same_segment(r, segment_type, b, &x[from..to], window) {
            return false;
        }
        from = to;
        at += size;
    }
    true
}

// The whole sheet of a packet to which no row applies, read with these settings.
fn same_sheet(
    settings: format::Settings,
    packet: &[u8],
    x: &[u8],
    window: &mut [u8; WINDOW],
) -> bool
    requires { CheckedPacket settings packet.now × (length (sheet settings packet.now) ≡ length x.now) }
    ensures { result ≡ is_same (sheet settings packet.now) x.now }
{
    let r = checks::reading_of(settings, packet);
    let head = format::HeaderRecord::WHOLE;
    records::header_record(packet, window);
    if !is_front(window, &x[0..head]) {
        return false;
    }
    same_records(r, &packet[format::HeaderRecord::LEN..], &x[head..], window)
}

// Whether x is the sheet of a packet to which no row applies, read with these settings.
pub fn is_sheet(settings: format::Settings, packet: &[u8], x: &[u8]) -> bool
    requires { CheckedPacket settings packet.now × (length (sheet settings packet.now) ≡ length x.now) }
    ensures { result ≡ is_same (sheet settings packet.now) x.now }
{
    let mut window = [0u8; WINDOW];
    same_sheet(settings, packet, x, &mut window)
}
