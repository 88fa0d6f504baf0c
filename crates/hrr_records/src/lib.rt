// The records of an HRR segment and of its scatterers: a filler for each gets the sheet from its place on.
#![tactic(auto)]

ghost use Rattle.std.specs.Prelude.{◌≡◌, [], ◌∷◌, ◌++◌, ◌+◌, ◌-◌, ◌*◌, ◌≤◌, length, drop};
ghost use Rattle.std.proofs.lemmas.List.Edits.{sets};
ghost use Rattle.octets.specs.Layout.{pad, total};
ghost use Rattle.words.specs.InnerWords.{Spells};
ghost use Rattle.hrr.specs.Hrr.{hrr_mask, hrr_fields, scatterer_count};
ghost use Rattle.hrr.specs.InnerScatterers.{Headed, widths_of, Narrow, digits, NarrowDigits};
ghost use Rattle.format.specs.Check.{Passed};
ghost use Rattle.format.specs.Sheet.{hrr_record, scatterer_record, scatterer_records, hrr_records, record_bytes};
ghost use Rattle.format.specs.Lengths.{record_length};
ghost use Rattle.format.specs.Rows.{first_row, hrr_rows};

// The number in w bytes at a place of t, none to two, as one of two bytes: the last of them, behind zeros.
fn widen(t: &[u8], at: usize, w: usize) -> u64
    requires { (w ≤ 2) × (at + w ≤ length t.now) }
    ensures { Spells 2 result (pad (2 - w) [] ++ pad w (drop at t.now)) }
{
    words::join(0, 2 - w, words::get(t, at, w))
}

// The scatterer at the front of t, whose widths are the digits of n. Its eight bytes are stored at once.
fn scatterer_record(t: &[u8], n: usize, o: &mut [u8])
    requires { NarrowDigits n × (total (digits n) ≤ length t.now) × (record_length 12 ≤ length o.old) }
    ensures { o.new ≡ sets o.old 0 (record_bytes (scatterer_record (digits n) t.now ∷ [])) }
{
    records::put_byte(o, 0, format::ScattererRecord::KIND);
    let magnitude = n / 1000;
    let phase = n / 100 % 10;
    let range = n / 10 % 10;
    let doppler = n % 10;
    let range_at = magnitude + phase;
    let doppler_at = range_at + range;
    let first = words::join(widen(t, 0, magnitude), 2, widen(t, magnitude, phase));
    let last = words::join(widen(t, range_at, range), 2, widen(t, doppler_at, doppler));
    words::put(o, 1, 8, words::join(first, 4, last));
}

// So many of them from t on.
// Kept: a loop that counts. With `chunks_exact` zipped to `chunks_exact_mut` 65,463 scatterers of one byte take 65 µs to read, and so 55.
fn each_record(t: &[u8], n: usize, count: usize, o: &mut [u8])
    requires { NarrowDigits n × (count * total (digits n) ≤ length t.now) × (count * record_length 12 ≤ length o.old) }
    ensures { o.new ≡ sets o.old 0 (record_bytes (scatterer_records (digits n) count t.now)) }
{
    let each = n / 1000 + n / 100 % 10 + n / 10 % 10 + n % 10;
    let mut at: usize = 0;
    let mut q: usize = 0;
    for i in 0..count {
        scatterer_record(&t[at..], n, &mut o[q..]);
        at += each;
        q += format::ScattererRecord::WHOLE;
    }
}

// So many scatterers of these widths from t on.
pub fn scatterer_records(t: &[u8], s: hrr::Scatterers, count: usize, o: &mut [u8])
    requires { Narrow s × (count * total (widths_of s) ≤ length t.now) × (count * record_length 12 ≤ length o.old) }
    ensures { o.new ≡ sets o.old 0 (record_bytes (scatterer_records (widths_of s) count t.now)) }
{
    hrr::by_pattern(s, o, |n, o| each_record(t, n, count, o));
}

// The mask, and H2 to H31 at full widths.
pub fn hrr_record(b: &[u8], mask: u64, o: &mut [u8])
    requires { Headed mask b.now × (record_length 11 ≤ length o.old) }
    ensures { o.new ≡ sets o.old 0 (record_bytes (hrr_record b.now ∷ [])) }
{
    records::put_byte(o, 0, format::HrrRecord::KIND);
    copies::copy::<{ hrr::MASK }>(b, 0, o, 1);
    unpack_hrr::hrr_fields(b, hrr::MASK, mask, o, 6);
}

// An HRR segment to whose body b no row applies, and its scatterers.
pub fn hrr_records(b: &[u8], o: &mut [u8])
    requires { (first_row (hrr_rows b.now) ≡ Passed) × (record_length 11 + scatterer_count (hrr_mask b.now) (hrr_fields b.now) * record_length 12 ≤ length o.old) }
    ensures { o.new ≡ sets o.old 0 (record_bytes (hrr_records b.now)) }
{
    let mask = hrr::mask_of(b);
    let start = hrr::MASK + hrr::fields_length(mask);
    let s = hrr_checks::scatterers_in(b);
    hrr_record(b, mask, o);
    scatterer_records(&b[start..], s, s.count, &mut o[format::HrrRecord::WHOLE..]);
}
