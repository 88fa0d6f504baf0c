// The records of a dwell and of its targets: a filler for each gets the sheet from its place on.
#![tactic(auto)]

ghost use Rattle.std.specs.Prelude.{◌≡◌, true, cond, [], ◌∷◌, ◌+◌, ◌*◌, ◌≤◌, length};
ghost use Rattle.std.proofs.lemmas.List.Edits.{sets};
ghost use Rattle.octets.specs.Layout.{pad};
ghost use Rattle.position.specs.Position.{is_latitude};
ghost use Rattle.format.specs.Check.{Passed};
ghost use Rattle.format.specs.Dwell.{target_count, target_length, target_fields, latitude};
ghost use Rattle.format.specs.Edition.{is_older};
ghost use Rattle.format.specs.Sheet.{dwell_record, target_record, target_records, dwell_records, record_bytes};
ghost use Rattle.format.specs.Lengths.{record_length};
ghost use Rattle.format.specs.Rows.{first_row, targets_rows, dwell_rows};
ghost use Rattle.dwell_checks.specs.InnerPlan.{Headed, Bounded, Holds};

// Places in whole records, which begin with their kind.
const D27: usize = 1 + format::DwellRecord::D27;

const MARK: usize = 1 + format::DwellRecord::MARK;

const LATITUDE: usize = 1 + format::TargetRecord::LATITUDE;

const LONGITUDE: usize = 1 + format::TargetRecord::LONGITUDE;

// Zeros in the place of D27, where the reading withholds it.
fn withhold(r: format::Reading, o: &mut [u8], q: usize)
    requires { q + 2 ≤ length o.old }
    ensures { o.new ≡ cond (is_older r) (sets o.old q (pad 2 [])) o.old }
{
    if editions::is_older(r) {
        copies::clear(o, q, 2);
    }
}

pub fn dwell_record(r: format::Reading, b: &[u8], mask: u64, o: &mut [u8])
    requires { Headed mask b.now × (record_length 3 ≤ length o.old) }
    ensures { o.new ≡ sets o.old 0 (record_bytes (dwell_record r b.now ∷ [])) }
{
    records::put_byte(o, 0, format::DwellRecord::KIND);
    copies::copy::<8>(b, 0, o, 1);
    unpack_dwell::dwell_fields(b, 8, mask, o, 9);
    withhold(r, o, D27);
    records::put_byte(o, MARK, editions::mark_of(r));
}

// The target at the front of t. Latitude and longitude are each stored as soon as they are worked out: the compiler stores the
// four bytes of one number in one step, but those of two numbers in a row byte by byte.
fn target_record(t: &[u8], mask: u64, area: format::Area, o: &mut [u8])
    requires { (target_length mask ≤ length t.now) × (record_length 4 ≤ length o.old) × Bounded area × (is_latitude (latitude mask area (target_fields mask t.now)) ≡ true) }
    ensures { o.new ≡ sets o.old 0 (record_bytes (target_record mask area t.now ∷ [])) }
{
    records::put_byte(o, 0, format::TargetRecord::KIND);
    unpack_target::target_fields(t, 0, mask, o, 1);
    let latitude = position::latitude_micro(dwell_checks::latitude_of(t, mask, area));
    octets::put_i32(o, LATITUDE, latitude);
    let longitude = position::longitude_micro(dwell_checks::longitude_of(t, mask, area));
    octets::put_u32(o, LONGITUDE, longitude);
}

// So many targets of this plan from t on, to which no row applies.
// Kept: a loop that counts. A mask that announces no field of targets makes them of no bytes, and `chunks_exact` asks for one at least.
pub fn target_records(t: &[u8], p: dwell_checks::Plan, count: usize, o: &mut [u8])
    requires { Holds p count t.now × (count * record_length 4 ≤ length o.old) × (first_row (targets_rows p.mask p.area count t.now) ≡ Passed) }
    ensures { o.new ≡ sets o.old 0 (record_bytes (target_records p.mask p.area count t.now)) }
{
    let area = p.area;
    let mut at: usize = 0;
    let mut q: usize = 0;
    for i in 0..count {
        target_record(&t[at..], p.mask, area, &mut o[q..]);
        at += p.each;
        q += format::TargetRecord::WHOLE;
    }
}

// A dwell to whose body b no row applies, and its targets.
pub fn dwell_records(r: format::Reading, b: &[u8], o: &mut [u8])
    requires { (first_row (dwell_rows r b.now) ≡ Passed) × (record_length 3 + target_count b.now * record_length 4 ≤ length o.old) }
    ensures { o.new ≡ sets o.old 0 (record_bytes (dwell_records r b.now)) }
{
    let mask = octets::get_u64(b, 0);
    let p = dwell_checks::plan_of(b, mask);
    let start = p.start;
    dwell_record(r, b, mask, o);
    target_records(
        &b[start..],
        p,
        p.count,
        &mut o[format::DwellRecord::WHOLE..],
    );
}
