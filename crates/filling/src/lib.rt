// D27 and J26 of the Edition 3 sheet, filled in on the Edition 1 sheet of the same packet.
#![tactic(auto)]

ghost use Rattle.std.specs.Prelude.{◌≡◌, length};
ghost use Rattle.format.specs.Sheet.{body_length};
ghost use Rattle.demands.specs.Filled.{filled_record, filled_in};

use format::{DwellRecord, JobRecord};
use sheet_walk::Place;

// The byte that marks a field as shown.
const SHOWN: u8 = 1;

// The bodies of two records of one kind.
fn fill_record(kind: u8, older: &mut [u8], newer: &[u8])
    requires { (length older.old ≡ body_length kind) × (length newer.now ≡ body_length kind) }
    ensures { older.new ≡ (filled_record (record { kind = kind; body = older.old }) (record { kind = kind; body = newer.now })).body }
{
    if kind == DwellRecord::KIND {
        copies::copy::<2>(newer, DwellRecord::D27, older, DwellRecord::D27);
        older[DwellRecord::MARK] = SHOWN;
        return;
    }
    if kind == JobRecord::KIND {
        copies::copy::<1>(newer, JobRecord::J26, older, JobRecord::J26);
        older[JobRecord::MARK] = SHOWN;
    }
}

// Two records: those of different kinds have nothing to give.
fn fill_pair(kind: u8, older: &mut [u8], other: u8, newer: &[u8])
    requires { (length older.old ≡ body_length kind) × (length newer.now ≡ body_length other) }
    ensures { older.new ≡ (filled_record (record { kind = kind; body = older.old }) (record { kind = other; body = newer.now })).body }
{
    if kind != other {
        return;
    }
    fill_record(kind, older, newer);
}

// Both sheets, record by record, each with its own place, until one of them has no whole record any more. Any bytes may be handed in.
pub fn fill_in(older: &mut [u8], newer: &[u8])
    ensures { older.new ≡ filled_in older.old newer.now }
{
    let mut at = 0;
    let mut from = 0;
    loop {
        let Place::Whole(kind, next) = sheet_walk::record_at(older, at) else {
            return;
        };
        let Place::Whole(other, end) = sheet_walk::record_at(newer, from) else {
            return;
        };
        let body = at + 1;
        let given = from + 1;
        fill_pair(kind, &mut older[body..next], other, &newer[given..end]);
        at = next;
        from = end;
    }
}
