// The rows of an HRR segment's body, and its scatterers.
#![tactic(auto)]

ghost use Rattle.std.specs.Prelude.{◌≡◌, true, not, ◌&&◌, ◌+◌, ◌*◌, ◌≤◌, ltb, length, drop};
ghost use Rattle.octets.specs.Octets.{between};
ghost use Rattle.octets.specs.Layout.{total};
ghost use Rattle.mask.specs.Fields.{announced_length};
ghost use Rattle.hrr.specs.Hrr.{hrr_mask, is_hrr_mask, hrr_widths, hrr_fields};
ghost use Rattle.hrr.specs.InnerScatterers.{Headed, scatterers_of, widths_of, Narrow, Bounded};
ghost use Rattle.format.specs.Check.{Passed, check_of};
ghost use Rattle.format.specs.Rows.{first_row, hrr_rows};

use format::Fault;

// Whether row 22 lets the widths pass: those of the magnitude and of the phase.
fn are_widths(h25: u8, h26: u8) -> bool
    ensures { result ≡ (between 1 2 h25 && not (ltb 2 h26)) }
{
    octets::is_between(1, 2, h25) && h26 <= 2
}

// Row 22 of a body with this mask, to which rows 9 and 21 do not apply. The counts are not gone through: their product with the widths is
// compared with the size.
fn size_check(b: &[u8], mask: u64) -> Result<(), Fault>
    requires { (mask ≡ hrr_mask b.now) × (is_hrr_mask mask ≡ true) × (5 ≤ length b.now) }
    ensures { check_of result ≡ first_row (drop 2 (hrr_rows b.now)) }
{
    let start = hrr::MASK + hrr::fields_length(mask);
    if b.len() < start {
        return Err(Fault::row(22));
    }
    let at = hrr::MASK + hrr::length_before_h25(mask);
    if !are_widths(b[at], b[at + 1]) {
        return Err(Fault::row(22));
    }
    let s = hrr::scatterers_in(b, mask, at);
    if b.len() != start + s.count * hrr::each_of(s) {
        return Err(Fault::row(22));
    }
    Ok(())
}

pub fn hrr_check(b: &[u8]) -> Result<(), Fault>
    ensures { check_of result ≡ first_row (hrr_rows b.now) }
{
    if b.len() < hrr::MASK {
        return Err(Fault::row(9));
    }
    let mask = hrr::mask_of(b);
    if !hrr::is_mask(mask) {
        return Err(Fault::row(21));
    }
    size_check(b, mask)
}

// The scatterers of a body to which no row applies.
pub fn scatterers_in(b: &[u8]) -> hrr::Scatterers
    requires { first_row (hrr_rows b.now) ≡ Passed }
    ensures value { (result ≡ scatterers_of (hrr_mask b.now) (hrr_fields b.now)) × Narrow result × Bounded result }
    ensures headed { Headed (hrr_mask b.now) b.now × (5 + announced_length (hrr_mask b.now) 2 hrr_widths + result.count * total (widths_of result) ≡ length b.now) }
{
    let mask = hrr::mask_of(b);
    hrr::scatterers_in(b, mask, hrr::MASK + hrr::length_before_h25(mask))
}
