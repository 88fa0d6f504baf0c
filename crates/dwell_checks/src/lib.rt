// The rows of a dwell and of its targets, over the numbers in their announced fields, which are read where they stand in the packet.
#![tactic(auto)]

ghost use Rattle.std.specs.Prelude.{◌≡◌, true, not, ◌&&◌, ◌+◌, ◌-◌, ◌*◌, ◌≤◌, ◌<◌, length, drop};
ghost use Rattle.octets.specs.Octets.{twos};
ghost use Rattle.mask.specs.Fields.{announced, taken, announced_length, dwell_widths};
ghost use Rattle.mask.specs.InnerFields.{widths, Required};
ghost use Rattle.position.specs.Position.{is_latitude};
ghost use Rattle.format.specs.declared.Reading.{Reading};
ghost use Rattle.format.specs.Dwell.{mask_of, dwell_fields, target_count, target_length, target_fields, area_of, latitude, longitude};
ghost use Rattle.format.specs.Check.{check_of};
ghost use Rattle.format.specs.Rows.{first_row, target_rows, targets_rows, dwell_rows};
ghost use Rattle.dwell_checks.specs.InnerPlan.{Headed, d24_at, Bounded, Holds, plan_of, is_inside, number_if};

use format::Fault;

// What a walk over a dwell needs of it: the mask, where the targets start in the body, the bytes of each, how many they are, and what their
// positions take from the dwell. It is worked out once for each walk, and handed on. With the area first, the loop over targets is fastest.
#[derive(Clone, Copy)]
pub struct Plan {
    pub area: format::Area,
    pub mask: u64,
    pub each: usize,
    pub start: usize,
    pub count: usize,
}

// The widths of D32.1 to D32.18.
const TARGET_WIDTHS: [u8; 18] = [2, 4, 4, 2, 2, 2, 2, 2, 1, 1, 1, 2, 2, 1, 2, 1, 4, 1];

// The announced bytes of a target's fields from the first to the last of these numbers. Where the numbers are few and known to the
// compiler, nothing of the loop is left.
fn span(mask: u64, first: usize, last: usize) -> usize
    requires { (32 ≤ first) × (first ≤ last) × (last < 50) }
    ensures { (result ≡ announced_length mask first (widths first last)) × (result ≤ 255 * 18) }
{
    let mut at = 0;
    for n in first..last + 1 {
        at += mask::width_if(mask, n, TARGET_WIDTHS[n - 32]);
    }
    at
}

// The number at `at` where the mask announces field n, and 0 where it does not, as on the sheet.
// Kept: one for each type. A trait of them would take an impl for each, and laws of what its bytes and zero bytes spell: no plainer.
fn u8_if(b: &[u8], mask: u64, n: usize, at: usize) -> u8
    requires { (2 ≤ n) × (n ≤ 65) × (announced mask n ≡ true → at + 1 ≤ length b.now) }
    ensures { result ≡ number_if mask n 1 at b.now }
{
    if mask::has(mask, n) { b[at] } else { 0 }
}

fn u16_if(b: &[u8], mask: u64, n: usize, at: usize) -> u16
    requires { (2 ≤ n) × (n ≤ 65) × (announced mask n ≡ true → at + 2 ≤ length b.now) }
    ensures { result ≡ number_if mask n 2 at b.now }
{
    if mask::has(mask, n) {
        octets::get_u16(b, at)
    } else {
        0
    }
}

fn u32_if(b: &[u8], mask: u64, n: usize, at: usize) -> u32
    requires { (2 ≤ n) × (n ≤ 65) × (announced mask n ≡ true → at + 4 ≤ length b.now) }
    ensures { result ≡ number_if mask n 4 at b.now }
{
    if mask::has(mask, n) {
        octets::get_u32(b, at)
    } else {
        0
    }
}

fn i16_if(b: &[u8], mask: u64, n: usize, at: usize) -> i16
    requires { (2 ≤ n) × (n ≤ 65) × (announced mask n ≡ true → at + 2 ≤ length b.now) }
    ensures { result ≡ twos 2 (number_if mask n 2 at b.now) }
{
    if mask::has(mask, n) {
        octets::get_i16(b, at)
    } else {
        0
    }
}

fn i32_if(b: &[u8], mask: u64, n: usize, at: usize) -> i32
    requires { (2 ≤ n) × (n ≤ 65) × (announced mask n ≡ true → at + 4 ≤ length b.now) }
    ensures { result ≡ twos 4 (number_if mask n 4 at b.now) }
{
    if mask::has(mask, n) {
        octets::get_i32(b, at)
    } else {
        0
    }
}

// D5, which stands behind the mask and D2 to D4 wherever the required fields are announced.
pub fn target_count(b: &[u8]) -> u16
    requires { Required (mask_of b.now) × (43 ≤ length b.now) }
    ensures { result ≡ target_count b.now }
{
    octets::get_u16(b, 13)
}

// What the positions of the targets take from the dwell's body b: D10 and D11, which stand behind D2 to D9, and
// from `at` on D24 and D25.
fn area(b: &[u8], mask: u64, at: usize) -> format::Area
    requires { Headed mask b.now × (at ≡ d24_at mask) }
    ensures { (result ≡ area_of (dwell_fields b.now)) × Bounded result }
{
    format::Area {
        d10: position::latitude_steps(i32_if(b, mask, 10, 31)),
        d11: position::Ba32(u32_if(b, mask, 11, 31 + mask::width_if(mask, 10, 4))),
        d24: position::latitude_steps(octets::get_i32(b, at)),
        d25: position::Ba32(octets::get_u32(b, at + 4)),
    }
}

// The plan of the dwell's body b, by the numbers that its mask and its D5 give.
fn plan_by(b: &[u8], mask: u64, at: usize, start: usize, each: usize, count: usize) -> Plan
    requires { Headed mask b.now × (at ≡ d24_at mask) × (start ≡ 8 + announced_length mask 2 dwell_widths) × (each ≡ target_length mask) × (count ≡ target_count b.now) }
    ensures { (result ≡ plan_of b.now) × Bounded result.area }
{
    let area = area(b, mask, at);
    Plan {
        mask,
        start,
        each,
        count,
        area,
    }
}

// The mask is handed in: where a function tests bits of a number that it reads, the compiler reads it byte by byte.
pub fn plan_of(b: &[u8], mask: u64) -> Plan
    requires { Headed mask b.now }
    ensures { (result ≡ plan_of b.now) × Bounded result.area }
{
    let at = 8 + mask::length_before_d24(mask);
    let start = at + mask::length_from_d24(mask);
    plan_by(
        b,
        mask,
        at,
        start,
        mask::target_length(mask),
        target_count(b) as usize,
    )
}

// The position of the target at the front of t, in steps.
pub fn latitude_of(t: &[u8], mask: u64, area: format::Area) -> position::Sa32
    requires { (target_length mask ≤ length t.now) × Bounded area }
    ensures { result.0 ≡ latitude mask area (target_fields mask t.now) }
{
    let own = i32_if(t, mask, 33, span(mask, 32, 32));
    let is_own = mask::has(mask, 33);
    if is_own {
        position::latitude_steps(own)
    } else {
        position::latitude_sum(i16_if(t, mask, 35, span(mask, 32, 34)), area.d10, area.d24)
    }
}

pub fn longitude_of(t: &[u8], mask: u64, area: format::Area) -> position::Ba32
    requires { target_length mask ≤ length t.now }
    ensures { result.0 ≡ longitude mask area (target_fields mask t.now) }
{
    let own = u32_if(t, mask, 34, span(mask, 32, 33));
    let is_own = mask::has(mask, 34);
    if is_own {
        position::Ba32(own)
    } else {
        position::longitude_sum(i16_if(t, mask, 36, span(mask, 32, 35)), area.d11, area.d25)
    }
}

// Whether row 14 can apply to no target of the dwell: every D32.2 is a latitude, and where D10 and D24 are small enough every sum is one.
fn is_always_latitude(mask: u64, area: format::Area) -> bool
    requires { Bounded area }
    ensures { result ≡ is_inside mask area }
{
    mask::has(mask, 33) || position::is_always_latitude(area.d10, area.d24)
}

// Whether row 14 applies to the target at the front of t. Inside says that it can apply to none, and then the bytes are not looked at.
fn is_out(t: &[u8], mask: u64, area: format::Area, inside: bool) -> bool
    requires { (target_length mask ≤ length t.now) × Bounded area × (inside ≡ is_inside mask area) }
    ensures { result ≡ not (is_latitude (latitude mask area (target_fields mask t.now))) }
{
    !inside && !position::is_latitude(latitude_of(t, mask, area))
}

// The rows of the target at the front of t: 13 in field order, and then 14.
fn target_check(t: &[u8], mask: u64, area: format::Area, inside: bool) -> Result<(), Fault>
    requires { (target_length mask ≤ length t.now) × Bounded area × (inside ≡ is_inside mask area) }
    ensures { check_of result ≡ first_row (target_rows mask area t.now) }
{
    let d32_6 = span(mask, 32, 36);
    let d32_11 = d32_6 + span(mask, 37, 41);
    let d32_15 = d32_11 + span(mask, 42, 45);
    if i16_if(t, mask, 37, d32_6) < -1000 {
        return Err(Fault::naming(13, 37));
    }
    if 100 < u8_if(t, mask, 42, d32_11) {
        return Err(Fault::naming(13, 42));
    }
    if 5000 < u16_if(t, mask, 46, d32_15) {
        return Err(Fault::naming(13, 46));
    }
    if is_out(t, mask, area, inside) {
        return Err(Fault::naming(14, 35));
    }
    Ok(())
}

// D32.6, D32.11 and D32.15, the fields that have a bound.
const BOUNDED: u64 = 0x0000_0000_1088_0000;

// The rows of the plan's targets, which stand from t on, target by target.
fn each_check(t: &[u8], p: Plan, inside: bool) -> Result<(), Fault>
    requires { Holds p p.count t.now × (inside ≡ is_inside p.mask p.area) }
    ensures { check_of result ≡ first_row (targets_rows p.mask p.area p.count t.now) }
{
    let area = p.area;
    // Kept: no `chunks`. Where there are no targets the mask may give them no bytes, and chunks of none are not allowed.
    let mut at: usize = 0;
    for i in 0..p.count {
        target_check(&t[at..], p.mask, area, inside)?;
        at += p.each;
    }
    Ok(())
}

// The same, without a look at the targets where none can be at fault: row 14 can apply to none, and the mask announces none of the fields that
// have a bound.
fn targets_check(t: &[u8], p: Plan) -> Result<(), Fault>
    requires { Holds p p.count t.now }
    ensures { check_of result ≡ first_row (targets_rows p.mask p.area p.count t.now) }
{
    let area = p.area;
    let inside = is_always_latitude(p.mask, area);
    if inside && p.mask & BOUNDED == 0 {
        return Ok(());
    }
    each_check(t, p, inside)
}

// The rows 13 and 14 of a dwell, whose body b has this plan, and its targets.
fn dwell_values(b: &[u8], p: Plan) -> Result<(), Fault>
    requires { Required (mask_of b.now) × (p ≡ plan_of b.now) × Bounded p.area × (p.start + p.count * p.each ≤ length b.now) }
    ensures { (r : Reading) → check_of result ≡ first_row (drop 4 (dwell_rows r b.now)) }
{
    // D4, which stands behind the mask and D2 and D3.
    if 1 < b[12] {
        return Err(Fault::naming(13, 4));
    }
    if 0 < p.count && !mask::is_placed(p.mask) {
        return Err(Fault::naming(13, 5));
    }
    let start = p.start;
    targets_check(&b[start..], p)
}

pub fn dwell_check(r: format::Reading, b: &[u8]) -> Result<(), Fault>
    ensures { check_of result ≡ first_row (dwell_rows r b.now) }
{
    if b.len() < 8 {
        return Err(Fault::row(9));
    }
    let mask = octets::get_u64(b, 0);
    let fault = mask::lowest_fault(mask, r.version);
    if fault != 0 {
        return Err(Fault::naming(11, fault as usize));
    }
    let new = editions::new_field(r, mask);
    if new != 0 {
        return Err(Fault::naming(15, new as usize));
    }
    let at = 8 + mask::length_before_d24(mask);
    let start = at + mask::length_from_d24(mask);
    if b.len() < start {
        return Err(Fault::row(12));
    }
    let count = target_count(b) as usize;
    let each = mask::target_length(mask);
    if b.len() != start + count * each {
        return Err(Fault::row(12));
    }
    dwell_values(b, plan_by(b, mask, at, start, each, count))
}
