// What goes by the edition that a packet is read as.
#![tactic(auto)]

ghost use Rattle.std.specs.Prelude.{◌≡◌, cond};
ghost use Rattle.mask.specs.Mask.{new_in_mask};
ghost use Rattle.format.specs.Edition.{is_older, is_hrr, mark, is_new_mode};

// Whether this is the Edition 1 reading of a version 3 packet.
#[tactic(auto, unfolding(format::specs::Edition::is_older))]
pub fn is_older(r: format::Reading) -> bool
    ensures { result ≡ is_older r }
{
    r.settings.edition == 1 && r.version == 3
}

// Whether a segment of type 3 is read field by field.
#[tactic(auto, unfolding(format::specs::Edition::is_hrr))]
pub fn is_hrr_read(r: format::Reading) -> bool
    ensures { result ≡ is_hrr r 3 }
{
    r.version == 3
}

// The mark of a field that the older reading withholds.
#[tactic(auto, unfolding(format::specs::Edition::mark))]
pub fn mark_of(r: format::Reading) -> u8
    ensures { result ≡ mark r }
{
    u8::from(!is_older(r))
}

// Whether the value of J14 is one that is new in Edition 3.
#[tactic(auto, unfolding(format::specs::Edition::is_new_mode, octets::specs::Octets::between))]
pub fn is_new_mode(mode: u8) -> bool
    ensures { result ≡ is_new_mode mode }
{
    matches!(mode, 91..=93 | 96..=97 | 101..=104 | 111..=113 | 120..=123)
}

// The field of what is new in a dwell's mask, where the reading is the older one, and else 0.
// Kept: 0 for none, as row 15 of `dwell_rows` has it and names it by `naming`.
pub fn new_field(r: format::Reading, mask: u64) -> u32
    ensures { result ≡ cond (is_older r) (new_in_mask mask) 0 }
{
    if is_older(r) {
        mask::new_in_mask(mask)
    } else {
        0
    }
}
