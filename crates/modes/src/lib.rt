// Which system a radar mode, the value of J14, belongs to: table 2-7.2 of each edition, looked up.
#![tactic(auto)]

ghost use Rattle.std.specs.Prelude.{◌≡◌, true, List, ◌≤◌};
ghost use Rattle.modes.specs.Modes.{Run, edition1, edition3, system_number, lookup, number_of, system_of};
ghost use Rattle.modes.specs.InnerEntries.{are_entries};

mod edition_1;
mod edition_3;

// The refusal of a lookup: the edition is neither 1 nor 3.
#[derive(Clone, Copy, Debug, PartialEq, Eq)]
pub struct NoEdition;

// The entry for a mode: of entries that are those of a table, the number that it gives the mode.
fn entry(entries: &[u8; 256], mode: u8) -> u8
    ensures { (table : List Run) → are_entries table entries.now ≡ true → result ≡ system_number table mode }
{
    entries[usize::from(mode)]
}

// The number of the system that an edition's table gives the mode, 1 to 12; 0 where it gives it to none.
// Kept: the 0, which `gmti_mode_system` stores for C, and which `system_number` says.
pub fn mode_system(edition: u32, mode: u8) -> Result<u8, NoEdition>
    ensures { (result ≡ lookup edition mode) × (system_of result ≤ 12) }
{
    match edition {
        1 => Ok(entry(&edition_1::SYSTEMS, mode)),
        3 => Ok(entry(&edition_3::SYSTEMS, mode)),
        _ => Err(NoEdition),
    }
}

// The number of an answer: 0, or 23 where it is a refusal.
pub fn number_of(found: Result<u8, NoEdition>) -> u32
    ensures { result ≡ number_of found }
{
    match found {
        Ok(_) => 0,
        Err(NoEdition) => 23,
    }
}

// The system of an answer: 0 in a refusal.
pub fn system_of(found: Result<u8, NoEdition>) -> u8
    ensures { result ≡ system_of found }
{
    found.unwrap_or(0)
}
