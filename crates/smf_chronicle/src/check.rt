ghost use Rattle.smf_chronicle.specs.Breaches.{first_breach_told};
ghost use Rattle.std.specs.Prelude.{◌≡◌, IfOk};

use crate::entry::Entry;
use crate::rule::Breach;
use crate::tables::Tables;
use std::alloc::{AllocError, Global};

/// Finds the first entry of a chronicle that breaks a rule. The entries stand in the order in which they happened.
pub fn audit(alloc: Global, entries: &[Entry]) -> Result<Option<Breach>, AllocError>
    ensures { IfOk result (λ found. found ≡ first_breach_told entries.now) }
{
    let mut tables = Tables::new(alloc);
    for (place, entry) in entries.iter().enumerate() {
        if let Some(rule) = tables.breach_of(entry) {
            return Ok(Some(Breach { place, rule }));
        }
        tables.note(place, entry)?;
    }
    Ok(None)
}
