ghost use Rattle.std.specs.Prelude.{◌≡◌, [], IfOk};

use smf_fmri::Items;
use std::alloc::{AllocError, Global};

/// No items, and room for so many.
pub fn with_room<T: Drop>(alloc: Global, count: usize) -> Result<Items<T>, AllocError>
    ensures { IfOk result (λ s. s ≡ []) }
{
    let items = Vec::with_capacity(alloc, count)?;
    Ok(Items::from_vec(items))
}
