ghost use Rattle.std.specs.Cmp.Lexicographic.{pointwise};
ghost use Rattle.std.specs.Prelude.{◌≡◌, nat_eq, IfOk};
ghost use Rattle.smf_state.specs.OwnName.{startd};

use smf_fmri::InstanceFmri;
use std::alloc::{AllocError, Global};

/// The name of svc.startd's own restarter, which needs no instance.
const STARTD: &str = "svc:/system/svc/restarter:default";

pub fn startd(alloc: Global) -> Result<InstanceFmri, AllocError>
    ensures { IfOk result (λ name. name ≡ startd) }
{
    InstanceFmri::from_valid_text(alloc, STARTD)
}

/// True if it is svc.startd's own restarter.
pub fn is_startd(name: &InstanceFmri) -> bool
    ensures { result ≡ pointwise nat_eq name.now startd }
{
    name.print() == STARTD
}
