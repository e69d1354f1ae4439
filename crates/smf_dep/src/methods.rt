ghost use Rattle.std.specs.Prelude.{◌≡◌, IfOk};
ghost use Rattle.smf_dep.specs.Methods.{has_unfit_methods, is_lacking, is_unreadable, method_by};

use smf_contract::Method;
use smf_fmri::{InstanceFmri, Ordered};
use smf_method::{MethodFault, ReadMethod};
use smf_value::Group;
use std::alloc::{AllocError, Global};

fn is_lacking(
    alloc: Global,
    restarter: &InstanceFmri,
    instance: &InstanceFmri,
    groups: &Ordered<Group>,
    method: Method,
) -> Result<bool, AllocError>
    ensures { IfOk result (λ b. b ≡ is_lacking (method_by restarter.now instance.now groups.now method)) }
{
    match ReadMethod::of(alloc, groups, method, restarter, instance) {
        Ok(read) => Ok(read.is_none()),
        Err(MethodFault::Memory) => Err(AllocError),
        Err(_) => Ok(true),
    }
}

fn is_unreadable(
    alloc: Global,
    restarter: &InstanceFmri,
    instance: &InstanceFmri,
    groups: &Ordered<Group>,
    method: Method,
) -> Result<bool, AllocError>
    ensures { IfOk result (λ b. b ≡ is_unreadable (method_by restarter.now instance.now groups.now method)) }
{
    match ReadMethod::of(alloc, groups, method, restarter, instance) {
        Ok(_) => Ok(false),
        Err(MethodFault::Memory) => Err(AllocError),
        Err(_) => Ok(true),
    }
}

/// True if the methods of an instance's groups don't let it be run: there is none to start it, or one can't be read.
#[tactic(auto, unfolding(crate::specs::Methods::has_unfit_methods))]
pub(crate) fn has_unfit_methods(
    alloc: Global,
    restarter: &InstanceFmri,
    instance: &InstanceFmri,
    groups: &Ordered<Group>,
) -> Result<bool, AllocError>
    ensures { IfOk result (λ b. b ≡ has_unfit_methods restarter.now instance.now groups.now) }
{
    let no_start = is_lacking(alloc, restarter, instance, groups, Method::Start)?;
    let no_stop = is_unreadable(alloc, restarter, instance, groups, Method::Stop)?;
    let no_refresh = is_unreadable(alloc, restarter, instance, groups, Method::Refresh)?;
    Ok(no_start || no_stop || no_refresh)
}
