ghost use Rattle.std.specs.Prelude.{◌≡◌, ◌++◌, ◌∷◌, [], OnOk};
ghost use Rattle.smf_dep.specs.Methods.{method_by};
ghost use Rattle.smf_reasons.specs.Reasons.{method_read, methods_read, start_read};

use crate::reason::Reason;
use smf_contract::Method;
use smf_fmri::{InstanceFmri, Items, Ordered};
use smf_method::{MethodFault, ReadMethod};
use smf_value::Group;
use std::alloc::{AllocError, Global};

fn put_unreadable(
    method: Method,
    fault: MethodFault,
    all: &mut Items<Reason>,
) -> Result<(), AllocError>
    ensures { OnOk result (all.new ≡ all.old ++ Reason.UnreadableMethod method fault ∷ []) }
{
    all.push(Reason::UnreadableMethod { method, fault })
}

/// Puts a reason if there is no start method, or it can't be read.
fn put_start(
    alloc: Global,
    restarter: &InstanceFmri,
    instance: &InstanceFmri,
    groups: &Ordered<Group>,
    all: &mut Items<Reason>,
) -> Result<(), AllocError>
    ensures { OnOk result
        (all.new ≡ all.old ++ start_read (method_by restarter.now instance.now groups.now Method.Start)) }
{
    let method = Method::Start;
    match ReadMethod::of(alloc, groups, method, restarter, instance) {
        Ok(Some(_)) => Ok(()),
        Ok(None) => all.push(Reason::NoStartMethod),
        Err(MethodFault::Memory) => Err(AllocError),
        Err(MethodFault::NoExec) => put_unreadable(method, MethodFault::NoExec, all),
        Err(MethodFault::BadTimeout) => put_unreadable(method, MethodFault::BadTimeout, all),
        Err(MethodFault::BadToken(place)) => {
            put_unreadable(method, MethodFault::BadToken(place), all)
        }
        Err(MethodFault::BadDuration) => put_unreadable(method, MethodFault::BadDuration, all),
        Err(MethodFault::BadIgnore) => put_unreadable(method, MethodFault::BadIgnore, all),
    }
}

/// Puts a reason if a method can't be read.
fn put_method(
    alloc: Global,
    restarter: &InstanceFmri,
    instance: &InstanceFmri,
    groups: &Ordered<Group>,
    method: Method,
    all: &mut Items<Reason>,
) -> Result<(), AllocError>
    ensures { OnOk result
        (all.new ≡ all.old ++ method_read method (method_by restarter.now instance.now groups.now method)) }
{
    match ReadMethod::of(alloc, groups, method, restarter, instance) {
        Ok(_) => Ok(()),
        Err(MethodFault::Memory) => Err(AllocError),
        Err(MethodFault::NoExec) => put_unreadable(method, MethodFault::NoExec, all),
        Err(MethodFault::BadTimeout) => put_unreadable(method, MethodFault::BadTimeout, all),
        Err(MethodFault::BadToken(place)) => {
            put_unreadable(method, MethodFault::BadToken(place), all)
        }
        Err(MethodFault::BadDuration) => put_unreadable(method, MethodFault::BadDuration, all),
        Err(MethodFault::BadIgnore) => put_unreadable(method, MethodFault::BadIgnore, all),
    }
}

/// Puts the reasons of the methods of an instance.
pub(crate) fn put_methods(
    alloc: Global,
    restarter: &InstanceFmri,
    instance: &InstanceFmri,
    groups: &Ordered<Group>,
    all: &mut Items<Reason>,
) -> Result<(), AllocError>
    ensures { OnOk result (all.new ≡ all.old ++ methods_read restarter.now instance.now groups.now) }
{
    put_start(alloc, restarter, instance, groups, all)?;
    put_method(alloc, restarter, instance, groups, Method::Stop, all)?;
    put_method(alloc, restarter, instance, groups, Method::Refresh, all)
}
