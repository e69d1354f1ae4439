//! For how many seconds the stop of an instance may take. None is no limit.

ghost use Rattle.std.specs.Option.{option_copied};
ghost use Rattle.std.specs.Prelude.{◌≡◌, IfOk};
ghost use Rattle.smf_dep.specs.Methods.{method_by};
ghost use Rattle.smf_method.specs.Commands.{builtin};
ghost use Rattle.smf_stops.specs.Seconds.{is_timed, limited, method_seconds, plus, seconds_by, stop_seconds, untimed_seconds, with_patience};

use smf_contract::Method;
use smf_dep::GraphMember;
use smf_fmri::{InstanceFmri, Ordered};
use smf_method::{Builtin, MethodCall, MethodFault, ReadMethod};
use smf_value::Group;
use std::alloc::{AllocError, Global};

/// A time-out of more seconds is no limit.
pub const MOST_SECONDS: u64 = 1_000_000_000;

/// How long a method may run that has no time-out.
#[derive(Clone, Copy)]
pub struct StopLimits {
    /// The seconds between a signal and KILL.
    pub patience: u64,
    /// The most seconds of a method that names no time-out.
    pub untimed: Option<u64>,
}

fn limited(seconds: u64) -> Option<u64>
    ensures { result ≡ limited seconds }
{
    if seconds <= MOST_SECONDS {
        Some(seconds)
    } else {
        None
    }
}

fn is_timed(group: Option<&Group>) -> bool
    ensures { result ≡ is_timed (option_copied group.entry) }
{
    match group {
        None => false,
        Some(group) => group.find("timeout_seconds").is_some(),
    }
}

fn untimed_seconds(limits: &StopLimits, is_timed: bool, command: Option<Builtin>) -> Option<u64>
    ensures { result ≡ untimed_seconds limits.now is_timed command }
{
    match command {
        Some(_) => Some(limits.patience),
        None => { if is_timed { None } else { limits.untimed } }
    }
}

fn seconds_by(limits: &StopLimits, is_timed: bool, call: &MethodCall) -> Option<u64>
    ensures { result ≡ seconds_by limits.now is_timed call.now.command call.now.timeout }
{
    match call.timeout {
        Some(timeout) => limited(timeout.seconds()),
        None => untimed_seconds(limits, is_timed, call.command.builtin()),
    }
}

/// The seconds of the stop method of an instance.
#[tactic(auto, unfolding(crate::specs::Seconds::method_seconds))]
fn method_seconds(
    alloc: Global,
    limits: &StopLimits,
    restarter: &InstanceFmri,
    instance: &InstanceFmri,
    groups: &Ordered<Group>,
) -> Result<Option<u64>, AllocError>
    ensures { IfOk result (λ seconds. seconds ≡ method_seconds limits.now restarter.now instance.now groups.now) }
{
    let is_timed = is_timed(groups.get_text("stop"));
    match ReadMethod::of(alloc, groups, Method::Stop, restarter, instance) {
        Ok(Some(read)) => Ok(seconds_by(limits, is_timed, &read.call)),
        Ok(None) => Ok(Some(limits.patience)),
        Err(MethodFault::Memory) => Err(AllocError),
        Err(_) => Ok(Some(limits.patience)),
    }
}

pub(crate) fn plus(seconds: Option<u64>, more: u64) -> Option<u64>
    ensures { result ≡ plus seconds more }
{
    match seconds {
        None => None,
        Some(seconds) => seconds.checked_add(more),
    }
}

fn with_patience(patience: u64, seconds: Option<u64>) -> Option<u64>
    ensures { result ≡ with_patience patience seconds }
{
    let after_method = plus(seconds, patience);
    let after_start = plus(after_method, patience);
    plus(after_start, 1)
}

/// The seconds in which an instance of a restarter has stopped.
#[tactic(auto, unfolding(crate::specs::Seconds::stop_seconds))]
pub(crate) fn stop_seconds(
    alloc: Global,
    limits: &StopLimits,
    restarter: &InstanceFmri,
    member: &GraphMember,
) -> Result<Option<u64>, AllocError>
    ensures { IfOk result (λ seconds. seconds ≡ stop_seconds limits.now restarter.now member.now) }
{
    let seconds = method_seconds(alloc, limits, restarter, &member.name, &member.composed)?;
    Ok(with_patience(limits.patience, seconds))
}
