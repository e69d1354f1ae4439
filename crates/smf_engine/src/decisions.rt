ghost use Rattle.std.specs.Prelude.{◌≡◌, IfOk};
ghost use Rattle.smf_engine.specs.Orders.{decision_by_asks, asks, by_dependencies, call_if, call_in, state_after_clear, decision, decision_if_disabled, decision_if_enabled, first_state, has_fault, decision_by_fault, method_in, start_by_method, stop_or_move, what_of};
ghost use Rattle.smf_method.specs.Faults.{Gives};

use bitflags::Flags;
use smf_contract::Method;
use smf_dep::{Finding, ReadMember};
use smf_method::{MethodCall, MethodFault, ReadMethod};
use smf_state::{Asks, Cause, State, ViewItem};
use smf_wire::What;
use std::alloc::{AllocError, Global};

/// The decision on an instance.
#[derive(Clone, Copy, PartialEq, Eq)]
pub(crate) enum Decision {
    /// To another state at once.
    To(State),
    Start,
    Stop {
        to: State,
        cause: Cause,
        /// Its stop method is run.
        by_method: bool,
    },
    Refresh,
}

fn first_state(enabled: bool) -> State
    ensures { result ≡ first_state enabled }
{
    if enabled {
        State::Offline
    } else {
        State::Disabled
    }
}

/// A running instance is stopped, any other goes there at once.
fn stop_or_move(state: State, to: State, cause: Cause, by_method: bool) -> Decision
    ensures { result ≡ stop_or_move state to cause by_method }
{
    if state.runs() {
        Decision::Stop {
            to,
            cause,
            by_method,
        }
    } else {
        Decision::To(to)
    }
}

fn stop_to_offline(cause: Cause, by_method: bool) -> Decision
    ensures { result ≡ Decision.Stop State.Offline cause by_method }
{
    Decision::Stop {
        to: State::Offline,
        cause,
        by_method,
    }
}

/// The state that an ask to be cleared leads to.
fn state_after_clear(item: &ViewItem) -> State
    ensures { result ≡ state_after_clear item.now }
{
    if item.row.state == State::Degraded {
        State::Online
    } else {
        first_state(item.enabled)
    }
}

/// The decision that svcadm(1M) or the restarter of an instance asks for, the first that applies.
fn decision_by_asks(item: &ViewItem) -> Option<Decision>
    ensures { result ≡ decision_by_asks item.now }
{
    let state = item.row.state;
    let asks = item.row.asks;
    if asks.contains(Asks::MAINTENANCE_NOW) {
        Some(stop_or_move(state, State::Maintenance, Cause::Admin, false))
    } else if asks.contains(Asks::MAINTENANCE) {
        Some(stop_or_move(state, State::Maintenance, Cause::Admin, true))
    } else if asks.contains(Asks::FAILED) {
        Some(stop_to_offline(Cause::Error, true))
    } else if asks.contains(Asks::EXITED) {
        Some(stop_to_offline(Cause::NonError, false))
    } else if asks.contains(Asks::RESTART) {
        Some(stop_to_offline(Cause::NonError, true))
    } else if asks.contains(Asks::CLEAR) {
        Some(Decision::To(state_after_clear(item)))
    } else if asks.contains(Asks::DEGRADED) {
        Some(Decision::To(State::Degraded))
    } else if asks.contains(Asks::REFRESH) {
        Some(Decision::Refresh)
    } else {
        None
    }
}

/// The decision if an instance is not enabled.
fn decision_if_disabled(state: State) -> Option<Decision>
    ensures { result ≡ decision_if_disabled state }
{
    match state {
        State::Offline | State::Maintenance => Some(Decision::To(State::Disabled)),
        State::Online | State::Degraded => Some(Decision::Stop {
            to: State::Disabled,
            cause: Cause::Admin,
            by_method: true,
        }),
        State::Uninitialized | State::Disabled => None,
    }
}

/// A method of the running snapshot, as it is read.
fn method_in(
    alloc: Global,
    item: &ViewItem,
    member: &ReadMember,
    method: Method,
) -> Result<Option<ReadMethod>, MethodFault>
    ensures { Gives result (method_in item.now member.now method) }
{
    ReadMethod::of(
        alloc,
        &member.member().composed,
        method,
        &item.row.owner,
        &item.name,
    )
}

/// True if an instance can't be run as it is configured.
fn has_fault(
    alloc: Global,
    item: &ViewItem,
    member: &ReadMember,
    finding: &Finding,
) -> Result<bool, AllocError>
    ensures { IfOk result (λ b. b ≡ has_fault item.now member.now finding.now) }
{
    if !item.readable || !finding.readable || finding.on_cycle {
        return Ok(true);
    }
    member.has_unfit_methods(alloc, &item.row.owner, &item.name)
}

/// The decision of its dependencies on an enabled instance without a fault.
fn by_dependencies(finding: &Finding, state: State) -> Option<Decision>
    ensures { result ≡ by_dependencies finding.now state }
{
    if state == State::Offline {
        if finding.all_met {
            Some(Decision::Start)
        } else {
            None
        }
    } else if finding.must_stop {
        Some(stop_to_offline(Cause::NonError, true))
    } else {
        None
    }
}

/// An enabled instance that is offline or runs.
fn decision_by_fault(
    alloc: Global,
    item: &ViewItem,
    member: &ReadMember,
    finding: &Finding,
) -> Result<Option<Decision>, AllocError>
    ensures { IfOk result
        (λ d. d ≡ decision_by_fault (has_fault item.now member.now finding.now) finding.now item.now.row.state) }
{
    let state = item.row.state;
    if has_fault(alloc, item, member, finding)? {
        return Ok(Some(stop_or_move(state, State::Maintenance, Cause::Config, false)));
    }
    Ok(by_dependencies(finding, state))
}

/// An enabled instance of which nothing is asked.
fn decision_if_enabled(
    alloc: Global,
    item: &ViewItem,
    member: &ReadMember,
    finding: &Finding,
) -> Result<Option<Decision>, AllocError>
    ensures { IfOk result (λ d. d ≡ decision_if_enabled item.now member.now finding.now item.now.row.state) }
{
    match item.row.state {
        State::Disabled => Ok(Some(Decision::To(State::Offline))),
        State::Offline | State::Online | State::Degraded => decision_by_fault(
            alloc, item, member, finding,
        ),
        State::Uninitialized | State::Maintenance => Ok(None),
    }
}

/// The decision on an instance that has nothing under way, by the first rule that applies.
pub(crate) fn decide_instance(
    alloc: Global,
    item: &ViewItem,
    member: &ReadMember,
    finding: &Finding,
) -> Result<Option<Decision>, AllocError>
    ensures { IfOk result (λ d. d ≡ decision item.now member.now finding.now) }
{
    if item.row.state == State::Uninitialized {
        return Ok(Some(Decision::To(first_state(item.enabled))));
    }
    if let Some(decision) = decision_by_asks(item) {
        return Ok(Some(decision));
    }
    if item.enabled {
        decision_if_enabled(alloc, item, member, finding)
    } else {
        Ok(decision_if_disabled(item.row.state))
    }
}

/// The call of a method; none also if it can't be read.
fn call_in(
    alloc: Global,
    item: &ViewItem,
    member: &ReadMember,
    method: Method,
) -> Result<Option<MethodCall>, AllocError>
    ensures { IfOk result (λ call. call ≡ call_in (method_in item.now member.now method)) }
{
    match method_in(alloc, item, member, method) {
        Ok(Some(read)) => Ok(Some(read.call)),
        Ok(None) => Ok(None),
        Err(MethodFault::Memory) => Err(AllocError),
        Err(_) => Ok(None),
    }
}

fn start_by_method(
    alloc: Global,
    item: &ViewItem,
    member: &ReadMember,
) -> Result<Option<What>, AllocError>
    ensures { IfOk result (λ what. what ≡ start_by_method (method_in item.now member.now Method.Start)) }
{
    match method_in(alloc, item, member, Method::Start) {
        Ok(Some(read)) => Ok(Some(What::Start {
            method: read.call,
            duration: read.duration,
            ignore: read.ignore,
        })),
        Ok(None) => Ok(None),
        Err(MethodFault::Memory) => Err(AllocError),
        Err(_) => Ok(None),
    }
}

/// The call of the stop method, if it is to be run.
fn stop_call(
    alloc: Global,
    item: &ViewItem,
    member: &ReadMember,
    by_method: bool,
) -> Result<Option<MethodCall>, AllocError>
    ensures { IfOk result (λ call. call ≡ call_if by_method (method_in item.now member.now Method.Stop)) }
{
    if by_method {
        call_in(alloc, item, member, Method::Stop)
    } else {
        Ok(None)
    }
}

/// The content of an order for a decision.
pub(crate) fn what_of(
    alloc: Global,
    item: &ViewItem,
    member: &ReadMember,
    decision: Decision,
) -> Result<Option<What>, AllocError>
    ensures { IfOk result (λ what. what ≡ what_of item.now member.now decision) }
{
    match decision {
        Decision::To(state) => Ok(Some(What::To(state))),
        Decision::Start => start_by_method(alloc, item, member),
        Decision::Stop {
            to,
            cause,
            by_method,
        } => {
            let method = stop_call(alloc, item, member, by_method)?;
            Ok(Some(What::Stop { to, cause, method }))
        }
        Decision::Refresh => {
            let method = call_in(alloc, item, member, Method::Refresh)?;
            Ok(Some(What::Refresh { method }))
        }
    }
}
