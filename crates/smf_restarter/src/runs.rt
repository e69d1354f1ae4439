//! The runs that have a contract, as a restarter knows them.

ghost use Rattle.std.specs.List.{AllWithin, list_any};
ghost use Rattle.std.specs.List.Sorted.{IsNonDecreasingBy};
ghost use Rattle.std.specs.Option.{option_copied};
ghost use Rattle.std.specs.Prelude.{◌≡◌, ◌<◌, ◌≤◌, find, length, option_to_list};
ghost use Rattle.smf_restarter.specs.Runs.{has_none, ignore_of, ignores_core, ignores_signal, instance_of, is_empty, is_exit_of, is_failure, is_held_by, is_orphan, known_run, listed_as, listed_run, orphan, run_at};

use crate::known::{KnownInstance, KnownRun, RunKey};
use crate::restarter::Restarter;
use smf_contract::{ContractEvent, Cookie, EventKind, Holder, Status};
use smf_fmri::{Number, Table};
use smf_state::Ignore;

/// A run of an instance.
pub(crate) fn run_at(restarter: &Restarter, instance: u64, run: u64) -> Option<&KnownRun>
    ensures { option_copied result ≡ run_at restarter.now.known instance run }
{
    restarter.runs.get(&RunKey { instance, run })
}

/// The run that a row names, if it names one.
pub(crate) fn known_run(restarter: &Restarter, instance: u64, run: Option<u64>) -> Option<&KnownRun>
    ensures { option_copied result ≡ known_run restarter.now.known instance run }
{
    match run {
        None => None,
        Some(run) => run_at(restarter, instance, run),
    }
}

/// A contract that is not known counts as empty.
pub(crate) fn is_empty(run: Option<&KnownRun>) -> bool
    ensures { result ≡ is_empty (option_copied run.entry) }
{
    match run {
        None => true,
        Some(run) => run.empty,
    }
}

/// True if a run of the instance has members, and the restarter does not hold its contract.
fn is_orphan(instance: u64, run: &KnownRun) -> bool
    ensures { result ≡ is_orphan instance run.now }
{
    run.key.instance == instance && !run.empty && !run.held
}

fn orphan_among(runs: &[KnownRun], instance: u64) -> Option<&KnownRun>
    ensures { option_copied result ≡ find (is_orphan instance) runs.now }
{
    for run in runs {
        if is_orphan(instance, run) {
            return Some(run);
        }
    }
    None
}

/// How many runs have a lower instance.
fn count_below(runs: &[KnownRun], instance: u64) -> usize
    requires { IsNonDecreasingBy instance_of runs.now }
    ensures bound { result ≤ length runs.now }
    ensures below { AllWithin (λ r. instance_of r < instance) runs.now 0 result }
{
    runs.partition_point(|run| run.key.instance < instance)
}

/// How many runs have this instance or a lower one.
fn count_up_to(runs: &[KnownRun], instance: u64) -> usize
    requires { IsNonDecreasingBy instance_of runs.now }
    ensures bound { result ≤ length runs.now }
    ensures above { AllWithin (λ r. instance < instance_of r) runs.now result (length runs.now) }
{
    runs.partition_point(|run| run.key.instance <= instance)
}

/// The first orphan of an instance. Only the runs of the instance are looked at.
pub(crate) fn orphan_in(runs: &Table<KnownRun>, instance: u64) -> Option<&KnownRun>
    ensures { option_copied result ≡ find (is_orphan instance) runs.now.items }
{
    let all = runs.as_slice();
    let (_, left) = all.split_at(count_below(all, instance));
    let (own, _) = left.split_at(count_up_to(left, instance));
    orphan_among(own, instance)
}

/// The first such run.
pub(crate) fn orphan(restarter: &Restarter, instance: u64) -> Option<&KnownRun>
    ensures { option_copied result ≡ orphan restarter.now.known instance }
{
    orphan_in(&restarter.runs, instance)
}

pub(crate) fn ignores_core(ignore: Ignore) -> bool
    ensures { result ≡ ignores_core ignore }
{
    let bits = ignore.bits();
    bits == 1 || bits == 3
}

pub(crate) fn ignores_signal(ignore: Ignore) -> bool
    ensures { result ≡ ignores_signal ignore }
{
    let bits = ignore.bits();
    bits == 2 || bits == 3
}

/// True if an event is a failure that the service does not ignore.
pub(crate) fn is_failure(ignore: Ignore, kind: &EventKind) -> bool
    ensures { result ≡ is_failure ignore kind.now }
{
    match kind {
        EventKind::Core(_) => !ignores_core(ignore),
        EventKind::Signal(_) => !ignores_signal(ignore),
        EventKind::Hwerr(_) => true,
        _ => false,
    }
}

fn ignore_of(known: Option<&KnownInstance>) -> Ignore
    ensures { result ≡ ignore_of (option_copied known.entry) }
{
    match known {
        None => Ignore::none(),
        Some(known) => known.row.ignore,
    }
}

/// True if an event is the exit of a contract's first process.
pub(crate) fn is_exit_of(first: Number, kind: &EventKind) -> bool
    ensures { result ≡ is_exit_of first kind.now }
{
    match kind {
        EventKind::Exit(process, _) => process.get() == first.get(),
        _ => false,
    }
}

fn is_held_by(actor: u64, holder: Holder) -> bool
    ensures { result ≡ is_held_by actor holder }
{
    match holder {
        Holder::Held(by) => by == actor,
        Holder::Inherited => false,
        Holder::Abandoned => false,
    }
}

fn has_none(members: &[Number]) -> bool
    ensures { result ≡ has_none members.now }
{
    match members {
        [] => true,
        _ => false,
    }
}

fn any_failure(ignore: Ignore, events: &[ContractEvent]) -> bool
    ensures { result ≡ list_any (λ e. is_failure ignore e.kind) events.now }
{
    events.iter().any(|event| is_failure(ignore, &event.kind))
}

fn any_exit_of(first: Number, events: &[ContractEvent]) -> bool
    ensures { result ≡ list_any (λ e. is_exit_of first e.kind) events.now }
{
    events.iter().any(|event| is_exit_of(first, &event.kind))
}

/// The run that a contract's cookie names, as the contract's status tells it.
fn listed_as(restarter: &Restarter, status: &Status, cookie: Cookie) -> KnownRun
    ensures { result ≡ listed_as restarter.now.known status.now cookie }
{
    let contract = &status.contract;
    let ignore = ignore_of(restarter.known_instance(cookie.instance));
    KnownRun {
        key: RunKey {
            instance: cookie.instance,
            run: cookie.run,
        },
        contract: contract.id,
        held: is_held_by(restarter.actor(), contract.holder),
        empty: has_none(status.members.as_slice()),
        failed: any_failure(ignore, status.events.as_slice()),
        ended: any_exit_of(contract.first, status.events.as_slice()),
    }
}

/// The run of a contract, if its cookie names one.
pub(crate) fn listed_run(restarter: &Restarter, status: &Status) -> Option<KnownRun>
    ensures { option_to_list result ≡ listed_run restarter.now.known status.now }
{
    match Cookie::unpack(status.contract.cookie) {
        None => None,
        Some(cookie) => Some(listed_as(restarter, status, cookie)),
    }
}
