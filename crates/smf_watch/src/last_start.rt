//! How the last start of an instance ended.

ghost use Rattle.smf_watch.specs.LastStart.{code_in, code_of, failed_for_good, fails_for_good, final_code, final_code_by, is_final, is_final_by, is_final_of, is_start_by, is_start_of, last_start, newer};
ghost use Rattle.std.specs.List.{list_any};
ghost use Rattle.std.specs.Option.{option_copied};
ghost use Rattle.std.specs.Prelude.{◌≡◌, None, find};

use smf_contract::{Contract, ContractEvent, ContractTable, Cookie, EventKind, Exit, Method};
use smf_fmri::Number;
use smf_method::{MethodOutcome, judge};

fn is_start_by(instance: u64, cookie: Option<Cookie>) -> bool
    ensures { result ≡ is_start_by instance cookie }
{
    match cookie {
        None => false,
        Some(cookie) => cookie.instance == instance && matches!(cookie.method, Method::Start),
    }
}

/// Whether a contract is of a start method of an instance.
fn is_start_of(instance: u64, contract: &Contract) -> bool
    ensures { result ≡ is_start_of instance contract.now }
{
    is_start_by(instance, Cookie::unpack(contract.cookie))
}

fn newer(instance: u64, contract: &Contract, last: Option<Contract>) -> Option<Contract>
    ensures { result ≡ newer instance contract.now last }
{
    if is_start_of(instance, contract) {
        Some(*contract)
    } else {
        last
    }
}

/// The contract of the last start of an instance.
fn last_start(contracts: &[Contract], instance: u64) -> Option<Contract>
    ensures { result ≡ last_start contracts.now instance }
{
    let mut last: Option<Contract> = None;
    for contract in contracts {
        last = newer(instance, contract, last);
    }
    last
}

/// Whether a start that ended so would fail again.
fn is_final(exit: Exit) -> bool
    ensures { result ≡ is_final exit }
{
    matches!(judge(Method::Start, exit), MethodOutcome::Fatal)
}

fn is_final_by(first: Number, kind: EventKind) -> bool
    ensures { result ≡ is_final_by first kind }
{
    match kind {
        EventKind::Exit(process, exit) => process == first && is_final(exit),
        _ => false,
    }
}

/// Whether an event is the end of a contract's first process, by which no further start would succeed.
fn is_final_of(contract: &Contract, event: &ContractEvent) -> bool
    ensures { result ≡ is_final_of contract.now event.now }
{
    event.contract == contract.id && is_final_by(contract.first, event.kind)
}

fn has_final(events: &[ContractEvent], contract: &Contract) -> bool
    ensures { result ≡ list_any (is_final_of contract.now) events.now }
{
    events.iter().any(|event| is_final_of(contract, event))
}

fn fails_for_good(events: &[ContractEvent], contract: Option<Contract>) -> bool
    ensures { result ≡ fails_for_good events.now contract }
{
    match contract {
        None => false,
        Some(contract) => has_final(events, &contract),
    }
}

/// Whether the last start of an instance ended by a code after which no further start would succeed.
#[tactic(auto, unfolding(crate::specs::LastStart::failed_for_good))]
pub(crate) fn failed_for_good(table: &ContractTable, instance: u64) -> bool
    ensures { result ≡ failed_for_good table.now.table instance }
{
    fails_for_good(table.events(), last_start(table.contracts(), instance))
}

fn code_of(kind: EventKind) -> Option<u8>
    ensures { result ≡ code_of kind }
{
    match kind {
        EventKind::Exit(_, Exit::Code(code)) => Some(code),
        _ => None,
    }
}

fn code_in(event: Option<&ContractEvent>) -> Option<u8>
    ensures { result ≡ code_in (option_copied event.entry) }
{
    match event {
        None => None,
        Some(event) => code_of(event.kind),
    }
}

fn final_event<'a>(events: &'a [ContractEvent], contract: &Contract) -> Option<&'a ContractEvent>
    ensures { option_copied result ≡ find (is_final_of contract.now) events.now }
{
    events.iter().find(|event| is_final_of(contract, event))
}

fn final_code_by(events: &[ContractEvent], contract: Option<Contract>) -> Option<u8>
    ensures { result ≡ final_code_by events.now contract }
{
    match contract {
        None => None,
        Some(contract) => code_in(final_event(events, &contract)),
    }
}

/// The code by which the last start of an instance ended, if no further start would succeed after it.
#[tactic(auto, unfolding(crate::specs::LastStart::final_code))]
pub(crate) fn final_code(table: &ContractTable, instance: u64) -> Option<u8>
    ensures { result ≡ final_code table.now.table instance }
{
    final_code_by(table.events(), last_start(table.contracts(), instance))
}
