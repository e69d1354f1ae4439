// Look-ups of a contract or an event in a table's lists.
ghost use Rattle.std.specs.Prelude.{◌≡◌, is_some};
ghost use Rattle.smf_contract.specs.Entries.{contract_in, event_in, report_of, is_given, acknowledged_at};
ghost use Rattle.smf_contract.specs.Calls.{is_held_by, held_by, is_fatal};

use crate::book::Book;
use crate::contract::{Contract, Holder, Report};
use crate::event::{ContractEvent, Failure};
use crate::past::Past;
use crate::terms::EventSet;
use bitflags::Flags;
use smf_fmri::Number;

/// An event of a contract, and the contract.
pub(crate) fn report(book: &Book, events: &Past, contract: u64, number: u64) -> Option<Report>
    ensures { result ≡ report_of (contract_in book.now.contracts contract)
        (event_in events.now.events contract number) }
{
    let contract_found = book.find(contract)?;
    let event = events.event(contract, number)?;
    Some(Report {
        contract: contract_found,
        event,
    })
}

pub(crate) fn is_held_by(holder: Holder, actor: u64) -> bool
    ensures { result ≡ is_held_by actor holder }
{
    match holder {
        Holder::Held(other) => other == actor,
        Holder::Inherited | Holder::Abandoned => false,
    }
}

/// The contract of an id, if an actor holds it.
pub(crate) fn contract_held_by(book: &Book, actor: u64, id: Number) -> Option<Contract>
    ensures { result ≡ held_by actor (contract_in book.now.contracts id) }
{
    let contract = book.get(id)?;
    if is_held_by(contract.holder, actor) {
        Some(contract)
    } else {
        None
    }
}

/// True if an actor holds the contract of an id.
pub(crate) fn is_held(book: &Book, actor: u64, id: Number) -> bool
    ensures { result ≡ is_some (held_by actor (contract_in book.now.contracts id)) }
{
    match book.get(id) {
        Some(contract) => is_held_by(contract.holder, actor),
        None => false,
    }
}

/// True if the terms of a contract make a failure fatal.
pub(crate) fn is_fatal(book: &Book, id: Number, failure: Failure) -> bool
    ensures { result ≡ is_fatal failure (contract_in book.now.contracts id) }
{
    let kind = match failure {
        Failure::Core => EventSet::CORE,
        Failure::Signal => EventSet::SIGNAL,
        Failure::Hwerr => EventSet::HWERR,
    };
    match book.get(id) {
        Some(contract) => contract.terms.fatal.contains(kind),
        None => false,
    }
}

/// The number of the last event of a contract that was acknowledged.
pub(crate) fn acknowledged_at(book: &Book, id: Number) -> Number
    ensures { result ≡ acknowledged_at (contract_in book.now.contracts id) }
{
    match book.get(id) {
        Some(contract) => contract.acknowledged,
        None => Number::zero(),
    }
}

#[tactic(auto, unfolding(crate::specs::Entries::is_given))]
pub(crate) fn is_given(
    event: &ContractEvent,
    id: Number,
    number: Number,
    acknowledged: Number,
) -> bool
    ensures { result ≡ is_given id number acknowledged event.now }
{
    event.contract == id
        && number.get() <= event.number.get()
        && acknowledged.get() < event.number.get()
}
