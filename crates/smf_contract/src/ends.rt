// The contracts that a call would empty.
ghost use Rattle.std.specs.Prelude.{◌≡◌, IfOk, [], ◌∷◌};
ghost use Rattle.std.specs.List.{list_any};
ghost use Rattle.smf_contract.specs.Called.{ids_by};
ghost use Rattle.smf_contract.specs.Ends.{ended_ids, ending_ids, failed_ids, homes, ids_left, is_ending, is_other, killed_ids};
ghost use Rattle.smf_contract.specs.Entries.{has_members, without};
ghost use Rattle.smf_contract.specs.Laws.{is_among};

use crate::book::Book;
use crate::change::ends_with;
use crate::contract::{Contract, Member};
use crate::event::Failure;
use crate::lookup::is_fatal;
use crate::members::Members;
use smf_fmri::Number;
use std::alloc::{AllocError, Global};

fn is_among(id: Number, ids: &[Number]) -> bool
    ensures { result ≡ is_among id ids.now }
{
    ids.iter().any(|n| *n == id)
}

fn any_other(members: &[Member], process: Number) -> bool
    ensures { result ≡ list_any (is_other process) members.now }
{
    members.iter().any(|m| m.process != process)
}

/// True if a contract has a member besides a process.
#[tactic(auto, using(crate::proofs::EmptiedBy::others))]
fn has_others(members: &Members, contract: Number, process: Number) -> bool
    ensures { result ≡ has_members contract (without process members.now.members) }
{
    any_other(members.members_of(contract), process)
}

/// The contracts that the exit of a process empties, which can only be its own. With `takes_all` it takes the other
/// members along.
#[tactic(auto, using(crate::proofs::EmptiedBy::ended_alone))]
pub(crate) fn ended_ids(
    alloc: Global,
    book: &Book,
    members: &Members,
    takes_all: bool,
    id: Number,
    process: Number,
) -> Result<Vec<Number>, AllocError>
    requires { homes process members.now.members ≡ id ∷ [] }
    ensures { IfOk result
        (λ ids. ids.items ≡ ended_ids book.now.contracts members.now.members takes_all id process) }
{
    if takes_all || !has_others(members, id, process) {
        book.ids_at(alloc, id)
    } else {
        Ok(Vec::new(alloc))
    }
}

/// The contracts that a failure of a process empties.
pub(crate) fn failed_ids(
    alloc: Global,
    book: &Book,
    members: &Members,
    failure: Failure,
    id: Number,
    process: Number,
) -> Result<Vec<Number>, AllocError>
    requires { homes process members.now.members ≡ id ∷ [] }
    ensures { IfOk result
        (λ ids. ids.items ≡ failed_ids book.now.contracts members.now.members failure id process) }
{
    let is_fatal = is_fatal(book, id, failure);
    ended_ids(alloc, book, members, is_fatal, id, process)
}

/// The contracts that a kill empties.
pub(crate) fn killed_ids(
    alloc: Global,
    book: &Book,
    members: &Members,
    id: Number,
) -> Result<Vec<Number>, AllocError>
    ensures { IfOk result (λ ids. ids.items ≡ killed_ids book.now.contracts members.now.members id) }
{
    if members.has_members(id) {
        book.ids_at(alloc, id)
    } else {
        Ok(Vec::new(alloc))
    }
}

/// The contracts whose members end when an actor is gone.
fn ending_ids(alloc: Global, contracts: &[Contract], actor: u64) -> Result<Vec<Number>, AllocError>
    ensures { IfOk result (λ ids. ids.items ≡ ending_ids actor contracts.now) }
{
    contracts
        .iter()
        .filter(|c| ends_with(c, actor))
        .map(|c| c.id)
        .collect(alloc)
}

#[tactic(auto, unfolding(crate::specs::Ends::is_ending))]
fn is_ending(ids: &[Number], members: &Members, contract: &Contract) -> bool
    ensures { result ≡ is_ending ids.now members.now.members contract.now }
{
    is_among(contract.id, ids) && members.has_members(contract.id)
}

fn ids_ending(
    alloc: Global,
    contracts: &[Contract],
    members: &Members,
    ids: &[Number],
) -> Result<Vec<Number>, AllocError>
    ensures { IfOk result (λ found. found.items ≡ ids_by (is_ending ids.now members.now.members) contracts.now) }
{
    contracts
        .iter()
        .filter(|c| is_ending(ids, members, c))
        .map(|c| c.id)
        .collect(alloc)
}

/// The contracts that are empty after an actor is gone, and were not before.
pub(crate) fn ids_left(
    alloc: Global,
    contracts: &[Contract],
    members: &Members,
    actor: u64,
) -> Result<Vec<Number>, AllocError>
    ensures { IfOk result (λ ids. ids.items ≡ ids_left actor contracts.now members.now.members) }
{
    let ids = ending_ids(alloc, contracts, actor)?;
    ids_ending(alloc, contracts, members, &ids)
}
