// The contracts, in which one is found by halves.
ghost use Rattle.std.specs.Prelude.{◌≡◌, ◌+◌, ◌<◌, ◌≤◌, IfOk, IfSome, OnOk, OnErr, [], ◌∷◌, ◌++◌, length, filter, map, position};
ghost use Rattle.std.specs.Ordering.{nat_cmp};
ghost use Rattle.smf_contract.specs.Calls.{changed_at, given_up, later};
ghost use Rattle.smf_contract.specs.Called.{ids_by};
ghost use Rattle.smf_contract.specs.Entries.{contract_in, has_id, has_members};
ghost use Rattle.smf_contract.specs.Trail.{by_id};
ghost use Rattle.smf_fmri.specs.ByKey.{IsPlaced, Rises};

use crate::change::{give_up, later};
use crate::contract::{Contract, Holder};
use crate::members::Members;
use smf_fmri::Number;
use std::alloc::{AllocError, Global};
use std::cmp::Ordering;
use std::marker::Model;

/// The contracts, in the order of their ids, and the last id that was given. Contracts see both, and
/// how many fit.
#[derive(Drop)]
pub(crate) struct Book {
    contracts: Vec<Contract>,
    last: Number,
}

impl Model for Book {
    ghost use Rattle.std.specs.Prelude.{map, vec_capacity};
    ghost use Rattle.smf_contract.specs.Laws.{Ascends};
    ghost use Rattle.smf_contract.specs.Trail.{Holdings};

    ghost Value = { Holdings };

    ghost view = { λ b. record { contracts = b.contracts.items; last = b.last; fit = vec_capacity b.contracts } };

    ghost invariant = { λ b. Ascends 0 (map (λ c. c.id) b.contracts.items) b.last };
}

fn compare(contract: &Contract, id: u64) -> Ordering
    ensures { result ≡ nat_cmp contract.now.id id }
{
    contract.id.get().cmp(&id)
}

/// The place of the contract of an id, or else the place that it would have.
fn search(contracts: &[Contract], id: u64) -> Result<usize, usize>
    requires { Rises by_id contracts.now }
    ensures { IsPlaced by_id id contracts.now result }
{
    contracts.binary_search_by(|contract| compare(contract, id))
}

fn place_of(contracts: &[Contract], id: u64) -> Option<usize>
    requires { Rises by_id contracts.now }
    ensures exact { result ≡ position (has_id id) contracts.now }
    ensures in_range { IfSome result (λ k. k < length contracts.now) }
{
    match search(contracts, id) {
        Ok(at) => Some(at),
        Err(_) => None,
    }
}

/// The id, if there is a contract of it.
fn ids_at(alloc: Global, contracts: &[Contract], id: Number) -> Result<Vec<Number>, AllocError>
    requires { Rises by_id contracts.now }
    ensures { IfOk result (λ ids. ids.items ≡ ids_by (has_id id) contracts.now) }
{
    match search(contracts, id.get()) {
        Ok(_) => {
            let ids = vec![in alloc; id]?;
            Ok(ids)
        }
        Err(_) => Ok(Vec::new(alloc)),
    }
}

/// The contracts that have members.
fn contracts_with_members(
    alloc: Global,
    contracts: &[Contract],
    members: &Members,
) -> Result<Vec<Contract>, AllocError>
    ensures { IfOk result (λ kept. kept.items ≡ filter (λ c. has_members c.id members.now.members) contracts.now) }
{
    contracts
        .iter()
        .copied()
        .filter(|contract| members.has_members(contract.id))
        .collect(alloc)
}

impl Book {
    pub(crate) fn new(alloc: Global) -> Book
        ensures contracts { result.contracts ≡ [] }
        ensures last { result.last ≡ 0 }
    {
        Book {
            contracts: Vec::new(alloc),
            last: Number::zero(),
        }
    }

    /// Makes room for one more. If memory runs out, room was missing.
    pub(crate) fn reserve(&mut self) -> Result<(), AllocError>
        ensures contracts { self.new.contracts ≡ self.old.contracts }
        ensures last { self.new.last ≡ self.old.last }
        ensures room { OnOk result (length self.new.contracts < self.new.fit) }
        ensures err { OnErr result (self.old.fit ≤ length self.old.contracts) }
    {
        self.contracts.reserve(1)
    }

    pub(crate) fn as_slice(&self) -> &[Contract]
        ensures { result.now ≡ self.now.contracts }
    {
        &self.contracts
    }

    /// The last id that was given; 0 if none was.
    pub(crate) fn last(&self) -> Number
        ensures { result ≡ self.now.last }
    {
        self.last
    }

    fn place_of(&self, id: Number) -> Option<usize>
        ensures exact { result ≡ position (has_id id) self.now.contracts }
        ensures in_range { IfSome result (λ k. k < length self.now.contracts) }
    {
        place_of(&self.contracts, id.get())
    }

    /// The ids of the contracts of this id: the id, or nothing.
    pub(crate) fn ids_at(&self, alloc: Global, id: Number) -> Result<Vec<Number>, AllocError>
        ensures { IfOk result (λ ids. ids.items ≡ ids_by (has_id id) self.now.contracts) }
    {
        ids_at(alloc, &self.contracts, id)
    }

    /// The contract of any number, if there is one.
    pub(crate) fn find(&self, id: u64) -> Option<Contract>
        ensures { result ≡ contract_in self.now.contracts id }
    {
        place_of(&self.contracts, id).map(|k| self.contracts[k])
    }

    /// The contract of an id, if there is one.
    pub(crate) fn get(&self, id: Number) -> Option<Contract>
        ensures { result ≡ contract_in self.now.contracts id }
    {
        self.find(id.get())
    }

    /// Adds a contract of a later id. There is room for it.
    pub(crate) fn push(&mut self, contract: Contract)
        requires later { self.old.last < contract.id }
        requires room { length self.old.contracts < self.old.fit }
        ensures contracts { self.new.contracts ≡ self.old.contracts ++ contract ∷ [] }
        ensures last { self.new.last ≡ contract.id }
    {
        let id = contract.id;
        self.contracts.push(contract).unwrap();
        self.last = id;
    }

    /// No id up to this one is given again.
    pub(crate) fn skip_to(&mut self, last: Number)
        requires { self.old.last ≤ last }
        ensures contracts { self.new.contracts ≡ self.old.contracts }
        ensures last { self.new.last ≡ last }
    {
        self.last = last;
    }

    /// Gives the contract of an id another holder.
    pub(crate) fn set_holder(&mut self, id: Number, holder: Holder)
        ensures contracts { self.new.contracts ≡ changed_at self.old.contracts (λ c. record c { holder = holder })
            (position (has_id id) self.old.contracts) }
        ensures last { self.new.last ≡ self.old.last }
        ensures fit { self.new.fit ≡ self.old.fit }
        ensures len { length self.new.contracts ≡ length self.old.contracts }
    {
        if let Some(k) = self.place_of(id) {
            let contract = &mut self.contracts[k];
            contract.holder = holder;
        }
    }

    /// Acknowledges the events of the contract of an id up to a number, if they were not before.
    pub(crate) fn acknowledge(&mut self, id: Number, number: Number)
        ensures contracts { self.new.contracts ≡ changed_at self.old.contracts
            (λ c. record c { acknowledged = later c.acknowledged number }) (position (has_id id) self.old.contracts) }
        ensures last { self.new.last ≡ self.old.last }
        ensures fit { self.new.fit ≡ self.old.fit }
        ensures len { length self.new.contracts ≡ length self.old.contracts }
    {
        if let Some(k) = self.place_of(id) {
            let contract = &mut self.contracts[k];
            contract.acknowledged = later(contract.acknowledged, number);
        }
    }

    /// Gives up the contracts that an actor holds.
    pub(crate) fn give_up(&mut self, actor: u64)
        ensures contracts { self.new.contracts ≡ map (given_up actor) self.old.contracts }
        ensures last { self.new.last ≡ self.old.last }
    {
        give_up(&mut self.contracts, actor);
    }

    /// A book of the contracts that have members. The ids of the others are not given again.
    pub(crate) fn with_members(&self, alloc: Global, members: &Members) -> Result<Book, AllocError>
        ensures contracts { IfOk result (λ book. book.contracts
            ≡ filter (λ c. has_members c.id members.now.members) self.now.contracts) }
        ensures last { IfOk result (λ book. book.last ≡ self.now.last) }
    {
        let contracts = contracts_with_members(alloc, &self.contracts, members)?;
        Ok(Book {
            contracts,
            last: self.last,
        })
    }

    /// Forgets all contracts. Their ids are not given again.
    pub(crate) fn clear(&mut self)
        ensures contracts { self.new.contracts ≡ [] }
        ensures last { self.new.last ≡ self.old.last }
        ensures fit { self.old.fit ≤ self.new.fit }
    {
        self.contracts.clear();
    }
}
