// The processes of all contracts, in which those of one are found without the others.
ghost use Rattle.std.specs.Prelude.{◌≡◌, ◌+◌, ◌<◌, ◌≤◌, IfOk, IfSome, OnOk, OnErr, [], ◌∷◌, ◌++◌, length, filter, map, min, nat_lt, option_map, slice_get, vec_len, vec_capacity};
ghost use Rattle.std.specs.List.Sorted.{IsNonDecreasingBy, IsPartitionPoint};
ghost use Rattle.std.specs.Ordering.{nat_cmp, ordering_then};
ghost use Rattle.smf_contract.specs.Ends.{homes};
ghost use Rattle.smf_contract.specs.Entries.{first_member, has_members, home, is_in, outside, processes, without};
ghost use Rattle.smf_contract.specs.Trail.{by_home, by_process};
ghost use Rattle.smf_fmri.specs.ByKey.{IsPlaced, Rises, list_with_item};
ghost use Rattle.smf_fmri.specs.ByKey as by_key;

use crate::contract::Member;
use smf_fmri::Number;
use std::alloc::{AllocError, Global};
use std::cmp::Ordering;
use std::marker::Model;

/// The processes of all contracts, in the order of their numbers, and the last number that was given. Contracts see
/// both, and how many processes fit.
#[derive(Drop)]
pub(crate) struct Members {
    /// By process.
    all: Vec<Member>,
    /// The same, by contract and then by process.
    grouped: Vec<Member>,
    last: Number,
}

impl Model for Members {
    ghost use Rattle.std.specs.Prelude.{min, vec_capacity};
    ghost use Rattle.smf_contract.specs.Trail.{AreGrouped, Memberships};

    ghost Value = { Memberships };

    ghost view = { λ m. record { members = m.all.items; last = m.last; fit = min (vec_capacity m.all) (vec_capacity m.grouped) } };

    ghost invariant = { λ m. AreGrouped m.all.items m.grouped.items m.last };
}

fn compare(member: &Member, process: u64) -> Ordering
    ensures { result ≡ nat_cmp member.now.process process }
{
    member.process.get().cmp(&process)
}

fn compare_home(member: &Member, contract: u64, process: u64) -> Ordering
    ensures { result ≡ ordering_then (nat_cmp member.now.contract contract) (nat_cmp member.now.process process) }
{
    member
        .contract
        .get()
        .cmp(&contract)
        .then(compare(member, process))
}

/// The place of a process, or else the place that it would have.
fn place_of(members: &[Member], process: u64) -> Result<usize, usize>
    requires { Rises by_process members.now }
    ensures { IsPlaced by_process process members.now result }
{
    members.binary_search_by(|member| compare(member, process))
}

/// The place of a process of a contract, or else the place that it would have.
fn place_at_home(grouped: &[Member], contract: u64, process: u64) -> Result<usize, usize>
    requires { Rises by_home grouped.now }
    ensures { IsPlaced by_home (contract, process) grouped.now result }
{
    grouped.binary_search_by(|member| compare_home(member, contract, process))
}

fn home(members: &[Member], process: u64) -> Option<Number>
    requires { Rises by_process members.now }
    ensures exact { result ≡ home members.now process }
    ensures one { IfSome result (λ id. homes process members.now ≡ id ∷ []) }
{
    match place_of(members, process) {
        Ok(at) => Some(members[at].contract),
        Err(_) => None,
    }
}

/// Puts a member among those of its contract. There is room for it.
fn put_home(grouped: &mut Vec<Member>, member: Member)
    requires rises { Rises by_home grouped.old.items }
    requires room { vec_len grouped.old < vec_capacity grouped.old }
    ensures { grouped.new.items ≡ list_with_item by_home member grouped.old.items }
{
    match place_at_home(grouped, member.contract.get(), member.process.get()) {
        Ok(at) => grouped[at] = member,
        Err(at) => grouped.insert(at, member).unwrap(),
    }
}

/// Takes a member from those of its contract.
fn take_home(grouped: &mut Vec<Member>, contract: u64, process: u64)
    requires { Rises by_home grouped.old.items }
    ensures { grouped.new.items ≡ by_key.without by_home (contract, process) grouped.old.items }
{
    if let Ok(at) = place_at_home(grouped, contract, process) {
        grouped.remove(at);
    }
}

/// Takes the members of a contract out.
fn take_all(members: &mut Vec<Member>, contract: Number)
    ensures { members.new.items ≡ outside contract members.old.items }
{
    members.retain(|m| m.contract != contract);
}

/// How many members have a lower contract.
fn count_below(grouped: &[Member], contract: u64) -> usize
    requires { IsNonDecreasingBy (λ m. m.contract) grouped.now }
    ensures bound { result ≤ length grouped.now }
    ensures point { IsPartitionPoint (λ m. m.contract < contract) (λ m. contract ≤ m.contract) grouped.now result }
{
    grouped.partition_point(|m| m.contract.get() < contract)
}

/// How many members have this contract or a lower one.
fn count_up_to(grouped: &[Member], contract: u64) -> usize
    requires { IsNonDecreasingBy (λ m. m.contract) grouped.now }
    ensures bound { result ≤ length grouped.now }
    ensures point { IsPartitionPoint (λ m. m.contract ≤ contract) (λ m. contract < m.contract) grouped.now result }
{
    grouped.partition_point(|m| m.contract.get() <= contract)
}

/// The members of a contract. Only they are looked at.
fn members_at(grouped: &[Member], contract: u64) -> &[Member]
    requires { Rises by_home grouped.now }
    ensures { result.now ≡ filter (is_in contract) grouped.now }
{
    let (_, left) = grouped.split_at(count_below(grouped, contract));
    let (own, _) = left.split_at(count_up_to(left, contract));
    own
}

/// Makes room for one more in both lists. If memory runs out, room was missing.
fn make_room(all: &mut Vec<Member>, grouped: &mut Vec<Member>) -> Result<(), AllocError>
    requires { vec_len grouped.old ≡ vec_len all.old }
    ensures all { all.new.items ≡ all.old.items }
    ensures grouped { grouped.new.items ≡ grouped.old.items }
    ensures room { OnOk result (vec_len all.new < min (vec_capacity all.new) (vec_capacity grouped.new)) }
    ensures err { OnErr result (min (vec_capacity all.old) (vec_capacity grouped.old) ≤ vec_len all.old) }
{
    all.reserve(1)?;
    grouped.reserve(1)
}

fn has_any(members: &[Member]) -> bool
    ensures { result ≡ nat_lt 0 (length members.now) }
{
    !members.is_empty()
}

fn first_of(members: &[Member]) -> Option<Number>
    ensures { result ≡ option_map (λ m. m.process) (slice_get members.now 0) }
{
    members.first().map(|m| m.process)
}

/// How many there are.
fn count(members: &[Member]) -> usize
    ensures exact { result ≡ length members.now }
    ensures bound { result < 0x7fff_ffff_ffff_ffff }
{
    members.len()
}

fn numbers(alloc: Global, members: &[Member]) -> Result<Vec<Number>, AllocError>
    ensures { IfOk result (λ found. found.items ≡ map (λ m. m.process) members.now) }
{
    members.iter().map(|m| m.process).collect(alloc)
}

impl Members {
    pub(crate) fn new(alloc: Global) -> Members
        ensures members { result.members ≡ [] }
        ensures last { result.last ≡ 0 }
    {
        Members {
            all: Vec::new(alloc),
            grouped: Vec::new(alloc),
            last: Number::zero(),
        }
    }

    /// Makes room for one more. If memory runs out, room was missing.
    pub(crate) fn reserve(&mut self) -> Result<(), AllocError>
        ensures members { self.new.members ≡ self.old.members }
        ensures last { self.new.last ≡ self.old.last }
        ensures room { OnOk result (length self.new.members < self.new.fit) }
        ensures err { OnErr result (self.old.fit ≤ length self.old.members) }
    {
        make_room(&mut self.all, &mut self.grouped)
    }

    pub(crate) fn as_slice(&self) -> &[Member]
        ensures { result.now ≡ self.now.members }
    {
        &self.all
    }

    /// How many there are.
    pub(crate) fn len(&self) -> usize
        ensures exact { result ≡ length self.now.members }
        ensures bound { result < 0x7fff_ffff_ffff_ffff }
    {
        count(&self.all)
    }

    /// The last number that was given; 0 if none was.
    pub(crate) fn last(&self) -> Number
        ensures { result ≡ self.now.last }
    {
        self.last
    }

    /// The contract that a process is in.
    pub(crate) fn home(&self, process: Number) -> Option<Number>
        ensures exact { result ≡ home self.now.members process }
        ensures one { IfSome result (λ id. homes process self.now.members ≡ id ∷ []) }
    {
        home(&self.all, process.get())
    }

    /// The members of a contract, in the order of their numbers.
    pub(crate) fn members_of(&self, contract: Number) -> &[Member]
        ensures { result.now ≡ filter (is_in contract) self.now.members }
    {
        members_at(&self.grouped, contract.get())
    }

    #[tactic(auto, using(crate::proofs::Grouped::any_own))]
    pub(crate) fn has_members(&self, contract: Number) -> bool
        ensures { result ≡ has_members contract self.now.members }
    {
        has_any(self.members_of(contract))
    }

    /// The lowest process of a contract.
    #[tactic(auto, using(crate::proofs::Grouped::lowest_own))]
    pub(crate) fn first_member(&self, contract: Number) -> Option<Number>
        ensures { result ≡ first_member contract self.now.members }
    {
        first_of(self.members_of(contract))
    }

    /// How many members a contract has.
    pub(crate) fn count(&self, contract: Number) -> usize
        ensures value { result ≡ length (processes contract self.now.members) }
        ensures bound { result < 0x7fff_ffff_ffff_ffff }
    {
        count(self.members_of(contract))
    }

    /// The processes of a contract.
    pub(crate) fn processes(
        &self,
        alloc: Global,
        contract: Number,
    ) -> Result<Vec<Number>, AllocError>
        ensures { IfOk result (λ found. found.items ≡ processes contract self.now.members) }
    {
        numbers(alloc, self.members_of(contract))
    }

    /// Adds a process of a later number, and gives none up to another. There is room for it.
    pub(crate) fn push(&mut self, member: Member, last: Number)
        requires later { self.old.last < member.process }
        requires last { member.process ≤ last }
        requires room { length self.old.members < self.old.fit }
        ensures members { self.new.members ≡ self.old.members ++ member ∷ [] }
        ensures last { self.new.last ≡ last }
    {
        let process = member.process;
        let contract = member.contract;
        self.all.push(member).unwrap();
        put_home(&mut self.grouped, Member { process, contract });
        self.last = last;
    }

    /// Takes a process out.
    pub(crate) fn remove(&mut self, process: Number)
        ensures members { self.new.members ≡ without process self.old.members }
        ensures len { length self.new.members ≤ length self.old.members }
        ensures last { self.new.last ≡ self.old.last }
    {
        if let Ok(at) = place_of(&self.all, process.get()) {
            let member = self.all.remove(at);
            take_home(&mut self.grouped, member.contract.get(), process.get());
        }
    }

    /// Takes the members of a contract out.
    #[tactic(auto, using(crate::proofs::Parts::parts))]
    pub(crate) fn remove_all(&mut self, contract: Number)
        ensures members { self.new.members ≡ outside contract self.old.members }
        ensures parts { length (filter (is_in contract) self.old.members) + length self.new.members
            ≡ length self.old.members }
        ensures last { self.new.last ≡ self.old.last }
    {
        take_all(&mut self.all, contract);
        take_all(&mut self.grouped, contract);
    }

    /// The same processes once more.
    pub(crate) fn copied(&self, alloc: Global) -> Result<Members, AllocError>
        ensures members { IfOk result (λ copy. copy.members ≡ self.now.members) }
        ensures last { IfOk result (λ copy. copy.last ≡ self.now.last) }
    {
        let all = Vec::from_slice(alloc, &self.all)?;
        let grouped = Vec::from_slice(alloc, &self.grouped)?;
        Ok(Members {
            all,
            grouped,
            last: self.last,
        })
    }

    /// Forgets all processes. Their numbers are not given again.
    pub(crate) fn clear(&mut self)
        ensures members { self.new.members ≡ [] }
        ensures last { self.new.last ≡ self.old.last }
        ensures fit { self.old.fit ≤ self.new.fit }
    {
        self.all.clear();
        self.grouped.clear();
    }
}
