// The events of all contracts, in which those of one are found without the others.
ghost use Rattle.std.specs.Prelude.{◌≡◌, ◌+◌, ◌<◌, ◌≤◌, ◌⊎◌, IfOk, OnOk, OnErr, [], length, filter, position, reverse, vec_len, vec_capacity};
ghost use Rattle.std.specs.Ordering.{nat_cmp};
ghost use Rattle.smf_contract.specs.Entries.{event_in, has_members, is_event, is_event_of, is_given, last_event};
ghost use Rattle.smf_contract.specs.Calls.{with_next_event};
ghost use Rattle.smf_contract.specs.Trail.{by_contract, until, AreNumbered, AreTied};
ghost use Rattle.smf_fmri.specs.ByKey.{IsPlaced, Rises, lookup, list_with_item};

use crate::event::{ContractEvent, EventKind};
use crate::lookup::is_given;
use crate::members::Members;
use smf_fmri::Number;
use std::alloc::{AllocError, Global};
use std::cmp::Ordering;
use std::marker::Model;

/// The last event of a contract.
#[derive(Clone, Copy)]
pub(crate) struct Last {
    contract: u64,
    /// Its number; 0 if there is none.
    count: u64,
    /// How many events of all contracts stand up to and with it.
    until: usize,
}

/// The events of all contracts, in the order in which they happened. Contracts see them, and how
/// many fit.
#[derive(Drop)]
pub(crate) struct Past {
    events: Vec<ContractEvent>,
    /// For each event, how many stand up to and with the one before it of its contract; 0 if it is
    /// the first.
    before: Vec<usize>,
    /// In the order of the contracts' ids.
    lasts: Vec<Last>,
}

impl Model for Past {
    ghost use Rattle.std.specs.Prelude.{◌+◌, ◌-◌, min, vec_len, vec_capacity};
    ghost use Rattle.smf_contract.specs.Trail.{Happenings, AreTraced};

    ghost Value = { Happenings };

    ghost view = { λ p. record { events = p.events.items; fit = min (min (vec_capacity p.events) (vec_capacity p.before)) (vec_len p.events + (vec_capacity p.lasts - vec_len p.lasts)) } };

    ghost invariant = { λ p. AreTraced p.events.items p.before.items p.lasts.items };
}

fn compare(last: &Last, contract: u64) -> Ordering
    ensures { result ≡ nat_cmp last.now.contract contract }
{
    last.contract.cmp(&contract)
}

/// The place of the last event of a contract, or else the place that it would have.
fn place_of_last(lasts: &[Last], contract: u64) -> Result<usize, usize>
    requires { Rises by_contract lasts.now }
    ensures { IsPlaced by_contract contract lasts.now result }
{
    lasts.binary_search_by(|last| compare(last, contract))
}

fn last_of(lasts: &[Last], contract: u64) -> Option<Last>
    requires { Rises by_contract lasts.now }
    ensures { result ≡ lookup by_contract lasts.now contract }
{
    match place_of_last(lasts, contract) {
        Ok(at) => Some(lasts[at]),
        Err(_) => None,
    }
}

/// Keeps the last event of a contract. There is room for it.
fn put_last(lasts: &mut Vec<Last>, last: Last)
    requires rises { Rises by_contract lasts.old.items }
    requires room { vec_len lasts.old < vec_capacity lasts.old }
    ensures put { lasts.new.items ≡ list_with_item by_contract last lasts.old.items }
    ensures len { vec_len lasts.new ≤ vec_len lasts.old + 1 }
    ensures capacity { vec_capacity lasts.old ≤ vec_capacity lasts.new }
{
    match place_of_last(lasts, last.contract) {
        Ok(at) => lasts[at] = last,
        Err(at) => lasts.insert(at, last).unwrap(),
    }
}

fn make_room(
    events: &mut Vec<ContractEvent>,
    before: &mut Vec<usize>,
    lasts: &mut Vec<Last>,
    more: usize,
) -> Result<(), AllocError>
    ensures events { events.new.items ≡ events.old.items }
    ensures before { before.new.items ≡ before.old.items }
    ensures lasts { lasts.new.items ≡ lasts.old.items }
    ensures all_events { OnOk result (vec_len events.new + more ≤ vec_capacity events.new) }
    ensures all_before { OnOk result (vec_len before.new + more ≤ vec_capacity before.new) }
    ensures all_lasts { OnOk result (vec_len lasts.new + more ≤ vec_capacity lasts.new) }
    ensures err { OnErr result ((vec_capacity events.old < vec_len events.old + more)
        ⊎ ((vec_capacity before.old < vec_len before.old + more)
        ⊎ (vec_capacity lasts.old < vec_len lasts.old + more))) }
{
    events.reserve(more)?;
    before.reserve(more)?;
    lasts.reserve(more)
}

/// The place of the event of a number. The search goes back from the last event of its contract.
fn place_back(
    events: &[ContractEvent],
    before: &[usize],
    last: usize,
    contract: u64,
    number: u64,
) -> Option<usize>
    requires tied { AreTied events.now before.now }
    requires last { last ≡ until contract events.now }
    requires from { 0 < number }
    requires to { number ≤ last_event contract events.now }
    ensures exact { result ≡ position (is_event contract number) events.now }
{
    let mut at = last;
    while at > 0 {
        at -= 1;
        if events[at].number.get() <= number {
            return Some(at);
        }
        at = before[at];
    }
    None
}

/// The events of a contract from a number on and after another, the newest first.
fn given_back(
    alloc: Global,
    events: &[ContractEvent],
    before: &[usize],
    last: usize,
    id: Number,
    number: Number,
    acknowledged: Number,
) -> Result<Vec<ContractEvent>, AllocError>
    requires tied { AreTied events.now before.now }
    requires last { last ≡ until id events.now }
    ensures { IfOk result (λ found. reverse found.items ≡ filter (is_given id number acknowledged) events.now) }
{
    let mut found = Vec::new(alloc);
    let mut at = last;
    while at > 0 {
        at -= 1;
        let event = events[at];
        if !is_given(&event, id, number, acknowledged) {
            return Ok(found);
        }
        found.push(event)?;
        at = before[at];
    }
    Ok(found)
}

/// The events of the contracts that have members. Each keeps its number.
fn events_with_members(
    alloc: Global,
    events: &[ContractEvent],
    members: &Members,
) -> Result<Past, AllocError>
    requires { AreNumbered events.now }
    ensures { IfOk result (λ past. past.events ≡ filter (λ e. has_members e.contract members.now.members) events.now) }
{
    let mut past = Past::new(alloc);
    for event in events {
        if members.has_members(event.contract) {
            past.reserve(1)?;
            past.note(event.contract, event.kind, event.left);
        }
    }
    Ok(past)
}

/// How many events there are.
fn count(events: &[ContractEvent]) -> usize
    ensures exact { result ≡ length events.now }
    ensures bound { result < 0x7fff_ffff_ffff_ffff }
{
    events.len()
}

impl Past {
    pub(crate) fn new(alloc: Global) -> Past
        ensures { result.events ≡ [] }
    {
        Past {
            events: Vec::new(alloc),
            before: Vec::new(alloc),
            lasts: Vec::new(alloc),
        }
    }

    /// Makes room for so many more events. If memory runs out, room was missing.
    pub(crate) fn reserve(&mut self, more: usize) -> Result<(), AllocError>
        ensures events { self.new.events ≡ self.old.events }
        ensures room { OnOk result (length self.new.events + more ≤ self.new.fit) }
        ensures err { OnErr result (self.old.fit < length self.old.events + more) }
    {
        make_room(&mut self.events, &mut self.before, &mut self.lasts, more)
    }

    pub(crate) fn as_slice(&self) -> &[ContractEvent]
        ensures { result.now ≡ self.now.events }
    {
        &self.events
    }

    fn count(&self) -> usize
        ensures exact { result ≡ length self.now.events }
        ensures bound { result < 0x7fff_ffff_ffff_ffff }
    {
        count(&self.events)
    }

    fn last(&self, contract: u64) -> Last
        ensures count { result.count ≡ last_event contract self.now.events }
        ensures until { result.until ≡ until contract self.now.events }
    {
        match last_of(&self.lasts, contract) {
            Some(last) => last,
            None => Last {
                contract,
                count: 0,
                until: 0,
            },
        }
    }

    /// The number of a contract's last event, which is their count.
    pub(crate) fn last_event(&self, contract: Number) -> u64
        ensures exact { result ≡ last_event contract self.now.events }
        ensures bound { result < 0x7fff_ffff_ffff_ffff }
    {
        let _count = self.count();
        let last = self.last(contract.get());
        last.count
    }

    /// Begins the trail of a contract, so that its first event finds its place. There is room for it.
    pub(crate) fn begin(&mut self, contract: Number)
        requires { length self.old.events < self.old.fit }
        ensures { self.new.events ≡ self.old.events }
    {
        let id = contract.get();
        let last = self.last(id);
        let begun = Last {
            contract: id,
            ..last
        };
        put_last(&mut self.lasts, begun);
    }

    /// Notes an event of a contract after the others. There is room for it.
    pub(crate) fn note(&mut self, contract: Number, kind: EventKind, left: bool)
        requires { length self.old.events < self.old.fit }
        ensures noted { self.new.events ≡ with_next_event self.old.events contract kind left }
        ensures len { length self.new.events ≡ length self.old.events + 1 }
        ensures fit { self.old.fit ≤ self.new.fit }
    {
        let id = contract.get();
        let last = self.last(id);
        let count = self.last_event(contract) + 1;
        let number = Number::new(count).unwrap();
        let event = ContractEvent {
            contract,
            number,
            kind,
            left,
        };
        self.events.push(event).unwrap();
        self.before.push(last.until).unwrap();
        let until = self.events.len();
        let noted = Last {
            contract: id,
            count,
            until,
        };
        put_last(&mut self.lasts, noted);
    }

    /// The events of the contracts that have members. Each keeps its number.
    pub(crate) fn with_members(&self, alloc: Global, members: &Members) -> Result<Past, AllocError>
        ensures { IfOk result (λ past. past.events
            ≡ filter (λ e. has_members e.contract members.now.members) self.now.events) }
    {
        let past = events_with_members(alloc, &self.events, members)?;
        Ok(past)
    }

    /// Forgets all events.
    pub(crate) fn clear(&mut self)
        ensures events { self.new.events ≡ [] }
        ensures fit { self.old.fit ≤ self.new.fit + length self.old.events }
    {
        self.events.clear();
        self.before.clear();
        self.lasts.clear();
    }

    /// The place of an event of a contract.
    fn place_of(&self, contract: u64, number: u64) -> Option<usize>
        ensures { result ≡ position (is_event contract number) self.now.events }
    {
        let _events = &self.events;
        let last = self.last(contract);
        if number == 0 {
            return None;
        }
        if last.count < number {
            return None;
        }
        place_back(&self.events, &self.before, last.until, contract, number)
    }

    /// The event of a number of a contract.
    pub(crate) fn event(&self, contract: u64, number: u64) -> Option<ContractEvent>
        ensures { result ≡ event_in self.now.events contract number }
    {
        match self.place_of(contract, number) {
            Some(k) => Some(self.events[k]),
            None => None,
        }
    }

    /// The events of a contract from a number on and after another.
    pub(crate) fn given_events(
        &self,
        alloc: Global,
        id: Number,
        number: Number,
        acknowledged: Number,
    ) -> Result<Vec<ContractEvent>, AllocError>
        ensures { IfOk result (λ found. found.items ≡ filter (is_given id number acknowledged) self.now.events) }
    {
        let last = self.last(id.get());
        let mut found = given_back(
            alloc,
            &self.events,
            &self.before,
            last.until,
            id,
            number,
            acknowledged,
        )?;
        found.reverse();
        Ok(found)
    }

    /// All events of a contract.
    pub(crate) fn events_of(
        &self,
        alloc: Global,
        id: Number,
    ) -> Result<Vec<ContractEvent>, AllocError>
        ensures { IfOk result (λ found. found.items ≡ filter (is_event_of id) self.now.events) }
    {
        let _events = &self.events;
        let found = self.given_events(alloc, id, Number::zero(), Number::zero())?;
        Ok(found)
    }
}
