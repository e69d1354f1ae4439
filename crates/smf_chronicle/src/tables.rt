//! What was told so far, in tables: each entry is looked up and noted in a time that does not grow with those before it.

ghost use Rattle.smf_chronicle.specs.Audit.{state_follows};
ghost use Rattle.smf_chronicle.specs.Breaches.{breach_next, first_false, follows_last, is_found_after, may_be_found, may_follow};
ghost use Rattle.smf_state.specs.Rows.{same_state};
ghost use Rattle.smf_world.specs.Safe.{is_start};
ghost use Rattle.smf_chronicle.specs.Tables.{IsEmptiedNoted, IsItemNoted, IsNoted, IsRowNoted, IsStartNoted, IsStartNotedIf, Knows, breach_in, breach_of_item, is_after, is_free_for, is_held_as, is_over, last_in, live_in, may_start, state_in, told_by};
ghost use Rattle.smf_chronicle.specs.declared.entry.Entry.{Entry as AnyEntry};
ghost use Rattle.smf_chronicle.specs.Lives.{LastTold};
ghost use Rattle.std.specs.Prelude.{◌≡◌, ◌+◌, ◌==◌, ◌||◌, ◌&&◌, [], ◌∷◌, List, Option, Some, None, OnOk, is_some, length, not, true, nat_lt};

use crate::entry::Entry;
use crate::rule::Rule;
use smf_state::{State, edge};
use smf_world::{Item, is_start};
use std::alloc::{AllocError, Global};
use std::collections::HashMap;

/// The last row of an instance that was told, and the place of that entry.
#[derive(Clone, Copy)]
pub(crate) struct LastRow {
    number: u64,
    state: State,
    place: usize,
}

/// The last start contract of an instance, and the place at which it was told.
#[derive(Clone, Copy)]
pub(crate) struct LastStart {
    contract: u64,
    place: usize,
}

/// All that the rules need to know of a chronicle. Nothing is taken out: a start lives if its contract was not found empty
/// after it, and no boot and no life came.
#[derive(Drop)]
pub(crate) struct Tables {
    /// Whether a life begins, and tells what it finds.
    beginning: bool,
    /// The place of the last boot.
    boot: Option<usize>,
    /// The place at which the last life began.
    life: Option<usize>,
    rows: HashMap<(u64, u64), State>,
    lasts: HashMap<u64, LastRow>,
    starts: HashMap<u64, LastStart>,
    emptied: HashMap<u64, usize>,
}

fn is_after(at: Option<usize>, place: usize) -> bool
    ensures { result ≡ is_after at place }
{
    match at {
        None => false,
        Some(at) => place < at,
    }
}

fn is_next(number: u64, before: u64) -> bool
    ensures { result ≡ (number == before + 1) }
{
    number > before && number - before == 1
}

fn state_follows(booted: bool, before: State, after: State) -> bool
    ensures { result ≡ state_follows booted before after }
{
    if booted {
        after == State::Uninitialized
    } else {
        after == before || edge(before, after)
    }
}

/// Of five tests, the rule of the first that is false.
fn first_false(found: bool, one: bool, held: bool, once: bool, diagram: bool) -> Option<Rule>
    ensures { result ≡ first_false found one held once diagram }
{
    if !found {
        Some(Rule::FoundLate)
    } else if !one {
        Some(Rule::TwoLive)
    } else if !held {
        Some(Rule::HeldUncommitted)
    } else if !once {
        Some(Rule::CommittedTwice)
    } else if !diagram {
        Some(Rule::OffTheDiagram)
    } else {
        None
    }
}

impl Tables {
    /// Nothing was told yet.
    pub(crate) fn new(alloc: Global) -> Tables
        ensures { Knows result [] }
    {
        Tables {
            beginning: false,
            boot: None,
            life: None,
            rows: HashMap::new(alloc),
            lasts: HashMap::new(alloc),
            starts: HashMap::new(alloc),
            emptied: HashMap::new(alloc),
        }
    }

    fn is_numbered(&self, instance: u64, number: u64) -> bool
        ensures { result ≡ is_some (state_in self.now instance number) }
    {
        self.rows.contains_key(&(instance, number))
    }

    fn is_held_as(&self, instance: u64, number: u64, state: State) -> bool
        ensures { result ≡ is_held_as (state_in self.now instance number) state }
    {
        match self.rows.get(&(instance, number)) {
            None => false,
            Some(told) => *told == state,
        }
    }

    /// True if a number was not told, or in this state.
    fn is_free_for(&self, instance: u64, number: u64, state: State) -> bool
        ensures { result ≡ is_free_for (state_in self.now instance number) state }
    {
        !self.is_numbered(instance, number) || self.is_held_as(instance, number, state)
    }

    /// True if a row may be committed next, behind the last of its instance.
    fn follows_last(&self, last: LastRow, number: u64, state: State) -> bool
        ensures { result ≡ follows_last (is_after self.now.life last.place) (told_by self.now.boot self.now.life last) number state }
    {
        if is_after(self.life, last.place) {
            last.number < number && state == State::Uninitialized
        } else {
            is_next(number, last.number)
                && state_follows(is_after(self.boot, last.place), last.state, state)
        }
    }

    /// True if a row of an instance may be committed next.
    fn may_follow(&self, instance: u64, number: u64, state: State) -> bool
        ensures { result ≡ may_follow (last_in self.now instance) number state }
    {
        match self.lasts.get(&instance) {
            None => state == State::Uninitialized,
            Some(last) => self.follows_last(*last, number, state),
        }
    }

    /// True if a life may find a row of an instance.
    fn may_be_found(&self, instance: u64, number: u64, state: State) -> bool
        ensures { result ≡ may_be_found (last_in self.now instance) number state }
    {
        match self.lasts.get(&instance) {
            None => true,
            Some(last) => {
                is_after(self.life, last.place)
                    && (last.number < number || (number == last.number && state == last.state))
            }
        }
    }

    /// True if a start at a place is over, whose contract was last found empty there.
    fn is_over(&self, emptied: Option<usize>, place: usize) -> bool
        ensures { result ≡ is_over self.now.boot self.now.life emptied place }
    {
        is_after(self.boot, place) || is_after(self.life, place) || is_after(emptied, place)
    }

    /// True if an instance has a live start.
    fn lives(&self, instance: u64) -> bool
        ensures { result ≡ is_some (live_in self.now instance) }
    {
        match self.starts.get(&instance) {
            None => false,
            Some(start) => {
                let emptied = self.emptied.get(&start.contract).copied();
                !self.is_over(emptied, start.place)
            }
        }
    }

    /// True if a start of an instance may begin: it is of no contract, or none lives.
    fn may_start(&self, contract: u64, instance: u64) -> bool
        ensures { result ≡ may_start contract (live_in self.now instance) }
    {
        contract == 0 || !self.lives(instance)
    }

    fn breach_of_item(&self, item: &Item) -> Option<Rule>
        ensures { result ≡ breach_of_item self.now item.now }
    {
        match item {
            Item::Committed {
                instance,
                number,
                state,
                ..
            } => first_false(
                true,
                true,
                true,
                !self.is_numbered(*instance, *number),
                self.may_follow(*instance, *number, *state),
            ),
            Item::Held {
                instance,
                number,
                state,
                ..
            } => {
                let is_held = self.is_held_as(*instance, *number, *state);
                first_false(true, true, is_held, true, true)
            }
            Item::Spawned {
                contract,
                instance,
                method,
                ..
            } => {
                let may_start = !is_start(*method) || self.may_start(*contract, *instance);
                first_false(true, may_start, true, true, true)
            }
            Item::Emptied(_) => None,
            Item::Boot => None,
        }
    }

    fn breach_in(&self, entry: &Entry) -> Option<Rule>
        ensures { result ≡ breach_in self.now entry.now }
    {
        match entry {
            Entry::Happened(item) => self.breach_of_item(item),
            Entry::Life => None,
            Entry::Row {
                instance,
                number,
                state,
            } => first_false(
                self.beginning,
                true,
                true,
                self.is_free_for(*instance, *number, *state),
                self.may_be_found(*instance, *number, *state),
            ),
            Entry::Living { contract, instance } => {
                let may_start = self.may_start(*contract, *instance);
                first_false(self.beginning, may_start, true, true, true)
            }
        }
    }

    /// The rule that an entry breaks next.
    pub(crate) fn breach_of(&self, entry: &Entry) -> Option<Rule>
        ensures { (told : List AnyEntry) → Knows self.now told → result ≡ breach_next told entry.now }
    {
        self.breach_in(entry)
    }

    fn note_row(
        &mut self,
        place: usize,
        instance: u64,
        number: u64,
        state: State,
    ) -> Result<(), AllocError>
        ensures { OnOk result (IsRowNoted place instance number state self.old self.new) }
    {
        self.rows.insert((instance, number), state)?;
        let row = LastRow {
            number,
            state,
            place,
        };
        self.lasts.insert(instance, row)?;
        Ok(())
    }

    fn note_start(&mut self, place: usize, contract: u64, instance: u64) -> Result<(), AllocError>
        ensures { OnOk result (IsStartNoted place contract instance self.old self.new) }
    {
        let start = LastStart { contract, place };
        self.starts.insert(instance, start)?;
        Ok(())
    }

    fn note_emptied(&mut self, place: usize, contract: u64) -> Result<(), AllocError>
        ensures { OnOk result (IsEmptiedNoted place contract self.old self.new) }
    {
        self.emptied.insert(contract, place)?;
        Ok(())
    }

    fn note_item(&mut self, place: usize, item: &Item) -> Result<(), AllocError>
        ensures { OnOk result (IsItemNoted place item.now self.old self.new) }
    {
        match item {
            Item::Committed {
                instance,
                number,
                state,
                ..
            } => self.note_row(place, *instance, *number, *state),
            Item::Held { .. } => Ok(()),
            Item::Spawned {
                contract,
                instance,
                method,
                ..
            } => {
                if is_start(*method) && *contract != 0 {
                    self.note_start(place, *contract, *instance)
                } else {
                    Ok(())
                }
            }
            Item::Emptied(contract) => self.note_emptied(place, *contract),
            Item::Boot => {
                self.boot = Some(place);
                Ok(())
            }
        }
    }

    fn note_living(&mut self, place: usize, contract: u64, instance: u64) -> Result<(), AllocError>
        ensures { OnOk result (IsStartNotedIf (not (contract == 0)) place contract instance self.old self.new) }
    {
        if contract != 0 {
            self.note_start(place, contract, instance)
        } else {
            Ok(())
        }
    }

    fn note_entry(&mut self, place: usize, entry: &Entry) -> Result<(), AllocError>
        ensures { OnOk result (IsNoted place entry.now self.old self.new) }
    {
        match entry {
            Entry::Happened(item) => {
                self.beginning = false;
                self.note_item(place, item)
            }
            Entry::Life => {
                self.beginning = true;
                self.life = Some(place);
                Ok(())
            }
            Entry::Row {
                instance,
                number,
                state,
            } => self.note_row(place, *instance, *number, *state),
            Entry::Living { contract, instance } => {
                self.note_living(place, *contract, *instance)
            }
        }
    }

    /// Notes an entry that breaks no rule. So many entries stand before it.
    pub(crate) fn note(&mut self, place: usize, entry: &Entry) -> Result<(), AllocError>
        ensures { OnOk result ((told : List AnyEntry) → Knows self.old told → length told ≡ place
            → breach_next told entry.now ≡ None → Knows self.new (entry.now ∷ told)) }
    {
        self.note_entry(place, entry)
    }
}
