//! What a chronicle tells of the past of an instance.

ghost use Rattle.std.specs.Prelude.{◌≡◌, ◌==◌, None};
ghost use Rattle.smf_state.specs.Rows.{same_state};
ghost use Rattle.smf_world.specs.Safe.{is_start};
ghost use Rattle.smf_show.specs.Past.{begun, contract_in, is_start_item, is_start_of, live_behind, live_behind_item, past_of, standing_if, standing_in, standing_with, starts_in, state_committed, state_told, unless_emptied};

use smf_chronicle::Entry;
use smf_state::State;
use smf_world::{Item, is_start};

/// An entry of a chronicle, and when it was written, in milliseconds since 1970.
#[derive(Drop)]
pub struct Dated {
    pub time: u64,
    pub entry: Entry,
}

/// The state of an instance that a chronicle told last.
#[derive(Clone, Copy)]
pub struct Standing {
    pub state: Option<State>,
    /// When it came in place of another one, in milliseconds since 1970.
    pub since: Option<u64>,
}

/// What a chronicle tells of an instance.
#[derive(Clone, Copy)]
pub struct Past {
    pub standing: Standing,
    /// How often it was started.
    pub starts: usize,
    /// The start contract that lives.
    pub contract: Option<u64>,
}

// ---- its state

fn state_committed(instance: u64, item: &Item) -> Option<State>
    ensures { result ≡ state_committed instance item.now }
{
    match item {
        Item::Committed {
            instance: of,
            state,
            ..
        } => { if *of == instance { Some(*state) } else { None } }
        _ => None,
    }
}

/// The state of an instance that an entry tells.
fn state_told(instance: u64, entry: &Entry) -> Option<State>
    ensures { result ≡ state_told instance entry.now }
{
    match entry {
        Entry::Happened(item) => state_committed(instance, item),
        Entry::Row {
            instance: of,
            state,
            ..
        } => { if *of == instance { Some(*state) } else { None } }
        _ => None,
    }
}

/// The state behind a line that tells one.
fn standing_with(time: u64, state: State, before: Standing) -> Standing
    ensures { result ≡ standing_with time state before.state before }
{
    match before.state {
        None => Standing {
            state: Some(state),
            since: None,
        },
        Some(told) => {
            if told == state {
                before
            } else {
                Standing {
                    state: Some(state),
                    since: Some(time),
                }
            }
        }
    }
}

fn standing_if(time: u64, state: Option<State>, before: Standing) -> Standing
    ensures { result ≡ standing_if time state before }
{
    match state {
        None => before,
        Some(state) => standing_with(time, state, before),
    }
}

/// The last state of an instance that lines tell.
#[tactic(auto, unfolding(crate::specs::Past::standing_in))]
fn standing_in(instance: u64, lines: &[Dated]) -> Standing
    ensures { result ≡ standing_in instance lines.now }
{
    let mut standing = Standing {
        state: None,
        since: None,
    };
    for line in lines {
        standing = standing_if(line.time, state_told(instance, &line.entry), standing);
    }
    standing
}

// ---- its starts

fn is_start_item(instance: u64, item: &Item) -> bool
    ensures { result ≡ is_start_item instance item.now }
{
    match item {
        Item::Spawned {
            instance: of,
            method,
            ..
        } => *of == instance && is_start(*method),
        _ => false,
    }
}

fn is_start_of(instance: u64, entry: &Entry) -> bool
    ensures { result ≡ is_start_of instance entry.now }
{
    match entry {
        Entry::Happened(item) => is_start_item(instance, item),
        _ => false,
    }
}

/// How often an instance was started.
#[tactic(auto, unfolding(crate::specs::Past::starts_in))]
fn starts_in(instance: u64, lines: &[Dated]) -> usize
    ensures { result ≡ starts_in instance lines.now }
{
    lines
        .iter()
        .filter(|line| is_start_of(instance, &line.entry))
        .count()
}

// ---- its contract

fn begun(is_own: bool, contract: u64, before: Option<u64>) -> Option<u64>
    ensures { result ≡ begun is_own contract before }
{
    if is_own && contract != 0 {
        Some(contract)
    } else {
        before
    }
}

fn unless_emptied(contract: u64, before: Option<u64>) -> Option<u64>
    ensures { result ≡ unless_emptied contract before }
{
    match before {
        None => None,
        Some(live) => { if live == contract { None } else { Some(live) } }
    }
}

fn live_behind_item(instance: u64, item: &Item, before: Option<u64>) -> Option<u64>
    ensures { result ≡ live_behind_item instance item.now before }
{
    match item {
        Item::Spawned {
            contract,
            instance: of,
            method,
            ..
        } => begun(*of == instance && is_start(*method), *contract, before),
        Item::Emptied(contract) => unless_emptied(*contract, before),
        Item::Boot => None,
        Item::Committed { .. } | Item::Held { .. } => before,
    }
}

/// The start contract of an instance that lives behind an entry.
fn live_behind(instance: u64, entry: &Entry, before: Option<u64>) -> Option<u64>
    ensures { result ≡ live_behind instance entry.now before }
{
    match entry {
        Entry::Happened(item) => live_behind_item(instance, item, before),
        Entry::Life => None,
        Entry::Row { .. } => before,
        Entry::Living {
            contract,
            instance: of,
        } => begun(*of == instance, *contract, before),
    }
}

/// The start contract of an instance that lives behind lines.
#[tactic(auto, unfolding(crate::specs::Past::contract_in))]
fn contract_in(instance: u64, lines: &[Dated]) -> Option<u64>
    ensures { result ≡ contract_in instance lines.now }
{
    let mut live = None;
    for line in lines {
        live = live_behind(instance, &line.entry, live);
    }
    live
}

/// What lines of a chronicle tell of an instance, in the order in which they were written.
pub fn past_of(lines: &[Dated], instance: u64) -> Past
    ensures { result ≡ past_of lines.now instance }
{
    Past {
        standing: standing_in(instance, lines),
        starts: starts_in(instance, lines),
        contract: contract_in(instance, lines),
    }
}
