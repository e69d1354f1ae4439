//! The instances that rest, and those that do not.

ghost use Rattle.std.specs.Option.{option_copied};
ghost use Rattle.std.specs.Prelude.{◌≡◌, ◌+◌, ◌<◌, ◌≤◌, is_some, OnOk};
ghost use Rattle.smf_fmri.specs.ByKey.{lookup};
ghost use Rattle.smf_restarter.specs.Runs.{known_run};
ghost use Rattle.smf_restarter.specs.Ticks.{is_up, rests, rests_idle, rests_in};
ghost use Rattle.smf_restarter.specs.Watched.{IsWatched, IsWatchedBut, among, by_itself, has_none, restless_number, numbers_after_note, restless_if};

use crate::known::{KnownInstance, KnownRun, Phase, RunKey, Stage};
use crate::runs::orphan_in;
use crate::ticks::note_due;
use smf_fmri::Table;
use std::alloc::AllocError;

/// The run that a row names, if it names one.
fn run_among(runs: &Table<KnownRun>, instance: u64, run: Option<u64>) -> Option<&KnownRun>
    ensures { option_copied result ≡ known_run (among runs.now.items) instance run }
{
    match run {
        None => None,
        Some(run) => runs.get(&RunKey { instance, run }),
    }
}

fn rests_idle(runs: &Table<KnownRun>, known: &KnownInstance) -> bool
    ensures { result ≡ rests_idle (among runs.now.items) known.now }
{
    let live = run_among(runs, known.instance, known.row.live);
    orphan_in(runs, known.instance).is_none() && note_due(&known.row, live).is_none()
}

fn rests_in(runs: &Table<KnownRun>, known: &KnownInstance, phase: &Phase) -> bool
    ensures { result ≡ rests_in (among runs.now.items) known.now phase.now }
{
    match phase {
        Phase::Idle => rests_idle(runs, known),
        Phase::Running(_) => true,
        Phase::Waiting { .. } => false,
        Phase::Owes(_) => false,
        Phase::Ending(_) => false,
    }
}

fn rests(runs: &Table<KnownRun>, known: &KnownInstance) -> bool
    ensures { result ≡ rests (among runs.now.items) known.now }
{
    rests_in(runs, known, &known.phase)
}

fn restless_if(rests: bool, number: u64) -> Option<u64>
    ensures { result ≡ restless_if rests number }
{
    if rests { None } else { Some(number) }
}

/// The number of an instance that is not at rest.
#[tactic(auto, unfolding(crate::specs::Watched::restless_number))]
fn restless_number(runs: &Table<KnownRun>, known: Option<&KnownInstance>) -> Option<u64>
    ensures { result ≡ restless_number runs.now.items (option_copied known.entry) }
{
    match known {
        None => None,
        Some(known) => restless_if(rests(runs, known), known.instance),
    }
}

/// Notes a number, or takes one out. There is room for it.
fn note(restless: &mut Table<u64>, judged: Option<u64>, number: u64)
    requires { 0 < restless.old.room }
    ensures items { restless.new.items ≡ numbers_after_note judged number restless.old.items }
    ensures room { restless.old.room ≤ restless.new.room + 1 }
{
    match judged {
        None => restless.remove(&number),
        Some(judged) => restless.put(judged),
    }
}

/// True if a number is noted.
pub(crate) fn is_noted(restless: &Table<u64>, number: u64) -> bool
    ensures { result ≡ is_some (lookup by_itself restless.now.items number) }
{
    match restless.get(&number) {
        None => false,
        Some(_) => true,
    }
}

pub(crate) fn has_none(numbers: &[u64]) -> bool
    ensures { result ≡ has_none numbers.now }
{
    match numbers {
        [] => true,
        _ => false,
    }
}

pub(crate) fn is_up(stage: Stage) -> bool
    ensures { result ≡ is_up stage }
{
    stage == Stage::Up
}

/// Judges again an instance that was put, turned or forgotten, or whose run came. There is room for it.
#[tactic(auto, using(crate::proofs::Judgments::judged_again))]
pub(crate) fn judge(
    restless: &mut Table<u64>,
    instances: &Table<KnownInstance>,
    runs: &Table<KnownRun>,
    number: u64,
)
    requires others { IsWatchedBut number restless.old.items instances.now.items runs.now.items }
    requires room { 0 < restless.old.room }
    ensures watched { IsWatched restless.new.items instances.now.items runs.now.items }
    ensures room { restless.old.room ≤ restless.new.room + 1 }
{
    let judged = restless_number(runs, instances.get(&number));
    note(restless, judged, number);
}

/// Makes room for the instances that a change puts, for those of its runs, and for one that takes another course.
pub(crate) fn reserve_touched(
    restless: &mut Table<u64>,
    instances: usize,
    runs: usize,
) -> Result<(), AllocError>
    ensures items { restless.new.items ≡ restless.old.items }
    ensures room { OnOk result (instances + runs + runs ≤ restless.new.room) }
{
    let Some(some) = instances.checked_add(runs) else {
        return Err(AllocError);
    };
    let Some(all) = some.checked_add(runs) else {
        return Err(AllocError);
    };
    restless.reserve(all)
}
