//! The runs that may be forgotten: their contracts have no members, and nothing asks for them.

ghost use Rattle.std.specs.Option.{option_copied};
ghost use Rattle.std.specs.Prelude.{◌≡◌, ◌≤◌, filter};
ghost use Rattle.smf_restarter.specs.Forgotten.{asks_for, is_asked_for, is_idle, is_needed, is_run, names_run};

use crate::known::{KnownInstance, KnownRun, Phase};
use smf_fmri::Table;
use smf_state::Row;

fn is_run(run: u64, named: Option<u64>) -> bool
    ensures { result ≡ is_run run named }
{
    match named {
        None => false,
        Some(named) => named == run,
    }
}

/// True if a row names a run, as its live one or as the one beside it.
fn names_run(row: &Row, run: u64) -> bool
    ensures { result ≡ names_run row.now run }
{
    is_run(run, row.live) || is_run(run, row.side)
}

/// True if nothing is under way.
fn is_idle(phase: &Phase) -> bool
    ensures { result ≡ is_idle phase.now }
{
    match phase {
        Phase::Idle => true,
        Phase::Waiting { .. } => false,
        Phase::Owes(_) => false,
        Phase::Running(_) => false,
        Phase::Ending(_) => false,
    }
}

/// True if something is under way for an instance, or its row names a run.
fn asks_for(known: &KnownInstance, run: u64) -> bool
    ensures { result ≡ asks_for known.now run }
{
    !is_idle(&known.phase) || names_run(&known.row, run)
}

/// An instance that is not known asks for nothing.
fn is_asked_for(known: Option<&KnownInstance>, run: u64) -> bool
    ensures { result ≡ is_asked_for (option_copied known.entry) run }
{
    match known {
        None => false,
        Some(known) => asks_for(known, run),
    }
}

/// True if the contract of a run may have members, or its instance asks for it.
fn is_needed(instances: &Table<KnownInstance>, run: &KnownRun) -> bool
    ensures { result ≡ is_needed instances.now.items run.now }
{
    !run.empty || is_asked_for(instances.get(&run.key.instance), run.key.run)
}

/// Keeps the runs that are needed.
pub(crate) fn keep_needed(runs: &mut Table<KnownRun>, instances: &Table<KnownInstance>)
    ensures kept { runs.new.items ≡ filter (is_needed instances.now.items) runs.old.items }
    ensures room { runs.old.room ≤ runs.new.room }
{
    runs.retain(|run| is_needed(instances, run));
}
