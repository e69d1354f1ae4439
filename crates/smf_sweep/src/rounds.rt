// The end of an older run.
ghost use Rattle.std.specs.Prelude.{◌≡◌, ◌≢◌, ◌⊎◌, [], IfErr, IfOk, OnOk, false, true, option_map, string_bytes};
ghost use Rattle.smf_sweep.specs.Children.{children_of};
ghost use Rattle.smf_sweep.specs.declared.fault.SweepFault.TheVariants.{Memory, Unanswered, Unread};
ghost use Rattle.smf_sweep.specs.Replies.{NoAnswer};
ghost use Rattle.smf_sweep.specs.Sweeps.{FindsSome, HasNone, IsAsked, IsCleared, IsClosed, IsRound, IsSwept, IsUnread, StopsRound, StopsRun, StopsSweep};

use crate::child::{Child, children_in};
use crate::fault::{SweepFault, fault_of};
use crate::process::{Process, left_of};
use crate::survey::Survey;
use std::alloc::{AllocError, Global};

/// The processes that are left of children. Without children the system is not asked.
#[tactic(auto, using(crate::proofs::Older::with_reason, crate::proofs::Older::no_children, crate::proofs::Older::found_none, crate::proofs::Older::found_some))]
fn look<S: Survey>(
    alloc: Global,
    survey: &mut S,
    children: &[Child],
) -> Result<Vec<Process>, SweepFault>
    ensures none { IfOk result (λ left. left.items ≡ [] → HasNone S.tells children.now survey.old survey.new) }
    ensures some { IfOk result (λ left. left.items ≢ []
        → FindsSome S.tells children.now left.items survey.old survey.new) }
    ensures stopped { IfErr result (λ e. (e ≡ Memory) ⊎ ((e ≡ Unanswered) × S.tells survey.old NoAnswer survey.new)) }
{
    if children.is_empty() {
        return Ok(Vec::new(alloc));
    }
    let processes = match survey.look(alloc, children) {
        Ok(processes) => processes,
        Err(error) => return Err(fault_of(&error, SweepFault::Unanswered)),
    };
    let left = left_of(alloc, children, &processes)?;
    Ok(left)
}

/// Ends what is left of children, and says whether anything was. Without children the system is not asked.
#[tactic(auto, using(crate::proofs::Older::is_round, crate::proofs::Older::not_looked, crate::proofs::Older::not_ended))]
fn round<S: Survey>(alloc: Global, survey: &mut S, children: &[Child]) -> Result<bool, SweepFault>
    ensures none { IfOk result (λ some. some ≡ false → HasNone S.tells children.now survey.old survey.new) }
    ensures some { IfOk result (λ some. some ≡ true → IsRound S.tells children.now survey.old survey.new) }
    ensures stopped { IfErr result (StopsRound S.tells children.now survey.old) }
{
    let left = look(alloc, survey, children)?;
    if left.is_empty() {
        return Ok(false);
    }
    match survey.end(alloc, &left) {
        Ok(()) => Ok(true),
        Err(error) => Err(fault_of(&error, SweepFault::Unanswered)),
    }
}

/// Ends what is left of children until a look finds none, at most so many times.
#[tactic(auto, using(crate::proofs::Older::no_rounds, crate::proofs::Older::one_more, crate::proofs::Older::is_swept, crate::proofs::Older::sweep_stopped, crate::proofs::Older::patience_ended))]
fn sweep<S: Survey>(
    alloc: Global,
    survey: &mut S,
    children: &[Child],
    most: u32,
) -> Result<(), SweepFault>
    ensures swept { OnOk result (IsSwept S.tells children.now survey.old survey.new) }
    ensures stopped { IfErr result (StopsSweep S.tells most children.now survey.old) }
{
    for _ in 0..most {
        match round(alloc, survey, children) {
            Ok(true) => survey.pause(),
            Ok(false) => return Ok(()),
            Err(fault) => return Err(fault),
        }
    }
    Err(SweepFault::Left)
}

/// The children that a list names, by the text of it, if it is there.
fn children_of(alloc: Global, text: &Option<String>, boot: &str) -> Result<Vec<Child>, AllocError>
    ensures { IfOk result (λ children. children.items ≡ children_of boot.now (option_map string_bytes text.now)) }
{
    match text {
        Some(text) => children_in(alloc, text.as_str(), boot),
        None => Ok(Vec::new(alloc)),
    }
}

/// The name of the system's boot, and the children that a list names of those that were started since.
#[tactic(auto, using(crate::proofs::Older::with_reason, crate::proofs::Older::is_asked, crate::proofs::Older::not_booted, crate::proofs::Older::not_listed))]
fn ask<S: Survey>(
    alloc: Global,
    survey: &mut S,
    path: &str,
) -> Result<(String, Vec<Child>), SweepFault>
    ensures asked { IfOk result (λ x. IsAsked S.tells path.now (string_bytes x.0) x.1.items survey.old survey.new) }
    ensures unread { IfErr result (λ e. (e ≡ Memory) ⊎ ((e ≡ Unread) × IsUnread S.tells survey.old)) }
{
    let boot = match survey.boot(alloc) {
        Ok(boot) => boot,
        Err(error) => return Err(fault_of(&error, SweepFault::Unread)),
    };
    let text = match survey.list(alloc, path) {
        Ok(text) => text,
        Err(error) => return Err(fault_of(&error, SweepFault::Unread)),
    };
    let children = children_of(alloc, &text, boot.as_str())?;
    Ok((boot, children))
}

/// Ends all that is left of the children that a list names, and empties the list. Gives the name of the system's boot.
#[tactic(auto, using(crate::proofs::Older::is_cleared, crate::proofs::Older::run_unread, crate::proofs::Older::run_stuck, crate::proofs::Older::run_unwritten))]
pub(crate) fn clear<S: Survey>(
    alloc: Global,
    survey: &mut S,
    path: &str,
    most: u32,
) -> Result<String, SweepFault>
    ensures cleared { IfOk result (λ boot. IsCleared S.tells path.now (string_bytes boot) survey.old survey.new) }
    ensures stopped { IfErr result (StopsRun S.tells most path.now survey.old) }
{
    let (boot, children) = match ask(alloc, survey, path) {
        Ok(asked) => asked,
        Err(fault) => return Err(fault),
    };
    match sweep(alloc, survey, &children, most) {
        Ok(()) => {}
        Err(fault) => return Err(fault),
    }
    match survey.empty(path) {
        Ok(()) => Ok(boot),
        Err(error) => Err(fault_of(&error, SweepFault::Unwritten)),
    }
}

/// Asks whether none is left of children.
fn has_none<S: Survey>(
    alloc: Global,
    survey: &mut S,
    children: &[Child],
) -> Result<bool, SweepFault>
    ensures none { IfOk result (λ none. none ≡ true → HasNone S.tells children.now survey.old survey.new) }
{
    let left = look(alloc, survey, children)?;
    Ok(left.is_empty())
}

/// Removes a list, if none is left of the children that it names. Says whether it did.
#[tactic(auto, using(crate::proofs::Older::is_closed))]
pub(crate) fn close<S: Survey>(
    alloc: Global,
    survey: &mut S,
    path: &str,
    boot: &str,
) -> Result<bool, SweepFault>
    ensures closed { IfOk result (λ closed. closed ≡ true → IsClosed S.tells path.now boot.now survey.old survey.new) }
{
    let text = match survey.list(alloc, path) {
        Ok(text) => text,
        Err(error) => return Err(fault_of(&error, SweepFault::Unread)),
    };
    let children = children_of(alloc, &text, boot)?;
    if !has_none(alloc, survey, &children)? {
        return Ok(false);
    }
    match survey.remove(path) {
        Ok(()) => Ok(true),
        Err(error) => Err(fault_of(&error, SweepFault::Unwritten)),
    }
}
