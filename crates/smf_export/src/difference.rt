//! Lines that lead from what is held to something else.

ghost use Rattle.std.specs.Option.{option_copied};
ghost use Rattle.std.specs.Prelude.{◌≡◌, ◌↔◌, [], IfOk, IsTrue, ℕ, List, true};
ghost use Rattle.smf_model.specs.Laws.{IsNumbered};
ghost use Rattle.smf_model.specs.Look.{empty, instance_by_name};
ghost use Rattle.smf_export.specs.Choices.{is_chosen};
ghost use Rattle.smf_export.specs.Configured.{HoldSame, others};
ghost use Rattle.smf_export.specs.Turns.{IsTurned, IsUndo, KeepsInstances, Turns, are_kept, has_same_number, services_asked};
ghost use Rattle.smf_export.specs.declared.comparison.Extent.TheVariants as extents;

use crate::choice::Choice;
use crate::comparison::{Comparison, Extent};
use crate::fault::ExportFault;
use crate::rehearsal::rehearsed;
use crate::service_lines::lines_between;
use smf_fmri::{InstanceFmri, Text};
use smf_model::{Instance, InstanceName, NoJournal, Plain, Tables};
use std::alloc::{AllocError, Global};

fn has_same_number(one: Option<&Instance>, other: Option<&Instance>) -> bool
    ensures { result ≡ has_same_number (option_copied one.entry) (option_copied other.entry) }
{
    match one {
        None => true,
        Some(one) => match other {
            None => true,
            Some(other) => one.number == other.number,
        },
    }
}

fn is_kept(before: &Tables, after: &Tables, name: &InstanceFmri) -> bool
    ensures { result ≡ has_same_number (instance_by_name before.now name.now) (instance_by_name after.now name.now) }
{
    has_same_number(before.instance_by_name(name), after.instance_by_name(name))
}

fn are_kept(before: &Tables, after: &Tables, names: &[InstanceName]) -> bool
    ensures { result ≡ are_kept before.now after.now names.now }
{
    names
        .iter()
        .all(|entry| is_kept(before, after, &entry.name))
}

/// True if no instance was deleted and added again.
fn keeps_instances(before: &Tables, after: &Tables) -> bool
    ensures { result ≡ true → KeepsInstances before.now after.now }
{
    are_kept(before, after, before.names().as_slice())
}

/// True if what is held after lines is what they have to lead to.
fn is_turned(
    alloc: Global,
    choice: &Choice,
    before: &Tables,
    asked: &Tables,
    after: &Tables,
) -> Result<bool, AllocError>
    ensures { IfOk result (λ b. b ≡ true → IsTurned (is_chosen choice.now) before.now asked.now after.now) }
{
    if !holds_asked(alloc, choice, after, asked)? {
        return Ok(false);
    }
    if !holds_others(alloc, choice, after, before)? {
        return Ok(false);
    }
    Ok(keeps_instances(before, after))
}

/// True if the services that are chosen have the same in two repositories.
fn holds_asked(
    alloc: Global,
    choice: &Choice,
    held: &Tables,
    asked: &Tables,
) -> Result<bool, AllocError>
    ensures { IfOk result
        (λ b. IsTrue b ↔ HoldSame extents.Persistent (is_chosen choice.now) held.now asked.now) }
{
    let chosen = Comparison {
        extent: Extent::Persistent,
        choice,
        of_chosen: true,
        one: held,
        other: asked,
    };
    chosen.finds_same(alloc)
}

/// True if all other services have the same in two repositories.
fn holds_others(
    alloc: Global,
    choice: &Choice,
    after: &Tables,
    before: &Tables,
) -> Result<bool, AllocError>
    ensures { IfOk result
        (λ b. IsTrue b ↔ HoldSame extents.Every (others (is_chosen choice.now)) after.now before.now) }
{
    let others = Comparison {
        extent: Extent::Every,
        choice,
        of_chosen: false,
        one: after,
        other: before,
    };
    others.finds_same(alloc)
}

/// Lines, once it is seen that they lead there.
fn tried_lines(
    alloc: Global,
    choice: &Choice,
    before: &Tables,
    asked: &Tables,
) -> Result<Text, ExportFault>
    requires { IsNumbered before.now }
    ensures { IfOk result (λ lines. Turns (is_chosen choice.now) before.now asked.now lines) }
{
    let lines = lines_between(alloc, choice, before, asked)?;
    let after = rehearsed(alloc, before, lines.as_str())?;
    if !is_turned(alloc, choice, before, asked, &after)? {
        return Err(ExportFault::Unwritable);
    }
    Ok(lines)
}

/// Lines that lead from one repository to another at the services that are chosen, and to nothing else.
fn difference(
    alloc: Global,
    choice: &Choice,
    before: &Tables,
    asked: &Tables,
) -> Result<Text, ExportFault>
    requires { IsNumbered before.now }
    ensures turns { IfOk result (λ lines. Turns (is_chosen choice.now) before.now asked.now lines) }
    ensures same { HoldSame extents.Persistent (is_chosen choice.now) before.now asked.now
        → IfOk result (λ lines. lines ≡ []) }
{
    if holds_asked(alloc, choice, before, asked)? {
        return Ok(Text::from_string(String::new(alloc)));
    }
    tried_lines(alloc, choice, before, asked)
}

/// The services of a repository, or all.
fn choice_of(alloc: Global, asked: &Tables, is_exact: bool) -> Result<Choice, AllocError>
    requires { IsNumbered asked.now }
    ensures { IfOk result
        (λ choice. (name : List ℕ) → is_chosen choice name ≡ services_asked is_exact asked.now name) }
{
    if is_exact {
        return Ok(Choice::All);
    }
    Choice::only(alloc, asked.services())
}

/// The lines of svccfg that lead from what is held to what is asked for: at the services that are asked for, or at all.
/// They say nothing of snapshots, and of groups that a boot drops only those that stand in the way. There are no lines
/// if an instance that goes is in use, or if the lines would be more than 1,000,000.
pub fn difference_from(
    alloc: Global,
    before: &Tables,
    asked: &Tables,
    is_exact: bool,
) -> Result<Text, ExportFault>
    requires before { IsNumbered before.now }
    requires asked { IsNumbered asked.now }
    // After the lines those services have what is asked for, and all others what they had.
    ensures turns { IfOk result (λ lines. Turns (services_asked is_exact asked.now) before.now asked.now lines) }
    // If they have it already, there is no line.
    ensures same { HoldSame extents.Persistent (services_asked is_exact asked.now) before.now asked.now
        → IfOk result (λ lines. lines ≡ []) }
{
    let choice = choice_of(alloc, asked, is_exact)?;
    difference(alloc, &choice, before, asked)
}

/// What lines leave, and the lines that take them back.
#[derive(Drop)]
pub struct Undo {
    /// What is held after the lines.
    pub after: Tables,
    /// The lines from there to what was held before.
    pub lines: Text,
}

/// The lines that take back those of `difference_from`, once these are done: at the same services they lead to what was
/// held before. There are none where `difference_from` gives none. An instance that was added and is in use by then cannot
/// be deleted: it has to be disabled first.
pub fn undo_from(
    alloc: Global,
    before: &Tables,
    asked: &Tables,
    is_exact: bool,
) -> Result<Undo, ExportFault>
    requires before { IsNumbered before.now }
    requires asked { IsNumbered asked.now }
    // The lines make what is asked for, and those of the undo what was before.
    ensures undoes { IfOk result (λ undo. (lines : List ℕ) × IsUndo (services_asked is_exact asked.now) before.now asked.now lines undo) }
    ensures numbered { IfOk result (λ undo. IsNumbered undo.after) }
{
    let choice = choice_of(alloc, asked, is_exact)?;
    let there = difference(alloc, &choice, before, asked)?;
    let after = rehearsed(alloc, before, there.as_str())?;
    let lines = difference(alloc, &choice, &after, before)?;
    Ok(Undo { after, lines })
}

/// The lines of svccfg that make, out of nothing, the services that are chosen, with their instances and with the
/// groups that outlast a boot. They say nothing of snapshots. There are no lines if they would be more than 1,000,000.
pub fn export(alloc: Global, held: &Tables, choice: &Choice) -> Result<Text, ExportFault>
    // Over nothing the lines give these services what is held, and they give nothing else.
    ensures loads { IfOk result (λ lines. Turns (is_chosen choice.now) empty held.now lines) }
{
    let nothing = Plain::new(alloc, NoJournal {}).tables_as_stored()?;
    difference(alloc, choice, &nothing, held)
}
