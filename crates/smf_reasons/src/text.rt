ghost use Rattle.smf_state.specs.States.{state_text};
ghost use Rattle.std.specs.Fmt.{decimal};
ghost use Rattle.std.specs.Prelude.{◌≡◌, ◌++◌, IfOk, OnOk, codes, flat_map, string_bytes};
ghost use Rattle.smf_reasons.specs.Texts.{block, check_block, check_text_of, checked_text, grouping_text, later_name, later_standing, names_text, part_text, property_text, reason_line, standing_text, standings_text, state_or_absent, text_of, told_text, words};

use crate::reason::{Reason, Standing, Told};
use smf_dep::{DependencyFault, Grouping};
use smf_fmri::{InstanceFmri, Text};
use smf_method::{MethodFault, method_text};
use smf_state::State;
use std::alloc::{AllocError, Global};
use std::fmt::Write;

/// The word of a grouping, as `svccfg` takes it.
pub fn grouping_text(grouping: Grouping) -> &'static str
    ensures { result.now ≡ grouping_text grouping }
{
    match grouping {
        Grouping::RequireAll => "require_all",
        Grouping::RequireAny => "require_any",
        Grouping::OptionalAll => "optional_all",
        Grouping::ExcludeAll => "exclude_all",
    }
}

/// The property of a dependency group that can't be read.
fn property_text(fault: DependencyFault) -> &'static str
    ensures { result.now ≡ property_text fault }
{
    match fault {
        DependencyFault::Memory => "memory",
        DependencyFault::BadGrouping => "grouping",
        DependencyFault::BadRestartOn => "restart_on",
        DependencyFault::PathType => "type",
        DependencyFault::BadEntity => "entities",
    }
}

/// Puts the part of a method that can't be read.
fn put_part(out: &mut String, fault: MethodFault) -> Result<(), AllocError>
    ensures { OnOk result (string_bytes out.new ≡ string_bytes out.old ++ part_text fault) }
{
    match fault {
        MethodFault::Memory => out.push_str("memory"),
        MethodFault::NoExec => out.push_str("exec"),
        MethodFault::BadTimeout => out.push_str("timeout_seconds"),
        MethodFault::BadToken(place) => put_place(out, place),
        MethodFault::BadDuration => out.push_str("startd/duration"),
        MethodFault::BadIgnore => out.push_str("startd/ignore_error"),
    }
}

fn put_place(out: &mut String, place: usize) -> Result<(), AllocError>
    ensures { OnOk result (string_bytes out.new ≡ string_bytes out.old ++ part_text (MethodFault.BadToken place)) }
{
    match write!(out, "exec, token at {place}") {
        Ok(()) => Ok(()),
        Err(_) => Err(AllocError),
    }
}

fn state_or_absent(state: Option<State>) -> &'static str
    ensures { result.now ≡ state_or_absent state }
{
    match state {
        None => "absent",
        Some(state) => state.text(),
    }
}

fn put_standing(out: &mut String, standing: &Standing) -> Result<(), AllocError>
    ensures { OnOk result (string_bytes out.new ≡ string_bytes out.old ++ standing_text standing.now) }
{
    out.push_str(standing.name.print())?;
    out.push_str(" is ")?;
    out.push_str(state_or_absent(standing.state))
}

fn put_later(out: &mut String, standings: &[Standing]) -> Result<(), AllocError>
    ensures { OnOk result (string_bytes out.new ≡ string_bytes out.old ++ flat_map later_standing standings.now) }
{
    for standing in standings {
        out.push_str(", ")?;
        put_standing(out, standing)?;
    }
    Ok(())
}

fn put_standings(out: &mut String, standings: &[Standing]) -> Result<(), AllocError>
    ensures { OnOk result (string_bytes out.new ≡ string_bytes out.old ++ standings_text standings.now) }
{
    let [first, rest @ ..] = standings else {
        return out.push_str("on nothing is never met");
    };
    put_standing(out, first)?;
    put_later(out, rest)
}

fn put_later_names(out: &mut String, names: &[InstanceFmri]) -> Result<(), AllocError>
    ensures { OnOk result (string_bytes out.new ≡ string_bytes out.old ++ flat_map later_name names.now) }
{
    for name in names {
        out.push_str(", ")?;
        out.push_str(name.print())?;
    }
    Ok(())
}

fn put_names(out: &mut String, names: &[InstanceFmri]) -> Result<(), AllocError>
    ensures { OnOk result (string_bytes out.new ≡ string_bytes out.old ++ names_text names.now) }
{
    let [first, rest @ ..] = names else {
        return Ok(());
    };
    out.push_str(first.print())?;
    put_later_names(out, rest)
}

fn put_transition(out: &mut String, to: State, rest: &str) -> Result<(), AllocError>
    ensures { OnOk result
        (string_bytes out.new ≡ string_bytes out.old ++ (codes "Transition to " ++ state_text to ++ rest.now)) }
{
    out.push_str("Transition to ")?;
    out.push_str(to.text())?;
    out.push_str(rest)
}

fn put_group(out: &mut String, group: &str, fault: DependencyFault) -> Result<(), AllocError>
    ensures { OnOk result
        (string_bytes out.new ≡ string_bytes out.old
        ++ (codes "Dependency group " ++ group.now ++ codes " can't be read (" ++ property_text fault ++ codes ").")) }
{
    out.push_str("Dependency group ")?;
    out.push_str(group)?;
    out.push_str(" can't be read (")?;
    out.push_str(property_text(fault))?;
    out.push_str(").")
}

fn put_unmet(
    out: &mut String,
    group: &str,
    grouping: Grouping,
    standings: &[Standing],
) -> Result<(), AllocError>
    ensures { OnOk result
        (string_bytes out.new ≡ string_bytes out.old
        ++ (codes "Dependency " ++ standings_text standings.now ++ codes " (group " ++ group.now ++ codes ", "
        ++ grouping_text grouping ++ codes ").")) }
{
    out.push_str("Dependency ")?;
    put_standings(out, standings)?;
    out.push_str(" (group ")?;
    out.push_str(group)?;
    out.push_str(", ")?;
    out.push_str(grouping_text(grouping))?;
    out.push_str(").")
}

fn put_restarter(out: &mut String, standings: &[Standing]) -> Result<(), AllocError>
    ensures { OnOk result
        (string_bytes out.new ≡ string_bytes out.old
        ++ (codes "Restarter " ++ standings_text standings.now ++ codes ".")) }
{
    out.push_str("Restarter ")?;
    put_standings(out, standings)?;
    out.push_str(".")
}

fn put_method(out: &mut String, method: &str, fault: MethodFault) -> Result<(), AllocError>
    ensures { OnOk result
        (string_bytes out.new ≡ string_bytes out.old
        ++ (codes "Method " ++ method.now ++ codes " can't be read (" ++ part_text fault ++ codes ").")) }
{
    out.push_str("Method ")?;
    out.push_str(method)?;
    out.push_str(" can't be read (")?;
    put_part(out, fault)?;
    out.push_str(").")
}

fn put_cycle(out: &mut String, names: &[InstanceFmri]) -> Result<(), AllocError>
    ensures { OnOk result
        (string_bytes out.new ≡ string_bytes out.old
        ++ (codes "It depends on itself (" ++ names_text names.now ++ codes ").")) }
{
    out.push_str("It depends on itself (")?;
    put_names(out, names)?;
    out.push_str(").")
}

fn put_maintenance(out: &mut String, instance: u64, row: u64) -> Result<(), AllocError>
    ensures { OnOk result
        (string_bytes out.new ≡ string_bytes out.old
        ++ (codes "In maintenance until it is cleared (instance " ++ decimal instance ++ codes ", row " ++ decimal row
        ++ codes ").")) }
{
    match write!(
        out,
        "In maintenance until it is cleared (instance {instance}, row {row})."
    ) {
        Ok(()) => Ok(()),
        Err(_) => Err(AllocError),
    }
}

/// The words of a reason.
fn put_words(out: &mut String, reason: &Reason) -> Result<(), AllocError>
    ensures { OnOk result (string_bytes out.new ≡ string_bytes out.old ++ words reason.now) }
{
    match reason {
        Reason::UnderWay(next) => put_transition(out, *next, " is under way."),
        Reason::Ordered(to) => put_transition(out, *to, " is due."),
        Reason::Maintenance { instance, row } => put_maintenance(out, *instance, *row),
        Reason::UnreadableRestarter => { out.push_str("Property general/restarter can't be read.") }
        Reason::UnreadableSnapshot => out.push_str("Snapshot running can't be read."),
        Reason::UnreadableGroup { group, fault } => put_group(out, group.as_str(), *fault),
        Reason::NotMet {
            group,
            grouping,
            standings,
        } => put_unmet(out, group.as_str(), *grouping, standings.as_slice()),
        Reason::NamesNothing {
            group,
            grouping,
            standings,
        } => put_unmet(out, group.as_str(), *grouping, standings.as_slice()),
        Reason::RestarterIsOff(standings) => put_restarter(out, standings.as_slice()),
        Reason::NoStartMethod => out.push_str("Method start is missing."),
        Reason::UnreadableMethod { method, fault } => {
            put_method(out, method_text(*method), *fault)
        }
        Reason::OnCycle(names) => put_cycle(out, names.as_slice()),
        Reason::Unrefreshed => out.push_str(
            "Its configuration was changed after it was last refreshed; svcadm refresh takes it up.",
        ),
    }
}

fn put_reasons(out: &mut String, reasons: &[Reason]) -> Result<(), AllocError>
    ensures { OnOk result (string_bytes out.new ≡ string_bytes out.old ++ flat_map reason_line reasons.now) }
{
    for reason in reasons {
        out.push_str("Reason: ")?;
        put_words(out, reason)?;
        out.push_str("\n")?;
    }
    Ok(())
}

fn put_block(out: &mut String, told: &Told) -> Result<(), AllocError>
    ensures { OnOk result (string_bytes out.new ≡ string_bytes out.old ++ block told.now) }
{
    out.push_str(told.name.print())?;
    out.push_str("\n State: ")?;
    out.push_str(told.state.text())?;
    out.push_str("\n")?;
    put_reasons(out, told.reasons.as_slice())?;
    out.push_str("\n")
}

#[tactic(auto, unfolding(crate::specs::Texts::told_text))]
fn put_told(out: &mut String, told: &Told) -> Result<(), AllocError>
    ensures { OnOk result (string_bytes out.new ≡ string_bytes out.old ++ told_text told.now) }
{
    match told.reasons.as_slice() {
        [] => Ok(()),
        _ => put_block(out, told),
    }
}

fn put_all(out: &mut String, all: &[Told]) -> Result<(), AllocError>
    ensures { OnOk result (string_bytes out.new ≡ string_bytes out.old ++ flat_map told_text all.now) }
{
    for told in all {
        put_told(out, told)?;
    }
    Ok(())
}

/// A block for each instance that has a reason, as svcs(1) prints them for `-x`.
pub fn text_of(alloc: Global, all: &[Told]) -> Result<Text, AllocError>
    ensures { IfOk result (λ text. text ≡ text_of all.now) }
{
    let mut out = String::new(alloc);
    put_all(&mut out, all)?;
    Ok(Text::from_string(out))
}

/// Puts the name of an instance and its flaws, without its state.
fn put_check_block(out: &mut String, told: &Told) -> Result<(), AllocError>
    ensures { OnOk result (string_bytes out.new ≡ string_bytes out.old ++ check_block told.now) }
{
    out.push_str(told.name.print())?;
    out.push_str("\n")?;
    put_reasons(out, told.reasons.as_slice())?;
    out.push_str("\n")
}

#[tactic(auto, unfolding(crate::specs::Texts::checked_text))]
fn put_checked(out: &mut String, told: &Told) -> Result<(), AllocError>
    ensures { OnOk result (string_bytes out.new ≡ string_bytes out.old ++ checked_text told.now) }
{
    match told.reasons.as_slice() {
        [] => Ok(()),
        _ => put_check_block(out, told),
    }
}

fn put_all_checked(out: &mut String, all: &[Told]) -> Result<(), AllocError>
    ensures { OnOk result (string_bytes out.new ≡ string_bytes out.old ++ flat_map checked_text all.now) }
{
    for told in all {
        put_checked(out, told)?;
    }
    Ok(())
}

/// A block for each instance of which something is wrong, without its state.
pub fn check_text_of(alloc: Global, all: &[Told]) -> Result<Text, AllocError>
    ensures { IfOk result (λ text. text ≡ check_text_of all.now) }
{
    let mut out = String::new(alloc);
    put_all_checked(&mut out, all)?;
    Ok(Text::from_string(out))
}
