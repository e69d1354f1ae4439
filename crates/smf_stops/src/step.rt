//! What a server does next so that all services stop.

ghost use Rattle.std.specs.List.{flat_map};
ghost use Rattle.std.specs.Prelude.{◌≡◌, ◌++◌, IfOk, OnOk, string_bytes};
ghost use Rattle.smf_dep.specs.Members.{members};
ghost use Rattle.smf_stops.specs.Steps.{line_of, script_of, step_by, step_of, told_step};

use crate::batches::any_going;
use crate::stops::next_stops;
use smf_dep::{GraphMember, members};
use smf_fmri::{InstanceFmri, Items, Text};
use smf_state::View;
use std::alloc::{AllocError, Global};
use std::fmt::Write;

/// What is done next so that all services stop.
#[derive(Drop)]
pub enum StopStep {
    /// This script asks instances to stop, each in a line.
    Asks(Text),
    /// Those that were asked have not stopped yet.
    Waits,
    /// None goes any more.
    Over,
}

fn put_line(out: &mut String, name: &InstanceFmri) -> Result<(), AllocError>
    ensures { OnOk result (string_bytes out.new ≡ string_bytes out.old ++ line_of name.now) }
{
    let name = name.print();
    writeln!(out, "svcadm disable -t {name}")
}

fn put_lines(out: &mut String, names: &[InstanceFmri]) -> Result<(), AllocError>
    ensures { OnOk result (string_bytes out.new ≡ string_bytes out.old ++ flat_map line_of names.now) }
{
    for name in names {
        put_line(out, name)?;
    }
    Ok(())
}

fn script_of(alloc: Global, names: &[InstanceFmri]) -> Result<Text, AllocError>
    ensures { IfOk result (λ text. text ≡ script_of names.now) }
{
    let mut out = String::new(alloc);
    put_lines(&mut out, names)?;
    Ok(Text::from_string(out))
}

fn step_by(alloc: Global, names: &[InstanceFmri], goes: bool) -> Result<StopStep, AllocError>
    ensures { IfOk result (λ step. told_step step ≡ step_by names.now goes) }
{
    if 0 < names.len() {
        let script = script_of(alloc, names)?;
        return Ok(StopStep::Asks(script));
    }
    if goes {
        return Ok(StopStep::Waits);
    }
    Ok(StopStep::Over)
}

#[tactic(auto, unfolding(crate::specs::Steps::step_of))]
fn step_of(alloc: Global, members: &[GraphMember]) -> Result<StopStep, AllocError>
    ensures { IfOk result (λ step. told_step step ≡ step_of members.now) }
{
    let names = next_stops(alloc, members)?;
    step_by(alloc, names.as_slice(), any_going(members))
}

/// What is done next so that all services stop: none is asked while one that requires it goes, but in a circle, and none
/// twice. What was asked is not enabled any more.
pub fn stop_step(alloc: Global, view: &View) -> Result<StopStep, AllocError>
    ensures { IfOk result (λ step. told_step step ≡ step_of (members view.now.items)) }
{
    let members = members(alloc, view.items.as_slice())?;
    step_of(alloc, members.as_slice())
}
