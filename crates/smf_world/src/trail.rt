ghost use Rattle.std.specs.Prelude.{◌≡◌, ◌++◌, IfOk, OnOk, string_bytes};
ghost use Rattle.std.specs.List.{flat_map};
ghost use Rattle.smf_world.specs.declared.item.Item.TheVariants.{Held, Spawned};
ghost use Rattle.smf_world.specs.TrailText.{item_line, item_text, next_text, trail_text};

use crate::item::Item;
use smf_contract::Method;
use smf_fmri::{InstanceFmri, Text};
use smf_method::{CommandText, method_text};
use smf_state::State;
use std::alloc::{AllocError, Global};
use std::fmt::Write;

/// The state to which a transition leads, or `none`.
fn next_text(next: Option<State>) -> &'static str
    ensures { result.now ≡ next_text next }
{
    match next {
        None => "none",
        Some(state) => state.text(),
    }
}

fn put_held(
    out: &mut String,
    name: &InstanceFmri,
    launch: u64,
    instance: u64,
    number: u64,
    state: State,
) -> Result<(), AllocError>
    ensures { OnOk result
        (string_bytes out.new ≡ string_bytes out.old ++ item_text (Held name.now launch instance number state)) }
{
    let name = name.print();
    let state = state.text();
    write!(out, "held {name} {launch} {instance}")?;
    write!(out, " {number} {state}")
}

fn put_spawned(
    out: &mut String,
    contract: u64,
    instance: u64,
    run: u64,
    method: Method,
    revision: u64,
    command: &CommandText,
) -> Result<(), AllocError>
    ensures { OnOk result (string_bytes out.new
        ≡ string_bytes out.old ++ item_text (Spawned contract instance run method revision command.now)) }
{
    let method = method_text(method);
    let command = command.as_str();
    write!(out, "spawned {contract} {instance} {run}")?;
    write!(out, " {method} {revision} ")?;
    out.push_str(command)
}

/// Puts the text of an item, without the end of its line.
pub fn put_item(out: &mut String, item: &Item) -> Result<(), AllocError>
    ensures { OnOk result (string_bytes out.new ≡ string_bytes out.old ++ item_text item.now) }
{
    match item {
        Item::Boot => out.push_str("boot"),
        Item::Emptied(contract) => write!(out, "emptied {contract}"),
        Item::Committed {
            instance,
            number,
            state,
            next,
        } => {
            let state = state.text();
            let next = next_text(*next);
            write!(out, "committed {instance} {number} {state} {next}")
        }
        Item::Held {
            name,
            launch,
            instance,
            number,
            state,
        } => put_held(out, name, *launch, *instance, *number, *state),
        Item::Spawned {
            contract,
            instance,
            run,
            method,
            revision,
            command,
        } => put_spawned(out, *contract, *instance, *run, *method, *revision, command),
    }
}

fn put_line(out: &mut String, item: &Item) -> Result<(), AllocError>
    ensures { OnOk result (string_bytes out.new ≡ string_bytes out.old ++ item_line item.now) }
{
    put_item(out, item)?;
    out.push_str("\n")
}

fn put_items(out: &mut String, items: &[Item]) -> Result<(), AllocError>
    ensures { OnOk result (string_bytes out.new ≡ string_bytes out.old ++ flat_map item_line items.now) }
{
    for item in items {
        put_line(out, item)?;
    }
    Ok(())
}

/// The trail, a line for each item.
#[tactic(auto, unfolding(crate::specs::TrailText::trail_text))]
pub fn trail_text(alloc: Global, trail: &[Item]) -> Result<Text, AllocError>
    ensures { IfOk result (λ text. text ≡ trail_text trail.now) }
{
    let mut out = String::new(alloc);
    put_items(&mut out, trail)?;
    Ok(Text::from_string(out))
}
