//! Messages as lines.

ghost use Rattle.std.specs.Fmt.{decimal};
ghost use Rattle.std.specs.List.{AllByRecursion};
ghost use Rattle.std.specs.Option.{option_to_list};
ghost use Rattle.std.specs.Prelude.{◌≡◌, ◌++◌, ◌∷◌, [], IfOk, IfSome, OnOk, Ok, codes, string_bytes};
ghost use Rattle.smf_fmri.specs.Patterns.{IsInstanceName};
ghost use Rattle.smf_method.specs.Timeouts.{IsTimeout};
ghost use Rattle.smf_state.specs.Fields.{flag_text, optional_text};
ghost use Rattle.smf_state.specs.Texts.{IsRow, row_text};
ghost use Rattle.smf_wire.specs.Digits.{hex_text};
ghost use Rattle.smf_wire.specs.Grammar.{read_line};
ghost use Rattle.smf_wire.specs.Lines.{AreBytes, AreChanges, IsChanged, IsItem, IsKnown, IsMessage, IsMethod, IsOrder, IsProposal, IsSpelled, IsView, IsWhat, change_parts, changed_text, each_behind, item_parts, item_text, known_text, line_text, message_text, method_text, seconds_of, text_of_parts, what_text};
ghost use Rattle.smf_wire.specs.declared.message.Message.TheVariants as messages;
ghost use Rattle.smf_wire.specs.declared.order.What.TheVariants as whats;

use crate::digits::hex_text;
use crate::message::{Known, Message, ViewChanges};
use crate::order::{Order, What};
use crate::word::why_text;
use smf_fmri::{Bytes, InstanceFmri, Items, Text};
use smf_method::{MethodCall, Timeout};
use smf_state::{
    Cause, ChangedItem, Duration, Ignore, Proposal, Row, SharedRow, State, View, ViewItem, Why,
};
use std::alloc::{AllocError, Global};
use std::fmt::Write;

/// The seconds of a timeout: 0 for none.
fn seconds_of(timeout: Option<Timeout>) -> u64
    ensures value { result ≡ seconds_of timeout }
    ensures known { IfSome timeout IsTimeout }
{
    match timeout {
        None => 0,
        Some(timeout) => timeout.seconds(),
    }
}

fn put_method(alloc: Global, out: &mut String, method: &MethodCall) -> Result<(), AllocError>
    ensures text { OnOk result (string_bytes out.new ≡ string_bytes out.old ++ method_text method.now) }
    ensures known { OnOk result (IsMethod method.now) }
{
    let seconds = seconds_of(method.timeout);
    let digits = hex_text(alloc, method.command.as_str().as_bytes())?;
    write!(out, "{seconds} {digits}")
}

fn put_optional_method(
    alloc: Global,
    out: &mut String,
    method: &Option<MethodCall>,
) -> Result<(), AllocError>
    ensures text { OnOk result (string_bytes out.new ≡ string_bytes out.old ++ optional_text method_text method.now) }
    ensures known { OnOk result (IfSome method.now IsMethod) }
{
    match method {
        None => out.push_str("-"),
        Some(method) => put_method(alloc, out, method),
    }
}

fn put_start(
    alloc: Global,
    out: &mut String,
    method: &MethodCall,
    duration: Duration,
    ignore: Ignore,
) -> Result<(), AllocError>
    ensures text { OnOk result
        (string_bytes out.new ≡ string_bytes out.old ++ what_text (whats.Start method.now duration ignore)) }
    ensures known { OnOk result (IsWhat (whats.Start method.now duration ignore)) }
{
    out.push_str("start ")?;
    put_method(alloc, out, method)?;
    let ignore = ignore.bits();
    write!(out, " {duration} {ignore}")
}

fn put_stop(
    alloc: Global,
    out: &mut String,
    to: State,
    cause: Cause,
    method: &Option<MethodCall>,
) -> Result<(), AllocError>
    ensures text { OnOk result
        (string_bytes out.new ≡ string_bytes out.old ++ what_text (whats.Stop to cause method.now)) }
    ensures known { OnOk result (IsWhat (whats.Stop to cause method.now)) }
{
    write!(out, "stop {to} {cause} ")?;
    put_optional_method(alloc, out, method)
}

fn put_what(alloc: Global, out: &mut String, what: &What) -> Result<(), AllocError>
    ensures text { OnOk result (string_bytes out.new ≡ string_bytes out.old ++ what_text what.now) }
    ensures known { OnOk result (IsWhat what.now) }
{
    match what {
        What::To(state) => write!(out, "to {state}"),
        What::Start {
            method,
            duration,
            ignore,
        } => put_start(alloc, out, method, *duration, *ignore),
        What::Stop { to, cause, method } => put_stop(alloc, out, *to, *cause, method),
        What::Refresh { method } => {
            out.push_str("refresh ")?;
            put_optional_method(alloc, out, method)
        }
    }
}

/// An instance, with a space before it.
fn put_known(out: &mut String, known: &Known) -> Result<(), AllocError>
    ensures text { OnOk result (string_bytes out.new ≡ string_bytes out.old ++ 32 ∷ known_text known.now) }
    ensures known { OnOk result (IsKnown known.now) }
{
    let (instance, name) = (known.instance, known.name.print());
    write!(out, " {instance} {name} ")?;
    known.row.print_onto(out)
}

/// Instances, with a space before each.
fn put_rows(out: &mut String, rows: &[Known]) -> Result<(), AllocError>
    ensures text { OnOk result (string_bytes out.new ≡ string_bytes out.old ++ each_behind known_text rows.now) }
    ensures known { OnOk result (AllByRecursion IsKnown rows.now) }
{
    for known in rows {
        put_known(out, known)?;
    }
    Ok(())
}

fn put_body(alloc: Global, out: &mut String, body: &Option<Bytes>) -> Result<(), AllocError>
    ensures text { OnOk result (string_bytes out.new ≡ string_bytes out.old ++ optional_text hex_text body.now) }
    ensures known { OnOk result (IfSome body.now AreBytes) }
{
    match body {
        None => out.push_str("-"),
        Some(bytes) => {
            let digits = hex_text(alloc, bytes.as_slice())?;
            out.push_str(digits.as_str())
        }
    }
}

fn flag_text(flag: bool) -> &'static str
    ensures { result.now ≡ flag_text flag }
{
    if flag { "1" } else { "0" }
}

/// The fields of an item after its number, with a space before each.
fn put_fields(alloc: Global, out: &mut String, item: &ViewItem) -> Result<(), AllocError>
    ensures text { OnOk result
        (string_bytes out.new ≡ string_bytes out.old ++ 32 ∷ text_of_parts (item_parts item.now)) }
    ensures known { OnOk result (IsItem item.now) }
{
    let _instance = item.instance;
    let name = item.name.print();
    let enabled = flag_text(item.enabled);
    let readable = flag_text(item.readable);
    write!(out, " {name} {enabled} {readable} ")?;
    item.row.print_onto(out)?;
    out.push_str(" ")?;
    put_body(alloc, out, &item.body)
}

/// An item, with a space before it.
fn put_item(alloc: Global, out: &mut String, item: &ViewItem) -> Result<(), AllocError>
    ensures text { OnOk result (string_bytes out.new ≡ string_bytes out.old ++ 32 ∷ item_text item.now) }
    ensures known { OnOk result (IsItem item.now) }
{
    let instance = item.instance;
    write!(out, " {instance}")?;
    put_fields(alloc, out, item)
}

/// Items, with a space before each.
fn put_items(alloc: Global, out: &mut String, items: &[ViewItem]) -> Result<(), AllocError>
    ensures text { OnOk result (string_bytes out.new ≡ string_bytes out.old ++ each_behind item_text items.now) }
    ensures known { OnOk result (AllByRecursion IsItem items.now) }
{
    for item in items {
        put_item(alloc, out, item)?;
    }
    Ok(())
}

fn put_view(alloc: Global, out: &mut String, view: &View) -> Result<(), AllocError>
    ensures text { OnOk result (string_bytes out.new ≡ string_bytes out.old ++ message_text (messages.View view.now)) }
    ensures known { OnOk result (IsView view.now) }
{
    put_view_head(out, view.revision, view.items.len())?;
    put_items(alloc, out, view.items.as_slice())
}

fn put_view_head(out: &mut String, revision: u64, count: usize) -> Result<(), AllocError>
    ensures { OnOk result
        (string_bytes out.new ≡ string_bytes out.old ++ text_of_parts
        (codes "view" ∷ decimal revision ∷ decimal count ∷ [])) }
{
    write!(out, "view {revision} {count}")
}

/// The fields of a change after its number, with a space before each.
fn put_change(alloc: Global, out: &mut String, item: &Option<ViewItem>) -> Result<(), AllocError>
    ensures text { OnOk result
        (string_bytes out.new ≡ string_bytes out.old ++ 32 ∷ text_of_parts (change_parts item.now)) }
    ensures known { OnOk result (IfSome item.now IsItem) }
{
    match item {
        None => out.push_str(" -"),
        Some(item) => put_fields(alloc, out, item),
    }
}

/// A change, with a space before it.
fn put_changed(alloc: Global, out: &mut String, changed: &ChangedItem) -> Result<(), AllocError>
    ensures text { OnOk result (string_bytes out.new ≡ string_bytes out.old ++ 32 ∷ changed_text changed.now) }
    ensures known { OnOk result (IsChanged changed.now) }
{
    let instance = changed.instance;
    write!(out, " {instance}")?;
    put_change(alloc, out, &changed.item)
}

/// Changes, with a space before each.
fn put_all_changed(alloc: Global, out: &mut String, items: &[ChangedItem]) -> Result<(), AllocError>
    ensures text { OnOk result (string_bytes out.new ≡ string_bytes out.old ++ each_behind changed_text items.now) }
    ensures known { OnOk result (AllByRecursion IsChanged items.now) }
{
    for changed in items {
        put_changed(alloc, out, changed)?;
    }
    Ok(())
}

fn put_changes(alloc: Global, out: &mut String, changes: &ViewChanges) -> Result<(), AllocError>
    ensures text { OnOk result
        (string_bytes out.new ≡ string_bytes out.old ++ message_text (messages.Changes changes.now)) }
    ensures known { OnOk result (AreChanges changes.now) }
{
    put_changes_head(out, changes.from, changes.to, changes.items.len())?;
    put_all_changed(alloc, out, changes.items.as_slice())
}

fn put_changes_head(out: &mut String, from: u64, to: u64, count: usize) -> Result<(), AllocError>
    ensures { OnOk result
        (string_bytes out.new ≡ string_bytes out.old ++ text_of_parts
        (codes "changes" ∷ decimal from ∷ decimal to ∷ decimal count ∷ [])) }
{
    write!(out, "changes {from} {to} {count}")
}

fn put_rows_of(
    out: &mut String,
    name: &InstanceFmri,
    launch: u64,
    rows: &Items<Known>,
) -> Result<(), AllocError>
    ensures text { OnOk result
        (string_bytes out.new ≡ string_bytes out.old ++ message_text (messages.Rows name.now launch rows.now)) }
    ensures known { OnOk result (IsMessage (messages.Rows name.now launch rows.now)) }
{
    put_rows_head(out, name, launch, rows.len())?;
    put_rows(out, rows.as_slice())
}

fn put_rows_head(
    out: &mut String,
    name: &InstanceFmri,
    launch: u64,
    count: usize,
) -> Result<(), AllocError>
    ensures text { OnOk result
        (string_bytes out.new ≡ string_bytes out.old ++ text_of_parts
        (codes "rows" ∷ name.now ∷ decimal launch ∷ decimal count ∷ [])) }
    ensures known { OnOk result (IsInstanceName name.now) }
{
    let name = name.print();
    write!(out, "rows {name} {launch} {count}")
}

fn put_proposal(out: &mut String, proposal: &Proposal) -> Result<(), AllocError>
    ensures text { OnOk result
        (string_bytes out.new ≡ string_bytes out.old ++ message_text (messages.Propose proposal.now)) }
    ensures known { OnOk result (IsProposal proposal.now) }
{
    let (proposer, launch) = (proposal.proposer.print(), proposal.launch);
    let (serial, instance, number) = (proposal.serial, proposal.instance, proposal.number);
    write!(
        out,
        "propose {proposer} {launch} {serial} {instance} {number} "
    )?;
    proposal.step.print_onto(out)
}

fn put_order(alloc: Global, out: &mut String, order: &Order) -> Result<(), AllocError>
    ensures text { OnOk result
        (string_bytes out.new ≡ string_bytes out.old ++ message_text (messages.Order order.now)) }
    ensures known { OnOk result (IsOrder order.now) }
{
    let (restarter, instance) = (order.restarter.print(), order.instance);
    let (name, revision) = (order.name.print(), order.revision);
    write!(out, "order {restarter} {instance} {name} {revision} ")?;
    order.row.print_onto(out)?;
    out.push_str(" ")?;
    put_what(alloc, out, &order.what)
}

fn put_ack(
    out: &mut String,
    name: &InstanceFmri,
    launch: u64,
    serial: u64,
    instance: u64,
    row: &Row,
) -> Result<(), AllocError>
    ensures text { OnOk result
        (string_bytes out.new ≡ string_bytes out.old ++ message_text
        (messages.Ack name.now launch serial instance row.now)) }
    ensures known { OnOk result (IsMessage (messages.Ack name.now launch serial instance row.now)) }
{
    let name = name.print();
    write!(out, "ack {name} {launch} {serial} {instance} ")?;
    row.print_onto(out)
}

fn put_row(out: &mut String, row: &Option<SharedRow>) -> Result<(), AllocError>
    ensures text { OnOk result
        (string_bytes out.new ≡ string_bytes out.old ++ each_behind row_text (option_to_list row.now)) }
    ensures known { OnOk result (IfSome row.now IsRow) }
{
    match row {
        None => Ok(()),
        Some(row) => {
            out.push_str(" ")?;
            row.print_onto(out)
        }
    }
}

fn put_nack(
    out: &mut String,
    name: &InstanceFmri,
    launch: u64,
    serial: u64,
    instance: u64,
    why: Why,
    row: &Option<SharedRow>,
) -> Result<(), AllocError>
    ensures text { OnOk result
        (string_bytes out.new ≡ string_bytes out.old ++ message_text
        (messages.Nack name.now launch serial instance why row.now)) }
    ensures known { OnOk result (IsMessage (messages.Nack name.now launch serial instance why row.now)) }
{
    let (name, why) = (name.print(), why_text(why));
    write!(out, "nack {name} {launch} {serial} {instance} {why}")?;
    put_row(out, row)
}

fn put_message(alloc: Global, out: &mut String, message: &Message) -> Result<(), AllocError>
    ensures text { OnOk result (string_bytes out.new ≡ string_bytes out.old ++ message_text message.now) }
    ensures known { OnOk result (IsMessage message.now) }
{
    match message {
        Message::Join { name, launch } => {
            let (name, launch) = (name.print(), *launch);
            write!(out, "join {name} {launch}")
        }
        Message::Rows { name, launch, rows } => put_rows_of(out, name, *launch, rows),
        Message::Propose(proposal) => put_proposal(out, proposal),
        Message::Ack {
            name,
            launch,
            serial,
            instance,
            row,
        } => put_ack(out, name, *launch, *serial, *instance, row),
        Message::Nack {
            name,
            launch,
            serial,
            instance,
            why,
            row,
        } => put_nack(out, name, *launch, *serial, *instance, *why, row),
        Message::AskView => out.push_str("askview"),
        Message::View(view) => put_view(alloc, out, view),
        Message::AskChange(revision) => {
            let revision = *revision;
            write!(out, "askchange {revision}")
        }
        Message::Changes(changes) => put_changes(alloc, out, changes),
        Message::Order(order) => put_order(alloc, out, order),
    }
}

/// The line of a message, without an end of line, which is read again.
pub fn encode(alloc: Global, message: &Message) -> Result<Text, AllocError>
    ensures text { IfOk result (λ line. line ≡ line_text message.now) }
    ensures again { OnOk result (IsSpelled message.now → read_line (line_text message.now) ≡ Ok message.now) }
{
    let mut out = String::new(alloc);
    put_message(alloc, &mut out, message)?;
    out.push_str(" .")?;
    Ok(Text::from_string(out))
}
