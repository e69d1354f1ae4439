//! A view that lines make, item by item: what svcs and svcadm say of it, and what svc.startd's graph orders.

use crate::answers::Answer;
use crate::bytes::bytes_of;
use crate::names::instance_of;
use crate::rows::item_by_row;
use crate::steps::STARTD;
use crate::words::{number_of, split_two, texts_of};
use smf_admin::{
    Asked, Listing, Options, commands_of, no_match_text, options_of, several_text, svcadm_usage,
    svcs_text, svcs_usage,
};
use smf_dep::Graph;
use smf_engine::{Engine, orders};
use smf_fmri::{Bytes, Items, Number, Ordered, SharedOrdered, Table, Text, read_count};
use smf_model::{Edit, InstanceName, Mark};
use smf_state::{ChangedItem, Row, SharedRow, State, View, ViewItem};
use smf_wire::{Message, Order, ViewChanges, What, decode, encode};
use std::alloc::{AllocError, Global};

/// A view, and a graph that views are given to.
#[derive(Drop)]
pub(crate) struct Views {
    pub(crate) items: Ordered<ViewItem>,
    /// The graph of these items, once it is kept.
    pub(crate) graph: Option<Graph>,
    /// Changes of the view that the graph gets all at once.
    pub(crate) waiting: Items<ChangedItem>,
    engine: Engine,
}

impl Views {
    pub(crate) fn new(alloc: Global) -> Views {
        Views {
            items: Ordered::new(alloc),
            graph: None,
            waiting: Items::new(alloc),
            engine: Engine::new(),
        }
    }
}

/// Answers a call of the view; whether it is one.
pub(crate) fn answer(
    alloc: Global,
    views: &mut Views,
    out: &mut Answer,
    call: &str,
    text: &str,
) -> bool {
    match call {
        "view" => {
            views.items = Ordered::new(alloc);
            out.put("done");
        }
        "view_item" => {
            let item = item_of(alloc, out, text);
            add_item(views, out, item);
        }
        "view_row" => {
            let item = item_by_row(alloc, out, text);
            add_item(views, out, item);
        }
        "take_view" => take_view(alloc, views, out, text),
        "hear" => hear(alloc, &mut views.engine, out, text),
        "question" if text.is_empty() => put_question(alloc, &views.engine, out),
        "graph" if text.is_empty() => {
            views.engine = Engine::new();
            out.put("done");
        }
        "svcs" => svcs(alloc, views.items.as_slice(), out, text),
        "svcadm" => svcadm(alloc, views.items.as_slice(), out, text),
        "orders" => all_orders(alloc, &views.items, out, text),
        "decide" => answer_decide(alloc, &views.engine, out, text),
        "decide_all" => put_orders(out, views.engine.decide_all(alloc)),
        _ => return false,
    }
    true
}

/// The next state; `-` is none.
fn next_of(word: &str) -> Option<Option<State>> {
    if word == "-" {
        return Some(None);
    }
    Some(Some(State::read(word)?))
}

/// The bytes of the running snapshot; `-` is none.
fn body_of(alloc: Global, out: &mut Answer, word: &str) -> Option<Option<Bytes>> {
    if word == "-" {
        return Some(None);
    }
    let bytes = bytes_of(alloc, out, word)?;
    Some(Some(out.value_or_no_memory(Bytes::from_vec(alloc, bytes))?))
}

fn is_enabled(word: &str) -> Option<bool> {
    match word {
        "enabled" => Some(true),
        "disabled" => Some(false),
        _ => None,
    }
}

/// A row of a restarter's in a state. The restarter is svc.startd if no other is named.
fn row_of(
    alloc: Global,
    out: &mut Answer,
    owner: &str,
    state: State,
    next: Option<State>,
) -> Option<Row> {
    let owner = if owner.is_empty() { STARTD } else { owner };
    let mut row = Row::new(instance_of(alloc, out, owner)?);
    row.state = state;
    row.next = next;
    Some(row)
}

/// `STATE NEXT`.
fn states_of(state: &str, next: &str) -> Option<(State, Option<State>)> {
    Some((State::read(state)?, next_of(next)?))
}

/// `NUMBER`, and whether it is enabled.
fn number_and_flag(number: &str, flag: &str) -> Option<(u64, bool)> {
    Some((read_count(number)?, is_enabled(flag)?))
}

/// `NUMBER NAME enabled|disabled STATE NEXT BODY`, and then the restarter if it is not svc.startd.
pub(crate) fn item_of(alloc: Global, out: &mut Answer, text: &str) -> Option<ViewItem> {
    let (number, name, rest) = split_two(text);
    let (flag, state, rest) = split_two(rest);
    let (next, body, owner) = split_two(rest);
    let (instance, enabled) = out.value_or_bad_line(number_and_flag(number, flag))?;
    let (state, next) = out.value_or_bad_line(states_of(state, next))?;
    let name = instance_of(alloc, out, name)?;
    let row = row_of(alloc, out, owner, state, next)?;
    let row = out.value_or_no_memory(SharedRow::of(alloc, row))?;
    let body = body_of(alloc, out, body)?;
    Some(ViewItem {
        instance,
        name,
        enabled,
        readable: true,
        row,
        body,
    })
}

fn add_item(views: &mut Views, out: &mut Answer, item: Option<ViewItem>) {
    if let Some(item) = item
        && out.value_or_no_memory(views.items.put(item)).is_some()
    {
        out.put("done");
    }
}

/// The lines of a text, with a bar at the end of each.
fn put_lines(out: &mut Answer, text: &str) {
    for line in text.split('\n') {
        if !line.is_empty() {
            out.put(line);
            out.put("|");
        }
    }
}

/// The lines of a text that a library made.
fn put_told(out: &mut Answer, text: Result<Text, AllocError>) {
    if let Some(text) = out.value_or_no_memory(text) {
        put_lines(out, text.as_str());
    }
}

/// A listing, and `failed` if a pattern matches nothing.
fn put_listing(out: &mut Answer, listing: Result<Listing, AllocError>) {
    if let Some(listing) = out.value_or_no_memory(listing) {
        put_lines(out, listing.text.as_str());
        out.put(if listing.all_matched { "" } else { "failed" });
    }
}

fn put_listed(
    alloc: Global,
    items: &[ViewItem],
    out: &mut Answer,
    options: Result<Option<Options>, AllocError>,
) {
    match out.value_or_no_memory(options) {
        Some(Some(options)) => put_listing(out, svcs_text(alloc, items, &options)),
        Some(None) => put_lines(out, svcs_usage()),
        None => {}
    }
}

/// The listing of svcs, or its usage.
fn svcs(alloc: Global, items: &[ViewItem], out: &mut Answer, text: &str) {
    if let Some(words) = out.value_or_no_memory(texts_of(alloc, text)) {
        put_listed(alloc, items, out, options_of(alloc, words.as_slice()));
    }
}

fn mark_word(mark: Mark) -> &'static str {
    match mark {
        Mark::Degraded => "degraded",
        Mark::Maintenance => "maintenance",
        Mark::MaintenanceNow => "maintenance at once",
    }
}

fn put_edit(out: &mut Answer, edit: &Edit) {
    match edit {
        Edit::Enable {
            instance,
            enabled,
            temporary,
        } => {
            let word = if *enabled { "enable" } else { "disable" };
            let until = if *temporary { " temporary" } else { "" };
            write!(out, "{word} {instance}{until}|");
        }
        Edit::Restart(instance) => write!(out, "restart {instance}|"),
        Edit::Refresh(instance) => write!(out, "refresh {instance}|"),
        Edit::Clear(instance) => write!(out, "clear {instance}|"),
        Edit::Mark { instance, mark } => {
            let word = mark_word(*mark);
            write!(out, "mark {instance} {word}|");
        }
        _ => out.put("another edit|"),
    }
}

/// The edit that a word of svcadm asks for, or the text of why it asks for none.
fn put_asked(alloc: Global, out: &mut Answer, asked: &Asked) {
    match asked {
        Asked::Edit(edit) => put_edit(out, edit),
        Asked::NoMatch(word) => put_told(out, no_match_text(alloc, "svcadm", word.as_str())),
        Asked::Several(word, count) => {
            put_told(out, several_text(alloc, "svcadm", word.as_str(), *count));
        }
    }
}

fn put_all_asked(alloc: Global, out: &mut Answer, all: &[Asked]) {
    for asked in all {
        put_asked(alloc, out, asked);
    }
}

fn put_commands(
    alloc: Global,
    out: &mut Answer,
    commands: Result<Option<Items<Asked>>, AllocError>,
) {
    match out.value_or_no_memory(commands) {
        Some(Some(all)) => put_all_asked(alloc, out, all.as_slice()),
        Some(None) => put_lines(out, svcadm_usage()),
        None => {}
    }
}

/// The names of a view, with their numbers.
fn names_of(alloc: Global, items: &[ViewItem]) -> Result<Table<InstanceName>, AllocError> {
    let mut names = Table::new(alloc);
    for item in items {
        if let Some(number) = Number::new(item.instance) {
            names.reserve(1)?;
            let name = item.name.clone()?;
            names.put(InstanceName { name, number });
        }
    }
    Ok(names)
}

fn svcadm(alloc: Global, items: &[ViewItem], out: &mut Answer, text: &str) {
    if let Some(words) = out.value_or_no_memory(texts_of(alloc, text))
        && let Some(names) = out.value_or_no_memory(names_of(alloc, items))
    {
        put_commands(alloc, out, commands_of(alloc, words.as_slice(), &names));
    }
}

fn put_what(out: &mut Answer, what: &What) {
    match what {
        What::To(state) => out.put(state.text()),
        What::Start {
            method,
            duration,
            ..
        } => {
            let command = &method.command;
            write!(out, "start {command} {duration}");
        }
        What::Stop { to, .. } => write!(out, "stop {to}"),
        What::Refresh { .. } => out.put("refresh"),
    }
}

/// The instance of an order, the revision that it was decided on, and what it says.
fn put_order(out: &mut Answer, order: &Order) {
    let (instance, revision) = (order.instance, order.revision);
    write!(out, "{instance} at {revision}: ");
    put_what(out, &order.what);
}

/// Orders for instances of the view.
fn put_orders(out: &mut Answer, orders: Result<Items<Order>, AllocError>) {
    if let Some(orders) = out.value_or_no_memory(orders) {
        for order in orders.as_slice() {
            out.put_between(", ");
            put_order(out, order);
        }
        out.put_if_empty("nothing");
    }
}

/// `REVISION`: the orders for the instances of the view.
fn all_orders(alloc: Global, items: &Ordered<ViewItem>, out: &mut Answer, text: &str) {
    match read_count(text) {
        Some(revision) => put_orders(out, orders(alloc, revision, items.as_slice())),
        None => out.bad_line(),
    }
}

fn put_decided(out: &mut Answer, order: Result<Option<Order>, AllocError>) {
    match out.value_or_no_memory(order) {
        Some(Some(order)) => put_order(out, &order),
        Some(None) => out.put("nothing"),
        None => {}
    }
}

/// `NUMBER`: the order for one instance, by the view that the graph holds.
fn answer_decide(alloc: Global, engine: &Engine, out: &mut Answer, text: &str) {
    match read_count(text) {
        Some(number) => put_decided(out, engine.decide(alloc, number)),
        None => out.bad_line(),
    }
}

/// `REVISION`: gives a copy of the view to the graph, as that of this revision.
fn take_view(alloc: Global, views: &mut Views, out: &mut Answer, text: &str) {
    if let Some(revision) = out.value_or_bad_line(read_count(text))
        && let Some(items) = out.value_or_no_memory(views.items.clone())
        && let Some(items) = out.value_or_no_memory(SharedOrdered::of(alloc, items))
    {
        views.engine.take_view(alloc, View { revision, items });
        out.put("done");
    }
}

fn take_changes(alloc: Global, engine: &mut Engine, out: &mut Answer, changes: &ViewChanges) {
    if out
        .value_or_no_memory(engine.take_changes(alloc, changes))
        .is_some()
    {
        out.put("done");
    }
}

/// The line of a view or of changes, which the graph gets.
fn hear(alloc: Global, engine: &mut Engine, out: &mut Answer, line: &str) {
    match decode(alloc, line) {
        Ok(Message::View(view)) => {
            engine.take_view(alloc, view);
            out.put("done");
        }
        Ok(Message::Changes(changes)) => take_changes(alloc, engine, out, &changes),
        _ => out.bad_line(),
    }
}

/// The line of what the graph asks the repository.
fn put_question(alloc: Global, engine: &Engine, out: &mut Answer) {
    if let Some(line) = out.value_or_no_memory(encode(alloc, &engine.question())) {
        out.put(line.as_str());
    }
}
