//! Dependencies: what the group that lines made asks, and how one stands over the view.

use crate::answers::Answer;
use crate::groups::alone;
use crate::names::names_of;
use crate::views::{Views, item_of};
use crate::words::{split_two, split_word, truth};
use smf_dep::{
    Dependency, DependencyFault, Finding, Graph, Grouping, RestartOn, Verdict, read_groups,
};
use smf_fmri::{Items, Ordered, read_count};
use smf_state::{ChangedItem, ViewItem};
use smf_value::Group;
use std::alloc::{AllocError, Global};
use std::mem::replace;

/// Answers a call of dependencies; whether it is one.
pub(crate) fn answer(
    alloc: Global,
    group: &Option<Group>,
    views: &mut Views,
    out: &mut Answer,
    call: &str,
    text: &str,
) -> bool {
    match call {
        "dependency" => read(alloc, group, out),
        "verdict" => answer_verdict(alloc, &views.items, out, text),
        "must_stop" => answer_must_stop(alloc, &views.items, out, text),
        "found" => answer_findings(alloc, &views.items, out),
        "keep" => keep(alloc, views, out),
        "change" => change(alloc, views, out, text),
        "also" => change_later(alloc, views, out, text),
        "gone" => lose(alloc, views, out, text),
        "also_gone" => lose_later(views, out, text),
        "kept_verdict" => judged_again(alloc, &views.graph, out, text),
        _ => return false,
    }
    true
}

fn grouping_text(grouping: Grouping) -> &'static str {
    match grouping {
        Grouping::RequireAll => "require_all",
        Grouping::RequireAny => "require_any",
        Grouping::OptionalAll => "optional_all",
        Grouping::ExcludeAll => "exclude_all",
    }
}

fn restart_text(restart_on: RestartOn) -> &'static str {
    match restart_on {
        RestartOn::Nothing => "none",
        RestartOn::Error => "error",
        RestartOn::Restart => "restart",
        RestartOn::Refresh => "refresh",
    }
}

/// Its grouping, what it restarts on, and its entities.
fn put_dependency(out: &mut Answer, dependency: &Dependency) {
    out.put(grouping_text(dependency.grouping));
    out.put(" ");
    out.put(restart_text(dependency.restart_on));
    for entity in dependency.entities.as_slice() {
        write!(out, " {entity}");
    }
}

fn put_first(out: &mut Answer, dependencies: Result<Items<Dependency>, DependencyFault>) {
    if let Some(dependencies) = out.value_or_refusal(dependencies) {
        match dependencies.as_slice() {
            [dependency, ..] => put_dependency(out, dependency),
            [] => out.put("none"),
        }
    }
}

/// The dependency of the group that lines made, if its type is `dependency`.
fn read(alloc: Global, group: &Option<Group>, out: &mut Answer) {
    if let Some(groups) = out.value_or_no_memory(alone(alloc, group)) {
        put_first(out, read_groups(alloc, &groups));
    }
}

fn verdict_text(verdict: Verdict) -> &'static str {
    match verdict {
        Verdict::Met => "met",
        Verdict::Waiting => "waiting",
        Verdict::Blocked => "blocked",
    }
}

fn dependency_of(alloc: Global, out: &mut Answer, text: &str) -> Option<Dependency> {
    let (grouping, entities) = split_word(text);
    let grouping = out.value_or_bad_line(Grouping::parse(grouping))?;
    let entities = names_of(alloc, out, entities)?;
    Some(Dependency {
        grouping,
        restart_on: RestartOn::Nothing,
        entities,
    })
}

fn put_verdict(out: &mut Answer, verdict: Result<Verdict, AllocError>) {
    if let Some(verdict) = out.value_or_no_memory(verdict) {
        out.put(verdict_text(verdict));
    }
}

/// `GROUPING ENTITY..`: how such a group stands over the view.
fn answer_verdict(alloc: Global, items: &Ordered<ViewItem>, out: &mut Answer, text: &str) {
    if let Some(dependency) = dependency_of(alloc, out, text)
        && let Some(graph) = out.value_or_no_memory(Graph::of(alloc, items.as_slice()))
    {
        put_verdict(out, graph.verdict(alloc, &dependency));
    }
}

/// `GROUPING RESTART_ON ENTITY..`.
fn stopping_of(alloc: Global, out: &mut Answer, text: &str) -> Option<Dependency> {
    let (grouping, restart_on, entities) = split_two(text);
    let grouping = out.value_or_bad_line(Grouping::parse(grouping))?;
    let restart_on = out.value_or_bad_line(RestartOn::parse(restart_on))?;
    let entities = names_of(alloc, out, entities)?;
    Some(Dependency {
        grouping,
        restart_on,
        entities,
    })
}

/// `BASE GROUPING RESTART_ON ENTITY..`: whether such a group, over the view, stops an instance whose last start was
/// decided on this revision.
fn answer_must_stop(alloc: Global, items: &Ordered<ViewItem>, out: &mut Answer, text: &str) {
    let (base, text) = split_word(text);
    if let Some(base) = out.value_or_bad_line(read_count(base))
        && let Some(dependency) = stopping_of(alloc, out, text)
        && let Some(graph) = out.value_or_no_memory(Graph::of(alloc, items.as_slice()))
        && let Some(stops) = out.value_or_no_memory(graph.must_stop(alloc, &dependency, base))
    {
        out.put(truth(stops));
    }
}

fn put_finding(out: &mut Answer, finding: Finding) {
    out.put(if finding.readable { "-" } else { "u" });
    out.put(if finding.all_met { "m" } else { "-" });
    out.put(if finding.must_stop { "s" } else { "-" });
    out.put(if finding.on_cycle { "c|" } else { "-|" });
}

/// The finding of each instance of the view: `u` if its groups can't be read, `m` if all are met, `s` if one stops it,
/// `c` if it is on a cycle.
fn answer_findings(alloc: Global, items: &Ordered<ViewItem>, out: &mut Answer) {
    if let Some(graph) = out.value_or_no_memory(Graph::of(alloc, items.as_slice())) {
        for place in 0..items.len() {
            if let Some(finding) = graph.finding(place) {
                put_finding(out, finding);
            }
        }
    }
}

/// The graph of the view is kept from now on.
fn keep(alloc: Global, views: &mut Views, out: &mut Answer) {
    views.graph = out.value_or_no_memory(Graph::of(alloc, views.items.as_slice()));
    out.put("done");
}

/// True if a graph that was kept has the instances of a view at their places, and finds of each what a new one does.
fn are_same(kept: &Graph, new: &Graph, items: &[ViewItem]) -> bool {
    for (place, item) in items.iter().enumerate() {
        if kept.place_of(item.instance) != Some(place)
            || kept.finding(place) != new.finding(place)
        {
            return false;
        }
    }
    kept.finding(items.len()).is_none()
}

/// Compares the graph that was kept with a new one.
fn put_compared(alloc: Global, views: &Views, out: &mut Answer) {
    if let Some(kept) = &views.graph
        && let Some(new) = out.value_or_no_memory(Graph::of(alloc, views.items.as_slice()))
    {
        let is_same = are_same(kept, &new, views.items.as_slice());
        out.put(if is_same { "same" } else { "other" });
    }
}

/// The graph that is kept gets the changes that wait, all at once.
fn update(alloc: Global, views: &mut Views, out: &mut Answer) {
    let waiting = replace(&mut views.waiting, Items::new(alloc));
    if let Some(graph) = &mut views.graph {
        let _touched = out.value_or_no_memory(graph.update(alloc, waiting.as_slice()));
    }
}

/// An item as `view_item` has it: the view gets it. The graph that is kept gets it with the next `change` or `gone`.
fn wait(alloc: Global, views: &mut Views, out: &mut Answer, text: &str) -> Option<()> {
    let item = item_of(alloc, out, text)?;
    let copy = out.value_or_no_memory(item.clone())?;
    out.value_or_no_memory(views.items.put(copy))?;
    let changed = ChangedItem {
        instance: item.instance,
        item: Some(item),
    };
    out.value_or_no_memory(views.waiting.push(changed))
}

/// The same for the graph too. Says whether that finds what a new one does.
fn change(alloc: Global, views: &mut Views, out: &mut Answer, text: &str) {
    if wait(alloc, views, out, text).is_some() {
        update(alloc, views, out);
        put_compared(alloc, views, out);
    }
}

/// An item that waits. Says that it does.
fn change_later(alloc: Global, views: &mut Views, out: &mut Answer, text: &str) {
    if wait(alloc, views, out, text).is_some() {
        out.put("waits");
    }
}

/// `NUMBER`: the instance goes from the view. The graph that is kept loses it with the next `change` or `gone`.
fn wait_without(views: &mut Views, out: &mut Answer, text: &str) -> Option<()> {
    let instance = out.value_or_bad_line(read_count(text))?;
    views.items.remove(&instance);
    let changed = ChangedItem {
        instance,
        item: None,
    };
    out.value_or_no_memory(views.waiting.push(changed))
}

/// The same for the graph too. Says whether that finds what a new one does.
fn lose(alloc: Global, views: &mut Views, out: &mut Answer, text: &str) {
    if wait_without(views, out, text).is_some() {
        update(alloc, views, out);
        put_compared(alloc, views, out);
    }
}

/// An instance that goes with what waits. Says that it does.
fn lose_later(views: &mut Views, out: &mut Answer, text: &str) {
    if wait_without(views, out, text).is_some() {
        out.put("waits");
    }
}

/// `GROUPING ENTITY..`: how such a group stands by the graph that is kept.
fn judged_again(alloc: Global, graph: &Option<Graph>, out: &mut Answer, text: &str) {
    if let Some(dependency) = dependency_of(alloc, out, text)
        && let Some(graph) = graph
    {
        put_verdict(out, graph.verdict(alloc, &dependency));
    }
}
