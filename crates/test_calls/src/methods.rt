//! Methods: what the group that lines made says of one, and what its end means.

use crate::answers::Answer;
use crate::calls::exit_of;
use crate::cookies::method_of;
use crate::groups::alone;
use crate::names::instance_of;
use crate::words::{split_two, split_word};
use smf_contract::{Exit, Method};
use smf_method::{
    MethodCall, MethodDefinition, MethodFault, MethodOutcome, ReadMethod, Timeout, judge,
    method_text,
};
use smf_value::Group;
use std::alloc::Global;

/// Answers a call of methods; whether it is one.
pub(crate) fn answer(
    alloc: Global,
    group: &Option<Group>,
    out: &mut Answer,
    call: &str,
    text: &str,
) -> bool {
    match call {
        "judge" => answer_judge(out, text),
        "method" => read(alloc, group, out, text),
        "definition" => define(alloc, group, out, text),
        "method_call" => call_definition(alloc, group, out, text),
        _ => return false,
    }
    true
}

fn outcome_text(outcome: MethodOutcome) -> &'static str {
    match outcome {
        MethodOutcome::Good => "good",
        MethodOutcome::Retry => "retry",
        MethodOutcome::Fatal => "fatal",
    }
}

/// `METHOD EXIT`.
fn end_of(text: &str) -> Option<(Method, Exit)> {
    let (method, exit) = split_word(text);
    Some((method_of(method)?, exit_of(exit)?))
}

/// The outcome that the end of a method means.
fn answer_judge(out: &mut Answer, text: &str) {
    match end_of(text) {
        Some((method, exit)) => out.put(outcome_text(judge(method, exit))),
        None => out.bad_line(),
    }
}

fn put_timeout(out: &mut Answer, timeout: Option<Timeout>) {
    if let Some(timeout) = timeout {
        let seconds = timeout.seconds();
        write!(out, " for {seconds}");
    }
}

fn put_call(out: &mut Answer, call: &MethodCall) {
    let command = &call.command;
    write!(out, "runs {command}");
    put_timeout(out, call.timeout);
}

fn put_method(out: &mut Answer, read: &ReadMethod) {
    let (duration, ignored) = (read.duration, read.ignore.bits());
    put_call(out, &read.call);
    write!(out, ", {duration}, ignores {ignored}");
}

fn put_read(out: &mut Answer, read: Result<Option<ReadMethod>, MethodFault>) {
    match out.value_or_refusal(read) {
        Some(Some(read)) => put_method(out, &read),
        Some(None) => out.put("none"),
        None => {}
    }
}

/// `METHOD RESTARTER INSTANCE`: the method that the group that lines made is.
fn read(alloc: Global, group: &Option<Group>, out: &mut Answer, text: &str) {
    let (method, restarter, instance) = split_two(text);
    if let Some(method) = out.value_or_bad_line(method_of(method))
        && let Some(restarter) = instance_of(alloc, out, restarter)
        && let Some(instance) = instance_of(alloc, out, instance)
        && let Some(groups) = out.value_or_no_memory(alone(alloc, group))
    {
        put_read(
            out,
            ReadMethod::of(alloc, &groups, method, &restarter, &instance),
        );
    }
}

/// The definition of a method by the group that lines made. If there is none, that is the answer.
fn definition_of(
    alloc: Global,
    group: &Option<Group>,
    out: &mut Answer,
    method: &str,
) -> Option<MethodDefinition> {
    let method = out.value_or_bad_line(method_of(method))?;
    let groups = out.value_or_no_memory(alone(alloc, group))?;
    let definition = out.value_or_refusal(MethodDefinition::of(alloc, &groups, method))?;
    if definition.is_none() {
        out.put("none");
    }
    definition
}

/// The method, its command before the tokens are replaced, and what else the definition says.
fn put_definition(out: &mut Answer, definition: &MethodDefinition) {
    let (method, exec) = (method_text(definition.method()), definition.exec());
    let (duration, ignored) = (definition.duration(), definition.ignore().bits());
    write!(out, "{method} runs {exec}");
    put_timeout(out, definition.timeout());
    write!(out, ", {duration}, ignores {ignored}");
}

/// `METHOD`: the definition that the group that lines made is.
fn define(alloc: Global, group: &Option<Group>, out: &mut Answer, method: &str) {
    if let Some(definition) = definition_of(alloc, group, out, method) {
        put_definition(out, &definition);
    }
}

/// `METHOD RESTARTER INSTANCE`: the call of that definition.
fn call_definition(alloc: Global, group: &Option<Group>, out: &mut Answer, text: &str) {
    let (method, restarter, instance) = split_two(text);
    if let Some(restarter) = instance_of(alloc, out, restarter)
        && let Some(instance) = instance_of(alloc, out, instance)
        && let Some(definition) = definition_of(alloc, group, out, method)
        && let Some(call) = out.value_or_refusal(definition.call(alloc, &restarter, &instance))
    {
        put_call(out, &call);
    }
}
