ghost use Rattle.std.specs.Prelude.{◌≡◌, ◌<◌, [], ◌++◌, IfErr, IfOk, IfSome, OnErr, OnOk, false, length, position, string_bytes, true};
ghost use Rattle.smf_admin.specs.Instances.{found_of};
ghost use Rattle.smf_admin.specs.Messages.{no_match_text, several_text};
ghost use Rattle.smf_node.specs.declared.fault.NodeFault.TheVariants.{Memory};
ghost use Rattle.smf_node.specs.Faults.{is_against_launch, is_unsent, lacks_number};
ghost use Rattle.smf_script.specs.Failures.{DeedFails};
ghost use Rattle.smf_world.specs.Reached.{IsLater};
ghost use Rattle.smf_world.specs.Schedule.{on};
ghost use Rattle.smf_script.specs.Session.{IsDeed, deed_of_crash, is_above, is_later_run, is_latest, latest, restarter_in, run_in, run_of, script_name, timed_out, timeout_if, timeout_in};
ghost use Rattle.smf_world.specs.Worked.{is_launched, work_of_event};
ghost use Rattle.std.specs.List.{list_any};
ghost use Rattle.smf_fmri.specs.Name.{name_of_text};

use smf_admin::{Found, found_of, no_match_text, several_text};
use smf_contract::{Contract, ContractTable, Cookie};
use smf_fmri::{Fmri, FmriFault, InstanceFmri, Text};
use smf_model::{Instance, Journal};
use smf_node::{Node, NodeFault};
use smf_world::Event;
use std::alloc::{AllocError, Global};

/// The run of an instance that a cookie names.
fn run_of(instance: u64, cookie: Option<Cookie>) -> Option<u64>
    ensures { result ≡ run_of instance cookie }
{
    let cookie = cookie?;
    if cookie.instance == instance {
        Some(cookie.run)
    } else {
        None
    }
}

/// The run of an instance that a contract with members is of.
fn run_in(table: &ContractTable, instance: u64, contract: &Contract) -> Option<u64>
    ensures { result ≡ run_in table.now.table instance contract.now }
{
    match run_of(instance, Cookie::unpack(contract.cookie)) {
        Some(run) if table.has_members(contract.id) => Some(run),
        _ => None,
    }
}

fn is_above(run: Option<u64>, other: Option<u64>) -> bool
    ensures { result ≡ is_above run other }
{
    match (run, other) {
        (Some(run), Some(other)) => other < run,
        _ => false,
    }
}

fn is_later_run(table: &ContractTable, instance: u64, run: Option<u64>, contract: &Contract) -> bool
    ensures { result ≡ is_later_run table.now.table instance run contract.now }
{
    is_above(run_in(table, instance, contract), run)
}

fn has_later_run(table: &ContractTable, instance: u64, run: Option<u64>) -> bool
    ensures { result ≡ list_any (is_later_run table.now.table instance run) table.now.table.contracts }
{
    table
        .contracts()
        .iter()
        .any(|contract| is_later_run(table, instance, run, contract))
}

/// Says whether a contract is of some run of an instance, and none is of a later one.
fn is_latest(table: &ContractTable, instance: u64, contract: &Contract) -> bool
    ensures { result ≡ is_latest table.now.table instance contract.now }
{
    let run = run_in(table, instance, contract);
    run.is_some() && !has_later_run(table, instance, run)
}

/// The place of the contract of an instance that has members, of its latest run.
fn latest_place(table: &ContractTable, instance: u64) -> Option<usize>
    ensures exact { result ≡ position (is_latest table.now.table instance) table.now.table.contracts }
    ensures in_range { IfSome result (λ k. k < length table.now.table.contracts) }
{
    table
        .contracts()
        .iter()
        .position(|contract| is_latest(table, instance, contract))
}

/// The contract of an instance that has members, of its latest run.
pub(crate) fn latest(table: &ContractTable, instance: u64) -> Option<Contract>
    ensures { result ≡ latest table.now.table instance }
{
    latest_place(table, instance).map(|k| table.contracts()[k])
}

/// Performs an event that prints nothing, needs no number, and changes nothing that the repository holds.
pub(crate) fn happen<J: Journal>(node: &mut Node<J>, event: Event) -> Result<bool, NodeFault>
    requires sent { is_unsent node.old.world event ≡ false }
    requires launched { is_against_launch node.old.world event ≡ false }
    requires numbered { lacks_number node.old.world event ≡ false }
    requires apart { (work_of_event node.old.world event).changes ≡ [] }
    ensures flag { IfOk result (λ fine. fine ≡ true) }
    ensures ok { OnOk result (node.new ≡ on node.old event) }
    ensures later { IsLater node.old.world node.new.world }
    ensures err { OnErr result (node.new ≡ node.old) }
    ensures fault { IfErr result (λ e. e ≡ Memory) }
{
    node.step(event)?;
    Ok(true)
}

/// Says why a line is refused.
pub(crate) fn refuse(out: &mut String, text: &str) -> Result<bool, NodeFault>
    ensures flag { IfOk result (λ fine. fine ≡ false) }
    ensures put { OnOk result (string_bytes out.new ≡ string_bytes out.old ++ text.now) }
    ensures fault { IfErr result (λ e. e ≡ Memory) }
{
    out.push_str(text)?;
    Ok(false)
}

/// Says that a word matches no instance.
pub(crate) fn refuse_word(alloc: Global, out: &mut String, word: &Text) -> Result<bool, NodeFault>
    ensures flag { IfOk result (λ fine. fine ≡ false) }
    ensures put { OnOk result (string_bytes out.new ≡ string_bytes out.old ++ no_match_text script_name word.now) }
    ensures fault { IfErr result (λ e. e ≡ Memory) }
{
    let text = no_match_text(alloc, "smf", word.as_str())?;
    refuse(out, text.as_str())
}

/// Says that a word matches so many instances.
pub(crate) fn refuse_several(
    alloc: Global,
    out: &mut String,
    word: &Text,
    count: usize,
) -> Result<bool, NodeFault>
    ensures flag { IfOk result (λ fine. fine ≡ false) }
    ensures put { OnOk result (string_bytes out.new ≡ string_bytes out.old ++ several_text script_name word.now count) }
    ensures fault { IfErr result (λ e. e ≡ Memory) }
{
    let text = several_text(alloc, "smf", word.as_str(), count)?;
    refuse(out, text.as_str())
}

/// Which instance a word stands for, over what a node holds.
pub(crate) fn found_on<J: Journal>(
    alloc: Global,
    node: &Node<J>,
    word: &Text,
) -> Result<Found, AllocError>
    ensures { IfOk result (λ found. found ≡ found_of node.now.world.now.names word.now) }
{
    found_of(alloc, node.repository().names(), word)
}

/// The method of an instance has taken too long for its restarter.
fn timeout_of<J: Journal>(
    node: &mut Node<J>,
    instance: u64,
    restarter: InstanceFmri,
    out: &mut String,
) -> Result<bool, NodeFault>
    ensures exact { IfOk result
        (λ fine. IsDeed (timeout_if (is_launched node.old.world restarter) node.old instance restarter) node.new
        (string_bytes out.old) (string_bytes out.new) fine) }
    ensures later { IsLater node.old.world node.new.world }
    ensures err { IfErr result
        (λ e. DeedFails J.write_fails false node.old
        (timeout_if (is_launched node.old.world restarter) node.old instance restarter) node.new e) }
{
    if node.is_launched(&restarter) {
        happen(
            node,
            Event::Timeout {
                restarter,
                instance,
            },
        )
    } else {
        refuse(out, "smf: no such restarter\n")
    }
}

fn timeout_in<J: Journal>(
    node: &mut Node<J>,
    instance: Option<Instance>,
    out: &mut String,
) -> Result<bool, NodeFault>
    ensures exact { IfOk result
        (λ fine. IsDeed (timeout_in node.old instance) node.new (string_bytes out.old) (string_bytes out.new) fine) }
    ensures later { IsLater node.old.world node.new.world }
    ensures err { IfErr result (λ e. DeedFails J.write_fails false node.old (timeout_in node.old instance) node.new e) }
{
    match instance {
        Some(instance) => {
            let owner = instance.row.owner.clone()?;
            timeout_of(node, instance.number.get(), owner, out)
        }
        None => refuse(out, "smf: no such restarter\n"),
    }
}

/// The method that runs for the instance that a word stands for takes too long.
#[tactic(auto, unfolding(crate::specs::Session::timed_out))]
pub(crate) fn time_out<J: Journal>(
    alloc: Global,
    node: &mut Node<J>,
    word: &Text,
    out: &mut String,
) -> Result<bool, NodeFault>
    ensures exact { IfOk result
        (λ fine. IsDeed (timed_out node.old word.now) node.new (string_bytes out.old) (string_bytes out.new) fine) }
    ensures later { IsLater node.old.world node.new.world }
    ensures err { IfErr result (λ e. DeedFails J.write_fails false node.old (timed_out node.old word.now) node.new e) }
{
    match found_on(alloc, node, word)? {
        Found::One(instance) => {
            let instance = node.repository().instance(instance)?;
            timeout_in(node, instance, out)
        }
        Found::NoMatch(word) => refuse_word(alloc, out, &word),
        Found::Several(word, count) => refuse_several(alloc, out, &word, count),
    }
}

/// The name of a restarter that a word is, in any form of a name.
fn restarter_in(alloc: Global, word: &Text) -> Result<Option<InstanceFmri>, AllocError>
    ensures { IfOk result (λ name. name ≡ restarter_in (name_of_text word.now)) }
{
    match Fmri::parse(alloc, word.as_str()) {
        Ok(name) => Ok(InstanceFmri::of(name)),
        Err(FmriFault::Memory) => Err(AllocError),
        Err(_) => Ok(None),
    }
}

/// The restarter of a name crashes.
#[tactic(auto, unfolding(crate::specs::Session::deed_of_crash))]
pub(crate) fn crash<J: Journal>(
    alloc: Global,
    node: &mut Node<J>,
    word: &Text,
    out: &mut String,
) -> Result<bool, NodeFault>
    ensures exact { IfOk result
        (λ fine. IsDeed (deed_of_crash node.old word.now) node.new (string_bytes out.old) (string_bytes out.new) fine) }
    ensures later { IsLater node.old.world node.new.world }
    ensures err { IfErr result
        (λ e. DeedFails J.write_fails false node.old (deed_of_crash node.old word.now) node.new e) }
{
    match restarter_in(alloc, word)? {
        Some(name) if node.is_launched(&name) => happen(node, Event::Crash(name)),
        _ => refuse(out, "smf: no such restarter\n"),
    }
}
