ghost use Rattle.std.specs.Prelude.{◌≡◌, ◌++◌, ◌⊎◌, IfErr, IfOk, None, OnErr, OnOk, Err, false, is_ok, string_bytes, true};
ghost use Rattle.smf_edge.specs.Answers.{children_state};
ghost use Rattle.smf_edge.specs.Steps.{ledger_after_boot};
ghost use Rattle.smf_node.specs.declared.fault.NodeFault.TheVariants.{Memory};
ghost use Rattle.smf_node.specs.Faults.{event_refusal};
ghost use Rattle.smf_script.specs.Asks.{HadMemory, HasAsked, answer_text, deed_of_answer, to_act, to_join, to_reboot, why_text};
ghost use Rattle.smf_script.specs.LineFailures.{IsUnbooted};
ghost use Rattle.smf_script.specs.Lines.{AskedBy, HasPut, deed_of_boot, contract_of, deed, child_event};
ghost use Rattle.smf_script.specs.Faults.{MayStop};
ghost use Rattle.smf_world.specs.declared.event.Event.TheVariants as events;
ghost use Rattle.smf_world.specs.Reached.{IsLater};
ghost use Rattle.smf_world.specs.Schedule.{on};

use crate::processes::{found_on, latest, refuse, refuse_several, refuse_word};
use smf_admin::Found;
use smf_contract::ContractTable;
use smf_edge::{Happening, Kids, KidsFault};
use smf_fmri::{Number, Text};
use smf_model::Journal;
use smf_node::{Node, NodeFault};
use smf_world::{Event, ProcessEvent};
use std::alloc::Global;

fn child_event(what: ProcessEvent) -> Happening
    ensures { result ≡ child_event what }
{
    match what {
        ProcessEvent::Fork => Happening::Fork,
        ProcessEvent::Exit(exit) => Happening::Exit(exit),
        ProcessEvent::Fail(failure) => Happening::Fail(failure),
    }
}

/// The contract of an instance that has members, of its latest run; 0 if there is none.
fn contract_of(table: &ContractTable, instance: u64) -> Number
    ensures { result ≡ contract_of table.now.table instance }
{
    match latest(table, instance) {
        Some(contract) => contract.id,
        None => Number::zero(),
    }
}

/// Says why children did not do what was asked.
fn say_why(why: KidsFault, out: &mut String) -> Result<bool, NodeFault>
    ensures flag { IfOk result (λ fine. fine ≡ false) }
    ensures put { OnOk result (string_bytes out.new ≡ string_bytes out.old ++ why_text why) }
    ensures had { OnOk result (HadMemory (Err why)) }
    ensures fault { IfErr result (λ e. e ≡ Memory) }
{
    match why {
        KidsFault::NoChild => refuse(out, "smf: no member\n"),
        KidsFault::NotHere => refuse(out, "smf: not here\n"),
        KidsFault::Device => refuse(out, "smf: device failed\n"),
        KidsFault::Memory => Err(NodeFault::Memory),
        KidsFault::Refused => Ok(false),
        KidsFault::NotFollowed => Ok(false),
    }
}

/// Says what children answered, if they did not do what was asked; gives back whether they did.
fn say(done: Result<(), KidsFault>, out: &mut String) -> Result<bool, NodeFault>
    ensures flag { IfOk result (λ fine. fine ≡ is_ok done) }
    ensures put { OnOk result (string_bytes out.new ≡ string_bytes out.old ++ answer_text done) }
    ensures had { OnOk result (HadMemory done) }
    ensures refused { OnErr result (is_ok done ≡ false) }
    ensures fault { IfErr result (λ e. e ≡ Memory) }
{
    match done {
        Ok(()) => Ok(true),
        Err(why) => say_why(why, out),
    }
}

/// Something happens to the lowest member of the contract of an instance.
fn act<J: Journal, K: Kids>(
    node: &Node<J>,
    kids: &mut K,
    instance: u64,
    what: ProcessEvent,
    out: &mut String,
) -> Result<bool, NodeFault>
    ensures exact { IfOk result (λ fine. HasPut (λ text.
        HasAsked K.skills (to_act (contract_of node.now.world.table instance) (child_event what)) (deed_of_answer node.now) (children_state (K.ledger kids.old) (K.failures kids.old)) (children_state (K.ledger kids.new) (K.failures kids.new)) (deed node.now fine text))
        (string_bytes out.old) (string_bytes out.new)) }
    ensures kept { OnErr result (K.ledger kids.new ≡ K.ledger kids.old) }
    ensures fault { IfErr result (λ e. e ≡ Memory) }
{
    let id = contract_of(node.table(), instance);
    let done = kids.act(id, child_event(what));
    say(done, out)
}

/// Something happens to the lowest member of the contract of the instance that a word stands for.
pub(crate) fn process<J: Journal, K: Kids>(
    alloc: Global,
    node: &Node<J>,
    kids: &mut K,
    word: &Text,
    what: ProcessEvent,
    out: &mut String,
) -> Result<bool, NodeFault>
    ensures exact { IfOk result (λ fine. HasPut (λ text.
        AskedBy K.skills node.now (λ id. to_act id (child_event what)) word.now (children_state (K.ledger kids.old) (K.failures kids.old)) (children_state (K.ledger kids.new) (K.failures kids.new)) (deed node.now fine text))
        (string_bytes out.old) (string_bytes out.new)) }
    ensures kept { OnErr result (K.ledger kids.new ≡ K.ledger kids.old) }
    ensures fault { IfErr result (λ e. e ≡ Memory) }
{
    match found_on(alloc, node, word)? {
        Found::One(instance) => act(node, kids, instance, what, out),
        Found::NoMatch(word) => refuse_word(alloc, out, &word),
        Found::Several(word, count) => refuse_several(alloc, out, &word, count),
    }
}

/// A member of the contract of an instance is waited for.
fn wait<J: Journal, K: Kids>(
    node: &Node<J>,
    kids: &mut K,
    instance: u64,
    out: &mut String,
) -> Result<bool, NodeFault>
    ensures exact { IfOk result (λ fine. HasPut (λ text.
        HasAsked K.skills (to_join (contract_of node.now.world.table instance)) (deed_of_answer node.now) (children_state (K.ledger kids.old) (K.failures kids.old)) (children_state (K.ledger kids.new) (K.failures kids.new)) (deed node.now fine text))
        (string_bytes out.old) (string_bytes out.new)) }
    ensures kept { OnErr result (K.ledger kids.new ≡ K.ledger kids.old) }
    ensures fault { IfErr result (λ e. e ≡ Memory) }
{
    let id = contract_of(node.table(), instance);
    let done = kids.join(id);
    say(done, out)
}

/// A member of the contract of the instance that a word stands for is waited for.
pub(crate) fn join<J: Journal, K: Kids>(
    alloc: Global,
    node: &Node<J>,
    kids: &mut K,
    word: &Text,
    out: &mut String,
) -> Result<bool, NodeFault>
    ensures exact { IfOk result (λ fine. HasPut (λ text.
        AskedBy K.skills node.now to_join word.now (children_state (K.ledger kids.old) (K.failures kids.old)) (children_state (K.ledger kids.new) (K.failures kids.new)) (deed node.now fine text))
        (string_bytes out.old) (string_bytes out.new)) }
    ensures kept { OnErr result (K.ledger kids.new ≡ K.ledger kids.old) }
    ensures fault { IfErr result (λ e. e ≡ Memory) }
{
    match found_on(alloc, node, word)? {
        Found::One(instance) => wait(node, kids, instance, out),
        Found::NoMatch(word) => refuse_word(alloc, out, &word),
        Found::Several(word, count) => refuse_several(alloc, out, &word, count),
    }
}

/// The node boots.
fn restart<J: Journal>(node: &mut Node<J>) -> Result<bool, NodeFault>
    ensures flag { IfOk result (λ fine. fine ≡ true) }
    ensures taken { OnOk result (event_refusal node.old.world events.Boot ≡ None) }
    ensures ok { OnOk result (node.new ≡ on node.old events.Boot) }
    ensures err { OnErr result (node.new ≡ node.old) }
    ensures later { IsLater node.old.world node.new.world }
    ensures why { IfErr result (λ e. IsUnbooted J.write_fails node.old.world e) }
    ensures fault { IfErr result (λ e. MayStop J.write_fails e) }
{
    node.step(Event::Boot)?;
    Ok(true)
}

/// Children drop all members and contracts, and then the node boots.
pub(crate) fn boot<J: Journal, K: Kids>(
    node: &mut Node<J>,
    kids: &mut K,
    out: &mut String,
) -> Result<bool, NodeFault>
    ensures exact { IfOk result (λ fine. HasPut (λ text.
        HasAsked K.skills to_reboot (deed_of_boot node.old) (children_state (K.ledger kids.old) (K.failures kids.old)) (children_state (K.ledger kids.new) (K.failures kids.new)) (deed node.new fine text))
        (string_bytes out.old) (string_bytes out.new)) }
    ensures taken { IfOk result (λ fine. fine ≡ true → event_refusal node.old.world events.Boot ≡ None) }
    ensures err { OnErr result (node.new ≡ node.old) }
    ensures kept { OnErr result ((K.ledger kids.new ≡ K.ledger kids.old)
        ⊎ (K.ledger kids.new ≡ ledger_after_boot (K.ledger kids.old))) }
    ensures later { IsLater node.old.world node.new.world }
    ensures why { IfErr result (λ e. IsUnbooted J.write_fails node.old.world e) }
    ensures fault { IfErr result (λ e. MayStop J.write_fails e) }
{
    match kids.reboot() {
        Ok(()) => restart(node),
        Err(why) => say_why(why, out),
    }
}
