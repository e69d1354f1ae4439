use crate::event::event_of;
use crate::fault::fault_text;
use crate::safety::first_broken;
use crate::traces::{trace_event, trace_line};
use log::Log;
use smf_contract::{Contract, ContractTable, EventKind, Exit, Found};
use smf_fmri::Text;
use smf_model::{NoJournal, Plain};
use smf_node::{ContinueFault, Node, NodeFault};
use smf_script::{ChildRequest, Request, request_of, run_request, settled_text};
use smf_svccfg::{Selection, words};
use smf_wire::{Message, encode};
use smf_world::{Event, trail_text};
use std::alloc::{AllocError, Global};
use std::fmt::Write;
use std::mem::replace;
use std::str;

/// The text for a line that is none of a replay.
const BAD_LINE: &str = "smf: bad line\n";

/// The text if a new process cannot go on with the contracts that it finds.
const UNFIT: &str = "smf: unfit contracts\n";

const FOREIGN: &str = "smf: foreign contract\n";

const FORGOT: &str = "forgot\n";

const NOTHING_FORGOTTEN: &str = "nothing forgotten\n";

/// A node over a repository in memory, and what svccfg has selected. Only `end` drops it.
pub(crate) struct Replay {
    node: Node<NoJournal>,
    selection: Selection,
}

/// Says whether a line is one of a script too. Such a line shows or changes what the node holds, or lets the schedule
/// run.
fn is_of_a_script(first: &str) -> bool {
    let is_of_a_program = first == "svccfg" || first == "svcadm" || first == "svcs";
    is_of_a_program || first == "trail" || first == "settle"
}

/// A line without the end that it was read with.
fn without_end(line: &[u8]) -> &[u8] {
    match line {
        [front @ .., b'\n'] => front,
        _ => line,
    }
}

fn is_comment(line: &[u8]) -> bool {
    match line {
        [first, ..] => *first == b'#',
        [] => false,
    }
}

/// Want of memory ends a replay. Any other refusal is printed.
fn put_refusal(fault: NodeFault, out: &mut String) -> Result<(), NodeFault> {
    match fault {
        NodeFault::Memory => Err(NodeFault::Memory),
        fault => {
            out.push_str(fault_text(fault))?;
            out.push_str("\n")?;
            Ok(())
        }
    }
}

/// The events that words name; none if either words name none.
fn two_events(
    alloc: Global,
    first: &[Text],
    second: &[Text],
) -> Result<Option<Vec<Event>>, AllocError> {
    let mut events = Vec::new(alloc);
    for words in [first, second] {
        match event_of(alloc, words)? {
            Some(event) => events.push(event)?,
            None => return Ok(None),
        }
    }
    Ok(Some(events))
}

/// How the first process of a contract ended, if it has.
fn first_end(table: &ContractTable, contract: &Contract) -> Option<Exit> {
    for event in table.events() {
        if event.contract == contract.id {
            if let EventKind::Exit(process, exit) = event.kind {
                if process == contract.first {
                    return Some(exit);
                }
            }
        }
    }
    None
}

/// The contracts that have members, as a new process finds them.
fn found_in(alloc: Global, table: &ContractTable) -> Result<Vec<Found>, AllocError> {
    let mut found = Vec::new(alloc);
    for contract in table.contracts() {
        if table.has_members(contract.id) {
            found.push(Found {
                id: contract.id,
                cookie: contract.cookie,
                terms: contract.terms,
                end: first_end(table, contract),
            })?;
        }
    }
    Ok(found)
}

/// A node after the boot of a repository that holds nothing.
fn new_node(alloc: Global) -> Result<Node<NoJournal>, NodeFault> {
    match Node::new(alloc, Plain::new(alloc, NoJournal {})) {
        Ok(node) => Ok(node),
        Err((fault, repository)) => {
            let NoJournal {} = repository.into_journal();
            Err(fault)
        }
    }
}

fn end_node(node: Node<NoJournal>) {
    let NoJournal {} = node.into_repository().into_journal();
}

impl Replay {
    /// Begins after the boot of a repository that holds nothing.
    pub(crate) fn new(alloc: Global) -> Result<Replay, NodeFault> {
        let selection = Selection::Nothing;
        let node = new_node(alloc)?;
        Ok(Replay { node, selection })
    }

    /// Ends the node.
    pub(crate) fn end(self) {
        let Replay { node, selection: _ } = self;
        end_node(node);
    }

    /// The process ends, and a new one goes on with what is held and with the contracts that have members.
    fn put_next_life(&mut self, alloc: Global, out: &mut String) -> Result<(), NodeFault> {
        let found = found_in(alloc, self.node.table())?;
        let last = self.node.table().last_contract();
        let ended = replace(&mut self.node, new_node(alloc)?);
        match Node::continued(alloc, ended.into_repository(), last, &found) {
            Ok(node) => {
                end_node(replace(&mut self.node, node));
                Ok(())
            }
            Err((fault, repository)) => {
                let NoJournal {} = repository.into_journal();
                match fault {
                    ContinueFault::Memory => Err(NodeFault::Memory),
                    ContinueFault::Unfit => {
                        out.push_str(UNFIT)?;
                        Ok(())
                    }
                    ContinueFault::Foreign(_) => {
                        out.push_str(FOREIGN)?;
                        Ok(())
                    }
                }
            }
        }
    }

    /// What was told and what is over is forgotten, if nothing is under way.
    fn put_forgetting(&mut self, out: &mut String) -> Result<(), NodeFault> {
        match self.node.remains()? {
            Some(rest) => {
                self.node.forget(rest);
                out.push_str(FORGOT)?;
            }
            None => out.push_str(NOTHING_FORGOTTEN)?,
        }
        Ok(())
    }

    /// The rows that are held: the number of the instance and the text of its row.
    fn put_rows(&self, out: &mut String) -> Result<(), AllocError> {
        let view = self.node.repository().view()?;
        for item in view.items.as_slice() {
            let number = item.instance;
            write!(out, "{number} ")?;
            item.row.print_onto(out)?;
            out.push_str("\n")?;
        }
        Ok(())
    }

    /// The messages that were ever sent: the place of each and its line.
    fn put_messages(&self, alloc: Global, out: &mut String) -> Result<(), AllocError> {
        let messages = self.node.messages();
        for place in 0..messages.len() {
            let line = encode(alloc, &messages[place])?;
            let line = line.as_str();
            writeln!(out, "{place} {line}")?;
        }
        Ok(())
    }

    /// The view of what is held, as a message's line.
    fn put_view(&self, alloc: Global, out: &mut String) -> Result<(), AllocError> {
        let view = self.node.repository().view()?;
        let line = encode(alloc, &Message::View(view))?;
        let line = line.as_str();
        writeln!(out, "{line}")?;
        Ok(())
    }

    /// The safety of the trail: `ok`, or the rule that is broken, and the first item that breaks it.
    fn put_check(&self, alloc: Global, out: &mut String) -> Result<(), AllocError> {
        let trail = self.node.trail();
        let Some(broken) = first_broken(alloc, trail)? else {
            return out.push_str("ok\n");
        };
        out.push_str(broken.rule)?;
        out.push_str(": ")?;
        let behind = trail.get(broken.place..).unwrap_or(&[]);
        let item = trail_text(alloc, behind.get(..1).unwrap_or(&[]))?;
        out.push_str(item.as_str())
    }

    /// An event happens, or is refused.
    fn put_step(&mut self, event: Event, out: &mut String) -> Result<(), NodeFault> {
        match self.node.step(event) {
            Ok(_) => Ok(()),
            Err(fault) => put_refusal(fault, out),
        }
    }

    /// Events happen in turn. If one is refused, those before it have happened.
    fn put_run(&mut self, events: Vec<Event>, out: &mut String) -> Result<(), NodeFault> {
        match self.node.run(events) {
            Ok(()) => Ok(()),
            Err(fault) => put_refusal(fault, out),
        }
    }

    /// An event of one word, and after the word `then` another one.
    fn put_both(
        &mut self,
        alloc: Global,
        first: &[Text],
        second: &[Text],
        out: &mut String,
    ) -> Result<(), NodeFault> {
        match two_events(alloc, first, second)? {
            Some(events) => self.put_run(events, out),
            None => {
                out.push_str(BAD_LINE)?;
                Ok(())
            }
        }
    }

    fn put_event<L: Log>(
        &mut self,
        alloc: Global,
        log: &L,
        words: &[Text],
        out: &mut String,
    ) -> Result<(), NodeFault> {
        match event_of(alloc, words)? {
            Some(event) => {
                trace_event(log, &event);
                self.put_step(event, out)
            }
            None => {
                out.push_str(BAD_LINE)?;
                Ok(())
            }
        }
    }

    /// A line that is one of a script too. One that asks something of children, except `settle`, is no line of a
    /// replay, since nobody runs methods.
    fn put_request(
        &mut self,
        alloc: Global,
        text: &str,
        out: &mut String,
    ) -> Result<(), NodeFault> {
        let request = request_of(alloc, text.as_bytes())?;
        match &request {
            Request::Node(request) => {
                run_request(alloc, &mut self.node, &mut self.selection, request, out)?;
            }
            Request::Children(ChildRequest::Settle(rounds)) => {
                let how = self.node.settle(*rounds)?;
                out.push_str(settled_text(how))?;
            }
            Request::Children(_) => out.push_str(BAD_LINE)?,
        }
        Ok(())
    }

    fn put_words<L: Log>(
        &mut self,
        alloc: Global,
        log: &L,
        text: &str,
        words: &[Text],
        out: &mut String,
    ) -> Result<(), NodeFault> {
        match words {
            [] => Ok(()),
            [first, ..] if is_of_a_script(first.as_str()) => {
                trace_line(log, text);
                self.put_request(alloc, text, out)
            }
            [first] if first.as_str() == "rows" => {
                self.put_rows(out)?;
                Ok(())
            }
            [first] if first.as_str() == "messages" => {
                self.put_messages(alloc, out)?;
                Ok(())
            }
            [first] if first.as_str() == "view" => {
                self.put_view(alloc, out)?;
                Ok(())
            }
            [first] if first.as_str() == "check" => {
                self.put_check(alloc, out)?;
                Ok(())
            }
            [first] if first.as_str() == "forget" => {
                trace_line(log, text);
                self.put_forgetting(out)
            }
            [first] if first.as_str() == "cut" => {
                trace_line(log, text);
                self.put_next_life(alloc, out)
            }
            [_, between, second @ ..] if between.as_str() == "then" => {
                trace_line(log, text);
                self.put_both(alloc, &words[..1], second, out)
            }
            _ => self.put_event(alloc, log, words, out),
        }
    }

    fn put_text<L: Log>(
        &mut self,
        alloc: Global,
        log: &L,
        text: &str,
        out: &mut String,
    ) -> Result<(), NodeFault> {
        if is_comment(text.as_bytes()) {
            return Ok(());
        }
        let words = words(alloc, text)?;
        self.put_words(alloc, log, text, words.as_slice(), out)
    }

    /// Does a line, traces what it gives to the node, and gives what it prints. Only want of memory ends a replay.
    pub(crate) fn text_of<L: Log>(
        &mut self,
        alloc: Global,
        log: &L,
        line: &[u8],
    ) -> Result<String, NodeFault> {
        let mut out = String::new(alloc);
        match str::from_utf8(without_end(line)) {
            Ok(text) => self.put_text(alloc, log, text, &mut out)?,
            Err(_) => out.push_str(BAD_LINE)?,
        }
        Ok(out)
    }
}
