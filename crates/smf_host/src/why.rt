// On what evidence instances were started and stopped last.
use crate::blocks::{Block, Kind, STARTED, blocks_in, put_part, text_of};
use crate::chain::{STOPPED, Told};
use smf_dep::RestartOn;
use smf_fmri::InstanceFmri;
use smf_model::{InstanceEntry, Journal, Plain};
use smf_node::Node;
use smf_provenance::{
    Ask, Cited, EnabledBy, EventKind, GroupEvidence, GroupStop, Scene, StartEvidence, StopEvent,
    StopEvidence, StopReason, enabled_by, start_evidence, stop_evidence,
};
use smf_reasons::grouping_text;
use smf_state::View;
use smf_value::Group;
use smf_wire::{Message, Order, ViewChanges, What};
use smf_world::Item;
use std::alloc::{AllocError, Global};

/// On what evidence instances were started and stopped last, as a node told it by its messages and its trail.
#[derive(Drop)]
pub struct Provenance {
    alloc: Global,
    blocks: Vec<Block>,
    /// Whether something was noted since the text was taken last.
    is_new: bool,
    /// The view that the messages have led to, once one was shown.
    scene: Option<Scene>,
    /// So many messages were looked at.
    seen: usize,
    /// The last start of each instance that was ordered.
    ordered: Vec<StartEvidence>,
}

// ---- the lines of a start

fn restart_text(restart_on: RestartOn) -> &'static str {
    match restart_on {
        RestartOn::Nothing => "none",
        RestartOn::Error => "error",
        RestartOn::Restart => "restart",
        RestartOn::Refresh => "refresh",
    }
}

fn put_number(text: &mut String, alloc: Global, number: u64) -> Result<(), AllocError> {
    let number = format!(in alloc; "{number}")?;
    text.push_str(number.as_str())
}

fn put_cited(text: &mut String, alloc: Global, cited: &Cited) -> Result<(), AllocError> {
    text.push_str(cited.name.print())?;
    text.push_str(" is ")?;
    text.push_str(cited.state.text())?;
    if cited.since == 0 {
        return Ok(());
    }
    text.push_str(" since revision ")?;
    put_number(text, alloc, cited.since)
}

fn put_all_cited(text: &mut String, alloc: Global, all: &[Cited]) -> Result<(), AllocError> {
    if all.is_empty() {
        return text.push_str("it cites nothing that is there");
    }
    let mut is_first = true;
    for cited in all {
        if !is_first {
            text.push_str(", ")?;
        }
        put_cited(text, alloc, cited)?;
        is_first = false;
    }
    Ok(())
}

fn put_group(text: &mut String, alloc: Global, group: &GroupEvidence) -> Result<(), AllocError> {
    match &group.group {
        None => text.push_str("  Its restarter")?,
        Some(name) => {
            text.push_str("  Group ")?;
            text.push_str(name.as_str())?;
            text.push_str(" (")?;
            text.push_str(grouping_text(group.grouping))?;
            text.push_str(")")?;
        }
    }
    text.push_str(if group.is_met { " met: " } else { " not met: " })?;
    put_all_cited(text, alloc, group.cited.as_slice())?;
    text.push_str(".\n")
}

fn enabled_text(by: Option<EnabledBy>) -> &'static str {
    match by {
        None => "  Enabled.\n",
        Some(EnabledBy::Override) => "  Enabled (general_ovr/enabled of the instance).\n",
        Some(EnabledBy::Own) => "  Enabled (general/enabled of the instance).\n",
        Some(EnabledBy::OfService) => "  Enabled (general/enabled of the service).\n",
    }
}

fn put_command(
    text: &mut String,
    alloc: Global,
    evidence: &StartEvidence,
) -> Result<(), AllocError> {
    text.push_str("  Command: ")?;
    text.push_str(evidence.command.as_str())?;
    if let Some(snapshot) = evidence.snapshot {
        text.push_str(" (snapshot ")?;
        put_number(text, alloc, snapshot)?;
        text.push_str(")")?;
    }
    text.push_str("\n")
}

/// The first line: the revision, the run, and the contract, which a built-in has none of.
fn put_begun(text: &mut String, alloc: Global, item: &Item) -> Result<(), AllocError> {
    let Item::Spawned {
        contract,
        run,
        revision,
        ..
    } = item
    else {
        return Ok(());
    };
    text.push_str(STARTED)?;
    text.push_str(": decided on revision ")?;
    put_number(text, alloc, *revision)?;
    text.push_str(" (run ")?;
    put_number(text, alloc, *run)?;
    if *contract != 0 {
        text.push_str(", contract ")?;
        put_number(text, alloc, *contract)?;
    }
    text.push_str(").\n")
}

fn start_lines(
    alloc: Global,
    evidence: &StartEvidence,
    item: &Item,
    by: Option<EnabledBy>,
) -> Result<String, AllocError> {
    let mut text = String::new(alloc);
    put_begun(&mut text, alloc, item)?;
    text.push_str(enabled_text(by))?;
    for group in evidence.groups.as_slice() {
        put_group(&mut text, alloc, group)?;
    }
    put_command(&mut text, alloc, evidence)?;
    Ok(text)
}

// ---- the lines of an order to stop

fn ask_text(ask: Ask) -> &'static str {
    match ask {
        Ask::MaintenanceNow => "  A mark for maintenance, at once.\n",
        Ask::Maintenance => "  A mark for maintenance.\n",
        Ask::Failed => "  Its contract ended by an error.\n",
        Ask::Exited => "  Its contract ended.\n",
        Ask::Restart => "  A request for a restart.\n",
    }
}

fn event_text(kind: EventKind) -> &'static str {
    match kind {
        EventKind::ErrorStop => " failed",
        EventKind::OtherStop => " stopped",
        EventKind::Refreshed => " was refreshed",
        EventKind::Started => " started",
    }
}

fn put_event(text: &mut String, alloc: Global, event: &StopEvent) -> Result<(), AllocError> {
    text.push_str(event.name.print())?;
    text.push_str(event_text(event.kind))?;
    text.push_str(" on revision ")?;
    put_number(text, alloc, event.revision)
}

fn put_stop(text: &mut String, alloc: Global, stop: &GroupStop) -> Result<(), AllocError> {
    text.push_str("  Group ")?;
    text.push_str(stop.group.as_str())?;
    text.push_str(" (")?;
    text.push_str(grouping_text(stop.grouping))?;
    text.push_str(", restart_on ")?;
    text.push_str(restart_text(stop.restart_on))?;
    text.push_str("): ")?;
    let mut is_first = true;
    for event in stop.events.as_slice() {
        if !is_first {
            text.push_str(", ")?;
        }
        put_event(text, alloc, event)?;
        is_first = false;
    }
    text.push_str(".\n")
}

/// The lines that tell why an instance stopped, if they are known and the event is a stop.
fn lines_before<'b>(blocks: &'b [Block], event: &StopEvent) -> Option<&'b str> {
    match event.kind {
        EventKind::Refreshed => None,
        EventKind::Started => None,
        EventKind::ErrorStop => stop_before(blocks, event),
        EventKind::OtherStop => stop_before(blocks, event),
    }
}

fn stop_before<'b>(blocks: &'b [Block], event: &StopEvent) -> Option<&'b str> {
    for block in blocks {
        if block.name == event.name {
            return block.stop_before(event.revision);
        }
    }
    None
}

/// Puts below the line of a group why the instances stopped by whose stops it stops another.
fn put_chains(
    text: &mut String,
    told: &mut Told,
    blocks: &[Block],
    stop: &GroupStop,
) -> Result<(), AllocError> {
    let events = stop.events.as_slice();
    let are_several = events.len() > 1;
    for event in events {
        if let Some(lines) = lines_before(blocks, event) {
            told.put_stop(text, event.name.print(), lines, are_several)?;
        }
    }
    Ok(())
}

fn put_reason(
    text: &mut String,
    alloc: Global,
    blocks: &[Block],
    evidence: &StopEvidence,
) -> Result<(), AllocError> {
    match &evidence.reason {
        StopReason::Asked(ask) => text.push_str(ask_text(*ask)),
        StopReason::NotEnabled => text.push_str("  Not enabled.\n"),
        StopReason::Faulty => text.push_str("  Its configuration has a fault.\n"),
        StopReason::Groups(stops) => {
            let mut told = Told::of(alloc, evidence.name.print())?;
            for stop in stops.as_slice() {
                put_stop(text, alloc, stop)?;
                put_chains(text, &mut told, blocks, stop)?;
            }
            Ok(())
        }
    }
}

/// The lines of an order to stop, over those that tell of the stops before it.
fn stop_lines(
    alloc: Global,
    blocks: &[Block],
    evidence: &StopEvidence,
) -> Result<String, AllocError> {
    let mut text = String::new(alloc);
    text.push_str(STOPPED)?;
    text.push_str(": decided on revision ")?;
    put_number(&mut text, alloc, evidence.revision)?;
    text.push_str(", to ")?;
    text.push_str(evidence.to.text())?;
    text.push_str(", cause ")?;
    text.push_str(evidence.cause.text())?;
    text.push_str(".\n")?;
    put_reason(&mut text, alloc, blocks, evidence)?;
    Ok(text)
}

// ---- what enables an instance

fn entry_of<J: Journal>(repository: &Plain<J>, instance: u64) -> Option<&InstanceEntry> {
    repository
        .entries()
        .iter()
        .find(|entry| entry.instance.number.get() == instance)
}

/// The group `general` of the service of an instance.
fn services_general<'b, J: Journal>(
    repository: &'b Plain<J>,
    name: &InstanceFmri,
) -> Option<&'b Group> {
    let text = name.as_fmri().service_text();
    let service = repository
        .services()
        .iter()
        .find(|service| service.name.print() == text)?;
    service.groups.get_text("general")
}

/// The property that enables an instance now.
fn enabling<J: Journal>(repository: &Plain<J>, instance: u64) -> Option<EnabledBy> {
    let entry = entry_of(repository, instance)?;
    enabled_by(
        entry.groups.get_text("general_ovr"),
        entry.groups.get_text("general"),
        services_general(repository, &entry.instance.name),
    )
}

// ---- what happens

impl Provenance {
    fn over(alloc: Global, blocks: Vec<Block>) -> Provenance {
        Provenance {
            alloc,
            blocks,
            is_new: false,
            scene: None,
            seen: 0,
            ordered: Vec::new(alloc),
        }
    }

    /// Nothing was told yet.
    pub fn new(alloc: Global) -> Provenance {
        Provenance::over(alloc, Vec::new(alloc))
    }

    /// What a text tells, which was taken from another one.
    pub(crate) fn older(alloc: Global, text: &str) -> Result<Provenance, AllocError> {
        Ok(Provenance::over(alloc, blocks_in(alloc, text)?))
    }

    /// Takes a view that was shown, unless it is older than the one that is held.
    fn take_view(&mut self, view: &View) -> Result<(), AllocError> {
        if let Some(scene) = &self.scene {
            if view.revision <= scene.revision() {
                return Ok(());
            }
        }
        self.scene = Some(Scene::of(self.alloc, view.clone()?)?);
        Ok(())
    }

    /// Takes changes. If memory runs out, no view is held any more.
    fn take_changes(&mut self, changes: &ViewChanges) -> Result<(), AllocError> {
        match self.scene.take() {
            None => Ok(()),
            Some(scene) => {
                self.scene = Some(scene.after(self.alloc, changes)?);
                Ok(())
            }
        }
    }

    /// Keeps on what a start was ordered, until it is begun.
    fn note_start(&mut self, order: &Order) -> Result<(), AllocError> {
        let Some(scene) = &self.scene else {
            return Ok(());
        };
        let evidence = start_evidence(self.alloc, scene, order.instance, order.revision)?;
        match evidence {
            None => Ok(()),
            Some(evidence) => {
                let instance = evidence.instance;
                self.ordered.retain(|other| other.instance != instance);
                self.ordered.push(evidence)?;
                Ok(())
            }
        }
    }

    fn note_stop(&mut self, order: &Order) -> Result<(), AllocError> {
        let alloc = self.alloc;
        let Some(scene) = &self.scene else {
            return Ok(());
        };
        match stop_evidence(alloc, scene, order)? {
            None => Ok(()),
            Some(evidence) => {
                let lines = stop_lines(alloc, &self.blocks, &evidence)?;
                self.is_new = true;
                put_part(
                    &mut self.blocks,
                    alloc,
                    &evidence.name,
                    Kind::Stopped,
                    lines,
                )
            }
        }
    }

    fn take_message(&mut self, message: &Message) -> Result<(), AllocError> {
        match message {
            Message::View(view) => self.take_view(view),
            Message::Changes(changes) => self.take_changes(changes),
            Message::Order(order) => match &order.what {
                What::Start { .. } => self.note_start(order),
                What::Stop { .. } => self.note_stop(order),
                _ => Ok(()),
            },
            _ => Ok(()),
        }
    }

    /// Notes a start that was begun, with what enabled the instance, if that is known.
    fn note_start_of(&mut self, item: &Item, by: Option<EnabledBy>) -> Result<(), AllocError> {
        let alloc = self.alloc;
        match self.ordered.iter().find(|evidence| evidence.is_of(item)) {
            None => Ok(()),
            Some(evidence) => {
                let lines = start_lines(alloc, evidence, item, by)?;
                self.is_new = true;
                put_part(
                    &mut self.blocks,
                    alloc,
                    &evidence.name,
                    Kind::Started,
                    lines,
                )
            }
        }
    }

    /// Notes a start that was begun just now.
    fn note_item<J: Journal>(&mut self, item: &Item, node: &Node<J>) -> Result<(), AllocError> {
        let by = match self.ordered.iter().find(|evidence| evidence.is_of(item)) {
            None => return Ok(()),
            Some(evidence) => enabling(node.repository(), evidence.instance),
        };
        self.note_start_of(item, by)
    }

    /// Notes the start of an order, if it was begun.
    fn note_begun(&mut self, order: &Order, trail: &[Item]) -> Result<(), AllocError> {
        for item in trail {
            match item {
                Item::Spawned { instance, .. } if *instance == order.instance => {
                    self.note_start_of(item, None)?;
                }
                _ => {}
            }
        }
        Ok(())
    }

    /// Looks at the messages and the items that are new. After a node has forgotten its past all are.
    pub(crate) fn follow<J: Journal>(
        &mut self,
        items: &[Item],
        node: &Node<J>,
    ) -> Result<(), AllocError> {
        let messages = node.messages();
        if items.len() == node.trail().len() || messages.len() < self.seen {
            self.seen = 0;
        }
        let seen = self.seen;
        self.seen = messages.len();
        for message in messages.iter().skip(seen) {
            self.take_message(message)?;
        }
        for item in items {
            self.note_item(item, node)?;
        }
        Ok(())
    }

    /// Looks at all that a node has told since it was made: each start is noted before what was ordered after it.
    pub fn follow_whole<J: Journal>(&mut self, node: &Node<J>) -> Result<(), AllocError> {
        for message in node.messages() {
            self.take_message(message)?;
            if let Message::Order(order) = message {
                if let What::Start { .. } = &order.what {
                    self.note_begun(order, node.trail())?;
                }
            }
        }
        Ok(())
    }

    /// Puts the block of an instance, or a line that says that it has not started, and an empty line.
    pub fn put_block(&self, text: &mut String, name: &InstanceFmri) -> Result<(), AllocError> {
        for block in &self.blocks {
            if block.name == *name {
                return block.put_to(text);
            }
        }
        text.push_str(name.print())?;
        text.push_str(" has not started\n\n")
    }

    /// Whether something was noted since the text was taken last.
    pub(crate) fn is_new(&self) -> bool {
        self.is_new
    }

    /// Of so many instances something is told.
    pub(crate) fn count(&self) -> usize {
        self.blocks.len()
    }

    /// The blocks of the instances that are there. Those of others are dropped.
    pub(crate) fn take_text<J: Journal>(&mut self, node: &Node<J>) -> Result<String, AllocError> {
        let repository = node.repository();
        self.blocks
            .retain(|block| repository.number_of(&block.name).is_some());
        let text = text_of(self.alloc, &self.blocks)?;
        self.is_new = false;
        Ok(text)
    }
}
