ghost use Rattle.std.specs.List.{filter_map};
ghost use Rattle.std.specs.Prelude.{◌≡◌, ◌∷◌, ◌++◌, [], IfOk};
ghost use Rattle.smf_machine.specs.Given.{is_done, row_beside};
ghost use Rattle.smf_world.specs.Items.{boot_items, change_item, items_of, row_if, row_item};
ghost use Rattle.smf_world.specs.Worked.{accepted_command, work_with_boot, work_of_command, work_with_launch, launched_as, no_work, work_of_messages};

use crate::parts::System;
use smf_contract::ContractCall;
use smf_fmri::{InstanceFmri, Items};
use smf_model::{Change, Command, CommandReply, Instance, Journal, Outcome};
use smf_wire::Message;
use smf_world::{Becomes, Item, Work};
use std::alloc::{AllocError, Global};

/// Nothing is made.
pub(crate) fn no_work(alloc: Global) -> Work
    ensures { result ≡ no_work }
{
    Work {
        changes: Items::new(alloc),
        command: Items::new(alloc),
        reply: Items::new(alloc),
        items: Items::new(alloc),
        messages: Items::new(alloc),
        becomes: Items::new(alloc),
        seen: Items::new(alloc),
        patches: Items::new(alloc),
        forgets: false,
        call: ContractCall::Nothing,
    }
}

/// These messages are sent.
pub(crate) fn work_of_messages(alloc: Global, messages: Items<Message>) -> Work
    ensures { result ≡ work_of_messages messages }
{
    Work {
        changes: Items::new(alloc),
        command: Items::new(alloc),
        reply: Items::new(alloc),
        items: Items::new(alloc),
        messages,
        becomes: Items::new(alloc),
        seen: Items::new(alloc),
        patches: Items::new(alloc),
        forgets: false,
        call: ContractCall::Nothing,
    }
}

/// A list of one.
pub(crate) fn one<T: Drop>(alloc: Global, item: T) -> Result<Items<T>, AllocError>
    ensures { IfOk result (λ all. all ≡ item ∷ []) }
{
    let mut all = Items::new(alloc);
    all.push(item)?;
    Ok(all)
}

fn row_item(instance: &Instance) -> Item
    ensures { result ≡ row_item instance.now }
{
    Item::Committed {
        instance: instance.number.get(),
        number: instance.row.number,
        state: instance.row.state,
        next: instance.row.next,
    }
}

fn row_if(same: bool, instance: &Instance) -> Option<Item>
    ensures { result ≡ row_if same instance.now }
{
    if same { None } else { Some(row_item(instance)) }
}

/// The trail's item for a row that takes the place of one of this number. There is none if the number stays the same.
fn row_beside(before: Option<u64>, instance: &Instance) -> Option<Item>
    ensures { result ≡ row_beside before instance.now }
{
    match before {
        None => Some(row_item(instance)),
        Some(number) => row_if(instance.row.number == number, instance),
    }
}

fn boot_items(
    alloc: Global,
    command: &Command,
    changes: &[Change],
) -> Result<Items<Item>, AllocError>
    ensures { IfOk result (λ all. all ≡ boot_items command.now changes.now) }
{
    match command {
        Command::Boot => {
            if changes.is_empty() {
                Ok(Items::new(alloc))
            } else {
                one(alloc, Item::Boot)
            }
        }
        _ => Ok(Items::new(alloc)),
    }
}

/// A command that makes changes.
fn accepted_command(
    alloc: Global,
    command: &Command,
    changes: &[Change],
) -> Result<Items<Command>, AllocError>
    ensures { IfOk result (λ all. all ≡ accepted_command command.now changes.now) }
{
    if changes.is_empty() {
        return Ok(Items::new(alloc));
    }
    one(alloc, command.clone()?)
}

pub(crate) fn is_done(replies: &[CommandReply]) -> bool
    ensures { result ≡ is_done replies.now }
{
    matches!(replies.first(), Some(CommandReply::Done))
}

/// After an accepted boot no restarter and no contract is left, and the graph has seen nothing.
#[tactic(auto, using(crate::proofs::Given::booted_done, crate::proofs::Given::booted_else))]
pub(crate) fn work_with_boot(alloc: Global, mut work: Work) -> Result<Work, AllocError>
    ensures { IfOk result (λ k. k ≡ work_with_boot work) }
{
    if !is_done(work.reply.as_slice()) {
        return Ok(work);
    }
    work.becomes = one(alloc, Becomes::NoneLeft)?;
    work.forgets = true;
    work.call = ContractCall::Reboot;
    Ok(work)
}

impl<J: Journal> System<J> {
    #[tactic(auto, using(crate::proofs::Given::row_beside_is))]
    fn change_item(&self, change: &Change) -> Option<Item>
        ensures { result ≡ change_item self.now.now change.now }
    {
        match change {
            Change::AddInstance(entry) => Some(row_item(&entry.instance)),
            Change::PutInstance(instance) => {
                let before = self.row_number(instance.number.get());
                row_beside(before, instance)
            }
            _ => None,
        }
    }

    /// Adds the changes to the trail's items.
    fn push_items(
        &self,
        changes: &[Change],
        mut all: Items<Item>,
    ) -> Result<Items<Item>, AllocError>
        ensures { IfOk result (λ more. more ≡ all ++ filter_map (change_item self.now.now) changes.now) }
    {
        for change in changes {
            if let Some(item) = self.change_item(change) {
                all.push(item)?;
            }
        }
        Ok(all)
    }

    #[tactic(auto, unfolding(smf_world::specs::Items::items_of))]
    fn items_of(&self, command: &Command, changes: &[Change]) -> Result<Items<Item>, AllocError>
        ensures { IfOk result (λ all. all ≡ items_of self.now.now command.now changes.now) }
    {
        let all = boot_items(self.alloc, command, changes)?;
        self.push_items(changes, all)
    }

    /// A command is given to the repository.
    #[tactic(auto, unfolding(smf_world::specs::Worked::work_of_command))]
    pub(crate) fn work_of_command(&self, command: &Command) -> Result<Work, AllocError>
        ensures { IfOk result (λ k. k ≡ work_of_command self.now command.now) }
    {
        let Outcome { changes, reply } = self.command_outcome(command)?;
        let reply = one(self.alloc, reply)?;
        let items = self.items_of(command, changes.as_slice())?;
        let command = accepted_command(self.alloc, command, changes.as_slice())?;
        Ok(Work {
            changes,
            command,
            reply,
            items,
            messages: Items::new(self.alloc),
            becomes: Items::new(self.alloc),
            seen: Items::new(self.alloc),
            patches: Items::new(self.alloc),
            forgets: false,
            call: ContractCall::Nothing,
        })
    }

    /// The same of a command that is not needed any more.
    pub(crate) fn commanded_once(&self, command: Command) -> Result<Work, AllocError>
        ensures { IfOk result (λ k. k ≡ work_of_command self.now command) }
    {
        self.work_of_command(&command)
    }

    fn launched_as(
        &self,
        name: &InstanceFmri,
        replies: &[CommandReply],
    ) -> Result<Items<Becomes>, AllocError>
        ensures { IfOk result (λ all. all ≡ launched_as self.now name.now replies.now) }
    {
        match replies.first() {
            Some(CommandReply::Made(launch)) => {
                let name = name.clone()?;
                one(
                    self.alloc,
                    Becomes::Launched {
                        name,
                        actor: self.next_revision(),
                        launch: *launch,
                    },
                )
            }
            _ => Ok(Items::new(self.alloc)),
        }
    }

    /// A restarter begins if its launch was accepted.
    pub(crate) fn work_with_launch(
        &self,
        name: &InstanceFmri,
        mut work: Work,
    ) -> Result<Work, AllocError>
        ensures { IfOk result (λ k. k ≡ work_with_launch self.now name.now work) }
    {
        work.becomes = self.launched_as(name, work.reply.as_slice())?;
        Ok(work)
    }
}
