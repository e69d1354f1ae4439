ghost use Rattle.smf_model.specs.declared.command.Command.TheVariants as commands;
ghost use Rattle.smf_contract.specs.Begun.{table_of_found};
ghost use Rattle.smf_contract.specs.declared.contract.Holder.TheVariants.{Inherited};
ghost use Rattle.smf_node.specs.declared.fault.ContinueFault.TheVariants.{Foreign, Unfit};
ghost use Rattle.smf_node.specs.declared.fault.NodeFault.TheVariants.{Limit};
ghost use Rattle.smf_node.specs.FoundContracts.{are_fit, first_foreign};
ghost use Rattle.smf_node.specs.Faults.{IsUnbooted, is_limit, is_past_limit};
ghost use Rattle.smf_node.specs.Marks.{MayForget, is_told, progress_of, remaining_progress};
ghost use Rattle.smf_machine.specs.Remains.{AreRemainsOf};
ghost use Rattle.smf_machine.specs.Parts.{knowledge};
ghost use Rattle.smf_wire.specs.Grammar.{read_line};
ghost use Rattle.smf_wire.specs.Lines.{IsSpelled, line_text};
ghost use Rattle.smf_world.specs.declared.event.Event.TheVariants as events;
ghost use Rattle.smf_world.specs.Happens.{happens};
ghost use Rattle.smf_world.specs.Reached.{IsReached};
ghost use Rattle.smf_past.specs.Begun.{IsBegun, IsSafeSince};
ghost use Rattle.smf_past.specs.Lived.{continued};
ghost use Rattle.smf_world.specs.Safe.{IsSafe};
ghost use Rattle.smf_world.specs.Schedule.{begun_at};
ghost use Rattle.smf_world.specs.Spelled.{AreSpelled};
ghost use Rattle.smf_world.specs.Worked.{is_launched, restarter, sent_at};
ghost use Rattle.smf_world.specs.World.{initial_world};
ghost use Rattle.std.specs.Option.{option_copied};
ghost use Rattle.std.specs.Prelude.{◌≡◌, ℕ, length, option_map, reverse, false, true, None, Some, IfErr, IfOk, IfSome, Ok, OnOk};

use crate::fault::{ContinueFault, NodeFault};
use crate::found_contracts::{foreign_in, table_of};
use crate::marks::Marks;
use smf_contract::{ContractTable, Found};
use smf_fmri::{InstanceFmri, Number, Text};
use smf_machine::{Machine, Remains};
use smf_model::{Command, CommandReply, Journal, Plain};
use smf_restarter::Restarter;
use smf_wire::{Message, encode};
use smf_world::Item;
use std::alloc::{AllocError, Global};
use std::marker::Model;

/// The repository, svc.startd's graph, the restarters, their messages, the contracts and the trail, and a schedule by
/// which they act. Contracts see the world with the marks of the schedule. A node's world is always one that events make
/// of a beginning, which may have forgotten its past. Each message that was sent in it is read again from its line.
pub struct Node<J: Journal> {
    pub(crate) alloc: Global,
    pub(crate) machine: Machine<J>,
    pub(crate) marks: Marks,
}

/// Crates above call this, and prove nothing of the parts that go.
impl<J: Journal + Drop> Drop for Node<J> {
    fn drop(self) {
        let Node {
            alloc: _alloc,
            machine: _machine,
            marks: _marks,
        } = self;
    }
}

impl<J: Journal> Model for Node<J> {
    ghost use Rattle.smf_node.specs.Marks.{progress_of};
    ghost use Rattle.smf_world.specs.Schedule.{Progress};

    ghost Value = { Progress };

    ghost view = { λ n. progress_of n.machine n.marks };
}

/// True if a reply says that a number has no next one.
pub(crate) fn is_limit(reply: &CommandReply) -> bool
    ensures { result ≡ is_limit reply.now }
{
    matches!(reply, CommandReply::Limit)
}

/// True if a command is refused, since a number that it needs has no next one.
pub(crate) fn is_past_limit<J: Journal>(
    repository: &Plain<J>,
    command: &Command,
) -> Result<bool, AllocError>
    ensures { IfOk result (λ b. b ≡ is_past_limit repository.now.held command.now) }
{
    let outcome = repository.outcome_of_command(command)?;
    Ok(is_limit(&outcome.reply))
}

/// True if a boot is refused, since a number that it needs has no next one. The changes of the boot are not worked out.
pub(crate) fn is_past_boot<J: Journal>(repository: &Plain<J>) -> bool
    ensures { result ≡ is_past_limit repository.now.held commands.Boot }
{
    match repository.revision().next() {
        None => true,
        Some(_) => repository.may_not_boot(),
    }
}

fn sent_count<J: Journal>(machine: &Machine<J>) -> usize
    ensures { result ≡ length machine.now.sent }
{
    machine.messages().len()
}

fn event_count<J: Journal>(machine: &Machine<J>) -> usize
    ensures { result ≡ length machine.now.table.events }
{
    machine.table().events().len()
}

impl<J: Journal> Node<J> {
    /// Boots what was found. A fault hands the repository back, as it was. `Limit` if a row or a launch has no next
    /// number. `Memory` also if an owner has 2^32 groups, which no body may hold.
    pub fn new(alloc: Global, repository: Plain<J>) -> Result<Node<J>, (NodeFault, Plain<J>)>
        ensures ok { IfOk result (λ node. node ≡ begun_at (happens (initial_world repository.held) events.Boot)) }
        ensures safe { IfOk result (λ node. IsSafe node.world) }
        ensures reached { IfOk result (λ node. IsReached node.world) }
        ensures err { IfErr result (λ e. e.1.held ≡ repository.held) }
        ensures accepted { IfOk result (λ node. is_past_limit repository.held commands.Boot ≡ false) }
        ensures fault { IfErr result (λ e. IsUnbooted J.write_fails repository.held e.0) }
    {
        if is_past_boot(&repository) {
            return Err((NodeFault::Limit, repository));
        }
        match Machine::new(alloc, repository) {
            Ok(machine) => Ok(Node {
                alloc,
                machine,
                marks: Marks::new(alloc),
            }),
            Err((fault, repository)) => Err((NodeFault::from(fault), repository)),
        }
    }

    /// Goes on with what is held and with the contracts that are found, as a process left them that was killed. `last` is
    /// the last id of a contract that was given. A fault hands the repository back, as it was.
    pub fn continued(
        alloc: Global,
        repository: Plain<J>,
        last: Number,
        found: &[Found],
    ) -> Result<Node<J>, (ContinueFault, Plain<J>)>
        ensures ok { IfOk result (λ node.
            node ≡ begun_at (continued repository.held (table_of_found Inherited last found.now))) }
        ensures fit { OnOk result (are_fit 0 last found.now ≡ true) }
        ensures known { OnOk result (first_foreign repository.held found.now ≡ None) }
        ensures err { IfErr result (λ e. e.1.held ≡ repository.held) }
        ensures unfit { IfErr result (λ e. e.0 ≡ Unfit → are_fit 0 last found.now ≡ false) }
        ensures foreign { IfErr result
            (λ e. (id : ℕ) → e.0 ≡ Foreign id → first_foreign repository.held found.now ≡ Some id) }
    {
        match foreign_in(&repository, found) {
            Ok(None) => {}
            Ok(Some(id)) => return Err((ContinueFault::Foreign(id), repository)),
            Err(_) => return Err((ContinueFault::Memory, repository)),
        }
        let table = match table_of(alloc, last, found) {
            Ok(Some(table)) => table,
            Ok(None) => return Err((ContinueFault::Unfit, repository)),
            Err(_) => return Err((ContinueFault::Memory, repository)),
        };
        match Machine::continued(alloc, repository, table) {
            Ok(machine) => Ok(Node {
                alloc,
                machine,
                marks: Marks::new(alloc),
            }),
            Err((_, repository)) => Err((ContinueFault::Memory, repository)),
        }
    }

    /// True if no message waits or is still to be lost, all events of contracts were looked at, and those that nobody has
    /// heard are of contracts that have members.
    #[tactic(auto, unfolding(crate::specs::Marks::progress_of))]
    fn is_told(&self) -> bool
        ensures { result ≡ is_told self.now }
    {
        let sent = sent_count(&self.machine);
        self.marks.are_told(sent, self.machine.table())
    }

    /// What remains if the past goes. None while a message waits or is still to be lost, an event of a contract without
    /// members was not heard, or the graph has fallen behind what is held.
    #[tactic(auto, unfolding(crate::specs::Marks::progress_of))]
    pub fn remains(&self) -> Result<Option<Remains>, AllocError>
        ensures { IfOk result (λ some. IfSome some
            (λ rest. MayForget self.now × AreRemainsOf self.now.world rest)) }
    {
        if !self.is_told() {
            return Ok(None);
        }
        self.machine.remains()
    }

    /// Forgets its past: the history, the messages with their marks, and the trail; and what is over: contracts that have
    /// no members, and the runs that nobody asks for any more. This takes no memory. The children have to forget with it.
    #[tactic(auto, unfolding(crate::specs::Marks::progress_of))]
    pub fn forget(&mut self, rest: Remains)
        requires may { MayForget self.old }
        requires rest { AreRemainsOf self.old.world rest }
        ensures { self.new ≡ remaining_progress self.old }
    {
        self.machine.forget(rest);
        let looked = event_count(&self.machine);
        self.marks.forget(looked);
    }

    /// The repository, as it is now.
    #[tactic(auto, unfolding(crate::specs::Marks::progress_of))]
    pub fn repository(&self) -> &Plain<J>
        ensures { result.now.held ≡ self.now.world.now }
    {
        self.machine.repository()
    }

    /// Ends the actors, and hands back the repository as it is.
    #[tactic(auto, unfolding(crate::specs::Marks::progress_of))]
    pub fn into_repository(self) -> Plain<J>
        ensures { result.held ≡ self.world.now }
    {
        let Node {
            alloc: _alloc,
            machine,
            marks: _marks,
        } = self;
        machine.into_repository()
    }

    /// The trail of what happened, the oldest item first.
    #[tactic(auto, unfolding(crate::specs::Marks::progress_of))]
    pub fn trail(&self) -> &[Item]
        ensures shown { result.now ≡ reverse self.now.world.trail }
        ensures reached { IsBegun self.now.world }
        ensures safe { IsSafeSince self.now.world }
        // Each message that was sent is read again from its line.
        ensures spelled { AreSpelled self.now.world }
    {
        self.machine.trail()
    }

    /// All messages that were ever sent, the first first.
    #[tactic(auto, unfolding(crate::specs::Marks::progress_of))]
    pub fn messages(&self) -> &[Message]
        ensures { result.now ≡ reverse self.now.world.sent }
    {
        self.machine.messages()
    }

    /// The message at a place, counted from the oldest.
    #[tactic(auto, unfolding(crate::specs::Marks::progress_of))]
    fn message(&self, place: u64) -> Option<&Message>
        ensures { option_copied result ≡ sent_at self.now.world place }
    {
        self.machine.messages().get(place as usize)
    }

    /// The line of the message at a place, by what the message is.
    fn line_at(&self, place: u64) -> Result<Option<Text>, AllocError>
        ensures line { IfOk result (λ line. line ≡ option_map line_text (sent_at self.now.world place)) }
        ensures again { OnOk result
            (IfSome (sent_at self.now.world place) (λ m. IsSpelled m → read_line (line_text m) ≡ Ok m)) }
    {
        match self.message(place) {
            None => Ok(None),
            Some(message) => {
                let line = encode(self.alloc, message)?;
                Ok(Some(line))
            }
        }
    }

    /// The line of the message at a place, counted from the oldest, if one was sent there.
    pub fn line(&self, place: u64) -> Result<Option<Text>, AllocError>
        ensures line { IfOk result (λ line. line ≡ option_map line_text (sent_at self.now.world place)) }
        // It is read again as that message.
        ensures again { OnOk result (IfSome (sent_at self.now.world place) (λ m. read_line (line_text m) ≡ Ok m)) }
    {
        let _spelled = self.trail();
        self.line_at(place)
    }

    /// The contracts.
    #[tactic(auto, unfolding(crate::specs::Marks::progress_of))]
    pub fn table(&self) -> &ContractTable
        ensures { result.now.table ≡ self.now.world.table }
    {
        self.machine.table()
    }

    /// The launched restarter of a name.
    #[tactic(auto, unfolding(crate::specs::Marks::progress_of))]
    pub fn restarter(&self, name: &InstanceFmri) -> Option<&Restarter>
        ensures { option_map knowledge (option_copied result) ≡ restarter self.now.world name.now }
    {
        self.machine.restarter(name)
    }

    /// True if a restarter is launched.
    #[tactic(auto, unfolding(crate::specs::Marks::progress_of))]
    pub fn is_launched(&self, name: &InstanceFmri) -> bool
        ensures { result ≡ is_launched self.now.world name.now }
    {
        self.machine.restarter(name).is_some()
    }
}
