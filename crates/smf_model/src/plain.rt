ghost use Rattle.std.specs.Prelude.{◌≡◌, ◌⊎◌, ◌<◌, [], IfOk, IfErr, OnOk, true, OnErr, is_some, length, option_map};
ghost use Rattle.std.specs.Option.{option_copied};
ghost use Rattle.smf_model.specs.Journals.{IsRevised, IsTold, IsUntold, IsUnwritten, LeavesOldOr};
ghost use Rattle.smf_model.specs.Journals.{LeavesOldOrTold, LeavesOnly};
ghost use Rattle.smf_model.specs.Copied.{holdings_as_read};
ghost use Rattle.smf_model.specs.Laws.{IsNumbered, is_refusal};
ghost use Rattle.smf_model.specs.Look.{empty, groups_of, holdings_after_changes, instance, launch_of, instance_by_name, service, snapshot};
ghost use Rattle.smf_model.specs.Next.{outcome_of_command, current_instance, may_not_boot, next};
ghost use Rattle.smf_model.specs.GeneralGroup.{is_instance_enabled, owner_by, setting};
ghost use Rattle.smf_model.specs.Shown.{all_read, children, composed_groups, rows, rows_of};
ghost use Rattle.smf_model.specs.Shown.{shown_groups, snapshot_number, snapshots_of, view, view_item};
ghost use Rattle.smf_model.specs.Tables.{held_in};

use crate::change::{Change, Outcome};
use crate::command::{Command, CommandReply};
use crate::held::{Instance, InstanceEntry, InstanceName, Owner, Service, Snapshot};
use crate::journal::{Journal, RepoFault};
use crate::planner::Planner;
use crate::tables::{Lists, Tables, install, reserve};
use smf_fmri::{InstanceFmri, Items, Number, Ordered, ServiceFmri, Table};
use smf_snap::SnapshotName;
use smf_state::{View, ViewItem};
use smf_value::Group;
use std::alloc::{AllocError, Global};
use std::marker::Model;

/// The repository in lists, over a journal in which what is held stands. Numbers were given once in what is held.
#[derive(Drop)]
pub struct Plain<J: Journal> {
    alloc: Global,
    tables: Tables,
    journal: J,
}

impl<J: Journal> Model for Plain<J> {
    ghost use Rattle.smf_model.specs.Laws.{IsNumbered};
    ghost use Rattle.smf_model.specs.Whole.{Whole};

    ghost Value = { Whole J };

    ghost view = { λ r. record { held = r.tables; journal = r.journal } };

    ghost invariant = { λ r. J.stands r.journal r.tables × IsNumbered r.tables };
}

impl<J: Journal> Plain<J> {
    /// The repository of a value, over a journal in which the value stands.
    pub fn over(alloc: Global, tables: Tables, journal: J) -> Plain<J>
        requires stands { J.stands journal tables }
        requires numbered { IsNumbered tables }
        ensures held { result.held ≡ tables }
        ensures journal { result.journal ≡ journal }
    {
        Plain {
            alloc,
            tables,
            journal,
        }
    }

    /// Nothing held, over a journal in which nothing stands.
    pub fn new(alloc: Global, journal: J) -> Plain<J>
        requires { J.stands journal empty }
        ensures held { result.held ≡ empty }
        ensures journal { result.journal ≡ journal }
    {
        Plain {
            alloc,
            tables: Tables::new(alloc),
            journal,
        }
    }

    /// The journal, in which what is held stands. If it is sound, a crash at this moment leaves just that.
    pub fn journal(&self) -> &J
        ensures same { result.now ≡ self.now.journal }
        ensures stands { J.stands result.now self.now.held }
        ensures settled { J.is_sound result.now → LeavesOnly J.could result.now self.now.held }
    {
        &self.journal
    }

    /// The journal, in which what was held stands.
    pub fn into_journal(self) -> J
        ensures same { result ≡ self.journal }
        ensures stands { J.stands result self.held }
    {
        self.journal
    }

    /// The held value, to be planned over and read.
    fn planner(&self) -> Planner<'_>
        ensures { result ≡ self.now.held }
    {
        Planner::over(self.alloc, &self.tables)
    }

    /// True if a boot is refused, because a launch or a row has no next number.
    pub fn may_not_boot(&self) -> bool
        ensures { result ≡ may_not_boot self.now.held }
    {
        self.planner().may_not_boot()
    }

    /// Plans a command: its changes, and its reply. This changes nothing itself.
    pub fn outcome_of_command(&self, command: &Command) -> Result<Outcome, AllocError>
        ensures exact { IfOk result (λ r. r ≡ outcome_of_command self.now.held command.now) }
        ensures refused { IfOk result (λ r. is_refusal r.reply ≡ true → r.changes ≡ []) }
        ensures numbered { IfOk result (λ r. IsNumbered (holdings_after_changes self.now.held r.changes)) }
        ensures stands { J.stands self.now.journal self.now.held }
    {
        let outcome = Planner::over(self.alloc, &self.tables).outcome_of_command(command)?;
        Ok(outcome)
    }

    /// Makes changes: the journal is written first, and an error leaves what is held. If there are no changes, the
    /// journal is not called.
    pub fn commit(&mut self, changes: Items<Change>) -> Result<(), RepoFault>
        requires { IsNumbered (holdings_after_changes self.old.held changes) }
        ensures ok { OnOk result (self.new.held ≡ holdings_after_changes self.old.held changes) }
        ensures err { OnErr result (self.new.held ≡ self.old.held) }
        ensures trusted { J.is_clean self.new.journal → J.is_clean self.old.journal }
        ensures sound { OnOk result (0 < length changes → J.is_clean self.new.journal → J.is_sound self.new.journal) }
        ensures stands { J.stands self.new.journal self.new.held }
        ensures crash { LeavesOldOr J.could self.old.journal self.new.journal
            (holdings_after_changes self.old.held changes) }
        ensures settled { J.is_sound self.new.journal → LeavesOnly J.could self.new.journal self.new.held }
        ensures fault { IfErr result (IsUnwritten J.write_fails changes) }
    {
        let tables = &mut self.tables;
        commit(&mut self.journal, &mut tables.lists, changes.into_vec())
    }

    /// Carries out a command: what it asks for, and then the changes.
    #[tactic(auto, unfolding(crate::specs::Next::next))]
    pub fn apply(&mut self, command: &Command) -> Result<CommandReply, RepoFault>
        ensures exact { IfOk result (λ reply. next self.old.held command.now ≡ (self.new.held, reply)) }
        ensures err { OnErr result (self.new.held ≡ self.old.held) }
        ensures trusted { J.is_clean self.new.journal → J.is_clean self.old.journal }
        ensures sound { IsRevised self.old.held self.new.held → J.is_clean self.new.journal
            → J.is_sound self.new.journal }
        ensures stands { J.stands self.new.journal self.new.held }
        ensures crash { LeavesOldOr J.could self.old.journal self.new.journal (next self.old.held command.now).0 }
        ensures settled { J.is_sound self.new.journal → LeavesOnly J.could self.new.journal self.new.held }
        ensures fault { IfErr result (λ fault. (fault ≡ RepoFault.Memory) ⊎ J.write_fails fault) }
    {
        let Outcome { changes, reply } = self.outcome_of_command(command)?;
        self.commit(changes)?;
        Ok(reply)
    }

    /// The instance of a number, its owner as it is read now.
    pub fn instance(&self, number: u64) -> Result<Option<Instance>, AllocError>
        ensures { IfOk result (λ i. i ≡ current_instance self.now.held number) }
    {
        self.planner().current_instance(number)
    }

    /// The instances as they are stored, with their groups, in number order.
    pub fn entries(&self) -> &[InstanceEntry]
        ensures { result.now ≡ self.now.held.instances }
    {
        self.tables.entries()
    }

    /// All instances in number order, their owners as they are read now.
    pub fn instances(&self) -> Result<Items<Instance>, AllocError>
        ensures { IfOk result (λ all. all ≡ all_read self.now.held) }
    {
        let all = self.planner().all_read()?;
        Ok(Items::from_vec(all))
    }

    /// The names of instances with their numbers, by name.
    pub fn names(&self) -> &Table<InstanceName>
        ensures { result.now.items ≡ self.now.held.names }
    {
        self.tables.names()
    }

    /// The services with their groups, by name.
    pub fn services(&self) -> &[Service]
        ensures { result.now ≡ self.now.held.services }
    {
        self.tables.services()
    }

    /// The restarter that `general/restarter` of an instance names, or svc.startd if it names none.
    pub fn owner_set(&self, instance: &Instance) -> Result<InstanceFmri, AllocError>
        ensures { IfOk result (λ name. name ≡ owner_by (setting (groups_of self.now.held) instance.now)) }
    {
        self.planner().owner_set(instance)
    }

    /// The instances that a restarter runs, in number order.
    pub fn rows_of(&self, restarter: &InstanceFmri) -> Result<Items<Instance>, AllocError>
        ensures { IfOk result (λ all. all ≡ rows_of self.now.held restarter.now) }
    {
        self.planner().rows_of(restarter)
    }

    /// The instances of a service, in number order.
    pub fn children(&self, service: &ServiceFmri) -> Result<Items<Instance>, AllocError>
        ensures { IfOk result (λ all. all ≡ children self.now.held service.now) }
    {
        self.planner().children(service)
    }

    /// The groups of an owner in the order of their names; an instance's `restarter` is made from its row.
    pub fn groups(&self, owner: &Owner) -> Result<Ordered<Group>, AllocError>
        ensures { IfOk result (λ gs. gs ≡ shown_groups self.now.held owner.now) }
    {
        self.planner().shown_groups(owner)
    }

    /// The groups that the instance of a number has, by name: its own, else those of its service, each as a whole.
    pub fn composed_groups(&self, number: u64) -> Result<Option<Ordered<Group>>, AllocError>
        ensures { IfOk result (λ gs. gs ≡ composed_groups self.now.held number) }
    {
        self.planner().composed_groups(number)
    }

    /// The instances as svc.startd's graph sees them, but for the bytes of snapshots.
    pub fn rows(&self) -> Result<Items<ViewItem>, AllocError>
        ensures { IfOk result (λ all. all ≡ rows self.now.held) }
    {
        self.planner().rows()
    }

    pub fn has_service(&self, name: &ServiceFmri) -> bool
        ensures { result ≡ is_some (service self.now.held name.now) }
    {
        self.tables.service(name).is_some()
    }

    /// The row number of an instance, if it is there.
    pub fn row_number(&self, number: u64) -> Option<u64>
        ensures { result ≡ option_map (λ i. i.row.number) (instance self.now.held number) }
    {
        match self.tables.instance(number) {
            None => None,
            Some(instance) => Some(instance.row.number),
        }
    }

    /// How often a restarter was launched.
    pub fn launch_of(&self, restarter: &InstanceFmri) -> u64
        ensures { result ≡ launch_of self.now.held restarter.now }
    {
        self.tables.launch_of(restarter)
    }

    /// The number of the instance of a name.
    pub fn number_of(&self, name: &InstanceFmri) -> Option<Number>
        ensures { result ≡ option_map (λ i. i.number) (instance_by_name self.now.held name.now) }
    {
        match self.tables.instance_by_name(name) {
            None => None,
            Some(instance) => Some(instance.number),
        }
    }

    pub fn snapshot(&self, number: u64) -> Option<&Snapshot>
        ensures { option_copied result ≡ snapshot self.now.held number }
    {
        match self.tables.snapshot(number) {
            None => None,
            Some(stored) => Some(stored.snapshot()),
        }
    }

    /// The names of the snapshots that an instance has, in byte order; none if there is no such instance.
    pub fn snapshots(&self, instance: u64) -> Result<Option<Items<SnapshotName>>, AllocError>
        ensures { IfOk result (λ all. all ≡ snapshots_of self.now.held instance) }
    {
        self.planner().snapshots_of(instance)
    }

    /// Which snapshot a name means of an instance.
    pub fn snapshot_number(&self, instance: u64, name: SnapshotName) -> Option<u64>
        ensures { result ≡ snapshot_number self.now.held instance name }
    {
        self.planner().snapshot_number(instance, name)
    }

    /// The repository as svc.startd's graph sees it.
    pub fn view(&self) -> Result<View, AllocError>
        ensures { IfOk result (λ v. v ≡ view self.now.held) }
    {
        self.planner().view()
    }

    /// The item of svc.startd's graph of one instance.
    pub fn view_item(&self, number: u64) -> Result<Option<ViewItem>, AllocError>
        ensures { IfOk result (λ i. i ≡ option_map (view_item self.now.held) (instance self.now.held number)) }
    {
        self.planner().item_of(number)
    }

    /// Says what is known of every repository, and does nothing else.
    pub fn see_standing(&self)
        ensures stands { J.stands self.now.journal self.now.held }
        ensures numbered { IsNumbered self.now.held }
    {
        let _tables = &self.tables;
    }

    /// True if an instance that is there is enabled.
    pub fn is_enabled(&self, instance: &Instance) -> Result<bool, AllocError>
        ensures { IfOk result (λ b. b ≡ is_instance_enabled (groups_of self.now.held) instance.now) }
    {
        self.planner().is_instance_enabled(instance)
    }

    /// All that is held, each instance as it is read.
    pub fn copy(&self) -> Result<Tables, AllocError>
        ensures { IfOk result (λ t. t ≡ holdings_as_read self.now.held) }
    {
        self.planner().holdings_as_read()
    }

    /// All that is held as it is stored, which a history begins with.
    pub fn tables_as_stored(&self) -> Result<Tables, AllocError>
        ensures exact { IfOk result (λ t. t ≡ self.now.held) }
        ensures numbered { IsNumbered self.now.held }
    {
        self.tables.clone()
    }

    /// How many commands were accepted.
    pub fn revision(&self) -> Number
        ensures { result ≡ self.now.held.revision }
    {
        self.tables.revision()
    }
}

/// Writes the changes to the journal, and then makes them.
#[tactic(auto, unfolding(crate::specs::Look::holdings_after_changes))]
fn commit<J: Journal>(
    journal: &mut J,
    lists: &mut Lists,
    changes: Vec<Change>,
) -> Result<(), RepoFault>
    ensures ok { OnOk result (held_in lists.new ≡ holdings_after_changes (held_in lists.old) changes.items) }
    ensures err { OnErr result (held_in lists.new ≡ held_in lists.old) }
    ensures trusted { J.is_clean journal.new → J.is_clean journal.old }
    ensures sound { OnOk result (0 < length changes.items → J.is_clean journal.new → J.is_sound journal.new) }
    ensures told { OnOk result (IsTold J.stands journal.old journal.new changes.items) }
    ensures untold { OnErr result (IsUntold J.stands journal.old journal.new) }
    ensures crash { LeavesOldOrTold J.stands J.could journal.old journal.new changes.items }
    ensures fault { IfErr result (IsUnwritten J.write_fails changes.items) }
{
    if changes.is_empty() {
        return Ok(());
    }
    reserve(lists, changes.len())?;
    journal.write(&changes)?;
    install(lists, changes);
    Ok(())
}
