ghost use Rattle.std.specs.Prelude.{◌≡◌, ℕ, Bool, List, true, false, None, Some};
ghost use Rattle.smf_laws.specs.Additions.{IsInstanceAdded, IsInstanceDeleted, IsOfService, IsServiceAdded, IsServiceDeleted};
ghost use Rattle.smf_laws.specs.Additions.{adding_instance, adding_service, deleting_instance, deleting_service, full_name};
ghost use Rattle.smf_laws.specs.Anew.{BeginsOrStays, IsAfterRefresh, IsBootAnswer, IsBooted, IsIdle, IsToMove, refresh_command};
ghost use Rattle.smf_laws.specs.Effects.{IsEnabledForGood, IsEnabledForNow, IsOfNothing, IsReverted};
ghost use Rattle.smf_laws.specs.Effects.{AreWritten, enable_command, snapshot_of_name, revert_command, instance_as_read};
ghost use Rattle.smf_laws.specs.SingleChanges.{IsGroupAdded, IsGroupChanged, IsGroupDeleted, IsLaunchAnswer, IsLaunched, IsNoted};
ghost use Rattle.smf_laws.specs.SingleChanges.{adding_group, changing_group, clear_bit, clear_command, deleting_group, has_effect};
ghost use Rattle.smf_laws.specs.SingleChanges.{mark_bit, mark_command, restart_bit, restart_command, without_properties};
ghost use Rattle.smf_laws.specs.Refusals.{IsAnswered, IsJudged};
ghost use Rattle.smf_model.specs.declared.command.Command.{Command};
ghost use Rattle.smf_model.specs.declared.command.Command.TheVariants as commands;
ghost use Rattle.smf_model.specs.declared.command.Edit.{Edit};
ghost use Rattle.smf_model.specs.declared.command.Mark.{Mark};
ghost use Rattle.smf_model.specs.declared.command.PropertyChange.{PropertyChange};
ghost use Rattle.smf_model.specs.declared.command.CommandReply.TheVariants.{Done, InUse, Made, Stale};
ghost use Rattle.smf_model.specs.declared.held.Instance.{Instance};
ghost use Rattle.smf_model.specs.declared.held.Owner.{Owner};
ghost use Rattle.smf_model.specs.declared.held.Snapshot.{Snapshot};
ghost use Rattle.smf_model.specs.Contents.{Holdings};
ghost use Rattle.smf_model.specs.Laws.{IsNumbered};
ghost use Rattle.smf_model.specs.Look.{empty};
ghost use Rattle.smf_model.specs.Next.{next};
ghost use Rattle.smf_state.specs.declared.refusal.Why.TheVariants as whys;
ghost use Rattle.smf_state.specs.declared.step.Proposal.{Proposal};
ghost use Rattle.smf_state.specs.States.{runs};
ghost use Rattle.smf_snap.specs.declared.name.SnapshotName.{SnapshotName};

/// An instance that was enabled or disabled is so, for good or until the next boot, and nothing else is changed.
pub fn enabling_is_exact()
    ensures for_good { (h : Holdings) (n : ℕ) (b : Bool) → (next h (enable_command n b false)).1 ≡ Done
        → IsEnabledForGood h (next h (enable_command n b false)).0 n b }
    ensures for_now { (h : Holdings) (n : ℕ) (b : Bool) → (next h (enable_command n b true)).1 ≡ Done
        → IsEnabledForNow h (next h (enable_command n b true)).0 n b }
{}

/// A revert gives both owners the groups of the snapshot, and `previous` is what they had before.
pub fn reverting_brings_back()
    ensures back { (h : Holdings) (n : ℕ) (name : SnapshotName) (i : Instance) (s : Snapshot)
        → IsNumbered h → instance_as_read h n ≡ Some i → snapshot_of_name h n name ≡ Some s → (next h (revert_command n name)).1 ≡ Done
        → IsReverted i s h (next h (revert_command n name)).0 }
    ensures nothing { (h : Holdings) (n : ℕ) (name : SnapshotName)
        → IsOfNothing n name h (next h (revert_command n name)).1 }
{}

/// A refresh takes the snapshot `running`. It moves an instance for which another restarter is set, if it is idle.
pub fn refreshing_moves_what_is_idle()
    ensures done { (h : Holdings) (n : ℕ) (i : Instance) → IsNumbered h → instance_as_read h n ≡ Some i
        → (next h (refresh_command n)).1 ≡ Done → IsAfterRefresh i h (next h (refresh_command n)).0 }
    ensures in_use { (h : Holdings) (n : ℕ) (i : Instance) → instance_as_read h n ≡ Some i → IsToMove i h
        → (IsIdle i.row → ⊥)
        → (next h (refresh_command n)).1 ≡ InUse }
{}

/// A boot launches each restarter once more and lets each instance begin anew. Groups that do not outlast it are gone.
pub fn booting_begins_anew()
    ensures done { (h : Holdings) → IsNumbered h → (next h commands.Boot).1 ≡ Done
        → IsBooted h (next h commands.Boot).0 }
    ensures answer { (h : Holdings) → IsNumbered h → IsBootAnswer h (next h commands.Boot).1 }
{}

/// A row counts on by granted steps alone, or begins anew with nothing asked and no failure counted.
pub fn rows_count_or_begin_anew()
    ensures { (h : Holdings) (c : Command) (n : ℕ) (i j : Instance) → IsNumbered h → BeginsOrStays h c n i j }
{}

/// A service and an instance that were added are there under their names, which were free.
pub fn what_is_added_is_found()
    ensures service { (h : Holdings) (name : List ℕ) → (next h (adding_service name)).1 ≡ Done
        → IsServiceAdded name h (next h (adding_service name)).0 }
    ensures instance { (h : Holdings) (service name : List ℕ) (n : ℕ)
        → (next h (adding_instance service name)).1 ≡ Made n
        → IsOfService h service × IsInstanceAdded (full_name service name) n h (next h (adding_instance service name)).0 }
{}

/// A service that was deleted had no instance. An instance that was deleted ran nothing, and its snapshots are gone.
pub fn what_is_deleted_is_gone()
    ensures service { (h : Holdings) (name : List ℕ) → (next h (deleting_service name)).1 ≡ Done
        → IsServiceDeleted name h (next h (deleting_service name)).0 }
    ensures instance { (h : Holdings) (n : ℕ) (i : Instance) → instance_as_read h n ≡ Some i
        → (next h (deleting_instance n)).1 ≡ Done
        → IsInstanceDeleted n i h (next h (deleting_instance n)).0 }
{}

/// A restart, a clear and a mark are noted among the asks of the instance, if they have an effect, and change no more.
pub fn asks_are_noted()
    ensures restart { (h : Holdings) (n : ℕ) (i : Instance) → instance_as_read h n ≡ Some i
        → (next h (restart_command n)).1 ≡ Done
        → IsNoted (runs i.row.state) restart_bit i h (next h (restart_command n)).0 }
    ensures clear { (h : Holdings) (n : ℕ) (i : Instance) → instance_as_read h n ≡ Some i
        → (next h (clear_command n)).1 ≡ Done
        → IsNoted true clear_bit i h (next h (clear_command n)).0 }
    ensures mark { (h : Holdings) (n : ℕ) (mark : Mark) (i : Instance) → instance_as_read h n ≡ Some i
        → (next h (mark_command n mark)).1 ≡ Done
        → IsNoted (has_effect mark i.row) (mark_bit mark) i h (next h (mark_command n mark)).0 }
{}

/// A launch gets the number after the last one of its restarter, and changes no other.
pub fn launches_are_counted()
    ensures made { (h : Holdings) (name : List ℕ) (n : ℕ) → (next h (commands.Launch name)).1 ≡ Made n
        → IsLaunched name n h (next h (commands.Launch name)).0 }
    ensures answer { (h : Holdings) (name : List ℕ) → IsLaunchAnswer name h (next h (commands.Launch name)).1 }
{}

/// An edit of a group changes that group of that owner alone.
pub fn groups_are_edited_alone()
    ensures added { (h : Holdings) (owner : Owner) (name group_type : List ℕ) (p : Bool)
        → (next h (adding_group owner name group_type p)).1 ≡ Done
        → IsGroupAdded owner (without_properties name group_type p) h (next h (adding_group owner name group_type p)).0 }
    ensures deleted { (h : Holdings) (owner : Owner) (name : List ℕ) → (next h (deleting_group owner name)).1 ≡ Done
        → IsGroupDeleted owner name h (next h (deleting_group owner name)).0 }
    ensures changed { (h : Holdings) (owner : Owner) (name : List ℕ) (change : PropertyChange)
        → (next h (changing_group owner name change)).1 ≡ Done
        → IsGroupChanged owner name change h (next h (changing_group owner name change)).0 }
{}

/// A proposal is refused for the first reason that holds, and granted if none does.
pub fn proposals_are_judged_in_order()
    ensures no_such { (h : Holdings) (p : Proposal) → instance_as_read h p.instance ≡ None
        → (next h (commands.Propose p)).1 ≡ Stale whys.NoSuch None }
    ensures order { (h : Holdings) (p : Proposal) (i : Instance) → instance_as_read h p.instance ≡ Some i
        → IsJudged h p i.row (next h (commands.Propose p)).1 }
{}

/// An edit is refused for the first reason that holds. The repository looks first for a missing object, then for a
/// conflict, then for values that are not allowed, and last for a limit.
pub fn edits_are_answered_in_order()
    ensures { (h : Holdings) (e : Edit) → IsAnswered h e (next h (commands.Edit e)).1 }
{}

/// The command that changes which restarter an instance has writes it into the row, while the row has number 0.
pub fn owners_are_written()
    ensures first { AreWritten empty }
    ensures kept { (h : Holdings) (c : Command) → IsNumbered h → AreWritten h → AreWritten (next h c).0 }
{}
