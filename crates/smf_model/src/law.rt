ghost use Rattle.std.specs.Prelude.{◌≡◌, ◌⊎◌, ◌+◌, ◌≤◌, [], ℕ, List, true};
ghost use Rattle.smf_model.specs.declared.command.Command.{Command as AnyCommand};
ghost use Rattle.smf_model.specs.declared.held.Instance.{Instance as AnyInstance};
ghost use Rattle.smf_model.specs.declared.held.Snapshot.{Snapshot as AnySnapshot};
ghost use Rattle.smf_model.specs.Dates.{EventKind, IsDated};
ghost use Rattle.smf_model.specs.Events.{IsKept, IsTold};
ghost use Rattle.smf_model.specs.History.{AreInTurn, HasValueAt, entries, history, holdings_after_commands, now};
ghost use Rattle.smf_model.specs.Contents.{Holdings};
ghost use Rattle.smf_model.specs.Laws.{GetsNextNumber, HasTheName, InstanceStaysGone};
ghost use Rattle.smf_model.specs.Laws.{IsFoundByName, IsGrantedAgain, IsNumbered, MakesRevision};
ghost use Rattle.smf_model.specs.Laws.{RowGoesOn, RowRises, SnapshotStays, SnapshotStaysGone, is_refusal};
ghost use Rattle.smf_model.specs.Look.{empty};
ghost use Rattle.smf_model.specs.Next.{outcome_of_command, next};
ghost use Rattle.smf_state.specs.declared.step.Proposal.{Proposal as AnyProposal};

/// A refusal leaves what is held, and so does a proposal that is granted again.
pub fn refusals_change_nothing()
    ensures refused { (h : Holdings) (c : AnyCommand) → is_refusal (next h c).1 ≡ true → (next h c).0 ≡ h }
    ensures changes { (h : Holdings) (c : AnyCommand) → is_refusal (outcome_of_command h c).reply ≡ true
        → (outcome_of_command h c).changes ≡ [] }
    ensures again { (h : Holdings) (p : AnyProposal) (i : AnyInstance) → IsGrantedAgain h p i }
{}

/// A command leaves what is held or makes one revision, and an accepted one makes it.
pub fn accepted_makes_one_revision()
    ensures one { (h : Holdings) (c : AnyCommand) → ((next h c).0 ≡ h) ⊎ ((next h c).0.revision ≡ h.revision + 1) }
    ensures accepted { (h : Holdings) (c : AnyCommand) → MakesRevision h c }
{}

/// Numbers of instances and of snapshots are given in order, each once.
pub fn numbers_are_given_once()
    ensures at_first { IsNumbered empty }
    ensures kept { (h : Holdings) (c : AnyCommand) → IsNumbered h → IsNumbered (next h c).0 }
    ensures instances { (h : Holdings) (c : AnyCommand) → h.next_instance ≤ (next h c).0.next_instance }
    ensures snapshots { (h : Holdings) (c : AnyCommand) → h.next_snapshot ≤ (next h c).0.next_snapshot }
    ensures instance_gone { (h : Holdings) (c : AnyCommand) (n : ℕ) → InstanceStaysGone h c n }
    ensures snapshot_gone { (h : Holdings) (c : AnyCommand) (n : ℕ) → SnapshotStaysGone h c n }
    ensures made { (h : Holdings) (service name : List ℕ) (n : ℕ) → GetsNextNumber h service name n }
{}

/// An instance is found by its name, and what a name finds has that name.
pub fn names_find_instances()
    ensures found { (h : Holdings) (n : ℕ) (i : AnyInstance) → IsNumbered h → IsFoundByName h n i }
    ensures only { (h : Holdings) (name : List ℕ) (i : AnyInstance) → IsNumbered h → HasTheName h name i }
{}

/// Neither the number of a row nor its greatest run falls.
pub fn rows_never_fall_back()
    ensures { (h : Holdings) (c : AnyCommand) (n : ℕ) (i j : AnyInstance) → IsNumbered h → RowRises h c n i j }
{}

/// A snapshot stays as it is until its instance is deleted.
pub fn snapshots_stay()
    ensures { (h : Holdings) (c : AnyCommand) (n : ℕ) (s : AnySnapshot) → SnapshotStays h c n s }
{}

/// A row goes on by a granted step along the diagram, by a boot or by a move to another restarter.
pub fn changes_follow_the_diagram()
    ensures { (h : Holdings) (c : AnyCommand) (n : ℕ) (j : AnyInstance) → IsNumbered h → RowGoesOn h c n j }
{}

/// The newest value of a history is what its commands make one after another. Each value is what its command makes of
/// the one before, under the next revision. Each revision from the first has its value.
pub fn histories_are_made_in_turn()
    ensures now { (h : Holdings) (cs : List AnyCommand) → now (history h cs) ≡ holdings_after_commands h cs }
    ensures first { (h : Holdings) (cs : List AnyCommand) → (history h cs).first ≡ h }
    ensures turn { (h : Holdings) (cs : List AnyCommand) → AreInTurn h (entries (history h cs)) }
    ensures found { (h : Holdings) (cs : List AnyCommand) (n : ℕ) → HasValueAt h cs n }
{}

/// A row keeps the revision of the last event of each kind. This revision is above a base exactly if such an event came
/// after the base. No row keeps a revision that is still to come.
pub fn revisions_tell_events()
    ensures kept { (h : Holdings) (cs : List AnyCommand) → IsNumbered h → IsDated (holdings_after_commands h cs) }
    ensures told { (h : Holdings) (cs : List AnyCommand) (k : EventKind) (n base : ℕ) (i : AnyInstance)
        → IsTold h cs k n base i }
    ensures happened { (h : Holdings) (cs : List AnyCommand) (k : EventKind) (n base : ℕ) (i : AnyInstance)
        → IsKept h cs k n base i }
{}
