ghost use Rattle.std.specs.List.{AllByRecursion};
ghost use Rattle.std.specs.Prelude.{◌≡◌, ℕ, IfSome, List, None, Some, true};
ghost use Rattle.smf_contract.specs.declared.event.ContractEvent.{ContractEvent as AnyContractEvent};
ghost use Rattle.smf_engine.specs.Orders.{order};
ghost use Rattle.smf_model.specs.Contents.{Holdings};
ghost use Rattle.smf_model.specs.Laws.{IsNumbered};
ghost use Rattle.smf_model.specs.Look.{empty, holdings_after_changes};
ghost use Rattle.smf_model.specs.Next.{next};
ghost use Rattle.smf_model.specs.Shown.{view};
ghost use Rattle.smf_restarter.specs.Ticks.{at_rest};
ghost use Rattle.smf_state.specs.declared.row.Row.{Row as AnyRow};
ghost use Rattle.smf_model.specs.declared.command.Command.{Command as AnyCommand};
ghost use Rattle.smf_dep.specs.declared.dependency.Dependency.{Dependency as AnyDependency};
ghost use Rattle.smf_wire.specs.Lines.{IsSpelled};
ghost use Rattle.smf_wire.specs.declared.message.Message.{Message as AnyMessage};
ghost use Rattle.smf_world.specs.declared.event.Event.{Event as AnyEvent};
ghost use Rattle.smf_world.specs.Formed.{IsFormed, IsFormedCommand};
ghost use Rattle.smf_world.specs.Happens.{happens};
ghost use Rattle.smf_world.specs.MustStop.{IsShown, IsTold};
ghost use Rattle.smf_world.specs.Reached.{CanFail, IsAlways, IsLater, IsReached};
ghost use Rattle.smf_world.specs.Runs.{run};
ghost use Rattle.smf_world.specs.Safe.{AlongTheDiagram, CommitsFollowHistory as FollowsHistory, CommittedOnce, HeldWereCommitted};
ghost use Rattle.smf_world.specs.Safe.{IsReady};
ghost use Rattle.smf_world.specs.Schedule.{Progress, deliver_next, delivered_again, is_quiet, on, report_one, turn_of_messages, waiting_count};
ghost use Rattle.smf_world.specs.Spelled.{AreFormedEvents, AreInOrder, AreSpelled, HasBodies, IsFormedEvent, IsInOrder};
ghost use Rattle.smf_world.specs.Worked.{sent_at, work_of_event};
ghost use Rattle.smf_world.specs.World.{World, initial_world};

/// The revisions in the rows of a view tell which dependencies stop an instance. A dependency stops it exactly if an
/// event that counts happened after the base. This event happened to an instance that is there and that the dependency
/// cites.
pub fn rows_tell_what_stops()
    ensures told { (h : Holdings) (cs : List AnyCommand) (d : AnyDependency) (base : ℕ) → IsTold d base h cs }
    ensures happened { (h : Holdings) (cs : List AnyCommand) (d : AnyDependency) (base : ℕ) → IsShown d base h cs }
{}

/// The commits that the trail shows are the history of the repository, whatever happens. They are the boots, and the
/// rows that are new or have another number, in number order.
pub fn commits_follow_history()
    ensures numbered { (w : World) (e : AnyEvent) → IsNumbered w.now → IsNumbered (happens w e).now }
    ensures kept { (w : World) (e : AnyEvent) → IsNumbered w.now → FollowsHistory w → FollowsHistory (happens w e) }
    ensures always { (h : Holdings) (es : List AnyEvent) → IsNumbered h → FollowsHistory (run es (initial_world h)) }
{}

/// After a boot of the value that was found, whatever happens, an instance is first uninitialized. Then it goes along
/// the diagram, one number at a time. A boot that is refused at a limit leaves the rows as they were found. The trail
/// then does not show how they began.
pub fn states_go_along_the_diagram()
    ensures along { IsAlways (λ w. AlongTheDiagram w.trail) }
    ensures once { IsAlways (λ w. CommittedOnce w.trail) }
    ensures boot_needed { CanFail (λ w. AlongTheDiagram w.trail) }
{}

/// After a boot of the value that was found, a restarter takes only rows that the repository committed before. This
/// holds whatever happens, even if restarters crash and messages come late or twice.
pub fn held_rows_were_committed()
    ensures { IsAlways (λ w. HeldWereCommitted w.trail) }
{}

/// An event changes the repository by the changes of its work, and these leave the repository numbered.
pub fn changes_keep_numbers()
    ensures kept { (w : World) (e : AnyEvent) → IsNumbered w.now
        → IsNumbered (holdings_after_changes w.now (work_of_event w e).changes) }
    ensures made { (w : World) (e : AnyEvent)
        → (happens w e).now ≡ holdings_after_changes w.now (work_of_event w e).changes }
{}

/// Each message that is ever sent has a line that is read again as that message. This holds whatever happens, even if
/// restarters crash and messages come late or twice. The types of the program must allow the value that was found and
/// the edits that clients ask for. Without this condition the same holds of each reached world, but for the bodies of a
/// view and of changes.
pub fn messages_are_spelled()
    ensures always { (h : Holdings) (es : List AnyEvent) → IsNumbered h → IsFormed h → AreFormedEvents es
        → AreSpelled (run es (initial_world h)) }
    ensures kept { (w : World) (e : AnyEvent) → IsNumbered w.now → IsFormed w.now → IsFormedEvent e → AreSpelled w
        → AreSpelled (happens w e) }
    ensures each { (w : World) (place : ℕ) (m : AnyMessage) → AreSpelled w → sent_at w place ≡ Some m → IsSpelled m }
    ensures reached { (w : World) → IsReached w → AreInOrder w }
    ensures whole { (m : AnyMessage) → IsInOrder m → HasBodies m → IsSpelled m }
    ensures place { (w : World) (place : ℕ) → IsReached w → IfSome (sent_at w place) (λ m. HasBodies m → IsSpelled m) }
{}

/// Commands that the types of the program allow leave groups that a body may hold. This holds of an empty repository,
/// and after each command and each event.
pub fn held_groups_are_formed()
    ensures first { IsFormed empty }
    ensures commands { (h : Holdings) (c : AnyCommand) → IsFormed h → IsFormedCommand c → IsFormed (next h c).0 }
    ensures events { (w : World) (e : AnyEvent) → IsNumbered w.now → IsFormed w.now → IsFormedEvent e
        → IsFormed (happens w e).now }
{}

/// A list of events makes each world that a schedule makes, apart from the turns of restarters for instances.
pub fn a_schedule_is_a_run()
    ensures event { (p : Progress) (e : AnyEvent) → IsLater p.world (on p e).world }
    ensures delivery { (p : Progress) → IsLater p.world (deliver_next p).world }
    ensures report { (e : AnyContractEvent) (p : Progress) → IsLater p.world (report_one e p).world }
    ensures again { (places : List ℕ) (p : Progress) → IsLater p.world (delivered_again places p).world }
{}

/// After three turns of deliveries no message waits, whatever was sent before them: an order brings a proposal, which
/// brings an answer, which brings nothing.
pub fn no_message_waits_after_deliveries()
    ensures { (p : Progress) → waiting_count (turn_of_messages (turn_of_messages (turn_of_messages p))) ≡ 0 }
{}

/// In a quiet world nothing is left to start: no enabled instance is offline with nothing under way, no fault, and each
/// dependency group met. Nothing is left to order, and restarters wait for nothing but methods that run.
pub fn quiet_leaves_nothing_to_do()
    ensures start { (w : World) (i : ℕ) (row : AnyRow) (command : List ℕ) → is_quiet w ≡ true
        → IsReady w.now i row command → ⊥ }
    ensures orders { (w : World) → is_quiet w ≡ true
        → AllByRecursion (λ i. order w.now.revision (view w.now).items i ≡ None) (view w.now).items }
    ensures rest { (w : World) → is_quiet w ≡ true → AllByRecursion (λ k. at_rest k ≡ true) w.restarters }
{}
