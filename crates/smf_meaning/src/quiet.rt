ghost use Rattle.std.specs.List.{AllByRecursion};
ghost use Rattle.std.specs.Prelude.{◌≡◌, List, None, true, not};
ghost use Rattle.smf_state.specs.declared.view.View.{View as AnyView};
ghost use Rattle.smf_dep.specs.declared.member.GraphMember.{GraphMember as AnyMember};
ghost use Rattle.smf_dep.specs.Cycles.{IsAmong};
ghost use Rattle.smf_dep.specs.Members.{members};
ghost use Rattle.smf_dep.specs.Verdicts.{is_parked, is_running};
ghost use Rattle.smf_engine.specs.Orders.{has_no_orders};
ghost use Rattle.smf_model.specs.Shown.{view};
ghost use Rattle.smf_world.specs.Schedule.{is_quiet};
ghost use Rattle.smf_world.specs.World.{World};
ghost use Rattle.smf_meaning.specs.QuietExamples.{ParksTwo, day, night};
ghost use Rattle.smf_meaning.specs.QuietGraphs.{AreStuck, ExcludeEachOther, IsQuietGraph, NoneWaitsForWaiting};

/// In a graph in which nothing is left to do, an enabled instance runs if and only if it is not parked: instances that
/// are off keep it from running exactly if they park it. The example is such a graph: one that is off parks two.
pub fn quiet_graphs_run_what_is_not_parked()
    ensures runs { (ms : List AnyMember) → IsQuietGraph ms → NoneWaitsForWaiting ms → (m : AnyMember) → IsAmong m ms
        → m.enabled ≡ true → is_running m ≡ not (is_parked ms m) }
    ensures example { ParksTwo }
{}

/// The law needs its premise about exclude_all: two instances that wait, each for the other to be off, wait for good in
/// a graph in which nothing is left to do, and neither is parked. The example is such a pair.
pub fn waiting_for_each_other_parks_neither()
    ensures stuck { (m n : AnyMember) → ExcludeEachOther m n → AreStuck m n }
    ensures example { ExcludeEachOther day night }
{}

/// If the graph orders nothing of a view, and no change of a state is under way there, nothing is left to do among its
/// members. So the law holds of each quiet world in which no method runs.
pub fn quiet_views_are_quiet_graphs()
    ensures views { (v : AnyView) → has_no_orders v ≡ true → AllByRecursion (λ i. i.row.next ≡ None) v.items
        → IsQuietGraph (members v.items) }
    ensures worlds { (w : World) → is_quiet w ≡ true → AllByRecursion (λ i. i.row.next ≡ None) (view w.now).items
        → IsQuietGraph (members (view w.now).items) }
{}
