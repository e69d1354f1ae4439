ghost use Rattle.smf_state.specs.declared.view.View.{View as AnyView};
ghost use Rattle.smf_wire.specs.declared.message.ViewChanges.{ViewChanges as AnyChanges};
ghost use Rattle.smf_wire.specs.declared.order.Order.{Order as AnyOrder};
ghost use Rattle.smf_world.specs.Safe.{IsSafe};
ghost use Rattle.smf_world.specs.World.{World};
ghost use Rattle.smf_provenance.specs.Claims.{StartsExplained};
ghost use Rattle.smf_provenance.specs.Ordered.{StopsExplained};
ghost use Rattle.smf_provenance.specs.Values.{ChangesShow, OrderShows, ViewShows};
ghost use Rattle.smf_provenance.specs.Enabled.{NamesDeciding};
ghost use Rattle.smf_value.specs.Groups.{GroupRecord as AnyGroup};
ghost use Rattle.std.specs.Prelude.{ℕ, Option};

/// Each start of a safe trail has evidence, by the history's value at the revision that its item names. Each line of it
/// holds, by the definitions that decide.
pub fn every_start_has_evidence()
    ensures { (w : World) → IsSafe w → StartsExplained w.history w.trail }
{}

/// Each order to stop that a view decides has evidence, by that view. The evidence tells of this order, and its reason
/// holds, by the definitions that decide.
pub fn every_stop_has_evidence()
    ensures { (v : AnyView) (o : AnyOrder) → StopsExplained v o }
{}

/// Each view that was sent is that of the history's value at its revision. Changes that go on from the view of a value lead
/// to that of a value. So a scene that follows the messages always shows a value of the history. Each order that was sent
/// is decided by the value at its revision.
pub fn messages_show_values()
    ensures view { (w : World) (place : ℕ) (v : AnyView) → ViewShows w place v }
    ensures changes { (w : World) (place : ℕ) (c : AnyChanges) (v after : AnyView) → ChangesShow w place c v after }
    ensures order { (w : World) (place : ℕ) (o : AnyOrder) → OrderShows w place o }
{}

/// The group that is named as the one that says whether an instance is enabled has the property that decides it.
pub fn the_named_property_decides()
    ensures { (ovr own services_own : Option AnyGroup) → NamesDeciding ovr own services_own }
{}
