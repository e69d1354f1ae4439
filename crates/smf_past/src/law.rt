ghost use Rattle.smf_past.specs.Begun.{IsBegun, IsSafeSince};
ghost use Rattle.smf_past.specs.Forgotten.{AreLives, IsCaughtUp, all_lives, forgotten, glue, shifted};
ghost use Rattle.smf_past.specs.Killed.{AreFoundOf, HasLeft, last_world};
ghost use Rattle.smf_contract.specs.Begun.{table_of_found};
ghost use Rattle.smf_contract.specs.declared.contract.Holder.TheVariants.{Inherited};
ghost use Rattle.smf_contract.specs.declared.found.Found.{Found as AnyFound};
ghost use Rattle.smf_model.specs.Contents.{Holdings};
ghost use Rattle.smf_past.specs.Lived.{HasPast, continued, left_of};
ghost use Rattle.smf_past.specs.Lives.{GoesOn, all_past};
ghost use Rattle.smf_past.specs.Losses.{Comes, IsCome, IsLess, IsStillThere};
ghost use Rattle.smf_past.specs.Remains.{remains};
ghost use Rattle.smf_contract.specs.Thinned.{thinned};
ghost use Rattle.smf_contract.specs.Entries.{Contracts};
ghost use Rattle.smf_world.specs.declared.event.Event.{Event as AnyEvent};
ghost use Rattle.smf_world.specs.Happens.{happens};
ghost use Rattle.smf_past.specs.Stands.{DoesStand};
ghost use Rattle.std.specs.Prelude.{◌≡◌, ℕ, List, true};
ghost use Rattle.smf_world.specs.Reached.{IsLater, IsReached};
ghost use Rattle.smf_world.specs.Safe.{IsSafe};
ghost use Rattle.smf_world.specs.World.{World, initial_world};
ghost use Rattle.smf_model.specs.Laws.{IsNumbered};
ghost use Rattle.smf_contract.specs.Laws.{IsOrdered};
ghost use Rattle.std.specs.List.{AllByRecursion};

/// An event makes the same of a life and of that life with its past before it. Messages have their places after those of
/// the past.
pub fn a_past_changes_nothing()
    ensures reached { (w v : World) (e : AnyEvent) → IsReached w → IsCaughtUp w → IsLater (forgotten w) v
        → happens (glue w v) (shifted w e) ≡ glue w (happens v e) }
    ensures lived { (p v : World) (e : AnyEvent) → HasPast p v
        → happens (glue p v) (shifted p e) ≡ glue p (happens v e) }
{}

/// Whatever happens after an accepted boot, and whatever is lost of what is known, the trail is safe. Restarters and the
/// view of the graph may be lost, and each contract that has no members.
pub fn losses_are_safe()
    ensures reached { (w : World) → IsReached w → IsCome w }
    ensures later { (w v : World) → IsCome w → Comes w v → IsCome v }
    ensures safe { (w : World) → IsCome w → IsSafe w }
{}

/// A world with a past keeps it, whatever happens and is lost. If it is forgotten, its past is all that was before. So is
/// that of a new process, which begins with what is held and with the contracts that are there. The trail is safe, with
/// that of the past before it.
pub fn a_life_goes_on()
    ensures first { (w : World) → IsReached w → HasPast (initial_world w.history.first) w }
    ensures later { (p v u : World) → HasPast p v → IsLater v u → HasPast p u }
    ensures less { (p v u : World) → HasPast p v → IsLess u v → HasPast p u }
    ensures again { (p v : World) → HasPast p v → IsCaughtUp v → HasPast (glue p v) (forgotten v) }
    ensures continued { (p v : World) (t : Contracts) → HasPast p v → IsStillThere t v.table
        → HasPast (glue p (left_of v t)) (continued v.now t) }
    ensures safe { (p v : World) → HasPast p v → IsSafe (glue p v) }
{}

/// A new process goes on where another was killed, with the value that is stored and the contracts that are there. All
/// that it does is safe, with what was before it. The table of all contracts that are found is such.
pub fn a_new_process_goes_on()
    ensures left { (p w : World) (h : Holdings) (t : Contracts) (left : HasLeft w h t) → HasPast p w
        → HasPast (glue p (last_world w h t left)) (continued h t) }
    ensures safe { (p w : World) (h : Holdings) (t : Contracts) (v : World) (left : HasLeft w h t) → HasPast p w
        → Comes (continued h t) v → IsSafe (glue (glue p (last_world w h t left)) v) }
    ensures found { (last : ℕ) (fs : List AnyFound) (u : Contracts) → AreFoundOf last fs u
        → IsStillThere (table_of_found Inherited last fs) u }
{}

/// A process may forget its past as often as it likes, in worlds in which the graph has not fallen behind. Its trail is
/// safe with all that it forgot, and with any past that it had at first. A first boot is the case of no past.
pub fn a_past_may_be_forgotten_often()
    ensures past { (us : List World) (p w v : World) → HasPast p w → GoesOn w us v → HasPast (all_past p us) v }
    ensures safe { (us : List World) (p w v : World) → HasPast p w → GoesOn w us v → IsSafe (glue (all_past p us) v) }
    ensures stands { (h : Holdings) (t : Contracts) (us : List World) (v : World) → IsNumbered h → IsOrdered t
        → AllByRecursion (λ c. c.terms.inherit ≡ true) t.contracts → GoesOn (continued h t) us v → DoesStand v }
{}

/// Contracts that have no members may go from the table. So may, with the past, the runs of restarters that are over.
pub fn a_table_may_be_thinned()
    ensures table { (p v : World) → HasPast p v → HasPast p (record v { table = thinned v.table }) }
    ensures lived { (p w : World) → HasPast p w → IsCaughtUp w → HasPast (glue p w) (remains w) }
    ensures begun { (w : World) → IsBegun w → IsCaughtUp w → IsBegun (remains w) }
{}

/// All that a machine needs to know of its world stands of each world that comes of a beginning, whatever was before it.
pub fn a_beginning_stands()
    ensures begun { (h : Holdings) (t : Contracts) (v : World) → IsNumbered h → IsOrdered t
        → AllByRecursion (λ c. c.terms.inherit ≡ true) t.contracts → Comes (continued h t) v → DoesStand v }
    ensures lived { (p v : World) → HasPast p v → DoesStand v }
{}

/// All that comes of a beginning is safe, whatever was before it.
pub fn a_beginning_is_safe()
    ensures later { (w v : World) → IsBegun w → IsLater w v → IsBegun v }
    ensures less { (w v : World) → IsBegun w → IsLess v w → IsBegun v }
    ensures forgotten { (w : World) → IsBegun w → IsCaughtUp w → IsBegun (forgotten w) }
    ensures safe { (w : World) → IsBegun w → IsSafeSince w }
    ensures stands { (w : World) → IsBegun w → DoesStand w }
{}

/// A reached world whose graph has not fallen behind may forget its past.
pub fn forgetting_is_safe()
    ensures later { (w v : World) → IsReached w → IsCaughtUp w → IsLater (forgotten w) v → IsLater w (glue w v) }
    ensures reached { (w v : World) → IsReached w → IsCaughtUp w → IsLater (forgotten w) v → IsReached (glue w v) }
    ensures safe { (w v : World) → IsReached w → IsCaughtUp w → IsLater (forgotten w) v → IsSafe (glue w v) }
    ensures lives { (w : World) (vs : List World) → IsReached w → AreLives w vs → IsReached (all_lives w vs) }
{}
