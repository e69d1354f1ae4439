ghost use Rattle.std.specs.Prelude.{◌≡◌, ◌++◌, All, Contains, IsPermutation, List, ℕ, [], true};
ghost use Rattle.smf_dep.specs.declared.member.GraphMember.{GraphMember as AnyMember};
ghost use Rattle.smf_stops.specs.Laws.{AreDisabled, IsCircleOf, IsOrderedPlan, all_of};
ghost use Rattle.smf_stops.specs.Stops.{asked, batches, free, going, is_going, next_stops, requires};

/// If an instance that goes requires one that may stop at once, all that go may, and each of them is required by
/// another one that goes.
pub fn stops_are_ordered()
    ensures { (ms : List AnyMember) (x y : AnyMember) → Contains (free ms) x → Contains ms y → is_going y ≡ true
        → requires y x ≡ true → IsCircleOf ms }
{}

/// What is asked to stop is enabled. Once it is not, nothing is asked twice.
pub fn stops_are_asked_once()
    ensures enabled { (ms : List AnyMember) → All (λ m. m.enabled ≡ true) (asked ms) }
    ensures once { (before after : List AnyMember) → AreDisabled (next_stops before) after
        → All (λ name. Contains (next_stops before) name → ⊥) (next_stops after) }
{}

/// If any instance goes, some may stop at once. The batches have each that goes, once.
pub fn stops_end()
    ensures some { (ms : List AnyMember) → free ms ≡ [] → going ms ≡ [] }
    ensures all { (ms : List AnyMember) → IsPermutation (going ms) (all_of (batches ms)) }
{}

/// No instance is planned to stop before one that requires it, but in a circle.
pub fn plan_is_ordered()
    ensures { (ms : List AnyMember) → IsOrderedPlan (batches ms) }
{}
