//! Laws of the definitions.

ghost use Rattle.std.specs.Prelude.{◌≡◌, ◌<◌, ◌++◌, ◌∷◌, ◌↔◌, ℕ, false, List, [], length, slice_set};
ghost use Rattle.smf_cycles.specs.Paths.{IsOnCycle, cites};

/// A place gets other edges. If it is on no cycle before that and on none after it, each place is on one as before.
pub fn cycles_stay_elsewhere()
    ensures { (edges : List (List ℕ)) (p : ℕ) (others : List ℕ) → (IsOnCycle edges p → ⊥)
        → (IsOnCycle (slice_set edges p others) p → ⊥)
        → (a : ℕ) → IsOnCycle (slice_set edges p others) a ↔ IsOnCycle edges a }
{}

/// A place comes after the others, and no edge leads to it. So it is on no cycle, and each other place is on one as
/// before.
pub fn cycles_stay_before()
    ensures stays { (edges : List (List ℕ)) (others : List ℕ)
        → ((a : ℕ) → cites (edges ++ others ∷ []) a (length edges) ≡ false)
        → (a : ℕ) → a < length edges → IsOnCycle (edges ++ others ∷ []) a ↔ IsOnCycle edges a }
    ensures none { (edges : List (List ℕ)) (others : List ℕ)
        → ((a : ℕ) → cites (edges ++ others ∷ []) a (length edges) ≡ false)
        → IsOnCycle (edges ++ others ∷ []) (length edges) → ⊥ }
{}
