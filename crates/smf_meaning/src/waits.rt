ghost use Rattle.std.specs.Prelude.{◌≡◌, ℕ, suc, ◌≤◌, List, length, true};
ghost use Rattle.smf_dep.specs.declared.member.GraphMember.{GraphMember as AnyMember};
ghost use Rattle.smf_dep.specs.Cycles.{IsAmong};
ghost use Rattle.smf_dep.specs.Verdicts.{is_parked, parked_in};
ghost use Rattle.smf_meaning.specs.Waits.{IsLeast, IsSettled, parks};

/// An instance that is parked in one round is parked in the next. Rounds past the number of instances park no more, so
/// those that are parked are the least that park themselves.
pub fn parked_stays()
    ensures stays { (ms : List AnyMember) (m : AnyMember) (k : ℕ) → parked_in k ms m ≡ true
        → parked_in (suc k) ms m ≡ true }
    ensures settled { (ms : List AnyMember) (k : ℕ) → length ms ≤ k → IsSettled ms k }
    ensures itself { (ms : List AnyMember) (m : AnyMember) → IsAmong m ms → is_parked ms m ≡ parks ms (is_parked ms) m }
    ensures least { (ms : List AnyMember) → IsLeast ms }
{}
