ghost use Rattle.std.specs.List.{AllByRecursion};
ghost use Rattle.std.specs.Prelude.{◌≡◌, [], List};
ghost use Rattle.smf_state.specs.declared.view.View.{View as AnyView};
ghost use Rattle.smf_state.specs.declared.view.ViewItem.{ViewItem as AnyItem};
ghost use Rattle.smf_reasons.specs.Flaws.{AreFlaws};
ghost use Rattle.smf_reasons.specs.Claims.{Holds, IsFine, IsFlawless, IsSeen};
ghost use Rattle.smf_reasons.specs.Reasons.{IsReasons};
ghost use Rattle.smf_reasons.specs.declared.reason.Reason.{Reason as AnyReason};

use smf_dep::cycles_are_lists;

/// An instance has no reason exactly if it is not enabled, it runs, or svc.startd's graph orders its start. Each reason
/// holds, by the definitions that decide.
pub fn reasons_are_exact()
    ensures silent { (v : AnyView) (i : AnyItem) (rs : List AnyReason) → IsSeen v i → IsReasons v i rs → rs ≡ []
        → IsFine v i }
    ensures fine { (v : AnyView) (i : AnyItem) (rs : List AnyReason) → IsSeen v i → IsReasons v i rs → IsFine v i
        → rs ≡ [] }
    ensures hold { (v : AnyView) (i : AnyItem) (rs : List AnyReason) → IsReasons v i rs
        → AllByRecursion (Holds v i) rs }
{
    cycles_are_lists();
}

/// A check tells nothing exactly if all of an instance can be read, what it wants is there, and it is on no cycle. Each
/// reason holds, by the definitions that decide.
pub fn flaws_are_exact()
    ensures silent { (v : AnyView) (i : AnyItem) (rs : List AnyReason) → AreFlaws v i rs → rs ≡ [] → IsFlawless v i }
    ensures fine { (v : AnyView) (i : AnyItem) (rs : List AnyReason) → AreFlaws v i rs → IsFlawless v i → rs ≡ [] }
    ensures hold { (v : AnyView) (i : AnyItem) (rs : List AnyReason) → AreFlaws v i rs → AllByRecursion (Holds v i) rs }
{
    cycles_are_lists();
}
