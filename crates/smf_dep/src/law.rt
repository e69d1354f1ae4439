ghost use Rattle.std.specs.Prelude.{◌≡◌, List, true};
ghost use Rattle.smf_dep.specs.declared.member.GraphMember.{GraphMember as AnyMember};
ghost use Rattle.smf_dep.specs.Cycles.{HasCycle, IsCycle, on_cycle};

/// The test of a cycle holds of an instance exactly if a list of instances leads from it to itself, and each cites the
/// next.
pub fn cycles_are_lists()
    ensures listed { (ms : List AnyMember) (m : AnyMember) → on_cycle ms m ≡ true → HasCycle ms m }
    ensures found { (ms : List AnyMember) (m : AnyMember) (path : List AnyMember) → IsCycle ms m path
        → on_cycle ms m ≡ true }
{}
