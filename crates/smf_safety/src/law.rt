ghost use Rattle.smf_world.specs.Reached.{IsAlways, IsLater, IsReached};
ghost use Rattle.smf_world.specs.Safe.{IsSafe, OneLive, StartsDecided};
ghost use Rattle.smf_world.specs.World.{World};

/// A start is begun only if one revision showed its instance offline and at rest, enabled, without a fault and with
/// each dependency group met. It runs the start method of the running snapshot. A later revision announced it, and this
/// is the last commit. No run of an instance begins twice. All this holds after a boot of the value that was found,
/// whatever happens.
pub fn starts_are_well_decided()
    ensures { IsAlways (λ w. StartsDecided w.history w.trail) }
{}

/// At no place of the trail does an instance have two starts that live. This holds after a boot of the value that was
/// found, through crashes, refused spawns, and messages that come late or twice. A start lives from the spawn of its
/// contract until the contract has no process left, or the machine boots anew. So no start method is spawned while a
/// process of an earlier start of the instance is left. A built-in method has no contract and does not count, nor do
/// the methods that stop and refresh.
pub fn at_most_one_start_lives()
    ensures { IsAlways (λ w. OneLive w.trail) }
{}

/// The laws of the trail together, also of each world that is reached.
pub fn whatever_happens_is_safe()
    ensures always { IsAlways IsSafe }
    ensures reached { (w : World) → IsReached w → IsSafe w }
    ensures later { (w v : World) → IsReached w → IsLater w v → IsReached v }
{}
