// The contracts of the system, and what is known of them.
ghost use Rattle.std.specs.Prelude.{◌≡◌, ℕ, IfErr, IfOk, OnErr, OnOk, Option, false, true};
ghost use Rattle.smf_edge.specs.FollowedFacts.{ContractFacts, one_more_made};

use crate::stand::Stand;
use crate::start::Start;
use std::io;

/// A system that keeps contracts: all that comes of one process, wherever it forks. Two questions are asked of it: how
/// a contract stands, and that it be ended. A caller knows a fact of a contract only from the call that finds it.
pub trait Contracts {
    type Held: Drop;

    ghost facts: { ContractFacts Self.Held };

    /// How many contracts were made, each by one start, if that is known.
    ghost made: { Self → Option ℕ };

    /// Starts the first process of a contract of its own. If it fails, it leaves no process. The cookie and the terms are
    /// kept with the contract, for whoever finds it later.
    fn start(&mut self, start: &Start) -> io::Result<Self::Held>
        ensures started { IfOk result (facts.is_of start.now) }
        ensures failed { IfErr result facts.start_fails }
        ensures one { OnOk result (made self.new ≡ one_more_made (made self.old)) }
        ensures none { OnErr result (made self.new ≡ made self.old) };

    /// How the contract stands. It does not wait.
    fn stand(&mut self, held: &mut Self::Held) -> io::Result<Stand>
        ensures stood { IfOk result (facts.stands held.old) }
        ensures lost { OnErr result (facts.is_lost held.old) }
        ensures none { made self.new ≡ made self.old };

    /// Ends all of the contract, and says whether nothing is left of it.
    fn end(&mut self, held: &mut Self::Held) -> io::Result<bool>
        ensures ended { IfOk result (λ done. done ≡ true → facts.is_ended held.old) }
        ensures living { IfOk result (λ done. done ≡ false → facts.may_live held.old) }
        ensures lost { OnErr result (facts.may_live held.old) }
        ensures none { made self.new ≡ made self.old };
}
