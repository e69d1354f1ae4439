ghost use Rattle.std.specs.Prelude.{IfErr, IfOk};
ghost use Rattle.smf_script.specs.Agrees.{AgreesSince, Before};
ghost use Rattle.smf_script.specs.Drives.{IsDriven};
ghost use Rattle.smf_script.specs.Moves.{Moves};
ghost use Rattle.smf_edge.specs.Answers.{children_state};
ghost use Rattle.smf_machine.specs.Runners.{rules_of};
ghost use Rattle.smf_node.specs.Partly.{SettleFails};
ghost use Rattle.smf_node.specs.Rounds.{HasSettled, course};
ghost use Rattle.smf_past.specs.Begun.{IsSafeSince};

use smf_edge::Kids;
use smf_model::Journal;
use smf_node::{Node, NodeFault};
use smf_world::Settled;

/// Lets at most so many rounds happen with the answers of children, up to the first that leaves nothing to do. `Limit`
/// if a restarter has to be launched and cannot be. A fault leaves what was done before the deed that failed. If
/// children and the node agreed, they agree, however it ends, whatever was there before.
pub fn drive<J: Journal, K: Kids>(
    node: &mut Node<J>,
    kids: &mut K,
    rounds: u64,
) -> Result<Settled, NodeFault>
    ensures ok { IfOk result (λ how.
        HasSettled (rules_of K.skills) rounds
        (course node.old (children_state (K.ledger kids.old) (K.failures kids.old)))
        (course node.new (children_state (K.ledger kids.new) (K.failures kids.new))) how) }
    ensures err { IfErr result (λ e.
        SettleFails (rules_of K.skills) J.write_fails rounds
        (course node.old (children_state (K.ledger kids.old) (K.failures kids.old)))
        (course node.new (children_state (K.ledger kids.new) (K.failures kids.new))) e) }
    ensures moves { Moves node.old.world node.new.world (K.ledger kids.old) (K.ledger kids.new) }
    ensures agrees { (b : Before) → AgreesSince b node.old.world (K.ledger kids.old)
        → AgreesSince b node.new.world (K.ledger kids.new) }
    ensures driven { IsDriven node.old.world node.new.world }
    ensures safe { IsSafeSince node.new.world }
{
    node.drive(kids, rounds)
}
