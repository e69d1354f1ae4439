ghost use Rattle.std.specs.Prelude.{IfErr, IfOk};
ghost use Rattle.smf_edge.specs.Answers.{children_state};
ghost use Rattle.smf_node.specs.Rounds.{course};
ghost use Rattle.smf_watch.specs.Watched.{HasHeard, StopsHearing};
ghost use Rattle.smf_world.specs.Reached.{IsLater};

use smf_edge::Kids;
use smf_model::Journal;
use smf_node::{MAX_POLLS, Node, NodeFault};

/// Children are asked for events until they give none; each happens. Says whether there was one. If memory runs out,
/// the events that were given have happened, and none is lost.
pub fn hear_all<J: Journal, K: Kids>(node: &mut Node<J>, kids: &mut K) -> Result<bool, NodeFault>
    ensures heard { IfOk result
        (λ any. HasHeard K.skills (course node.old (children_state (K.ledger kids.old) (K.failures kids.old)))
        (course node.new (children_state (K.ledger kids.new) (K.failures kids.new))) any) }
    ensures err { IfErr result
        (λ e. StopsHearing K.skills (course node.old (children_state (K.ledger kids.old) (K.failures kids.old)))
        (course node.new (children_state (K.ledger kids.new) (K.failures kids.new))) e) }
    ensures later { IsLater node.old.world node.new.world }
{
    let mut any = false;
    for _ in 0..MAX_POLLS {
        let event = node.hear(kids)?;
        if event.is_none() {
            return Ok(any);
        }
        any = true;
    }
    Ok(any)
}
