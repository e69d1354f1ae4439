ghost use Rattle.std.specs.Prelude.{◌≡◌, IfOk, OnErr};
ghost use Rattle.smf_script.specs.Agrees.{AgreesSince, Before};
ghost use Rattle.smf_script.specs.Forgets.{AgreesAnew, ForgetsIf};
ghost use Rattle.smf_past.specs.Begun.{IsSafeSince};

use smf_edge::Kids;
use smf_model::Journal;
use smf_node::Node;
use std::alloc::AllocError;

/// A node and its children forget what was told and what is over, if the node may. Says whether they did. If memory runs
/// out nothing is forgotten. If they agreed, they agree.
pub fn forget<J: Journal, K: Kids>(node: &mut Node<J>, kids: &mut K) -> Result<bool, AllocError>
    ensures done { IfOk result
        (λ done. ForgetsIf done node.old node.new (K.ledger kids.old) (K.ledger kids.new)) }
    ensures node { OnErr result (node.new ≡ node.old) }
    ensures kids { OnErr result (K.ledger kids.new ≡ K.ledger kids.old) }
    ensures failures { K.failures kids.new ≡ K.failures kids.old }
    ensures agrees { (b : Before) → AgreesSince b node.old.world (K.ledger kids.old)
        → AgreesAnew node.new.world (K.ledger kids.new) }
    ensures safe { IsSafeSince node.new.world }
{
    let _shown = node.trail();
    let Some(rest) = node.remains()? else {
        return Ok(false);
    };
    kids.forget()?;
    node.forget(rest);
    let _shown = node.trail();
    Ok(true)
}
