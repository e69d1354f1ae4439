//! The contracts with which a server went on, as children of which only answers are known.

ghost use Rattle.smf_contract.specs.Laws.{Ascends};
ghost use Rattle.smf_edge.specs.FollowedBeginnings.{found_post, found_posts};
ghost use Rattle.smf_edge.specs.Phases.{posts};
ghost use Rattle.std.specs.Prelude.{◌≡◌, ◌∷◌, ◌++◌, [], IfOk, IfSome, OnOk, map};

use crate::replayed::ReplayedContract;
use smf_contract::Found;
use smf_edge::Kid;
use smf_fmri::Number;
use std::alloc::{AllocError, Global};

/// Contracts with which a table begins, the same as children, and the greatest id.
#[derive(Drop)]
pub struct ReplayedChildren {
    pub found: Vec<Found>,
    pub kids: Vec<Kid<ReplayedContract>>,
    pub last: Number,
}

impl ReplayedChildren {
    fn none(alloc: Global) -> ReplayedChildren
        ensures found { result.found.items ≡ [] }
        ensures kids { result.kids.items ≡ [] }
        ensures last { result.last ≡ 0 }
    {
        ReplayedChildren {
            found: Vec::new(alloc),
            kids: Vec::new(alloc),
            last: Number::zero(),
        }
    }

    /// One more, whose id is greater than the last.
    fn push(&mut self, contract: Found) -> Result<(), AllocError>
        ensures found { OnOk result (self.new.found.items ≡ self.old.found.items ++ contract ∷ []) }
        ensures kids { OnOk result
            (posts self.new.kids.items ≡ posts self.old.kids.items ++ found_post contract ∷ []) }
        ensures last { OnOk result (self.new.last ≡ contract.id) }
    {
        self.found.push(contract)?;
        let kid = Kid::found(contract.id, contract.end.is_some(), ReplayedContract {});
        self.kids.push(kid)?;
        self.last = contract.id;
        Ok(())
    }
}

/// The contracts as children, if their ids rise.
pub fn children_of(alloc: Global, found: &[Found]) -> Result<Option<ReplayedChildren>, AllocError>
    ensures ascend { IfOk result (λ c. IfSome c (λ c. Ascends 0 (map (λ f. f.id) c.found.items) c.last)) }
    ensures kids { IfOk result (λ c. IfSome c (λ c. posts c.kids.items ≡ found_posts c.found.items)) }
    ensures found { IfOk result (λ c. IfSome c (λ c. c.found.items ≡ found.now)) }
{
    let mut children = ReplayedChildren::none(alloc);
    for one in found {
        if one.id.get() <= children.last.get() {
            return Ok(None);
        }
        children.push(*one)?;
    }
    Ok(Some(children))
}
