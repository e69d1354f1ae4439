use smf_edge::Kids;
use smf_model::Journal;
use smf_node::Node;
use smf_watch::{Noted, Retry, Troubles, Watch};
use std::alloc::Global;

/// A node, the children of its services, and what is noted of them between turns.
#[derive(Drop)]
pub struct Server<J: Journal, K: Kids> {
    pub node: Node<J>,
    pub kids: K,
    /// The methods that may take too long.
    pub watch: Watch,
    /// True if more rounds are wanted.
    pub busy: bool,
    /// What was noticed of instances that fail.
    pub troubles: Troubles,
    /// By what it is seen whether anything happened since it was told how contracts are kept.
    pub noted: Noted,
    /// How much the trail showed when a round was last wanted so as to forget it.
    pub rested: usize,
}

impl<J: Journal, K: Kids> Server<J, K> {
    ghost use Rattle.smf_watch.specs.Troubles.{noticed, noticed_at_first};
    ghost use Rattle.std.specs.Prelude.{◌≡◌, [], None, true};

    /// A node that has booted, children that were asked nothing yet, and the instances that are tried again. Its first tick
    /// makes rounds.
    pub fn new(alloc: Global, node: Node<J>, kids: K, retries: Vec<Retry>) -> Server<J, K>
        ensures node { result.node ≡ node }
        ensures kids { result.kids ≡ kids }
        ensures busy { result.busy ≡ true }
        ensures looked { result.troubles.looked ≡ 0 }
        ensures noticed { noticed result.troubles ≡ noticed_at_first retries.items }
        ensures watched { result.watch.dues ≡ [] }
        ensures noted { result.noted.size ≡ None }
    {
        Server {
            node,
            kids,
            watch: Watch::new(alloc),
            busy: true,
            troubles: Troubles::new(alloc, retries),
            noted: Noted::new(),
            rested: 0,
        }
    }
}
