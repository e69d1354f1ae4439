ghost use Rattle.std.specs.Prelude.{◌≡◌, List, Option};
ghost use Rattle.smf_edge.specs.Starts.{log_with};
ghost use Rattle.smf_world.specs.declared.item.Item.{Item};

use crate::retries::Retry;
use smf_model::Journal;
use smf_node::Node;
use smf_world::Item;

/// Whoever keeps what happened. A server forgets it some time after it told it.
pub trait Chronicle {
    /// All items that were told, the first first, if that is known.
    ghost told: { Self → Option (List Item) };

    /// Tells what happened next, the first first. It happened to this node, and these are the instances that are tried again.
    fn tell<J: Journal>(&mut self, items: &[Item], node: &Node<J>, retries: &[Retry])
        ensures { told self.new ≡ log_with items.now (told self.old) };
}

/// Counts what happened, and keeps nothing of it.
#[derive(Drop)]
pub struct ItemCount {
    /// It stops at its greatest.
    pub items: usize,
}

impl Chronicle for ItemCount {
    ghost use Rattle.std.specs.Prelude.{None};

    ghost told = { λ _. None };

    fn tell<J: Journal>(&mut self, items: &[Item], _node: &Node<J>, _retries: &[Retry]) {
        self.items = self.items.saturating_add(items.len());
    }
}
