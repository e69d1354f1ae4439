// What a server that stays keeps of what happened.
use crate::causes::CauseFile;
use crate::trail::TrailFile;
use smf_model::Journal;
use smf_node::Node;
use smf_watch::{Chronicle, Retry};
use smf_world::Item;

/// The files in which a server keeps what happened: why instances are in maintenance, and the trail of all servers.
#[derive(Drop)]
pub struct FileChronicle<'a> {
    pub causes: CauseFile<'a>,
    pub trail: TrailFile<'a>,
}

impl<'a> Chronicle for FileChronicle<'a> {
    ghost use Rattle.std.specs.Prelude.{None};

    ghost told = { λ _. None };

    fn tell<J: Journal>(&mut self, items: &[Item], node: &Node<J>, retries: &[Retry]) {
        self.trail.tell(items, node);
        self.causes.tell(items, node, retries);
    }
}
