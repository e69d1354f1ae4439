ghost use Rattle.smf_watch.specs.Sizes.{is_same, size_of};
ghost use Rattle.std.specs.Prelude.{◌≡◌, length};

use smf_model::Journal;
use smf_node::Node;

/// The revision of the value that is held, the length of the trail, and the number of messages that were sent.
#[derive(Clone, Copy)]
pub struct Size {
    pub revision: u64,
    pub shown: usize,
    pub sent: usize,
}

/// How much the trail shows.
fn trail_length<J: Journal>(node: &Node<J>) -> usize
    ensures { result ≡ length node.now.world.trail }
{
    node.trail().len()
}

/// How many messages were sent.
fn message_count<J: Journal>(node: &Node<J>) -> usize
    ensures { result ≡ length node.now.world.sent }
{
    node.messages().len()
}

/// How much has happened.
pub fn size_of<J: Journal>(node: &Node<J>) -> Size
    ensures { result ≡ size_of node.now.world }
{
    let revision = node.repository().revision().get();
    let shown = trail_length(node);
    let sent = message_count(node);
    Size {
        revision,
        shown,
        sent,
    }
}

/// True if two sizes are the same.
pub fn is_same(one: &Size, other: &Size) -> bool
    ensures { result ≡ is_same one.now other.now }
{
    one.revision == other.revision && one.shown == other.shown && one.sent == other.sent
}
