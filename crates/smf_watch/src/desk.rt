ghost use Rattle.std.specs.Prelude.{◌≡◌, List, [], ◌∷◌, Option};
ghost use Rattle.smf_edge.specs.Starts.{log_with};
ghost use Rattle.smf_watch.specs.Traffic.{LeavesAt, LeavesNoMore, Leavings, Passed, Told, asked_in, reply_in};

use crate::ask::ServerInput;
use smf_model::{Journal, Plain};

/// The place from which requests come and to which replies go, and whoever runs the server.
pub trait Desk {
    /// All that passed over it, the first first, if that is known.
    ghost passed: { Self → Option (List Passed) };

    /// What a crash may leave at the moments of the replies at which the store is sound.
    ghost leaves: { Self → Leavings };

    /// The next ask. The server replies to a request before the next call. After `End` and after `Leave` there is no next
    /// one: at `End` the server ends the services that still run, and at `Leave` they go on without it.
    fn next(&mut self) -> ServerInput
        ensures passed { passed self.new ≡ log_with (asked_in result) (passed self.old) }
        ensures leaves { LeavesNoMore (leaves self.old) (leaves self.new) };

    /// Replies to the request that was given last, while the repository holds what the reply speaks of. False if the text
    /// could not be written: the reply then says that.
    fn reply<J: Journal>(&mut self, repository: &Plain<J>, text: &[u8], status: u8) -> bool
        ensures passed { passed self.new
            ≡ log_with (reply_in result text.now status repository.now.held ∷ []) (passed self.old) }
        ensures leaves { LeavesAt repository.now.held
            (λ found. J.is_sound repository.now.journal × J.could repository.now.journal found)
            (leaves self.old) (leaves self.new) };

    /// Tells a line to whoever runs the server.
    fn tell(&mut self, line: &str)
        ensures passed { passed self.new ≡ log_with (Told line.now ∷ []) (passed self.old) }
        ensures leaves { LeavesNoMore (leaves self.old) (leaves self.new) };

    /// A turn failed. The next tick, which tries again, may come later than others: after a second at first, and after ten
    /// if turns go on to fail.
    fn pause(&mut self)
        ensures passed { passed self.new ≡ passed self.old }
        ensures leaves { LeavesNoMore (leaves self.old) (leaves self.new) };
}
