ghost use Rattle.std.specs.Prelude.{◌≡◌, ◌∷◌, [], List, Option};
ghost use Rattle.smf_edge.specs.Starts.{log_with};
ghost use Rattle.smf_record.specs.Answers.{Seen, seen_now};

use crate::answer::Answer;
use std::time::Duration;

/// Where it is recorded what was given to a server. One that cannot record any more says so itself.
pub trait Sink {
    /// All answers that were added, the first first, if that is known.
    ghost log: { Self → Option (List Seen) };

    /// Adds the answer that was given next.
    fn add(&mut self, answer: Answer<&[u8]>)
        ensures { log self.new ≡ log_with (seen_now answer.entry ∷ []) (log self.old) };
}

/// Where it is recorded what a clock said. A clock is read without a change, so nothing is known of what is added.
pub trait TimeSink {
    fn add_time(&self, time: Duration);
}
