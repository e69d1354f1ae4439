ghost use Rattle.std.specs.declared.time.Duration.{Duration as AnyDuration};

use std::time::Duration;

/// A clock.
pub trait Timer {
    /// The times that it may say.
    ghost says: { Self → AnyDuration → Type 0 };

    /// The time since some moment, which stays the same. It never falls.
    fn now(&self) -> Duration
        ensures { says self.now result };
}
