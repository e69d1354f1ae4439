ghost use Rattle.std.specs.Prelude.{◌≡◌};
ghost use Rattle.smf_method.specs.Timeouts.{IsTimeout, timeout_of};

use std::marker::Model;

/// How long a method may run, in seconds: neither 0 nor 2^64 - 1, which stand for no timeout.
#[derive(Clone, Copy, PartialEq, Eq)]
pub struct Timeout {
    seconds: u64,
}

impl Model for Timeout {
    ghost use Rattle.std.specs.Prelude.{ℕ};
    ghost use Rattle.smf_method.specs.Timeouts.{IsTimeout};

    ghost Value = { ℕ };

    ghost view = { λ t. t.seconds };

    ghost invariant = { λ t. IsTimeout t.seconds };

    ghost inverse = { λ n. record { seconds = n } };
}

impl Timeout {
    /// The timeout of so many seconds, or none if they stand for none.
    pub fn new(seconds: u64) -> Option<Timeout>
        ensures { result ≡ timeout_of seconds }
    {
        if seconds == 0 {
            return None;
        }
        if seconds == u64::MAX {
            return None;
        }
        Some(Timeout { seconds })
    }

    /// The seconds, which are some and not 2^64 - 1.
    pub fn seconds(self) -> u64
        ensures value { result ≡ self }
        ensures bounds { IsTimeout self }
    {
        self.seconds
    }
}
