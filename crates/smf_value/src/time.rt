ghost use Rattle.smf_value.specs.Moments.{Moment};
ghost use Rattle.std.specs.Prelude.{◌≡◌, ◌<◌, Some, None, ◌&&◌, nat_lt, if◌then◌else◌};

use std::marker::Model;

/// A time: seconds from 0 to 2^63 - 1, and nanoseconds below 10^9.
#[derive(Clone, Copy, PartialEq, Eq)]
pub struct Time {
    seconds: u64,
    nanoseconds: u32,
}

impl Model for Time {
    ghost use Rattle.smf_value.specs.Moments.{Moment, IsMoment};

    ghost Value = { Moment };

    ghost view = { λ t. record { seconds = t.seconds; nanoseconds = t.nanoseconds } };

    ghost invariant = { λ t. IsMoment (record { seconds = t.seconds; nanoseconds = t.nanoseconds }) };

    ghost inverse = { λ m. record { seconds = m.seconds; nanoseconds = m.nanoseconds } };
}

impl Time {
    /// The greatest number of seconds, 2^63 - 1.
    pub const MAX_SECONDS: u64 = 0x7fff_ffff_ffff_ffff;

    /// The time of these parts, if they are in range.
    pub fn new(seconds: u64, nanoseconds: u32) -> Option<Time>
        ensures { result ≡ (if nat_lt seconds 0x8000_0000_0000_0000 && nat_lt nanoseconds 1_000_000_000
            then Some (record { seconds = seconds; nanoseconds = nanoseconds }) else None) }
    {
        if seconds <= Time::MAX_SECONDS && nanoseconds < 1_000_000_000 {
            Some(Time {
                seconds,
                nanoseconds,
            })
        } else {
            None
        }
    }

    pub fn seconds(self) -> u64
        ensures value { result ≡ self.seconds }
        ensures bound { result < 0x8000_0000_0000_0000 }
    {
        self.seconds
    }

    pub fn nanoseconds(self) -> u32
        ensures value { result ≡ self.nanoseconds }
        ensures bound { result < 1_000_000_000 }
    {
        self.nanoseconds
    }
}
