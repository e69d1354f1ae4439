ghost use Rattle.std.specs.Prelude.{⊤, ◌≡◌, ◌≤◌, [], ◌∷◌, codes, if◌then◌else◌, nat_le, Some, None};

use bitflags::{Flag, Flags, bitflag_items};
use std::marker::Model;

/// The requests to an instance: from svcadm(1M), or from a note of its restarter (failed, exited).
#[derive(Clone, Copy, PartialEq, Eq)]
pub struct Asks(u8);

bitflag_items! {
    impl Asks: u8 {
        const MAINTENANCE_NOW = 1;
        const MAINTENANCE = 2;
        const FAILED = 4;
        const EXITED = 8;
        const RESTART = 16;
        const CLEAR = 32;
        const DEGRADED = 64;
        const REFRESH = 128;
    }
}

impl Asks {
    pub const NONE: Asks = Asks(0);

    /// The asks that a change of the state keeps.
    pub const LASTING: Asks = Asks(3);

    /// The asks that a note may add.
    pub const NOTES: Asks = Asks(12);

    /// The asks of a number, in which each is one bit.
    pub fn from_number(number: u8) -> Asks
        ensures { result.0 ≡ number }
    {
        Asks(number)
    }

    pub fn number(self) -> u8
        ensures { result ≡ self.0 }
    {
        self.0
    }
}

impl Flags for Asks {
    type Bits = u8;

    ghost exact = { ⊤ };

    ghost table = { (codes "MAINTENANCE_NOW", 1) ∷ (codes "MAINTENANCE", 2) ∷ (codes "FAILED", 4) ∷ (codes "EXITED", 8) ∷ (codes "RESTART", 16) ∷ (codes "CLEAR", 32) ∷ (codes "DEGRADED", 64) ∷ (codes "REFRESH", 128) ∷ [] };

    ghost set_of = { λ p. p.0 };

    fn flags<'a>() -> &'a [Flag<Asks>] {
        Asks::FLAGS
    }

    fn bits(&self) -> u8 {
        self.0
    }

    fn from_bits_retain(bits: u8) -> Asks {
        Asks(bits)
    }
}

/// Kinds of failure of a process.
#[derive(Clone, Copy, PartialEq, Eq)]
pub struct Failures(u8);

bitflag_items! {
    impl Failures: u8 {
        const CORE = 1;
        const SIGNAL = 2;
    }
}

impl Flags for Failures {
    type Bits = u8;

    ghost exact = { ⊤ };

    ghost table = { (codes "CORE", 1) ∷ (codes "SIGNAL", 2) ∷ [] };

    ghost set_of = { λ p. p.0 };

    fn flags<'a>() -> &'a [Flag<Failures>] {
        Failures::FLAGS
    }

    fn bits(&self) -> u8 {
        self.0
    }

    fn from_bits_retain(bits: u8) -> Failures {
        Failures(bits)
    }
}

/// The kinds of failure that a method ignores (`startd/ignore_error` of svc.startd(1M)). Contracts see them as their
/// bits: 1 for core, 2 for signal.
#[derive(Clone, Copy, PartialEq, Eq)]
pub struct Ignore {
    bits: u8,
}

impl Model for Ignore {
    ghost use Rattle.std.specs.Prelude.{ℕ, ◌≤◌};

    ghost Value = { ℕ };

    ghost view = { λ i. i.bits };

    ghost invariant = { λ i. i.bits ≤ 3 };

    ghost inverse = { λ n. record { bits = n } };
}

impl Ignore {
    pub fn none() -> Ignore
        ensures { result ≡ 0 }
    {
        Ignore { bits: 0 }
    }

    /// The set of these bits.
    pub fn new(bits: u8) -> Ignore
        requires { bits ≤ 3 }
        ensures { result ≡ bits }
    {
        Ignore { bits }
    }

    /// The set of these bits, or none if one of them names no kind.
    pub fn from_bits(bits: u8) -> Option<Ignore>
        ensures { result ≡ (if nat_le bits 3 then Some bits else None) }
    {
        if bits <= 3 {
            Some(Ignore { bits })
        } else {
            None
        }
    }

    pub fn bits(self) -> u8
        ensures value { result ≡ self }
        ensures bound { self ≤ 3 }
    {
        self.bits
    }

    /// The same as a set of flags.
    pub fn failures(self) -> Failures
        ensures { result.0 ≡ self }
    {
        Failures(self.bits)
    }
}
