ghost use Rattle.std.specs.Prelude.{⊤, [], ◌∷◌, codes};

use bitflags::{Flag, Flags, bitflag_items};
use std::marker::Model;

/// Kinds of events, with the bits of process(4).
#[derive(Clone, Copy, PartialEq, Eq)]
pub struct EventSet(u8);

bitflag_items! {
    impl EventSet: u8 {
        const EMPTY = 1;
        const FORK = 2;
        const EXIT = 4;
        const CORE = 8;
        const SIGNAL = 16;
        const HWERR = 32;
    }
}

impl EventSet {
    pub const NONE: EventSet = EventSet(0);

    /// The kinds of failure: core, signal and hwerr.
    pub const FAILURES: EventSet = EventSet(56);
}

impl Flags for EventSet {
    type Bits = u8;

    ghost exact = { ⊤ };

    ghost table = { (codes "EMPTY", 1) ∷ (codes "FORK", 2) ∷ (codes "EXIT", 4) ∷ (codes "CORE", 8) ∷ (codes "SIGNAL", 16) ∷ (codes "HWERR", 32) ∷ [] };

    ghost set_of = { λ p. p.0 };

    fn flags<'a>() -> &'a [Flag<EventSet>] {
        EventSet::FLAGS
    }

    fn bits(&self) -> u8 {
        self.0
    }

    fn from_bits_retain(bits: u8) -> EventSet {
        EventSet(bits)
    }
}

/// The terms of a contract, as in contract(4) and process(4).
#[derive(Clone, Copy, PartialEq, Eq)]
pub struct Terms {
    /// Kinds that the holder is told of.
    pub informative: EventSet,
    /// Kinds that the holder is told of and has to acknowledge.
    pub critical: EventSet,
    /// Kinds of failure of one member that end them all. Any other kind in it counts for nothing.
    pub fatal: EventSet,
    /// True if it waits to be adopted after its holder is gone.
    pub inherit: bool,
    /// True if its members end when it is abandoned.
    pub noorphan: bool,
}

impl Model for Terms {
    ghost use Rattle.smf_contract.specs.Stated.{StatedTerms, AreEvents};

    ghost Value = { StatedTerms };

    ghost view = { λ t.
        record {
          informative = t.informative;
          critical = t.critical;
          fatal = t.fatal;
          inherit = t.inherit;
          noorphan = t.noorphan;
        } };

    ghost invariant = { λ t. AreEvents t.fatal };

    ghost inverse = { λ t.
        record {
          informative = t.informative;
          critical = t.critical;
          fatal = t.fatal;
          inherit = t.inherit;
          noorphan = t.noorphan;
        } };
}
