ghost use Rattle.std.specs.Prelude.{⊤, [], ◌∷◌, codes};

use bitflags::{Flag, Flags, bitflag_items};

/// The flags of a group.
#[derive(Clone, Copy, PartialEq, Eq)]
pub struct GroupFlags(u8);

bitflag_items! {
    impl GroupFlags: u8 {
        const NON_PERSISTENT = 1;
    }
}

impl GroupFlags {
    pub const NONE: GroupFlags = GroupFlags(0);
}

impl Flags for GroupFlags {
    type Bits = u8;

    ghost exact = { ⊤ };

    ghost table = { (codes "NON_PERSISTENT", 1) ∷ [] };

    ghost set_of = { λ p. p.0 };

    fn flags<'a>() -> &'a [Flag<GroupFlags>] {
        GroupFlags::FLAGS
    }

    fn bits(&self) -> u8 {
        self.0
    }

    fn from_bits_retain(bits: u8) -> GroupFlags {
        GroupFlags(bits)
    }
}
