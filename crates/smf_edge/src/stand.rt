ghost use Rattle.std.specs.Prelude.{◌≡◌};
ghost use Rattle.smf_edge.specs.Phases.{happening_of};

use crate::deed::Happening;
use smf_contract::{Exit, Failure};

/// How the first process of a contract ended.
#[derive(Clone, Copy, PartialEq, Eq)]
pub enum FirstEnd {
    Code(u8),
    /// By a signal.
    Signal,
    /// By a signal, and it left a core.
    Core,
}

/// How a contract stands.
#[derive(Clone, Copy)]
pub enum Stand {
    /// Its first process runs.
    Runs,
    /// Its first process ended so, and others live.
    Left(FirstEnd),
    /// Nothing is left of it. Its first process ended so.
    Gone(FirstEnd),
}

impl FirstEnd {
    /// The same as what happens to a member.
    pub(crate) fn end_event(self) -> Happening
        ensures { result ≡ happening_of self }
    {
        match self {
            FirstEnd::Code(code) => Happening::Exit(Exit::Code(code)),
            FirstEnd::Signal => Happening::Fail(Failure::Signal),
            FirstEnd::Core => Happening::Fail(Failure::Core),
        }
    }
}
