ghost use Rattle.std.specs.Prelude.{◌≡◌, ◌<◌, IfErr, OnOk, OnErr, Option, None, length};
ghost use Rattle.smf_model.specs.declared.journal.RepoFault.{RepoFault as AnyFault};
ghost use Rattle.smf_model.specs.declared.journal.RepoFault.TheVariants.{Memory};
ghost use Rattle.smf_model.specs.Contents.{Holdings};
ghost use Rattle.smf_model.specs.Journals.{IsTold, IsUntold, LeavesOldOrTold, LeavesOnly};

use crate::change::Change;
use std::alloc::AllocError;

/// Why a command has no reply. Nothing has changed then.
#[derive(Clone, Copy, PartialEq, Eq)]
pub enum RepoFault {
    Memory,
    /// The journal could not write.
    Database,
}

impl From<AllocError> for RepoFault {
    ghost from_gives = { λ _ e. e ≡ Memory };

    fn from(_e: AllocError) -> RepoFault {
        RepoFault::Memory
    }
}

/// Receives the changes of a command before they take effect. Numbers are given once in the value that the changes
/// make.
pub trait Journal {
    /// The storage under the journal has so far given back what was written. This may end at any call, and no call says
    /// so.
    ghost is_clean: { Self → Type 0 };

    /// It is clean and can be read and written.
    ghost is_sound: { Self → Type 0 };

    /// A value stands in the journal. This says nothing of a journal that is not sound.
    ghost stands: { Self → Holdings → Type 0 };

    /// An open after a crash at this moment may find this: a value, or that there is none.
    ghost could: { Self → Option Holdings → Type 0 };

    /// With which faults a write may end.
    ghost write_fails: { AnyFault → Type 0 };

    /// Writes all the changes or none.
    fn write(&mut self, changes: &[Change]) -> Result<(), RepoFault>
        requires { 0 < length changes.now }
        ensures trusted { is_clean self.new → is_clean self.old }
        ensures sound { OnOk result (is_clean self.new → is_sound self.new) }
        ensures ok { OnOk result (IsTold stands self.old self.new changes.now) }
        ensures err { OnErr result (IsUntold stands self.old self.new) }
        ensures crash { LeavesOldOrTold stands could self.old self.new changes.now }
        ensures fault { IfErr result (λ fault. write_fails fault) };

    /// Between two calls a crash leaves what stands.
    ghost settled: { (j : Self) (h : Holdings) → is_sound j → stands j h → LeavesOnly could j h };
}

/// Keeps nothing, so it is never sound: after a crash there is no value.
#[derive(Drop)]
pub struct NoJournal {}

impl Journal for NoJournal {
    ghost is_clean = { λ _. ⊥ };

    ghost is_sound = { λ _. ⊥ };

    ghost stands = { λ _ _. Unit {0} };

    ghost could = { λ _ found. found ≡ None };

    ghost write_fails = { λ _. ⊥ };

    fn write(&mut self, _changes: &[Change]) -> Result<(), RepoFault> {
        Ok(())
    }

    ghost settled = { λ j h sound. absurd sound };
}
