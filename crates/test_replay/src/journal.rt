ghost use Rattle.std.specs.Prelude.{◌≡◌, None};
ghost use Rattle.smf_model.specs.declared.journal.RepoFault.TheVariants.{Database};

use smf_model::{Change, Journal, RepoFault};

/// Keeps nothing. One of its writes fails, and those after it do not.
#[derive(Drop)]
pub struct FailingJournal {
    /// The number of the write that fails among those to come; 0 if none does.
    next: u64,
}

impl FailingJournal {
    pub fn new(write: u64) -> FailingJournal {
        FailingJournal { next: write }
    }
}

impl Journal for FailingJournal {
    ghost is_clean = { λ _. ⊥ };

    ghost is_sound = { λ _. ⊥ };

    ghost stands = { λ _ _. Unit {0} };

    ghost could = { λ _ found. found ≡ None };

    ghost write_fails = { λ fault. fault ≡ Database };

    fn write(&mut self, _changes: &[Change]) -> Result<(), RepoFault> {
        let write = self.next;
        self.next = write.saturating_sub(1);
        if write == 1 {
            return Err(RepoFault::Database);
        }
        Ok(())
    }

    ghost settled = { λ j h sound. absurd sound };
}
