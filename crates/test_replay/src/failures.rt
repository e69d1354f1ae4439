ghost use Rattle.std.specs.Prelude.{◌≡◌, Err, false, true};
ghost use Rattle.smf_edge.specs.Answers.{HasFailed};

use smf_contract::ContractEvent;
use smf_edge::{Happening, Kids, KidsFault, Note, Start, TableKids};
use smf_fmri::{Items, Number};
use std::alloc::{AllocError, Global};

/// Children that a contract table simulates. One call that does something fails, by its number: a spawn is refused, and
/// with any other the device fails.
#[derive(Drop)]
pub struct FailingKids {
    kids: TableKids,
    /// The number of the call that fails among those to come; 0 if none does.
    next: u64,
    failures: u64,
}

impl FailingKids {
    pub fn new(alloc: Global, call: u64) -> FailingKids {
        FailingKids {
            kids: TableKids::new(alloc),
            next: call,
            failures: 0,
        }
    }

    /// True if the call that is to fail did not come.
    pub fn waits(&self) -> bool {
        self.next > 0
    }

    /// Counts a call, and gives back whether it is the one that fails.
    fn is_next(&mut self) -> bool
        ensures kept { self.new.kids ≡ self.old.kids }
        ensures same { self.new.failures ≡ self.old.failures }
    {
        if self.next == 0 {
            return false;
        }
        self.next -= 1;
        self.next == 0
    }

    /// Counts a call of the device, and gives back whether it fails.
    fn fails(&mut self) -> bool
        ensures kept { self.new.kids ≡ self.old.kids }
        ensures failed { result ≡ true → HasFailed self.old.failures self.new.failures }
        ensures same { result ≡ false → self.new.failures ≡ self.old.failures }
    {
        if !self.is_next() {
            return false;
        }
        self.failures = self.failures.saturating_add(1);
        true
    }
}

impl Kids for FailingKids {
    ghost use Rattle.std.specs.Prelude.{false, true};

    ghost ledger = { λ s. s.kids };

    ghost failures = { λ s. s.failures };

    ghost skills = { record { follows = λ _. true; acts = true; joins = false; has_device = true; may_refuse = λ _ _. Unit {0}; lacks_memory = Unit {0} } };

    fn spawn(&mut self, start: &Start) -> Result<(), KidsFault> {
        if self.is_next() {
            return Err(KidsFault::Refused);
        }
        self.kids.spawn(start)
    }

    fn poll(&mut self) -> Result<Option<ContractEvent>, KidsFault> {
        if self.fails() {
            return Err(KidsFault::Device);
        }
        self.kids.poll()
    }

    fn join(&mut self, _id: Number) -> Result<(), KidsFault> {
        Err(KidsFault::NotHere)
    }

    fn kill(&mut self, id: Number) -> Result<(), KidsFault> {
        if self.fails() {
            return Err(KidsFault::Device);
        }
        self.kids.kill(id)
    }

    fn act(&mut self, id: Number, happening: Happening) -> Result<(), KidsFault> {
        if self.fails() {
            return Err(KidsFault::Device);
        }
        self.kids.act(id, happening)
    }

    fn reboot(&mut self) -> Result<(), KidsFault> {
        if self.fails() {
            return Err(KidsFault::Device);
        }
        self.kids.reboot()
    }

    fn list(&mut self) -> Result<Items<Number>, KidsFault> {
        if self.fails() {
            return Err(KidsFault::Device);
        }
        self.kids.list()
    }

    fn faults(&self) -> u64 {
        self.failures
    }

    fn forget(&mut self) -> Result<(), AllocError> {
        self.kids.forget()
    }

    fn notes(&self) -> &[Note] {
        self.kids.notes()
    }
}
