ghost use Rattle.std.specs.Prelude.{◌≡◌, IfOk, OnErr};
ghost use Rattle.smf_edge.specs.Answers.{Seen};
ghost use Rattle.smf_machine.specs.Runners.{Rules};

use smf_contract::ContractEvent;
use smf_edge::{Kids, KidsFault, Start};
use smf_fmri::Number;
use smf_world::SpawnAnswer;
use std::alloc::AllocError;

/// Who runs the methods that restarters begin. A call fails only for want of memory, and then what is seen stays. The clause
/// `lacked` says that want of memory was seen: what is refused and a device that fails are answers.
pub trait Runner {
    /// The ledger that is kept, and how often a device failed.
    ghost seen: { Self → Seen };

    ghost rules: { Rules };

    /// A process is asked for.
    fn run_method(&mut self, start: &Start) -> Result<SpawnAnswer, AllocError>
        ensures answered { IfOk result (λ answer. rules.spawns start.now answer (seen self.old) (seen self.new)) }
        ensures kept { OnErr result (seen self.new ≡ seen self.old) }
        ensures lacked { OnErr result rules.lacks_memory };

    /// The end of all members of a contract is asked for. Says whether it was done.
    fn end_contract(&mut self, id: Number) -> Result<bool, AllocError>
        ensures answered { IfOk result (λ did. rules.kills id did (seen self.old) (seen self.new)) }
        ensures kept { OnErr result (seen self.new ≡ seen self.old) }
        ensures lacked { OnErr result rules.lacks_memory };

    /// The next event is asked for. None is given if a device failed.
    fn next_event(&mut self) -> Result<Option<ContractEvent>, AllocError>
        ensures answered { IfOk result (λ event. rules.polls event (seen self.old) (seen self.new)) }
        ensures kept { OnErr result (seen self.new ≡ seen self.old) }
        ensures lacked { OnErr result rules.lacks_memory };
}

/// Children run methods, and answer by their own clauses.
impl<K: Kids> Runner for K {
    ghost use Rattle.smf_edge.specs.Answers.{children_state as seen_of};
    ghost use Rattle.smf_machine.specs.Runners.{rules_of};

    ghost seen = { λ k. seen_of (K.ledger k) (K.failures k) };

    ghost rules = { rules_of K.skills };

    fn run_method(&mut self, start: &Start) -> Result<SpawnAnswer, AllocError> {
        let made = self.spawn(start);
        match made {
            Ok(()) => Ok(SpawnAnswer::Made),
            Err(KidsFault::NotFollowed) => Ok(SpawnAnswer::NotFollowed),
            Err(KidsFault::Memory) => Err(AllocError),
            Err(_) => Ok(SpawnAnswer::Refused),
        }
    }

    fn end_contract(&mut self, id: Number) -> Result<bool, AllocError> {
        match self.kill(id) {
            Ok(()) => Ok(true),
            Err(KidsFault::Memory) => Err(AllocError),
            Err(_) => Ok(false),
        }
    }

    fn next_event(&mut self) -> Result<Option<ContractEvent>, AllocError> {
        match self.poll() {
            Ok(event) => Ok(event),
            Err(KidsFault::Memory) => Err(AllocError),
            Err(_) => Ok(None),
        }
    }
}

/// Nobody runs methods: the contract table alone answers. Each spawn and each kill is made, and nothing is told.
#[derive(Drop)]
pub struct NoChildren {}

impl Runner for NoChildren {
    ghost use Rattle.smf_machine.specs.Runners.{table_rules, seen_of_nobody};

    ghost seen = { λ _. seen_of_nobody };

    ghost rules = { table_rules };

    fn run_method(&mut self, _start: &Start) -> Result<SpawnAnswer, AllocError> {
        Ok(SpawnAnswer::Made)
    }

    fn end_contract(&mut self, _id: Number) -> Result<bool, AllocError> {
        Ok(true)
    }

    fn next_event(&mut self) -> Result<Option<ContractEvent>, AllocError> {
        Ok(None)
    }
}
