ghost use Rattle.std.specs.Prelude.{◌≡◌, false};
ghost use Rattle.smf_edge.specs.Answers.{children_state};
ghost use Rattle.smf_script.specs.Asks.{lacks_memory};
ghost use Rattle.smf_script.specs.Ends.{AreAsked, HasEndedAll, HasLooked};

use smf_edge::{Kids, KidsFault};
use smf_fmri::Number;
use std::alloc::AllocError;

/// What children have left at their end.
#[derive(Clone, Copy)]
pub enum Leftover {
    /// No contract has members.
    NoneLeft,
    /// Some contracts have members that have not ended yet.
    SomeLeft,
    /// Their device failed to list them.
    Unlisted,
}

fn lacks_memory(answer: &Result<(), KidsFault>) -> bool
    ensures { result ≡ lacks_memory answer.now }
{
    matches!(answer, Err(KidsFault::Memory))
}

/// Ends all members of each contract in turn, as far as children do it. True if memory ran out for one of them: those
/// after it are asked all the same.
fn end_each<K: Kids>(kids: &mut K, contracts: &[Number]) -> bool
    ensures { AreAsked K.skills false result contracts.now (children_state (K.ledger kids.old) (K.failures kids.old))
        (children_state (K.ledger kids.new) (K.failures kids.new)) }
{
    let mut lacked = false;
    for id in contracts {
        let answer = kids.kill(*id);
        lacked |= lacks_memory(&answer);
    }
    lacked
}

/// What children have left now.
fn look<K: Kids>(kids: &mut K) -> Result<Leftover, AllocError>
    ensures { HasLooked K.skills result (children_state (K.ledger kids.old) (K.failures kids.old))
        (children_state (K.ledger kids.new) (K.failures kids.new)) }
{
    match kids.list() {
        Ok(left) => Ok(if left.as_slice().is_empty() {
            Leftover::NoneLeft
        } else {
            Leftover::SomeLeft
        }),
        Err(KidsFault::Memory) => Err(AllocError),
        Err(_) => Ok(Leftover::Unlisted),
    }
}

/// Ends every child that is left, and says what is left then. What the device fails to end is left as it is. `AllocError`
/// if memory ran out for one of them, or so that they could not be listed.
pub fn end_all<K: Kids>(kids: &mut K) -> Result<Leftover, AllocError>
    ensures { HasEndedAll K.skills result (children_state (K.ledger kids.old) (K.failures kids.old))
        (children_state (K.ledger kids.new) (K.failures kids.new)) }
{
    let left = match kids.list() {
        Ok(left) => left,
        Err(KidsFault::Memory) => return Err(AllocError),
        Err(_) => return Ok(Leftover::Unlisted),
    };
    if end_each(kids, left.as_slice()) {
        return Err(AllocError);
    }
    look(kids)
}
