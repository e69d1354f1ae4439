// The contracts of the system that were started, by their numbers.
ghost use Rattle.std.specs.Prelude.{◌≡◌, ◌⊎◌, false, true, filter, position};
ghost use Rattle.smf_edge.specs.Phases.{IsAbsent, IsPut, SomeKid, is_kid_of, is_other_kid, phase_after, post_of, posts};

use crate::contracts::Contracts;
use crate::stand::FirstEnd;
use smf_fmri::Number;

/// How much was told of a contract.
#[derive(Clone, Copy)]
pub(crate) enum Phase {
    /// Its first process was started.
    First,
    /// A fork. Its first process ended so, and that is told next.
    Forked(FirstEnd),
    /// The end of its first process. One member stands for all others.
    Others,
}

/// A contract of the system, and what was told of it.
#[derive(Drop)]
pub struct Kid<H> {
    pub(crate) contract: Number,
    pub(crate) phase: Phase,
    pub(crate) held: H,
}

impl<H> Kid<H> {
    /// A contract that is there already. If its first process has ended, that was told.
    pub fn found(contract: Number, has_ended: bool, held: H) -> Kid<H>
        ensures contract { result.contract ≡ contract }
        ensures phase { result.phase ≡ phase_after has_ended }
        ensures held { result.held ≡ held }
    {
        if has_ended {
            return Kid {
                contract,
                phase: Phase::Others,
                held,
            };
        }
        Kid {
            contract,
            phase: Phase::First,
            held,
        }
    }
}

/// The place of a contract.
fn place_of<H>(kids: &[Kid<H>], contract: Number) -> Option<usize>
    ensures { result ≡ position (is_kid_of contract) kids.now }
{
    kids.iter().position(|kid| kid.contract == contract)
}

/// Notes what was told of a contract, if it is there.
pub(crate) fn put<H>(kids: &mut [Kid<H>], contract: Number, phase: Phase)
    ensures { IsAbsent contract (posts kids.old) ⊎ IsPut contract phase (posts kids.old) (posts kids.new) }
{
    if let Some(place) = place_of(kids, contract) {
        kids[place].phase = phase;
    }
}

/// Ends all of a contract, and says whether nothing is left of it.
pub(crate) fn is_ended<C: Contracts>(contracts: &mut C, held: &mut C::Held) -> bool
    ensures ended { result ≡ true → C.facts.is_ended held.old }
    ensures living { result ≡ false → C.facts.may_live held.old }
    ensures none { C.made contracts.new ≡ C.made contracts.old }
{
    match contracts.end(held) {
        Ok(done) => done,
        Err(_) => false,
    }
}

/// Ends all of one contract.
fn end<C: Contracts>(contracts: &mut C, kid: &mut Kid<C::Held>) -> bool
    ensures same { post_of kid.new ≡ post_of kid.old }
    ensures ended { result ≡ true → C.facts.is_ended kid.old.held }
    ensures living { result ≡ false → C.facts.may_live kid.old.held }
    ensures none { C.made contracts.new ≡ C.made contracts.old }
{
    is_ended(contracts, &mut kid.held)
}

/// Ends all of a contract, and says whether nothing is left of it. It is not done if there is no such contract.
pub(crate) fn end_one<C: Contracts>(
    contracts: &mut C,
    kids: &mut [Kid<C::Held>],
    contract: Number,
) -> bool
    ensures same { posts kids.new ≡ posts kids.old }
    ensures ended { result ≡ true → SomeKid contract kids.old (λ kid. C.facts.is_ended kid.held) }
    ensures living { result ≡ false → IsAbsent contract (posts kids.old)
        ⊎ SomeKid contract kids.old (λ kid. C.facts.may_live kid.held) }
    ensures none { C.made contracts.new ≡ C.made contracts.old }
{
    match place_of(kids, contract) {
        Some(place) => end(contracts, &mut kids[place]),
        None => false,
    }
}

/// Drops a contract.
pub(crate) fn forget<H: Drop>(kids: &mut Vec<Kid<H>>, contract: Number)
    ensures { kids.new.items ≡ filter (is_other_kid contract) kids.old.items }
{
    kids.retain(|kid| kid.contract != contract);
}
