// Looks at the contracts of the system.
ghost use Rattle.std.specs.Prelude.{◌≡◌, Option};
ghost use Rattle.smf_contract.specs.declared.contract.Contract.{Contract};
ghost use Rattle.smf_contract.specs.Entries.{contract};
ghost use Rattle.smf_edge.specs.Books.{ledger_of};
ghost use Rattle.smf_edge.specs.Phases.{is_fatal_end, post_of, posts};
ghost use Rattle.smf_edge.specs.Sights.{AreSeen, IsSeen, IsSightOf, SeenIn};
ghost use Rattle.smf_edge.specs.declared.kid.Phase.TheVariants.{First, Forked, Others};

use crate::book::Book;
use crate::contracts::Contracts;
use crate::kid::{Kid, Phase, is_ended};
use crate::stand::{FirstEnd, Stand};
use smf_contract::Failure;
use smf_fmri::Number;

/// The result of a look at contracts: it says what is to be told of one of them.
#[derive(Clone, Copy)]
pub(crate) enum Sight {
    /// Nothing.
    Still,
    /// The first process ended so, and others live.
    Left(Number, FirstEnd),
    /// This end of the first process is told next.
    Over(Number, FirstEnd),
    /// Nothing is left. The end of the last is this.
    Gone(Number, FirstEnd),
    /// The system did not answer, or did not end a contract.
    Failed,
}

/// Says whether an end of the first process ends all of its contract.
fn is_fatal_end(book: &Book, id: Number, end: FirstEnd) -> bool
    ensures { result ≡ is_fatal_end (contract (ledger_of book.now).table id) end }
{
    match end {
        FirstEnd::Code(_) => false,
        FirstEnd::Signal => book.is_fatal(id, Failure::Signal),
        FirstEnd::Core => book.is_fatal(id, Failure::Core),
    }
}

/// The sight of a contract whose first process was started.
fn see_first<C: Contracts>(contracts: &mut C, id: Number, held: &mut C::Held) -> Sight
    ensures of { IsSightOf result id }
    ensures seen { (c : Option Contract) → SeenIn C.facts c result First held.old }
    ensures none { C.made contracts.new ≡ C.made contracts.old }
{
    match contracts.stand(held) {
        Ok(Stand::Runs) => Sight::Still,
        Ok(Stand::Left(end)) => Sight::Left(id, end),
        Ok(Stand::Gone(end)) => Sight::Gone(id, end),
        Err(_) => Sight::Failed,
    }
}

/// The sight of a contract whose first process ended, which is told next. A fatal end ends all of it first.
fn see_forked<C: Contracts>(
    contracts: &mut C,
    book: &Book,
    id: Number,
    end: FirstEnd,
    held: &mut C::Held,
) -> Sight
    ensures of { IsSightOf result id }
    ensures seen { SeenIn C.facts (contract (ledger_of book.now).table id) result (Forked end) held.old }
    ensures none { C.made contracts.new ≡ C.made contracts.old }
{
    if !is_fatal_end(book, id, end) {
        return Sight::Over(id, end);
    }
    if is_ended(contracts, held) {
        return Sight::Gone(id, end);
    }
    Sight::Failed
}

/// The sight of a contract whose first process's end was told.
fn see_others<C: Contracts>(contracts: &mut C, id: Number, held: &mut C::Held) -> Sight
    ensures of { IsSightOf result id }
    ensures seen { (c : Option Contract) → SeenIn C.facts c result Others held.old }
    ensures none { C.made contracts.new ≡ C.made contracts.old }
{
    match contracts.stand(held) {
        Ok(Stand::Runs) => Sight::Still,
        Ok(Stand::Left(_)) => Sight::Still,
        Ok(Stand::Gone(_)) => Sight::Gone(id, FirstEnd::Code(0)),
        Err(_) => Sight::Failed,
    }
}

/// The sight of a contract of which so much was told.
fn see_in<C: Contracts>(
    contracts: &mut C,
    book: &Book,
    id: Number,
    phase: Phase,
    held: &mut C::Held,
) -> Sight
    ensures of { IsSightOf result id }
    ensures seen { SeenIn C.facts (contract (ledger_of book.now).table id) result phase held.old }
    ensures none { C.made contracts.new ≡ C.made contracts.old }
{
    match phase {
        Phase::First => see_first(contracts, id, held),
        Phase::Forked(end) => see_forked(contracts, book, id, end, held),
        Phase::Others => see_others(contracts, id, held),
    }
}

/// The sight of one contract.
fn see<C: Contracts>(contracts: &mut C, book: &Book, kid: &mut Kid<C::Held>) -> Sight
    ensures same { post_of kid.new ≡ post_of kid.old }
    ensures seen { IsSeen C.facts (ledger_of book.now).table result kid.old }
    ensures none { C.made contracts.new ≡ C.made contracts.old }
{
    see_in(contracts, book, kid.contract, kid.phase, &mut kid.held)
}

/// Looks for something to tell of a contract, and does not wait. A contract of which the system does not answer keeps
/// no other from being told of.
pub(crate) fn see_all<C: Contracts>(
    contracts: &mut C,
    book: &Book,
    kids: &mut [Kid<C::Held>],
) -> Sight
    ensures same { posts kids.new ≡ posts kids.old }
    ensures seen { AreSeen C.facts (ledger_of book.now).table result kids.old }
    ensures none { C.made contracts.new ≡ C.made contracts.old }
{
    let mut sight = Sight::Still;
    for kid in kids {
        let seen = see(contracts, book, kid);
        match seen {
            Sight::Left(id, end) => return Sight::Left(id, end),
            Sight::Over(id, end) => return Sight::Over(id, end),
            Sight::Gone(id, end) => return Sight::Gone(id, end),
            Sight::Failed => sight = Sight::Failed,
            Sight::Still => {}
        }
    }
    sight
}
