ghost use Rattle.std.specs.Prelude.{◌≡◌, ◌≢◌, ◌⊎◌, IfErr, IfOk, OnErr, OnOk};
ghost use Rattle.std.specs.IoError.{error_kind};
ghost use Rattle.std_io.specs.declared.io.kind.ErrorKind.TheVariants.{OutOfMemory};
ghost use Rattle.smf_edge.specs.Answers.{HasFailed};
ghost use Rattle.smf_edge.specs.Ends.{StartRefused};
ghost use Rattle.smf_edge.specs.declared.fault.KidsFault.TheVariants.{Memory, Refused};
ghost use Rattle.smf_edge.specs.FollowedFacts.{one_more_made};
ghost use Rattle.smf_edge.specs.declared.kid.Phase.TheVariants.{First};

use crate::book::Book;
use crate::contracts::Contracts;
use crate::deed::Happening;
use crate::fault::KidsFault;
use crate::kid::{Kid, Phase, end_one, forget, put};
use crate::kids::Kids;
use crate::note::Note;
use crate::sights::{Sight, see_all};
use crate::start::Start;
use smf_contract::{ContractEvent, ContractFault, ContractTable, Found, Holder};
use smf_fmri::{Items, Number};
use std::alloc::{AllocError, Global};
use std::io;
use std::io::ErrorKind;
use std::marker::Model;

/// One failure more, up to the greatest count.
fn one_more(faults: u64) -> u64
    ensures { HasFailed faults result }
{
    faults.saturating_add(1)
}

/// Why the system started no process.
fn start_fault(error: &io::Error) -> KidsFault
    ensures memory { error_kind error.now ≡ OutOfMemory → result ≡ Memory }
    ensures refused { error_kind error.now ≢ OutOfMemory → result ≡ Refused }
{
    if error.kind() == ErrorKind::OutOfMemory {
        return KidsFault::Memory;
    }
    KidsFault::Refused
}

/// Starts a method in a contract of the system.
fn start_contract<C: Contracts>(contracts: &mut C, start: &Start) -> Result<Kid<C::Held>, KidsFault>
    ensures contract { IfOk result (λ kid. kid.contract ≡ start.now.contract) }
    ensures phase { IfOk result (λ kid. kid.phase ≡ First) }
    ensures of { IfOk result (λ kid. C.facts.is_of start.now kid.held) }
    ensures fault { IfErr result (λ e. (e ≡ Memory) ⊎ ((e ≡ Refused) × StartRefused C.facts.start_fails)) }
    ensures one { OnOk result (C.made contracts.new ≡ one_more_made (C.made contracts.old)) }
    ensures none { OnErr result (C.made contracts.new ≡ C.made contracts.old) }
{
    match contracts.start(start) {
        Ok(held) => Ok(Kid {
            contract: start.contract,
            phase: Phase::First,
            held,
        }),
        Err(error) => Err(start_fault(&error)),
    }
}

/// Children that are processes of the system, in contracts that follow them through forks. They tell of two members of
/// each contract at the most: its first process, and one that stands for all others.
#[derive(Drop)]
pub struct FollowedKids<C: Contracts> {
    alloc: Global,
    contracts: C,
    book: Book,
    kids: Vec<Kid<C::Held>>,
    /// It stops at its greatest.
    faults: u64,
}

impl<C: Contracts> Model for FollowedKids<C> {
    ghost use Rattle.smf_edge.specs.Followed.{Following};

    ghost Value = { Following C.Held };

    ghost use Rattle.smf_edge.specs.Books.{ledger_of};
    ghost use Rattle.smf_edge.specs.Followed.{IsKept};
    ghost use Rattle.smf_edge.specs.Phases.{posts};

    ghost view = { λ s. record {
      ledger = ledger_of s.book;
      faults = s.faults;
      kids = s.kids.items;
      made = C.made s.contracts;
    } };

    ghost invariant = { λ s. IsKept (ledger_of s.book) (posts s.kids.items) };
}

impl<C: Contracts> FollowedKids<C> {
    ghost use Rattle.std.specs.Prelude.{◌≡◌, []};
    ghost use Rattle.std.specs.List.{AllByRecursion};
    ghost use Rattle.smf_contract.specs.declared.contract.Holder.TheVariants as holders;
    ghost use Rattle.smf_contract.specs.Entries.{empty};
    ghost use Rattle.smf_contract.specs.Laws.{IsOrdered};
    ghost use Rattle.smf_edge.specs.Ledgers.{ledger_over};
    ghost use Rattle.smf_edge.specs.Followed.{IsFollowed};
    ghost use Rattle.smf_edge.specs.Phases.{posts};

    /// No children yet.
    pub fn new(alloc: Global, contracts: C) -> FollowedKids<C>
        ensures { result ≡ record {
          ledger = record { notes = []; table = empty; due = []; pending = [] };
          faults = 0;
          kids = [];
          made = C.made contracts;
        } }
    {
        FollowedKids {
            alloc,
            contracts,
            book: Book::new(alloc),
            kids: Vec::new(alloc),
            faults: 0,
        }
    }

    /// Children that go on with the contracts of the system that are there. The table calls their holder 0.
    pub fn over(
        alloc: Global,
        contracts: C,
        table: ContractTable,
        kids: Vec<Kid<C::Held>>,
    ) -> FollowedKids<C>
        requires ordered { IsOrdered table.table }
        requires held { AllByRecursion (λ c. c.holder ≡ holders.Held 0) table.table.contracts }
        requires followed { IsFollowed (ledger_over table.table) (posts kids.items) }
        ensures { result ≡ record {
          ledger = ledger_over table.table;
          faults = 0;
          kids = kids.items;
          made = C.made contracts;
        } }
    {
        FollowedKids {
            alloc,
            contracts,
            book: Book::over(alloc, table),
            kids,
            faults: 0,
        }
    }
}

impl<C: Contracts + Drop> FollowedKids<C> {
    ghost use Rattle.std.specs.Prelude.{◌≡◌, IfOk, map};
    ghost use Rattle.smf_contract.specs.declared.contract.Holder.TheVariants as holders;
    ghost use Rattle.smf_contract.specs.Begun.{table_of_found};
    ghost use Rattle.smf_contract.specs.Laws.{Ascends};
    ghost use Rattle.smf_edge.specs.Ledgers.{ledger_over};
    ghost use Rattle.smf_edge.specs.FollowedBeginnings.{found_posts};
    ghost use Rattle.smf_edge.specs.Phases.{posts};

    /// Children that go on with the contracts of the system that are found, after the last id that was given. The system
    /// holds each of them.
    pub fn found(
        alloc: Global,
        contracts: C,
        last: Number,
        found: &[Found],
        kids: Vec<Kid<C::Held>>,
    ) -> Result<FollowedKids<C>, ContractFault>
        requires ascend { Ascends 0 (map (λ f. f.id) found.now) last }
        requires kids { posts kids.items ≡ found_posts found.now }
        ensures { IfOk result (λ new. new ≡ record {
          ledger = ledger_over (table_of_found (holders.Held 0) last found.now);
          faults = 0;
          kids = kids.items;
          made = C.made contracts;
        }) }
    {
        let table = ContractTable::found(alloc, Holder::Held(0), last, found)?;
        let made = FollowedKids::over(alloc, contracts, table, kids);
        Ok(made)
    }
}

impl<C: Contracts> Kids for FollowedKids<C> {
    ghost use Rattle.std.specs.Prelude.{◌≡◌, IfErr, IfOk, OnErr, OnOk, Err, filter, false, true};
    ghost use Rattle.smf_edge.specs.Answers.{MayNotAnswer, MayNotDo, MayNotSpawn};
    ghost use Rattle.smf_edge.specs.Ends.{MayRefuse};
    ghost use Rattle.smf_edge.specs.Ledgers.{members_left, run_of};
    ghost use Rattle.smf_edge.specs.Steps.{IsKilled, IsPolled, IsSpawned};
    ghost use Rattle.smf_edge.specs.declared.fault.KidsFault.TheVariants.{Device, NotFollowed};
    ghost use Rattle.smf_edge.specs.FollowedFacts.{one_more_made};
    ghost use Rattle.smf_edge.specs.Followed.{IsFollowed};
    ghost use Rattle.smf_edge.specs.Phases.{SomeKid, is_other_post, posts};
    ghost use Rattle.smf_edge.specs.Sights.{EmptiesOnly, IsStarted, OneFails, PollsKids, follow_skills};

    ghost ledger = { λ s. s.ledger };

    ghost failures = { λ s. s.faults };

    ghost skills = { follow_skills C.facts.start_fails };

    fn spawn(&mut self, start: &Start) -> Result<(), KidsFault>
        ensures made { OnOk result (IsSpawned (run_of start.now) self.old.ledger self.new.ledger) }
        ensures refused { OnErr result (self.new.ledger ≡ self.old.ledger) }
        ensures not_followed { true ≡ false → result ≡ Err NotFollowed }
        ensures fault { IfErr result
            (MayNotSpawn (Unit {0}) (MayRefuse C.facts.start_fails self.old.ledger start.now.contract) true) }
        ensures started { OnOk result (IsStarted C.facts start.now self.old.kids self.new.kids) }
        ensures one { OnOk result (self.new.made ≡ one_more_made self.old.made) }
        ensures none { OnErr result (self.new.made ≡ self.old.made) }
        ensures same { self.new.faults ≡ self.old.faults }
        ensures stay { OnErr result (self.new.kids ≡ self.old.kids) }
    {
        let run = start.run()?;
        self.kids.reserve(1)?;
        self.book.prepare(start.contract)?;
        let kid = start_contract(&mut self.contracts, start)?;
        self.book.make(run);
        self.kids.push(kid).unwrap();
        Ok(())
    }

    /// The clause `seen` says what is told of contracts: a fork and then the end of the first process, if others live.
    /// The last end is told only after the system said that nothing is left. The clause `empties` says that of all
    /// contracts.
    fn poll(&mut self) -> Result<Option<ContractEvent>, KidsFault>
        ensures polled { IfOk result (λ event. IsPolled event self.old.ledger self.new.ledger) }
        ensures refused { OnErr result (self.new.ledger ≡ self.old.ledger) }
        ensures fault { IfErr result (MayNotAnswer (follow_skills C.facts.start_fails) true self.old.faults self.new.faults) }
        ensures seen { IfOk result (λ event. PollsKids C.facts event self.old.ledger self.new.ledger self.old.kids self.new.kids) }
        ensures empties { OnOk result (EmptiesOnly C.facts self.old.kids self.old.ledger self.new.ledger) }
        ensures failed { IfErr result (λ e. e ≡ Device → OneFails C.facts self.old.kids) }
        ensures same { OnErr result (posts self.new.kids ≡ posts self.old.kids) }
        ensures none { self.new.made ≡ self.old.made }
    {
        if let Some(event) = self.book.give() {
            return Ok(Some(event));
        }
        let sight = see_all(&mut self.contracts, &self.book, &mut self.kids);
        match sight {
            Sight::Still => Ok(None),
            Sight::Failed => {
                self.faults = one_more(self.faults);
                Err(KidsFault::Device)
            }
            Sight::Left(id, end) => {
                let event = self.book.find(id, Happening::Fork)?;
                put(&mut self.kids, id, Phase::Forked(end));
                Ok(Some(event))
            }
            Sight::Over(id, end) => {
                let event = self.book.find(id, end.end_event())?;
                put(&mut self.kids, id, Phase::Others);
                Ok(Some(event))
            }
            Sight::Gone(id, end) => {
                let event = self.book.find(id, end.end_event())?;
                forget(&mut self.kids, id);
                Ok(Some(event))
            }
        }
    }

    fn join(&mut self, _id: Number) -> Result<(), KidsFault> {
        Err(KidsFault::NotHere)
    }

    fn kill(&mut self, id: Number) -> Result<(), KidsFault>
        ensures killed { OnOk result (IsKilled id self.old.ledger self.new.ledger) }
        ensures refused { OnErr result (self.new.ledger ≡ self.old.ledger) }
        ensures fault { IfErr result
            (MayNotDo (follow_skills C.facts.start_fails) true (members_left self.old.ledger id) self.old.faults self.new.faults) }
        ensures ended { OnOk result (SomeKid id self.old.kids (λ kid. C.facts.is_ended kid.held)) }
        ensures failed { IfErr result (λ e. e ≡ Device → SomeKid id self.old.kids (λ kid. C.facts.may_live kid.held)) }
        ensures forgotten { OnOk result (posts self.new.kids ≡ filter (is_other_post id) (posts self.old.kids)) }
        ensures same { OnErr result (posts self.new.kids ≡ posts self.old.kids) }
        ensures none { self.new.made ≡ self.old.made }
    {
        let kill = self.book.prepare_kill(id)?;
        if !end_one(&mut self.contracts, &mut self.kids, id) {
            self.faults = one_more(self.faults);
            return Err(KidsFault::Device);
        }
        self.book.kill(kill);
        forget(&mut self.kids, id);
        Ok(())
    }

    fn act(&mut self, _id: Number, _happening: Happening) -> Result<(), KidsFault> {
        Err(KidsFault::NotHere)
    }

    fn reboot(&mut self) -> Result<(), KidsFault> {
        Err(KidsFault::NotHere)
    }

    fn list(&mut self) -> Result<Items<Number>, KidsFault> {
        let ids = self.book.list()?;
        Ok(ids)
    }

    /// The clause `followed` says that each contract with members stands with the system, and has as many as was told.
    fn faults(&self) -> u64
        ensures faults { result ≡ self.now.faults }
        ensures followed { IsFollowed self.now.ledger (posts self.now.kids) }
    {
        self.faults
    }

    fn forget(&mut self) -> Result<(), AllocError> {
        self.book.forget()
    }

    fn notes(&self) -> &[Note] {
        self.book.notes()
    }
}
