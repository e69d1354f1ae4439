ghost use Rattle.smf_edge.specs.Answers.{HasFailed};

use crate::book::Book;
use crate::child::{Kid, Sight, end_all, forget, see_all, start_program, wait_for};
use crate::deed::Happening;
use crate::fault::KidsFault;
use crate::kids::Kids;
use crate::note::Note;
use crate::shell::{follows, shell};
use crate::start::Start;
use crate::system::System;
use smf_contract::ContractEvent;
use smf_fmri::{Items, Number};
use std::alloc::{AllocError, Global};
use std::io::Stderr;
use std::marker::Model;

/// One failure more, up to the greatest count.
fn one_more(faults: u64) -> u64
    ensures { HasFailed faults result }
{
    faults.saturating_add(1)
}

/// Children that are processes of the system, each in a process group of its own. The process that was started is the
/// only member of its contract: what it forks is not followed. A kill ends that too, as far as it stays in the group,
/// and so does the end of the process of a child service.
#[derive(Drop)]
pub struct OsKids<R: System> {
    alloc: Global,
    system: R,
    output: Stderr,
    book: Book,
    children: Vec<Kid<R::Started>>,
    /// It stops at its greatest.
    faults: u64,
}

impl<R: System> Model for OsKids<R> {
    ghost use Rattle.smf_edge.specs.Processes.{OsChildren};

    ghost Value = { OsChildren R.Started };

    ghost use Rattle.smf_edge.specs.Books.{ledger_of};
    ghost use Rattle.smf_edge.specs.Manned.{IsKept};
    ghost use Rattle.smf_edge.specs.Processes.{contracts};

    ghost view = { λ s. record {
      ledger = ledger_of s.book;
      failures = s.faults;
      kids = s.children.items;
      started = R.starts s.system;
    } };

    ghost invariant = { λ s. IsKept (ledger_of s.book) (contracts s.children.items) };
}

impl<R: System> OsKids<R> {
    ghost use Rattle.std.specs.Prelude.{◌≡◌, []};
    ghost use Rattle.smf_contract.specs.Entries.{empty};

    /// No children yet. Their output goes to this stream.
    pub fn new(alloc: Global, system: R, output: Stderr) -> OsKids<R>
        ensures { result ≡ record {
          ledger = record { notes = []; table = empty; due = []; pending = [] };
          failures = 0;
          kids = [];
          started = R.starts system;
        } }
    {
        OsKids {
            alloc,
            system,
            output,
            book: Book::new(alloc),
            children: Vec::new(alloc),
            faults: 0,
        }
    }
}

impl<R: System> Kids for OsKids<R> {
    ghost use Rattle.std.specs.Prelude.{◌≡◌, ◌≢◌, IfErr, IfOk, OnErr, OnOk, Err, filter, false, true};
    ghost use Rattle.smf_edge.specs.Answers.{MayNotAnswer, MayNotDo, MayNotSpawn};
    ghost use Rattle.smf_edge.specs.Ends.{MayRefuse, os_skills};
    ghost use Rattle.smf_edge.specs.Ledgers.{members_left, remaining, run_of};
    ghost use Rattle.smf_edge.specs.Manned.{IsManned};
    ghost use Rattle.smf_edge.specs.Processes.{HasNoExit, IsEnded, IsJoinedEnd, IsNotEnded, IsStarted, KidHasLeft, KidIsToEnd, OneFails, OneHasLeft, PollsKids, SomeKid, contracts, is_other_role, roles};
    ghost use Rattle.smf_edge.specs.Shell.{IsRun, follows};
    ghost use Rattle.smf_edge.specs.Starts.{MadeNone, OnlyKills};
    ghost use Rattle.smf_edge.specs.Steps.{IsJoined, IsKilled, IsPolled, IsSpawned, ledger_after_boot, ledger_with_member_event, live_contracts};
    ghost use Rattle.smf_edge.specs.declared.fault.KidsFault.TheVariants.{Device, Memory, NotFollowed, NotHere};

    ghost ledger = { λ s. s.ledger };

    ghost failures = { λ s. s.failures };

    ghost skills = { os_skills R.facts.start_fails };

    fn spawn(&mut self, start: &Start) -> Result<(), KidsFault>
        ensures made { OnOk result (IsSpawned (run_of start.now) self.old.ledger self.new.ledger) }
        ensures refused { OnErr result (self.new.ledger ≡ self.old.ledger) }
        ensures not_followed { follows start.now.style ≡ false → result ≡ Err NotFollowed }
        ensures fault { IfErr result
            (MayNotSpawn (Unit {0}) (MayRefuse R.facts.start_fails self.old.ledger start.now.contract)
            (follows start.now.style)) }
        ensures same { self.new.failures ≡ self.old.failures }
        ensures started { OnOk result (IsStarted R.facts start.now self.old self.new) }
        ensures none { OnErr result (MadeNone (IsRun start.now) self.old.started self.new.started) }
        ensures unfollowed { follows start.now.style ≡ false → self.new.started ≡ self.old.started }
        ensures stay { OnErr result (self.new.kids ≡ self.old.kids) }
    {
        if !follows(start.style) {
            return Err(KidsFault::NotFollowed);
        }
        let mut program = shell(self.alloc, start, self.output)?;
        let run = start.run()?;
        self.children.reserve(1)?;
        self.book.prepare(start.contract)?;
        let kid = start_program(&mut self.system, &mut program, start.contract, start.style)?;
        self.book.make(run);
        self.children.push(kid).unwrap();
        Ok(())
    }

    /// The clause `seen` says that the end of a process is told only after the system told it. For a child service it
    /// is told only after the killer of its group ran. The end of a joined process was told in `join`, which says the
    /// same.
    fn poll(&mut self) -> Result<Option<ContractEvent>, KidsFault>
        ensures polled { IfOk result (λ event. IsPolled event self.old.ledger self.new.ledger) }
        ensures refused { OnErr result (self.new.ledger ≡ self.old.ledger) }
        ensures fault { IfErr result (MayNotAnswer (os_skills R.facts.start_fails) true self.old.failures self.new.failures) }
        ensures seen { IfOk result (λ event. PollsKids R.facts event self.old.ledger self.new.ledger self.old.kids self.new.kids) }
        ensures failed { IfErr result (λ e. e ≡ Device → OneFails R.facts self.old.kids) }
        ensures same { OnErr result (roles self.new.kids ≡ roles self.old.kids) }
        ensures kills { OnlyKills (OneHasLeft R.facts self.old.kids) self.old.started self.new.started }
    {
        if let Some(event) = self.book.give() {
            return Ok(Some(event));
        }
        if let Some(event) = self.book.take()? {
            forget(&mut self.children, event.contract);
            return Ok(Some(event));
        }
        let sight = see_all(self.alloc, &mut self.system, &mut self.children)?;
        match sight {
            Sight::Running => Ok(None),
            Sight::Failed => {
                self.faults = one_more(self.faults);
                Err(KidsFault::Device)
            }
            Sight::Ended(contract, exit) => {
                let event = self.book.find(contract, Happening::Exit(exit))?;
                forget(&mut self.children, contract);
                Ok(Some(event))
            }
        }
    }

    fn join(&mut self, id: Number) -> Result<(), KidsFault>
        ensures joined { OnOk result (IsJoined id self.old.ledger self.new.ledger) }
        ensures refused { OnErr result (self.new.ledger ≡ self.old.ledger) }
        ensures not_here { true ≡ false → result ≡ Err NotHere }
        ensures fault { IfErr result
            (MayNotDo (os_skills R.facts.start_fails) true (members_left self.old.ledger id) self.old.failures self.new.failures) }
        ensures ended { OnOk result (IsJoinedEnd R.facts id self.old.kids self.old.ledger self.new.ledger) }
        ensures failed { IfErr result (λ e. e ≡ Device → SomeKid id self.old.kids (HasNoExit R.facts)) }
        ensures same { roles self.new.kids ≡ roles self.old.kids }
        ensures kills { OnlyKills (KidHasLeft R.facts id self.old.kids) self.old.started self.new.started }
    {
        if self.book.members_left(id) == 0 {
            return Err(KidsFault::NoChild);
        }
        let told = wait_for(self.alloc, &mut self.system, &mut self.children, id)?;
        match told {
            Some(exit) => self.book.happen(id, Happening::Exit(exit)),
            None => {
                self.faults = one_more(self.faults);
                Err(KidsFault::Device)
            }
        }
    }

    fn kill(&mut self, id: Number) -> Result<(), KidsFault>
        ensures killed { OnOk result (IsKilled id self.old.ledger self.new.ledger) }
        ensures refused { OnErr result (self.new.ledger ≡ self.old.ledger) }
        ensures fault { IfErr result
            (MayNotDo (os_skills R.facts.start_fails) true (members_left self.old.ledger id) self.old.failures self.new.failures) }
        ensures ended { OnOk result (SomeKid id self.old.kids (IsEnded R.facts)) }
        ensures failed { IfErr result (λ e. e ≡ Device → SomeKid id self.old.kids (IsNotEnded R.facts)) }
        ensures forgotten { OnOk result (roles self.new.kids ≡ filter (is_other_role id) (roles self.old.kids)) }
        ensures same { OnErr result (roles self.new.kids ≡ roles self.old.kids) }
        ensures kills { OnlyKills (KidIsToEnd R.facts id self.old.kids) self.old.started self.new.started }
    {
        let kill = self.book.prepare_kill(id)?;
        if !end_all(self.alloc, &mut self.system, &mut self.children, id)? {
            self.faults = one_more(self.faults);
            return Err(KidsFault::Device);
        }
        self.book.kill(kill);
        forget(&mut self.children, id);
        Ok(())
    }

    fn act(&mut self, id: Number, happening: Happening) -> Result<(), KidsFault>
        ensures acted { OnOk result (self.new.ledger ≡ ledger_with_member_event self.old.ledger id happening) }
        ensures refused { OnErr result (self.new.ledger ≡ self.old.ledger) }
        ensures not_here { false ≡ false → result ≡ Err NotHere }
        ensures fault { IfErr result (MayNotDo (os_skills R.facts.start_fails) false
            (members_left self.old.ledger id) self.old.failures self.new.failures) }
        ensures same { self.new ≡ self.old }
    {
        Err(KidsFault::NotHere)
    }

    fn reboot(&mut self) -> Result<(), KidsFault>
        ensures restarted { OnOk result (self.new.ledger ≡ ledger_after_boot self.old.ledger) }
        ensures refused { OnErr result (self.new.ledger ≡ self.old.ledger) }
        ensures not_here { false ≡ false → result ≡ Err NotHere }
        ensures fault { IfErr result
            (MayNotAnswer (os_skills R.facts.start_fails) false self.old.failures self.new.failures) }
        ensures no_memory { result ≢ Err Memory }
        ensures same { self.new ≡ self.old }
    {
        Err(KidsFault::NotHere)
    }

    fn list(&mut self) -> Result<Items<Number>, KidsFault>
        ensures listed { IfOk result (λ ids. ids ≡ live_contracts self.old.ledger) }
        ensures same { self.new.ledger ≡ self.old.ledger }
        ensures fault { IfErr result
            (MayNotAnswer (os_skills R.facts.start_fails) true self.old.failures self.new.failures) }
        ensures none { self.new.started ≡ self.old.started }
    {
        let ids = self.book.list()?;
        Ok(ids)
    }

    /// The clause `manned` says that each contract with members has its one process.
    fn faults(&self) -> u64
        ensures faults { result ≡ self.now.failures }
        ensures manned { IsManned self.now.ledger (contracts self.now.kids) }
    {
        self.faults
    }

    fn forget(&mut self) -> Result<(), AllocError>
        ensures forgot { OnOk result (self.new.ledger ≡ remaining self.old.ledger) }
        ensures kept { OnErr result (self.new.ledger ≡ self.old.ledger) }
        ensures same { self.new.failures ≡ self.old.failures }
        ensures none { self.new.started ≡ self.old.started }
    {
        self.book.forget()
    }

    fn notes(&self) -> &[Note] {
        self.book.notes()
    }
}
