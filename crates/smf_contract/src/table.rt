ghost use Rattle.std.specs.Prelude.{◌≡◌, ◌<◌, ◌≤◌, IfOk, MatchResult, OnOk, OnErr, length, map, true, false};
ghost use Rattle.smf_contract.specs.Entries.{contract, empty, first_member, has_members, home, processes, report_of_event, status, status_of, statuses, events_from};
ghost use Rattle.smf_contract.specs.Calls.{Leaves, Makes, result_of_spawn, result_of_fork, result_of_exit, result_of_failure, result_of_core, result_of_signal, failed_by_hardware, table_without_actor, result_of_adoption, result_of_abandonment, result_of_kill, result_of_acknowledgement, next_contract, table_after_reboot};
ghost use Rattle.smf_contract.specs.Begun.{table_of_found, with_found};
ghost use Rattle.smf_contract.specs.Laws.{Ascends};
ghost use Rattle.smf_contract.specs.Thinned.{thinned};
ghost use Rattle.smf_contract.specs.Called.{table_after_contract_call, emptied_by};
ghost use Rattle.smf_contract.specs.declared.call.ContractCall.TheVariants as calls;

use crate::book::Book;
use crate::call::ContractCall;
use crate::change::{earlier, end_members, end_with, exit_all, exit_one, kind_of, make_room};
use crate::contract::{Contract, Holder, Member, Report, Status};
use crate::ends::{ended_ids, failed_ids, ids_left, killed_ids};
use crate::event::{ContractEvent, EventKind, Exit, Failure};
use crate::fault::ContractFault;
use crate::found::Found;
use crate::lookup::{acknowledged_at, contract_held_by, is_fatal, is_held, report};
use crate::members::Members;
use crate::past::Past;
use crate::terms::Terms;
use smf_fmri::{Items, Number};
use std::alloc::{AllocError, Global};
use std::marker::Model;

/// The result of a spawn: a contract, and its first process.
#[derive(Clone, Copy, PartialEq, Eq)]
pub struct Made {
    pub contract: Number,
    pub process: Number,
}

/// The contracts of all actors, as contract(4) and process(4) have them.
#[derive(Drop)]
pub struct ContractTable {
    alloc: Global,
    book: Book,
    members: Members,
    past: Past,
}

impl Model for ContractTable {
    ghost use Rattle.std.specs.Prelude.{length};
    ghost use Rattle.smf_contract.specs.Entries.{Kept, has_room};

    ghost Value = { Kept };

    ghost view = { λ t. record { table = record { contracts = t.book.contracts; members = t.members.members; events = t.past.events; last_contract = t.book.last; last_process = t.members.last }; room = has_room (length t.book.contracts) t.book.fit (length t.members.members) t.members.fit (length t.past.events) t.past.fit } };
}

impl ContractTable {
    pub fn new(alloc: Global) -> ContractTable
        ensures { result.table ≡ empty }
    {
        ContractTable {
            alloc,
            book: Book::new(alloc),
            members: Members::new(alloc),
            past: Past::new(alloc),
        }
    }

    /// No id up to this one is given again.
    fn skip_to(&mut self, last: Number)
        requires { self.old.table.last_contract ≤ last }
        ensures { self.new.table ≡ record self.old.table { last_contract = last } }
    {
        self.book.skip_to(last);
    }

    /// The table of contracts that are there already, all with this holder, and the last id that was given.
    pub fn found(
        alloc: Global,
        holder: Holder,
        last: Number,
        found: &[Found],
    ) -> Result<ContractTable, ContractFault>
        requires { Ascends 0 (map (λ f. f.id) found.now) last }
        ensures { IfOk result (λ made. made.table ≡ table_of_found holder last found.now) }
    {
        let mut table = ContractTable::new(alloc);
        for one in found {
            table.put_found(holder, *one)?;
        }
        table.skip_to(last);
        Ok(table)
    }

    /// A table of the contracts that have members, with their events. The others are gone, and their ids are not given
    /// again.
    pub fn thinned(&self) -> Result<ContractTable, AllocError>
        ensures { IfOk result (λ thin. thin.table ≡ thinned self.now.table) }
    {
        let book = self.book.with_members(self.alloc, &self.members)?;
        let members = self.members.copied(self.alloc)?;
        let past = self.past.with_members(self.alloc, &self.members)?;
        Ok(ContractTable {
            alloc: self.alloc,
            book,
            members,
            past,
        })
    }

    /// Makes room, so that the next call that changes the table answers no `Memory`.
    pub fn reserve(&mut self) -> Result<(), AllocError>
        ensures kept { self.new.table ≡ self.old.table }
        ensures room { OnOk result (self.new.room ≡ true) }
        ensures missing { OnErr result (self.old.room ≡ false) }
    {
        make_room(&mut self.book, &mut self.members, &mut self.past)
    }

    /// Makes a contract that an actor holds, with one process. `Full` comes if no id or no number is left.
    #[tactic(auto, unfolding(crate::specs::Calls::result_of_spawn))]
    pub fn spawn(&mut self, actor: u64, cookie: u64, terms: Terms) -> Result<Made, ContractFault>
        ensures exact { Makes result (result_of_spawn self.old.table actor cookie terms) self.new.table }
        ensures err { OnErr result (self.new.table ≡ self.old.table) }
        ensures memory { result ≡ Err ContractFault.Memory → self.old.room ≡ false }
    {
        let Some(contract) = self.book.last().next() else {
            return Err(ContractFault::Full);
        };
        let Some(process) = self.members.last().next() else {
            return Err(ContractFault::Full);
        };
        make_room(&mut self.book, &mut self.members, &mut self.past)?;
        self.past.begin(contract);
        self.book.push(Contract {
            id: contract,
            cookie,
            holder: Holder::Held(actor),
            terms,
            first: process,
            acknowledged: Number::zero(),
        });
        self.members.push(Member { process, contract }, process);
        Ok(Made { contract, process })
    }

    /// Adds a contract that is there already, of a later id than all others. `Full` comes if no number is left.
    #[tactic(auto, unfolding(crate::specs::Begun::with_found))]
    fn put_found(&mut self, holder: Holder, found: Found) -> Result<(), ContractFault>
        requires later { self.old.table.last_contract < found.id }
        ensures put { OnOk result (self.new.table ≡ with_found holder self.old.table found) }
        ensures err { OnErr result (self.new.table ≡ self.old.table) }
    {
        let Some(first) = self.members.last().next() else {
            return Err(ContractFault::Full);
        };
        let Some(others) = first.next() else {
            return Err(ContractFault::Full);
        };
        make_room(&mut self.book, &mut self.members, &mut self.past)?;
        let contract = found.id;
        self.book.push(Contract {
            id: contract,
            cookie: found.cookie,
            holder,
            terms: found.terms,
            first,
            acknowledged: Number::zero(),
        });
        match found.end {
            None => {
                let process = first;
                self.past.begin(contract);
                self.members.push(Member { process, contract }, others);
                Ok(())
            }
            Some(exit) => {
                let process = others;
                self.members.push(Member { process, contract }, others);
                self.past.note(contract, EventKind::Exit(first, exit), true);
                Ok(())
            }
        }
    }

    /// A member forks. The answer is the number of the new process, which is a member too.
    #[tactic(auto, unfolding(crate::specs::Calls::result_of_fork))]
    pub fn fork(&mut self, process: Number) -> Result<Number, ContractFault>
        ensures exact { Makes result (result_of_fork self.old.table process) self.new.table }
        ensures err { OnErr result (self.new.table ≡ self.old.table) }
        ensures memory { result ≡ Err ContractFault.Memory → self.old.room ≡ false }
    {
        let Some(contract) = self.members.home(process) else {
            return Err(ContractFault::NoSuchProcess);
        };
        let Some(child) = self.members.last().next() else {
            return Err(ContractFault::Full);
        };
        make_room(&mut self.book, &mut self.members, &mut self.past)?;
        let member = Member {
            process: child,
            contract,
        };
        self.members.push(member, child);
        self.past.note(contract, EventKind::Fork(child), true);
        Ok(child)
    }

    /// A member exits.
    #[tactic(auto, unfolding(crate::specs::Calls::result_of_exit))]
    pub fn exit(&mut self, process: Number, exit: Exit) -> Result<(), ContractFault>
        ensures exact { Leaves result (result_of_exit self.old.table process exit) self.new.table }
        ensures err { OnErr result (self.new.table ≡ self.old.table) }
        ensures memory { result ≡ Err ContractFault.Memory → self.old.room ≡ false }
    {
        let Some(contract) = self.members.home(process) else {
            return Err(ContractFault::NoSuchProcess);
        };
        make_room(&mut self.book, &mut self.members, &mut self.past)?;
        exit_one(&mut self.members, &mut self.past, contract, process, exit);
        Ok(())
    }

    /// A member dumps core, which ends it, and all others if that is fatal.
    pub fn core(&mut self, process: Number) -> Result<(), ContractFault>
        ensures exact { Leaves result (result_of_core self.old.table process) self.new.table }
        ensures err { OnErr result (self.new.table ≡ self.old.table) }
        ensures memory { result ≡ Err ContractFault.Memory → self.old.room ≡ false }
    {
        self.fail(process, Failure::Core)
    }

    /// A signal ends a member, and all others if that is fatal.
    pub fn signal(&mut self, process: Number) -> Result<(), ContractFault>
        ensures exact { Leaves result (result_of_signal self.old.table process) self.new.table }
        ensures err { OnErr result (self.new.table ≡ self.old.table) }
        ensures memory { result ≡ Err ContractFault.Memory → self.old.room ≡ false }
    {
        self.fail(process, Failure::Signal)
    }

    /// An error of the hardware ends a member, and all others if that is fatal.
    pub fn hwerr(&mut self, process: Number) -> Result<(), ContractFault>
        ensures exact { Leaves result (failed_by_hardware self.old.table process) self.new.table }
        ensures err { OnErr result (self.new.table ≡ self.old.table) }
        ensures memory { result ≡ Err ContractFault.Memory → self.old.room ≡ false }
    {
        self.fail(process, Failure::Hwerr)
    }

    /// A failure ends a member, and all others if it is fatal.
    #[tactic(auto, unfolding(crate::specs::Calls::result_of_failure))]
    pub fn fail(&mut self, process: Number, failure: Failure) -> Result<(), ContractFault>
        ensures exact { Leaves result (result_of_failure failure self.old.table process) self.new.table }
        ensures err { OnErr result (self.new.table ≡ self.old.table) }
        ensures memory { result ≡ Err ContractFault.Memory → self.old.room ≡ false }
    {
        let Some(contract) = self.members.home(process) else {
            return Err(ContractFault::NoSuchProcess);
        };
        make_room(&mut self.book, &mut self.members, &mut self.past)?;
        self.past.note(contract, kind_of(failure, process), true);
        if is_fatal(&self.book, contract, failure) {
            exit_all(&mut self.members, &mut self.past, contract, process);
        } else {
            exit_one(
                &mut self.members,
                &mut self.past,
                contract,
                process,
                Exit::Killed,
            );
        }
        Ok(())
    }

    /// An actor is gone. Its contracts can be adopted if their terms say `inherit`; the others are abandoned.
    #[tactic(auto, unfolding(crate::specs::Calls::table_without_actor))]
    pub fn holder_gone(&mut self, actor: u64) -> Result<(), AllocError>
        ensures exact { OnOk result (self.new.table ≡ table_without_actor self.old.table actor) }
        ensures err { OnErr result (self.new.table ≡ self.old.table) }
        ensures memory { OnErr result (self.old.room ≡ false) }
    {
        make_room(&mut self.book, &mut self.members, &mut self.past)?;
        end_with(
            self.book.as_slice(),
            &mut self.members,
            &mut self.past,
            actor,
        );
        self.book.give_up(actor);
        Ok(())
    }

    /// Takes over a contract that is inherited; of any other it is `NotInherited`.
    #[tactic(auto, unfolding(crate::specs::Calls::result_of_adoption))]
    pub fn adopt(&mut self, actor: u64, id: Number) -> Result<(), ContractFault>
        ensures exact { MatchResult result (λ _. result_of_adoption self.old.table actor id ≡ Ok self.new.table)
            (λ e. result_of_adoption self.old.table actor id ≡ Err e) }
        ensures room { self.new.room ≡ self.old.room }
        ensures err { OnErr result (self.new ≡ self.old) }
    {
        let Some(contract) = self.book.get(id) else {
            return Err(ContractFault::NotInherited);
        };
        match contract.holder {
            Holder::Inherited => {
                self.book.set_holder(id, Holder::Held(actor));
                Ok(())
            }
            Holder::Held(_) | Holder::Abandoned => Err(ContractFault::NotInherited),
        }
    }

    /// Gives a contract up for good. Its members end if the terms say `noorphan`.
    #[tactic(auto, unfolding(crate::specs::Calls::result_of_abandonment))]
    pub fn abandon(&mut self, actor: u64, id: Number) -> Result<(), ContractFault>
        ensures exact { Leaves result (result_of_abandonment self.old.table actor id) self.new.table }
        ensures err { OnErr result (self.new.table ≡ self.old.table) }
        ensures memory { result ≡ Err ContractFault.Memory → self.old.room ≡ false }
    {
        let Some(contract) = contract_held_by(&self.book, actor, id) else {
            return Err(ContractFault::NotHeld);
        };
        make_room(&mut self.book, &mut self.members, &mut self.past)?;
        self.book.set_holder(id, Holder::Abandoned);
        if contract.terms.noorphan {
            end_members(&mut self.members, &mut self.past, id);
        }
        Ok(())
    }

    /// Kills the members of a contract, if it has any.
    #[tactic(auto, unfolding(crate::specs::Calls::result_of_kill))]
    pub fn kill(&mut self, actor: u64, id: Number) -> Result<(), ContractFault>
        ensures exact { Leaves result (result_of_kill self.old.table actor id) self.new.table }
        ensures err { OnErr result (self.new.table ≡ self.old.table) }
        ensures memory { result ≡ Err ContractFault.Memory → self.old.room ≡ false }
    {
        if contract_held_by(&self.book, actor, id).is_none() {
            return Err(ContractFault::NotHeld);
        }
        make_room(&mut self.book, &mut self.members, &mut self.past)?;
        end_members(&mut self.members, &mut self.past, id);
        Ok(())
    }

    /// Acknowledges the events of a contract up to a number, as far as they have happened:
    /// `events_from` gives them no more.
    #[tactic(auto, unfolding(crate::specs::Calls::result_of_acknowledgement))]
    pub fn ack(&mut self, actor: u64, id: Number, number: Number) -> Result<(), ContractFault>
        ensures exact { MatchResult result
            (λ _. result_of_acknowledgement self.old.table actor id number ≡ Ok self.new.table)
            (λ e. result_of_acknowledgement self.old.table actor id number ≡ Err e) }
        ensures room { self.new.room ≡ self.old.room }
        ensures err { OnErr result (self.new ≡ self.old) }
    {
        let Some(_) = contract_held_by(&self.book, actor, id) else {
            return Err(ContractFault::NotHeld);
        };
        let happened = Number::new(self.past.last_event(id)).unwrap();
        self.book.acknowledge(id, earlier(number, happened));
        Ok(())
    }

    /// The machine begins anew: no contract, member or event is left. The numbers that were given
    /// are not given again.
    pub fn reboot(&mut self)
        ensures exact { self.new.table ≡ table_after_reboot self.old.table }
        ensures room { self.old.room ≡ true → self.new.room ≡ true }
    {
        self.book.clear();
        self.members.clear();
        self.past.clear();
    }

    /// Does a call, for which `reserve` made room. A call that the table refuses leaves the table as it was.
    #[tactic(auto, unfolding(crate::specs::Called::table_after_contract_call))]
    pub fn call(&mut self, call: ContractCall)
        requires { self.old.room ≡ true }
        ensures { self.new.table ≡ table_after_contract_call self.old.table call }
    {
        match call {
            ContractCall::Nothing => {}
            ContractCall::Spawn {
                actor,
                cookie,
                terms,
            } => {
                let _ = self.spawn(actor, cookie, terms);
            }
            ContractCall::Adopt { actor, contract } => {
                let _ = self.adopt(actor, contract);
            }
            ContractCall::Kill { actor, contract } => {
                let _ = self.kill(actor, contract);
            }
            ContractCall::Gone { actor } => {
                let _ = self.holder_gone(actor);
            }
            ContractCall::Reboot => self.reboot(),
            ContractCall::Fork(process) => {
                let _ = self.fork(process);
            }
            ContractCall::Exit(process, exit) => {
                let _ = self.exit(process, exit);
            }
            ContractCall::Fail(process, failure) => {
                let _ = self.fail(process, failure);
            }
        }
    }

    /// The contracts that a call would take the last member of, in the order of their ids.
    /// A reboot empties none, since none is left.
    #[tactic(auto, using(crate::proofs::EmptiedBy::nothing_empties, crate::proofs::EmptiedBy::spawn_empties, crate::proofs::EmptiedBy::adopt_empties, crate::proofs::EmptiedBy::reboot_empties, crate::proofs::EmptiedBy::fork_empties))]
    pub fn emptied_by(&self, call: ContractCall) -> Result<Items<Number>, AllocError>
        ensures { IfOk result (λ ids. ids ≡ emptied_by self.now.table call) }
    {
        match call {
            ContractCall::Nothing => Ok(Items::new(self.alloc)),
            ContractCall::Spawn { .. } => Ok(Items::new(self.alloc)),
            ContractCall::Adopt { .. } => Ok(Items::new(self.alloc)),
            ContractCall::Reboot => Ok(Items::new(self.alloc)),
            ContractCall::Fork(_) => Ok(Items::new(self.alloc)),
            ContractCall::Kill { actor, contract } => self.emptied_by_kill(actor, contract),
            ContractCall::Gone { actor } => self.emptied_by_loss(actor),
            ContractCall::Exit(process, exit) => self.emptied_by_exit(process, exit),
            ContractCall::Fail(process, failure) => self.emptied_by_failure(process, failure),
        }
    }

    #[tactic(auto, using(crate::proofs::EmptiedBy::kill_empties))]
    fn emptied_by_kill(&self, actor: u64, id: Number) -> Result<Items<Number>, AllocError>
        ensures { IfOk result (λ ids. ids ≡ emptied_by self.now.table (calls.Kill actor id)) }
    {
        if !is_held(&self.book, actor, id) {
            return Ok(Items::new(self.alloc));
        }
        let ids = killed_ids(self.alloc, &self.book, &self.members, id)?;
        Ok(Items::from_vec(ids))
    }

    #[tactic(auto, using(crate::proofs::EmptiedBy::loss_empties))]
    fn emptied_by_loss(&self, actor: u64) -> Result<Items<Number>, AllocError>
        ensures { IfOk result (λ ids. ids ≡ emptied_by self.now.table (calls.Gone actor)) }
    {
        let ids = ids_left(self.alloc, self.book.as_slice(), &self.members, actor)?;
        Ok(Items::from_vec(ids))
    }

    #[tactic(auto, using(crate::proofs::EmptiedBy::exit_empties))]
    fn emptied_by_exit(&self, process: Number, exit: Exit) -> Result<Items<Number>, AllocError>
        ensures { IfOk result (λ ids. ids ≡ emptied_by self.now.table (calls.Exit process exit)) }
    {
        let Some(id) = self.members.home(process) else {
            return Ok(Items::new(self.alloc));
        };
        let ids = ended_ids(self.alloc, &self.book, &self.members, false, id, process)?;
        Ok(Items::from_vec(ids))
    }

    #[tactic(auto, using(crate::proofs::EmptiedBy::failure_empties))]
    fn emptied_by_failure(
        &self,
        process: Number,
        failure: Failure,
    ) -> Result<Items<Number>, AllocError>
        ensures { IfOk result (λ ids. ids ≡ emptied_by self.now.table (calls.Fail process failure)) }
    {
        let Some(id) = self.members.home(process) else {
            return Ok(Items::new(self.alloc));
        };
        let ids = failed_ids(self.alloc, &self.book, &self.members, failure, id, process)?;
        Ok(Items::from_vec(ids))
    }

    /// All contracts, in the order of their ids.
    pub fn list(&self) -> Result<Items<Status>, AllocError>
        ensures { IfOk result (λ list. list ≡ statuses self.now.table) }
    {
        let mut list = Items::new(self.alloc);
        for c in self.book.as_slice() {
            list.push(self.status_of(c)?)?;
        }
        Ok(list)
    }

    /// The contract of an id, if there is one.
    pub fn status(&self, id: Number) -> Result<Option<Status>, AllocError>
        ensures { IfOk result (λ found. found ≡ status self.now.table id) }
    {
        match self.book.get(id) {
            Some(contract) => Ok(Some(self.status_of(&contract)?)),
            None => Ok(None),
        }
    }

    fn status_of(&self, contract: &Contract) -> Result<Status, AllocError>
        ensures { IfOk result (λ found. found ≡ status_of self.now.table contract.now) }
    {
        let members = self.members.processes(self.alloc, contract.id)?;
        let events = self.past.events_of(self.alloc, contract.id)?;
        Ok(Status {
            contract: *contract,
            members: Items::from_vec(members),
            events: Items::from_vec(events),
        })
    }

    /// The events of a contract from a number on that were not acknowledged; none of a contract
    /// that is not there.
    pub fn events_from(
        &self,
        id: Number,
        number: Number,
    ) -> Result<Items<ContractEvent>, AllocError>
        ensures { IfOk result (λ given. given ≡ events_from self.now.table id number) }
    {
        let acknowledged = acknowledged_at(&self.book, id);
        let given = self
            .past
            .given_events(self.alloc, id, number, acknowledged)?;
        Ok(Items::from_vec(given))
    }

    /// The event of a number of a contract, for a report to its holder; none if there is no such event.
    #[tactic(auto, unfolding(crate::specs::Entries::report_of_event))]
    pub fn report(&self, contract: u64, number: u64) -> Option<Report>
        ensures { result ≡ report_of_event self.now.table contract number }
    {
        report(&self.book, &self.past, contract, number)
    }

    /// The id that a spawn would make; none if it would be `Full`.
    #[tactic(auto, unfolding(crate::specs::Calls::next_contract))]
    pub fn next_contract(&self) -> Option<Number>
        ensures { result ≡ next_contract self.now.table }
    {
        let contract = self.book.last().next()?;
        self.members.last().next()?;
        Some(contract)
    }

    /// The contract of an id, if there is one, without its members and events.
    pub fn contract(&self, id: Number) -> Option<Contract>
        ensures { result ≡ contract self.now.table id }
    {
        self.book.get(id)
    }

    /// The contract that a process is in.
    pub fn home(&self, process: Number) -> Option<Number>
        ensures { result ≡ home self.now.table.members process }
    {
        self.members.home(process)
    }

    /// True if a contract has a member; false if there is no such contract.
    pub fn has_members(&self, id: Number) -> bool
        ensures { result ≡ has_members id self.now.table.members }
    {
        self.members.has_members(id)
    }

    /// The lowest process of a contract; none if it is empty.
    pub fn first_member(&self, id: Number) -> Option<Number>
        ensures { result ≡ first_member id self.now.table.members }
    {
        self.members.first_member(id)
    }

    /// How many members a contract has.
    pub fn count_members(&self, id: Number) -> usize
        ensures value { result ≡ length (processes id self.now.table.members) }
        ensures bound { result < 0x7fff_ffff_ffff_ffff }
    {
        self.members.count(id)
    }

    /// The processes of a contract, in the order of their numbers.
    pub fn processes(&self, alloc: Global, id: Number) -> Result<Vec<Number>, AllocError>
        ensures { IfOk result (λ found. found.items ≡ processes id self.now.table.members) }
    {
        self.members.processes(alloc, id)
    }

    /// All contracts, in the order of their ids.
    pub fn contracts(&self) -> &[Contract]
        ensures { result.now ≡ self.now.table.contracts }
    {
        self.book.as_slice()
    }

    /// All processes, in the order of their numbers.
    pub fn members(&self) -> &[Member]
        ensures { result.now ≡ self.now.table.members }
    {
        self.members.as_slice()
    }

    /// The events of all contracts, in the order in which they happened.
    pub fn events(&self) -> &[ContractEvent]
        ensures { result.now ≡ self.now.table.events }
    {
        self.past.as_slice()
    }

    /// The last id that was given; 0 if there is none.
    pub fn last_contract(&self) -> Number
        ensures { result ≡ self.now.table.last_contract }
    {
        self.book.last()
    }

    /// The last process number that was given; 0 if there is none.
    pub fn last_process(&self) -> Number
        ensures { result ≡ self.now.table.last_process }
    {
        self.members.last()
    }
}
