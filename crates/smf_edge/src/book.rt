ghost use Rattle.std.specs.Prelude.{◌≡◌, ◌≢◌, ◌<◌, ◌⊎◌, [], ◌∷◌, Some, None, true, IfErr, IfOk, IfSome, IfNone, OnErr, OnOk, filter, length, option_to_list, vec_len, vec_capacity};
ghost use Rattle.smf_contract.specs.Calls.{is_fatal, next_contract};
ghost use Rattle.smf_contract.specs.Entries.{contract, empty, first_member, home, processes};
ghost use Rattle.smf_edge.specs.Books.{IsTold, ledger_of};
ghost use Rattle.smf_edge.specs.Ledgers.{ledger_over, members_left, lives, remaining};
ghost use Rattle.smf_edge.specs.Processes.{HasTold};
ghost use Rattle.smf_edge.specs.Sound.{IsSound};
ghost use Rattle.smf_edge.specs.Steps.{IsGiven, IsKilled, IsPolled, IsSpawned, ledger_with_member_event, live_contracts, ledger_after_boot};
ghost use Rattle.smf_edge.specs.declared.fault.KidsFault.TheVariants.{Memory, NoChild, Refused};

use crate::counts::{count_left, is_fatal};
use crate::deed::{Happening, MemberEvent};
use crate::edits::{behind, drop_deeds, drop_events, first_deed, note_all, take_deed, take_first};
use crate::fault::KidsFault;
use crate::note::{Kill, Note, Run};
use smf_contract::{Contract, ContractEvent, ContractTable, Failure};
use smf_fmri::{Items, Number};
use std::alloc::{AllocError, Global};

/// Whom the table says to hold the contracts.
const HOLDER: u64 = 0;

/// The ledger that children keep of themselves.
pub struct Book {
    alloc: Global,
    table: ContractTable,
    notes: Vec<Note>,
    due: Vec<ContractEvent>,
    pending: Vec<MemberEvent>,
}

/// Crates above call this, and prove nothing of the parts that go.
impl Drop for Book {
    fn drop(self) {
        let Book {
            alloc: _alloc,
            table: _table,
            notes: _notes,
            due: _due,
            pending: _pending,
        } = self;
    }
}

/// There is no room for a process if no number is left for it.
fn one_more(table: &ContractTable) -> Result<(), AllocError>
    ensures { OnOk result (table.now.table.last_process < 0x7fff_ffff_ffff_ffff) }
{
    if table.last_process().get() < 0x7fff_ffff_ffff_ffff {
        Ok(())
    } else {
        Err(AllocError)
    }
}

impl Book {
    pub fn new(alloc: Global) -> Book
        ensures { ledger_of result ≡ record { notes = []; table = empty; due = []; pending = [] } }
    {
        Book {
            alloc,
            table: ContractTable::new(alloc),
            notes: Vec::new(alloc),
            due: Vec::new(alloc),
            pending: Vec::new(alloc),
        }
    }

    /// A book over contracts that are there.
    pub fn over(alloc: Global, table: ContractTable) -> Book
        ensures { ledger_of result ≡ ledger_over table.table }
    {
        Book {
            alloc,
            table,
            notes: Vec::new(alloc),
            due: Vec::new(alloc),
            pending: Vec::new(alloc),
        }
    }

    pub fn notes(&self) -> &[Note]
        ensures { result.now ≡ (ledger_of self.now).notes }
    {
        &self.notes
    }

    /// How many members a contract has once all that happened is told.
    pub(crate) fn members_left(&self, id: Number) -> usize
        ensures { result ≡ members_left (ledger_of self.now) id }
    {
        let contract = self.table.contract(id);
        let count = self.table.count_members(id);
        count_left(&contract, count, &self.pending, id)
    }

    /// Says whether a failure of one member of a contract ends them all.
    pub fn is_fatal(&self, id: Number, failure: Failure) -> bool
        ensures { result ≡ is_fatal failure (contract (ledger_of self.now).table id) }
    {
        is_fatal(&self.table.contract(id), failure)
    }

    /// Makes room for a run in the next contract, which is this one.
    pub fn prepare(&mut self, id: Number) -> Result<(), KidsFault>
        ensures same { ledger_of self.new ≡ ledger_of self.old }
        ensures next { OnOk result (next_contract self.new.table.table ≡ Some id) }
        ensures table { OnOk result (self.new.table.room ≡ true) }
        ensures note { OnOk result (vec_len self.new.notes < vec_capacity self.new.notes) }
        ensures fault { IfErr result
            (λ e. (e ≡ Memory) ⊎ ((e ≡ Refused) × (next_contract self.old.table.table ≢ Some id))) }
    {
        if self.table.next_contract() != Some(id) {
            return Err(KidsFault::Refused);
        }
        self.notes.reserve(1)?;
        self.table.reserve()?;
        Ok(())
    }

    /// Makes a run, for which room was made.
    pub fn make(&mut self, run: Run)
        requires sound { IsSound (ledger_of self.old) }
        requires next { next_contract self.old.table.table ≡ Some run.contract }
        requires table { self.old.table.room ≡ true }
        requires note { vec_len self.old.notes < vec_capacity self.old.notes }
        ensures made { IsSpawned run (ledger_of self.old) (ledger_of self.new) }
        ensures sound { IsSound (ledger_of self.new) }
    {
        let _ = self.table.spawn(HOLDER, run.cookie, run.terms);
        self.notes.push(Note::Made(run)).unwrap();
    }

    /// The next event that is due.
    pub fn give(&mut self) -> Option<ContractEvent>
        requires { IsSound (ledger_of self.old) }
        ensures given { IfSome result (λ e. IsGiven e (ledger_of self.old) (ledger_of self.new)) }
        ensures none { IfNone result ((ledger_of self.new ≡ ledger_of self.old) × (self.old.due.items ≡ [])) }
        ensures sound { IsSound (ledger_of self.new) }
    {
        if self.due.is_empty() {
            return None;
        }
        Some(take_first(&mut self.due))
    }

    /// Tells that something happens to a process: the first event that it brings. The others are due.
    fn tell(
        &mut self,
        id: Number,
        process: Number,
        happening: Happening,
    ) -> Result<ContractEvent, AllocError>
        requires sound { IsSound (ledger_of self.old) }
        requires member { home self.old.table.table.members process ≡ Some id }
        requires none_due { self.old.due.items ≡ [] }
        ensures told { IfOk result (λ e. IsTold id process happening e (ledger_of self.old) (ledger_of self.new)) }
        ensures room { OnOk result (self.old.table.table.last_process < 0x7fff_ffff_ffff_ffff) }
        ensures err { OnErr result (ledger_of self.new ≡ ledger_of self.old) }
    {
        one_more(&self.table)?;
        self.table.reserve()?;
        let room = self.table.members().len() + 3;
        self.notes.reserve(room)?;
        self.due.reserve(room)?;
        let before = self.table.events().len();
        self.table.call(happening.call(process));
        let events = behind(self.table.events(), before);
        note_all(events, &mut self.notes);
        self.due.extend_from_slice(events).unwrap();
        Ok(take_first(&mut self.due))
    }

    /// Finds that something happens to the lowest member of a contract, if nothing is pending: the first event that it
    /// brings.
    pub fn find(&mut self, id: Number, happening: Happening) -> Result<ContractEvent, AllocError>
        requires sound { IsSound (ledger_of self.old) }
        requires member { first_member id self.old.table.table.members ≢ None }
        requires none_due { self.old.due.items ≡ [] }
        requires none_pending { self.old.pending.items ≡ [] }
        ensures found { IfOk result (λ event. IsPolled (Some event) (ledger_of self.old) (ledger_of self.new)) }
        ensures told { IfOk result (HasTold id happening (ledger_of self.old) (ledger_of self.new)) }
        ensures room { OnOk result (self.old.table.table.last_process < 0x7fff_ffff_ffff_ffff) }
        ensures sound { IsSound (ledger_of self.new) }
        ensures err { OnErr result (ledger_of self.new ≡ ledger_of self.old) }
    {
        let process = self.table.first_member(id).unwrap();
        let event = self.tell(id, process, happening)?;
        Ok(event)
    }

    /// Takes what is pending: the first event that it brings, and none if nothing is pending.
    pub(crate) fn take(&mut self) -> Result<Option<ContractEvent>, AllocError>
        requires sound { IsSound (ledger_of self.old) }
        requires none_due { self.old.due.items ≡ [] }
        ensures taken { IfOk result (λ event. IsPolled event (ledger_of self.old) (ledger_of self.new)) }
        ensures none { IfOk result (λ event. IfNone event (self.new.pending.items ≡ [])) }
        ensures pending { IfOk result (λ event. IfSome event (λ _. self.old.pending.items ≢ [])) }
        ensures sound { IsSound (ledger_of self.new) }
        ensures err { OnErr result (ledger_of self.new ≡ ledger_of self.old) }
    {
        let Some(deed) = first_deed(&self.pending) else {
            return Ok(None);
        };
        let process = self.table.first_member(deed.contract).unwrap();
        let event = self.tell(deed.contract, process, deed.happening)?;
        take_deed(&mut self.pending);
        Ok(Some(event))
    }

    /// Lets something happen to the lowest member of a contract, if one is left.
    pub(crate) fn happen(&mut self, id: Number, happening: Happening) -> Result<(), KidsFault>
        requires { IsSound (ledger_of self.old) }
        ensures happened { OnOk result
            (ledger_of self.new ≡ ledger_with_member_event (ledger_of self.old) id happening) }
        ensures sound { IsSound (ledger_of self.new) }
        ensures err { OnErr result (ledger_of self.new ≡ ledger_of self.old) }
        ensures fault { IfErr result
            (λ e. (e ≡ Memory) ⊎ ((e ≡ NoChild) × (members_left (ledger_of self.old) id ≡ 0))) }
    {
        if self.members_left(id) == 0 {
            return Err(KidsFault::NoChild);
        }
        self.pending.push(MemberEvent {
            contract: id,
            happening,
        })?;
        Ok(())
    }

    /// Makes room for a kill, with the processes that it ends.
    pub fn prepare_kill(&mut self, id: Number) -> Result<Kill, KidsFault>
        ensures same { ledger_of self.new ≡ ledger_of self.old }
        ensures kill { IfOk result (λ kill. (kill.contract ≡ id)
            × (kill.ends ≡ processes id self.old.table.table.members)) }
        ensures some { OnOk result (0 < members_left (ledger_of self.new) id) }
        ensures table { OnOk result (self.new.table.room ≡ true) }
        ensures note { OnOk result (vec_len self.new.notes < vec_capacity self.new.notes) }
        ensures fault { IfErr result
            (λ e. (e ≡ Memory) ⊎ ((e ≡ NoChild) × (members_left (ledger_of self.old) id ≡ 0))) }
    {
        if self.members_left(id) == 0 {
            return Err(KidsFault::NoChild);
        }
        let ends = self.table.processes(self.alloc, id)?;
        self.notes.reserve(1)?;
        self.table.reserve()?;
        Ok(Kill {
            contract: id,
            ends: Items::from_vec(ends),
        })
    }

    /// Kills the members of a contract, for which room was made.
    pub fn kill(&mut self, kill: Kill)
        requires sound { IsSound (ledger_of self.old) }
        requires some { 0 < members_left (ledger_of self.old) kill.contract }
        requires ends { kill.ends ≡ processes kill.contract self.old.table.table.members }
        requires table { self.old.table.room ≡ true }
        requires note { vec_len self.old.notes < vec_capacity self.old.notes }
        ensures killed { IsKilled kill.contract (ledger_of self.old) (ledger_of self.new) }
        ensures sound { IsSound (ledger_of self.new) }
    {
        let id = kill.contract;
        let _ = self.table.kill(HOLDER, id);
        drop_events(&mut self.due, id);
        drop_deeds(&mut self.pending, id);
        self.notes.push(Note::Killed(kill)).unwrap();
    }

    /// Drops all members and contracts.
    pub(crate) fn restart(&mut self)
        requires { IsSound (ledger_of self.old) }
        ensures restarted { ledger_of self.new ≡ ledger_after_boot (ledger_of self.old) }
        ensures sound { IsSound (ledger_of self.new) }
    {
        self.table.reboot();
        self.due.clear();
        self.pending.clear();
    }

    /// Forgets the notes, and the contracts that have no members.
    pub fn forget(&mut self) -> Result<(), AllocError>
        requires { IsSound (ledger_of self.old) }
        ensures forgot { OnOk result (ledger_of self.new ≡ remaining (ledger_of self.old)) }
        ensures kept { OnErr result (ledger_of self.new ≡ ledger_of self.old) }
        ensures sound { IsSound (ledger_of self.new) }
    {
        let table = self.table.thinned()?;
        self.table = table;
        self.notes.clear();
        Ok(())
    }

    /// The number of a contract, if it has members.
    fn live_contract(&self, known: &Contract) -> Option<Number>
        ensures { option_to_list result ≡ filter (lives (ledger_of self.now)) (known.now.id ∷ []) }
    {
        if self.members_left(known.id) > 0 {
            return Some(known.id);
        }
        None
    }

    /// The contracts that have members.
    pub fn list(&self) -> Result<Items<Number>, AllocError>
        ensures { IfOk result (λ ids. ids ≡ live_contracts (ledger_of self.now)) }
    {
        let mut ids = Items::new(self.alloc);
        let contracts = self.table.contracts();
        for known in contracts {
            if let Some(id) = self.live_contract(known) {
                ids.push(id)?;
            }
        }
        Ok(ids)
    }
}
