ghost use Rattle.smf_room.specs.Beginnings.{IsAnyBeginning, IsAnyClean, IsBeginning, IsClean, is_gone};
ghost use Rattle.smf_room.specs.Carefuls.{held_of_all, instance_of};
ghost use Rattle.smf_room.specs.Clearings.{held_left};
ghost use Rattle.smf_room.specs.Helds.{Held, knowns};
ghost use Rattle.smf_room.specs.Lives.{AreCareful, Life, may_be};
ghost use Rattle.smf_room.specs.LiveRooms.{BeginsWell, EndsWell, GoesOn, IsStarted, IsStartLost, SameUnsettled};
ghost use Rattle.smf_room.specs.Looks.{IsAnyLook, IsCancel, IsLook};
ghost use Rattle.smf_room.specs.Starts.{IsAskLost, IsAsking, IsEndAsk};
ghost use Rattle.smf_room.specs.Sweeps.{IsAnyForget, IsForget};
ghost use Rattle.smf_room.specs.Tellings.{Calls, EndsEarly, Fails, Heard, Telling};
ghost use Rattle.std.specs.List.{list_any};
ghost use Rattle.std.specs.Prelude.{◌≡◌, List, option_map, string_bytes, true, IfOk, OnErr, OnOk};

use crate::life::{Found, Stand, begin_life, is_gone};
use crate::look::{Look, look_at};
use crate::note::Note;
use crate::room::Room;
use crate::start::{Numbers, ask, end_contract, make};
use crate::unsettled::{Unsettled, clear, drop_gone, may_run};
use crate::{life, look, sweep};
use std::alloc::{AllocError, Global};
use std::io;

/// A room in which a server lives. A contract of an instance is made only if none that may be of it may run. Whatever is
/// asked of it, in whatever order, is what a careful server asks.
#[derive(Drop)]
pub struct LiveRoom<R> {
    alloc: Global,
    room: R,
    numbers: Numbers,
    unsettled: Vec<Unsettled>,
}

/// A life that began, and each contract of an older life that was not forgotten.
#[derive(Drop)]
pub struct Begun<R> {
    pub room: LiveRoom<R>,
    pub found: Vec<Found>,
}

fn instance_of(note: &Option<Note>) -> Result<Option<String>, AllocError>
    ensures { IfOk result (λ instance. option_map (λ s. string_bytes s) instance ≡ instance_of note.now) }
{
    match note {
        Some(note) => Ok(Some(note.instance.clone()?)),
        None => Ok(None),
    }
}

fn unsettled_of(alloc: Global, found: &[Found]) -> Result<Vec<Unsettled>, AllocError>
    ensures { IfOk result (λ unsettled. unsettled.items ≡ held_of_all found.now) }
{
    let mut unsettled = Vec::new(alloc);
    for one in found {
        let instance = instance_of(&one.note)?;
        unsettled.push(Unsettled::found(one.id, instance))?;
    }
    Ok(unsettled)
}

impl<R: Room + Drop> LiveRoom<R> {
    /// Begins a life: each contract that is there is forgotten, adopted or ended, or stays unsettled.
    pub fn begin(alloc: Global, room: R) -> io::Result<Begun<R>>
        ensures begun { IfOk result (λ b. Heard R.tells R.did (IsBeginning b.found.items) room b.room.room) }
        ensures unsettled { IfOk result (λ b. b.room.unsettled.items ≡ held_of_all b.found.items) }
        ensures lost { OnErr result ((q : R) × Heard R.tells R.did (EndsEarly IsAnyBeginning) room q) }
        ensures careful { IfOk result (λ b. BeginsWell R.tells R.did room b.room) }
        ensures careful_lost { OnErr result ((q : R) × EndsWell R.tells R.did room q) }
    {
        let mut room = room;
        let found = begin_life(alloc, &mut room)?;
        let unsettled = unsettled_of(alloc, &found)?;
        let room = LiveRoom {
            alloc,
            room,
            numbers: Numbers::none(),
            unsettled,
        };
        Ok(Begun { room, found })
    }

    /// Makes a contract and asks the holder to start it. Its number; None if a contract that may be of this instance may
    /// still run: nothing is made then. If the holder was not asked, the contract waits, and has to be asked again. After
    /// an error no holder was asked, and no call said that a contract was made.
    pub fn start(&mut self, note: &Note) -> io::Result<Option<u64>>
        ensures started { IfOk result (λ id. IsStarted R.tells R.did self.old self.new note.now id) }
        ensures lost { OnErr result (IsStartLost R.tells R.did self.old self.new note.now) }
        ensures careful { GoesOn R.tells R.did self.old self.new }
    {
        let instance = note.instance.as_str();
        clear(&mut self.room, &mut self.unsettled, instance)?;
        if may_run(&self.unsettled, instance) {
            return Ok(None);
        }
        let id = make(&mut self.room, &mut self.numbers, &mut self.unsettled, note)?;
        let _asked = ask(&mut self.room, id);
        Ok(Some(id))
    }

    /// Looks at a contract.
    pub fn look(&mut self, id: u64) -> io::Result<Look>
        ensures seen { IfOk result (λ look. Heard R.tells R.did (IsLook id look) self.old.room self.new.room) }
        ensures lost { OnErr result (Heard R.tells R.did (EndsEarly (IsAnyLook id)) self.old.room self.new.room) }
        ensures unsettled { SameUnsettled self.old self.new }
        ensures careful { GoesOn R.tells R.did self.old self.new }
    {
        look_at(&mut self.room, id)
    }

    /// Asks the holder once more for a start that has not begun, or to take a contract up. False if nobody reads: a holder
    /// was begun, and has to be asked later.
    pub fn ask(&mut self, id: u64) -> io::Result<bool>
        ensures asked { IfOk result (λ done. Heard R.tells R.did (IsAsking id done) self.old.room self.new.room) }
        ensures lost { OnErr result (Heard R.tells R.did (IsAskLost id) self.old.room self.new.room) }
        ensures unsettled { SameUnsettled self.old self.new }
        ensures careful { GoesOn R.tells R.did self.old self.new }
    {
        ask(&mut self.room, id)
    }

    /// Takes back a start that has not begun, and says whether it did.
    pub fn cancel(&mut self, id: u64) -> io::Result<bool>
        ensures done { IfOk result (λ done. Heard R.tells R.did (IsCancel id done) self.old.room self.new.room) }
        ensures lost { OnErr result (Heard R.tells R.did (Fails (IsCancel id true)) self.old.room self.new.room) }
        ensures unsettled { SameUnsettled self.old self.new }
        ensures careful { GoesOn R.tells R.did self.old self.new }
    {
        look::cancel(&mut self.room, id)
    }

    /// Asks for a signal to all processes of a contract, and for their end after so many seconds. It does not wait. False
    /// if nobody reads.
    pub fn end(&mut self, id: u64, signal: &str, seconds: u64) -> io::Result<bool>
        ensures asked { IfOk result
            (λ done. Heard R.tells R.did (IsEndAsk id signal.now seconds done) self.old.room self.new.room) }
        ensures lost { OnErr result
            (Heard R.tells R.did (Fails (IsEndAsk id signal.now seconds true)) self.old.room self.new.room) }
        ensures unsettled { SameUnsettled self.old self.new }
        ensures careful { GoesOn R.tells R.did self.old self.new }
    {
        end_contract(&mut self.room, id, signal, seconds)
    }

    /// Has an unclean contract taken up if its group has a process. Else it ends what is left of it, and forgets it.
    pub fn clean(&mut self, id: u64) -> io::Result<Stand>
        ensures done { IfOk result (λ stand. Heard R.tells R.did (IsClean id stand) self.old.room self.new.room) }
        ensures left { IfOk result
            (λ stand. self.new.unsettled.items ≡ held_left (is_gone stand) id self.old.unsettled.items) }
        ensures lost { OnErr result (Heard R.tells R.did (EndsEarly (IsAnyClean id)) self.old.room self.new.room) }
        ensures unsettled { OnErr result (SameUnsettled self.old self.new) }
        ensures numbers { self.new.numbers ≡ self.old.numbers }
        ensures careful { GoesOn R.tells R.did self.old self.new }
    {
        let stand = life::clean(self.alloc, &mut self.room, id)?;
        drop_gone(&mut self.unsettled, id, is_gone(stand));
        Ok(stand)
    }

    /// Forgets a contract of which nothing lives or will. False if its token says otherwise, or its group has a process.
    pub fn forget(&mut self, id: u64) -> io::Result<bool>
        ensures done { IfOk result (λ gone. Heard R.tells R.did (IsForget id gone) self.old.room self.new.room) }
        ensures left { IfOk result (λ gone. self.new.unsettled.items ≡ held_left gone id self.old.unsettled.items) }
        ensures lost { OnErr result (Heard R.tells R.did (EndsEarly (IsAnyForget id)) self.old.room self.new.room) }
        ensures unsettled { OnErr result (SameUnsettled self.old self.new) }
        ensures numbers { self.new.numbers ≡ self.old.numbers }
        ensures careful { GoesOn R.tells R.did self.old self.new }
    {
        let gone = sweep::forget(&mut self.room, id)?;
        drop_gone(&mut self.unsettled, id, gone);
        Ok(gone)
    }

    /// Adds the numbers of contracts of which there is news. True if there may be news of any.
    pub fn news(&self, ids: &mut Vec<u64>) -> bool {
        self.room.news(ids)
    }

    /// Waits two milliseconds.
    pub fn pause(&self) {
        self.room.pause();
    }

    /// The room, for what asks nothing.
    pub fn room(&self) -> &R
        ensures { result.now ≡ self.now.room }
    {
        &self.room
    }
}
