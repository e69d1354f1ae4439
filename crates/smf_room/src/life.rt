ghost use Rattle.smf_room.specs.Beginnings.{IsAnyClean, IsAnyFinding, IsAnyOne, IsAnySettling, IsAnySettlingBy, IsBeginning, IsAnyBeginning, IsAnyForgetting, IsClean, IsFinding, IsForgetting, IsOne, IsSettling, IsSettlingBy, is_clean, is_full, is_gone, stand_of, with_one};
ghost use Rattle.smf_room.specs.Tellings.{EndsEarly, Heard};
ghost use Rattle.std.specs.Prelude.{◌≡◌, ◌++◌, [], IfOk, OnErr, OnOk};

use crate::look::{Look, cancel, look_at};
use crate::note::Note;
use crate::room::Room;
use crate::sweep::{Swept, forget, sweep_contract};
use std::alloc::{AllocError, Global};
use std::io;

/// How a contract of an older life stands.
#[derive(Clone, Copy)]
pub enum Stand {
    /// It was over, or never began, and is forgotten.
    Gone,
    /// Somebody has its lock. Its first process ended with this status, if it did.
    Lives(Option<u64>),
    /// It has processes and nobody had its lock: the holder was asked to take it up.
    TakenUp,
    /// It may live, and could not be ended or forgotten.
    Left,
}

/// A contract of an older life that was not forgotten, and its note, if that is whole.
#[derive(Drop)]
pub struct Found {
    pub id: u64,
    pub note: Option<Note>,
    pub stand: Stand,
}

fn stand_of(gone: bool) -> Stand
    ensures { result ≡ stand_of gone }
{
    if gone { Stand::Gone } else { Stand::Left }
}

pub(crate) fn is_gone(stand: Stand) -> bool
    ensures { result ≡ is_gone stand }
{
    matches!(stand, Stand::Gone)
}

fn is_clean(swept: Swept) -> bool
    ensures { result ≡ is_clean swept }
{
    matches!(swept, Swept::Clean)
}

fn is_full(some: Option<bool>) -> bool
    ensures { result ≡ is_full some }
{
    matches!(some, Some(true))
}

fn forget_settled<R: Room>(room: &mut R, id: u64) -> io::Result<Stand>
    ensures done { IfOk result (λ stand. Heard R.tells R.did (IsForgetting id stand) room.old room.new) }
    ensures lost { OnErr result (Heard R.tells R.did (EndsEarly (IsAnyForgetting id)) room.old room.new) }
{
    let gone = forget(room, id)?;
    Ok(stand_of(gone))
}

/// Has a contract taken up whose group has a process. Else it ends what is left of it, and forgets it.
pub(crate) fn clean<R: Room>(alloc: Global, room: &mut R, id: u64) -> io::Result<Stand>
    ensures done { IfOk result (λ stand. Heard R.tells R.did (IsClean id stand) room.old room.new) }
    ensures lost { OnErr result (Heard R.tells R.did (EndsEarly (IsAnyClean id)) room.old room.new) }
{
    let some = room.populated(id)?;
    if is_full(some) {
        let _asked = room.ask_start(id)?;
        return Ok(Stand::TakenUp);
    }
    let swept = sweep_contract(alloc, room, id)?;
    if !is_clean(swept) {
        return Ok(Stand::Left);
    }
    let stand = forget_settled(room, id)?;
    Ok(stand)
}

fn settle_by<R: Room>(alloc: Global, room: &mut R, id: u64, look: Look) -> io::Result<Stand>
    ensures done { IfOk result (λ stand. Heard R.tells R.did (IsSettlingBy id look stand) room.old room.new) }
    ensures lost { OnErr result (Heard R.tells R.did (EndsEarly (IsAnySettlingBy id look)) room.old room.new) }
{
    match look {
        Look::Waits => Ok(Stand::Left),
        Look::Lives(end) => Ok(Stand::Lives(end)),
        Look::Never => {
            let stand = forget_settled(room, id)?;
            Ok(stand)
        }
        Look::Over(_) => {
            let stand = forget_settled(room, id)?;
            Ok(stand)
        }
        Look::Unclean(_) => {
            let stand = clean(alloc, room, id)?;
            Ok(stand)
        }
    }
}

/// Cancels a contract's start, if it has not begun, and looks at the contract. Then it is forgotten, adopted or ended.
fn settle<R: Room>(alloc: Global, room: &mut R, id: u64) -> io::Result<Stand>
    ensures done { IfOk result (λ stand. Heard R.tells R.did (IsSettling id stand) room.old room.new) }
    ensures lost { OnErr result (Heard R.tells R.did (EndsEarly (IsAnySettling id)) room.old room.new) }
{
    let _cancelled = cancel(room, id)?;
    let look = look_at(room, id)?;
    let stand = settle_by(alloc, room, id, look)?;
    Ok(stand)
}

fn find_one<R: Room>(alloc: Global, room: &mut R, id: u64) -> io::Result<Option<Found>>
    ensures done { IfOk result (λ one. Heard R.tells R.did (IsOne id one) room.old room.new) }
    ensures lost { OnErr result (Heard R.tells R.did (EndsEarly (IsAnyOne id)) room.old room.new) }
{
    let stand = settle(alloc, room, id)?;
    if is_gone(stand) {
        return Ok(None);
    }
    let note = room.note(id)?;
    Ok(Some(Found { id, note, stand }))
}

fn push_found(found: &mut Vec<Found>, one: Option<Found>) -> Result<(), AllocError>
    ensures { OnOk result (found.new.items ≡ found.old.items ++ with_one one []) }
{
    match one {
        Some(one) => {
            found.push(one)?;
            Ok(())
        }
        None => Ok(()),
    }
}

fn find_all<R: Room>(alloc: Global, room: &mut R, ids: &[u64]) -> io::Result<Vec<Found>>
    ensures done { IfOk result (λ found. Heard R.tells R.did (IsFinding ids.now found.items) room.old room.new) }
    ensures lost { OnErr result (Heard R.tells R.did (EndsEarly (IsAnyFinding ids.now)) room.old room.new) }
{
    let mut found = Vec::new(alloc);
    for id in ids {
        let one = find_one(alloc, room, *id)?;
        push_found(&mut found, one)?;
    }
    Ok(found)
}

/// Begins a life: no start that an older life asked for can begin any more, and each contract that is not over was found.
/// Of one instance a contract may be started only if none that was found may be of it.
pub fn begin_life<R: Room>(alloc: Global, room: &mut R) -> io::Result<Vec<Found>>
    ensures begun { IfOk result (λ found. Heard R.tells R.did (IsBeginning found.items) room.old room.new) }
    ensures lost { OnErr result (Heard R.tells R.did (EndsEarly IsAnyBeginning) room.old room.new) }
{
    let ids = room.list()?;
    let found = find_all(alloc, room, &ids)?;
    Ok(found)
}
