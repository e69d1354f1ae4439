ghost use Rattle.smf_room.specs.Starts.{IsAnyGiven, IsAskLost, IsAsking, IsEndAsk, IsGiven, IsMade, IsUnmade};
ghost use Rattle.smf_room.specs.Tellings.{EndsEarly, Fails, Heard};
ghost use Rattle.std.specs.Prelude.{◌≡◌, true, IfOk, OnErr};

use crate::note::Note;
use crate::room::Room;
use crate::unsettled::{Unsettled, set_last_made};
use std::io;

/// How many numbers are taken at a time.
const BLOCK: u64 = 1000;

/// The numbers from `low` to below `high`, which a server took and has not given.
#[derive(Clone, Copy)]
pub struct Numbers {
    pub low: u64,
    pub high: u64,
}

#[derive(Clone, Copy)]
struct Given {
    id: u64,
    left: Numbers,
}

impl Numbers {
    /// No number: the first contract of a life takes a block.
    pub fn none() -> Numbers
        ensures { result ≡ record { low = 0; high = 0 } }
    {
        Numbers { low: 0, high: 0 }
    }
}

/// A number that no life has given. A block of them is taken on the disk if none is left.
fn give<R: Room>(room: &mut R, numbers: Numbers) -> io::Result<Given>
    ensures given { IfOk result (λ given. Heard R.tells R.did (IsGiven numbers given) room.old room.new) }
    ensures lost { OnErr result (Heard R.tells R.did (EndsEarly (IsAnyGiven numbers)) room.old room.new) }
{
    let low = numbers.low;
    let high = numbers.high;
    if low < high {
        return Ok(Given {
            id: low,
            left: Numbers { low: low + 1, high },
        });
    }
    let next = room.next()?;
    if next > u64::MAX - BLOCK {
        return Err(io::Error::from(io::ErrorKind::Other));
    }
    room.reserve(next, next + BLOCK)?;
    Ok(Given {
        id: next,
        left: Numbers {
            low: next + 1,
            high: next + BLOCK,
        },
    })
}

/// Makes a contract under a number that was never given. Memory is asked for first. It is unsettled before it is made, so
/// that it is so too if that fails.
pub(crate) fn make<R: Room>(
    room: &mut R,
    numbers: &mut Numbers,
    unsettled: &mut Vec<Unsettled>,
    note: &Note,
) -> io::Result<u64>
    ensures made { IfOk result (λ id. Heard R.tells R.did
        (IsMade numbers.old numbers.new unsettled.old.items unsettled.new.items note.now id) room.old room.new) }
    ensures lost { OnErr result (Heard R.tells R.did
        (IsUnmade numbers.old numbers.new unsettled.old.items unsettled.new.items note.now) room.old room.new) }
{
    let instance = note.instance.clone()?;
    unsettled.reserve(1)?;
    let given = give(room, *numbers)?;
    *numbers = given.left;
    unsettled.push_reserved(Unsettled::to_make(given.id, instance));
    room.make(given.id, note)?;
    set_last_made(unsettled);
    Ok(given.id)
}

/// Asks the holder to start a contract, or to take it up. If nobody reads, a holder is begun, and asked once more if it was
/// there already. False if nobody read.
pub(crate) fn ask<R: Room>(room: &mut R, id: u64) -> io::Result<bool>
    ensures asked { IfOk result (λ done. Heard R.tells R.did (IsAsking id done) room.old room.new) }
    ensures lost { OnErr result (Heard R.tells R.did (IsAskLost id) room.old room.new) }
{
    let first = room.ask_start(id)?;
    if first {
        return Ok(true);
    }
    let there = room.holder()?;
    if !there {
        return Ok(false);
    }
    let done = room.ask_start(id)?;
    Ok(done)
}

/// Asks for a signal to all processes of a contract, and for their end after so many seconds. It does not wait. False if
/// nobody reads: the contract has no keeper.
pub fn end_contract<R: Room>(room: &mut R, id: u64, signal: &str, seconds: u64) -> io::Result<bool>
    ensures asked { IfOk result (λ done. Heard R.tells R.did (IsEndAsk id signal.now seconds done) room.old room.new) }
    ensures lost { OnErr result (Heard R.tells R.did (Fails (IsEndAsk id signal.now seconds true)) room.old room.new) }
{
    let done = room.ask_end(id, signal, seconds)?;
    Ok(done)
}
