ghost use Rattle.smf_room.specs.Lives.{is_settled, numbers_of, over_of};
ghost use Rattle.smf_room.specs.Sweeps.{IsAnyEnding, IsAnyForget, IsAnyMarkRound, IsAnyRemoval, IsAnyRound, IsAnySweep, IsAnySwept, IsEnding, IsForget, IsKill, IsMarkRound, IsRemoval, IsRound, IsSweep, IsSwept, IsUnlink, begun_token, swept_of};
ghost use Rattle.smf_room.specs.Tellings.{EndsEarly, Heard};
ghost use Rattle.std.specs.Prelude.{◌≡◌, IfOk, OnErr, OnOk};

use crate::process::Process;
use crate::room::Room;
use crate::sight::{Sight, is_nothing, sight_of};
use crate::token::Token;
use std::alloc::{AllocError, Global};
use std::io;

/// How often a server looks at what is left of a contract, and ends it, before it gives up.
const MOST_ROUNDS: u32 = 5000;

/// What came of a sweep.
#[derive(Clone, Copy)]
pub enum Swept {
    /// Nothing is left, and the token says so.
    Clean,
    /// Somebody has the lock, or the token is another now.
    Busy,
    /// Something is left that does not end.
    Stays,
}

/// The numbers of the processes of the server's user.
fn numbers_of(alloc: Global, found: &Vec<Process>) -> Result<Vec<u64>, AllocError>
    ensures { IfOk result (λ ns. ns.items ≡ numbers_of found.now.items) }
{
    found
        .iter()
        .filter(|process| process.ours)
        .map(|process| process.number)
        .collect(alloc)
}

fn kill_found<R: Room>(room: &mut R, id: u64, found: &Vec<u64>) -> io::Result<()>
    ensures done { OnOk result (Heard R.tells R.did (IsKill id found.now.items) room.old room.new) }
    ensures lost { OnErr result (Heard R.tells R.did (EndsEarly (IsKill id found.now.items)) room.old room.new) }
{
    if found.is_empty() {
        return Ok(());
    }
    room.kill(id, found)?;
    Ok(())
}

/// Looks for processes with the mark, and kills those of the server's user.
fn round_by_marks<R: Room>(alloc: Global, room: &mut R, id: u64, sight: Sight) -> io::Result<Sight>
    ensures made { IfOk result (λ next. Heard R.tells R.did (IsMarkRound id sight next) room.old room.new) }
    ensures lost { OnErr result (Heard R.tells R.did (EndsEarly (IsAnyMarkRound id sight)) room.old room.new) }
{
    let marks = room.marks(id)?;
    let ours = numbers_of(alloc, &marks.found)?;
    kill_found(room, id, &ours)?;
    Ok(sight_of(marks.own, &ours, sight))
}

/// Looks whether something is left of a contract, and kills it.
fn round<R: Room>(alloc: Global, room: &mut R, id: u64, sight: Sight) -> io::Result<Sight>
    ensures made { IfOk result (λ next. Heard R.tells R.did (IsRound id sight next) room.old room.new) }
    ensures lost { OnErr result (Heard R.tells R.did (EndsEarly (IsAnyRound id sight)) room.old room.new) }
{
    let some = room.populated(id)?;
    match some {
        Some(false) => Ok(Sight::Nothing),
        Some(true) => {
            room.kill_group(id)?;
            Ok(Sight::Unseen)
        }
        None => {
            let next = round_by_marks(alloc, room, id, sight)?;
            Ok(next)
        }
    }
}

/// Kills what is left of a contract, until nothing is. False if that takes too long.
fn end_left<R: Room>(alloc: Global, room: &mut R, id: u64) -> io::Result<bool>
    ensures ended { IfOk result (λ clear. Heard R.tells R.did (IsEnding id clear) room.old room.new) }
    ensures lost { OnErr result (Heard R.tells R.did (EndsEarly (IsAnyEnding id)) room.old room.new) }
{
    let mut sight = Sight::Unseen;
    for _ in 0..MOST_ROUNDS {
        let next = round(alloc, room, id, sight)?;
        if is_nothing(next) {
            return Ok(true);
        }
        sight = next;
        room.pause();
    }
    Ok(false)
}

/// The token of a contract that began and is not over.
fn begun_token(token: Option<Token>) -> Option<Token>
    ensures { result ≡ begun_token token }
{
    match token {
        Some(Token::Begun) => Some(Token::Begun),
        Some(Token::Ended(status)) => Some(Token::Ended(status)),
        _ => None,
    }
}

/// The token of a contract of which nothing is left, by the one that it had.
fn over_of(token: Token) -> Token
    ensures { result ≡ over_of token }
{
    match token {
        Token::Ended(status) => Token::Over(Some(status)),
        _ => Token::Over(None),
    }
}

fn swept_of(done: bool) -> Swept
    ensures { result ≡ swept_of done }
{
    if done { Swept::Clean } else { Swept::Busy }
}

/// Ends what is left of a contract whose lock the server has, and says so by its token.
fn sweep_locked<R: Room>(alloc: Global, room: &mut R, id: u64) -> io::Result<Swept>
    ensures swept { IfOk result (λ swept. Heard R.tells R.did (IsSwept id swept) room.old room.new) }
    ensures lost { OnErr result (Heard R.tells R.did (EndsEarly (IsAnySwept id)) room.old room.new) }
{
    let before = room.token(id)?;
    match begun_token(before) {
        None => Ok(Swept::Busy),
        Some(token) => {
            let clear = end_left(alloc, room, id)?;
            if !clear {
                return Ok(Swept::Stays);
            }
            let done = room.rename(id, token, over_of(token))?;
            Ok(swept_of(done))
        }
    }
}

/// Ends what is left of a contract whose keeper and holder were killed, if nobody else has its lock. After an error the
/// server has the lock until it takes another or lets it go.
pub fn sweep_contract<R: Room>(alloc: Global, room: &mut R, id: u64) -> io::Result<Swept>
    ensures swept { IfOk result (λ swept. Heard R.tells R.did (IsSweep id swept) room.old room.new) }
    ensures lost { OnErr result (Heard R.tells R.did (EndsEarly (IsAnySweep id)) room.old room.new) }
{
    let locked = room.lock(id)?;
    if !locked {
        return Ok(Swept::Busy);
    }
    let swept = sweep_locked(alloc, room, id)?;
    room.unlock();
    Ok(swept)
}

/// True if nothing of a contract with this token lives, and nothing will.
fn is_settled(token: Option<Token>) -> bool
    ensures { result ≡ is_settled token }
{
    match token {
        None | Some(Token::Void) | Some(Token::Over(_)) => true,
        _ => false,
    }
}

/// Removes the token, if there is one.
fn unlink_token<R: Room>(room: &mut R, id: u64, token: Option<Token>) -> io::Result<()>
    ensures done { OnOk result (Heard R.tells R.did (IsUnlink id token) room.old room.new) }
    ensures lost { OnErr result (Heard R.tells R.did (EndsEarly (IsUnlink id token)) room.old room.new) }
{
    if let Some(token) = token {
        room.unlink(id, token)?;
    }
    Ok(())
}

/// Removes the control group and the folder. False if the group has a process.
fn remove_folder<R: Room>(room: &mut R, id: u64) -> io::Result<bool>
    ensures done { IfOk result (λ gone. Heard R.tells R.did (IsRemoval id gone) room.old room.new) }
    ensures lost { OnErr result (Heard R.tells R.did (EndsEarly (IsAnyRemoval id)) room.old room.new) }
{
    let gone = room.remove_group(id)?;
    if gone {
        room.remove(id)?;
    }
    Ok(gone)
}

/// Forgets a contract, if its token says that nothing of it lives and nothing will: first the token, and then its group
/// and its folder. False if the token says otherwise, or the group has a process.
pub fn forget<R: Room>(room: &mut R, id: u64) -> io::Result<bool>
    ensures done { IfOk result (λ gone. Heard R.tells R.did (IsForget id gone) room.old room.new) }
    ensures lost { OnErr result (Heard R.tells R.did (EndsEarly (IsAnyForget id)) room.old room.new) }
{
    let token = room.token(id)?;
    if !is_settled(token) {
        return Ok(false);
    }
    unlink_token(room, id, token)?;
    let gone = remove_folder(room, id)?;
    Ok(gone)
}
