ghost use Rattle.smf_room.specs.Looks.{IsAnyLook, IsCancel, IsLook, end_in, first_look, then_look};
ghost use Rattle.smf_room.specs.Tellings.{EndsEarly, Fails, Heard};
ghost use Rattle.std.specs.Prelude.{◌≡◌, true, IfOk, OnErr};

use crate::room::Room;
use crate::token::Token;
use std::io;

/// What is known of a contract.
#[derive(Clone, Copy)]
pub enum Look {
    /// It may begin; or it was between two tokens, and has to be looked at again.
    Waits,
    /// Somebody has the lock. Its first process ended with this status, if it did.
    Lives(Option<u64>),
    /// It never begins.
    Never,
    /// Nothing is left of it. Without a status nobody knows how its first process ended.
    Over(Option<u64>),
    /// Nobody has the lock, and nobody said that nothing is left.
    Unclean(Token),
}

/// Takes back a start that has not begun, and says whether it did.
pub fn cancel<R: Room>(room: &mut R, id: u64) -> io::Result<bool>
    ensures done { IfOk result (λ done. Heard R.tells R.did (IsCancel id done) room.old room.new) }
    ensures lost { OnErr result (Heard R.tells R.did (Fails (IsCancel id true)) room.old room.new) }
{
    let done = room.rename(id, Token::Go, Token::Void)?;
    Ok(done)
}

fn first_look(token: Option<Token>) -> Option<Look>
    ensures { result ≡ first_look token }
{
    match token {
        Some(Token::Go) => Some(Look::Waits),
        Some(Token::Void) => Some(Look::Never),
        Some(Token::Over(status)) => Some(Look::Over(status)),
        _ => None,
    }
}

/// How a contract's first process ended, by its token.
fn end_in(token: Option<Token>) -> Option<u64>
    ensures { result ≡ end_in token }
{
    match token {
        Some(Token::Ended(status)) => Some(status),
        _ => None,
    }
}

fn then_look(before: Option<Token>, after: Option<Token>) -> Look
    ensures { result ≡ then_look before after }
{
    match after {
        Some(Token::Over(status)) => Look::Over(status),
        Some(Token::Begun) => Look::Unclean(Token::Begun),
        Some(Token::Ended(status)) => Look::Unclean(Token::Ended(status)),
        Some(_) => Look::Waits,
        None if before.is_none() => Look::Never,
        None => Look::Waits,
    }
}

/// Looks at a contract: at its token, then at its lock, and then at its token once more.
pub fn look_at<R: Room>(room: &mut R, id: u64) -> io::Result<Look>
    ensures seen { IfOk result (λ look. Heard R.tells R.did (IsLook id look) room.old room.new) }
    ensures lost { OnErr result (Heard R.tells R.did (EndsEarly (IsAnyLook id)) room.old room.new) }
{
    let before = room.token(id)?;
    match first_look(before) {
        Some(look) => Ok(look),
        None => {
            let free = room.is_free(id)?;
            if !free {
                return Ok(Look::Lives(end_in(before)));
            }
            let after = room.token(id)?;
            Ok(then_look(before, after))
        }
    }
}
