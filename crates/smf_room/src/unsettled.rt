ghost use Rattle.smf_room.specs.Clearings.{IsAnyClearedOf, IsCleared, IsClearedOf, IsClearing, IsClearingLost, IsTakenBack, held_left, held_without, with_left};
ghost use Rattle.smf_room.specs.Helds.{Held, held_may_be};
ghost use Rattle.smf_room.specs.Lives.{may_be};
ghost use Rattle.smf_room.specs.Tellings.{EndsEarly, Heard};
ghost use Rattle.std.specs.List.{list_any};
ghost use Rattle.std.specs.Prelude.{◌≡◌, ◌==◌, not, ◌++◌, ◌∷◌, [], ◌+◌, ◌<◌, ℕ, List, Bool, true, false, take, drop, IfOk, OnErr, OnOk, Some, if◌then◌else◌, option_map, string_bytes, vec_len, slice_get};

use crate::look::cancel;
use crate::room::Room;
use crate::sweep;
use std::io;
use std::marker::Model;

/// A contract that may run, for all that is known, and the instance that it runs, if its note was read.
#[derive(Drop)]
pub struct Unsettled {
    id: u64,
    instance: Option<String>,
    /// It was to be made in this life, and that failed: no holder was asked to start it.
    failed: bool,
}

impl Model for Unsettled {
    ghost use Rattle.smf_room.specs.Helds.{Held};
    ghost use Rattle.std.specs.Prelude.{option_map, string_bytes};

    ghost Value = { Held };

    ghost view = { λ u. record {
      known = record { id = u.id; instance = option_map (λ s. string_bytes s) u.instance };
      failed = u.failed;
    } };
}

impl Unsettled {
    /// A contract that was found.
    pub(crate) fn found(id: u64, instance: Option<String>) -> Unsettled
        ensures { result ≡ record {
          known = record { id = id; instance = option_map (λ s. string_bytes s) instance };
          failed = false;
        } }
    {
        Unsettled {
            id,
            instance,
            failed: false,
        }
    }

    /// A contract that is to be made.
    pub(crate) fn to_make(id: u64, instance: String) -> Unsettled
        ensures { result ≡ record { known = record { id = id; instance = Some (string_bytes instance) }; failed = true } }
    {
        Unsettled {
            id,
            instance: Some(instance),
            failed: true,
        }
    }

    /// Notes that it was made.
    fn set_made(&mut self)
        ensures { self.new ≡ record { known = self.old.known; failed = false } }
    {
        self.failed = false;
    }

    fn id(&self) -> u64
        ensures { result ≡ self.now.known.id }
    {
        self.id
    }

    fn is_other(&self, id: u64) -> bool
        ensures { result ≡ not (self.now.known.id == id) }
    {
        self.id != id
    }

    fn has_failed(&self) -> bool
        ensures { result ≡ self.now.failed }
    {
        self.failed
    }

    /// True if it may be of this instance: it is, or its note was not read.
    fn may_be(&self, instance: &str) -> bool
        ensures { result ≡ may_be instance.now self.now.known }
    {
        match &self.instance {
            Some(other) => other.as_str() == instance,
            None => true,
        }
    }
}

/// True if one of these may be of this instance.
pub(crate) fn may_run(unsettled: &[Unsettled], instance: &str) -> bool
    ensures { result ≡ list_any (held_may_be instance.now) unsettled.now }
{
    unsettled.iter().any(|one| one.may_be(instance))
}

/// Notes that the last one was made.
pub(crate) fn set_last_made(unsettled: &mut Vec<Unsettled>)
    ensures { (hs : List Held) (h : Held) → unsettled.old.items ≡ hs ++ h ∷ []
        → unsettled.new.items ≡ hs ++ record { known = h.known; failed = false } ∷ [] }
{
    let count = unsettled.len();
    if count > 0 {
        unsettled[count - 1].set_made();
    }
}

/// Drops the contracts of this number.
fn drop_of(unsettled: &mut Vec<Unsettled>, id: u64)
    ensures { unsettled.new.items ≡ held_without id unsettled.old.items }
{
    unsettled.retain(|one| one.is_other(id));
}

/// Drops a contract that was forgotten.
pub(crate) fn drop_gone(unsettled: &mut Vec<Unsettled>, id: u64, gone: bool)
    ensures { unsettled.new.items ≡ held_left gone id unsettled.old.items }
{
    if gone {
        drop_of(unsettled, id);
    }
}

/// Takes back the start of a contract whose making failed.
fn take_back<R: Room>(room: &mut R, id: u64, failed: bool) -> io::Result<()>
    ensures done { OnOk result (Heard R.tells R.did (IsTakenBack failed id) room.old room.new) }
    ensures lost { OnErr result (Heard R.tells R.did (EndsEarly (IsTakenBack failed id)) room.old room.new) }
{
    if failed {
        let _cancelled = cancel(room, id)?;
    }
    Ok(())
}

/// Forgets a contract, if it may be of this instance and nothing of it lives or will.
fn clear_one<R: Room>(room: &mut R, one: &Unsettled, instance: &str) -> io::Result<bool>
    ensures done { IfOk result (λ gone. Heard R.tells R.did (IsClearedOf instance.now one.now gone) room.old room.new) }
    ensures lost { OnErr result
        (Heard R.tells R.did (EndsEarly (IsAnyClearedOf instance.now one.now)) room.old room.new) }
{
    if !one.may_be(instance) {
        return Ok(false);
    }
    take_back(room, one.id(), one.has_failed())?;
    let gone = sweep::forget(room, one.id())?;
    Ok(gone)
}

/// Drops the contract at a place if it is gone. The place of the next one.
fn next_place(unsettled: &mut Vec<Unsettled>, at: usize, gone: bool) -> usize
    requires { at < vec_len unsettled.old }
    ensures next { result ≡ (if gone then at else at + 1) }
    ensures left { unsettled.new.items ≡
        (if gone then take at unsettled.old.items ++ drop (at + 1) unsettled.old.items else unsettled.old.items) }
{
    if gone {
        let _gone = unsettled.remove(at);
        at
    } else {
        at + 1
    }
}

/// Forgets each contract that may be of this instance and of which nothing lives or will.
pub(crate) fn clear<R: Room>(
    room: &mut R,
    unsettled: &mut Vec<Unsettled>,
    instance: &str,
) -> io::Result<()>
    ensures done { OnOk result
        (Heard R.tells R.did (IsClearing instance.now unsettled.old.items unsettled.new.items) room.old room.new) }
    ensures lost { OnErr result
        (Heard R.tells R.did (IsClearingLost instance.now unsettled.old.items unsettled.new.items) room.old room.new) }
{
    let mut at = 0;
    while at < unsettled.len() {
        let gone = clear_one(room, &unsettled[at], instance)?;
        at = next_place(unsettled, at, gone);
    }
    Ok(())
}
