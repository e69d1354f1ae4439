ghost use Rattle.smf_keeper.specs.Endings.{IsToldAgain, gone_of};
ghost use Rattle.smf_keeper.specs.Rooms.{IsAskedIf, IsKept, IsNoted, StoodSo};
ghost use Rattle.std.specs.Prelude.{◌≡◌, false, IfSome, None, Some};

use smf_edge::{FirstEnd, Stand};
use smf_room::Room;
use std::marker::PhantomData;

/// So often it is told how a contract stood before it is looked at again, though there is no news of it.
pub const MOST_TOLD: u32 = 20;

/// The stand that is kept, if something was left of the contract.
fn living(kept: Option<Stand>) -> Option<Stand>
    ensures kept { IfSome result (λ stand. kept ≡ Some stand) }
    ensures left { IfSome result (λ stand. gone_of stand ≡ None) }
{
    match kept {
        Some(Stand::Runs) => Some(Stand::Runs),
        Some(Stand::Left(end)) => Some(Stand::Left(end)),
        _ => None,
    }
}

/// A contract of a room.
#[derive(Drop)]
pub struct HeldContract<R: Room> {
    /// Its number in the room.
    pub(crate) id: u64,
    /// How its first process ended, once nothing was left of it.
    pub(crate) gone: Option<FirstEnd>,
    /// Whether its end was asked for.
    pub(crate) asked: bool,
    /// How it stood at the last look, if something was left of it.
    pub(crate) kept: Option<Stand>,
    /// How often that was told since.
    pub(crate) told: u32,
    /// The round of news in which it was asked about last.
    pub(crate) asked_in: u64,
    /// The round of news in which it was looked at last.
    pub(crate) looked_in: u64,
    room: PhantomData<R>,
    ghost noted: { ∥ IsNoted R.tells R.did id gone ∥₁ },
    ghost is_asked: { ∥ IsAskedIf R.tells R.did id asked ∥₁ },
    ghost is_kept: { ∥ IsKept R.tells R.did id kept ∥₁ },
}

impl<R: Room> HeldContract<R> {
    /// The contract of this number in a room, of which nothing was asked yet.
    pub fn new(id: u64) -> HeldContract<R>
        ensures id { result.id ≡ id }
        ensures gone { result.gone ≡ None }
        ensures asked { result.asked ≡ false }
    {
        HeldContract {
            id,
            gone: None,
            asked: false,
            kept: None,
            told: 0,
            asked_in: 0,
            looked_in: 0,
            room: PhantomData,
        }
    }

    /// Tells once more how it stood at the last look, if something was left of it then. None if that was told often.
    pub(crate) fn tell_again(&mut self) -> Option<Stand>
        ensures told { IfSome result (IsToldAgain self.old.gone self.old.kept self.old.told self.new.told) }
        ensures stood { IfSome result (λ stand. StoodSo R.tells R.did self.old.id stand) }
        ensures left { IfSome result (λ stand. gone_of stand ≡ None) }
        ensures id { self.new.id ≡ self.old.id }
        ensures gone { self.new.gone ≡ self.old.gone }
        ensures asked { self.new.asked ≡ self.old.asked }
    {
        if self.gone.is_some() || self.told >= MOST_TOLD {
            return None;
        }
        let stand = living(self.kept)?;
        self.told += 1;
        Some(stand)
    }
}
