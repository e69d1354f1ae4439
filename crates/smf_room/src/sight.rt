ghost use Rattle.smf_room.specs.Lives.{next_sight, sight_of};
ghost use Rattle.smf_room.specs.Sweeps.{is_nothing};
ghost use Rattle.std.specs.Prelude.{◌≡◌};

use crate::process::Process;

/// How many looks found nothing left, one after the other, since the server has the lock.
#[derive(Clone, Copy)]
pub enum Sight {
    Unseen,
    Once,
    /// A control group said that it has no process, or two looks found none with the mark.
    Nothing,
}

pub(crate) fn is_nothing(sight: Sight) -> bool
    ensures { result ≡ is_nothing sight }
{
    matches!(sight, Sight::Nothing)
}

fn next_sight(sight: Sight) -> Sight
    ensures { result ≡ next_sight sight }
{
    match sight {
        Sight::Unseen => Sight::Once,
        Sight::Once | Sight::Nothing => Sight::Nothing,
    }
}

/// What is known after a look that found these processes of the server's user.
pub(crate) fn sight_of(own: bool, ours: &Vec<u64>, sight: Sight) -> Sight
    ensures { result ≡ sight_of own ours.now.items sight }
{
    if own && ours.is_empty() {
        next_sight(sight)
    } else {
        Sight::Unseen
    }
}
