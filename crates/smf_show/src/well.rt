//! Whether instances are as they should be.

ghost use Rattle.std.specs.Prelude.{◌≡◌};
ghost use Rattle.smf_show.specs.Well.{are_well, is_online, is_well};

use crate::shown::Shown;
use smf_state::State;

fn is_online(state: State) -> bool
    ensures { result ≡ is_online state }
{
    matches!(state, State::Online)
}

/// True if an instance is online with no transition under way, or not enabled.
fn is_well(shown: &Shown) -> bool
    ensures { result ≡ is_well shown.now }
{
    !shown.enabled || (is_online(shown.state) && shown.next.is_none())
}

/// True if each enabled instance is online, with no transition under way.
pub fn are_well(all: &[Shown]) -> bool
    ensures { result ≡ are_well all.now }
{
    all.iter().all(|shown| is_well(shown))
}
