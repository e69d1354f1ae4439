//! An instance, with what is shown of it.

ghost use Rattle.std.specs.Prelude.{refl};
ghost use Rattle.smf_fmri.specs.ByKey.{by_text};

use smf_fmri::{InstanceFmri, Keyed, Ordered};
use smf_state::State;
use smf_value::Group;

/// An instance, and how it stands.
#[derive(Drop)]
pub struct Shown {
    pub name: InstanceFmri,
    pub enabled: bool,
    pub state: State,
    pub next: Option<State>,
    pub restarter: InstanceFmri,
}

/// An instance with the groups that it has configured, by name its own, else those of its service.
#[derive(Drop)]
pub struct Configured {
    pub shown: Shown,
    pub groups: Ordered<Group>,
}

impl Keyed for Shown {
    type Key = InstanceFmri;

    ghost by = { by_text (λ s. s.name) };

    fn key(&self) -> &InstanceFmri {
        &self.name
    }

    ghost same = { refl };
}

impl Keyed for Configured {
    type Key = InstanceFmri;

    ghost by = { by_text (λ c. c.shown.name) };

    fn key(&self) -> &InstanceFmri {
        &self.shown.name
    }

    ghost same = { refl };
}
