ghost use Rattle.std.specs.Prelude.{◌≡◌};

use smf_fmri::{Number, ServiceFmri, Text};
use smf_model::Edit;
use smf_snap::SnapshotName;
use std::alloc::AllocError;

/// The entity that lines speak of. Nothing tells a selection that its service or instance was deleted by another.
#[derive(Drop)]
pub enum Selection {
    Nothing,
    Service(ServiceFmri),
    /// An instance, by its number. It has no children.
    Instance(Number),
    /// A snapshot of an instance, by its name.
    Snapshot {
        instance: Number,
        name: SnapshotName,
    },
}

/// The judgement of a line.
#[derive(Drop)]
pub enum Judged {
    Nothing,
    /// This is selected from now on.
    Select(Selection),
    /// An edit to be given to the repository, and the selection after it if it is accepted.
    Edit(Edit, Selection),
    /// To be printed.
    Print(Text),
    /// svccfg ends. Nothing is selected when it begins again.
    End,
}

impl Clone for Selection {
    ghost is_clone = { λ s copy. copy ≡ s };

    fn clone(&self) -> Result<Selection, AllocError> {
        match self {
            Selection::Nothing => Ok(Selection::Nothing),
            Selection::Service(name) => Ok(Selection::Service(name.clone()?)),
            Selection::Instance(number) => Ok(Selection::Instance(*number)),
            Selection::Snapshot { instance, name } => Ok(Selection::Snapshot {
                instance: *instance,
                name: *name,
            }),
        }
    }
}
