ghost use Rattle.std.specs.Prelude.{◌≡◌, IfOk};

use smf_fmri::InstanceFmri;
use smf_method::MethodCall;
use smf_state::{Cause, Duration, Ignore, SharedRow, State};
use std::alloc::AllocError;

/// The thing to do with an instance.
#[derive(Drop)]
pub enum What {
    /// To another state at once.
    To(State),
    Start {
        method: MethodCall,
        duration: Duration,
        ignore: Ignore,
    },
    Stop {
        to: State,
        cause: Cause,
        method: Option<MethodCall>,
    },
    Refresh {
        method: Option<MethodCall>,
    },
}

/// An order of svc.startd's graph to the restarter of an instance.
#[derive(Drop)]
pub struct Order {
    /// The owner of the row.
    pub restarter: InstanceFmri,
    pub instance: u64,
    pub name: InstanceFmri,
    /// The revision that the order was decided on.
    pub revision: u64,
    /// The row at that revision.
    pub row: SharedRow,
    pub what: What,
}

fn copy_of(method: &Option<MethodCall>) -> Result<Option<MethodCall>, AllocError>
    ensures { IfOk result (λ copy. copy ≡ method.now) }
{
    match method {
        None => Ok(None),
        Some(call) => Ok(Some(call.clone()?)),
    }
}

impl Clone for What {
    ghost is_clone = { λ s copy. copy ≡ s };

    fn clone(&self) -> Result<What, AllocError> {
        match self {
            What::To(state) => Ok(What::To(*state)),
            What::Start {
                method,
                duration,
                ignore,
            } => Ok(What::Start {
                method: method.clone()?,
                duration: *duration,
                ignore: *ignore,
            }),
            What::Stop { to, cause, method } => Ok(What::Stop {
                to: *to,
                cause: *cause,
                method: copy_of(method)?,
            }),
            What::Refresh { method } => Ok(What::Refresh {
                method: copy_of(method)?,
            }),
        }
    }
}

impl Clone for Order {
    ghost is_clone = { λ s copy. copy ≡ s };

    fn clone(&self) -> Result<Order, AllocError> {
        let restarter = self.restarter.clone()?;
        let name = self.name.clone()?;
        let row = self.row.clone()?;
        let what = self.what.clone()?;
        Ok(Order {
            restarter,
            instance: self.instance,
            name,
            revision: self.revision,
            row,
            what,
        })
    }
}
