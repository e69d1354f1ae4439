use crate::fault::StepFault;

/// Why a proposal is refused, in the order in which the reasons are looked for.
#[derive(Clone, Copy, PartialEq, Eq)]
pub enum Why {
    NoSuch,
    Launch,
    Owner,
    Number,
    Snapshot,
    Step(StepFault),
}
