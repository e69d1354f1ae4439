use crate::event::Exit;
use crate::terms::Terms;
use smf_fmri::Number;

/// A contract that is there when a table begins.
#[derive(Clone, Copy, PartialEq, Eq)]
pub struct Found {
    pub id: Number,
    pub cookie: u64,
    pub terms: Terms,
    /// How its first process ended, if that was told. Then others live.
    pub end: Option<Exit>,
}
