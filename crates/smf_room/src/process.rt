/// A process that has a contract's mark.
#[derive(Clone, Copy)]
pub struct Process {
    pub number: u64,
    /// Whether it is of the server's own user.
    pub ours: bool,
}
