/// The next thing that a server is asked.
#[derive(Drop)]
pub enum ServerInput {
    /// Time has passed.
    Tick,
    /// Lines are to be done.
    Request(Vec<u8>),
    /// No more is asked, and what still runs is to end.
    End,
    /// No more is asked of this server, and the services go on without it.
    Leave,
}

/// The answer of a turn: there is a next one, or it was the last.
#[derive(Clone, Copy, PartialEq, Eq)]
pub enum Onward {
    Goes,
    /// It was the last, and what still runs is to end.
    Ends,
    /// It was the last, and the services go on without this server.
    Leaves,
}
