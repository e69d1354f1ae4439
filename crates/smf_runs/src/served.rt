use sqlite::{Alter, Connection};
use sqlite_disk::{Disk, Files};

/// The end of a run over a database.
pub struct Served<S: Alter> {
    /// 0, 1 if a line failed, or 3 for a fault.
    pub status: u8,
    /// The database, as the run left it.
    pub conn: Connection<S>,
}

/// The end of a run over a database in files, which was closed.
pub struct Closed<D: Disk> {
    /// 0, 1 if a line failed, or 3 for a fault.
    pub status: u8,
    /// The database file and its log.
    pub files: Files<D>,
}
