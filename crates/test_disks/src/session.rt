use crate::disks::{Image, endless, load};
use crate::stops::Stop;
use crate::work::{CountReplies, Done, Execute, Pictures, TakeBoth, TakePicture, Work};
use sqlite::{Connection, FileStore, Files, Options};
use sqlite_disk::{Disk, Fuse, Memory};
use std::alloc::{AllocError, AllocFailed, Global};
use std::io;

/// How long a log grows before it is copied into the database file: short, so that this is stopped too.
const LOG_FRAMES: usize = 16;

/// How many pages are kept in memory: few, so that an open is quick.
const PAGES: usize = 32;

/// Why not all stops were tried.
#[derive(Drop)]
pub(crate) enum Fault {
    /// After a stop something else was found.
    Found(Stop),
    /// There was no memory, or a run failed that was not stopped.
    Undone,
}

impl From<AllocError> for Fault {
    fn from(_e: AllocError) -> Fault {
        Fault::Undone
    }
}

impl<T: Drop> From<AllocFailed<T>> for Fault {
    fn from(_e: AllocFailed<T>) -> Fault {
        Fault::Undone
    }
}

impl From<io::Error> for Fault {
    fn from(_e: io::Error) -> Fault {
        Fault::Undone
    }
}

impl From<sqlite::Error> for Fault {
    fn from(_e: sqlite::Error) -> Fault {
        Fault::Undone
    }
}

/// Opens a database, or hands the disks back.
fn open<D: Disk + Drop>(
    alloc: Global,
    files: Files<D>,
) -> Result<Connection<FileStore<D>>, Files<D>> {
    if !files.may_be_used() {
        return Err(files);
    }
    let mut options = Options::new(1);
    options.checkpoint_frames = LOG_FRAMES;
    options.cache_pages = PAGES;
    options.spill_pages = PAGES;
    match Connection::open_files(alloc, files, options) {
        Ok(conn) => Ok(conn),
        Err((_, left)) => Err(left.into_files()),
    }
}

/// The answer of what was done over a database, if it opened, and its disks again.
pub(crate) struct Worked<T, D: Disk> {
    pub(crate) answer: Option<T>,
    pub(crate) files: Files<D>,
}

/// Opens a database and does something over it, as far as the disks go on.
fn work_over<T: Drop, W: Work<T> + Drop, D: Disk + Drop>(
    alloc: Global,
    files: Files<D>,
    work: W,
) -> Worked<T, D> {
    match open(alloc, files) {
        Ok(conn) => {
            let Done { answer, store } = work.over(alloc, conn);
            Worked {
                answer: Some(answer),
                files: store.close(),
            }
        }
        Err(files) => Worked {
            answer: None,
            files,
        },
    }
}

/// The answer of what is done over a database that an image holds, with disks that do not stop; none if it does not open.
fn answer_on<T: Drop, W: Work<T> + Drop>(
    alloc: Global,
    image: &Image,
    work: W,
) -> Result<Option<T>, Fault> {
    let files = load(alloc, image, endless())?;
    let Worked {
        answer,
        files: _files,
    } = work_over(alloc, files, work);
    Ok(answer)
}

/// How many replies there were before the disks stopped, of which the first is that the store is open.
pub(crate) struct Ran {
    pub(crate) replies: usize,
    pub(crate) files: Files<Fuse<Memory>>,
}

/// Opens a store and does lines, as far as the disks go on.
pub(crate) fn run(alloc: Global, files: Files<Fuse<Memory>>, lines: &[&str]) -> Ran {
    let Worked { answer, files } = work_over(alloc, files, CountReplies { lines });
    Ran {
        replies: answer.unwrap_or(0),
        files,
    }
}

/// The image that statements make out of an empty database.
pub(crate) fn image_of(alloc: Global, statements: &str) -> Result<Image, Fault> {
    let empty = Image {
        log: Vec::new(alloc),
        db: Vec::new(alloc),
    };
    if statements.is_empty() {
        return Ok(empty);
    }
    let files = load(alloc, &empty, endless())?;
    let Worked { answer, files } = work_over(alloc, files, Execute { statements });
    let Some(Ok(())) = answer else {
        return Err(Fault::Undone);
    };
    Ok(Image {
        log: files.log.inner().bytes().to_vec(alloc)?,
        db: files.db.inner().bytes().to_vec(alloc)?,
    })
}

/// The pictures of an image; none if it does not open.
pub(crate) fn pictures_of(alloc: Global, image: &Image) -> Result<Option<Pictures>, Fault> {
    match answer_on(alloc, image, TakeBoth {})? {
        Some(answer) => Ok(answer?),
        None => Ok(None),
    }
}

/// The picture of a store after lines that no stop ends.
pub(crate) fn picture_behind(
    alloc: Global,
    image: &Image,
    lines: &[&str],
) -> Result<Vec<u8>, Fault> {
    match answer_on(alloc, image, TakePicture { lines })? {
        Some(Some(picture)) => Ok(picture),
        _ => Err(Fault::Undone),
    }
}
