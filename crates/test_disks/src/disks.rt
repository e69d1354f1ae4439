use sqlite::Files;
use sqlite_disk::{Crash, Disk, Fuse, Memory};
use std::alloc::{AllocError, Global};
use std::io;

/// The bytes of which a torn write leaves all or none.
const BLOCK: usize = 512;

/// The bytes of a log and of a database file.
#[derive(Drop)]
pub(crate) struct Image {
    pub(crate) log: Vec<u8>,
    pub(crate) db: Vec<u8>,
}

/// How many calls of a log and of a database file are done before one stops.
#[derive(Clone, Copy)]
pub(crate) struct Calls {
    pub(crate) log: u64,
    pub(crate) db: u64,
}

/// No call stops.
pub(crate) fn endless() -> Calls {
    Calls {
        log: u64::MAX,
        db: u64::MAX,
    }
}

fn disk_of(alloc: Global, bytes: &[u8], calls: u64) -> io::Result<Fuse<Memory>> {
    let mut disk = Memory::new(alloc);
    disk.write_at(0, bytes)?;
    disk.sync()?;
    Ok(Fuse::new(disk, calls))
}

/// Disks that hold this and stop after so many calls.
pub(crate) fn load(alloc: Global, image: &Image, calls: Calls) -> io::Result<Files<Fuse<Memory>>> {
    Ok(Files {
        log: disk_of(alloc, &image.log, calls.log)?,
        db: disk_of(alloc, &image.db, calls.db)?,
    })
}

/// True if a disk has stopped, or stops at its next call.
fn has_stopped(disk: &mut Fuse<Memory>) -> bool {
    if !disk.may_be_used() {
        return true;
    }
    disk.len().is_err()
}

pub(crate) fn is_stopped(files: &mut Files<Fuse<Memory>>) -> bool {
    let log = has_stopped(&mut files.log);
    let db = has_stopped(&mut files.db);
    log || db
}

/// The bytes that were written, but in each second block those that were synced.
fn mixed_blocks(
    alloc: Global,
    written: &[u8],
    synced: &[u8],
    odd: usize,
) -> Result<Vec<u8>, AllocError> {
    let mut bytes = Vec::with_capacity(alloc, written.len())?;
    for (at, byte) in written.iter().enumerate() {
        let is_synced = at / BLOCK % 2 == odd;
        let old = synced.get(at).copied().unwrap_or(0);
        bytes.push(if is_synced { old } else { *byte })?;
    }
    Ok(bytes)
}

/// The bytes that a crash may leave on a disk: all that was written, all that was synced, or blocks of both.
fn outcomes(alloc: Global, disk: &mut Fuse<Memory>) -> Result<Vec<Vec<u8>>, AllocError> {
    let written = disk.inner().bytes().to_vec(alloc)?;
    disk.crash();
    let synced = disk.inner().bytes();
    if written.as_slice() == synced {
        return Ok(vec![in alloc; written]?);
    }
    let even = mixed_blocks(alloc, &written, synced, 0)?;
    let odd = mixed_blocks(alloc, &written, synced, 1)?;
    let synced = synced.to_vec(alloc)?;
    Ok(vec![in alloc; written, synced, even, odd]?)
}

/// The images that a crash may leave on the disks.
pub(crate) fn images_left(
    alloc: Global,
    mut files: Files<Fuse<Memory>>,
) -> Result<Vec<Image>, AllocError> {
    let logs = outcomes(alloc, &mut files.log)?;
    let dbs = outcomes(alloc, &mut files.db)?;
    let mut images = Vec::new(alloc);
    for log in &logs {
        for db in &dbs {
            images.push(Image {
                log: log.clone()?,
                db: db.clone()?,
            })?;
        }
    }
    Ok(images)
}
