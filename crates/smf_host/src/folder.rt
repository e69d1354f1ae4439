// The lock of a folder, by which one server alone has it.
use std::fs::File;
use std::rt::HostRuntime;
use std::time::Duration;
use std::{io, thread};

/// How often a second a lock is tried.
const TRIES: u32 = 50;

/// Takes a lock within a second: who waited for an older server's end may hold it for a moment.
pub fn take_lock(rt: &HostRuntime, lock: &File) -> bool {
    for _ in 0..TRIES {
        if lock.try_lock().is_ok() {
            return true;
        }
        thread::sleep(rt, Duration::from_millis(1000 / u64::from(TRIES)));
    }
    false
}

/// The lock of a folder. It is free again when its file is dropped.
pub fn folder_lock(rt: &HostRuntime, folder: &str) -> io::Result<File> {
    let path = format!(in rt.alloc(); "{folder}/lock")?;
    File::options()
        .write(true)
        .create(true)
        .open(rt, path.as_str())
}
