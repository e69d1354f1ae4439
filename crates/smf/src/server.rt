// A service manager that stays, over a database and the requests of a folder.
ghost use Rattle.smf_contract.specs.Laws.{Ascends};
ghost use Rattle.smf_edge.specs.FollowedBeginnings.{found_posts};
ghost use Rattle.smf_edge.specs.Phases.{posts};
ghost use Rattle.std.specs.Prelude.{◌≡◌, map};

use crate::backups::{OWN, copy_database};
use crate::beginnings::{Beginning, beginning_text};
use crate::boot::Tries;
use crate::contracts::begin_text;
use smf_contract::Found;
use smf_edge::{FollowedKids, Kids};
use smf_fmri::Number;
use smf_host::{
    Database, FileChronicle, FileDesk, FileEnder, Hold, LentDesk, RecordFile, RecordedChronicle,
    Recorder, RoomFault, RoomHold, SystemTimer, TrailFile, close_room, end_listed, ender_in,
    folder_lock, forget_boot, form_text, has_booted, new_causes, note_stay, older_causes,
    older_retries, path_beside, put_record_aside, record_database, room_text, take_alone,
    take_lock, take_room,
};
use smf_keeper::{Adopted, Manner, boot, go_on};
use smf_lines::tell;
use smf_model::{Journal, Plain};
use smf_node::{ContinueFault, NodeFault};
use smf_program::tell_no_database;
use smf_record::{RecordedContracts, RecordedDesk, RecordedTimer};
use smf_room::Room;
use smf_runs::{Closed, Served, close, tell_open};
use smf_server::{Leftover, Life, Onward, Unborn, Uncontinued, continue_over, stay_over};
use smf_store::open_repository;
use smf_watch::Retry;
use sqlite::{Alter, Connection};
use std::alloc::AllocError;
use std::cell::RefCell;
use std::io;

/// Tells why nothing more was asked, if it was no request, and gives the status of the run.
fn tell_end(rt: &HostRuntime, desk: &FileDesk<'_>) -> u8 {
    if desk.has_failed() {
        tell(&mut rt.stderr(), "smf: input failed")
    } else {
        0
    }
}

/// A stay that is over, with the status of the run; or one that did not begin, and why.
enum Stayed<J: Journal, K: Kids> {
    Over(u8, Onward, J),
    Unborn(NodeFault, J, K),
}

fn over<J: Journal + Drop, K: Kids + Drop>(
    rt: &HostRuntime,
    desk: &FileDesk<'_>,
    life: Life<J, K>,
) -> Stayed<J, K> {
    let Life {
        how,
        left,
        journal,
        kids: _kids,
    } = life;
    let told = tell_left(rt, &left);
    Stayed::Over(told.max(tell_end(rt, desk)), how, journal)
}

/// A server cannot go on with what an older one left. If it is of another database, that is told, and all of it stays.
fn not_continued<J: Journal + Drop, K: Kids + Drop>(
    rt: &HostRuntime,
    uncontinued: Uncontinued<J, K>,
) -> Stayed<J, K> {
    let Uncontinued {
        fault,
        journal,
        kids,
    } = uncontinued;
    match fault {
        ContinueFault::Memory => Stayed::Unborn(NodeFault::Memory, journal, kids),
        ContinueFault::Unfit | ContinueFault::Foreign(_) => {
            let status = tell(
                &mut rt.stderr(),
                "smf: contracts: what an older server left is not of this database",
            );
            Stayed::Over(status, Onward::Leaves, journal)
        }
    }
}

/// Boots what a repository holds, and stays. It is recorded what is given to the server.
fn live_from_boot<J: Journal + Drop, K: Kids + Drop>(
    rt: &HostRuntime,
    desk: &mut FileDesk<'_>,
    chronicle: &mut FileChronicle<'_>,
    ender: &mut FileEnder<'_>,
    recorder: Recorder<'_>,
    repository: Plain<J>,
    kids: K,
) -> Result<Life<J, K>, Unborn<J, K>> {
    let mut desk = RecordedDesk {
        desk: LentDesk { desk },
        sink: recorder,
    };
    let mut chronicle = RecordedChronicle {
        chronicle,
        recorder,
    };
    let timer = RecordedTimer {
        timer: SystemTimer { rt },
        sink: recorder,
    };
    stay_over(
        rt.alloc(),
        &mut desk,
        &mut chronicle,
        &timer,
        ender,
        repository,
        kids,
    )
}

/// Goes on with what a repository holds and an older server left, and stays. It is recorded what is given to the server.
fn live_on<J: Journal + Drop, K: Kids + Drop>(
    rt: &HostRuntime,
    desk: &mut FileDesk<'_>,
    chronicle: &mut FileChronicle<'_>,
    ender: &mut FileEnder<'_>,
    recorder: Recorder<'_>,
    repository: Plain<J>,
    last: Number,
    found: &[Found],
    retries: &[Retry],
    kids: K,
) -> Result<Life<J, K>, Uncontinued<J, K>> {
    let mut desk = RecordedDesk {
        desk: LentDesk { desk },
        sink: recorder,
    };
    let mut chronicle = RecordedChronicle {
        chronicle,
        recorder,
    };
    let timer = RecordedTimer {
        timer: SystemTimer { rt },
        sink: recorder,
    };
    continue_over(
        rt.alloc(),
        &mut desk,
        &mut chronicle,
        &timer,
        ender,
        repository,
        last,
        found,
        retries,
        kids,
    )
}

/// Stays over what a repository holds, and children.
fn stay<J: Journal + Drop, K: Kids + Drop>(
    rt: &HostRuntime,
    desk: &mut FileDesk<'_>,
    chronicle: &mut FileChronicle<'_>,
    ender: &mut FileEnder<'_>,
    recorder: Recorder<'_>,
    beginning: &Beginning,
    repository: Plain<J>,
    kids: K,
) -> Stayed<J, K> {
    match beginning {
        Beginning::Boots => match live_from_boot(
            rt, desk, chronicle, ender, recorder, repository, kids,
        ) {
            Ok(life) => over(rt, desk, life),
            Err(
                Unborn {
                    fault,
                    journal,
                    kids,
                },
            ) => Stayed::Unborn(fault, journal, kids),
        },
        Beginning::GoesOn(last, found, retries) => match live_on(
            rt, desk, chronicle, ender, recorder, repository, *last, found, retries, kids,
        ) {
            Ok(life) => over(rt, desk, life),
            Err(uncontinued) => not_continued(rt, uncontinued),
        },
    }
}

/// Tells what children have left at the end, if anything, and gives the status of the run for that.
fn tell_left(rt: &HostRuntime, left: &Option<Result<Leftover, AllocError>>) -> u8 {
    match left {
        None | Some(Ok(Leftover::NoneLeft)) => 0,
        Some(Ok(Leftover::SomeLeft | Leftover::Unlisted)) => {
            let _ = eprintln!(rt; "smf: serve: some contracts have not ended yet");
            0
        }
        Some(Err(_)) => tell(&mut rt.stderr(), "smf: no memory"),
    }
}

/// Stays over the store in a database and children. If the boot fails, since a disk is full perhaps, it is tried again later.
/// It takes any store: a proof over a store in files takes far longer.
fn serve_store<S: Alter + Drop, K: Kids + Drop>(
    rt: &HostRuntime,
    desk: &mut FileDesk<'_>,
    chronicle: &mut FileChronicle<'_>,
    ender: &mut FileEnder<'_>,
    recorder: Recorder<'_>,
    beginning: &Beginning,
    conn: Connection<S>,
    kids: K,
) -> (Onward, Served<S>) {
    let mut conn = conn;
    let mut kids = kids;
    let mut tries = Tries::new();
    for _ in 0..u64::MAX {
        let repository = match open_repository(rt.alloc(), conn) {
            Ok(repository) => repository,
            Err((fault, conn)) => {
                let status = tell_open(rt.alloc(), &mut rt.stderr(), &fault);
                return (Onward::Leaves, Served { status, conn });
            }
        };
        match stay(
            rt, desk, chronicle, ender, recorder, beginning, repository, kids,
        ) {
            Stayed::Over(status, how, journal) => {
                let conn = journal.release();
                return (how, Served { status, conn });
            }
            Stayed::Unborn(fault, journal, unasked) => {
                conn = journal.release();
                kids = unasked;
                if let Some(status) = tries.fail(rt, desk, fault) {
                    return (Onward::Leaves, Served { status, conn });
                }
            }
        }
    }
    (Onward::Leaves, Served { status: 0, conn })
}

/// Stays over an open database, with children. How it ended, and the status of the run.
fn serve_with<K: Kids + Drop>(
    rt: &HostRuntime,
    desk: &mut FileDesk<'_>,
    chronicle: &mut FileChronicle<'_>,
    ender: &mut FileEnder<'_>,
    recorder: Recorder<'_>,
    beginning: &Beginning,
    database: Database,
    kids: K,
) -> io::Result<(Onward, u8)> {
    recorder.begin(beginning_text(rt.alloc(), beginning)?.as_str());
    let (how, served) = serve_store(
        rt,
        desk,
        chronicle,
        ender,
        recorder,
        beginning,
        database.into_connection(),
        kids,
    );
    recorder.close();
    let Closed { status, files: _ } = close(served, &mut rt.stderr());
    Ok((how, status))
}

/// Boots, and stays. What an older server left is ended first.
fn serve_from_boot<'a, R: Room + Drop>(
    rt: &'a HostRuntime,
    desk: &mut FileDesk<'_>,
    database: Database,
    folder: R,
    room: &'a str,
    trail: TrailFile<'a>,
    recorder: Recorder<'_>,
) -> io::Result<(Onward, u8)> {
    let alloc = rt.alloc();
    let contracts = match boot(alloc, folder, Manner::ByTerms) {
        Ok(contracts) => contracts,
        Err(fault) => {
            let status = tell(&mut rt.stderr(), begin_text(&fault));
            return Ok((Onward::Leaves, status));
        }
    };
    let mut chronicle = FileChronicle {
        causes: new_causes(rt, room),
        trail,
    };
    let mut ender = ender_in(rt, room);
    let contracts = RecordedContracts {
        contracts,
        sink: recorder,
    };
    let kids = FollowedKids::new(alloc, contracts);
    let beginning = Beginning::Boots;
    serve_with(
        rt,
        desk,
        &mut chronicle,
        &mut ender,
        recorder,
        &beginning,
        database,
        kids,
    )
}

/// Goes on with contracts that were found, and stays.
fn serve_adopted<'a, R: Room + Drop>(
    rt: &'a HostRuntime,
    desk: &mut FileDesk<'_>,
    database: Database,
    adopted: Adopted<R>,
    room: &'a str,
    trail: TrailFile<'a>,
    recorder: Recorder<'_>,
) -> io::Result<(Onward, u8)>
    requires ascend { Ascends 0 (map (λ f. f.id) adopted.found.items) adopted.last }
    requires kids { posts adopted.kids.items ≡ found_posts adopted.found.items }
{
    let Adopted {
        contracts,
        found,
        kids,
        last,
    } = adopted;
    let contracts = RecordedContracts {
        contracts,
        sink: recorder,
    };
    let kids = match FollowedKids::found(rt.alloc(), contracts, last, &found, kids) {
        Ok(kids) => kids,
        Err(_) => return Err(io::Error::from(io::ErrorKind::OutOfMemory)),
    };
    let mut chronicle = FileChronicle {
        causes: older_causes(rt, room)?,
        trail,
    };
    let mut ender = ender_in(rt, room);
    let beginning = Beginning::GoesOn(last, found, older_retries(rt, room)?);
    serve_with(
        rt,
        desk,
        &mut chronicle,
        &mut ender,
        recorder,
        &beginning,
        database,
        kids,
    )
}

/// Goes on with the contracts that an older server left, and stays.
fn serve_further<'a, R: Room + Drop>(
    rt: &'a HostRuntime,
    desk: &mut FileDesk<'_>,
    database: Database,
    folder: R,
    room: &'a str,
    trail: TrailFile<'a>,
    recorder: Recorder<'_>,
) -> io::Result<(Onward, u8)> {
    match go_on(rt.alloc(), folder, Manner::ByTerms) {
        Ok(adopted) => serve_adopted(rt, desk, database, adopted, room, trail, recorder),
        Err(fault) => {
            let status = tell(&mut rt.stderr(), begin_text(&fault));
            Ok((Onward::Leaves, status))
        }
    }
}

/// Stays over a database with the contracts of a room.
fn serve_in(
    rt: &HostRuntime,
    desk: &mut FileDesk<'_>,
    database: Database,
    hold: RoomHold<'_>,
    trail: TrailFile<'_>,
    kept: RecordFile,
) -> io::Result<u8> {
    let RoomHold {
        folder,
        path,
        groups,
    } = hold;
    let room = path.as_str();
    let goes_on = has_booted(rt, room)?;
    // A server that goes on does so on a full disk too: the notes of the one before it stand there.
    if let Err(fault) = note_stay(rt, room, desk.folder()) {
        if !goes_on {
            return Ok(tell(&mut rt.stderr(), room_text(&RoomFault::Io(fault))));
        }
    }
    eprintln!(rt; "{}", form_text(&groups))?;
    let kept = RefCell::new(kept);
    let recorder = Recorder { rt, shared: &kept };
    let (how, status) = if goes_on {
        serve_further(rt, desk, database, folder, room, trail, recorder)?
    } else {
        serve_from_boot(rt, desk, database, folder, room, trail, recorder)?
    };
    if how == Onward::Ends {
        forget_boot(rt, room)?;
        close_room(rt, room, &groups);
    }
    Ok(status)
}

/// Tells a fault of the system that kept a server from serving. Want of memory is told by whoever called this.
fn tell_broken(rt: &HostRuntime, served: io::Result<u8>) -> io::Result<u8> {
    match served {
        Err(fault) if fault.kind() != io::ErrorKind::OutOfMemory => {
            Ok(tell(&mut rt.stderr(), room_text(&RoomFault::Io(fault))))
        }
        served => served,
    }
}

/// A new record, with a copy of the database that this server has. None if the copy cannot be made, which was told.
fn new_record(rt: &HostRuntime, record: &str, database: &str) -> io::Result<Option<RecordFile>> {
    put_record_aside(rt, record)?;
    let copy = record_database(rt, record)?;
    if copy_database(rt, database, copy.as_str(), OWN) == 0 {
        Ok(Some(RecordFile::create(rt, record)?))
    } else {
        Ok(None)
    }
}

/// The record of this server, if one is wanted. If it cannot be made, that is told, and nothing is recorded.
fn record_in(rt: &HostRuntime, record: Option<&str>, database: &str) -> RecordFile {
    let Some(record) = record else {
        return RecordFile::none(rt);
    };
    match new_record(rt, record, database) {
        Ok(Some(record)) => record,
        Ok(None) | Err(_) => {
            let _told = eprintln!(rt; "smf: serve: nothing is recorded");
            RecordFile::none(rt)
        }
    }
}

/// Stays over the database in a file.
fn serve(
    rt: &HostRuntime,
    desk: &mut FileDesk<'_>,
    record: Option<&str>,
    path: &str,
) -> io::Result<u8> {
    let mut errors = rt.stderr();
    let database = match Database::open(rt, path) {
        Ok(database) => database,
        Err(fault) => return Ok(tell_no_database(&mut errors, &fault)),
    };
    if let Some(status) = end_listed(rt, path)? {
        return Ok(status);
    }
    desk.set_probe(path_beside(rt, path, "room")?);
    let trail = TrailFile::new(rt, path_beside(rt, path, "trail")?);
    match take_room(rt, path) {
        Ok(hold) => {
            let record = record_in(rt, record, path);
            tell_broken(rt, serve_in(rt, desk, database, hold, trail, record))
        }
        Err(fault) => Ok(tell(&mut errors, room_text(&fault))),
    }
}

/// Stays, and does the requests that come in a folder over the database in a file, which no other program has then. The
/// pipe is open before the folder's lock is taken, so a client that finds it taken is heard.
pub(crate) fn serve_over(
    rt: &HostRuntime,
    record: Option<&str>,
    folder: &str,
    path: &str,
) -> io::Result<u8> {
    let mut errors = rt.stderr();
    let Ok(mut desk) = FileDesk::open(rt, folder) else {
        return Ok(tell(&mut errors, "smf: serve: no pipe in this folder"));
    };
    let Ok(lock) = folder_lock(rt, folder) else {
        return Ok(tell(&mut errors, "smf: serve: no lock in this folder"));
    };
    if !take_lock(rt, &lock) {
        return Ok(tell(&mut errors, "smf: serve: another server has this folder"));
    }
    match take_alone(rt, path)? {
        Hold::Ours(_held) => serve(rt, &mut desk, record, path),
        Hold::Refused(status) => Ok(status),
    }
}
