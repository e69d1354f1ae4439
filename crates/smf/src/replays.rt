// Records of servers that are run again.
ghost use Rattle.smf_contract.specs.Laws.{Ascends};
ghost use Rattle.smf_edge.specs.FollowedBeginnings.{found_posts};
ghost use Rattle.smf_edge.specs.Phases.{posts};
ghost use Rattle.std.specs.Prelude.{◌≡◌, map};

use crate::exports::write_out;
use crate::files::is_site;
use crate::records::{RecordFault, RecordedLife, RecordedRun, read_record};
use crate::shows::BAD_USAGE;
use crate::sites::lines_of_site;
use crate::times::time_in;
use sha2::{Digest, Sha256};
use smf_edge::FollowedKids;
use smf_host::{read_files, record_database};
use smf_lines::{LineReader, NotedReader, TextWriter, tell};
use smf_model::{Journal, Plain};
use smf_node::Node;
use smf_program::{tell_no_database, tell_no_input, tell_no_memory};
use smf_record::{
    Gathered, ReplayedChildren, ReplayedContracts, ReplayedDesk, ReplayedTimer, Said, children_of,
};
use smf_runs::{Served, open_copy, serve_cfg, tell_open};
use smf_server::{ServerInput, continue_over, stay_over};
use smf_store::open_repository;
use smf_watch::{Chronicle, Ender, Retry, Term};
use smf_world::{Item, trail_text};
use sqlite::{Alter, Connection};
use std::alloc::{AllocError, Global};
use std::collections::VecDeque;
use std::fs::File;
use std::io::BufReader;
use std::{fs, io};

/// The status if the trail is not the recorded one.
const DIFFERENT: u8 = 1;

/// The status of a run that was ended by a fault.
const FAULT: u8 = 3;

/// Where a trail is not the recorded one: the first turn and the first lines that differ.
#[derive(Drop)]
struct Difference {
    turn: usize,
    recorded: String,
    now: String,
}

/// The first lines of two texts that differ, of which one may have no more.
fn first_lines<'t>(recorded: &'t str, now: &'t str) -> (&'t str, &'t str) {
    let mut others = now.lines();
    for line in recorded.lines() {
        let other = others.next().unwrap_or("-");
        if line != other {
            return (line, other);
        }
    }
    ("-", others.next().unwrap_or("-"))
}

/// A chronicle that compares what happens with what was recorded.
#[derive(Drop)]
struct ComparedTrail<'r> {
    alloc: Global,
    recorded: &'r [String],
    /// So many turns were compared.
    turns: usize,
    difference: Option<Difference>,
    /// True if memory ran out.
    is_lost: bool,
}

impl<'r> ComparedTrail<'r> {
    /// A turn that ends with this. More turns than were recorded are not compared.
    fn compare(&mut self, now: &str) -> Result<(), AllocError> {
        if self.difference.is_some() {
            return Ok(());
        }
        let all = self.recorded;
        let Some(recorded) = all.get(self.turns) else {
            return Ok(());
        };
        if recorded.as_str() != now {
            let (line, other) = first_lines(recorded.as_str(), now);
            self.difference = Some(Difference {
                turn: self.turns,
                recorded: String::from_str(self.alloc, line)?,
                now: String::from_str(self.alloc, other)?,
            });
        }
        Ok(())
    }

    fn take(&mut self, items: &[Item]) -> Result<(), AllocError> {
        let text = trail_text(self.alloc, items)?;
        self.compare(text.as_str())?;
        self.turns = self.turns.saturating_add(1);
        Ok(())
    }

    /// Whether fewer turns were taken than were recorded.
    fn finish(&mut self) -> Result<(), AllocError> {
        if self.turns < self.recorded.len() && self.difference.is_none() {
            self.difference = Some(Difference {
                turn: self.turns,
                recorded: String::from_str(self.alloc, "a turn")?,
                now: String::from_str(self.alloc, "-")?,
            });
        }
        Ok(())
    }
}

impl<'r> Chronicle for ComparedTrail<'r> {
    ghost use Rattle.std.specs.Prelude.{None};

    ghost told = { λ _. None };

    fn tell<J: Journal>(&mut self, items: &[Item], _node: &Node<J>, _retries: &[Retry]) {
        if self.take(items).is_err() {
            self.is_lost = true;
        }
    }
}

/// Nobody who keeps contracts.
#[derive(Drop)]
struct NoEnder {}

impl Ender for NoEnder {
    ghost use Rattle.std.specs.Prelude.{None};

    ghost told = { λ _. None };

    fn keep_by(&mut self, _terms: &[Term]) {}
}

/// How a life ended that was run again.
#[derive(Drop)]
enum Replayed {
    Ran(Option<Said>),
    /// It could not begin.
    Unborn,
    /// The contracts with which it went on are none.
    Childless,
}

/// What was asked; and then these lines, if there are any.
fn asked_with(
    alloc: Global,
    inputs: VecDeque<ServerInput>,
    request: Option<&str>,
) -> Result<VecDeque<ServerInput>, AllocError> {
    let mut inputs = inputs;
    if let Some(request) = request {
        if matches!(inputs.back(), Some(ServerInput::End | ServerInput::Leave)) {
            let _last = inputs.pop_back();
        }
        let mut lines = request.as_bytes().to_vec(alloc)?;
        lines.push(b'\n')?;
        inputs.push_back(ServerInput::Request(lines))?;
    }
    Ok(inputs)
}

/// Goes on again with contracts of an older life. False if it cannot.
fn go_on_over<J: Journal + Drop>(
    alloc: Global,
    desk: &mut ReplayedDesk,
    trail: &mut ComparedTrail<'_>,
    timer: &ReplayedTimer,
    contracts: ReplayedContracts,
    repository: Plain<J>,
    children: ReplayedChildren,
    retries: &[Retry],
) -> Result<bool, AllocError>
    requires ascend { Ascends 0 (map (λ f. f.id) children.found.items) children.last }
    requires kids { posts children.kids.items ≡ found_posts children.found.items }
{
    let ReplayedChildren { found, kids, last } = children;
    let kids = match FollowedKids::found(alloc, contracts, last, &found, kids) {
        Ok(kids) => kids,
        Err(_) => return Err(AllocError),
    };
    let lived = continue_over(
        alloc,
        desk,
        trail,
        timer,
        &mut NoEnder {},
        repository,
        last,
        &found,
        retries,
        kids,
    );
    Ok(lived.is_ok())
}

/// Boots again. False if it cannot.
fn boot_over<J: Journal + Drop>(
    alloc: Global,
    desk: &mut ReplayedDesk,
    trail: &mut ComparedTrail<'_>,
    timer: &ReplayedTimer,
    contracts: ReplayedContracts,
    repository: Plain<J>,
) -> bool {
    let kids = FollowedKids::new(alloc, contracts);
    let lived = stay_over(alloc, desk, trail, timer, &mut NoEnder {}, repository, kids);
    lived.is_ok()
}

/// Runs a life again over what a repository holds.
fn live<J: Journal + Drop>(
    alloc: Global,
    life: RecordedLife,
    request: Option<&str>,
    trail: &mut ComparedTrail<'_>,
    repository: Plain<J>,
) -> Result<Replayed, AllocError> {
    let RecordedLife {
        goes_on,
        found,
        retries,
        answers,
    } = life;
    let Gathered {
        inputs,
        replies,
        times,
        starts,
        stands,
        ends,
    } = answers;
    let inputs = asked_with(alloc, inputs, request)?;
    let mut desk = ReplayedDesk::new(alloc, inputs, replies);
    let timer = ReplayedTimer::new(times);
    let contracts = ReplayedContracts::new(starts, stands, ends);
    let has_lived = if goes_on {
        let Some(children) = children_of(alloc, &found)? else {
            return Ok(Replayed::Childless);
        };
        go_on_over(
            alloc, &mut desk, trail, &timer, contracts, repository, children, &retries,
        )?
    } else {
        boot_over(alloc, &mut desk, trail, &timer, contracts, repository)
    };
    if has_lived {
        Ok(Replayed::Ran(desk.into_said()))
    } else {
        Ok(Replayed::Unborn)
    }
}

/// Runs a life again over an open database. It takes any store: a proof over a store in memory takes far longer.
fn run<S: Alter + Drop>(
    rt: &HostRuntime,
    conn: Connection<S>,
    life: RecordedLife,
    request: Option<&str>,
    trail: &mut ComparedTrail<'_>,
) -> Result<Result<Replayed, u8>, AllocError> {
    let alloc = rt.alloc();
    match open_repository(alloc, conn) {
        Ok(repository) => Ok(Ok(live(alloc, life, request, trail, repository)?)),
        Err((fault, _conn)) => Ok(Err(tell_open(alloc, &mut rt.stderr(), &fault))),
    }
}

/// Does the lines of a file over a database. If there is a fault, that was told.
fn with_lines<S: Alter + Drop, R: LineReader>(
    rt: &HostRuntime,
    conn: Connection<S>,
    reader: &mut R,
) -> Served<S> {
    let mut said: Vec<u8> = Vec::new(rt.alloc());
    serve_cfg(rt.alloc(), conn, reader, &mut said, &mut rt.stderr())
}

/// Does the lines that are to be done before a life is run again, of a file of lines or of tables. The status is 0 if they
/// are done.
fn changed<S: Alter + Drop>(
    rt: &HostRuntime,
    conn: Connection<S>,
    path: Option<&str>,
) -> io::Result<Served<S>> {
    let Some(path) = path else {
        return Ok(Served { status: 0, conn });
    };
    if is_site(path) {
        return Ok(match lines_of_site(rt, path) {
            Ok(lines) => with_lines(rt, conn, &mut lines.as_slice()),
            Err(status) => Served { status, conn },
        });
    }
    let Ok(file) = File::open(rt, path) else {
        let status = tell_no_input(&mut rt.stderr());
        return Ok(Served { status, conn });
    };
    let mut reader = NotedReader::new(BufReader::new(rt.alloc(), file)?);
    Ok(with_lines(rt, conn, &mut reader))
}

/// The digest of all that happened.
fn digest_of(alloc: Global, turns: &[String]) -> Result<String, AllocError> {
    let mut all: Vec<u8> = Vec::new(alloc);
    for turn in turns {
        all.extend_from_slice(turn.as_str().as_bytes())?;
    }
    let mut text = String::new(alloc);
    for byte in &Sha256::digest(all.as_slice()) {
        write!(text, "{byte:02x}")?;
    }
    Ok(text)
}

/// What is said of a trail that was run again, and the status.
fn verdict_of(
    alloc: Global,
    difference: &Option<Difference>,
    turns: &[String],
    requests: u64,
    items: u64,
) -> Result<(String, u8), AllocError> {
    match difference {
        None => {
            let digest = digest_of(alloc, turns)?;
            let count = turns.len().saturating_sub(1);
            let mut text = format!(in alloc;
                "{count} turns, {requests} requests, {items} items; "
            )?;
            let end = format!(in alloc;
                "the trail is the recorded one (sha256 {})\n",
                digest.as_str()
            )?;
            text.push_str(end.as_str())?;
            Ok((text, 0))
        }
        Some(difference) => {
            let turn = difference.turn;
            let recorded = difference.recorded.as_str();
            let now = difference.now.as_str();
            let mut text = format!(in alloc;
                "first difference at turn {turn}: recorded: {recorded}\n"
            )?;
            let end = format!(in alloc; "now: {now}\n")?;
            text.push_str(end.as_str())?;
            Ok((text, DIFFERENT))
        }
    }
}

/// Why a record is not run again. Gives the status of such a run.
fn tell_unread(rt: &HostRuntime, fault: RecordFault) -> u8 {
    match fault {
        RecordFault::Memory => tell_no_memory(&mut rt.stderr()),
        RecordFault::TooShort => tell(&mut rt.stderr(), "smf: replay: no record"),
        RecordFault::Unreadable(line) => {
            match format!(in rt.alloc(); "smf: replay: line {line} cannot be read\n") {
                Ok(text) => {
                    let _told = rt.stderr().write_text(text.as_bytes());
                    FAULT
                }
                Err(_) => tell_no_memory(&mut rt.stderr()),
            }
        }
    }
}

/// Runs a life again over an open database, and says whether the trail is the recorded one. Gives the status.
fn replay<S: Alter + Drop>(
    rt: &HostRuntime,
    conn: Connection<S>,
    recorded: RecordedRun,
    request: Option<&str>,
) -> Result<u8, AllocError> {
    let alloc = rt.alloc();
    let RecordedRun {
        life,
        turns,
        requests,
        items,
    } = recorded;
    let mut trail = ComparedTrail {
        alloc,
        recorded: turns.as_slice(),
        turns: 0,
        difference: None,
        is_lost: false,
    };
    let replayed = match run(rt, conn, life, request, &mut trail)? {
        Ok(replayed) => replayed,
        Err(status) => return Ok(status),
    };
    let reply = match replayed {
        Replayed::Ran(reply) => reply,
        Replayed::Unborn => {
            return Ok(tell(&mut rt.stderr(), "smf: replay: the server does not begin"));
        }
        Replayed::Childless => {
            return Ok(tell(
                &mut rt.stderr(),
                "smf: replay: the contracts of the record are not in order",
            ));
        }
    };
    trail.finish()?;
    if trail.is_lost {
        return Err(AllocError);
    }
    let (text, status) = verdict_of(alloc, &trail.difference, turns.as_slice(), requests, items)?;
    let told = status.max(write_out(rt, text.as_bytes()));
    match reply {
        Some(reply) if request.is_some() => Ok(told.max(write_out(rt, reply.text.as_slice()))),
        _ => Ok(told),
    }
}

/// Runs the life of a record again over a copy of the database that goes with it.
fn replay_recorded(
    rt: &HostRuntime,
    path: &str,
    lines: Option<&str>,
    request: Option<&str>,
    recorded: RecordedRun,
) -> io::Result<u8> {
    let mut errors = rt.stderr();
    let database = record_database(rt, path)?;
    let found = match read_files(rt, database.as_str()) {
        Ok(found) => found,
        Err(fault) => return Ok(tell_no_database(&mut errors, &fault)),
    };
    let conn = match open_copy(rt.alloc(), &found) {
        Ok(conn) => conn,
        Err(fault) => return Ok(tell_no_database(&mut errors, &fault)),
    };
    let Served { status, conn } = changed(rt, conn, lines)?;
    if status != 0 {
        return Ok(status);
    }
    Ok(replay(rt, conn, recorded, request)?)
}

/// Runs a life again up to a time, over what was given to it: the same server over the same answers. The lines of a file may be
/// done before it, and one more request at its end. Says whether the trail is the recorded one.
pub(crate) fn replay_over(
    rt: &HostRuntime,
    path: &str,
    until: Option<&str>,
    lines: Option<&str>,
    request: Option<&str>,
) -> io::Result<u8> {
    let until = match until {
        None => None,
        Some(word) => match time_in(word) {
            Some(time) => Some(time),
            None => {
                let text = format!(in rt.alloc(); "smf: no time {word}\n")?;
                let _told = rt.stderr().write_text(text.as_bytes());
                return Ok(BAD_USAGE);
            }
        },
    };
    let Ok(text) = fs::read_to_string(rt, path) else {
        return Ok(tell_no_input(&mut rt.stderr()));
    };
    match read_record(rt.alloc(), text.as_str(), until) {
        Ok(recorded) => replay_recorded(rt, path, lines, request, recorded),
        Err(fault) => Ok(tell_unread(rt, fault)),
    }
}
