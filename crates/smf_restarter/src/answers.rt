//! The changes that a restarter makes on the answers to its calls, and on the reports of its contracts.

ghost use Rattle.std.specs.Option.{option_copied};
ghost use Rattle.std.specs.Prelude.{◌≡◌, ◌++◌, find, flat_map, map, IfOk, OnOk};
ghost use Rattle.smf_restarter.specs.Answers.{adopted_run, change_on_answer, answered_in, answered_known, answered_owed, end_by, ended_well, first_exit, is_empty_event, is_failure_of, is_left_empty, is_of_contract, is_run_of, change_on_list, phase_under, with_phase_of_row, change_on_report, run_after, run_before, run_begun, run_reported, running_method, started_as, timed_in, timed_out, turn_by, turn_in, turn_known, turn_up};
ghost use Rattle.smf_restarter.specs.Runs.{listed_run};

use crate::changes::{change_of_course, change_of_run, no_change};
use crate::ends::{
    end_on_success, ended_refresh, ended_start, ended_stop, failed_with, not_followed,
    start_succeeded,
};
use crate::known::{Ending, KnownInstance, KnownRun, Owed, Phase, RunKey, RunningMethod, Stage};
use crate::orders::with;
use crate::reply::{Answer, Course, CourseChange, KnowledgeChange};
use crate::restarter::Restarter;
use crate::runs::{is_exit_of, is_failure, listed_run, run_at};
use smf_contract::{Cookie, EventKind, Exit, Method, Report, Status};
use smf_fmri::{Items, Number};
use smf_method::{MethodOutcome, judge};
use smf_state::{Duration, Row, State};
use std::alloc::{AllocError, Global};

/// The phase of an instance once the contracts are listed. If its row has a next state, the restarter ends that step.
fn phase_under(row: &Row) -> Phase
    ensures { result ≡ phase_under row.now row.now.next }
{
    let Some(next) = row.next else {
        return Phase::Idle;
    };
    if next == row.state {
        Phase::Ending(ended_refresh(row))
    } else if row.state == State::Offline && next == State::Online {
        Phase::Ending(ended_start(row))
    } else {
        Phase::Ending(ended_stop(row, next))
    }
}

fn all_phased(
    alloc: Global,
    instances: &[KnownInstance],
) -> Result<Items<KnownInstance>, AllocError>
    ensures { IfOk result (λ is. is ≡ map with_phase_of_row instances.now) }
{
    let mut all = Vec::new(alloc);
    for known in instances {
        all.push(with(known, &known.row, phase_under(&known.row))?)?;
    }
    Ok(Items::from_vec(all))
}

/// Adds the run of a contract after the others, if its cookie names one.
fn push_listed(
    all: &mut Items<KnownRun>,
    restarter: &Restarter,
    status: &Status,
) -> Result<(), AllocError>
    ensures { OnOk result (all.new ≡ all.old ++ listed_run restarter.now.known status.now) }
{
    if let Some(run) = listed_run(restarter, status) {
        all.push(run)?;
    }
    Ok(())
}

fn all_listed(
    alloc: Global,
    restarter: &Restarter,
    statuses: &[Status],
) -> Result<Items<KnownRun>, AllocError>
    ensures { IfOk result (λ rs. rs ≡ flat_map (listed_run restarter.now.known) statuses.now) }
{
    let mut all = Items::new(alloc);
    for status in statuses {
        push_listed(&mut all, restarter, status)?;
    }
    Ok(all)
}

/// The contracts were listed.
#[tactic(auto, unfolding(crate::specs::Answers::change_on_list))]
pub(crate) fn change_on_list(
    alloc: Global,
    restarter: &Restarter,
    statuses: &[Status],
) -> Result<KnowledgeChange, AllocError>
    ensures { IfOk result (λ c. c ≡ change_on_list restarter.now.known statuses.now) }
{
    let mut change = no_change(alloc);
    if restarter.stage != Stage::Listing {
        return Ok(change);
    }
    change.stage = Some(Stage::Up);
    change.put = all_phased(alloc, restarter.instances())?;
    change.listed = all_listed(alloc, restarter, statuses)?;
    Ok(change)
}

fn is_of_contract(contract: Number, run: &KnownRun) -> bool
    ensures { result ≡ is_of_contract contract run.now }
{
    run.contract.get() == contract.get()
}

fn run_of_contract(runs: &[KnownRun], contract: Number) -> Option<&KnownRun>
    ensures { option_copied result ≡ find (is_of_contract contract) runs.now }
{
    for run in runs {
        if is_of_contract(contract, run) {
            return Some(run);
        }
    }
    None
}

fn adopted_run(alloc: Global, run: Option<&KnownRun>) -> KnowledgeChange
    ensures { result ≡ adopted_run (option_copied run.entry) }
{
    match run {
        None => no_change(alloc),
        Some(run) => change_of_run(alloc, KnownRun { held: true, ..*run }),
    }
}

/// The run of a method that was begun in a contract.
fn run_begun(instance: u64, owed: &Owed, contract: Number) -> KnownRun
    ensures { result ≡ run_begun instance owed.now contract }
{
    KnownRun {
        key: RunKey {
            instance,
            run: owed.run,
        },
        contract,
        held: true,
        empty: false,
        failed: false,
        ended: false,
    }
}

fn running_method(owed: &Owed) -> RunningMethod
    ensures { result ≡ running_method owed.now }
{
    RunningMethod {
        method: owed.method,
        run: owed.run,
        timeout: owed.call.timeout,
    }
}

/// The start of a child service has succeeded as soon as its process is there. Any other method runs until it ends.
fn started_as(owed: &Owed, duration: Duration, method: Method) -> Course
    ensures { result ≡ started_as owed.now duration method }
{
    match (duration, method) {
        (Duration::Child, Method::Start) => Course::Ending(start_succeeded()),
        _ => Course::Running(running_method(owed)),
    }
}

/// The method that was owed was begun in a contract.
fn spawned_in(
    alloc: Global,
    known: &KnownInstance,
    owed: &Owed,
    contract: Number,
) -> KnowledgeChange
    ensures { result ≡ answered_owed known.now owed.now (Answer.Spawned contract) }
{
    let course = started_as(owed, known.row.duration, owed.method);
    let mut change = change_of_course(alloc, known.instance, course);
    change.run = Some(run_begun(known.instance, owed, contract));
    change
}

/// The change of an instance that owes a method, by the answer to its call.
fn answered_owed(
    alloc: Global,
    known: &KnownInstance,
    owed: &Owed,
    answer: &Answer,
) -> KnowledgeChange
    ensures { result ≡ answered_owed known.now owed.now answer.now }
{
    match answer {
        Answer::Spawned(contract) => spawned_in(alloc, known, owed, *contract),
        Answer::Refused => {
            let end = failed_with(&known.row, owed.method, false);
            change_of_course(alloc, known.instance, Course::Ending(end))
        }
        Answer::NotFollowed => {
            let end = not_followed(&known.row, owed.method);
            change_of_course(alloc, known.instance, Course::Ending(end))
        }
        Answer::Nothing => no_change(alloc),
        Answer::Adopted(_) => no_change(alloc),
    }
}

fn answered_in(
    alloc: Global,
    known: &KnownInstance,
    answer: &Answer,
    phase: &Phase,
) -> KnowledgeChange
    ensures { result ≡ answered_in known.now answer.now phase.now }
{
    match phase {
        Phase::Owes(owed) => answered_owed(alloc, known, owed, answer),
        _ => no_change(alloc),
    }
}

fn answered_known(alloc: Global, answer: &Answer, known: Option<&KnownInstance>) -> KnowledgeChange
    ensures { result ≡ answered_known answer.now (option_copied known.entry) }
{
    match known {
        None => no_change(alloc),
        Some(known) => answered_in(alloc, known, answer, &known.phase),
    }
}

/// The answer to what a tick of an instance asked for.
#[tactic(auto, unfolding(crate::specs::Answers::change_on_answer))]
pub(crate) fn change_on_answer(
    alloc: Global,
    restarter: &Restarter,
    instance: u64,
    answer: &Answer,
) -> KnowledgeChange
    ensures { result ≡ change_on_answer restarter.now.known instance answer.now }
{
    match answer {
        Answer::Adopted(contract) => {
            let run = run_of_contract(restarter.runs(), *contract);
            adopted_run(alloc, run)
        }
        _ => answered_known(alloc, answer, restarter.known_instance(instance)),
    }
}

fn run_reported(report: &Report, cookie: &Cookie) -> KnownRun
    ensures { result ≡ run_reported report.now cookie.now }
{
    KnownRun {
        key: RunKey {
            instance: cookie.instance,
            run: cookie.run,
        },
        contract: report.contract.id,
        held: true,
        empty: false,
        failed: false,
        ended: false,
    }
}

fn is_empty_event(kind: &EventKind) -> bool
    ensures { result ≡ is_empty_event kind.now }
{
    matches!(kind, EventKind::Empty)
}

/// True if an event is a failure of a known instance.
fn is_failure_of(known: Option<&KnownInstance>, kind: &EventKind) -> bool
    ensures { result ≡ is_failure_of (option_copied known.entry) kind.now }
{
    match known {
        None => false,
        Some(known) => is_failure(known.row.ignore, kind),
    }
}

/// The run as the restarter knows it after an event of its contract.
fn run_after(restarter: &Restarter, report: &Report, cookie: &Cookie, old: &KnownRun) -> KnownRun
    ensures { result ≡ run_after restarter.now.known report.now cookie.now old.now }
{
    let kind = &report.event.kind;
    let known = restarter.known_instance(cookie.instance);
    KnownRun {
        empty: old.empty || is_empty_event(kind),
        failed: old.failed || is_failure_of(known, kind),
        ended: old.ended || is_exit_of(report.contract.first, kind),
        ..*old
    }
}

/// The run of a report as the restarter knew it before. A run that it did not know counts as held and not empty.
fn run_before(restarter: &Restarter, report: &Report, cookie: &Cookie) -> KnownRun
    ensures { result ≡ run_before restarter.now.known report.now cookie.now }
{
    match run_at(restarter, cookie.instance, cookie.run) {
        None => run_reported(report, cookie),
        Some(run) => *run,
    }
}

/// The exit of a contract's first process.
fn first_exit(first: Number, kind: &EventKind) -> Option<Exit>
    ensures { result ≡ first_exit first kind.now }
{
    match kind {
        EventKind::Exit(process, exit) => {
            if process.get() == first.get() {
                Some(*exit)
            } else {
                None
            }
        }
        _ => None,
    }
}

/// A contract service whose start leaves no member has failed to start.
fn is_left_empty(method: Method, duration: Duration, left: bool) -> bool
    ensures { result ≡ is_left_empty method duration left }
{
    match (method, duration) {
        (Method::Start, Duration::Contract) => !left,
        _ => false,
    }
}

fn ended_well(row: &Row, method: Method, left: bool) -> Ending
    ensures { result ≡ ended_well row.now method left }
{
    if is_left_empty(method, row.duration, left) {
        failed_with(row, method, false)
    } else {
        end_on_success(row, method)
    }
}

/// The end to propose after a method ended with this outcome.
fn end_by(row: &Row, method: Method, left: bool, outcome: MethodOutcome) -> Ending
    ensures { result ≡ end_by row.now method left outcome }
{
    match outcome {
        MethodOutcome::Good => ended_well(row, method, left),
        MethodOutcome::Retry => failed_with(row, method, false),
        MethodOutcome::Fatal => failed_with(row, method, true),
    }
}

/// True if a contract's cookie names the run of the method that runs.
fn is_run_of(method: &RunningMethod, cookie: &Cookie) -> bool
    ensures { result ≡ is_run_of method.now cookie.now }
{
    method.run == cookie.run && method.method == cookie.method
}

/// The exit ends the method that runs, if the contract is of its own run.
fn turn_by(
    known: &KnownInstance,
    report: &Report,
    cookie: &Cookie,
    method: &RunningMethod,
    exit: Option<Exit>,
) -> Option<CourseChange>
    ensures { result ≡ turn_by known.now report.now cookie.now method.now exit }
{
    let Some(exit) = exit else {
        return None;
    };
    if !is_run_of(method, cookie) {
        return None;
    }
    let outcome = judge(method.method, exit);
    let end = end_by(&known.row, method.method, report.event.left, outcome);
    Some(CourseChange {
        instance: known.instance,
        course: Course::Ending(end),
    })
}

fn turn_in(
    known: &KnownInstance,
    report: &Report,
    cookie: &Cookie,
    phase: &Phase,
) -> Option<CourseChange>
    ensures { result ≡ turn_in known.now report.now cookie.now phase.now }
{
    match phase {
        Phase::Running(method) => {
            let exit = first_exit(report.contract.first, &report.event.kind);
            turn_by(known, report, cookie, method, exit)
        }
        _ => None,
    }
}

fn turn_known(
    report: &Report,
    cookie: &Cookie,
    known: Option<&KnownInstance>,
) -> Option<CourseChange>
    ensures { result ≡ turn_known report.now cookie.now (option_copied known.entry) }
{
    match known {
        None => None,
        Some(known) => turn_in(known, report, cookie, &known.phase),
    }
}

/// The new course of the instance of a report, if the report gives one.
fn turn_up(restarter: &Restarter, report: &Report, cookie: &Cookie) -> Option<CourseChange>
    ensures { result ≡ turn_up restarter.now.known report.now cookie.now restarter.now.known.stage }
{
    if restarter.stage != Stage::Up {
        return None;
    }
    turn_known(report, cookie, restarter.known_instance(cookie.instance))
}

/// An event of a contract was reported.
#[tactic(auto, unfolding(crate::specs::Answers::change_on_report))]
pub(crate) fn change_on_report(
    alloc: Global,
    restarter: &Restarter,
    report: &Report,
) -> KnowledgeChange
    ensures { result ≡ change_on_report restarter.now.known report.now }
{
    let mut change = no_change(alloc);
    let Some(cookie) = Cookie::unpack(report.contract.cookie) else {
        return change;
    };
    let run = run_before(restarter, report, &cookie);
    change.turn = turn_up(restarter, report, &cookie);
    change.run = Some(run_after(restarter, report, &cookie, &run));
    change
}

fn timed_in(alloc: Global, known: &KnownInstance, phase: &Phase) -> KnowledgeChange
    ensures { result ≡ timed_in known.now phase.now }
{
    match phase {
        Phase::Running(method) => {
            if method.timeout.is_some() {
                let end = failed_with(&known.row, method.method, false);
                change_of_course(alloc, known.instance, Course::Ending(end))
            } else {
                no_change(alloc)
            }
        }
        _ => no_change(alloc),
    }
}

/// The method that runs has taken too long.
#[tactic(auto, unfolding(crate::specs::Answers::timed_out))]
pub(crate) fn timed_out(alloc: Global, restarter: &Restarter, instance: u64) -> KnowledgeChange
    ensures { result ≡ timed_out restarter.now.known instance }
{
    match restarter.known_instance(instance) {
        None => no_change(alloc),
        Some(known) => timed_in(alloc, known, &known.phase),
    }
}
