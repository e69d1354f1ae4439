ghost use Rattle.std.specs.Prelude.{◌≡◌, IfErr, IfOk, IsTrue, Some, [], map, option_map};
ghost use Rattle.std.specs.String.{string_bytes};
ghost use Rattle.clap.specs.Words.{HasKind, app_of, fault_of, first_of, is_simple, is_simple_and_free, subcommand_of, subcommand_rows_of};
ghost use Rattle.smf_program.specs.Refusals.{IsWhy};
ghost use Rattle.smf_program.specs.Words.{is_set};
ghost use Rattle.smf_program.specs.Tasks.{ask_form_in, ask_in, audit_in, backup_in, cfg_in, check_in, compile_in, diff_in, export_in, lead_in, listing_in, listing_texts, metrics_in, metrics_listing, plan_stop_in, prop_in, replay_in, rows_in, run_in, serve_in, show_in, sim_in, task_at, task_in, task_of, texts_of, why_in, words_in};

use crate::refusal::{Refusal, refusal_of};
use crate::words::smf_command;
use clap::{ArgMatches, Command, Error};
use std::alloc::{AllocError, Global};

/// How instances are shown: in one of four forms, or as a table.
#[derive(Drop)]
pub struct Listing<'a> {
    /// As JSON.
    pub json: bool,
    /// Each in a paragraph.
    pub long: bool,
    /// As metrics in Prometheus' text format.
    pub metrics: bool,
    /// By the status alone: 0 if all that are enabled run.
    pub well: bool,
    /// A table without its header.
    pub bare: bool,
    /// The columns of the table, joined by commas.
    pub columns: Option<&'a str>,
    /// The column by which its lines rise.
    pub rising: Option<&'a str>,
    /// The column by which they fall.
    pub falling: Option<&'a str>,
    /// The restarter whose instances are shown.
    pub restarter: Option<&'a str>,
}

/// Which lines lead from a database to a file, and in which form.
#[derive(Clone, Copy)]
pub struct Lead {
    /// At all services, and not only at those that the file names.
    pub exact: bool,
    /// As a script that refreshes what they touch.
    pub script: bool,
    /// Those that take the others back.
    pub undo: bool,
}

/// How a server is asked.
#[derive(Clone, Copy)]
pub struct AskForm {
    /// By the script of standard input, and not by a line of words.
    pub script: bool,
    /// Not at all: only its folder is printed.
    pub place: bool,
    /// So that the answer is printed as it is.
    pub whole: bool,
    /// By the lines of svccfg of standard input.
    pub cfg: bool,
    /// By lines of svccfg that are typed, one by one.
    pub talk: bool,
}

/// The task that the program's words ask for.
#[derive(Drop)]
pub enum Task<'a> {
    /// A script in memory: over nothing, or over what the database in a file holds, which is only read.
    /// Behind it may be asked why the instances of a word were started and stopped.
    Sim {
        question: Option<&'a str>,
        database: Option<&'a str>,
    },
    /// A script over the database in a file, with contracts that are followed through forks or not, and the same question.
    Run {
        follow: bool,
        question: Option<&'a str>,
        database: &'a str,
    },
    /// Lines of svccfg, of a file or of standard input, over the database in a file.
    Cfg {
        lines: Option<&'a str>,
        database: &'a str,
    },
    /// Requests that come in a folder, over the database in a file. What is given to the server is recorded, if a file is
    /// named for that.
    Serve {
        recording: Option<&'a str>,
        folder: &'a str,
        database: &'a str,
    },
    /// Why instances in the database of a file do not run: those that words mean, or all without words. It is only
    /// read.
    Why {
        database: &'a str,
        words: Vec<&'a str>,
    },
    /// The mistakes in the instances that the database in a file has. It is only read.
    Check {
        database: &'a str,
    },
    /// The lines that make the services of a file of TOML.
    Compile {
        site: &'a str,
    },
    /// The lines that make what the database in a file holds: at the services that words mean, or at all without words.
    /// It is only read.
    Export {
        database: &'a str,
        words: Vec<&'a str>,
    },
    /// The lines that lead from what the database in a file holds to what a file of lines makes: at the services that it
    /// names, or at all. The database is only read.
    Diff {
        lead: Lead,
        database: &'a str,
        lines: &'a str,
    },
    /// A whole copy of the database in a file, which goes into another file.
    Backup {
        database: &'a str,
        copy: &'a str,
    },
    /// The instances that the database in a file has: those that words mean, or all without words. It is only read.
    Show {
        listing: Listing<'a>,
        database: &'a str,
        words: Vec<&'a str>,
    },
    /// The properties of instances that the database in a file has, as they are configured or as they run: all, or those
    /// that a name means. It is only read.
    Prop {
        configured: bool,
        name: Option<&'a str>,
        database: &'a str,
        words: Vec<&'a str>,
    },
    /// In which order the instances that the database in a file has would stop, with the seconds that the options name.
    /// It is only read.
    PlanStop {
        patience: Option<&'a str>,
        timeout: Option<&'a str>,
        database: &'a str,
    },
    /// Whether what a file shows is safe: a trail, or the chronicle of all servers of a database.
    Audit {
        trail: &'a str,
    },
    /// The answer of the server that has a folder, to the words of a program or to a script. Lines of svccfg may have a name that
    /// is selected before them.
    Ask {
        form: AskForm,
        first: Option<&'a str>,
        folder: &'a str,
        program: &'a str,
        words: Vec<&'a str>,
    },
    /// A server that runs again over what was recorded of it, up to a time. The lines of a file may be done before, and a line
    /// may be asked at the end.
    Replay {
        until: Option<&'a str>,
        lines: Option<&'a str>,
        request: Option<&'a str>,
        recorded: &'a str,
    },
}

/// True if a flag was found.
fn is_set<'a>(found: &ArgMatches<'a>, id: &str) -> bool
    ensures { result ≡ is_set id.now (rows_in found.now) }
{
    match found.get_str(id) {
        Some(text) => text == "true",
        None => false,
    }
}

fn sim_in<'a>(found: &ArgMatches<'a>) -> Option<Task<'a>>
    ensures { option_map texts_of result ≡ sim_in (rows_in found.now) }
{
    let question = text_in(found, "WHY");
    let database = text_in(found, "DB");
    Some(Task::Sim { question, database })
}

fn run_in<'a>(found: &ArgMatches<'a>) -> Option<Task<'a>>
    ensures { option_map texts_of result ≡ run_in (rows_in found.now) }
{
    let follow = is_set(found, "FOLLOW");
    let question = text_in(found, "WHY");
    match text_in(found, "DB") {
        Some(database) => Some(Task::Run {
            follow,
            question,
            database,
        }),
        None => None,
    }
}

fn cfg_in<'a>(found: &ArgMatches<'a>) -> Option<Task<'a>>
    ensures { option_map texts_of result ≡ cfg_in (rows_in found.now) }
{
    let lines = found.get_str("FILE");
    match found.get_str("DB") {
        Some(database) => Some(Task::Cfg { lines, database }),
        None => None,
    }
}

fn serve_in<'a>(found: &ArgMatches<'a>) -> Option<Task<'a>>
    ensures { option_map texts_of result ≡ serve_in (rows_in found.now) }
{
    let recording = text_in(found, "RECORD");
    match found.get_str("RUN") {
        Some(folder) => match found.get_str("DB") {
            Some(database) => Some(Task::Serve {
                recording,
                folder,
                database,
            }),
            None => None,
        },
        None => None,
    }
}

/// The words that mean instances.
fn words_in<'a>(alloc: Global, found: &ArgMatches<'a>) -> Result<Vec<&'a str>, AllocError>
    ensures { IfOk result (λ all. map (λ w. w.now) all.items ≡ words_in (rows_in found.now)) }
{
    match found.get_strs("FMRI") {
        None => Ok(Vec::new(alloc)),
        Some(words) => same_words(alloc, words),
    }
}

/// The same words.
fn same_words<'a>(alloc: Global, words: &[&'a str]) -> Result<Vec<&'a str>, AllocError>
    ensures { IfOk result (λ all. map (λ w. w.now) all.items ≡ map (λ w. w.now) words.now) }
{
    let mut all = Vec::new(alloc);
    for word in words {
        all.push(*word)?;
    }
    Ok(all)
}

fn why_in<'a>(alloc: Global, found: &ArgMatches<'a>) -> Result<Option<Task<'a>>, AllocError>
    ensures { IfOk result (λ task. option_map texts_of task ≡ why_in (rows_in found.now)) }
{
    let words = words_in(alloc, found)?;
    match found.get_str("DB") {
        Some(database) => Ok(Some(Task::Why { database, words })),
        None => Ok(None),
    }
}

fn check_in<'a>(found: &ArgMatches<'a>) -> Option<Task<'a>>
    ensures { option_map texts_of result ≡ check_in (rows_in found.now) }
{
    match found.get_str("DB") {
        Some(database) => Some(Task::Check { database }),
        None => None,
    }
}

fn compile_in<'a>(found: &ArgMatches<'a>) -> Option<Task<'a>>
    ensures { option_map texts_of result ≡ compile_in (rows_in found.now) }
{
    match found.get_str("SITE") {
        Some(site) => Some(Task::Compile { site }),
        None => None,
    }
}

fn export_in<'a>(alloc: Global, found: &ArgMatches<'a>) -> Result<Option<Task<'a>>, AllocError>
    ensures { IfOk result (λ task. option_map texts_of task ≡ export_in (rows_in found.now)) }
{
    let words = words_in(alloc, found)?;
    match found.get_str("DB") {
        Some(database) => Ok(Some(Task::Export { database, words })),
        None => Ok(None),
    }
}

fn lead_in<'a>(found: &ArgMatches<'a>) -> Lead
    ensures { result ≡ lead_in (rows_in found.now) }
{
    Lead {
        exact: is_set(found, "EXACT"),
        script: is_set(found, "SCRIPT"),
        undo: is_set(found, "UNDO"),
    }
}

fn diff_in<'a>(found: &ArgMatches<'a>) -> Option<Task<'a>>
    ensures { option_map texts_of result ≡ diff_in (rows_in found.now) }
{
    let lead = lead_in(found);
    match found.get_str("DB") {
        Some(database) => match found.get_str("LINES") {
            Some(lines) => Some(Task::Diff {
                lead,
                database,
                lines,
            }),
            None => None,
        },
        None => None,
    }
}

fn backup_in<'a>(found: &ArgMatches<'a>) -> Option<Task<'a>>
    ensures { option_map texts_of result ≡ backup_in (rows_in found.now) }
{
    match found.get_str("DB") {
        Some(database) => match found.get_str("COPY") {
            Some(copy) => Some(Task::Backup { database, copy }),
            None => None,
        },
        None => None,
    }
}

/// The text after an option, if it was found.
fn text_in<'a>(found: &ArgMatches<'a>, id: &str) -> Option<&'a str>
    ensures { option_map (λ s. s.now) result ≡ first_of id.now (rows_in found.now) }
{
    found.get_str(id)
}

fn listing_in<'a>(found: &ArgMatches<'a>) -> Listing<'a>
    ensures { listing_texts result ≡ listing_in (rows_in found.now) }
{
    Listing {
        json: is_set(found, "JSON"),
        long: is_set(found, "LONG"),
        metrics: is_set(found, "METRICS"),
        well: is_set(found, "WELL"),
        bare: is_set(found, "BARE"),
        columns: text_in(found, "COLUMNS"),
        rising: text_in(found, "RISING"),
        falling: text_in(found, "FALLING"),
        restarter: text_in(found, "RESTARTER"),
    }
}

fn show_in<'a>(alloc: Global, found: &ArgMatches<'a>) -> Result<Option<Task<'a>>, AllocError>
    ensures { IfOk result (λ task. option_map texts_of task ≡ show_in (rows_in found.now)) }
{
    let listing = listing_in(found);
    let words = words_in(alloc, found)?;
    match text_in(found, "DB") {
        Some(database) => Ok(Some(Task::Show {
            listing,
            database,
            words,
        })),
        None => Ok(None),
    }
}

fn prop_in<'a>(alloc: Global, found: &ArgMatches<'a>) -> Result<Option<Task<'a>>, AllocError>
    ensures { IfOk result (λ task. option_map texts_of task ≡ prop_in (rows_in found.now)) }
{
    let configured = is_set(found, "CONFIGURED");
    let name = text_in(found, "NAME");
    let words = words_in(alloc, found)?;
    match text_in(found, "DB") {
        Some(database) => Ok(Some(Task::Prop {
            configured,
            name,
            database,
            words,
        })),
        None => Ok(None),
    }
}

fn metrics_listing<'a>() -> Listing<'a>
    ensures { listing_texts result ≡ metrics_listing }
{
    Listing {
        json: false,
        long: false,
        metrics: true,
        well: false,
        bare: false,
        columns: None,
        rising: None,
        falling: None,
        restarter: None,
    }
}

fn metrics_in<'a>(alloc: Global, found: &ArgMatches<'a>) -> Result<Option<Task<'a>>, AllocError>
    ensures { IfOk result (λ task. option_map texts_of task ≡ metrics_in (rows_in found.now)) }
{
    let words = words_in(alloc, found)?;
    match text_in(found, "DB") {
        Some(database) => Ok(Some(Task::Show {
            listing: metrics_listing(),
            database,
            words,
        })),
        None => Ok(None),
    }
}

fn plan_stop_in<'a>(found: &ArgMatches<'a>) -> Option<Task<'a>>
    ensures { option_map texts_of result ≡ plan_stop_in (rows_in found.now) }
{
    let patience = text_in(found, "PATIENCE");
    let timeout = text_in(found, "TIMEOUT");
    match text_in(found, "DB") {
        Some(database) => Some(Task::PlanStop {
            patience,
            timeout,
            database,
        }),
        None => None,
    }
}

fn audit_in<'a>(found: &ArgMatches<'a>) -> Option<Task<'a>>
    ensures { option_map texts_of result ≡ audit_in (rows_in found.now) }
{
    match found.get_str("TRAIL") {
        Some(trail) => Some(Task::Audit { trail }),
        None => None,
    }
}

fn ask_form_in<'a>(found: &ArgMatches<'a>) -> AskForm
    ensures { result ≡ ask_form_in (rows_in found.now) }
{
    AskForm {
        script: is_set(found, "SCRIPT"),
        place: is_set(found, "PLACE"),
        whole: is_set(found, "WHOLE"),
        cfg: is_set(found, "CFG"),
        talk: is_set(found, "TALK"),
    }
}

fn ask_in<'a>(alloc: Global, found: &ArgMatches<'a>) -> Result<Option<Task<'a>>, AllocError>
    ensures { IfOk result (λ task. option_map texts_of task ≡ ask_in (rows_in found.now)) }
{
    let form = ask_form_in(found);
    let first = text_in(found, "FIRST");
    let words = words_in(alloc, found)?;
    match text_in(found, "RUN") {
        Some(folder) => match text_in(found, "PROGRAM") {
            Some(program) => Ok(Some(Task::Ask {
                form,
                first,
                folder,
                program,
                words,
            })),
            None => Ok(None),
        },
        None => Ok(None),
    }
}

fn replay_in<'a>(found: &ArgMatches<'a>) -> Option<Task<'a>>
    ensures { option_map texts_of result ≡ replay_in (rows_in found.now) }
{
    let until = text_in(found, "UNTIL");
    let lines = text_in(found, "WITH");
    let request = text_in(found, "THEN");
    match text_in(found, "RECORD") {
        Some(recorded) => Some(Task::Replay {
            until,
            lines,
            request,
            recorded,
        }),
        None => None,
    }
}

/// The task of a subcommand, by its name and by the words that clap found after it.
fn task_at<'a>(
    alloc: Global,
    name: &str,
    found: &ArgMatches<'a>,
) -> Result<Option<Task<'a>>, AllocError>
    ensures { IfOk result (λ task. option_map texts_of task ≡ task_at name.now (rows_in found.now)) }
{
    match name {
        "sim" => Ok(sim_in(found)),
        "run" => Ok(run_in(found)),
        "cfg" => Ok(cfg_in(found)),
        "serve" => Ok(serve_in(found)),
        "why" => why_in(alloc, found),
        "check" => Ok(check_in(found)),
        "compile" => Ok(compile_in(found)),
        "export" => export_in(alloc, found),
        "diff" => Ok(diff_in(found)),
        "backup" => Ok(backup_in(found)),
        "show" => show_in(alloc, found),
        "prop" => prop_in(alloc, found),
        "plan-stop" => Ok(plan_stop_in(found)),
        "metrics" => metrics_in(alloc, found),
        "audit" => Ok(audit_in(found)),
        "ask" => ask_in(alloc, found),
        "replay" => Ok(replay_in(found)),
        _ => Ok(None),
    }
}

fn task_in<'a>(alloc: Global, found: &ArgMatches<'a>) -> Result<Option<Task<'a>>, AllocError>
    ensures { IfOk result (λ task. option_map texts_of task ≡ task_in (subcommand_rows_of found.now)) }
{
    match found.subcommand() {
        Some((name, inside)) => task_at(alloc, name, inside),
        None => Ok(None),
    }
}

/// The task that clap reads, by a command that takes the words.
fn parsed_by<'a>(
    alloc: Global,
    command: Command<'a>,
    words: &'a [String],
) -> Result<Option<Task<'a>>, Error>
    requires simple { IsTrue (is_simple (app_of command)) }
    requires free { IsTrue (is_simple_and_free (app_of command)) }
    ensures taken { IfOk result (λ _. fault_of (app_of command.entry) (map string_bytes words.entry.now) ≡ []) }
    ensures task { IfOk result (λ task.
        option_map texts_of task ≡ task_in (subcommand_of (app_of command.entry) (map string_bytes words.entry.now))) }
    ensures err { IfErr result (λ e. HasKind (fault_of (app_of command.entry) (map string_bytes words.entry.now)) e) }
{
    let found = command.try_get_matches_from(words)?;
    let task = task_in(alloc, &found)?;
    Ok(task)
}

/// Reads the program's words, of which the first is its name. If they ask for no task, the refusal says why.
pub fn read_task<'a>(alloc: Global, words: &'a [String]) -> Result<Task<'a>, Refusal>
    ensures ok { IfOk result (λ task. task_of (map string_bytes words.entry.now) ≡ Some (texts_of task)) }
    ensures err { IfErr result (λ refusal. IsWhy refusal (map string_bytes words.entry.now)) }
{
    let command = match smf_command(alloc) {
        Ok(command) => command,
        Err(_) => return Err(Refusal::Memory),
    };
    match parsed_by(alloc, command, words) {
        Ok(Some(task)) => Ok(task),
        Ok(None) => Err(Refusal::BadUsage(String::new(alloc))),
        Err(e) => Err(refusal_of(alloc, &e)),
    }
}
