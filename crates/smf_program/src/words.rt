ghost use Rattle.std.specs.Prelude.{◌≡◌, IfOk, false};
ghost use Rattle.clap.specs.Words.{app_of, rule_of};
ghost use Rattle.clap.specs.declared.builder.command.Command.TheViews.{out-Command as fields_of};
ghost use Rattle.smf_program.specs.Words.{ask_app, asking_app, audit_app, backup_app, bare_app, bare_rule, cfg_app, cfg_lines_rule, check_app, columns_rule, compile_app, configured_rule, copy_rule, database_rule, diff_app, exact_rule, export_app, falling_rule, file_rule, first_rule, fmri_rule, folder_rule, follow_rule, form_app, form_of_ask_app, json_rule, lead_app, lines_of_ask_app, lines_rule, long_rule, method_timeout_rule, metrics_app, metrics_rule, name_rule, named_app, patience_rule, place_rule, plan_stop_app, program_rule, prop_app, question_rule, read_rule, record_rule, recorded_rule, replay_app, replayed_app, request_rule, restarter_rule, rising_rule, run_app, running_app, script_rule, serve_app, show_app, shown_app, sim_app, site_rule, smf_app, table_app, talk_rule, trail_rule, undo_rule, until_rule, well_rule, whole_rule, why_app, with_lines_rule};

use clap::{Arg, ArgAction, Command};
use std::alloc::{AllocError, Global};

fn file<'a>(alloc: Global) -> Arg<'a>
    ensures rule { rule_of result ≡ file_rule }
    ensures local { result.global ≡ false }
{
    Arg::new(alloc, "FILE").short('f')
}

/// The flag for contracts that are followed through forks.
fn follow<'a>(alloc: Global) -> Arg<'a>
    ensures rule { rule_of result ≡ follow_rule }
    ensures local { result.global ≡ false }
{
    Arg::new(alloc, "FOLLOW")
        .long("follow")
        .action(ArgAction::SetTrue)
}

fn database<'a>(alloc: Global) -> Arg<'a>
    ensures rule { rule_of result ≡ database_rule }
    ensures local { result.global ≡ false }
{
    Arg::new(alloc, "DB").required(true)
}

/// A database that is only read, if one is named.
fn read_database<'a>(alloc: Global) -> Arg<'a>
    ensures rule { rule_of result ≡ read_rule }
    ensures local { result.global ≡ false }
{
    Arg::new(alloc, "DB")
}

/// The instances of which it is asked, behind a script, why they were started and stopped.
fn question<'a>(alloc: Global) -> Arg<'a>
    ensures rule { rule_of result ≡ question_rule }
    ensures local { result.global ≡ false }
{
    Arg::new(alloc, "WHY").long("why")
}

fn sim_command<'a>(alloc: Global) -> Result<Command<'a>, AllocError>
    ensures app { IfOk result (λ c. app_of c ≡ sim_app) }
    ensures local { IfOk result (λ c. (fields_of c).has_globals ≡ false) }
{
    let command = Command::new(alloc, "sim")
        .about(
            "Does a script in memory, with simulated processes, over nothing or over what a database holds",
        )
        .arg(question(alloc))?
        .arg(read_database(alloc))?;
    Ok(command)
}

fn run_command<'a>(alloc: Global) -> Result<Command<'a>, AllocError>
    ensures app { IfOk result (λ c. app_of c ≡ run_app) }
    ensures local { IfOk result (λ c. (fields_of c).has_globals ≡ false) }
{
    let command = Command::new(alloc, "run")
        .about("Does a script over a database, with the processes of its services")
        .arg(follow(alloc))?
        .arg(question(alloc))?
        .arg(database(alloc))?;
    Ok(command)
}

fn cfg_command<'a>(alloc: Global) -> Result<Command<'a>, AllocError>
    ensures app { IfOk result (λ c. app_of c ≡ cfg_app) }
    ensures local { IfOk result (λ c. (fields_of c).has_globals ≡ false) }
{
    let command = Command::new(alloc, "cfg")
        .about("Does lines of svccfg over a database")
        .arg(file(alloc))?
        .arg(database(alloc))?;
    Ok(command)
}

/// The folder in which requests come.
fn folder<'a>(alloc: Global) -> Arg<'a>
    ensures rule { rule_of result ≡ folder_rule }
    ensures local { result.global ≡ false }
{
    Arg::new(alloc, "RUN").required(true)
}

/// The file in which it is recorded what is given to a server.
fn record_file<'a>(alloc: Global) -> Arg<'a>
    ensures rule { rule_of result ≡ record_rule }
    ensures local { result.global ≡ false }
{
    Arg::new(alloc, "RECORD").long("record")
}

fn serve_command<'a>(alloc: Global) -> Result<Command<'a>, AllocError>
    ensures app { IfOk result (λ c. app_of c ≡ serve_app) }
    ensures local { IfOk result (λ c. (fields_of c).has_globals ≡ false) }
{
    let command = Command::new(alloc, "serve")
        .about("Stays, and does the scripts that come in a folder, over a database")
        .arg(record_file(alloc))?
        .arg(folder(alloc))?
        .arg(database(alloc))?;
    Ok(command)
}

/// The words that mean instances.
fn fmris<'a>(alloc: Global) -> Arg<'a>
    ensures rule { rule_of result ≡ fmri_rule }
    ensures local { result.global ≡ false }
{
    Arg::new(alloc, "FMRI").action(ArgAction::Append)
}

fn why_command<'a>(alloc: Global) -> Result<Command<'a>, AllocError>
    ensures app { IfOk result (λ c. app_of c ≡ why_app) }
    ensures local { IfOk result (λ c. (fields_of c).has_globals ≡ false) }
{
    let command = Command::new(alloc, "why")
        .about("Tells why instances of a database do not run though they are enabled")
        .arg(database(alloc))?
        .arg(fmris(alloc))?;
    Ok(command)
}

fn check_command<'a>(alloc: Global) -> Result<Command<'a>, AllocError>
    ensures app { IfOk result (λ c. app_of c ≡ check_app) }
    ensures local { IfOk result (λ c. (fields_of c).has_globals ≡ false) }
{
    let command = Command::new(alloc, "check")
        .about("Tells what is wrong of the instances of a database before they are started")
        .arg(database(alloc))?;
    Ok(command)
}

/// A file of tables.
fn site<'a>(alloc: Global) -> Arg<'a>
    ensures rule { rule_of result ≡ site_rule }
    ensures local { result.global ≡ false }
{
    Arg::new(alloc, "SITE").required(true)
}

fn compile_command<'a>(alloc: Global) -> Result<Command<'a>, AllocError>
    ensures app { IfOk result (λ c. app_of c ≡ compile_app) }
    ensures local { IfOk result (λ c. (fields_of c).has_globals ≡ false) }
{
    let command = Command::new(alloc, "compile")
        .about("Prints the lines of svccfg that make the services of a file of TOML")
        .arg(site(alloc))?;
    Ok(command)
}

fn metrics_command<'a>(alloc: Global) -> Result<Command<'a>, AllocError>
    ensures app { IfOk result (λ c. app_of c ≡ metrics_app) }
    ensures local { IfOk result (λ c. (fields_of c).has_globals ≡ false) }
{
    let command = Command::new(alloc, "metrics")
        .about("Prints the instances that a database has as metrics, in Prometheus' text format")
        .arg(database(alloc))?
        .arg(fmris(alloc))?;
    Ok(command)
}

fn export_command<'a>(alloc: Global) -> Result<Command<'a>, AllocError>
    ensures app { IfOk result (λ c. app_of c ≡ export_app) }
    ensures local { IfOk result (λ c. (fields_of c).has_globals ≡ false) }
{
    let command = Command::new(alloc, "export")
        .about("Prints the lines of svccfg that make what a database holds")
        .arg(database(alloc))?
        .arg(fmris(alloc))?;
    Ok(command)
}

/// A file of lines.
fn lines<'a>(alloc: Global) -> Arg<'a>
    ensures rule { rule_of result ≡ lines_rule }
    ensures local { result.global ≡ false }
{
    Arg::new(alloc, "LINES").required(true)
}

/// The flag for services that the lines do not name.
fn exact<'a>(alloc: Global) -> Arg<'a>
    ensures rule { rule_of result ≡ exact_rule }
    ensures local { result.global ≡ false }
{
    Arg::new(alloc, "EXACT")
        .long("exact")
        .action(ArgAction::SetTrue)
}

/// The flag for a script.
fn script<'a>(alloc: Global) -> Arg<'a>
    ensures rule { rule_of result ≡ script_rule }
    ensures local { result.global ≡ false }
{
    Arg::new(alloc, "SCRIPT")
        .long("script")
        .action(ArgAction::SetTrue)
}

/// The flag for lines that take the others back.
fn undo<'a>(alloc: Global) -> Arg<'a>
    ensures rule { rule_of result ≡ undo_rule }
    ensures local { result.global ≡ false }
{
    Arg::new(alloc, "UNDO")
        .long("undo")
        .action(ArgAction::SetTrue)
}

/// Which lines are printed, and in which form.
fn lead_command<'a>(alloc: Global) -> Result<Command<'a>, AllocError>
    ensures app { IfOk result (λ c. app_of c ≡ lead_app) }
    ensures local { IfOk result (λ c. (fields_of c).has_globals ≡ false) }
{
    let command = Command::new(alloc, "diff")
        .about("Prints the lines that lead from what a database holds to what a file makes")
        .arg(exact(alloc))?
        .arg(script(alloc))?
        .arg(undo(alloc))?;
    Ok(command)
}

fn diff_command<'a>(alloc: Global) -> Result<Command<'a>, AllocError>
    ensures app { IfOk result (λ c. app_of c ≡ diff_app) }
    ensures local { IfOk result (λ c. (fields_of c).has_globals ≡ false) }
{
    let command = lead_command(alloc)?
        .arg(database(alloc))?
        .arg(lines(alloc))?;
    Ok(command)
}

/// The file that a copy goes to.
fn copy<'a>(alloc: Global) -> Arg<'a>
    ensures rule { rule_of result ≡ copy_rule }
    ensures local { result.global ≡ false }
{
    Arg::new(alloc, "COPY").required(true)
}

fn backup_command<'a>(alloc: Global) -> Result<Command<'a>, AllocError>
    ensures app { IfOk result (λ c. app_of c ≡ backup_app) }
    ensures local { IfOk result (λ c. (fields_of c).has_globals ≡ false) }
{
    let command = Command::new(alloc, "backup")
        .about("Writes a whole copy of a database, which may be in use, into a file")
        .arg(database(alloc))?
        .arg(copy(alloc))?;
    Ok(command)
}

/// The flag for JSON.
fn json<'a>(alloc: Global) -> Arg<'a>
    ensures rule { rule_of result ≡ json_rule }
    ensures local { result.global ≡ false }
{
    Arg::new(alloc, "JSON")
        .short('j')
        .long("json")
        .action(ArgAction::SetTrue)
}

/// The flag for a paragraph for each instance.
fn long<'a>(alloc: Global) -> Arg<'a>
    ensures rule { rule_of result ≡ long_rule }
    ensures local { result.global ≡ false }
{
    Arg::new(alloc, "LONG")
        .short('l')
        .long("long")
        .action(ArgAction::SetTrue)
}

/// The flag for metrics in Prometheus' text format.
fn metrics<'a>(alloc: Global) -> Arg<'a>
    ensures rule { rule_of result ≡ metrics_rule }
    ensures local { result.global ≡ false }
{
    Arg::new(alloc, "METRICS")
        .long("metrics")
        .action(ArgAction::SetTrue)
}

/// The flag for a status alone, which says whether all run that are enabled.
fn well<'a>(alloc: Global) -> Arg<'a>
    ensures rule { rule_of result ≡ well_rule }
    ensures local { result.global ≡ false }
{
    Arg::new(alloc, "WELL")
        .long("well")
        .action(ArgAction::SetTrue)
}

/// The flag for a table without a header.
fn bare<'a>(alloc: Global) -> Arg<'a>
    ensures rule { rule_of result ≡ bare_rule }
    ensures local { result.global ≡ false }
{
    Arg::new(alloc, "BARE")
        .short('H')
        .action(ArgAction::SetTrue)
}

/// The columns of a table.
fn columns<'a>(alloc: Global) -> Arg<'a>
    ensures rule { rule_of result ≡ columns_rule }
    ensures local { result.global ≡ false }
{
    Arg::new(alloc, "COLUMNS").short('o')
}

/// The column by which a table rises.
fn rising<'a>(alloc: Global) -> Arg<'a>
    ensures rule { rule_of result ≡ rising_rule }
    ensures local { result.global ≡ false }
{
    Arg::new(alloc, "RISING").short('s')
}

/// The column by which a table falls.
fn falling<'a>(alloc: Global) -> Arg<'a>
    ensures rule { rule_of result ≡ falling_rule }
    ensures local { result.global ≡ false }
{
    Arg::new(alloc, "FALLING").short('S')
}

/// The restarter whose instances are shown.
fn restarter<'a>(alloc: Global) -> Arg<'a>
    ensures rule { rule_of result ≡ restarter_rule }
    ensures local { result.global ≡ false }
{
    Arg::new(alloc, "RESTARTER").short('R')
}

/// The forms in which instances are shown.
fn form_command<'a>(alloc: Global) -> Result<Command<'a>, AllocError>
    ensures app { IfOk result (λ c. app_of c ≡ form_app) }
    ensures local { IfOk result (λ c. (fields_of c).has_globals ≡ false) }
{
    let command = Command::new(alloc, "show")
        .about("Shows the instances that a database has, for people and for programs")
        .arg(json(alloc))?
        .arg(long(alloc))?
        .arg(metrics(alloc))?;
    Ok(command)
}

/// With the status alone, and a table without a header.
fn shown_command<'a>(alloc: Global) -> Result<Command<'a>, AllocError>
    ensures app { IfOk result (λ c. app_of c ≡ shown_app) }
    ensures local { IfOk result (λ c. (fields_of c).has_globals ≡ false) }
{
    let command = form_command(alloc)?.arg(well(alloc))?.arg(bare(alloc))?;
    Ok(command)
}

/// With the columns of a table, and how it is sorted.
fn table_command<'a>(alloc: Global) -> Result<Command<'a>, AllocError>
    ensures app { IfOk result (λ c. app_of c ≡ table_app) }
    ensures local { IfOk result (λ c. (fields_of c).has_globals ≡ false) }
{
    let command = shown_command(alloc)?
        .arg(columns(alloc))?
        .arg(rising(alloc))?
        .arg(falling(alloc))?;
    Ok(command)
}

fn show_command<'a>(alloc: Global) -> Result<Command<'a>, AllocError>
    ensures app { IfOk result (λ c. app_of c ≡ show_app) }
    ensures local { IfOk result (λ c. (fields_of c).has_globals ≡ false) }
{
    let command = table_command(alloc)?
        .arg(restarter(alloc))?
        .arg(database(alloc))?
        .arg(fmris(alloc))?;
    Ok(command)
}

/// The flag for what is configured, and not what runs.
fn configured<'a>(alloc: Global) -> Arg<'a>
    ensures rule { rule_of result ≡ configured_rule }
    ensures local { result.global ≡ false }
{
    Arg::new(alloc, "CONFIGURED")
        .short('c')
        .action(ArgAction::SetTrue)
}

/// The name of a property, or of a group.
fn name<'a>(alloc: Global) -> Arg<'a>
    ensures rule { rule_of result ≡ name_rule }
    ensures local { result.global ≡ false }
{
    Arg::new(alloc, "NAME").short('p')
}

/// Which properties are printed.
fn named_command<'a>(alloc: Global) -> Result<Command<'a>, AllocError>
    ensures app { IfOk result (λ c. app_of c ≡ named_app) }
    ensures local { IfOk result (λ c. (fields_of c).has_globals ≡ false) }
{
    let command = Command::new(alloc, "prop")
        .about("Prints the properties of instances")
        .arg(configured(alloc))?
        .arg(name(alloc))?;
    Ok(command)
}

fn prop_command<'a>(alloc: Global) -> Result<Command<'a>, AllocError>
    ensures app { IfOk result (λ c. app_of c ≡ prop_app) }
    ensures local { IfOk result (λ c. (fields_of c).has_globals ≡ false) }
{
    let command = named_command(alloc)?
        .arg(database(alloc))?
        .arg(fmris(alloc))?;
    Ok(command)
}

/// The seconds between a signal and KILL.
fn patience<'a>(alloc: Global) -> Arg<'a>
    ensures rule { rule_of result ≡ patience_rule }
    ensures local { result.global ≡ false }
{
    Arg::new(alloc, "PATIENCE").long("patience")
}

/// The most seconds of a method that names no time-out.
fn method_timeout<'a>(alloc: Global) -> Arg<'a>
    ensures rule { rule_of result ≡ method_timeout_rule }
    ensures local { result.global ≡ false }
{
    Arg::new(alloc, "TIMEOUT").long("method-timeout")
}

fn plan_stop_command<'a>(alloc: Global) -> Result<Command<'a>, AllocError>
    ensures app { IfOk result (λ c. app_of c ≡ plan_stop_app) }
    ensures local { IfOk result (λ c. (fields_of c).has_globals ≡ false) }
{
    let command = Command::new(alloc, "plan-stop")
        .about(
            "Prints in which order the services of a database would stop, and how long that takes",
        )
        .arg(patience(alloc))?
        .arg(method_timeout(alloc))?
        .arg(database(alloc))?;
    Ok(command)
}

/// A file of a trail or of a chronicle.
fn trail<'a>(alloc: Global) -> Arg<'a>
    ensures rule { rule_of result ≡ trail_rule }
    ensures local { result.global ≡ false }
{
    Arg::new(alloc, "TRAIL").required(true)
}

fn audit_command<'a>(alloc: Global) -> Result<Command<'a>, AllocError>
    ensures app { IfOk result (λ c. app_of c ≡ audit_app) }
    ensures local { IfOk result (λ c. (fields_of c).has_globals ≡ false) }
{
    let command = Command::new(alloc, "audit")
        .about("Checks a trail, or the chronicle of all servers of a database")
        .arg(trail(alloc))?;
    Ok(command)
}

/// The flag for the folder of the server that is there.
fn place<'a>(alloc: Global) -> Arg<'a>
    ensures rule { rule_of result ≡ place_rule }
    ensures local { result.global ≡ false }
{
    Arg::new(alloc, "PLACE")
        .long("place")
        .action(ArgAction::SetTrue)
}

/// The flag for an answer as it is.
fn whole<'a>(alloc: Global) -> Arg<'a>
    ensures rule { rule_of result ≡ whole_rule }
    ensures local { result.global ≡ false }
{
    Arg::new(alloc, "WHOLE")
        .long("whole")
        .action(ArgAction::SetTrue)
}

/// The program for which a server is asked.
fn program<'a>(alloc: Global) -> Arg<'a>
    ensures rule { rule_of result ≡ program_rule }
    ensures local { result.global ≡ false }
{
    Arg::new(alloc, "PROGRAM").required(true)
}

/// How a server is asked.
fn form_of_ask_command<'a>(alloc: Global) -> Result<Command<'a>, AllocError>
    ensures app { IfOk result (λ c. app_of c ≡ form_of_ask_app) }
    ensures local { IfOk result (λ c. (fields_of c).has_globals ≡ false) }
{
    let command = Command::new(alloc, "ask")
        .about("Asks the server that has a folder, and prints its answer")
        .arg(script(alloc))?
        .arg(place(alloc))?
        .arg(whole(alloc))?;
    Ok(command)
}

/// The flag for lines of svccfg.
fn cfg_lines<'a>(alloc: Global) -> Arg<'a>
    ensures rule { rule_of result ≡ cfg_lines_rule }
    ensures local { result.global ≡ false }
{
    Arg::new(alloc, "CFG")
        .long("cfg")
        .action(ArgAction::SetTrue)
}

/// The name that is selected before the lines.
fn first<'a>(alloc: Global) -> Arg<'a>
    ensures rule { rule_of result ≡ first_rule }
    ensures local { result.global ≡ false }
{
    Arg::new(alloc, "FIRST").long("first")
}

/// The flag for lines of svccfg that are typed.
fn talk<'a>(alloc: Global) -> Arg<'a>
    ensures rule { rule_of result ≡ talk_rule }
    ensures local { result.global ≡ false }
{
    Arg::new(alloc, "TALK")
        .long("talk")
        .action(ArgAction::SetTrue)
}

/// By which lines of svccfg a server is asked.
fn lines_of_ask_command<'a>(alloc: Global) -> Result<Command<'a>, AllocError>
    ensures app { IfOk result (λ c. app_of c ≡ lines_of_ask_app) }
    ensures local { IfOk result (λ c. (fields_of c).has_globals ≡ false) }
{
    let command = form_of_ask_command(alloc)?
        .arg(cfg_lines(alloc))?
        .arg(first(alloc))?
        .arg(talk(alloc))?;
    Ok(command)
}

fn ask_command<'a>(alloc: Global) -> Result<Command<'a>, AllocError>
    ensures app { IfOk result (λ c. app_of c ≡ ask_app) }
    ensures local { IfOk result (λ c. (fields_of c).has_globals ≡ false) }
{
    let command = lines_of_ask_command(alloc)?
        .arg(folder(alloc))?
        .arg(program(alloc))?
        .arg(fmris(alloc))?;
    Ok(command)
}

/// The time after which nothing is run again.
fn until<'a>(alloc: Global) -> Arg<'a>
    ensures rule { rule_of result ≡ until_rule }
    ensures local { result.global ≡ false }
{
    Arg::new(alloc, "UNTIL").long("until")
}

/// A file of lines that are done before.
fn with_lines<'a>(alloc: Global) -> Arg<'a>
    ensures rule { rule_of result ≡ with_lines_rule }
    ensures local { result.global ≡ false }
{
    Arg::new(alloc, "WITH").long("with")
}

/// A line that is asked at the end.
fn request<'a>(alloc: Global) -> Arg<'a>
    ensures rule { rule_of result ≡ request_rule }
    ensures local { result.global ≡ false }
{
    Arg::new(alloc, "THEN").long("then")
}

/// The record of a server.
fn recorded<'a>(alloc: Global) -> Arg<'a>
    ensures rule { rule_of result ≡ recorded_rule }
    ensures local { result.global ≡ false }
{
    Arg::new(alloc, "RECORD").required(true)
}

/// How far it is run again, and what is done and asked besides.
fn replayed_command<'a>(alloc: Global) -> Result<Command<'a>, AllocError>
    ensures app { IfOk result (λ c. app_of c ≡ replayed_app) }
    ensures local { IfOk result (λ c. (fields_of c).has_globals ≡ false) }
{
    let command = Command::new(alloc, "replay")
        .about("Runs a server again over what was recorded, and says whether the trail is the same")
        .arg(until(alloc))?
        .arg(with_lines(alloc))?
        .arg(request(alloc))?;
    Ok(command)
}

fn replay_command<'a>(alloc: Global) -> Result<Command<'a>, AllocError>
    ensures app { IfOk result (λ c. app_of c ≡ replay_app) }
    ensures local { IfOk result (λ c. (fields_of c).has_globals ≡ false) }
{
    let command = replayed_command(alloc)?.arg(recorded(alloc))?;
    Ok(command)
}

fn bare_command<'a>(alloc: Global) -> Command<'a>
    ensures { app_of result ≡ bare_app }
{
    Command::new(alloc, "smf")
        .version("unknown")
        .subcommand_required(true)
}

/// The commands that run, or that change a database.
fn running_command<'a>(alloc: Global) -> Result<Command<'a>, AllocError>
    ensures { IfOk result (λ c. app_of c ≡ running_app) }
{
    let sim = sim_command(alloc)?;
    let with_sim = bare_command(alloc).subcommand(sim)?;
    let run = run_command(alloc)?;
    let with_run = with_sim.subcommand(run)?;
    let cfg = cfg_command(alloc)?;
    let with_cfg = with_run.subcommand(cfg)?;
    let serve = serve_command(alloc)?;
    let command = with_cfg.subcommand(serve)?;
    Ok(command)
}

/// With those that ask what a database has.
fn asking_command<'a>(alloc: Global) -> Result<Command<'a>, AllocError>
    ensures { IfOk result (λ c. app_of c ≡ asking_app) }
{
    let running = running_command(alloc)?;
    let why = why_command(alloc)?;
    let with_why = running.subcommand(why)?;
    let check = check_command(alloc)?;
    let with_check = with_why.subcommand(check)?;
    let show = show_command(alloc)?;
    let with_show = with_check.subcommand(show)?;
    let prop = prop_command(alloc)?;
    let with_prop = with_show.subcommand(prop)?;
    let plan_stop = plan_stop_command(alloc)?;
    let command = with_prop.subcommand(plan_stop)?;
    Ok(command)
}

/// The program as clap knows it. It may be asked for its version, which clap does not know. `sim` may have a database. `run` has one, and contracts may be followed.
/// `cfg` has a database, and may have a file of lines after `-f`. `serve` has a folder and a database, and may have a file of what is given to it. `why`, `show`, `prop`
/// and `export` have a database and words that mean instances. `check` and `plan-stop` have a database, `compile`, `audit` and `replay` a file, and `diff` and
/// `backup` both. `ask` has a folder, a program and words, and may have a name that is selected first.
pub(crate) fn smf_command<'a>(alloc: Global) -> Result<Command<'a>, AllocError>
    ensures { IfOk result (λ c. app_of c ≡ smf_app) }
{
    let asking = asking_command(alloc)?;
    let compile = compile_command(alloc)?;
    let with_compile = asking.subcommand(compile)?;
    let export = export_command(alloc)?;
    let with_export = with_compile.subcommand(export)?;
    let diff = diff_command(alloc)?;
    let with_diff = with_export.subcommand(diff)?;
    let backup = backup_command(alloc)?;
    let with_backup = with_diff.subcommand(backup)?;
    let metrics = metrics_command(alloc)?;
    let with_metrics = with_backup.subcommand(metrics)?;
    let audit = audit_command(alloc)?;
    let with_audit = with_metrics.subcommand(audit)?;
    let replay = replay_command(alloc)?;
    let with_replay = with_audit.subcommand(replay)?;
    let ask = ask_command(alloc)?;
    let command = with_replay.subcommand(ask)?;
    Ok(command)
}
