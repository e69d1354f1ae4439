// The command that starts an instance.
ghost use Rattle.smf_toml.specs.Commands.{behind, exec_options, exec_words, limit_options, place_options, ready_options, ready_words, start_command};
ghost use Rattle.std.specs.Prelude.{◌≡◌, ◌++◌, IfOk, OnOk};

use crate::pieces::{
    put, put_flag, put_number_option, put_shell_script, put_signed_option, put_text_option,
    put_text_options,
};
use crate::site::{InstanceTable, ReadyTable};
use std::alloc::{AllocError, Global};

fn put_ready_options(alloc: Global, out: &mut Vec<u8>, ready: &ReadyTable) -> Result<(), AllocError>
    ensures { OnOk result (out.new.items ≡ out.old.items ++ ready_options ready.now) }
{
    put_flag(out, "--notify", ready.notify)?;
    put_number_option(alloc, out, "--port", ready.port)?;
    put_text_option(out, "--http", &ready.http)?;
    put_text_option(out, "--file", &ready.file)?;
    put_number_option(alloc, out, "--alive", ready.alive)?;
    put_number_option(alloc, out, "--timeout", ready.timeout)?;
    put_number_option(alloc, out, "--watchdog", ready.watchdog)
}

fn put_ready_words(
    alloc: Global,
    out: &mut Vec<u8>,
    ready: &Option<ReadyTable>,
) -> Result<(), AllocError>
    ensures { OnOk result (out.new.items ≡ out.old.items ++ ready_words ready.now) }
{
    match ready {
        None => Ok(()),
        Some(ready) => {
            put(out, "$SMF_LIBEXEC/smf_ready ")?;
            put_ready_options(alloc, out, ready)?;
            put(out, "-- ")
        }
    }
}

fn put_place_options(out: &mut Vec<u8>, table: &InstanceTable) -> Result<(), AllocError>
    ensures { OnOk result (out.new.items ≡ out.old.items ++ place_options table.now) }
{
    put_text_option(out, "-u", &table.user)?;
    put_text_option(out, "-d", &table.directory)?;
    put_text_options(out, "-e", &table.environment)?;
    put_text_option(out, "-E", &table.environment_file)?;
    put_text_option(out, "-m", &table.umask)
}

fn put_limit_options(
    alloc: Global,
    out: &mut Vec<u8>,
    table: &InstanceTable,
) -> Result<(), AllocError>
    ensures { OnOk result (out.new.items ≡ out.old.items ++ limit_options table.now) }
{
    put_text_options(out, "-l", &table.limits)?;
    put_signed_option(alloc, out, "-n", table.nice)?;
    put_flag(out, "--no-new-privs", table.no_new_privs)?;
    put_text_option(out, "--memory", &table.memory)?;
    put_number_option(alloc, out, "--tasks", table.tasks)?;
    put_text_option(out, "--cpu", &table.cpu)
}

/// The options of `smf_exec`.
fn exec_options(alloc: Global, table: &InstanceTable) -> Result<Vec<u8>, AllocError>
    ensures { IfOk result (λ options. options.items ≡ exec_options table.now) }
{
    let mut options = Vec::new(alloc);
    put_place_options(&mut options, table)?;
    put_limit_options(alloc, &mut options, table)?;
    Ok(options)
}

/// The program with them, before the command that it runs.
fn exec_words(alloc: Global, options: &[u8]) -> Result<Vec<u8>, AllocError>
    ensures { IfOk result (λ words. words.items ≡ exec_words options.now) }
{
    let mut words = Vec::new(alloc);
    match options {
        [] => {}
        _ => {
            put(&mut words, "$SMF_LIBEXEC/smf_exec ")?;
            words.extend_from_slice(options)?;
            put(&mut words, "-- ")?;
        }
    }
    Ok(words)
}

/// A command behind other words.
fn behind(alloc: Global, words: &[u8], command: &str) -> Result<Vec<u8>, AllocError>
    ensures { IfOk result (λ all. all.items ≡ behind words.now command.now) }
{
    let mut all = Vec::new(alloc);
    match words {
        [] => put(&mut all, command)?,
        _ => {
            put(&mut all, "exec ")?;
            all.extend_from_slice(words)?;
            put(&mut all, "/bin/sh -c '")?;
            put_shell_script(&mut all, command.as_bytes())?;
            put(&mut all, "'")?;
        }
    }
    Ok(all)
}

/// The command of the start method.
#[tactic(auto, unfolding(crate::specs::Commands::start_command))]
pub(crate) fn start_command(alloc: Global, table: &InstanceTable) -> Result<Vec<u8>, AllocError>
    ensures { IfOk result (λ command. command.items ≡ start_command table.now) }
{
    let mut words = Vec::new(alloc);
    put_ready_words(alloc, &mut words, &table.ready)?;
    let options = exec_options(alloc, table)?;
    let exec = exec_words(alloc, options.as_slice())?;
    words.extend_from_slice(exec.as_slice())?;
    behind(alloc, words.as_slice(), table.start.text.as_str())
}
