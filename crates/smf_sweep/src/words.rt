// The programs that are started for a child, and that end one.
ghost use Rattle.std.specs.Prelude.{◌≡◌, ◌++◌, IfOk, OnOk, ℕ, List, Some, None, true, codes, flat_map, string_bytes, [], ◌∷◌};
ghost use Rattle.std.specs.Process.{SameEnv, SameOtherVars, SameProgramAndArgs, clears_env, command_args, command_program, command_var};
ghost use Rattle.smf_sweep.specs.Words.{IsOther, ender_text, first_words, group_text, is_method};

use crate::process::Process;
use std::alloc::{AllocError, Allocator, Global};
use std::fmt::Write;
use std::process::{Command as Program, Stdio};

/// The first commands of a method's shell, with the list, the lock, the program's number, the boot, and the method's
/// own words. The shell writes its line. If the program still has the lock then, it becomes the method; else it ends.
/// So no method begins that the next run does not find in the list. An end of line comes first, since the last line may
/// have been cut short.
pub(crate) const FIRST: &str =
    "line() { read -r stat < /proc/$$/stat && boot=$1 && set -- ${stat##*) } && printf '\\n%s %s %s\\n' $$ ${20} $boot; }; line \"$4\" >> \"$1\" && read -r owner < \"$2\" && test \"$owner\" = \"$3\" || exit 126; shift 4; unset PWD OLDPWD SHLVL; exec \"$@\"";

/// Says whether a program runs a method: it makes a session of its own.
pub(crate) fn is_method<B: Allocator + Clone>(command: &Program<B>) -> bool
    ensures { result ≡ is_method command.now }
{
    command.get_program() == "/usr/bin/setsid"
}

fn set(program: &mut Program, name: &str, value: &str) -> Result<(), AllocError>
    ensures others { OnOk result (SameOtherVars program.old program.new name.now) }
    ensures call { OnOk result (SameProgramAndArgs program.old program.new) }
    ensures clears { OnOk result (clears_env program.new ≡ clears_env program.old) }
{
    program.env(name, value)?;
    Ok(())
}

/// The value that a program sets a variable to.
fn value_of<'a, B: Allocator + Clone>(command: &'a Program<B>, name: &str) -> Option<&'a str> {
    for (key, value) in command.get_envs() {
        if key == name {
            return value;
        }
    }
    None
}

/// Sets a variable as another program does.
fn copy<B: Allocator + Clone>(
    program: &mut Program,
    command: &Program<B>,
    name: &str,
) -> Result<(), AllocError>
    ensures others { OnOk result (SameOtherVars program.old program.new name.now) }
    ensures call { OnOk result (SameProgramAndArgs program.old program.new) }
    ensures clears { OnOk result (clears_env program.new ≡ clears_env program.old) }
{
    match value_of(command, name) {
        Some(value) => set(program, name, value),
        None => Ok(()),
    }
}

/// The shell with what a method's shell does first, in a session of its own, with no variables.
fn bare(
    alloc: Global,
    first: &str,
    list: &str,
    lock: &str,
    number: &str,
    boot: &str,
) -> Result<Program, AllocError>
    ensures clears { IfOk result (λ c. clears_env c ≡ true) }
    ensures program { IfOk result (λ c. command_program c ≡ codes "/usr/bin/setsid") }
    ensures args { IfOk result (λ c. command_args c ≡ first_words first.now list.now lock.now number.now boot.now) }
    ensures vars { IfOk result (λ c. (name : List ℕ) → command_var c name ≡ None) }
{
    let mut program = Program::new(alloc, "/usr/bin/setsid")?;
    program.arg("/bin/sh")?;
    program.arg("-c")?;
    program.arg(first)?;
    program.arg("smf")?;
    program.arg(list)?;
    program.arg(lock)?;
    program.arg(number)?;
    program.arg(boot)?;
    program.env_clear();
    Ok(program)
}

/// Takes over a program's words.
fn add_words<B: Allocator + Clone>(
    program: &mut Program,
    command: &Program<B>,
) -> Result<(), AllocError>
    ensures args { OnOk result (command_args program.new ≡ command_args program.old ++ command_args command.now) }
    ensures program { OnOk result (command_program program.new ≡ command_program program.old) }
    ensures env { OnOk result (SameEnv program.old program.new) }
{
    for word in command.get_args() {
        program.arg(word)?;
    }
    Ok(())
}

/// A method's program, which writes its line first. Its variables are the four of a method, as far as the program sets
/// them.
pub(crate) fn program_with_line<B: Allocator + Clone>(
    alloc: Global,
    command: &Program<B>,
    first: &str,
    list: &str,
    lock: &str,
    number: &str,
    boot: &str,
) -> Result<Program, AllocError>
    ensures clears { IfOk result (λ c. clears_env c ≡ true) }
    ensures program { IfOk result (λ c. command_program c ≡ codes "/usr/bin/setsid") }
    ensures args { IfOk result
        (λ c. command_args c ≡ first_words first.now list.now lock.now number.now boot.now
        ++ command_args command.now) }
    ensures alone { IfOk result (λ c. (name : List ℕ) → IsOther name → command_var c name ≡ None) }
{
    let mut program = bare(alloc, first, list, lock, number, boot)?;
    add_words(&mut program, command)?;
    copy(&mut program, command, "PATH")?;
    copy(&mut program, command, "SMF_FMRI")?;
    copy(&mut program, command, "SMF_METHOD")?;
    copy(&mut program, command, "SMF_RESTARTER")?;
    Ok(program)
}

fn put_group(out: &mut String, process: &Process) -> Result<(), AllocError>
    ensures { OnOk result (string_bytes out.new ≡ string_bytes out.old ++ group_text process.now) }
{
    let group = process.group;
    match write!(out, " -{group}") {
        Ok(()) => Ok(()),
        Err(_) => Err(AllocError),
    }
}

fn put_groups(out: &mut String, left: &[Process]) -> Result<(), AllocError>
    ensures { OnOk result (string_bytes out.new ≡ string_bytes out.old ++ flat_map group_text left.now) }
{
    for process in left {
        put_group(out, process)?;
    }
    Ok(())
}

/// The words that end the groups of processes, by SIGKILL.
fn ender_text(alloc: Global, left: &[Process]) -> Result<String, AllocError>
    ensures { IfOk result (λ text. string_bytes text ≡ ender_text left.now) }
{
    let mut text = format!(in alloc; "kill -KILL")?;
    put_groups(&mut text, left)?;
    Ok(text)
}

/// The program that ends the groups of processes.
pub(crate) fn ender(alloc: Global, left: &[Process]) -> Result<Program, AllocError>
    ensures program { IfOk result (λ c. command_program c ≡ codes "/bin/sh") }
    ensures args { IfOk result (λ c. command_args c ≡ codes "-c" ∷ ender_text left.now ∷ []) }
    ensures clears { IfOk result (λ c. clears_env c ≡ true) }
{
    let words = ender_text(alloc, left)?;
    let mut program = Program::new(alloc, "/bin/sh")?;
    program.arg("-c")?;
    program.arg(words.as_str())?;
    program.env_clear();
    program.stdin(Stdio::null());
    program.stdout(Stdio::null());
    program.stderr(Stdio::null());
    Ok(program)
}
