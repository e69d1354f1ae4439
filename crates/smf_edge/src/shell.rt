// How a method is run.
ghost use Rattle.std.specs.Prelude.{◌≡◌, ◌≢◌, IfOk, OnOk, ℕ, List, Some, None, false, true, codes};
ghost use Rattle.std.specs.Process.{SameEnv, SameOtherVars, SameProgramAndArgs, clears_env, command_args, command_program, command_var};
ghost use Rattle.std.specs.IoError.{error_kind};
ghost use Rattle.std_io.specs.declared.io.kind.ErrorKind.TheVariants.{OutOfMemory};
ghost use Rattle.smf_edge.specs.declared.fault.KidsFault.TheVariants.{Memory, Refused};
ghost use Rattle.smf_edge.specs.Ends.{IsGroupKill, exit_by};
ghost use Rattle.smf_edge.specs.Environment.{variable_name, variable_value};
ghost use Rattle.smf_edge.specs.declared.environment.Variable.{Variable as AnyVariable};
ghost use Rattle.smf_edge.specs.Shell.{IsOther, by_shell, follows, is_child};

use crate::environment::Variable;
use crate::fault::KidsFault;
use crate::start::Start;
use smf_contract::Exit;
use smf_method::CommandText;
use smf_state::Duration;
use std::alloc::{AllocError, Global};
use std::io;
use std::io::{ErrorKind, Stderr};
use std::process::{Command as Program, ExitStatus, Stdio};

/// A command by the shell, in a session and so in a process group of its own, with no variables. `setsid` becomes the
/// shell, so the shell's number is that of the group.
fn bare(alloc: Global, command: &CommandText) -> Result<Program, AllocError>
    ensures clears { IfOk result (λ c. clears_env c ≡ true) }
    ensures program { IfOk result (λ c. command_program c ≡ codes "/usr/bin/setsid") }
    ensures args { IfOk result (λ c. command_args c ≡ by_shell command.now) }
    ensures vars { IfOk result (λ c. (name : List ℕ) → command_var c name ≡ None) }
{
    let mut program = Program::new(alloc, "/usr/bin/setsid")?;
    program.arg("/bin/sh")?;
    program.arg("-c")?;
    program.arg(command.as_str())?;
    program.env_clear();
    Ok(program)
}

/// Gives a program a variable of a method.
fn set(program: &mut Program, variable: Variable, start: &Start) -> Result<(), AllocError>
    ensures set { OnOk result
        (command_var program.new (variable_name variable) ≡ Some (Some (variable_value start.now variable))) }
    ensures others { OnOk result (SameOtherVars program.old program.new (variable_name variable)) }
    ensures call { OnOk result (SameProgramAndArgs program.old program.new) }
    ensures clears { OnOk result (clears_env program.new ≡ clears_env program.old) }
{
    program.env(variable.name(), variable.value(start))?;
    Ok(())
}

/// An empty standard input, and one stream for what is written.
fn wire(program: &mut Program, output: Stderr)
    ensures call { SameProgramAndArgs program.old program.new }
    ensures env { SameEnv program.old program.new }
{
    program.stdin(Stdio::null());
    program.stdout(output);
    program.stderr(output);
}

/// The method of a start, by the shell, in a process group of its own, with the variables of a method, no other, and an
/// empty standard input. Its output goes to one stream.
pub(crate) fn shell(alloc: Global, start: &Start, output: Stderr) -> Result<Program, AllocError>
    ensures clears { IfOk result (λ c. clears_env c ≡ true) }
    ensures program { IfOk result (λ c. command_program c ≡ codes "/usr/bin/setsid") }
    ensures args { IfOk result (λ c. command_args c ≡ by_shell start.now.command) }
    ensures variables { IfOk result
        (λ c. (v : AnyVariable) → command_var c (variable_name v) ≡ Some (Some (variable_value start.now v))) }
    ensures alone { IfOk result (λ c. (name : List ℕ) → IsOther name → command_var c name ≡ None) }
{
    let mut program = bare(alloc, &start.command)?;
    set(&mut program, Variable::Path, start)?;
    set(&mut program, Variable::Fmri, start)?;
    set(&mut program, Variable::Method, start)?;
    set(&mut program, Variable::Restarter, start)?;
    wire(&mut program, output);
    Ok(program)
}

/// The program that ends every process of a group, by SIGKILL.
pub(crate) fn killer(alloc: Global, group: u32) -> Result<Program, AllocError>
    ensures { IfOk result (λ c. IsGroupKill group c) }
{
    let words = format!(in alloc; "kill -KILL -{group}")?;
    let mut program = Program::new(alloc, "/bin/sh")?;
    program.arg("-c")?;
    program.arg(words.as_str())?;
    program.env_clear();
    program.stdin(Stdio::null());
    program.stdout(Stdio::null());
    program.stderr(Stdio::null());
    Ok(program)
}

/// A code if the process ended by itself.
pub(crate) fn exit_of(status: ExitStatus) -> Exit
    ensures { result ≡ exit_by status }
{
    match status.code() {
        Some(code) => match u8::try_from(code) {
            Ok(code) => Exit::Code(code),
            Err(_) => Exit::Killed,
        },
        None => Exit::Killed,
    }
}

/// Says whether services of a duration can be followed.
pub(crate) fn follows(style: Duration) -> bool
    ensures { result ≡ follows style }
{
    match style {
        Duration::Contract => false,
        Duration::Transient => true,
        Duration::Child => true,
    }
}

/// Says whether a service is the one process that its start method starts.
pub(crate) fn is_child(style: Duration) -> bool
    ensures { result ≡ is_child style }
{
    style == Duration::Child
}

/// Says whether the system had no memory for what it was asked.
pub(crate) fn lacks_memory(error: &io::Error) -> bool
    ensures lacks { result ≡ true → error_kind error.now ≡ OutOfMemory }
    ensures other { result ≡ false → error_kind error.now ≢ OutOfMemory }
{
    error.kind() == ErrorKind::OutOfMemory
}

/// Why the system started no process.
pub(crate) fn start_fault(error: &io::Error) -> KidsFault
    ensures memory { error_kind error.now ≡ OutOfMemory → result ≡ Memory }
    ensures refused { error_kind error.now ≢ OutOfMemory → result ≡ Refused }
{
    if lacks_memory(error) {
        return KidsFault::Memory;
    }
    KidsFault::Refused
}
