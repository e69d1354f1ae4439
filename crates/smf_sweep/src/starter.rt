// What starts the programs of a run.
ghost use Rattle.smf_sweep.specs.Starts.{Start, start_of};

use std::alloc::Allocator;
use std::io;
use std::process::{Child, Command as Program, OpenProcess, Processes, Stdio};

/// A system that starts programs: each program that it is given leads from one state to the next, whether it starts or
/// not. A caller knows that a program was given only from the call that gives it.
pub trait Starter {
    type Started: OpenProcess + Drop;

    ghost gives: { (B : Type 0) → Self → Start B → Self → Type 0 };

    fn start<B: Allocator + Clone>(
        &mut self,
        command: &Program<B>,
        stdin: &Stdio,
        stdout: &Stdio,
        stderr: &Stdio,
    ) -> io::Result<Child<Self::Started>>
        ensures { gives B self.old (start_of command.now stdin.now stdout.now stderr.now) self.new };
}

/// The kit says nothing of what it starts. So this body is trusted: it gives the system this program, once.
impl<R: Processes> Starter for R {
    type Started = <R as Processes>::Started;

    ghost gives = { λ _ _ _ _. Unit {0} };

    fn start<B: Allocator + Clone>(
        &mut self,
        command: &Program<B>,
        stdin: &Stdio,
        stdout: &Stdio,
        stderr: &Stdio,
    ) -> io::Result<Child<<R as Processes>::Started>> {
        self.spawn(command, stdin, stdout, stderr)
    }
}
