ghost use Rattle.std.specs.Prelude.{◌≡◌, IfErr, IfOk, OnOk, string_bytes, true};
ghost use Rattle.smf_sweep.specs.Starts.{GivesNone, GivesOne, HasLine, start_of};
ghost use Rattle.smf_sweep.specs.Sweeps.{IsClosed, StopsRun, WasCleared};
ghost use Rattle.smf_sweep.specs.declared.lister.TheConstants.{MOST};

use crate::fault::SweepFault;
use crate::rounds::{clear, close};
use crate::starter::Starter;
use crate::survey::Survey;
use crate::words::{FIRST, is_method, program_with_line};
use std::alloc::{AllocError, Allocator, Global};
use std::io;
use std::process::{Child, Command as Program, Processes, Stdio};

/// How often an older run is told to end, ten milliseconds apart.
const MOST: u32 = 1000;

/// The place in which a run lists its children.
#[derive(Drop)]
pub struct ListPlace {
    /// The path of the list.
    pub list: String,
    /// The path of the lock that the program has, which holds its number.
    pub lock: String,
    pub number: String,
}

/// A starter of programs. A method's shell writes its line into a list first. A lister is there only after all was
/// ended that the list named before.
#[derive(Drop)]
pub struct Lister<S: Survey> {
    alloc: Global,
    system: S,
    place: ListPlace,
    boot: String,
    ghost cleared: { ∥ WasCleared S.tells (string_bytes place.list) (string_bytes boot) ∥₁ },
}

impl<S: Survey + Drop> Lister<S> {
    /// Ends what is left of the children that a list names, and empties the list.
    #[tactic(auto, using(crate::proofs::Older::was_cleared))]
    pub fn take(alloc: Global, system: S, place: ListPlace) -> Result<Lister<S>, SweepFault>
        ensures stopped { IfErr result (StopsRun S.tells MOST (string_bytes place.list) system) }
    {
        let mut system = system;
        let boot = match clear(alloc, &mut system, place.list.as_str(), MOST) {
            Ok(boot) => boot,
            Err(fault) => return Err(fault),
        };
        Ok(Lister {
            alloc,
            system,
            place,
            boot,
        })
    }

    /// Removes the list, if none is left of the children that it names. Says whether it did.
    pub fn close(&mut self) -> Result<bool, SweepFault>
        ensures closed { IfOk result (λ closed. closed ≡ true
            → IsClosed S.tells (string_bytes self.old.place.list)
            (string_bytes self.old.boot) self.old.system self.new.system) }
    {
        close(
            self.alloc,
            &mut self.system,
            self.place.list.as_str(),
            self.boot.as_str(),
        )
    }
}

impl<S: Survey> Lister<S> {
    /// The program of a method, which writes its line first.
    fn with_line<B: Allocator + Clone>(&self, command: &Program<B>) -> Result<Program, AllocError>
        ensures { IfOk result (HasLine B self.now.place (string_bytes self.now.boot) command.now) }
    {
        program_with_line(
            self.alloc,
            command,
            FIRST,
            self.place.list.as_str(),
            self.place.lock.as_str(),
            self.place.number.as_str(),
            self.boot.as_str(),
        )
    }

    /// Gives a system one program to start. If there is no memory for a method's line, it gives none.
    fn start_by<T: Starter, B: Allocator + Clone>(
        &self,
        system: &mut T,
        command: &Program<B>,
        stdin: &Stdio,
        stdout: &Stdio,
        stderr: &Stdio,
    ) -> io::Result<Child<T::Started>>
        ensures started { OnOk result (GivesOne T.gives self.now.place (string_bytes self.now.boot)
            (start_of command.now stdin.now stdout.now stderr.now) system.old system.new) }
        ensures refused { IfErr result (GivesNone T.gives self.now.place (string_bytes self.now.boot)
            (start_of command.now stdin.now stdout.now stderr.now) system.old system.new) }
    {
        if !is_method(command) {
            return system.start(command, stdin, stdout, stderr);
        }
        let program = self.with_line(command)?;
        system.start(&program, stdin, stdout, stderr)
    }
}

/// A method's program writes its line first. Any other one is started as it is. A copy of the system is asked, since
/// the lister stays as it is.
impl<S: Survey + Starter + Copy> Processes for Lister<S> {
    type Started = <S as Starter>::Started;

    fn spawn<B: Allocator + Clone>(
        &self,
        command: &Program<B>,
        stdin: &Stdio,
        stdout: &Stdio,
        stderr: &Stdio,
    ) -> io::Result<Child<<S as Starter>::Started>>
        ensures started { OnOk result ((after : S)
            × GivesOne S.gives self.now.place (string_bytes self.now.boot)
            (start_of command.now stdin.now stdout.now stderr.now) self.now.system after) }
        ensures refused { IfErr result (λ e. (after : S)
            × GivesNone S.gives self.now.place (string_bytes self.now.boot)
            (start_of command.now stdin.now stdout.now stderr.now) self.now.system after e) }
    {
        let mut system = self.system;
        self.start_by(&mut system, command, stdin, stdout, stderr)
    }
}
