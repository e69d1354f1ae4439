// The processes of the system, and what is known of them.
ghost use Rattle.std.specs.Prelude.{◌≡◌, List, Option, false, true, IfErr, IfNone, IfOk, IfSome, OnErr, OnOk, Some, Ok, None};
ghost use Rattle.std.specs.declared.process.ExitStatus.{ExitStatus};
ghost use Rattle.std.specs.Process.{child_status};
ghost use Rattle.smf_edge.specs.Facts.{Facts};
ghost use Rattle.smf_edge.specs.Starts.{StartedProgram, log_with_start};

use std::io;
use std::process::{Child, Command as Program, ExitStatus, Processes};

/// A system that starts processes, waits for them and kills them. A caller knows a fact of a process only from the call
/// that finds it. A status that was told once is told again.
pub trait System {
    type Started: Drop;

    ghost facts: { Facts Self.Started };

    /// What it was asked to start, the first first, if that is known.
    ghost starts: { Self → Option (List StartedProgram) };

    /// It alone starts anything.
    fn start(&mut self, program: &mut Program) -> io::Result<Self::Started>
        ensures started { IfOk result (λ c. facts.is_of program.old c) }
        ensures failed { IfErr result facts.start_fails }
        ensures made { OnOk result (starts self.new ≡ log_with_start program.old true (starts self.old)) }
        ensures none { OnErr result (starts self.new ≡ log_with_start program.old false (starts self.old)) };

    fn number(&self, child: &Self::Started) -> u32
        ensures { facts.is_number child.now result };

    /// It does not wait.
    fn look(&self, child: &mut Self::Started) -> io::Result<Option<ExitStatus>>
        ensures again { IfSome (facts.status child.old) (λ s. result ≡ Ok (Some s)) }
        ensures kept { IfOk result (λ s. facts.status child.new ≡ s) }
        ensures ended { IfOk result (λ s. IfSome s (facts.has_ended child.old)) }
        ensures running { IfOk result (λ s. IfNone s (facts.is_running child.old)) }
        ensures lost { OnErr result (facts.is_lost child.old) };

    fn wait(&self, child: &mut Self::Started) -> io::Result<ExitStatus>
        ensures again { IfSome (facts.status child.old) (λ s. result ≡ Ok s) }
        ensures kept { IfOk result (λ s. facts.status child.new ≡ Some s) }
        ensures ended { IfOk result (facts.has_ended child.old) }
        ensures lost { OnErr result (facts.is_lost child.old) };

    /// A fact that is found of the process after the kill is true of it before.
    fn kill(&self, child: &mut Self::Started) -> io::Result<()>
        ensures ended { (s : ExitStatus) → facts.has_ended child.new s → facts.has_ended child.old s }
        ensures lost { facts.is_lost child.new → facts.is_lost child.old }
        ensures killed { OnOk result (facts.is_killed child.old) }
        ensures failed { OnErr result (facts.kill_fails child.old) };
}

/// The kit says how a process ended and nothing else of it. So these three bodies are trusted: that `start` starts this
/// program, that `number` is the number of this process, and that `kill` kills it.
impl<R: Processes> System for R {
    type Started = Child<<R as Processes>::Started>;

    ghost facts = { record {
      status = λ c. child_status c;
      is_of = λ _ _. Unit {0};
      start_fails = λ _. Unit {0};
      is_number = λ _ _. Unit {0};
      has_ended = λ c s. IfSome (child_status c) (λ t. t ≡ s);
      is_running = λ c. child_status c ≡ None;
      is_lost = λ c. child_status c ≡ None;
      is_killed = λ _. Unit {0};
      kill_fails = λ c. child_status c ≡ None;
    } };

    ghost starts = { λ _. None };

    fn start(&mut self, program: &mut Program) -> io::Result<Child<<R as Processes>::Started>> {
        program.spawn(self)
    }

    fn number(&self, child: &Child<<R as Processes>::Started>) -> u32 {
        child.id()
    }

    fn look(&self, child: &mut Child<<R as Processes>::Started>) -> io::Result<Option<ExitStatus>> {
        child.try_wait()
    }

    fn wait(&self, child: &mut Child<<R as Processes>::Started>) -> io::Result<ExitStatus> {
        child.wait()
    }

    fn kill(&self, child: &mut Child<<R as Processes>::Started>) -> io::Result<()> {
        child.kill()
    }
}
