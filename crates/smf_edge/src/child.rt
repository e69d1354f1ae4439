// The processes of the system that were started.
ghost use Rattle.std.specs.Prelude.{◌≡◌, ◌⊎◌, Bool, IfErr, IfNone, IfOk, IfSome, OnErr, OnOk, false, true, filter, position};
ghost use Rattle.smf_edge.specs.Ends.{StartLacksMemory, StartRefused};
ghost use Rattle.smf_edge.specs.Facts.{HasNotRun, HasRun};
ghost use Rattle.smf_edge.specs.Processes.{AreSeen, HasExit, HasLeft, HasNoExit, IsCleared, IsEnded, IsNotCleared, IsNotEnded, IsSeen, IsToEnd, KidHasLeft, KidIsToEnd, NoneOrSome, OneHasLeft, SomeKid, is_kid_of, is_other_kid, role_of, roles};
ghost use Rattle.smf_edge.specs.Shell.{is_child};
ghost use Rattle.smf_edge.specs.Starts.{OnlyKills, log_with_start};
ghost use Rattle.smf_edge.specs.declared.fault.KidsFault.TheVariants.{Memory, Refused};

use crate::fault::KidsFault;
use crate::shell::{exit_of, is_child, killer, lacks_memory, start_fault};
use crate::system::System;
use smf_contract::Exit;
use smf_fmri::Number;
use smf_state::Duration;
use std::alloc::{AllocError, Global};
use std::process::Command as Program;

/// A process, the contract that it is in, and how long its service lasts.
#[derive(Drop)]
pub(crate) struct Kid<C> {
    pub(crate) contract: Number,
    pub(crate) style: Duration,
    /// The number of its process group, which is that of the process.
    pub(crate) group: u32,
    /// It keeps the status that the system told.
    pub(crate) child: C,
}

/// The result of a look at the processes.
#[derive(Clone, Copy)]
pub(crate) enum Sight {
    /// They run.
    Running,
    /// One of them ended.
    Ended(Number, Exit),
    /// The system did not say whether one of them ended, or did not end its group.
    Failed,
}

/// Starts a program in a contract.
pub(crate) fn start_program<R: System>(
    system: &mut R,
    program: &mut Program,
    contract: Number,
    style: Duration,
) -> Result<Kid<R::Started>, KidsFault>
    ensures contract { IfOk result (λ kid. kid.contract ≡ contract) }
    ensures style { IfOk result (λ kid. kid.style ≡ style) }
    ensures of { IfOk result (λ kid. R.facts.is_of program.old kid.child) }
    ensures number { IfOk result (λ kid. R.facts.is_number kid.child kid.group) }
    ensures made { OnOk result (R.starts system.new ≡ log_with_start program.old true (R.starts system.old)) }
    ensures none { OnErr result (R.starts system.new ≡ log_with_start program.old false (R.starts system.old)) }
    ensures fault { IfErr result (λ e. (e ≡ Memory) ⊎ ((e ≡ Refused) × StartRefused R.facts.start_fails)) }
{
    match system.start(program) {
        Ok(child) => {
            let group = system.number(&child);
            Ok(Kid {
                contract,
                style,
                group,
                child,
            })
        }
        Err(error) => Err(start_fault(&error)),
    }
}

/// Runs a program to its end. Says whether the system did that; how the program ended is not judged. If the system has
/// no memory for a start, this is want of memory.
fn run<R: System>(system: &mut R, mut program: Program) -> Result<bool, AllocError>
    ensures done { IfOk result (λ done. done ≡ true → HasRun R.facts program) }
    ensures failed { IfOk result (λ done. done ≡ false → HasNotRun R.facts program) }
    ensures memory { OnErr result (StartLacksMemory R.facts.start_fails) }
    ensures once { (made : Bool) × (R.starts system.new ≡ log_with_start program made (R.starts system.old)) }
{
    match system.start(&mut program) {
        Ok(mut child) => Ok(system.wait(&mut child).is_ok()),
        Err(error) => {
            if lacks_memory(&error) {
                return Err(AllocError);
            }
            Ok(false)
        }
    }
}

/// Ends the processes that a child service left in its group, and says whether that was done. The group may be gone.
/// Processes that a transient service leaves run on. The service's own process was waited for, so its number is free as
/// soon as its group is gone. So the killer runs at once: a later call may meet another group of this number.
fn clear<R: System>(
    alloc: Global,
    system: &mut R,
    style: Duration,
    group: u32,
) -> Result<bool, AllocError>
    ensures done { IfOk result (λ done. done ≡ true → is_child style ≡ true → IsCleared R.facts group) }
    ensures failed { IfOk result (λ done. done ≡ false → IsNotCleared R.facts group) }
    ensures kills { OnlyKills (λ g. (is_child style ≡ true) × (g ≡ group)) (R.starts system.old) (R.starts system.new) }
{
    if !is_child(style) {
        return Ok(true);
    }
    let killer = killer(alloc, group)?;
    let done = run(system, killer)?;
    Ok(done)
}

/// The result of a look at one process.
fn see<R: System>(
    alloc: Global,
    system: &mut R,
    kid: &mut Kid<R::Started>,
) -> Result<Sight, AllocError>
    ensures same { role_of kid.new ≡ role_of kid.old }
    ensures seen { IfOk result (λ sight. IsSeen R.facts sight kid.old) }
    ensures kills { OnlyKills (λ g. HasLeft R.facts g kid.old) (R.starts system.old) (R.starts system.new) }
{
    match system.look(&mut kid.child) {
        Ok(Some(status)) => {
            if !clear(alloc, system, kid.style, kid.group)? {
                return Ok(Sight::Failed);
            }
            Ok(Sight::Ended(kid.contract, exit_of(status)))
        }
        Ok(None) => Ok(Sight::Running),
        Err(_) => Ok(Sight::Failed),
    }
}

/// A process that ended, if one has; it does not wait. The group of a child service is ended before that is told.
pub(crate) fn see_all<R: System>(
    alloc: Global,
    system: &mut R,
    kids: &mut [Kid<R::Started>],
) -> Result<Sight, AllocError>
    ensures same { roles kids.new ≡ roles kids.old }
    ensures seen { IfOk result (λ sight. AreSeen R.facts sight kids.old) }
    ensures kills { OnlyKills (OneHasLeft R.facts kids.old) (R.starts system.old) (R.starts system.new) }
{
    let mut sight = Sight::Running;
    for kid in kids {
        let seen = see(alloc, system, kid)?;
        match seen {
            Sight::Ended(contract, exit) => return Ok(Sight::Ended(contract, exit)),
            Sight::Failed => sight = Sight::Failed,
            Sight::Running => {}
        }
    }
    Ok(sight)
}

/// The place of the process of a contract.
fn place_of<C>(kids: &[Kid<C>], contract: Number) -> Option<usize>
    ensures { result ≡ position (is_kid_of contract) kids.now }
{
    kids.iter().position(|kid| kid.contract == contract)
}

/// Waits until a process ends. None if the system did not say how, or did not end the group of a child service.
fn wait<R: System>(
    alloc: Global,
    system: &mut R,
    kid: &mut Kid<R::Started>,
) -> Result<Option<Exit>, AllocError>
    ensures same { role_of kid.new ≡ role_of kid.old }
    ensures ended { IfOk result (λ told. IfSome told (λ exit. HasExit R.facts exit kid.old)) }
    ensures failed { IfOk result (λ told. IfNone told (HasNoExit R.facts kid.old)) }
    ensures kills { OnlyKills (λ g. HasLeft R.facts g kid.old) (R.starts system.old) (R.starts system.new) }
{
    match system.wait(&mut kid.child) {
        Ok(status) => {
            if !clear(alloc, system, kid.style, kid.group)? {
                return Ok(None);
            }
            Ok(Some(exit_of(status)))
        }
        Err(_) => Ok(None),
    }
}

/// Waits until the process of a contract ends. None if there is none, or as `wait` says it.
pub(crate) fn wait_for<R: System>(
    alloc: Global,
    system: &mut R,
    kids: &mut [Kid<R::Started>],
    contract: Number,
) -> Result<Option<Exit>, AllocError>
    ensures same { roles kids.new ≡ roles kids.old }
    ensures ended { IfOk result (λ told. IfSome told (λ exit. SomeKid contract kids.old (HasExit R.facts exit))) }
    ensures failed { IfOk result (λ told. IfNone told (NoneOrSome contract kids.old (HasNoExit R.facts))) }
    ensures kills { OnlyKills (KidHasLeft R.facts contract kids.old) (R.starts system.old) (R.starts system.new) }
{
    match place_of(kids, contract) {
        Some(place) => wait(alloc, system, &mut kids[place]),
        None => Ok(None),
    }
}

/// Ends a process and its process group, waits for its end, and says whether that was done. No clause says the order.
/// The kill comes before the killer, which ends no process that has not yet made its group. The wait comes last, since
/// the system may then give the number to another process.
fn end<R: System>(
    alloc: Global,
    system: &mut R,
    kid: &mut Kid<R::Started>,
) -> Result<bool, AllocError>
    ensures same { role_of kid.new ≡ role_of kid.old }
    ensures ended { IfOk result (λ done. done ≡ true → IsEnded R.facts kid.old) }
    ensures failed { IfOk result (λ done. done ≡ false → IsNotEnded R.facts kid.old) }
    ensures kills { OnlyKills (λ g. IsToEnd R.facts g kid.old) (R.starts system.old) (R.starts system.new) }
{
    let killer = killer(alloc, kid.group)?;
    if system.kill(&mut kid.child).is_err() {
        return Ok(false);
    }
    let cleared = run(system, killer)?;
    if !cleared {
        return Ok(false);
    }
    Ok(system.wait(&mut kid.child).is_ok())
}

/// Ends the process of a contract, as `end` does. It is not done if there is none.
pub(crate) fn end_all<R: System>(
    alloc: Global,
    system: &mut R,
    kids: &mut [Kid<R::Started>],
    contract: Number,
) -> Result<bool, AllocError>
    ensures same { roles kids.new ≡ roles kids.old }
    ensures ended { IfOk result (λ done. done ≡ true → SomeKid contract kids.old (IsEnded R.facts)) }
    ensures failed { IfOk result (λ done. done ≡ false → NoneOrSome contract kids.old (IsNotEnded R.facts)) }
    ensures kills { OnlyKills (KidIsToEnd R.facts contract kids.old) (R.starts system.old) (R.starts system.new) }
{
    match place_of(kids, contract) {
        Some(place) => end(alloc, system, &mut kids[place]),
        None => Ok(false),
    }
}

/// Drops the process of a contract.
pub(crate) fn forget<C: Drop>(kids: &mut Vec<Kid<C>>, contract: Number)
    ensures { kids.new.items ≡ filter (is_other_kid contract) kids.old.items }
{
    kids.retain(|kid| kid.contract != contract);
}
