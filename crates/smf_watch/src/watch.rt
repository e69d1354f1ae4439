ghost use Rattle.std.specs.Prelude.{◌≡◌, ◌⊎◌, ◌++◌, IfErr, IfOk, OnErr, OnOk, true};
ghost use Rattle.smf_watch.specs.Watched.{HaveTimedOut, IsUntimed, StopsTiming, due_at, dues_among, dues_by, dues_in, dues_of, is_due, is_over, is_timed, late_if, runs_due, runs_in, runs_still, timed_method, timeout_of, times_out, watched_by, when_due};
ghost use Rattle.smf_node.specs.Faults.{IsFault};
ghost use Rattle.smf_restarter.specs.Knowledge.{Knowledge};
ghost use Rattle.smf_world.specs.Reached.{IsLater};
ghost use Rattle.smf_world.specs.Schedule.{on};
ghost use Rattle.smf_world.specs.Worked.{restarter};
ghost use Rattle.std.specs.List.{list_any};
ghost use Rattle.std.specs.Option.{option_copied};

use smf_contract::Method;
use smf_fmri::{InstanceFmri, Items};
use smf_method::Timeout;
use smf_model::Journal;
use smf_node::{Node, NodeFault};
use smf_restarter::{KnownInstance, Phase};
use smf_world::Event;
use std::alloc::{AllocError, Global};
use std::time::Duration;

/// A method that runs and has a time-out, and when that is over.
#[derive(Drop)]
pub struct Due {
    pub restarter: InstanceFmri,
    pub instance: u64,
    pub run: u64,
    pub method: Method,
    /// In nanoseconds of the clock.
    pub at: u128,
}

/// The methods that may take too long.
#[derive(Drop)]
pub struct Watch {
    pub dues: Items<Due>,
}

/// A method that runs and has a time-out.
#[derive(Clone, Copy)]
pub struct Timed {
    pub run: u64,
    pub method: Method,
    pub timeout: Timeout,
}

/// The method that runs for an instance, if it has a time-out.
fn timed_method(phase: &Phase) -> Option<Timed>
    ensures { result ≡ timed_method phase.now }
{
    match phase {
        Phase::Running(running) => match running.timeout {
            Some(timeout) => Some(Timed {
                run: running.run,
                method: running.method,
                timeout,
            }),
            None => None,
        },
        _ => None,
    }
}

/// True if it is the method that is due.
fn is_timed(timed: Option<Timed>, due: &Due) -> bool
    ensures { result ≡ is_timed due.now timed }
{
    match timed {
        None => false,
        Some(timed) => timed.run == due.run && timed.method == due.method,
    }
}

/// True if the method that is due runs for an instance.
fn runs(known: &KnownInstance, due: &Due) -> bool
    ensures { result ≡ runs_due due.now known.now }
{
    known.instance == due.instance && is_timed(timed_method(&known.phase), due)
}

/// True if the method that is due runs for one of these instances.
fn any_runs(known: &[KnownInstance], due: &Due) -> bool
    ensures { result ≡ list_any (runs_due due.now) known.now }
{
    known.iter().any(|one| runs(one, due))
}

/// True if the method that is due runs still.
fn runs_still<J: Journal>(node: &Node<J>, due: &Due) -> bool
    ensures { result ≡ runs_still due.now node.now.world }
{
    match node.restarter(&due.restarter) {
        Some(restarter) => any_runs(restarter.instances(), due),
        None => false,
    }
}

/// True if its time is over by the clock.
fn is_over(now: Duration, due: &Due) -> bool
    ensures { result ≡ is_over now due.now }
{
    !(now.as_nanos() < due.at)
}

/// True if its time is over, and it runs still.
fn times_out<J: Journal>(now: Duration, node: &Node<J>, due: &Due) -> bool
    ensures { result ≡ times_out now due.now node.now.world }
{
    is_over(now, due) && runs_still(node, due)
}

/// A method took too long.
fn happen<J: Journal>(node: &mut Node<J>, due: &Due) -> Result<(), NodeFault>
    ensures ok { OnOk result (node.new ≡ on node.old (timeout_of due.now)) }
    ensures err { OnErr result (node.new ≡ node.old) }
    ensures fault { IfErr result
        (λ e. (e ≡ NodeFault.Memory) ⊎ IsFault J.write_fails node.old.world (timeout_of due.now) e) }
{
    let restarter = due.restarter.clone()?;
    let _reply = node.step(Event::Timeout {
        restarter,
        instance: due.instance,
    })?;
    Ok(())
}

/// A method times out, if its time is over and it runs still. Says whether it did.
fn time_out_if<J: Journal>(now: Duration, node: &mut Node<J>, due: &Due) -> Result<bool, NodeFault>
    ensures did { IfOk result (λ did. did ≡ times_out now due.now node.old.world) }
    ensures ok { OnOk result (node.new ≡ late_if (times_out now due.now node.old.world) due.now node.old) }
    ensures err { OnErr result (node.new ≡ node.old) }
    ensures fault { IfErr result (IsUntimed J.write_fails now due.now node.old.world) }
{
    if !times_out(now, node, due) {
        return Ok(false);
    }
    happen(node, due)?;
    Ok(true)
}

/// True if it is due for this run of a method.
fn is_due(instance: u64, timed: &Timed, due: &Due) -> bool
    ensures { result ≡ is_due instance timed.now due.now }
{
    due.instance == instance && due.run == timed.run && due.method == timed.method
}

/// When a method that is watched is due.
fn when_due(dues: &[Due], instance: u64, timed: &Timed) -> Option<u128>
    ensures { result ≡ when_due dues.now instance timed.now }
{
    for due in dues {
        if is_due(instance, timed, due) {
            return Some(due.at);
        }
    }
    None
}

/// When a method is due: it was first seen now, or is watched already.
fn due_at(now: Duration, timed: &Timed, at: Option<u128>) -> u128
    ensures { result ≡ due_at now timed.now at }
{
    match at {
        Some(at) => at,
        None => now.as_nanos() + timed.timeout.seconds() as u128 * 1_000_000_000,
    }
}

/// Adds the method that runs for an instance, if it has a time-out.
fn push_due(
    now: Duration,
    before: &[Due],
    restarter: &InstanceFmri,
    known: &KnownInstance,
    dues: &mut Items<Due>,
) -> Result<(), AllocError>
    ensures { OnOk result (dues.new
        ≡ dues.old ++ dues_by now before.now restarter.now known.now.instance (timed_method known.now.phase)) }
{
    match timed_method(&known.phase) {
        None => Ok(()),
        Some(timed) => {
            let at = due_at(now, &timed, when_due(before, known.instance, &timed));
            dues.push(Due {
                restarter: restarter.clone()?,
                instance: known.instance,
                run: timed.run,
                method: timed.method,
                at,
            })
        }
    }
}

/// Adds the methods that run for the instances of a restarter.
fn push_all(
    now: Duration,
    before: &[Due],
    restarter: &InstanceFmri,
    known: &[KnownInstance],
    dues: &mut Items<Due>,
) -> Result<(), AllocError>
    ensures { OnOk result (dues.new ≡ dues.old ++ dues_of now before.now restarter.now known.now) }
{
    for one in known {
        push_due(now, before, restarter, one, dues)?;
    }
    Ok(())
}

/// Adds the methods that a launched restarter runs.
fn push_of<J: Journal>(
    now: Duration,
    before: &[Due],
    node: &Node<J>,
    name: &InstanceFmri,
    dues: &mut Items<Due>,
) -> Result<(), AllocError>
    ensures { OnOk result
        (dues.new ≡ dues.old ++ dues_in now before.now name.now (restarter node.now.world name.now)) }
{
    match node.restarter(name) {
        None => Ok(()),
        Some(restarter) => push_all(now, before, name, restarter.instances(), dues),
    }
}

/// The methods that these restarters run.
fn dues_among<J: Journal>(
    alloc: Global,
    now: Duration,
    before: &[Due],
    node: &Node<J>,
    names: &[InstanceFmri],
) -> Result<Items<Due>, AllocError>
    ensures { IfOk result (λ dues. dues ≡ dues_among now before.now node.now.world names.now) }
{
    let mut dues: Items<Due> = Items::new(alloc);
    for name in names {
        push_of(now, before, node, name, &mut dues)?;
    }
    Ok(dues)
}

/// The methods that are due time out in their order, up to a fault. Says whether any did.
fn time_out_all<J: Journal>(
    now: Duration,
    node: &mut Node<J>,
    dues: &[Due],
) -> Result<bool, NodeFault>
    ensures ok { IfOk result (λ any. HaveTimedOut now dues.now node.old node.new any) }
    ensures err { IfErr result (λ e. StopsTiming J.write_fails now dues.now node.old node.new e) }
    ensures later { IsLater node.old.world node.new.world }
{
    let mut any = false;
    for due in dues {
        let did = time_out_if(now, node, due)?;
        any |= did;
    }
    Ok(any)
}

impl Watch {
    ghost use Rattle.std.specs.Prelude.{[]};

    /// Nothing is watched yet.
    pub fn new(alloc: Global) -> Watch
        ensures { result.dues ≡ [] }
    {
        Watch {
            dues: Items::new(alloc),
        }
    }

    /// Looks which methods run now. One that is watched already keeps its time. If memory runs out, what was watched is.
    pub fn see<J: Journal>(
        &mut self,
        alloc: Global,
        now: Duration,
        node: &Node<J>,
    ) -> Result<(), AllocError>
        ensures seen { OnOk result (self.new.dues ≡ watched_by now node.now.world self.old.dues) }
        ensures kept { OnErr result (self.new.dues ≡ self.old.dues) }
    {
        let names = node.launched_names()?;
        self.dues = dues_among(alloc, now, self.dues.as_slice(), node, names.as_slice())?;
        Ok(())
    }

    /// The methods whose time is over and that run still time out, in the order in which they are watched. Says whether any
    /// did. A fault leaves those that timed out before it.
    pub fn time_out<J: Journal>(&self, now: Duration, node: &mut Node<J>) -> Result<bool, NodeFault>
        ensures ok { IfOk result (λ any. HaveTimedOut now self.now.dues node.old node.new any) }
        ensures err { IfErr result (λ e. StopsTiming J.write_fails now self.now.dues node.old node.new e) }
        ensures later { IsLater node.old.world node.new.world }
    {
        time_out_all(now, node, self.dues.as_slice())
    }
}
