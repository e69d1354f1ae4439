ghost use Rattle.smf_method.specs.Commands.{is_signal, is_signal_byte};
ghost use Rattle.smf_method.specs.Properties.{timeout_by, timeout_in};
ghost use Rattle.smf_model.specs.Next.{named_snapshot};
ghost use Rattle.smf_watch.specs.Sizes.{size_of};
ghost use Rattle.smf_watch.specs.Terms.{count_by, count_in, is_child, is_new, composed_in, log_by, log_in, named_stop, stop_by, stop_in, is_untimed, term_lists_if, terms_among, terms_by, terms_of, timed_stop, untimed_in};
ghost use Rattle.std.specs.List.{list_all};
ghost use Rattle.std.specs.Option.{option_copied};
ghost use Rattle.std.specs.Prelude.{◌≡◌, ◌++◌, IfOk, OnErr, OnOk, Some};

use crate::size::{Size, is_same, size_of};
use smf_fmri::{InstanceFmri, Items, Text, strip};
use smf_method::Timeout;
use smf_model::{Instance, InstanceEntry, Journal, Plain, Snapshot};
use smf_node::Node;
use smf_snap::composed_group;
use smf_state::Duration;
use smf_value::{Group, Property, Value};
use std::alloc::{AllocError, Global};

/// How what the start method of an instance began is ended: its stop method is `:kill`.
#[derive(Drop)]
pub struct Stop {
    pub instance: InstanceFmri,
    /// The signal that the stop method names.
    pub signal: Text,
    /// The time after which KILL comes, if the stop method has one.
    pub timeout: Option<Timeout>,
    /// True if the first process stays as long as the service runs.
    pub child: bool,
}

/// When the log of an instance is renamed, by the group `startd` of its running snapshot.
#[derive(Drop)]
pub struct LogLimit {
    pub instance: InstanceFmri,
    /// `log_max`: it is renamed when it has more bytes. 0 is no limit.
    pub most: Option<u64>,
    /// `log_keep`: so many that were renamed are kept.
    pub kept: Option<u64>,
}

/// The methods of an instance that have a command and name no time-out, by its running snapshot. One of 0 seconds, which is
/// none, is named.
#[derive(Drop)]
pub struct UntimedMethods {
    pub instance: InstanceFmri,
    /// False for a child service, whose start has succeeded when its process is there.
    pub start: bool,
    pub stop: bool,
    pub refresh: bool,
}

/// What an instance says of itself to whoever keeps its contracts.
#[derive(Drop)]
pub enum Term {
    Stops(Stop),
    Logs(LogLimit),
    Untimed(UntimedMethods),
}

/// Whoever keeps contracts, ends them and writes their logs.
pub trait Ender {
    ghost use Rattle.smf_watch.specs.declared.terms.Term.{Term};
    ghost use Rattle.std.specs.Prelude.{List, Option, true};

    /// All that was told, the first first, if that is known.
    ghost told: { Self → Option (List (List Term)) };

    /// From now on what start methods began is ended so, and all else by TERM; logs are renamed so; and these methods name
    /// no time-out.
    fn keep_by(&mut self, terms: &[Term])
        ensures { told self.new ≡ term_lists_if true terms.now (told self.old) };
}

/// By what it is seen whether anything happened since whoever keeps contracts was told how.
#[derive(Drop)]
pub struct Noted {
    pub size: Option<Size>,
}

fn is_signal_byte(b: u8) -> bool
    ensures { result ≡ is_signal_byte b }
{
    b.is_ascii_uppercase() || b.is_ascii_digit()
}

fn are_signal_bytes(bytes: &[u8]) -> bool
    ensures { result ≡ list_all is_signal_byte bytes.now }
{
    bytes.iter().all(|b| is_signal_byte(*b))
}

/// True if bytes name a signal.
fn is_signal(bytes: &[u8]) -> bool
    ensures { result ≡ is_signal bytes.now }
{
    if bytes.is_empty() {
        return false;
    }
    are_signal_bytes(bytes)
}

fn timeout_by(values: &[Value]) -> Option<Option<Timeout>>
    ensures { result ≡ timeout_by values.now }
{
    match values {
        [Value::Count(seconds)] => Some(Timeout::new(*seconds)),
        _ => None,
    }
}

/// The time-out that a property names, which may be none. It names nothing if it is not one count.
fn timeout_in(property: Option<&Property>) -> Option<Option<Timeout>>
    ensures { result ≡ timeout_in (option_copied property.entry) }
{
    match property {
        None => Some(None),
        Some(property) => timeout_by(property.values()),
    }
}

fn is_child(duration: Duration) -> bool
    ensures { result ≡ is_child duration }
{
    match duration {
        Duration::Child => true,
        Duration::Contract => false,
        Duration::Transient => false,
    }
}

fn stop_with(
    alloc: Global,
    instance: &Instance,
    signal: &str,
    timeout: Option<Timeout>,
) -> Result<Stop, AllocError>
    ensures { IfOk result
        (λ stop. stop
        ≡ record {
          instance = instance.now.name;
          signal = signal.now;
          timeout = timeout;
          child = is_child instance.now.row.duration;
        }) }
{
    let child = is_child(instance.row.duration);
    let name = instance.name.clone()?;
    let signal = Text::copy_of(alloc, signal)?;
    Ok(Stop {
        instance: name,
        signal,
        timeout,
        child,
    })
}

fn push_timed(
    alloc: Global,
    instance: &Instance,
    signal: &str,
    timeout: Option<Option<Timeout>>,
    terms: &mut Items<Term>,
) -> Result<(), AllocError>
    ensures { OnOk result (terms.new ≡ terms.old ++ timed_stop instance.now signal.now timeout) }
{
    match timeout {
        None => Ok(()),
        Some(timeout) => {
            let stop = stop_with(alloc, instance, signal, timeout)?;
            terms.push(Term::Stops(stop))?;
            Ok(())
        }
    }
}

fn push_named(
    alloc: Global,
    instance: &Instance,
    signal: Option<&str>,
    timeout: Option<Option<Timeout>>,
    terms: &mut Items<Term>,
) -> Result<(), AllocError>
    ensures { OnOk result (terms.new ≡ terms.old ++ named_stop instance.now (option_copied signal.entry) timeout) }
{
    match signal {
        Some(signal) if is_signal(signal.as_bytes()) => {
            push_timed(alloc, instance, signal, timeout, terms)
        }
        _ => Ok(()),
    }
}

fn push_by(
    alloc: Global,
    instance: &Instance,
    exec: &str,
    timeout: Option<Option<Timeout>>,
    terms: &mut Items<Term>,
) -> Result<(), AllocError>
    ensures { OnOk result (terms.new ≡ terms.old ++ stop_by instance.now (Some exec.now) timeout) }
{
    if exec == ":kill" {
        return push_timed(alloc, instance, "TERM", timeout, terms);
    }
    push_named(alloc, instance, strip(":kill -", exec), timeout, terms)
}

/// Adds how an instance is ended by its group `stop`.
fn push_in(
    alloc: Global,
    instance: &Instance,
    group: &Group,
    terms: &mut Items<Term>,
) -> Result<(), AllocError>
    ensures { OnOk result (terms.new ≡ terms.old ++ stop_in instance.now (Some group.now)) }
{
    match group.text("exec") {
        None => Ok(()),
        Some(exec) => push_by(
            alloc,
            instance,
            exec.as_str(),
            timeout_in(group.find("timeout_seconds")),
            terms,
        ),
    }
}

fn push_if_there(
    alloc: Global,
    instance: &Instance,
    group: Option<&Group>,
    terms: &mut Items<Term>,
) -> Result<(), AllocError>
    ensures { OnOk result (terms.new ≡ terms.old ++ stop_in instance.now (option_copied group.entry)) }
{
    match group {
        None => Ok(()),
        Some(group) => push_in(alloc, instance, group, terms),
    }
}

fn count_by(values: &[Value]) -> Option<u64>
    ensures { result ≡ count_by values.now }
{
    match values {
        [Value::Count(count)] => Some(*count),
        _ => None,
    }
}

/// The one count of a property.
pub(crate) fn count_in(property: Option<&Property>) -> Option<u64>
    ensures { result ≡ count_in (option_copied property.entry) }
{
    match property {
        None => None,
        Some(property) => count_by(property.values()),
    }
}

/// When the log of an instance is renamed.
fn log_by(instance: &Instance, most: Option<u64>, kept: Option<u64>) -> Result<Term, AllocError>
    ensures { IfOk result (λ term. term ≡ log_by instance.now most kept) }
{
    let name = instance.name.clone()?;
    Ok(Term::Logs(LogLimit {
        instance: name,
        most,
        kept,
    }))
}

/// Adds when the log of an instance is renamed by its group `startd`.
fn push_log_in(
    instance: &Instance,
    group: Option<&Group>,
    terms: &mut Items<Term>,
) -> Result<(), AllocError>
    ensures { OnOk result (terms.new ≡ terms.old ++ log_in instance.now (option_copied group.entry)) }
{
    match group {
        None => Ok(()),
        Some(group) => {
            let most = count_in(group.find("log_max"));
            let kept = count_in(group.find("log_keep"));
            let term = log_by(instance, most, kept)?;
            terms.push(term)
        }
    }
}

/// True if a method has a command, and names no time-out.
fn is_untimed(group: Option<&Group>) -> bool
    ensures { result ≡ is_untimed (option_copied group.entry) }
{
    match group {
        None => false,
        Some(group) => group.text("exec").is_some() && group.find("timeout_seconds").is_none(),
    }
}

/// The methods of an instance that name no time-out.
fn untimed_in(instance: &Instance, snapshot: Option<&Snapshot>) -> Result<Term, AllocError>
    ensures { IfOk result (λ term. term ≡ untimed_in instance.now (option_copied snapshot.entry)) }
{
    let is_child = is_child(instance.row.duration);
    let start = !is_child && is_untimed(composed_in("start", snapshot));
    let stop = is_untimed(composed_in("stop", snapshot));
    let refresh = is_untimed(composed_in("refresh", snapshot));
    let name = instance.name.clone()?;
    Ok(Term::Untimed(UntimedMethods {
        instance: name,
        start,
        stop,
        refresh,
    }))
}

/// A composed group of a snapshot, if there is a snapshot.
pub(crate) fn composed_in<'a>(name: &str, snapshot: Option<&'a Snapshot>) -> Option<&'a Group>
    ensures { option_copied result ≡ composed_in name.now (option_copied snapshot.entry) }
{
    match snapshot {
        None => None,
        Some(snapshot) => composed_group(&snapshot.instance_groups, &snapshot.service_groups, name),
    }
}

/// The snapshot of a number, if there is a number.
pub(crate) fn snapshot_of<J: Journal>(
    repository: &Plain<J>,
    number: Option<u64>,
) -> Option<&Snapshot>
    ensures { option_copied result ≡ named_snapshot repository.now.held number }
{
    match number {
        None => None,
        Some(number) => repository.snapshot(number),
    }
}

/// Adds what is told of an instance by a snapshot.
fn push_terms(
    alloc: Global,
    instance: &Instance,
    snapshot: Option<&Snapshot>,
    terms: &mut Items<Term>,
) -> Result<(), AllocError>
    ensures { OnOk result (terms.new ≡ terms.old ++ terms_by instance.now (option_copied snapshot.entry)) }
{
    push_if_there(alloc, instance, composed_in("stop", snapshot), terms)?;
    push_log_in(instance, composed_in("startd", snapshot), terms)?;
    let untimed = untimed_in(instance, snapshot)?;
    terms.push(untimed)?;
    Ok(())
}

/// Adds what is told of an instance by its running snapshot.
fn push_entry<J: Journal>(
    alloc: Global,
    repository: &Plain<J>,
    entry: &InstanceEntry,
    terms: &mut Items<Term>,
) -> Result<(), AllocError>
    ensures { OnOk result
        (terms.new ≡ terms.old ++ terms_by entry.now.instance
        (named_snapshot repository.now.held entry.now.instance.row.running)) }
{
    let running = snapshot_of(repository, entry.instance.row.running);
    push_terms(alloc, &entry.instance, running, terms)?;
    Ok(())
}

/// What is told of these instances.
fn terms_among<J: Journal>(
    alloc: Global,
    repository: &Plain<J>,
    entries: &[InstanceEntry],
) -> Result<Items<Term>, AllocError>
    ensures { IfOk result (λ terms. terms ≡ terms_among repository.now.held entries.now) }
{
    let mut terms: Items<Term> = Items::new(alloc);
    for entry in entries {
        push_entry(alloc, repository, entry, &mut terms)?;
    }
    Ok(terms)
}

/// What is told of all instances.
fn terms_of<J: Journal>(alloc: Global, repository: &Plain<J>) -> Result<Items<Term>, AllocError>
    ensures { IfOk result (λ terms. terms ≡ terms_of repository.now.held) }
{
    let terms = terms_among(alloc, repository, repository.entries())?;
    Ok(terms)
}

/// True if anything happened since it was told.
fn is_new(noted: &Noted, now: &Size) -> bool
    ensures { result ≡ is_new noted.now.size now.now }
{
    match &noted.size {
        None => true,
        Some(before) => !is_same(before, now),
    }
}

fn tell_if<E: Ender, J: Journal>(
    alloc: Global,
    ender: &mut E,
    repository: &Plain<J>,
    is_new: bool,
) -> Result<(), AllocError>
    ensures told { OnOk result
        (E.told ender.new ≡ term_lists_if is_new (terms_of repository.now.held) (E.told ender.old)) }
    ensures fault { OnErr result (E.told ender.new ≡ E.told ender.old) }
{
    if !is_new {
        return Ok(());
    }
    let terms = terms_of(alloc, repository)?;
    ender.keep_by(terms.as_slice());
    Ok(())
}

impl Noted {
    ghost use Rattle.std.specs.Prelude.{None};

    /// Nothing was told yet.
    pub fn new() -> Noted
        ensures { result.size ≡ None }
    {
        Noted { size: None }
    }

    /// Tells how all are ended whose stop method is `:kill`, when logs are renamed, and which methods name no time-out, if
    /// anything happened since it was told. An error tells nothing.
    pub fn tell<E: Ender, J: Journal>(
        &mut self,
        alloc: Global,
        ender: &mut E,
        node: &Node<J>,
    ) -> Result<(), AllocError>
        ensures told { OnOk result
            (E.told ender.new ≡ term_lists_if (is_new self.old.size (size_of node.now.world))
            (terms_of node.now.world.now) (E.told ender.old)) }
        ensures noted { OnOk result (self.new.size ≡ Some (size_of node.now.world)) }
        ensures fault { OnErr result (E.told ender.new ≡ E.told ender.old) }
        ensures kept { OnErr result (self.new.size ≡ self.old.size) }
    {
        let now = size_of(node);
        let is_new = is_new(self, &now);
        tell_if(alloc, ender, node.repository(), is_new)?;
        self.size = Some(now);
        Ok(())
    }
}
