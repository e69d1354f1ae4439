// Processes of the system, and which of them are left of children.
ghost use Rattle.std.specs.Prelude.{◌≡◌, IfOk, filter};
ghost use Rattle.std.specs.List.{list_any};
ghost use Rattle.smf_sweep.specs.Leftovers.{has_number, is_child, is_held, is_left, is_marked, is_member, left_of};

use crate::child::Child;
use std::alloc::{AllocError, Global};

/// A process of the system.
#[derive(Clone, Copy)]
pub struct Process {
    pub number: u64,
    pub group: u64,
    pub session: u64,
    pub start: u64,
    /// It has ended, and nobody has waited for it.
    pub has_ended: bool,
    /// It has the variables of a method.
    pub is_method: bool,
}

/// Says whether a process has a child's number.
fn has_number(process: &Process, child: &Child) -> bool
    ensures { result ≡ has_number child.now process.now }
{
    process.number == child.number
}

/// Says whether a process is a child's first one. Another one that the system gave this number was started at another
/// time.
fn is_child(process: &Process, child: &Child) -> bool
    ensures { result ≡ is_child child.now process.now }
{
    process.number == child.number && process.start == child.start
}

/// Says whether a process is of a child's session and has the variables of a method.
fn is_marked(process: &Process, child: &Child) -> bool
    ensures { result ≡ is_marked child.now process.now }
{
    process.session == child.number && process.is_method
}

fn any_number(child: &Child, processes: &[Process]) -> bool
    ensures { result ≡ list_any (has_number child.now) processes.now }
{
    processes.iter().any(|process| has_number(process, child))
}

fn any_child(child: &Child, processes: &[Process]) -> bool
    ensures { result ≡ list_any (is_child child.now) processes.now }
{
    processes.iter().any(|process| is_child(process, child))
}

fn any_marked(child: &Child, processes: &[Process]) -> bool
    ensures { result ≡ list_any (is_marked child.now) processes.now }
{
    processes.iter().any(|process| is_marked(process, child))
}

/// Says whether the session of a child's number is this child's. If a process has the number, it must be the child's
/// first one. If none has, one of the session must have the variables of a method.
fn is_held(child: &Child, processes: &[Process]) -> bool
    ensures { result ≡ is_held processes.now child.now }
{
    if any_number(child, processes) {
        return any_child(child, processes);
    }
    any_marked(child, processes)
}

/// Says whether a process is in the session of a child.
fn is_member(process: &Process, child: &Child, processes: &[Process]) -> bool
    ensures { result ≡ is_member processes.now process.now child.now }
{
    process.session == child.number && is_held(child, processes)
}

fn any_member(process: &Process, children: &[Child], processes: &[Process]) -> bool
    ensures { result ≡ list_any (is_member processes.now process.now) children.now }
{
    children
        .iter()
        .any(|child| is_member(process, child, processes))
}

/// Says whether a process is left of children.
fn is_left(process: &Process, children: &[Child], processes: &[Process]) -> bool
    ensures { result ≡ is_left children.now processes.now process.now }
{
    if process.has_ended || process.group < 2 {
        return false;
    }
    any_member(process, children, processes)
}

/// The processes that are left of children.
pub(crate) fn left_of(
    alloc: Global,
    children: &[Child],
    processes: &[Process],
) -> Result<Vec<Process>, AllocError>
    ensures { IfOk result (λ left. left.items ≡ left_of children.now processes.now) }
{
    processes
        .iter()
        .copied()
        .filter(|process| is_left(process, children, processes))
        .collect(alloc)
}
