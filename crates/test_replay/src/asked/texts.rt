use smf_contract::{ContractEvent, EventKind, Exit};
use smf_edge::KidsFault;
use std::io;

pub(crate) fn fault_text(fault: KidsFault) -> &'static str {
    match fault {
        KidsFault::Refused => "refused",
        KidsFault::NotFollowed => "not followed",
        KidsFault::NoChild => "no member",
        KidsFault::NotHere => "not here",
        KidsFault::Memory => "no memory",
        KidsFault::Device => "device failed",
    }
}

fn left_text(left: bool) -> &'static str {
    if left { "left" } else { "none" }
}

/// Prints an event: its contract, what it is, and whether a member is left.
pub(crate) fn print_event(rt: &HostRuntime, event: &ContractEvent) -> io::Result<()> {
    let id = event.contract.get();
    let left = left_text(event.left);
    match event.kind {
        EventKind::Empty => println!(rt; "{id} empty"),
        EventKind::Fork(_) => println!(rt; "{id} fork {left}"),
        EventKind::Exit(_, Exit::Code(code)) => println!(rt; "{id} exit {code} {left}"),
        EventKind::Exit(_, Exit::Killed) => println!(rt; "{id} killed {left}"),
        EventKind::Core(_) => println!(rt; "{id} core {left}"),
        EventKind::Signal(_) => println!(rt; "{id} signal {left}"),
        EventKind::Hwerr(_) => println!(rt; "{id} hwerr {left}"),
    }
}
