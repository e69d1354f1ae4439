// Changes of a table's lists, for which room was made before.
ghost use Rattle.std.specs.Prelude.{◌≡◌, ◌+◌, ◌*◌, ◌<◌, ◌≤◌, OnOk, OnErr, true, false, length, map};
ghost use Rattle.smf_contract.specs.Entries.{has_room, has_members};
ghost use Rattle.smf_contract.specs.Calls.{exits, emptied_by_force, one_exit, all_exit, failure_kind, activity_after_end, ended_one_with, ended_with, ends_with, given_up, earlier, later};

use crate::book::Book;
use crate::contract::{Contract, Holder, Member};
use crate::event::{EventKind, Exit, Failure};
use crate::lookup::is_held_by;
use crate::members::Members;
use crate::past::Past;
use smf_fmri::Number;
use std::alloc::AllocError;

/// Makes room for any call. If memory runs out, room was missing.
pub(crate) fn make_room(
    book: &mut Book,
    members: &mut Members,
    events: &mut Past,
) -> Result<(), AllocError>
    ensures contracts { book.new.contracts ≡ book.old.contracts }
    ensures last { book.new.last ≡ book.old.last }
    ensures members { members.new.members ≡ members.old.members }
    ensures last_process { members.new.last ≡ members.old.last }
    ensures events { events.new.events ≡ events.old.events }
    ensures one_contract { OnOk result (length book.new.contracts < book.new.fit) }
    ensures one_member { OnOk result (length members.new.members < members.new.fit) }
    ensures all_events { OnOk result
        (length events.new.events + (2 * length members.new.members + 3) ≤ events.new.fit) }
    ensures err { OnErr result
        (has_room (length book.old.contracts) book.old.fit (length members.old.members) members.old.fit
        (length events.old.events) events.old.fit ≡ false) }
{
    book.reserve()?;
    members.reserve()?;
    events.reserve(2 * members.len() + 3)
}

/// Notes that the members of a contract are killed.
pub(crate) fn note_exits(members: &[Member], events: &mut Past, contract: Number)
    requires { length events.old.events + length members.now ≤ events.old.fit }
    ensures exits { events.new.events ≡ exits events.old.events contract (map (λ m. m.process) members.now) }
    ensures len { length events.new.events ≡ length events.old.events + length members.now }
    ensures capacity { events.old.fit ≤ events.new.fit }
{
    let mut others = members.len();
    for m in members {
        others -= 1;
        let exit = EventKind::Exit(m.process, Exit::Killed);
        events.note(contract, exit, others > 0);
    }
}

pub(crate) fn kind_of(failure: Failure, process: Number) -> EventKind
    ensures { result ≡ failure_kind failure process }
{
    match failure {
        Failure::Core => EventKind::Core(process),
        Failure::Signal => EventKind::Signal(process),
        Failure::Hwerr => EventKind::Hwerr(process),
    }
}

/// Kills all members of a contract.
#[tactic(auto, using(crate::proofs::Parts::parts, crate::proofs::Parts::some))]
pub(crate) fn empty_by_force(members: &mut Members, events: &mut Past, contract: Number)
    requires { length events.old.events + length members.old.members < events.old.fit }
    ensures emptied { emptied_by_force contract (record { members = members.old.members; events = events.old.events })
        ≡ record { members = members.new.members; events = events.new.events } }
    ensures size { has_members contract members.old.members ≡ true
        → length events.new.events + 2 * length members.new.members
        ≤ length events.old.events + 2 * length members.old.members }
    ensures capacity { events.old.fit ≤ events.new.fit }
    ensures last { members.new.last ≡ members.old.last }
{
    note_exits(members.members_of(contract), events, contract);
    members.remove_all(contract);
    events.note(contract, EventKind::Empty, false);
}

/// Ends one member.
pub(crate) fn exit_one(
    members: &mut Members,
    events: &mut Past,
    contract: Number,
    process: Number,
    exit: Exit,
)
    requires { length events.old.events + 2 ≤ events.old.fit }
    ensures exit { one_exit contract process exit (record { members = members.old.members; events = events.old.events })
        ≡ record { members = members.new.members; events = events.new.events } }
    ensures last { members.new.last ≡ members.old.last }
{
    members.remove(process);
    let left = members.has_members(contract);
    events.note(contract, EventKind::Exit(process, exit), left);
    if !left {
        events.note(contract, EventKind::Empty, false);
    }
}

/// Ends one member, and the others after it.
pub(crate) fn exit_all(members: &mut Members, events: &mut Past, contract: Number, process: Number)
    requires { length events.old.events + length members.old.members + 2 ≤ events.old.fit }
    ensures exits { all_exit contract process (record { members = members.old.members; events = events.old.events })
        ≡ record { members = members.new.members; events = events.new.events } }
    ensures last { members.new.last ≡ members.old.last }
{
    members.remove(process);
    let left = members.has_members(contract);
    let exit = EventKind::Exit(process, Exit::Killed);
    events.note(contract, exit, left);
    empty_by_force(members, events, contract);
}

/// True if the members of a contract end when an actor is gone.
pub(crate) fn ends_with(contract: &Contract, actor: u64) -> bool
    ensures { result ≡ ends_with actor contract.now }
{
    is_held_by(contract.holder, actor) && !contract.terms.inherit && contract.terms.noorphan
}

/// Ends the members of a contract, if it has any.
pub(crate) fn end_members(members: &mut Members, events: &mut Past, contract: Number)
    requires { length events.old.events + 2 * length members.old.members < events.old.fit }
    ensures ended { activity_after_end contract (record { members = members.old.members; events = events.old.events })
        ≡ record { members = members.new.members; events = events.new.events } }
    ensures size { length events.new.events + 2 * length members.new.members ≤ length events.old.events
        + 2 * length members.old.members }
    ensures capacity { events.old.fit ≤ events.new.fit }
    ensures last { members.new.last ≡ members.old.last }
{
    if members.has_members(contract) {
        empty_by_force(members, events, contract);
    }
}

/// Ends the members of a contract, if they end when an actor is gone.
pub(crate) fn end_one_with(
    contract: &Contract,
    members: &mut Members,
    events: &mut Past,
    actor: u64,
)
    requires { length events.old.events + 2 * length members.old.members < events.old.fit }
    ensures ended { ended_one_with actor contract.now
        (record { members = members.old.members; events = events.old.events })
        ≡ record { members = members.new.members; events = events.new.events } }
    ensures size { length events.new.events + 2 * length members.new.members ≤ length events.old.events
        + 2 * length members.old.members }
    ensures capacity { events.old.fit ≤ events.new.fit }
    ensures last { members.new.last ≡ members.old.last }
{
    if ends_with(contract, actor) {
        end_members(members, events, contract.id);
    }
}

/// Ends all members that end when an actor is gone.
pub(crate) fn end_with(contracts: &[Contract], members: &mut Members, events: &mut Past, actor: u64)
    requires { length events.old.events + 2 * length members.old.members < events.old.fit }
    ensures ended { ended_with actor contracts.now
        (record { members = members.old.members; events = events.old.events })
        ≡ record { members = members.new.members; events = events.new.events } }
    ensures last { members.new.last ≡ members.old.last }
{
    for c in contracts {
        end_one_with(c, members, events, actor);
    }
}

/// The contract as it is after an actor is gone.
pub(crate) fn given_up(contract: Contract, actor: u64) -> Contract
    ensures { result ≡ given_up actor contract }
{
    if !is_held_by(contract.holder, actor) {
        return contract;
    }
    let holder = if contract.terms.inherit {
        Holder::Inherited
    } else {
        Holder::Abandoned
    };
    Contract { holder, ..contract }
}

/// Gives up the contracts that an actor holds.
pub(crate) fn give_up(contracts: &mut [Contract], actor: u64)
    ensures { contracts.new ≡ map (given_up actor) contracts.old }
{
    for c in contracts.iter_mut() {
        *c = given_up(*c, actor);
    }
}

pub(crate) fn earlier(a: Number, b: Number) -> Number
    ensures { result ≡ earlier a b }
{
    if b.get() < a.get() { b } else { a }
}

pub(crate) fn later(a: Number, b: Number) -> Number
    ensures { result ≡ later a b }
{
    if a.get() < b.get() { b } else { a }
}
