ghost use Rattle.std.specs.Prelude.{◌≡◌, ◌≤◌, ◌||◌, ◌&&◌, not, List, [], ◌∷◌, Option, None, Some, length, map, nat_lt, false, true, IfErr, IfOk, OnErr, OnOk};
ghost use Rattle.smf_script.specs.Agrees.{AgreesSince, Before};
ghost use Rattle.smf_script.specs.Moves.{Moves};
ghost use Rattle.smf_edge.specs.Starts.{log_with};
ghost use Rattle.smf_node.specs.declared.fault.NodeFault.TheVariants as nodes;
ghost use Rattle.smf_script.specs.declared.fault.ScriptFault.TheVariants as scripts;
ghost use Rattle.smf_server.specs.Turns.{GoFails, GoesBy, GoesIf, GoingFails, HasGone, HasLooked, HasPassed, HasTakenTurn, HasTimed, HasTried, HasTurned, IsFailed, IsTick, IsToldOf, IsTurn, LookFails, LooksIf, PassFails, StillWatches, TickFails, TimingFails, TryFails, between, is_busy, hasty_at, max_rounds, noticed_at, remedies_at, shown_of, wants_look};
ghost use Rattle.smf_watch.specs.Troubles.{noticed};
ghost use Rattle.smf_watch.specs.Sizes.{is_same, size_of};
ghost use Rattle.smf_watch.specs.Traffic.{Asked, LeavesNoMore, Passed, RepliesLast, Told, reply_in};
ghost use Rattle.smf_world.specs.Reached.{IsLater};
ghost use Rattle.smf_past.specs.Begun.{IsSafeSince};

use crate::fault_texts::add_fault;
use crate::server::Server;
use smf_edge::Kids;
use smf_fmri::{Items, Text};
use smf_model::Journal;
use smf_node::{Node, NodeFault};
use smf_script::{ScriptFault, drive, fault_text, run_script};
use smf_watch::{
    Desk, Ender, Found, Onward, Remedy, ServerInput, Size, Timer, hear_all, is_same, lines_of,
    remedy_all, size_of,
};
use smf_world::Settled;
use std::alloc::{AllocError, Global};
use std::time::Duration;

/// The most rounds before it is looked what comes next.
const ROUNDS: u64 = 20;

/// The status of a request that was ended by a fault.
const FAULT: u8 = 3;

fn is_busy(how: Settled) -> bool
    ensures { result ≡ is_busy how }
{
    match how {
        Settled::Quiet => false,
        Settled::Busy => true,
    }
}

/// Lets at most so many rounds happen, and looks which methods run then.
fn go<T: Timer, J: Journal, K: Kids>(
    alloc: Global,
    timer: &T,
    server: &mut Server<J, K>,
    rounds: u64,
) -> Result<(), NodeFault>
    ensures gone { OnOk result (HasGone K.skills (T.says timer.now) rounds (between K.ledger K.failures server.old).standing (between K.ledger K.failures server.new).standing) }
    ensures failed { IfErr result
        (GoFails K.skills J.write_fails rounds (between K.ledger K.failures server.old).standing.course (between K.ledger K.failures server.new).standing.course) }
    ensures moves { Moves server.old.node.world server.new.node.world (K.ledger server.old.kids)
        (K.ledger server.new.kids) }
    ensures watches { StillWatches (T.says timer.now) (between K.ledger K.failures server.old).standing (between K.ledger K.failures server.new).standing }
    ensures kept { server.new.troubles ≡ server.old.troubles }
    ensures noted { server.new.noted ≡ server.old.noted }
{
    let how = drive(&mut server.node, &mut server.kids, rounds)?;
    let now = timer.now();
    server.watch.see(alloc, now, &server.node)?;
    server.busy = is_busy(how);
    Ok(())
}

/// Rounds happen if they are wanted.
fn go_if<T: Timer, J: Journal, K: Kids>(
    alloc: Global,
    timer: &T,
    server: &mut Server<J, K>,
    wanted: bool,
) -> Result<(), NodeFault>
    ensures gone { OnOk result (GoesIf wanted K.skills (T.says timer.now) (between K.ledger K.failures server.old).standing (between K.ledger K.failures server.new).standing) }
    ensures failed { IfErr result (λ e. (wanted ≡ true)
        × GoFails K.skills J.write_fails max_rounds (between K.ledger K.failures server.old).standing.course (between K.ledger K.failures server.new).standing.course e) }
    ensures moves { Moves server.old.node.world server.new.node.world (K.ledger server.old.kids)
        (K.ledger server.new.kids) }
    ensures watches { StillWatches (T.says timer.now) (between K.ledger K.failures server.old).standing (between K.ledger K.failures server.new).standing }
    ensures kept { server.new.troubles ≡ server.old.troubles }
    ensures noted { server.new.noted ≡ server.old.noted }
{
    if wanted {
        go(alloc, timer, server, ROUNDS)
    } else {
        Ok(())
    }
}

/// True if more rounds are wanted, and a round came to anything.
fn wants_more(busy: bool, before: &Size, after: &Size) -> bool
    ensures { result ≡ (busy && not (is_same before.now after.now)) }
{
    busy && !is_same(before, after)
}

/// One round happens, and more if they are wanted and it came to anything. A kill that is owed comes to nothing until
/// it is done.
fn go_on<T: Timer, J: Journal, K: Kids>(
    alloc: Global,
    timer: &T,
    server: &mut Server<J, K>,
) -> Result<(), NodeFault>
    ensures gone { OnOk result (HasTried K.skills (T.says timer.now) (between K.ledger K.failures server.old).standing (between K.ledger K.failures server.new).standing) }
    ensures failed { IfErr result
        (TryFails K.skills (T.says timer.now) J.write_fails (between K.ledger K.failures server.old).standing (between K.ledger K.failures server.new).standing.course) }
    ensures moves { Moves server.old.node.world server.new.node.world (K.ledger server.old.kids)
        (K.ledger server.new.kids) }
    ensures watches { StillWatches (T.says timer.now) (between K.ledger K.failures server.old).standing (between K.ledger K.failures server.new).standing }
    ensures kept { server.new.troubles ≡ server.old.troubles }
    ensures noted { server.new.noted ≡ server.old.noted }
{
    let before = size_of(&server.node);
    go(alloc, timer, server, 1)?;
    let after = size_of(&server.node);
    let wanted = wants_more(server.busy, &before, &after);
    go_if(alloc, timer, server, wanted)?;
    Ok(())
}

/// Rounds happen if anything happened, or if more were wanted.
fn go_by<T: Timer, J: Journal, K: Kids>(
    alloc: Global,
    timer: &T,
    server: &mut Server<J, K>,
    happened: bool,
) -> Result<(), NodeFault>
    ensures gone { OnOk result
        (GoesBy happened server.old.busy K.skills (T.says timer.now) (between K.ledger K.failures server.old).standing (between K.ledger K.failures server.new).standing) }
    ensures failed { IfErr result
        (GoingFails happened server.old.busy K.skills (T.says timer.now) J.write_fails (between K.ledger K.failures server.old).standing (between K.ledger K.failures server.new).standing.course) }
    ensures moves { Moves server.old.node.world server.new.node.world (K.ledger server.old.kids)
        (K.ledger server.new.kids) }
    ensures watches { StillWatches (T.says timer.now) (between K.ledger K.failures server.old).standing (between K.ledger K.failures server.new).standing }
    ensures kept { server.new.troubles ≡ server.old.troubles }
    ensures noted { server.new.noted ≡ server.old.noted }
{
    if happened {
        return go(alloc, timer, server, ROUNDS);
    }
    if server.busy {
        return go_on(alloc, timer, server);
    }
    Ok(())
}

/// Methods that take too long time out, and then rounds happen if anything happened, or if more were wanted.
fn time_out<T: Timer, J: Journal, K: Kids>(
    alloc: Global,
    timer: &T,
    server: &mut Server<J, K>,
    any: bool,
) -> Result<(), NodeFault>
    ensures timed { OnOk result (HasTimed K.skills (T.says timer.now) any (between K.ledger K.failures server.old).standing (between K.ledger K.failures server.new).standing) }
    ensures failed { IfErr result
        (TimingFails K.skills (T.says timer.now) J.write_fails any (between K.ledger K.failures server.old).standing (between K.ledger K.failures server.new).standing.course) }
    ensures moves { Moves server.old.node.world server.new.node.world (K.ledger server.old.kids)
        (K.ledger server.new.kids) }
    ensures watches { StillWatches (T.says timer.now) (between K.ledger K.failures server.old).standing (between K.ledger K.failures server.new).standing }
    ensures kept { server.new.troubles ≡ server.old.troubles }
    ensures noted { server.new.noted ≡ server.old.noted }
{
    let now = timer.now();
    let late = server.watch.time_out(now, &mut server.node)?;
    let happened = has_happened(any, late);
    go_by(alloc, timer, server, happened)?;
    Ok(())
}

/// True if anything happened: children told something, or methods timed out.
fn has_happened(any: bool, late: bool) -> bool
    ensures { result ≡ (any || late) }
{
    any || late
}

/// Time has passed: children tell what happened, and methods that take too long time out. Rounds happen only if there
/// was anything of this, or if more were wanted.
fn pass<T: Timer, J: Journal, K: Kids>(
    alloc: Global,
    timer: &T,
    server: &mut Server<J, K>,
) -> Result<(), NodeFault>
    ensures passed { OnOk result (HasPassed K.skills (T.says timer.now) (between K.ledger K.failures server.old).standing (between K.ledger K.failures server.new).standing) }
    ensures failed { IfErr result
        (PassFails K.skills (T.says timer.now) J.write_fails (between K.ledger K.failures server.old).standing (between K.ledger K.failures server.new).standing.course) }
    ensures moves { Moves server.old.node.world server.new.node.world (K.ledger server.old.kids)
        (K.ledger server.new.kids) }
    ensures watches { StillWatches (T.says timer.now) (between K.ledger K.failures server.old).standing (between K.ledger K.failures server.new).standing }
    ensures kept { server.new.troubles ≡ server.old.troubles }
    ensures noted { server.new.noted ≡ server.old.noted }
{
    let any = hear_all(&mut server.node, &mut server.kids)?;
    time_out(alloc, timer, server, any)?;
    Ok(())
}

/// True if rounds were wanted before, or if instances are marked or cleared.
fn is_busy_with(busy: bool, remedies: &[Remedy]) -> bool
    ensures { result ≡ (busy || nat_lt 0 (length remedies.now)) }
{
    busy || 0 < remedies.len()
}

/// What a look at the trail finds now.
fn find<J: Journal, K: Kids>(
    alloc: Global,
    now: Duration,
    server: &Server<J, K>,
) -> Result<Found, AllocError>
    ensures numbers { IfOk result
        (λ found. found.numbers ≡ hasty_at now (between K.ledger K.failures server.now)) }
    ensures remedies { IfOk result
        (λ found. found.remedies.items ≡ remedies_at now (between K.ledger K.failures server.now)) }
    ensures looked { IfOk result (λ found. found.left.looked ≡ length (shown_of server.now.node.world)) }
    ensures kept { IfOk result
        (λ found. noticed found.left ≡ noticed_at now (between K.ledger K.failures server.now)) }
{
    let trail = server.node.trail();
    let repository = server.node.repository();
    let table = server.node.table();
    let found = server.troubles.look(alloc, now, trail, repository, table)?;
    Ok(found)
}

/// Looks at what is new in the trail, marks the instances that ended too often for maintenance, and clears those that are
/// tried again now. Gives what is told of the first. After a fault the next look is at the same items again.
fn look<T: Timer, J: Journal, K: Kids>(
    alloc: Global,
    timer: &T,
    server: &mut Server<J, K>,
) -> Result<Items<Text>, NodeFault>
    ensures looked { IfOk result (HasLooked (T.says timer.now) (between K.ledger K.failures server.old) (between K.ledger K.failures server.new)) }
    ensures failed { IfErr result (LookFails (T.says timer.now) J.write_fails (between K.ledger K.failures server.old) (between K.ledger K.failures server.new).standing.course) }
    ensures agrees { (b : Before) → AgreesSince b server.old.node.world (K.ledger server.old.kids)
        → AgreesSince b server.new.node.world (K.ledger server.new.kids) }
    ensures later { IsLater server.old.node.world server.new.node.world }
    ensures watches { StillWatches (T.says timer.now) (between K.ledger K.failures server.old).standing (between K.ledger K.failures server.new).standing }
    ensures kept { OnErr result (server.new.troubles ≡ server.old.troubles) }
    ensures noted { server.new.noted ≡ server.old.noted }
{
    let now = timer.now();
    let found = find(alloc, now, server)?;
    let numbers = found.numbers.as_slice();
    let lines = lines_of(alloc, &server.node, numbers)?;
    let remedies = found.remedies.as_slice();
    remedy_all(&mut server.node, remedies)?;
    server.busy = is_busy_with(server.busy, remedies);
    server.troubles = found.left;
    Ok(lines)
}

/// True if the trail shows anything new.
pub(crate) fn has_more<J: Journal, K: Kids>(server: &Server<J, K>) -> bool
    ensures { result ≡ nat_lt server.now.troubles.looked (length (shown_of server.now.node.world)) }
{
    server.troubles.looked < server.node.trail().len()
}

/// True if it is to be looked at the trail: it shows anything new, or an instance waits for a retry.
fn wants_look<J: Journal, K: Kids>(server: &Server<J, K>) -> bool
    ensures { result ≡ wants_look (between K.ledger K.failures server.now) }
{
    has_more(server) || server.troubles.any_waits()
}

/// Looks at the trail, if that is wanted.
fn look_if<T: Timer, J: Journal, K: Kids>(
    alloc: Global,
    timer: &T,
    server: &mut Server<J, K>,
) -> Result<Items<Text>, NodeFault>
    ensures looked { IfOk result
        (LooksIf (wants_look (between K.ledger K.failures server.old)) (T.says timer.now) (between K.ledger K.failures server.old) (between K.ledger K.failures server.new)) }
    ensures failed { IfErr result (LookFails (T.says timer.now) J.write_fails (between K.ledger K.failures server.old) (between K.ledger K.failures server.new).standing.course) }
    ensures agrees { (b : Before) → AgreesSince b server.old.node.world (K.ledger server.old.kids)
        → AgreesSince b server.new.node.world (K.ledger server.new.kids) }
    ensures later { IsLater server.old.node.world server.new.node.world }
    ensures watches { StillWatches (T.says timer.now) (between K.ledger K.failures server.old).standing (between K.ledger K.failures server.new).standing }
    ensures kept { OnErr result (server.new.troubles ≡ server.old.troubles) }
    ensures noted { server.new.noted ≡ server.old.noted }
{
    if wants_look(server) {
        look(alloc, timer, server)
    } else {
        Ok(Items::new(alloc))
    }
}

/// Time has passed: what happened is done, the instances that ended too often are marked for maintenance, and those that
/// are tried again are cleared. Gives what is told of the first.
fn tick<T: Timer, J: Journal, K: Kids>(
    alloc: Global,
    timer: &T,
    server: &mut Server<J, K>,
) -> Result<Items<Text>, NodeFault>
    ensures ticked { IfOk result (IsTick K.skills (T.says timer.now) (between K.ledger K.failures server.old) (between K.ledger K.failures server.new)) }
    ensures failed { IfErr result (TickFails K.skills (T.says timer.now) J.write_fails (between K.ledger K.failures server.old) (between K.ledger K.failures server.new).standing.course) }
    ensures agrees { (b : Before) → AgreesSince b server.old.node.world (K.ledger server.old.kids)
        → AgreesSince b server.new.node.world (K.ledger server.new.kids) }
    ensures later { IsLater server.old.node.world server.new.node.world }
    ensures watches { StillWatches (T.says timer.now) (between K.ledger K.failures server.old).standing (between K.ledger K.failures server.new).standing }
    ensures kept { OnErr result (server.new.troubles ≡ server.old.troubles) }
    ensures noted { server.new.noted ≡ server.old.noted }
{
    pass(alloc, timer, server)?;
    let lines = look_if(alloc, timer, server)?;
    Ok(lines)
}

/// Tells lines to whoever runs the server.
fn tell_all<D: Desk>(desk: &mut D, lines: &[Text])
    ensures passed { D.passed desk.new ≡ log_with (map Told lines.now) (D.passed desk.old) }
    ensures leaves { LeavesNoMore (D.leaves desk.old) (D.leaves desk.new) }
{
    for line in lines {
        desk.tell(line.as_str());
    }
}

/// Tells all of these.
fn tell_each<D: Desk>(desk: &mut D, lines: &Items<Text>)
    ensures passed { D.passed desk.new ≡ log_with (map Told lines.now) (D.passed desk.old) }
    ensures leaves { LeavesNoMore (D.leaves desk.old) (D.leaves desk.new) }
{
    tell_all(desk, lines.as_slice());
}

/// True if all restarters are launched and wait for nothing but methods that run.
fn rests<J: Journal>(node: &Node<J>) -> Result<bool, AllocError> {
    if !node.has_all_owners()? {
        return Ok(false);
    }
    for name in node.launched_names()?.as_slice() {
        if let Some(restarter) = node.restarter(name) {
            if !restarter.is_at_rest() {
                return Ok(false);
            }
        }
    }
    Ok(true)
}

/// True if rounds are wanted after a request: if anything came of it, or restarters have something to do.
fn wants_rounds<J: Journal>(node: &Node<J>, before: &Size) -> bool
    ensures { is_same before.now (size_of node.now.world) ≡ false → result ≡ true }
{
    let after = size_of(node);
    if !is_same(before, &after) {
        return true;
    }
    match rests(node) {
        Ok(rests) => !rests,
        Err(_) => true,
    }
}

/// Replies to the request that was given last. A crash from now on leaves what the node's repository holds.
fn reply<D: Desk, J: Journal>(desk: &mut D, node: &Node<J>, text: &[u8], status: u8) -> bool
    ensures passed { D.passed desk.new
        ≡ log_with (reply_in result text.now status node.now.world.now ∷ []) (D.passed desk.old) }
    ensures lasts { RepliesLast (D.leaves desk.old) (D.leaves desk.new) }
{
    let repository = node.repository();
    let _journal = repository.journal();
    desk.reply(repository, text, status)
}

/// Replies to a request that was ended by a fault, and adds the text of the fault. It is told alone if there is no memory
/// for both.
fn reply_fault<D: Desk, J: Journal>(
    desk: &mut D,
    node: &Node<J>,
    text: Vec<u8>,
    fault: &ScriptFault,
)
    ensures told { IsToldOf fault.now text.items node.now.world.now (D.passed desk.old) (D.passed desk.new) }
    ensures lasts { RepliesLast (D.leaves desk.old) (D.leaves desk.new) }
{
    let mut text = text;
    match add_fault(&mut text, fault) {
        Ok(()) => {
            let _is_written = reply(desk, node, &text, FAULT);
        }
        Err(_) => {
            let _is_written = reply(desk, node, fault_text(fault).as_bytes(), FAULT);
        }
    }
}

/// A request is done, and replied to; then rounds happen, if anything came of it.
fn answer<D: Desk, T: Timer, J: Journal, K: Kids>(
    alloc: Global,
    desk: &mut D,
    timer: &T,
    server: &mut Server<J, K>,
    request: &[u8],
) -> Result<(), ScriptFault>
    ensures ok { OnOk result ((before : Option (List Passed))
        → D.passed desk.old ≡ log_with (Asked request.now ∷ []) before
        → IsTurn K.skills (T.says timer.now) before (D.passed desk.new) (between K.ledger K.failures server.old) (between K.ledger K.failures server.new)) }
    ensures err { IfErr result (λ e. (before : Option (List Passed))
        → D.passed desk.old ≡ log_with (Asked request.now ∷ []) before
        → IsFailed K.skills (T.says timer.now) J.write_fails e before (D.passed desk.new) (between K.ledger K.failures server.old) (between K.ledger K.failures server.new)) }
    ensures agrees { (b : Before) → OnOk result (
        AgreesSince b server.old.node.world (K.ledger server.old.kids)
        → AgreesSince b server.new.node.world (K.ledger server.new.kids)) }
    ensures later { IsLater server.old.node.world server.new.node.world }
    ensures lasts { RepliesLast (D.leaves desk.old) (D.leaves desk.new) }
{
    let before = size_of(&server.node);
    let mut text: Vec<u8> = Vec::new(alloc);
    let mut lines = request;
    match run_script(
        alloc,
        &mut lines,
        &mut text,
        &mut server.node,
        &mut server.kids,
    ) {
        Ok(status) => {
            let _is_written = reply(desk, &server.node, &text, status);
            let wanted = wants_rounds(&server.node, &before);
            match go_if(alloc, timer, server, wanted) {
                Ok(()) => Ok(()),
                Err(fault) => Err(ScriptFault::Node(fault)),
            }
        }
        Err(fault) => {
            reply_fault(desk, &server.node, text, &fault);
            Err(fault)
        }
    }
}

/// Does the next ask of the desk.
fn do_next<D: Desk, T: Timer, J: Journal, K: Kids>(
    alloc: Global,
    desk: &mut D,
    timer: &T,
    server: &mut Server<J, K>,
) -> Result<Onward, ScriptFault>
    ensures ok { IfOk result (λ onward.
        HasTurned K.skills (T.says timer.now) J.write_fails onward None (D.passed desk.old) (D.passed desk.new) (between K.ledger K.failures server.old) (between K.ledger K.failures server.new)) }
    ensures err { IfErr result (λ e.
        IsFailed K.skills (T.says timer.now) J.write_fails e (D.passed desk.old) (D.passed desk.new) (between K.ledger K.failures server.old) (between K.ledger K.failures server.new)) }
    ensures agrees { (b : Before) → OnOk result (
        AgreesSince b server.old.node.world (K.ledger server.old.kids)
        → AgreesSince b server.new.node.world (K.ledger server.new.kids)) }
    ensures later { IsLater server.old.node.world server.new.node.world }
    ensures lasts { RepliesLast (D.leaves desk.old) (D.leaves desk.new) }
{
    match desk.next() {
        ServerInput::Tick => match tick(alloc, timer, server) {
            Ok(lines) => {
                tell_each(desk, &lines);
                Ok(Onward::Goes)
            }
            Err(fault) => Err(ScriptFault::Node(fault)),
        },
        ServerInput::Request(request) => match answer(
            alloc,
            desk,
            timer,
            server,
            request.as_slice(),
        ) {
            Ok(()) => Ok(Onward::Goes),
            Err(fault) => Err(fault),
        },
        ServerInput::End => Ok(Onward::Ends),
        ServerInput::Leave => Ok(Onward::Leaves),
    }
}

/// A turn that was taken, or one that failed: whether there is a next one, and the fault.
#[derive(Drop)]
pub struct Turned {
    pub onward: Onward,
    pub fault: Option<ScriptFault>,
}

/// Does the next ask of the desk, and looks at the trail. After a fault rounds are wanted, so that the next tick tries
/// again.
fn take<D: Desk, T: Timer, J: Journal, K: Kids>(
    alloc: Global,
    desk: &mut D,
    timer: &T,
    server: &mut Server<J, K>,
) -> Turned
    ensures turned { HasTurned K.skills (T.says timer.now) J.write_fails result.onward result.fault (D.passed desk.old) (D.passed desk.new) (between K.ledger K.failures server.old) (between K.ledger K.failures server.new) }
    ensures agrees { (b : Before) → result.fault ≡ None
        → AgreesSince b server.old.node.world (K.ledger server.old.kids)
        → AgreesSince b server.new.node.world (K.ledger server.new.kids) }
    ensures later { IsLater server.old.node.world server.new.node.world }
    ensures lasts { RepliesLast (D.leaves desk.old) (D.leaves desk.new) }
    ensures safe { IsSafeSince server.new.node.world }
{
    let how = do_next(alloc, desk, timer, server);
    let _shown = server.node.trail();
    match how {
        Ok(onward) => Turned {
            onward,
            fault: None,
        },
        Err(fault) => {
            server.busy = true;
            Turned {
                onward: Onward::Goes,
                fault: Some(fault),
            }
        }
    }
}

/// Takes the next ask of the desk, and does nothing of it, since memory ran out. A request gets a reply that says so.
fn pass_over<D: Desk, T: Timer, J: Journal, K: Kids>(
    alloc: Global,
    desk: &mut D,
    _timer: &T,
    server: &mut Server<J, K>,
) -> Onward
    ensures turned { HasTurned K.skills (T.says _timer.now) J.write_fails result (Some (scripts.Node nodes.Memory)) (D.passed desk.old) (D.passed desk.new) (between K.ledger K.failures server.old) (between K.ledger K.failures server.new) }
    ensures node { server.new.node ≡ server.old.node }
    ensures lasts { RepliesLast (D.leaves desk.old) (D.leaves desk.new) }
{
    match desk.next() {
        ServerInput::Tick => {
            server.busy = true;
            Onward::Goes
        }
        ServerInput::Request(_request) => {
            let fault = ScriptFault::Node(NodeFault::Memory);
            reply_fault(desk, &server.node, Vec::new(alloc), &fault);
            server.busy = true;
            Onward::Goes
        }
        ServerInput::End => Onward::Ends,
        ServerInput::Leave => Onward::Leaves,
    }
}

/// Tells how contracts are kept, and then does the next ask of the desk: a tick, or a request, which gets a reply. A
/// fault leaves what was done before it. If memory ran out before that is told, nothing is done of the ask.
pub fn turn<D: Desk, T: Timer, E: Ender, J: Journal, K: Kids>(
    alloc: Global,
    desk: &mut D,
    timer: &T,
    ender: &mut E,
    server: &mut Server<J, K>,
) -> Turned
    // First it was told how contracts are kept, if anything happened since that was told. Then one request
    // came in, its lines were done, and its one reply went out; or time passed, and lines were told. If this failed, it was
    // by its own reason: the request got one reply, and nothing passed at a tick.
    ensures turned { HasTakenTurn K.skills (T.says timer.now) J.write_fails result.onward result.fault (D.passed desk.old)
        (D.passed desk.new) (E.told ender.old) (E.told ender.new) (between K.ledger K.failures server.old) (between K.ledger K.failures server.new) }
    // If children and the node agreed, they agree.
    ensures agrees { (b : Before) → result.fault ≡ None
        → AgreesSince b server.old.node.world (K.ledger server.old.kids)
        → AgreesSince b server.new.node.world (K.ledger server.new.kids) }
    // However it ends, what is held is what some events make of what was, and what the trail shows is what happened.
    ensures later { IsLater server.old.node.world server.new.node.world }
    // A crash at the moment of its reply leaves what is held then.
    ensures lasts { RepliesLast (D.leaves desk.old) (D.leaves desk.new) }
    ensures safe { IsSafeSince server.new.node.world }
{
    match server.noted.tell(alloc, ender, &server.node) {
        Ok(()) => take(alloc, desk, timer, server),
        Err(_) => {
            let onward = pass_over(alloc, desk, timer, server);
            let _shown = server.node.trail();
            Turned {
                onward,
                fault: Some(ScriptFault::Node(NodeFault::Memory)),
            }
        }
    }
}
