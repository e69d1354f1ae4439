//! A server from its boot to its end; or from the server before it to the one after it.
ghost use Rattle.std.specs.Option.{option_copied};
ghost use Rattle.std.specs.Prelude.{◌≡◌, ◌⊎◌, ℕ, drop, false, true, IfErr, IfOk, None, OnOk, Some};
ghost use Rattle.smf_contract.specs.Begun.{table_of_found};
ghost use Rattle.smf_contract.specs.declared.contract.Holder.TheVariants.{Held, Inherited};
ghost use Rattle.smf_script.specs.Agrees.{AgreesSince, Before, before_over};
ghost use Rattle.smf_script.specs.Forgets.{AgreesAnew};
ghost use Rattle.smf_edge.specs.Answers.{children_state};
ghost use Rattle.smf_edge.specs.Ledgers.{ledger_over};
ghost use Rattle.smf_node.specs.declared.fault.ContinueFault.TheVariants.{Foreign, Unfit};
ghost use Rattle.smf_node.specs.Faults.{IsUnbooted};
ghost use Rattle.smf_node.specs.FoundContracts.{are_fit, first_foreign};
ghost use Rattle.smf_script.specs.FaultTexts.{fault_text};
ghost use Rattle.smf_server.specs.Life.{EndsOrLeaves, HasConcluded, HasLived, HasStayed, IsUntouched, state_after_boot, state_after_find};
ghost use Rattle.smf_server.specs.Turns.{MayHaveForgotten, between, is_told, told_anew};
ghost use Rattle.smf_server.specs.declared.life.TheConstants.{MOST_TURNS};
ghost use Rattle.smf_past.specs.Lived.{continued};
ghost use Rattle.smf_past.specs.Lives.{LeadsTo};
ghost use Rattle.smf_past.specs.Begun.{IsSafeSince};
ghost use Rattle.smf_edge.specs.Starts.{log_with};
ghost use Rattle.smf_watch.specs.Traffic.{LeavesNoMore, RepliesLast};

use crate::server::Server;
use crate::turns::{Turned, has_more, turn};
use smf_contract::Found;
use smf_edge::Kids;
use smf_fmri::Number;
use smf_model::{Journal, Plain};
use smf_node::{ContinueFault, Node, NodeFault};
use smf_script::{Leftover, ScriptFault, end_all, fault_text, forget};
use smf_watch::{Chronicle, Desk, Ender, Onward, Retry, Timer};
use smf_world::Item;
use std::alloc::{AllocError, Global};

/// The most turns that a server takes, one of each microsecond of half a million years.
pub const MOST_TURNS: u64 = u64::MAX;

/// So many messages and items of the trail are kept, and as many more as there are instances, before they are forgotten.
const MOST_KEPT: usize = 10_000;

/// True if so much is kept that it is worth to forget it: to forget copies what is held.
fn has_gathered<J: Journal>(node: &Node<J>) -> bool {
    let kept = node.trail().len() / 2 + node.messages().len() / 2;
    MOST_KEPT < kept && node.repository().entries().len() < kept
}

/// Wants one more round, by which the graph sees what is held, unless the trail shows no more than when one was wanted
/// last.
fn want_round<J: Journal, K: Kids>(server: &mut Server<J, K>)
    ensures node { server.new.node ≡ server.old.node }
    ensures kids { server.new.kids ≡ server.old.kids }
    ensures troubles { server.new.troubles ≡ server.old.troubles }
    ensures watch { server.new.watch ≡ server.old.watch }
    ensures noted { server.new.noted ≡ server.old.noted }
    ensures busy { (server.new.busy ≡ server.old.busy) ⊎ (server.new.busy ≡ true) }
{
    let shown = server.node.trail().len();
    if server.rested != shown {
        server.rested = shown;
        server.busy = true;
    }
}

/// Forgets what was told and what is over, if much has gathered, nothing is under way, and the whole trail was looked at.
/// It may want one more round before that. If memory runs out it does nothing, and tries again after the next turn.
fn forget_if<J: Journal, K: Kids>(server: &mut Server<J, K>)
    ensures forgets { MayHaveForgotten
        (between K.ledger K.failures server.old)
        (between K.ledger K.failures server.new) }
    ensures agrees { (b : Before) → AgreesSince b server.old.node.world (K.ledger server.old.kids)
        → AgreesAnew server.new.node.world (K.ledger server.new.kids) }
    ensures safe { IsSafeSince server.new.node.world }
{
    let _shown = server.node.trail();
    if server.busy || has_more(server) || !has_gathered(&server.node) {
        return;
    }
    match forget(&mut server.node, &mut server.kids) {
        Ok(true) => server.troubles.looked = 0,
        Ok(false) => want_round(server),
        Err(_) => {}
    }
}

fn is_told(last: Option<&'static str>, words: &str) -> bool
    ensures { result ≡ is_told (option_copied last.entry) words.now }
{
    match last {
        Some(last) => last == words,
        None => false,
    }
}

/// Tells the fault of a turn, unless the turn before failed with the same. Gives its words.
fn tell_anew<D: Desk>(
    desk: &mut D,
    last: Option<&'static str>,
    fault: &ScriptFault,
) -> Option<&'static str>
    ensures told { D.passed desk.new
        ≡ log_with (told_anew (option_copied last.entry) (Some (fault_text fault.now))) (D.passed desk.old) }
    ensures words { option_copied result ≡ Some (fault_text fault.now) }
    ensures leaves { LeavesNoMore (D.leaves desk.old) (D.leaves desk.new) }
{
    let words = fault_text(fault);
    if !is_told(last, words) {
        desk.tell(words);
    }
    Some(words)
}

/// After a turn that was taken it may forget; after one that failed it tells the fault, and the next tick may come later.
/// Gives the words of the fault.
fn conclude<D: Desk, J: Journal, K: Kids>(
    desk: &mut D,
    server: &mut Server<J, K>,
    last: Option<&'static str>,
    fault: &Option<ScriptFault>,
) -> Option<&'static str>
    ensures concluded { HasConcluded fault.now (option_copied last.entry) (option_copied result) (D.passed desk.old) (D.passed desk.new)
        (between K.ledger K.failures server.old)
        (between K.ledger K.failures server.new) }
    ensures agrees { (b : Before) → AgreesSince b server.old.node.world (K.ledger server.old.kids)
        → AgreesAnew server.new.node.world (K.ledger server.new.kids) }
    ensures safe { IsSafeSince server.new.node.world }
    ensures leaves { LeavesNoMore (D.leaves desk.old) (D.leaves desk.new) }
{
    match fault {
        None => {
            forget_if(server);
            None
        }
        Some(fault) => {
            let _shown = server.node.trail();
            let words = tell_anew(desk, last, fault);
            desk.pause();
            words
        }
    }
}

/// What a trail shows after so many items.
fn items_after(trail: &[Item], count: usize) -> &[Item]
    ensures { result.now ≡ drop count trail.now }
{
    &trail[count.min(trail.len())..]
}

/// Takes turns until no more is asked, whatever fails. Tells what the trail shows, and after each turn what it added.
fn stay<D: Desk, C: Chronicle, T: Timer, E: Ender, J: Journal, K: Kids>(
    alloc: Global,
    desk: &mut D,
    chronicle: &mut C,
    timer: &T,
    ender: &mut E,
    server: &mut Server<J, K>,
) -> Onward
    ensures stayed { HasStayed K.skills (T.says timer.now) J.write_fails MOST_TURNS result (D.passed desk.old) (D.passed desk.new)
        (C.told chronicle.old) (C.told chronicle.new) (E.told ender.old) (E.told ender.new)
        (between K.ledger K.failures server.old)
        (between K.ledger K.failures server.new) }
    ensures leads { LeadsTo server.old.node.world server.new.node.world }
    ensures safe { IsSafeSince server.new.node.world }
    ensures lasts { RepliesLast (D.leaves desk.old) (D.leaves desk.new) }
{
    chronicle.tell(server.node.trail(), &server.node, &server.troubles.retries);
    let mut last: Option<&'static str> = None;
    for _ in 0..MOST_TURNS {
        let told = server.node.trail().len();
        let Turned { onward, fault } = turn(alloc, desk, timer, ender, server);
        match onward {
            Onward::Goes => {
                let items = items_after(server.node.trail(), told);
                chronicle.tell(items, &server.node, &server.troubles.retries);
                last = conclude(desk, server, last, &fault);
            }
            Onward::Ends | Onward::Leaves => return onward,
        }
    }
    Onward::Goes
}

/// Ends every child that is left, and says what is left then. If the services go on without this server it asks no
/// child anything, and there is nothing to say.
fn end_or_leave<K: Kids>(how: Onward, kids: &mut K) -> Option<Result<Leftover, AllocError>>
    ensures { EndsOrLeaves K.skills how result (children_state (K.ledger kids.old) (K.failures kids.old))
        (children_state (K.ledger kids.new) (K.failures kids.new)) }
{
    match how {
        Onward::Leaves => None,
        Onward::Ends | Onward::Goes => Some(end_all(kids)),
    }
}

/// The end of a server: how it ended, and the journal and the children that it leaves.
#[derive(Drop)]
pub struct Life<J: Journal, K: Kids> {
    /// `Ends` if no more was asked, and `Leaves` if the services go on without it.
    pub how: Onward,
    /// What children have left. `AllocError` if memory ran out when they were to end. None if the services go on: then
    /// no child was asked to end.
    pub left: Option<Result<Leftover, AllocError>>,
    pub journal: J,
    pub kids: K,
}

/// A server that could not boot: why, and the journal and the children as they were.
#[derive(Drop)]
pub struct Unborn<J: Journal, K: Kids> {
    pub fault: NodeFault,
    pub journal: J,
    pub kids: K,
}

/// A server that could not go on with the contracts that were found: why, and the journal and the children as they
/// were.
#[derive(Drop)]
pub struct Uncontinued<J: Journal, K: Kids> {
    pub fault: ContinueFault,
    pub journal: J,
    pub kids: K,
}

/// Takes turns, and ends all children that are left, unless the services go on.
fn live<D: Desk, C: Chronicle, T: Timer, E: Ender, J: Journal + Drop, K: Kids + Drop>(
    alloc: Global,
    desk: &mut D,
    chronicle: &mut C,
    timer: &T,
    ender: &mut E,
    server: Server<J, K>,
) -> Life<J, K>
    ensures lived { HasLived K.skills (T.says timer.now) J.write_fails J.stands MOST_TURNS result.how result.journal
        (D.passed desk.old) (D.passed desk.new) (C.told chronicle.old) (C.told chronicle.new)
        (E.told ender.old) (E.told ender.new) result.left
        (between K.ledger K.failures server)
        (children_state (K.ledger result.kids) (K.failures result.kids)) }
    ensures lasts { RepliesLast (D.leaves desk.old) (D.leaves desk.new) }
{
    let mut server = server;
    let how = stay(alloc, desk, chronicle, timer, ender, &mut server);
    let Server {
        node,
        mut kids,
        watch: _watch,
        busy: _,
        troubles: _troubles,
        noted: _noted,
        rested: _,
    } = server;
    let left = end_or_leave(how, &mut kids);
    Life {
        how,
        left,
        journal: node.into_repository().into_journal(),
        kids,
    }
}

/// Boots what a repository holds, takes turns until no more is asked, and ends all children that are left, unless the
/// services go on. What happens is told in its order, each item once, before it is forgotten. Without a boot it does
/// nothing.
pub fn stay_over<D: Desk, C: Chronicle, T: Timer, E: Ender, J: Journal + Drop, K: Kids + Drop>(
    alloc: Global,
    desk: &mut D,
    chronicle: &mut C,
    timer: &T,
    ender: &mut E,
    repository: Plain<J>,
    kids: K,
) -> Result<Life<J, K>, Unborn<J, K>>
    ensures lived { IfOk result (λ life.
        HasLived K.skills (T.says timer.now) J.write_fails J.stands MOST_TURNS life.how life.journal
        (D.passed desk.old) (D.passed desk.new) (C.told chronicle.old) (C.told chronicle.new)
        (E.told ender.old) (E.told ender.new) life.left
        (state_after_boot repository.held (children_state (K.ledger kids) (K.failures kids)))
        (children_state (K.ledger life.kids) (K.failures life.kids))) }
    ensures unbooted { IfErr result (λ unborn. IsUnbooted J.write_fails repository.held unborn.fault) }
    ensures untouched { IfErr result (λ unborn.
        IsUntouched J.stands repository.held unborn.journal (D.passed desk.old) (D.passed desk.new)
        (C.told chronicle.old) (C.told chronicle.new) (E.told ender.old) (E.told ender.new)
        (children_state (K.ledger kids) (K.failures kids))
        (children_state (K.ledger unborn.kids) (K.failures unborn.kids))) }
    ensures lasts { RepliesLast (D.leaves desk.old) (D.leaves desk.new) }
{
    match Node::new(alloc, repository) {
        Ok(node) => Ok(live(
            alloc,
            desk,
            chronicle,
            timer,
            ender,
            Server::new(alloc, node, kids, Vec::new(alloc)),
        )),
        Err((fault, repository)) => Err(Unborn {
            fault,
            journal: repository.into_journal(),
            kids,
        }),
    }
}

/// Goes on with what a repository holds and with the contracts that are found, as an older server left them when its
/// services went on. `last` is the last id of a contract that was given, and `retries` are the instances that the older one
/// was to try again. It takes turns, and ends as a server does that
/// has booted. If it cannot go on it does nothing, and the fault says why.
pub fn continue_over<D: Desk, C: Chronicle, T: Timer, E: Ender, J: Journal + Drop, K: Kids + Drop>(
    alloc: Global,
    desk: &mut D,
    chronicle: &mut C,
    timer: &T,
    ender: &mut E,
    repository: Plain<J>,
    last: Number,
    found: &[Found],
    retries: &[Retry],
    kids: K,
) -> Result<Life<J, K>, Uncontinued<J, K>>
    ensures lived { IfOk result (λ life.
        HasLived K.skills (T.says timer.now) J.write_fails J.stands MOST_TURNS life.how life.journal
        (D.passed desk.old) (D.passed desk.new) (C.told chronicle.old) (C.told chronicle.new)
        (E.told ender.old) (E.told ender.new) life.left
        (state_after_find repository.held last found.now (children_state (K.ledger kids) (K.failures kids)) retries.now)
        (children_state (K.ledger life.kids) (K.failures life.kids))) }
    ensures fit { OnOk result (are_fit 0 last found.now ≡ true) }
    ensures known { OnOk result (first_foreign repository.held found.now ≡ None) }
    // Node and children agree at first if the children begin with the same contracts. How long, `lived` says.
    ensures agrees { OnOk result (K.ledger kids ≡ ledger_over (table_of_found (Held 0) last found.now)
        → AgreesSince (before_over (table_of_found Inherited last found.now))
        (continued repository.held (table_of_found Inherited last found.now)) (K.ledger kids)) }
    ensures unfit { IfErr result (λ e. e.fault ≡ Unfit → are_fit 0 last found.now ≡ false) }
    ensures foreign { IfErr result
        (λ e. (id : ℕ) → e.fault ≡ Foreign id → first_foreign repository.held found.now ≡ Some id) }
    ensures untouched { IfErr result (λ uncontinued.
        IsUntouched J.stands repository.held uncontinued.journal (D.passed desk.old) (D.passed desk.new)
        (C.told chronicle.old) (C.told chronicle.new) (E.told ender.old) (E.told ender.new)
        (children_state (K.ledger kids) (K.failures kids))
        (children_state (K.ledger uncontinued.kids) (K.failures uncontinued.kids))) }
    ensures lasts { RepliesLast (D.leaves desk.old) (D.leaves desk.new) }
{
    let Ok(retries) = Vec::from_slice(alloc, retries) else {
        return Err(Uncontinued {
            fault: ContinueFault::Memory,
            journal: repository.into_journal(),
            kids,
        });
    };
    match Node::continued(alloc, repository, last, found) {
        Ok(successor) => Ok(live(
            alloc,
            desk,
            chronicle,
            timer,
            ender,
            Server::new(alloc, successor, kids, retries),
        )),
        Err((why, repository)) => Err(Uncontinued {
            fault: why,
            journal: repository.into_journal(),
            kids,
        }),
    }
}
