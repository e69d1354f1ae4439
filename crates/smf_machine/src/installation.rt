ghost use Rattle.std.specs.Prelude.{◌≡◌, ◌∷◌, ◌++◌, ◌<◌, [], filter, map, not, vec_capacity, vec_len, IfErr, IfOk, OnErr};
ghost use Rattle.smf_machine.specs.Faults.{IsUndone};
ghost use Rattle.smf_machine.specs.Given.{is_named_kept};
ghost use Rattle.smf_machine.specs.Install.{CanInstall, HasRoomLeft, IsInstalled, IsInstalledIf, IsSame, IsSingle, RoomFor, RoomForAll, RoomOf, rest_of};
ghost use Rattle.smf_machine.specs.Lists.{AtMostOne, NoTwins};
ghost use Rattle.smf_machine.specs.Parts.{IsLinked, history_of, knowledge, world_of};
ghost use Rattle.smf_restarter.specs.Knowledge.{at_first};
ghost use Rattle.smf_world.specs.declared.work.Becomes.TheVariants as kinds;
ghost use Rattle.smf_world.specs.Happens.{all_becoming, restarters_after, world_after, newest, seen_after};
ghost use Rattle.smf_world.specs.Worked.{is_named};

use crate::fault::MachineFault;
use crate::parts::{Parts, System};
use crate::room::{make_room, place_of};
use smf_changes::Repository;
use smf_contract::ContractCall;
use smf_engine::Engine;
use smf_fmri::{InstanceFmri, Items};
use smf_model::{Command, CommandReply, Journal};
use smf_restarter::{KnowledgeChange, Restarter};
use smf_state::View;
use smf_wire::Message;
use smf_world::{Becomes, Item, Work};
use std::alloc::{AllocError, Global};

/// The work of an event, the repository aside.
#[derive(Drop)]
pub(crate) struct Rest {
    command: Items<Command>,
    items: Items<Item>,
    messages: Items<Message>,
    becomes: Items<Becomes>,
    seen: Items<View>,
    forgets: bool,
    call: ContractCall,
}

/// The restarter of a name makes a change.
fn learn(restarters: &mut Vec<Restarter>, name: &InstanceFmri, change: KnowledgeChange)
    requires apart { NoTwins (map knowledge restarters.old.items) }
    requires room { RoomOf name.now change restarters.old.items }
    ensures { map knowledge restarters.new.items
        ≡ restarters_after (kinds.Knows name.now change) (map knowledge restarters.old.items) }
{
    if let Some(place) = place_of(restarters, name) {
        restarters[place].change(change);
    }
}

fn remove_in(restarters: &mut Vec<Restarter>, name: &InstanceFmri)
    ensures { restarters.new.items ≡ filter (λ r. not (is_named_kept name.now r)) restarters.old.items }
{
    restarters.retain(|restarter| *restarter.name() != *name);
}

fn remove(restarters: &mut Vec<Restarter>, name: &InstanceFmri)
    ensures { map knowledge restarters.new.items
        ≡ filter (λ k. not (is_named name.now k)) (map knowledge restarters.old.items) }
{
    remove_in(restarters, name)
}

fn begin(
    alloc: Global,
    restarters: &mut Vec<Restarter>,
    name: InstanceFmri,
    actor: u64,
    launch: u64,
)
    requires { vec_len restarters.old < vec_capacity restarters.old }
    ensures { map knowledge restarters.new.items
        ≡ map knowledge restarters.old.items ++ at_first name actor launch ∷ [] }
{
    restarters
        .push(Restarter::new(alloc, name, actor, launch))
        .unwrap();
}

fn become_one(alloc: Global, restarters: &mut Vec<Restarter>, becomes: Becomes)
    requires apart { NoTwins (map knowledge restarters.old.items) }
    requires one { vec_len restarters.old < vec_capacity restarters.old }
    requires room { RoomFor becomes restarters.old.items }
    ensures { map knowledge restarters.new.items ≡ restarters_after becomes (map knowledge restarters.old.items) }
{
    match becomes {
        Becomes::Knows { name, change } => learn(restarters, &name, change),
        Becomes::Launched {
            name,
            actor,
            launch,
        } => begin(alloc, restarters, name, actor, launch),
        Becomes::Gone(name) => remove(restarters, &name),
        Becomes::NoneLeft => restarters.clear(),
    }
}

/// Makes what becomes of the restarters, which is one thing at most.
fn become_all(alloc: Global, restarters: &mut Vec<Restarter>, becomes: Items<Becomes>)
    requires single { AtMostOne becomes }
    requires apart { NoTwins (map knowledge restarters.old.items) }
    requires one { vec_len restarters.old < vec_capacity restarters.old }
    requires room { RoomForAll becomes restarters.old.items }
    ensures { map knowledge restarters.new.items ≡ all_becoming becomes (map knowledge restarters.old.items) }
{
    let mut becomes = becomes.into_vec();
    if !becomes.is_empty() {
        become_one(alloc, restarters, becomes.remove(0));
    }
}

fn take_views(alloc: Global, engine: &mut Engine, views: Items<View>)
    ensures { engine.new ≡ newest engine.old views }
{
    for view in views.into_vec() {
        engine.take_view(alloc, view);
    }
}

fn see(alloc: Global, engine: &mut Engine, forgets: bool, views: Items<View>)
    ensures { engine.new ≡ seen_after forgets engine.old views }
{
    if forgets {
        engine.forget();
    } else {
        take_views(alloc, engine, views);
    }
}

/// Makes what is left, for which there is room.
pub(crate) fn install(alloc: Global, parts: &mut Parts, work: Rest)
    requires room { HasRoomLeft parts.old work }
    requires single { IsSingle (map knowledge parts.old.restarters.items) work }
    ensures { IsInstalled parts.old parts.new work }
{
    let Rest {
        command,
        items,
        messages,
        becomes,
        seen,
        forgets,
        call,
    } = work;
    become_all(alloc, &mut parts.restarters, becomes);
    see(alloc, &mut parts.engine, forgets, seen);
    parts.table.call(call);
    parts.commands.append(&mut command.into_vec()).unwrap();
    parts.trail.append(&mut items.into_vec()).unwrap();
    parts.messages.append(&mut messages.into_vec()).unwrap();
}

/// The rest of a work when the repository has committed.
pub(crate) fn into_rest(work: Work) -> Rest
    ensures { result ≡ rest_of work }
{
    let Work {
        command,
        items,
        messages,
        becomes,
        seen,
        forgets,
        call,
        ..
    } = work;
    Rest {
        command,
        items,
        messages,
        becomes,
        seen,
        forgets,
        call,
    }
}

/// Makes room for all that is left of a work, which can then be installed.
pub(crate) fn prepare(parts: &mut Parts, work: Work) -> Result<Rest, AllocError>
    ensures same { IsSame parts.old parts.new }
    ensures rest { IfOk result (λ rest. rest ≡ rest_of work) }
    ensures room { IfOk result (λ rest. HasRoomLeft parts.new rest) }
{
    make_room(parts, &work)?;
    Ok(into_rest(work))
}

/// Makes what is left, for which there is room, or nothing.
pub(crate) fn install_if(alloc: Global, parts: &mut Parts, rest: Rest, is_made: bool)
    requires room { HasRoomLeft parts.old rest }
    requires single { IsSingle (map knowledge parts.old.restarters.items) rest }
    ensures { IsInstalledIf is_made parts.old parts.new rest }
{
    if is_made {
        install(alloc, parts, rest);
    }
}

/// Makes what an event makes: room first, then the repository commits, and what is left cannot fail.
fn take<J: Journal>(
    alloc: Global,
    repository: &mut Repository<J>,
    parts: &mut Parts,
    work: Work,
) -> Result<Items<CommandReply>, MachineFault>
    requires can { CanInstall repository.old.held (map knowledge parts.old.restarters.items) work }
    requires linked { IsLinked repository.old.held repository.old.recent (history_of parts.old) }
    ensures ok { IfOk result
        (λ r. (world_of repository.new.held parts.new ≡ world_after (world_of repository.old.held parts.old) work)
        × (r ≡ work.reply)) }
    ensures linked { IsLinked repository.new.held repository.new.recent (history_of parts.new) }
    ensures err { OnErr result (world_of repository.new.held parts.new ≡ world_of repository.old.held parts.old) }
    ensures fault { IfErr result (λ e. IsUndone J.write_fails work.changes e) }
{
    make_room(parts, &work)?;
    let Work {
        changes,
        command,
        reply,
        items,
        messages,
        becomes,
        seen,
        patches: _,
        forgets,
        call,
    } = work;
    let rest = Rest {
        command,
        items,
        messages,
        becomes,
        seen,
        forgets,
        call,
    };
    repository.commit(changes)?;
    install(alloc, parts, rest);
    Ok(reply)
}

impl<J: Journal> System<J> {
    /// Makes what an event makes, or nothing.
    #[tactic(auto, unfolding(crate::specs::Parts::world_of))]
    pub(crate) fn take(&mut self, work: Work) -> Result<Items<CommandReply>, MachineFault>
        requires { CanInstall self.old.now self.old.restarters work }
        ensures ok { IfOk result (λ r. (self.new ≡ world_after self.old work) × (r ≡ work.reply)) }
        ensures err { OnErr result (self.new ≡ self.old) }
        ensures fault { IfErr result (λ e. IsUndone J.write_fails work.changes e) }
    {
        take(self.alloc, &mut self.repository, &mut self.parts, work)
    }
}
