ghost use Rattle.std.specs.Prelude.{◌≡◌, ◌++◌, map, IfOk};
ghost use Rattle.smf_contract.specs.Calls.{result_of_adoption, is_inherited};
ghost use Rattle.smf_contract.specs.Called.{emptied_by};
ghost use Rattle.smf_machine.specs.Given.{acted_items, change_behind, known_behind};
ghost use Rattle.smf_world.specs.declared.item.Item.TheVariants.{Emptied as EmptiedItem};
ghost use Rattle.smf_world.specs.Worked.{work_of_turn, adopt_answer, answer_of, begun_in, begun_item, begun_items, call_of, work_of_call, emptied_items, heard_by, held_items, is_spawned, work_of_knowledge, knows, own_ticked, restarter, spawn_answer, ticked_for, work_on_message};

use crate::command_work::{no_work, one};
use crate::parts::System;
use smf_contract::{ContractCall, ContractTable, Holder};
use smf_fmri::{InstanceFmri, Items, Number};
use smf_model::Journal;
use smf_restarter::{Answer, Begun, Call, KnowledgeChange, Reply, Restarter};
use smf_wire::{Known, Message};
use smf_world::{Becomes, Item, SpawnAnswer, Work};
use std::alloc::{AllocError, Global};

// ---- what a restarter knows, takes and begins

fn knows(
    alloc: Global,
    restarter: &Restarter,
    change: KnowledgeChange,
) -> Result<Items<Becomes>, AllocError>
    ensures { IfOk result (λ all. all ≡ knows restarter.now.known change) }
{
    let name = restarter.name().clone()?;
    one(alloc, Becomes::Knows { name, change })
}

/// A restarter knows more, and that is all.
pub(crate) fn work_of_knowledge(
    alloc: Global,
    restarter: &Restarter,
    change: KnowledgeChange,
) -> Result<Work, AllocError>
    ensures { IfOk result (λ k. k ≡ work_of_knowledge restarter.now.known change) }
{
    let mut work = no_work(alloc);
    work.becomes = knows(alloc, restarter, change)?;
    Ok(work)
}

/// The trail's items for the rows that a restarter takes.
fn held_items(
    alloc: Global,
    restarter: &Restarter,
    taken: &[Known],
) -> Result<Items<Item>, AllocError>
    ensures { IfOk result (λ all. all ≡ held_items restarter.now.known taken.now) }
{
    let mut all = Items::new(alloc);
    for known in taken {
        all.push(Item::Held {
            name: restarter.name().clone()?,
            launch: restarter.launch(),
            instance: known.instance,
            number: known.row.number,
            state: known.row.state,
        })?;
    }
    Ok(all)
}

fn begun_item(contract: u64, begun: &Begun) -> Result<Item, AllocError>
    ensures { IfOk result (λ item. item ≡ begun_item contract begun.now) }
{
    let command = begun.command.clone()?;
    Ok(Item::Spawned {
        contract,
        instance: begun.instance,
        run: begun.run,
        method: begun.method,
        revision: begun.revision,
        command,
    })
}

/// Adds the methods that are begun in a contract to the trail's items.
fn push_begun(
    mut items: Items<Item>,
    contract: u64,
    begun: &[Begun],
) -> Result<Items<Item>, AllocError>
    ensures { IfOk result (λ all. all ≡ items ++ map (begun_item contract) begun.now) }
{
    for method in begun {
        items.push(begun_item(contract, method)?)?;
    }
    Ok(items)
}

fn begun_items(
    items: Items<Item>,
    contract: Option<u64>,
    begun: &[Begun],
) -> Result<Items<Item>, AllocError>
    ensures { IfOk result (λ all. all ≡ items ++ begun_items contract begun.now) }
{
    match contract {
        None => Ok(items),
        Some(contract) => push_begun(items, contract, begun),
    }
}

/// Adds contracts that were emptied to the trail's items.
fn push_emptied(mut items: Items<Item>, ids: &[Number]) -> Result<Items<Item>, AllocError>
    ensures { IfOk result (λ all. all ≡ items ++ map (λ c. EmptiedItem c) ids.now) }
{
    for id in ids {
        items.push(Item::Emptied(id.get()))?;
    }
    Ok(items)
}

/// Adds the contracts that a call empties to the trail's items.
fn emptied_items(
    items: Items<Item>,
    table: &ContractTable,
    call: &ContractCall,
) -> Result<Items<Item>, AllocError>
    ensures { IfOk result (λ all. all ≡ items ++ emptied_items table.now.table call.now) }
{
    let ids = table.emptied_by(*call)?;
    push_emptied(items, ids.as_slice())
}

/// A call is made on the table alone.
#[tactic(auto, unfolding(smf_world::specs::Worked::work_of_call))]
pub(crate) fn work_of_call(
    alloc: Global,
    table: &ContractTable,
    call: &ContractCall,
) -> Result<Work, AllocError>
    ensures { IfOk result (λ k. k ≡ work_of_call table.now.table call.now) }
{
    let items = emptied_items(Items::new(alloc), table, call)?;
    let mut work = no_work(alloc);
    work.items = items;
    work.call = *call;
    Ok(work)
}

// ---- calls

fn is_inherited(holder: Holder) -> bool
    ensures { result ≡ is_inherited holder }
{
    match holder {
        Holder::Inherited => true,
        Holder::Held(_) => false,
        Holder::Abandoned => false,
    }
}

/// The answer to an adoption. A contract can be adopted only if it is inherited.
#[tactic(auto, unfolding(smf_contract::specs::Calls::result_of_adoption))]
fn adopt_answer(table: &ContractTable, actor: u64, contract: Number) -> Answer
    ensures { result ≡ adopt_answer contract (result_of_adoption table.now.table actor contract) }
{
    let Some(found) = table.contract(contract) else {
        return Answer::Nothing;
    };
    if is_inherited(found.holder) {
        Answer::Adopted(contract)
    } else {
        Answer::Nothing
    }
}

fn spawn_answer(spawn: SpawnAnswer, next: Option<Number>) -> Answer
    ensures { result ≡ spawn_answer spawn next }
{
    match spawn {
        SpawnAnswer::Made => match next {
            Some(contract) => Answer::Spawned(contract),
            None => Answer::Refused,
        },
        SpawnAnswer::Refused => Answer::Refused,
        SpawnAnswer::NotFollowed => Answer::NotFollowed,
    }
}

/// The answer to a restarter's call.
#[tactic(auto, unfolding(smf_world::specs::Worked::answer_of))]
fn answer_of(table: &ContractTable, actor: u64, spawn: SpawnAnswer, call: &Call) -> Answer
    ensures { result ≡ answer_of table.now.table actor spawn call.now }
{
    match call {
        Call::Nothing => Answer::Nothing,
        Call::List => Answer::Nothing,
        Call::Adopt(contract) => adopt_answer(table, actor, *contract),
        Call::Spawn { .. } => spawn_answer(spawn, table.next_contract()),
        Call::Kill(_) => Answer::Nothing,
    }
}

fn is_spawned(answer: &Answer) -> bool
    ensures { result ≡ is_spawned answer.now }
{
    matches!(answer, Answer::Spawned(_))
}

/// The call that is made on the table.
#[tactic(auto, unfolding(smf_world::specs::Worked::call_of))]
fn call_of(actor: u64, call: &Call, answer: &Answer) -> ContractCall
    ensures { result ≡ call_of actor call.now answer.now }
{
    match call {
        Call::Nothing => ContractCall::Nothing,
        Call::List => ContractCall::Nothing,
        Call::Adopt(contract) => ContractCall::Adopt {
            actor,
            contract: *contract,
        },
        Call::Spawn { cookie, terms } => {
            if is_spawned(answer) {
                ContractCall::Spawn {
                    actor,
                    cookie: *cookie,
                    terms: *terms,
                }
            } else {
                ContractCall::Nothing
            }
        }
        Call::Kill(contract) => ContractCall::Kill {
            actor,
            contract: *contract,
        },
    }
}

/// The contract of a method that is begun: 0 for a built-in, which has none.
fn begun_in(call: &Call, answer: &Answer) -> Option<u64>
    ensures { result ≡ begun_in call.now answer.now }
{
    match call {
        Call::Spawn { .. } => match answer {
            Answer::Spawned(contract) => Some(contract.get()),
            _ => None,
        },
        _ => Some(0),
    }
}

// ---- replies

/// The work of a restarter's reply to a message.
#[tactic(auto, unfolding(smf_world::specs::Worked::heard_by))]
fn heard_by(alloc: Global, restarter: &Restarter, reply: Reply) -> Result<Work, AllocError>
    ensures { IfOk result (λ k. k ≡ heard_by restarter.now.known reply) }
{
    let Reply {
        change,
        messages,
        taken,
        ..
    } = reply;
    let items = held_items(alloc, restarter, taken.as_slice())?;
    let becomes = knows(alloc, restarter, change)?;
    let mut work = no_work(alloc);
    work.items = items;
    work.messages = messages;
    work.becomes = becomes;
    Ok(work)
}

impl<J: Journal> System<J> {
    /// A message comes to the restarter of a name.
    pub(crate) fn work_on_message(
        &self,
        name: &InstanceFmri,
        message: &Message,
    ) -> Result<Work, AllocError>
        ensures { IfOk result (λ k. k ≡ work_on_message message.now (restarter self.now name.now)) }
    {
        let Some(restarter) = self.restarter(name) else {
            return Ok(no_work(self.alloc));
        };
        let reply = restarter.reply_to_message(message)?;
        heard_by(self.alloc, restarter, reply)
    }

    /// The change of a restarter after its call.
    fn change_behind(
        &self,
        restarter: &Restarter,
        instance: u64,
        change: KnowledgeChange,
        call: &Call,
        answer: &Answer,
    ) -> Result<KnowledgeChange, AllocError>
        ensures { IfOk result (λ c.
            c ≡ change_behind self.now restarter.now.known instance change call.now answer.now) }
    {
        match call {
            Call::Nothing => Ok(change),
            Call::List => {
                let all = self.statuses()?;
                restarter.change_on_list(all.as_slice())
            }
            Call::Adopt(_) => Ok(restarter.change_on_answer(instance, *answer)),
            Call::Spawn { .. } => Ok(restarter.change_on_answer(instance, *answer)),
            Call::Kill(_) => Ok(change),
        }
    }

    /// The same, as what becomes of the restarter.
    fn known_behind(
        &self,
        restarter: &Restarter,
        instance: u64,
        change: KnowledgeChange,
        call: &Call,
        answer: &Answer,
    ) -> Result<Items<Becomes>, AllocError>
        ensures { IfOk result
            (λ all. all ≡ known_behind self.now restarter.now.known instance change call.now answer.now) }
    {
        let change = self.change_behind(restarter, instance, change, call, answer)?;
        knows(self.alloc, restarter, change)
    }

    /// The trail's items for a turn: the rows taken, the method begun in a contract, and the contracts that the call
    /// empties.
    fn acted_items(
        &self,
        restarter: &Restarter,
        taken: &[Known],
        contract: Option<u64>,
        begun: &[Begun],
        made: &ContractCall,
    ) -> Result<Items<Item>, AllocError>
        ensures { IfOk result
            (λ all. all ≡ acted_items self.now restarter.now.known taken.now contract begun.now made.now) }
    {
        let items = held_items(self.alloc, restarter, taken)?;
        let items = begun_items(items, contract, begun)?;
        emptied_items(items, self.table(), made)
    }

    /// The work of a restarter's turn, for itself (0) or for an instance.
    #[tactic(auto, unfolding(smf_world::specs::Worked::work_of_turn))]
    fn work_of_turn(
        &self,
        restarter: &Restarter,
        instance: u64,
        spawn: SpawnAnswer,
        reply: Reply,
    ) -> Result<Work, AllocError>
        ensures { IfOk result (λ k. k ≡ work_of_turn self.now restarter.now.known instance spawn reply) }
    {
        let Reply {
            change,
            messages,
            taken,
            begun,
            call,
        } = reply;
        let answer = answer_of(self.table(), restarter.actor(), spawn, &call);
        let made = call_of(restarter.actor(), &call, &answer);
        let becomes = self.known_behind(restarter, instance, change, &call, &answer)?;
        let contract = begun_in(&call, &answer);
        let items = self.acted_items(
            restarter,
            taken.as_slice(),
            contract,
            begun.as_slice(),
            &made,
        )?;
        Ok(Work {
            changes: Items::new(self.alloc),
            command: Items::new(self.alloc),
            reply: Items::new(self.alloc),
            items,
            messages,
            becomes,
            seen: Items::new(self.alloc),
            patches: Items::new(self.alloc),
            forgets: false,
            call: made,
        })
    }

    /// The restarter of a name has its turn for itself.
    pub(crate) fn own_ticked(&self, name: &InstanceFmri) -> Result<Work, AllocError>
        ensures { IfOk result (λ k. k ≡ own_ticked self.now (restarter self.now name.now)) }
    {
        let Some(restarter) = self.restarter(name) else {
            return Ok(no_work(self.alloc));
        };
        let reply = restarter.own_tick()?;
        self.work_of_turn(restarter, 0, SpawnAnswer::Made, reply)
    }

    /// The restarter of a name has its turn for an instance.
    pub(crate) fn work_of_tick(
        &self,
        name: &InstanceFmri,
        instance: u64,
        spawn: SpawnAnswer,
    ) -> Result<Work, AllocError>
        ensures { IfOk result (λ k. k ≡ ticked_for self.now instance spawn (restarter self.now name.now)) }
    {
        let Some(restarter) = self.restarter(name) else {
            return Ok(no_work(self.alloc));
        };
        let reply = restarter.reply_to_tick(instance)?;
        self.work_of_turn(restarter, instance, spawn, reply)
    }
}
