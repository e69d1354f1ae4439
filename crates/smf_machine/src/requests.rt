ghost use Rattle.std.specs.Option.{option_copied};
ghost use Rattle.smf_fmri.specs.ByKey.{IsPlaced, Rises, lookup};
ghost use Rattle.smf_restarter.specs.Knowledge.{by_instance};
ghost use Rattle.std.specs.Prelude.{◌≡◌, find, Some, IfOk};
ghost use Rattle.smf_machine.specs.Requests.{request_of_turn, asked_by, asked_of, first_of, is_held_by, is_holder, is_instance, kill_if, spawn_request, wanted_in};

use crate::parts::System;
use smf_contract::{Contract, ContractTable, Holder, Terms};
use smf_edge::Start;
use smf_fmri::{InstanceFmri, Number};
use smf_model::Journal;
use smf_restarter::{Begun, Call, KnownInstance, Restarter};
use std::alloc::AllocError;

/// The request of a restarter's turn for an instance to whoever runs methods.
#[derive(Drop)]
pub enum MethodRequest {
    Nothing,
    /// A process for which there is no contract.
    Unnumbered,
    Spawn(Start),
    /// The end of all members of a contract.
    Kill(Number),
}

/// The place of the instance of a number, or else the place that it belongs at.
fn place_of(instances: &[KnownInstance], instance: u64) -> Result<usize, usize>
    requires { Rises by_instance instances.now }
    ensures { IsPlaced by_instance instance instances.now result }
{
    instances.binary_search_by(|known| known.instance.cmp(&instance))
}

/// The instance of a number.
fn instance_in(instances: &[KnownInstance], instance: u64) -> Option<&KnownInstance>
    requires { Rises by_instance instances.now }
    ensures { option_copied result ≡ lookup by_instance instances.now instance }
{
    match place_of(instances, instance) {
        Ok(at) => Some(&instances[at]),
        Err(_) => None,
    }
}

/// The instance of a number that a restarter knows.
fn known_of(restarter: &Restarter, instance: u64) -> Option<&KnownInstance>
    ensures { option_copied result ≡ find (is_instance instance) restarter.now.known.instances }
{
    // Looking at these lets the proof know that instances stand in number order.
    let _restless = restarter.restless();
    instance_in(restarter.instances(), instance)
}

/// The method that is begun.
fn first_of(begun: &[Begun]) -> Option<&Begun>
    ensures { option_copied result ≡ first_of begun.now }
{
    begun.first()
}

fn is_holder(actor: u64, holder: Holder) -> bool
    ensures { result ≡ is_holder actor holder }
{
    match holder {
        Holder::Held(a) => a == actor,
        Holder::Inherited => false,
        Holder::Abandoned => false,
    }
}

/// True if an actor holds a contract.
fn is_held_by(actor: u64, contract: &Option<Contract>) -> bool
    ensures { result ≡ is_held_by actor contract.now }
{
    match contract {
        Some(found) => is_holder(actor, found.holder),
        None => false,
    }
}

fn kill_if(is_held: bool, id: Number) -> MethodRequest
    ensures { result ≡ kill_if is_held id }
{
    if is_held {
        MethodRequest::Kill(id)
    } else {
        MethodRequest::Nothing
    }
}

/// A process for a method that is begun, of an instance that a restarter of this name knows.
fn want(
    restarter: &InstanceFmri,
    contract: Number,
    cookie: u64,
    terms: Terms,
    known: &KnownInstance,
    begun: &Begun,
) -> Result<MethodRequest, AllocError>
    ensures { IfOk result
        (λ ask. ask ≡ spawn_request restarter.now contract cookie terms (Some known.now) (Some begun.now)) }
{
    let command = begun.command.clone()?;
    let instance = known.name.clone()?;
    let restarter = restarter.clone()?;
    Ok(MethodRequest::Spawn(Start {
        contract,
        cookie,
        style: known.row.duration,
        terms,
        command,
        method: begun.method,
        instance,
        restarter,
    }))
}

fn want_if(
    restarter: &InstanceFmri,
    contract: Number,
    cookie: u64,
    terms: Terms,
    known: Option<&KnownInstance>,
    begun: Option<&Begun>,
) -> Result<MethodRequest, AllocError>
    ensures { IfOk result
        (λ ask. ask ≡ spawn_request restarter.now contract cookie terms (option_copied known.entry)
        (option_copied begun.entry)) }
{
    let Some(known) = known else {
        return Ok(MethodRequest::Unnumbered);
    };
    match begun {
        Some(begun) => want(restarter, contract, cookie, terms, known, begun),
        None => Ok(MethodRequest::Unnumbered),
    }
}

fn want_in(
    restarter: &InstanceFmri,
    contract: Option<Number>,
    cookie: u64,
    terms: Terms,
    known: Option<&KnownInstance>,
    begun: Option<&Begun>,
) -> Result<MethodRequest, AllocError>
    ensures { IfOk result
        (λ ask. ask ≡ wanted_in restarter.now contract cookie terms (option_copied known.entry)
        (option_copied begun.entry)) }
{
    match contract {
        Some(contract) => want_if(restarter, contract, cookie, terms, known, begun),
        None => Ok(MethodRequest::Unnumbered),
    }
}

/// The request of a restarter's call to whoever runs methods.
fn asked_by(
    table: &ContractTable,
    restarter: &Restarter,
    instance: u64,
    begun: Option<&Begun>,
    call: Call,
) -> Result<MethodRequest, AllocError>
    ensures { IfOk result
        (λ ask. ask ≡ asked_by table.now.table restarter.now.known instance (option_copied begun.entry) call) }
{
    match call {
        Call::Spawn { cookie, terms } => {
            let known = known_of(restarter, instance);
            let next = table.next_contract();
            want_in(restarter.name(), next, cookie, terms, known, begun)
        }
        Call::Kill(id) => Ok(kill_if(is_held_by(restarter.actor(), &table.contract(id)), id)),
        Call::Nothing => Ok(MethodRequest::Nothing),
        Call::List => Ok(MethodRequest::Nothing),
        Call::Adopt(_) => Ok(MethodRequest::Nothing),
    }
}

fn asked_in(
    table: &ContractTable,
    restarter: &Restarter,
    instance: u64,
) -> Result<MethodRequest, AllocError>
    ensures { IfOk result (λ ask. ask ≡ asked_of table.now.table (Some restarter.now.known) instance) }
{
    let reply = restarter.reply_to_tick(instance)?;
    asked_by(
        table,
        restarter,
        instance,
        first_of(reply.begun.as_slice()),
        reply.call,
    )
}

impl<J: Journal> System<J> {
    /// The request of a restarter's turn for an instance to whoever runs methods.
    #[tactic(auto, unfolding(crate::specs::Requests::request_of_turn))]
    pub(crate) fn ask_of(
        &self,
        name: &InstanceFmri,
        instance: u64,
    ) -> Result<MethodRequest, AllocError>
        ensures { IfOk result (λ ask. ask ≡ request_of_turn self.now name.now instance) }
    {
        match self.restarter(name) {
            None => Ok(MethodRequest::Nothing),
            Some(restarter) => asked_in(self.table(), restarter, instance),
        }
    }
}
