//! The services that are meant.

ghost use Rattle.std.specs.Prelude.{◌≡◌, ◌↔◌, [], IfOk, IsTrue, OnOk, ℕ, List, is_some, map, refl};
ghost use Rattle.smf_fmri.specs.ByKey.{Rises, by_text, lookup};
ghost use Rattle.smf_model.specs.Look.{by_service};
ghost use Rattle.smf_export.specs.Choices.{chosen_if, chosen_services, is_chosen, services_matching, services_matching_any, with_instances, with_services};
ghost use Rattle.smf_export.specs.declared.choice.Choice.TheVariants.{Only};

use smf_fmri::{Keyed, Ordered, Pattern, ServiceFmri};
use smf_model::{InstanceName, Service, Tables};
use std::alloc::{AllocError, Global};

/// A service that is meant, be it there or not.
#[derive(Drop)]
pub struct ChosenService {
    pub name: ServiceFmri,
}

/// Which services are meant, with all their instances.
#[derive(Drop)]
pub enum Choice {
    All,
    Only(Ordered<ChosenService>),
}

impl Keyed for ChosenService {
    type Key = ServiceFmri;

    ghost by = { by_text (λ s. s.name) };

    fn key(&self) -> &ServiceFmri {
        &self.name
    }

    ghost same = { refl };
}

impl Choice {
    /// True if a service is meant.
    pub fn has(&self, name: &ServiceFmri) -> bool
        ensures { result ≡ is_chosen self.now name.now }
    {
        match self {
            Choice::All => true,
            Choice::Only(services) => services.get(name).is_some(),
        }
    }

    /// The services that one of some patterns matches, and those of which one matches an instance.
    pub fn matching(
        alloc: Global,
        held: &Tables,
        patterns: &[Pattern],
    ) -> Result<Choice, AllocError>
        ensures { IfOk result (λ choice. choice ≡ Only (services_matching_any patterns.now held.now [])) }
    {
        let mut chosen = Ordered::new(alloc);
        for pattern in patterns {
            choose_matching(alloc, &mut chosen, held, pattern)?;
        }
        Ok(Choice::Only(chosen))
    }

    /// True if no service is meant.
    pub fn is_none(&self) -> bool
        ensures { IsTrue result ↔ (self.now ≡ Only []) }
    {
        match self {
            Choice::All => false,
            Choice::Only(services) => services.is_empty(),
        }
    }

    /// These services and no others.
    pub fn only(alloc: Global, services: &[Service]) -> Result<Choice, AllocError>
        requires { Rises by_service services.now }
        ensures { IfOk result (λ choice. (name : List ℕ)
            → is_chosen choice name ≡ is_some (lookup by_service services.now name)) }
    {
        let chosen = chosen_services(alloc, services)?;
        Ok(Choice::Only(chosen))
    }
}

fn chosen_services(
    alloc: Global,
    services: &[Service],
) -> Result<Ordered<ChosenService>, AllocError>
    requires { Rises by_service services.now }
    ensures { IfOk result (λ chosen. chosen ≡ chosen_services services.now) }
{
    let mut chosen = Vec::new(alloc);
    for service in services {
        let name = service.name.clone()?;
        chosen.push(ChosenService { name })?;
    }
    Ok(Ordered::from_vec(chosen))
}

/// Puts a service among those that are chosen, if it is to be.
fn choose_if(
    chosen: &mut Ordered<ChosenService>,
    wanted: bool,
    name: ServiceFmri,
) -> Result<(), AllocError>
    ensures { OnOk result (chosen.new ≡ chosen_if wanted name chosen.old) }
{
    if wanted {
        chosen.put(ChosenService { name })?;
    }
    Ok(())
}

/// Puts in the services that a pattern matches.
fn choose_services(
    chosen: &mut Ordered<ChosenService>,
    pattern: &Pattern,
    services: &[Service],
) -> Result<(), AllocError>
    ensures { OnOk result (chosen.new ≡ with_services pattern.now services.now chosen.old) }
{
    for service in services {
        let wanted = pattern.matches(service.name.as_fmri());
        choose_if(chosen, wanted, service.name.clone()?)?;
    }
    Ok(())
}

/// Puts in the services of the instances that a pattern matches.
fn choose_instances(
    alloc: Global,
    chosen: &mut Ordered<ChosenService>,
    pattern: &Pattern,
    names: &[InstanceName],
) -> Result<(), AllocError>
    ensures { OnOk result (chosen.new ≡ with_instances pattern.now names.now chosen.old) }
{
    for entry in names {
        let wanted = pattern.matches(entry.name.as_fmri());
        choose_if(chosen, wanted, entry.name.as_fmri().service_fmri(alloc)?)?;
    }
    Ok(())
}

/// Puts in the services that a pattern matches, and those of which it matches an instance.
fn choose_matching(
    alloc: Global,
    chosen: &mut Ordered<ChosenService>,
    held: &Tables,
    pattern: &Pattern,
) -> Result<(), AllocError>
    ensures { OnOk result (chosen.new ≡ services_matching pattern.now held.now chosen.old) }
{
    choose_services(chosen, pattern, held.services())?;
    choose_instances(alloc, chosen, pattern, held.names().as_slice())
}
