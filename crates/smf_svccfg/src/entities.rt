//! The entity that a word names, by the selection.

ghost use Rattle.std.specs.Prelude.{◌≡◌, ◌++◌, IfOk};
ghost use Rattle.smf_fmri.specs.Name.{short};
ghost use Rattle.smf_model.specs.Look.{instance};
ghost use Rattle.smf_svccfg.specs.declared.selection.Selection.TheVariants as selected;
ghost use Rattle.smf_svccfg.specs.Judged.{Gives, above, above_instance, child, entity, instance_in, named_by, owner_of, present_instance, present_service, read_service, selection_of};

use crate::fault::CfgFault;
use crate::selection::Selection;
use smf_fmri::{Fmri, FmriFault, InstanceFmri, Number, ServiceFmri};
use smf_model::{Client, Owner};
use std::alloc::{AllocError, Global};

/// The service that a text names in the short form, or none if it names none so.
fn read_service(alloc: Global, text: &str) -> Result<Option<ServiceFmri>, AllocError>
    ensures { IfOk result (λ name. name ≡ read_service text.now) }
{
    let name = match Fmri::parse(alloc, text) {
        Ok(name) => name,
        Err(FmriFault::Memory) => return Err(AllocError),
        Err(_) => return Ok(None),
    };
    if name.print() == text {
        Ok(ServiceFmri::of(name))
    } else {
        Ok(None)
    }
}

/// The service of this name, be it there or not.
pub(crate) fn service_of_word(alloc: Global, word: &str) -> Result<Option<ServiceFmri>, AllocError>
    ensures { IfOk result (λ name. name ≡ read_service (short ++ word.now)) }
{
    let mut text = String::from_str(alloc, "svc:/")?;
    text.push_str(word)?;
    read_service(alloc, text.as_str())
}

fn present_service<C: Client>(repository: &C, name: Option<ServiceFmri>) -> Option<Owner>
    ensures { result ≡ present_service (C.held repository.now) name }
{
    let name = name?;
    if repository.has_service(&name) {
        Some(Owner::Service(name))
    } else {
        None
    }
}

fn present_instance<C: Client>(repository: &C, name: Option<InstanceFmri>) -> Option<Owner>
    ensures { result ≡ present_instance (C.held repository.now) name }
{
    let number = repository.number_of(&name?)?;
    Some(Owner::Instance(number))
}

fn child_of_service<C: Client>(
    alloc: Global,
    repository: &C,
    service: &ServiceFmri,
    word: &str,
) -> Result<Option<Owner>, AllocError>
    ensures { IfOk result (λ found. found ≡ child (C.held repository.now) (selected.Service service.now) word.now) }
{
    let mut text = String::from_str(alloc, service.print())?;
    text.push(':')?;
    text.push_str(word)?;
    let name = InstanceFmri::read_short(alloc, text.as_str())?;
    Ok(present_instance(repository, name))
}

/// The child of a name of what is selected.
fn child<C: Client>(
    alloc: Global,
    repository: &C,
    selection: &Selection,
    word: &str,
) -> Result<Option<Owner>, AllocError>
    ensures { IfOk result (λ found. found ≡ child (C.held repository.now) selection.now word.now) }
{
    match selection {
        Selection::Nothing => {
            let name = service_of_word(alloc, word)?;
            Ok(present_service(repository, name))
        }
        Selection::Service(service) => child_of_service(alloc, repository, service, word),
        Selection::Instance(_) => Ok(None),
        Selection::Snapshot { .. } => Ok(None),
    }
}

/// The service or the instance that a word names in full.
fn entity<C: Client>(alloc: Global, repository: &C, word: &str) -> Result<Option<Owner>, AllocError>
    ensures { IfOk result (λ found. found ≡ entity (C.held repository.now) word.now) }
{
    let name = match Fmri::parse(alloc, word) {
        Ok(name) => name,
        Err(FmriFault::Memory) => return Err(AllocError),
        Err(_) => return Ok(None),
    };
    if name.instance().is_some() {
        Ok(present_instance(repository, InstanceFmri::of(name)))
    } else {
        Ok(present_service(repository, ServiceFmri::of(name)))
    }
}

/// The owner that a word names: a child of what is selected, else an entity in full.
pub(crate) fn named_by<C: Client>(
    alloc: Global,
    repository: &C,
    selection: &Selection,
    word: &str,
) -> Result<Option<Owner>, AllocError>
    ensures { IfOk result (λ found. found ≡ named_by (C.held repository.now) selection.now word.now) }
{
    match child(alloc, repository, selection, word)? {
        Some(owner) => Ok(Some(owner)),
        None => entity(alloc, repository, word),
    }
}

pub(crate) fn selection_of(owner: Owner) -> Selection
    ensures { result ≡ selection_of owner }
{
    match owner {
        Owner::Service(name) => Selection::Service(name),
        Owner::Instance(number) => Selection::Instance(number),
    }
}

/// The instance that is selected, or of which a snapshot is.
pub(crate) fn instance_in(selection: &Selection) -> Option<Number>
    ensures { result ≡ instance_in selection.now }
{
    match selection {
        Selection::Nothing => None,
        Selection::Service(_) => None,
        Selection::Instance(number) => Some(*number),
        Selection::Snapshot { instance, .. } => Some(*instance),
    }
}

/// The selection above an instance: its service, or nothing if the instance is not there any more.
pub(crate) fn above_instance<C: Client>(
    alloc: Global,
    repository: &C,
    number: Number,
) -> Result<Selection, AllocError>
    ensures { IfOk result (λ found. found ≡ above_instance (instance (C.held repository.now) number)) }
{
    match repository.instance(number.get())? {
        None => Ok(Selection::Nothing),
        Some(instance) => {
            let service = instance.name.as_fmri().service_fmri(alloc)?;
            Ok(Selection::Service(service))
        }
    }
}

/// The selection above a service or an instance.
pub(crate) fn above<C: Client>(
    alloc: Global,
    repository: &C,
    owner: &Owner,
) -> Result<Selection, AllocError>
    ensures { IfOk result (λ found. found ≡ above (C.held repository.now) owner.now) }
{
    match owner {
        Owner::Service(_) => Ok(Selection::Nothing),
        Owner::Instance(number) => above_instance(alloc, repository, *number),
    }
}

/// The owner of the groups that a line changes.
pub(crate) fn owner_of(selection: &Selection) -> Result<Owner, CfgFault>
    ensures { Gives result (owner_of selection.now) }
{
    match selection {
        Selection::Nothing => Err(CfgFault::NotSelected),
        Selection::Service(service) => Ok(Owner::Service(service.clone()?)),
        Selection::Instance(number) => Ok(Owner::Instance(*number)),
        Selection::Snapshot { .. } => Err(CfgFault::ReadOnly),
    }
}
