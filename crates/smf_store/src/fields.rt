ghost use Rattle.std.specs.Prelude.{◌≡◌, ◌<◌, ◌++◌, [], ◌∷◌, pos, IfOk, IsTrue, option_map, string_bytes};
ghost use Rattle.smf_fmri.specs.Patterns.{instance_of, service_of};
ghost use Rattle.smf_fmri.specs.Name.{short};
ghost use Rattle.smf_value.specs.Body.{AreGroups, bytes_of_groups};
ghost use Rattle.smf_store.specs.Shown.{IsSplit};

use crate::fault::WriteFault;
use smf_fmri::{Bytes, InstanceFmri, Number, Ordered, ServiceFmri, Text};
use smf_tables::NameColumns;
use smf_value::{Group, encode};
use std::alloc::{AllocError, Global};

/// A number as a row holds it.
pub(crate) fn integer_of(number: Number) -> i64
    ensures { result ≡ pos number }
{
    number.get() as i64
}

/// The number of an instance, which is not 0.
pub(crate) fn key_of(number: Number) -> Result<i64, WriteFault>
    ensures id { IfOk result (λ id. id ≡ pos number) }
    ensures some { IfOk result (λ _. 0 < number) }
{
    if number.get() == 0 {
        return Err(WriteFault::Database);
    }
    Ok(integer_of(number))
}

/// The number of a snapshot, if there is one.
pub(crate) fn optional_of(number: Option<Number>) -> Option<i64>
    ensures { result ≡ option_map pos number }
{
    match number {
        None => None,
        Some(number) => Some(integer_of(number)),
    }
}

/// The name of an instance in two columns.
#[derive(Drop)]
pub(crate) struct Columns {
    pub(crate) service: ServiceFmri,
    pub(crate) name: Text,
}

fn service_of(alloc: Global, name: &InstanceFmri) -> Result<ServiceFmri, AllocError>
    ensures { IfOk result (λ s. s ≡ short ++ service_of name.now) }
{
    name.as_fmri().service_fmri(alloc)
}

fn name_of(alloc: Global, name: &InstanceFmri) -> Result<Option<Text>, AllocError>
    ensures { IfOk result (λ text. text ≡ instance_of name.now) }
{
    match name.as_fmri().instance() {
        None => Ok(None),
        Some(text) => {
            let text = Text::copy_of(alloc, text)?;
            Ok(Some(text))
        }
    }
}

/// The columns of a name.
pub(crate) fn split(alloc: Global, name: &InstanceFmri) -> Result<Columns, WriteFault>
    ensures { IfOk result (λ it. IsSplit name.now it.service it.name) }
{
    let _text = name.print();
    let service = service_of(alloc, name)?;
    let found = name_of(alloc, name)?;
    match found {
        None => Err(WriteFault::Database),
        Some(name) => Ok(Columns { service, name }),
    }
}

/// True if these are the columns of a row that was read.
pub(crate) fn are_same(columns: &Columns, read: &NameColumns) -> bool
    ensures service { IsTrue result → string_bytes read.now.service ≡ columns.now.service }
    ensures name { IsTrue result → string_bytes read.now.name ≡ columns.now.name }
{
    if columns.service.print() != read.service.as_str() {
        return false;
    }
    columns.name.as_str() == read.name.as_str()
}

/// A group as bytes.
pub(crate) fn body_of(alloc: Global, group: &Group) -> Result<Bytes, AllocError>
    ensures spelled { IfOk result (λ b. b ≡ bytes_of_groups (group.now ∷ [])) }
    ensures formed { IfOk result (λ _. AreGroups (group.now ∷ [])) }
{
    let mut one = Ordered::new(alloc);
    one.put(group.clone()?)?;
    encode(alloc, &one)
}
