//! Groups as bytes.

ghost use Rattle.smf_fmri.specs.ByKey.{Rises};
ghost use Rattle.smf_value.specs.Body.{AreGroups, IsWholeGroup, IsWholeProperty, bytes_of_groups, spelled_bit, spelled_group, spelled_moment, spelled_property, spelled_text, spelled_value};
ghost use Rattle.smf_value.specs.Groups.{by_group};
ghost use Rattle.smf_value.specs.Names.{IsName};
ghost use Rattle.smf_value.specs.Values.{IsValue};
ghost use Rattle.smf_value.specs.Moments.{IsMoment};
ghost use Rattle.std.specs.Int.{w16, w32};
ghost use Rattle.std.specs.Prelude.{◌≡◌, ◌++◌, ◌<◌, ◌^◌, IfOk, OnOk, length};

use crate::group::Group;
use crate::name::Name;
use crate::property::Property;
use crate::time::Time;
use crate::value::Value;
use crate::value_texts::short_of;
use smf_fmri::{Bytes, Ordered};
use std::alloc::{AllocError, Global};

/// The room with which a body begins, in bytes: most bodies need no more.
const FIRST_ROOM: usize = 256;

/// A length in two bytes, and the bytes of a name.
fn put_name(out: &mut Vec<u8>, name: &Name) -> Result<(), AllocError>
    ensures put { OnOk result (out.new.items ≡ out.old.items ++ spelled_text w16 name.now) }
    ensures named { IsName name.now }
{
    let text = name.as_str().as_bytes();
    out.extend_from_slice(&(text.len() as u16).to_be_bytes())?;
    out.extend_from_slice(text)
}

/// A length in four bytes, and a text.
fn put_text(out: &mut Vec<u8>, text: &str) -> Result<(), AllocError>
    requires { length text.now < 2 ^ 32 }
    ensures { OnOk result (out.new.items ≡ out.old.items ++ spelled_text w32 text.now) }
{
    out.extend_from_slice(&(text.len() as u32).to_be_bytes())?;
    out.extend_from_slice(text.as_bytes())
}

fn put_bit(out: &mut Vec<u8>, bit: bool) -> Result<(), AllocError>
    ensures { OnOk result (out.new.items ≡ out.old.items ++ spelled_bit bit) }
{
    out.push(if bit { 1 } else { 0 })?;
    Ok(())
}

fn put_time(out: &mut Vec<u8>, time: Time) -> Result<(), AllocError>
    ensures put { OnOk result (out.new.items ≡ out.old.items ++ spelled_moment time) }
    ensures formed { IsMoment time }
{
    let seconds = time.seconds();
    let nanoseconds = time.nanoseconds();
    out.extend_from_slice(&seconds.to_be_bytes())?;
    out.extend_from_slice(&nanoseconds.to_be_bytes())?;
    Ok(())
}

fn put_value(alloc: Global, out: &mut Vec<u8>, value: &Value) -> Result<(), AllocError>
    ensures put { OnOk result (out.new.items ≡ out.old.items ++ spelled_value value.now) }
    ensures formed { OnOk result (IsValue value.now) }
{
    match value {
        Value::Boolean(bit) => put_bit(out, *bit),
        Value::Count(number) => out.extend_from_slice(&number.to_be_bytes()),
        Value::Integer(number) => out.extend_from_slice(&number.to_be_bytes()),
        Value::Time(time) => put_time(out, *time),
        Value::Astring(text) => put_text(out, text.as_str()),
        Value::Ustring(text) => put_text(out, text.as_str()),
        Value::Fmri(name) => {
            let name = short_of(alloc, name)?;
            put_text(out, name.print())
        }
    }
}

fn put_property(alloc: Global, out: &mut Vec<u8>, property: &Property) -> Result<(), AllocError>
    ensures put { OnOk result (out.new.items ≡ out.old.items ++ spelled_property property.now) }
    ensures formed { OnOk result (IsWholeProperty property.now) }
{
    put_name(out, property.name())?;
    out.push(property.kind().code())?;
    out.extend_from_slice(&(property.values().len() as u16).to_be_bytes())?;
    for value in property.values() {
        put_value(alloc, out, value)?;
    }
    Ok(())
}

fn put_group(alloc: Global, out: &mut Vec<u8>, group: &Group) -> Result<(), AllocError>
    ensures put { OnOk result (out.new.items ≡ out.old.items ++ spelled_group group.now) }
    ensures formed { OnOk result (IsWholeGroup group.now) }
{
    put_name(out, group.name())?;
    put_name(out, group.group_type())?;
    put_bit(out, group.is_non_persistent())?;
    let properties = group.properties();
    out.extend_from_slice(&(properties.len() as u16).to_be_bytes())?;
    for property in properties {
        put_property(alloc, out, property)?;
    }
    Ok(())
}

fn body_of(alloc: Global, groups: &[Group]) -> Result<Bytes, AllocError>
    requires { Rises by_group groups.now }
    ensures spelled { IfOk result (λ b. b ≡ bytes_of_groups groups.now) }
    ensures formed { IfOk result (λ _. AreGroups groups.now) }
{
    let Ok(count) = u32::try_from(groups.len()) else {
        return Err(AllocError);
    };
    let mut out = Vec::with_capacity(alloc, FIRST_ROOM)?;
    out.extend_from_slice(&count.to_be_bytes())?;
    for group in groups {
        put_group(alloc, &mut out, group)?;
    }
    Bytes::from_vec(alloc, out)
}

/// The body of groups.
pub fn encode(alloc: Global, groups: &Ordered<Group>) -> Result<Bytes, AllocError>
    ensures spelled { IfOk result (λ b. b ≡ bytes_of_groups groups.now) }
    // Such groups are what `decode` gives of their body.
    ensures formed { IfOk result (λ _. AreGroups groups.now) }
{
    body_of(alloc, groups.as_slice())
}
