//! Groups read from bytes, from left to right.

ghost use Rattle.smf_value.specs.Body.{AreGroups, bytes_of_groups};
ghost use Rattle.smf_value.specs.Groups.{GroupRecord, last_group_name, last_name};
ghost use Rattle.smf_value.specs.Decoder.{Gives, GivesAt, IsWithin, placed_fault, sized_at, all_at, bit_at, body_at, count_at, groups_of_body, decoded_first, group_at, groups_at, kind_at, moment_at, name_at, number_at, properties_at, property_at, text_at, value_at, values_at};
ghost use Rattle.smf_value.specs.Names.{is_name};
ghost use Rattle.smf_value.specs.Texts.{is_astring, is_ustring, is_short};
ghost use Rattle.smf_value.specs.declared.decoder.ReadFault.TheVariants.{Memory};
ghost use Rattle.std.specs.Int.{w16, w32, w64};
ghost use Rattle.std.specs.Str.{is_utf8};
ghost use Rattle.std.specs.Option.{option_copied};
ghost use Rattle.std.specs.Prelude.{◌≡◌, ◌++◌, IfErr, IfOk, IsOkUnless, List, None, Ok, Some, if◌then◌else◌, length, option_map, ℕ};

use crate::astring::Astring;
use crate::fault::BodyFault;
use crate::group::Group;
use crate::kind::Kind;
use crate::name::{Name, name_wrong};
use crate::property::Property;
use crate::time::Time;
use crate::ustring::Ustring;
use crate::value::Value;
use smf_fmri::limits::MAX_PARTS;
use smf_fmri::{Fmri, FmriFault, Items, Ordered};
use std::alloc::{AllocError, AllocFailed, Global};
use std::cmp::Ordering;
use std::str;

/// Why a reader stops: no memory, or a field that is wrong or missing. `Left` has the number of bytes from the field's
/// beginning to the end.
#[derive(Clone, Copy)]
enum ReadFault {
    Memory,
    Left(usize),
}

impl From<AllocError> for ReadFault {
    ghost from_gives = { λ _ e. e ≡ Memory };

    fn from(_e: AllocError) -> ReadFault {
        ReadFault::Memory
    }
}

impl<T: Drop> From<AllocFailed<T>> for ReadFault {
    ghost from_gives = { λ _ e. e ≡ Memory };

    fn from(_e: AllocFailed<T>) -> ReadFault {
        ReadFault::Memory
    }
}

fn u16_at(bytes: &[u8]) -> Result<(u16, &[u8]), ReadFault>
    ensures { GivesAt (λ x. (x.0, x.1.now)) result (number_at w16 bytes.now) }
{
    if bytes.len() < 2 {
        return Err(ReadFault::Left(bytes.len()));
    }
    let (front, rest) = bytes.split_at(2);
    Ok((u16::from_be_bytes([front[0], front[1]]), rest))
}

fn u32_at(bytes: &[u8]) -> Result<(u32, &[u8]), ReadFault>
    ensures { GivesAt (λ x. (x.0, x.1.now)) result (number_at w32 bytes.now) }
{
    if bytes.len() < 4 {
        return Err(ReadFault::Left(bytes.len()));
    }
    let (front, rest) = bytes.split_at(4);
    let number = u32::from_be_bytes([front[0], front[1], front[2], front[3]]);
    Ok((number, rest))
}

fn u64_at(bytes: &[u8]) -> Result<(u64, &[u8]), ReadFault>
    ensures { GivesAt (λ x. (x.0, x.1.now)) result (number_at w64 bytes.now) }
{
    if bytes.len() < 8 {
        return Err(ReadFault::Left(bytes.len()));
    }
    let (front, rest) = bytes.split_at(8);
    let number = u64::from_be_bytes([
        front[0], front[1], front[2], front[3], front[4], front[5], front[6], front[7],
    ]);
    Ok((number, rest))
}

#[tactic(auto, unfolding(crate::specs::Decoder::bit_at))]
fn bit_at(bytes: &[u8]) -> Result<(bool, &[u8]), ReadFault>
    ensures { GivesAt (λ x. (x.0, x.1.now)) result (bit_at bytes.now) }
{
    match bytes {
        [] => Err(ReadFault::Left(0)),
        [0, rest @ ..] => Ok((false, rest)),
        [1, rest @ ..] => Ok((true, rest)),
        [_, ..] => Err(ReadFault::Left(bytes.len())),
    }
}

#[tactic(auto, unfolding(crate::specs::Decoder::kind_at))]
fn kind_at(bytes: &[u8]) -> Result<(Kind, &[u8]), ReadFault>
    ensures { GivesAt (λ x. (x.0, x.1.now)) result (kind_at bytes.now) }
{
    let [code, rest @ ..] = bytes else {
        return Err(ReadFault::Left(0));
    };
    match Kind::from_code(*code) {
        Some(kind) => Ok((kind, rest)),
        None => Err(ReadFault::Left(bytes.len())),
    }
}

/// A count of at most 1,000.
#[tactic(auto, unfolding(crate::specs::Decoder::count_at))]
fn count_at(bytes: &[u8]) -> Result<(u16, &[u8]), ReadFault>
    ensures { GivesAt (λ x. (x.0, x.1.now)) result (count_at bytes.now) }
{
    let (count, rest) = u16_at(bytes)?;
    if count as usize > MAX_PARTS {
        return Err(ReadFault::Left(bytes.len()));
    }
    Ok((count, rest))
}

/// The text that bytes are in UTF-8, if they are one.
pub(crate) fn utf8_text(bytes: &[u8]) -> Option<&str>
    ensures { option_map (λ x. x.now) result ≡ (if is_utf8 bytes.now then Some bytes.now else None) }
{
    str::from_utf8(bytes).ok()
}

/// The text of a name, if bytes are one.
fn name_text(bytes: &[u8]) -> Option<&str>
    ensures { option_map (λ x. x.now) result ≡ (if is_name bytes.now then Some bytes.now else None) }
{
    match name_wrong(bytes) {
        Some(_) => None,
        None => utf8_text(bytes),
    }
}

/// The text of an astring, if bytes are one.
fn astring_text(bytes: &[u8]) -> Option<&str>
    ensures { option_map (λ x. x.now) result ≡ (if is_astring bytes.now then Some bytes.now else None) }
{
    if Astring::is_text(bytes) {
        utf8_text(bytes)
    } else {
        None
    }
}

/// The text of a ustring, if bytes are one.
fn ustring_text(bytes: &[u8]) -> Option<&str>
    ensures { option_map (λ x. x.now) result ≡ (if is_ustring bytes.now then Some bytes.now else None) }
{
    if Ustring::is_text(bytes) {
        utf8_text(bytes)
    } else {
        None
    }
}

/// The name that bytes are the short form of, if they are one.
fn short_name(alloc: Global, bytes: &[u8]) -> Result<Option<Fmri>, ReadFault>
    ensures exact { IfOk result (λ f. f ≡ (if is_short bytes.now then Some bytes.now else None)) }
    ensures memory { IsOkUnless result ReadFault.Memory }
{
    let Some(text) = utf8_text(bytes) else {
        return Ok(None);
    };
    match Fmri::parse(alloc, text) {
        Ok(name) if name.print() == text => Ok(Some(name)),
        Err(FmriFault::Memory) => Err(ReadFault::Memory),
        _ => Ok(None),
    }
}

/// The bytes that a length of two bytes counts, and the bytes after them.
fn short_text_at(bytes: &[u8]) -> Result<(&[u8], &[u8]), ReadFault>
    ensures { GivesAt (λ x. (x.0.now, x.1.now)) result (sized_at w16 bytes.now) }
{
    let (len, rest) = u16_at(bytes)?;
    let len = len as usize;
    if rest.len() < len {
        return Err(ReadFault::Left(bytes.len()));
    }
    Ok(rest.split_at(len))
}

/// The bytes that a length of four bytes counts, and the bytes after them.
fn long_text_at(bytes: &[u8]) -> Result<(&[u8], &[u8]), ReadFault>
    ensures { GivesAt (λ x. (x.0.now, x.1.now)) result (sized_at w32 bytes.now) }
{
    let (len, rest) = u32_at(bytes)?;
    let len = len as usize;
    if rest.len() < len {
        return Err(ReadFault::Left(bytes.len()));
    }
    Ok(rest.split_at(len))
}

#[tactic(auto, unfolding(crate::specs::Decoder::text_at))]
fn plain_name_at(alloc: Global, bytes: &[u8]) -> Result<(Name, &[u8]), ReadFault>
    ensures { GivesAt (λ x. (x.0, x.1.now)) result (text_at w16 is_name bytes.now) }
{
    let (text, rest) = short_text_at(bytes)?;
    let Some(text) = name_text(text) else {
        return Err(ReadFault::Left(bytes.len()));
    };
    let name = Name::new(alloc, text)?;
    Ok((name, rest))
}

#[tactic(auto, unfolding(crate::specs::Decoder::text_at))]
fn astring_at(alloc: Global, bytes: &[u8]) -> Result<(Astring, &[u8]), ReadFault>
    ensures { GivesAt (λ x. (x.0, x.1.now)) result (text_at w32 is_astring bytes.now) }
{
    let (text, rest) = long_text_at(bytes)?;
    let Some(text) = astring_text(text) else {
        return Err(ReadFault::Left(bytes.len()));
    };
    let text = Astring::new(alloc, text)?;
    Ok((text, rest))
}

#[tactic(auto, unfolding(crate::specs::Decoder::text_at))]
fn ustring_at(alloc: Global, bytes: &[u8]) -> Result<(Ustring, &[u8]), ReadFault>
    ensures { GivesAt (λ x. (x.0, x.1.now)) result (text_at w32 is_ustring bytes.now) }
{
    let (text, rest) = long_text_at(bytes)?;
    let Some(text) = ustring_text(text) else {
        return Err(ReadFault::Left(bytes.len()));
    };
    let text = Ustring::new(alloc, text)?;
    Ok((text, rest))
}

#[tactic(auto, unfolding(crate::specs::Decoder::text_at))]
fn fmri_at(alloc: Global, bytes: &[u8]) -> Result<(Fmri, &[u8]), ReadFault>
    ensures { GivesAt (λ x. (x.0, x.1.now)) result (text_at w32 is_short bytes.now) }
{
    let (text, rest) = long_text_at(bytes)?;
    match short_name(alloc, text)? {
        Some(name) => Ok((name, rest)),
        None => Err(ReadFault::Left(bytes.len())),
    }
}

/// Seconds and nanoseconds.
#[tactic(auto, unfolding(crate::specs::Decoder::moment_at))]
fn time_at(bytes: &[u8]) -> Result<(Value, &[u8]), ReadFault>
    ensures { GivesAt (λ x. (x.0, x.1.now)) result (moment_at bytes.now) }
{
    let (seconds, rest) = u64_at(bytes)?;
    if rest.len() < 4 {
        return Err(ReadFault::Left(bytes.len()));
    }
    let (nanoseconds, rest) = u32_at(rest)?;
    match Time::new(seconds, nanoseconds) {
        Some(time) => Ok((Value::Time(time), rest)),
        None => Err(ReadFault::Left(bytes.len())),
    }
}

#[tactic(auto, unfolding(crate::specs::Decoder::value_at))]
fn value_at(alloc: Global, kind: Kind, bytes: &[u8]) -> Result<(Value, &[u8]), ReadFault>
    ensures { GivesAt (λ x. (x.0, x.1.now)) result (value_at kind bytes.now) }
{
    match kind {
        Kind::Boolean => {
            let (bit, rest) = bit_at(bytes)?;
            Ok((Value::Boolean(bit), rest))
        }
        Kind::Count => {
            let (number, rest) = u64_at(bytes)?;
            Ok((Value::Count(number), rest))
        }
        Kind::Integer => {
            let (number, rest) = u64_at(bytes)?;
            Ok((Value::Integer(number.cast_signed()), rest))
        }
        Kind::Time => time_at(bytes),
        Kind::Astring => {
            let (text, rest) = astring_at(alloc, bytes)?;
            Ok((Value::Astring(text), rest))
        }
        Kind::Ustring => {
            let (text, rest) = ustring_at(alloc, bytes)?;
            Ok((Value::Ustring(text), rest))
        }
        Kind::Fmri => {
            let (name, rest) = fmri_at(alloc, bytes)?;
            Ok((Value::Fmri(name), rest))
        }
    }
}

fn values_at(
    alloc: Global,
    kind: Kind,
    count: u16,
    bytes: &[u8],
) -> Result<(Items<Value>, &[u8]), ReadFault>
    ensures { GivesAt (λ x. (x.0, x.1.now)) result (values_at kind count bytes.now) }
{
    let mut values = Items::new(alloc);
    let mut rest = bytes;
    for _ in 0..count {
        let (value, after) = value_at(alloc, kind, rest)?;
        values.push(value)?;
        rest = after;
    }
    Ok((values, rest))
}

/// A name that rises above the one before it.
#[tactic(auto, unfolding(crate::specs::Decoder::name_at))]
fn name_at<'a>(
    alloc: Global,
    before: Option<&Name>,
    bytes: &'a [u8],
) -> Result<(Name, &'a [u8]), ReadFault>
    ensures { GivesAt (λ x. (x.0, x.1.now)) result (name_at (option_copied before.entry) bytes.now) }
{
    let (name, rest) = plain_name_at(alloc, bytes)?;
    if let Some(before) = before
        && before.cmp(&name) != Ordering::Less
    {
        return Err(ReadFault::Left(bytes.len()));
    }
    Ok((name, rest))
}

#[tactic(auto, unfolding(crate::specs::Decoder::property_at))]
fn property_at<'a>(
    alloc: Global,
    before: Option<&Name>,
    bytes: &'a [u8],
) -> Result<(Property, &'a [u8]), ReadFault>
    ensures { GivesAt (λ x. (x.0, x.1.now)) result (property_at (option_copied before.entry) bytes.now) }
{
    let (name, rest) = name_at(alloc, before, bytes)?;
    let (kind, rest) = kind_at(rest)?;
    let (count, rest) = count_at(rest)?;
    let (values, rest) = values_at(alloc, kind, count, rest)?;
    Ok((Property::new(name, kind, values), rest))
}

fn last_property(properties: &[Property]) -> Option<&Name>
    ensures { option_copied result ≡ last_name properties.now }
{
    properties.last().map(|property| property.name())
}

fn properties_at(
    alloc: Global,
    count: u16,
    bytes: &[u8],
) -> Result<(Items<Property>, &[u8]), ReadFault>
    ensures { GivesAt (λ x. (x.0, x.1.now)) result (properties_at None count bytes.now) }
{
    let mut properties: Items<Property> = Items::new(alloc);
    let mut rest = bytes;
    for _ in 0..count {
        let (property, after) = property_at(alloc, last_property(properties.as_slice()), rest)?;
        properties.push(property)?;
        rest = after;
    }
    Ok((properties, rest))
}

#[tactic(auto, unfolding(crate::specs::Decoder::group_at))]
fn group_at<'a>(
    alloc: Global,
    before: Option<&Name>,
    bytes: &'a [u8],
) -> Result<(Group, &'a [u8]), ReadFault>
    ensures { GivesAt (λ x. (x.0, x.1.now)) result (group_at (option_copied before.entry) bytes.now) }
{
    let (name, rest) = name_at(alloc, before, bytes)?;
    let (group_type, rest) = plain_name_at(alloc, rest)?;
    let (non_persistent, rest) = bit_at(rest)?;
    let (count, rest) = count_at(rest)?;
    let (properties, rest) = properties_at(alloc, count, rest)?;
    let group = Group::with_properties(name, group_type, non_persistent, properties);
    Ok((group, rest))
}

fn last_group(groups: &[Group]) -> Option<&Name>
    ensures { option_copied result ≡ last_group_name groups.now }
{
    groups.last().map(|group| group.name())
}

fn groups_at(alloc: Global, count: u32, bytes: &[u8]) -> Result<(Items<Group>, &[u8]), ReadFault>
    ensures { GivesAt (λ x. (x.0, x.1.now)) result (groups_at None count bytes.now) }
{
    let mut groups: Items<Group> = Items::new(alloc);
    let mut rest = bytes;
    for _ in 0..count {
        let (group, after) = group_at(alloc, last_group(groups.as_slice()), rest)?;
        groups.push(group)?;
        rest = after;
    }
    Ok((groups, rest))
}

#[tactic(auto, unfolding(crate::specs::Decoder::body_at))]
fn body_at(alloc: Global, bytes: &[u8]) -> Result<(Ordered<Group>, &[u8]), ReadFault>
    ensures { GivesAt (λ x. (x.0, x.1.now)) result (body_at bytes.now) }
{
    let (count, rest) = u32_at(bytes)?;
    let (groups, rest) = groups_at(alloc, count, rest)?;
    Ok((Ordered::from_vec(groups.into_vec()), rest))
}

#[tactic(auto, unfolding(crate::specs::Decoder::all_at))]
fn all_at(alloc: Global, bytes: &[u8]) -> Result<Ordered<Group>, ReadFault>
    ensures { GivesAt (λ x. x) result (all_at bytes.now) }
{
    let (groups, rest) = body_at(alloc, bytes)?;
    if !rest.is_empty() {
        return Err(ReadFault::Left(rest.len()));
    }
    Ok(groups)
}

/// A fault with its place, from the start of the bytes.
fn fault_at_place(fault: ReadFault, bytes: &[u8]) -> BodyFault
    ensures fault { result ≡ placed_fault (length bytes.now) fault }
    ensures place { IsWithin (length bytes.now) result }
{
    match fault {
        ReadFault::Memory => BodyFault::Memory,
        ReadFault::Left(left) => BodyFault::BadBody(bytes.len().saturating_sub(left)),
    }
}

/// The groups of a body.
pub fn decode(alloc: Global, bytes: &[u8]) -> Result<Ordered<Group>, BodyFault>
    // Groups that are read are spelled so.
    ensures found { IfOk result (λ gs. AreGroups gs × (bytes.now ≡ bytes_of_groups gs)) }
    // Groups that are spelled so are read, unless memory runs out.
    ensures only { (gs : List GroupRecord) → AreGroups gs → bytes.now ≡ bytes_of_groups gs
        → Gives (λ x. x) result (Ok gs) }
    // Which field is the first wrong one.
    ensures exact { Gives (λ x. x) result (groups_of_body bytes.now) }
    ensures place { IfErr result (IsWithin (length bytes.now)) }
{
    decode_exact(alloc, bytes)
}

#[tactic(auto, unfolding(crate::specs::Decoder::groups_of_body))]
fn decode_exact(alloc: Global, bytes: &[u8]) -> Result<Ordered<Group>, BodyFault>
    ensures exact { Gives (λ x. x) result (groups_of_body bytes.now) }
    ensures place { IfErr result (IsWithin (length bytes.now)) }
{
    match all_at(alloc, bytes) {
        Ok(groups) => Ok(groups),
        Err(fault) => Err(fault_at_place(fault, bytes)),
    }
}

/// The groups of a body that stands first, and the bytes after it.
pub fn decode_first(alloc: Global, bytes: &[u8]) -> Result<(Ordered<Group>, &[u8]), BodyFault>
    ensures found { IfOk result (λ x. AreGroups x.0 × (bytes.now ≡ bytes_of_groups x.0 ++ x.1.now)) }
    ensures only { (gs : List GroupRecord) (rest : List ℕ) → AreGroups gs → bytes.now ≡ bytes_of_groups gs ++ rest
        → Gives {Y = List GroupRecord × List ℕ} (λ x. (x.0, x.1.now)) result (Ok (gs, rest)) }
    ensures exact { Gives (λ x. (x.0, x.1.now)) result (decoded_first bytes.now) }
{
    decode_first_exact(alloc, bytes)
}

#[tactic(auto, unfolding(crate::specs::Decoder::decoded_first))]
fn decode_first_exact(alloc: Global, bytes: &[u8]) -> Result<(Ordered<Group>, &[u8]), BodyFault>
    ensures { Gives (λ x. (x.0, x.1.now)) result (decoded_first bytes.now) }
{
    match body_at(alloc, bytes) {
        Ok(found) => Ok(found),
        Err(fault) => Err(fault_at_place(fault, bytes)),
    }
}
