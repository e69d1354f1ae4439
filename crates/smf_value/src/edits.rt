//! Changes of a group that are read from texts.

ghost use Rattle.smf_value.specs.Edits.{Answers, Leaves, add_value, kind_after_edit, property_or_full, del_value, group_result, present_less, property_added, property_less, property_set, read_values, set, values_of};
ghost use Rattle.smf_value.specs.ValueTexts.{read_value};
ghost use Rattle.smf_value.specs.Groups.{AreOf};
ghost use Rattle.smf_value.specs.Values.{is_value, kind_of};
ghost use Rattle.std.specs.Option.{option_copied};
ghost use Rattle.std.specs.Prelude.{◌≡◌, IfOk, IfSome, OnOk, filter, not};

use crate::fault::{GroupFault, ValueFault};
use crate::group::Group;
use crate::kind::Kind;
use crate::name::Name;
use crate::property::Property;
use crate::value::Value;
use smf_fmri::limits::MAX_PARTS;
use smf_fmri::{Items, Text};
use std::alloc::{AllocError, Global};

/// The kind that a property comes to have.
fn kind_after_edit(kind: Option<Kind>, present: Option<&Property>) -> Result<Kind, GroupFault>
    ensures { result ≡ kind_after_edit kind (option_copied present.entry) }
{
    match (kind, present) {
        (None, None) => Err(GroupFault::NeedsKind),
        (Some(kind), None) => Ok(kind),
        (None, Some(property)) => Ok(property.kind()),
        (Some(kind), Some(property)) => {
            if kind.code() == property.kind().code() {
                Ok(kind)
            } else {
                Err(GroupFault::KindDiffers)
            }
        }
    }
}

/// The value of a kind that a text spells.
fn read_value(alloc: Global, kind: Kind, text: &str) -> Result<Value, GroupFault>
    ensures exact { Answers (λ v. v) result (group_result (read_value kind text.now)) }
    ensures kind { IfOk result (λ v. kind_of v ≡ kind) }
{
    match Value::read(alloc, kind, text) {
        Ok(value) => Ok(value),
        Err(fault) => Err(GroupFault::from(fault)),
    }
}

/// The values of texts, or the first bad one's fault.
fn read_values(alloc: Global, kind: Kind, texts: &[Text]) -> Result<Items<Value>, GroupFault>
    ensures exact { Answers (λ v. v) result (read_values kind texts.now) }
    ensures kinds { IfOk result (λ v. AreOf kind v) }
{
    let mut values = Items::new(alloc);
    for text in texts {
        let value = read_value(alloc, kind, text.as_str())?;
        values.push(value)?;
    }
    Ok(values)
}

/// A copy of a property's values, if there is one.
fn values_of(alloc: Global, present: Option<&Property>) -> Result<Items<Value>, AllocError>
    ensures copy { IfOk result (λ v. v ≡ values_of (option_copied present.entry)) }
    ensures kinds { OnOk result (IfSome (option_copied present.entry) (λ p. AreOf p.kind p.values)) }
{
    match present {
        None => Ok(Items::new(alloc)),
        Some(property) => property.copy_values(),
    }
}

/// A copy of the values that are not this one.
fn values_but(alloc: Global, values: &[Value], value: &Value) -> Result<Items<Value>, AllocError>
    ensures { IfOk result (λ v. v ≡ filter (λ w. not (is_value w value.now)) values.now) }
{
    let mut others = Items::new(alloc);
    for other in values {
        if !other.is_value(value) {
            others.push(other.clone()?)?;
        }
    }
    Ok(others)
}

/// A property of these values, if they are not too many.
fn property_or_full(name: &Name, kind: Kind, values: Items<Value>) -> Result<Property, GroupFault>
    requires { AreOf kind values }
    ensures { Answers (λ p. p) result (property_or_full (record { name = name.now; kind = kind; values = values })) }
{
    if values.len() > MAX_PARTS {
        return Err(GroupFault::Full);
    }
    let name = name.clone()?;
    Ok(Property::new(name, kind, values))
}

/// A property of the values of texts, and no others.
#[tactic(auto, unfolding(crate::specs::Edits::property_set))]
fn property_set(
    alloc: Global,
    name: &Name,
    kind: Option<Kind>,
    texts: &[Text],
    present: Option<&Property>,
) -> Result<Property, GroupFault>
    ensures { Answers (λ p. p) result (property_set name.now kind texts.now (option_copied present.entry)) }
{
    let kind = kind_after_edit(kind, present)?;
    let values = read_values(alloc, kind, texts)?;
    property_or_full(name, kind, values)
}

/// A property with a further value.
#[tactic(auto, unfolding(crate::specs::Edits::property_added))]
fn property_added(
    alloc: Global,
    name: &Name,
    kind: Option<Kind>,
    text: &str,
    present: Option<&Property>,
) -> Result<Property, GroupFault>
    ensures { Answers (λ p. p) result (property_added name.now kind text.now (option_copied present.entry)) }
{
    let kind = kind_after_edit(kind, present)?;
    let value = read_value(alloc, kind, text)?;
    let mut values = values_of(alloc, present)?;
    values.push(value)?;
    property_or_full(name, kind, values)
}

/// A property without the values that equal one.
#[tactic(auto, unfolding(crate::specs::Edits::property_less))]
fn property_less(alloc: Global, text: &str, property: &Property) -> Result<Property, GroupFault>
    ensures { Answers (λ p. p) result (property_less text.now property.now) }
{
    let value = read_value(alloc, property.kind(), text)?;
    let values = values_but(alloc, property.values(), &value)?;
    let name = property.name().clone()?;
    Ok(Property::new(name, property.kind(), values))
}

/// The same of a property that has to be there.
fn present_less(
    alloc: Global,
    text: &str,
    present: Option<&Property>,
) -> Result<Property, GroupFault>
    ensures { Answers (λ p. p) result (present_less text.now (option_copied present.entry)) }
{
    match present {
        None => Err(GroupFault::NoSuch),
        Some(property) => property_less(alloc, text, property),
    }
}

impl Group {
    /// Gives a property these values, and no others. A new property needs its kind; a present one keeps its own.
    pub fn set(
        &mut self,
        alloc: Global,
        name: &Name,
        kind: Option<Kind>,
        texts: &[Text],
    ) -> Result<(), GroupFault>
        ensures { Leaves result (set name.now kind texts.now self.old) self.old self.new }
    {
        let property = property_set(alloc, name, kind, texts, self.find(name.as_str()))?;
        self.put(property)
    }

    /// Puts a value after a property's others, even if the property has it already. A missing property is made, as by
    /// `set`.
    pub fn add_value(
        &mut self,
        alloc: Global,
        name: &Name,
        kind: Option<Kind>,
        text: &str,
    ) -> Result<(), GroupFault>
        ensures { Leaves result (add_value name.now kind text.now self.old) self.old self.new }
    {
        let property = property_added(alloc, name, kind, text, self.find(name.as_str()))?;
        self.put(property)
    }

    /// Takes every value that equals this one out of a property, which stays, also without values.
    pub fn del_value(&mut self, alloc: Global, name: &Name, text: &str) -> Result<(), GroupFault>
        ensures { Leaves result (del_value name.now text.now self.old) self.old self.new }
    {
        let property = present_less(alloc, text, self.find(name.as_str()))?;
        self.put(property)
    }
}
