ghost use Rattle.smf_fmri.specs.ByKey.{by_text};
ghost use Rattle.smf_value.specs.Groups.{AreOf, PropertyRecord, text_of};
ghost use Rattle.smf_value.specs.Values.{kind_of};
ghost use Rattle.std.specs.Option.{option_copied};
ghost use Rattle.std.specs.Prelude.{◌≡◌, ◌≤◌, [], ◌∷◌, IfOk, length, refl};

use crate::astring::Astring;
use crate::kind::Kind;
use crate::name::Name;
use crate::value::Value;
use smf_fmri::{ExactClone, Items, Keyed, TextKeyed};
use std::alloc::{AllocError, Global};
use std::marker::Model;

/// A property: a name, a kind, and at most 1,000 values of that kind.
#[derive(Drop)]
pub struct Property {
    name: Name,
    kind: Kind,
    values: Vec<Value>,
}

impl Model for Property {
    ghost use Rattle.smf_value.specs.Groups.{PropertyRecord, IsProperty};

    ghost Value = { PropertyRecord };

    ghost view = { λ p. record { name = p.name; kind = p.kind; values = p.values.items } };

    ghost invariant = { λ p. IsProperty (record { name = p.name; kind = p.kind; values = p.values.items }) };
}

impl Property {
    /// A property of values that are known to be of its kind, and not too many.
    pub fn new(name: Name, kind: Kind, values: Items<Value>) -> Property
        requires kinds { AreOf kind values }
        requires bounded { length values ≤ 1000 }
        ensures { result ≡ record { name = name; kind = kind; values = values } }
    {
        Property {
            name,
            kind,
            values: values.into_vec(),
        }
    }

    /// A property of one value.
    pub fn single(alloc: Global, name: Name, value: Value) -> Result<Property, AllocError>
        ensures { IfOk result (λ p. p ≡ record { name = name; kind = kind_of value; values = value ∷ [] }) }
    {
        let kind = value.kind();
        let mut values = Vec::new(alloc);
        values.push(value)?;
        Ok(Property { name, kind, values })
    }

    pub fn name(&self) -> &Name
        ensures { result.now ≡ self.now.name }
    {
        &self.name
    }

    pub fn kind(&self) -> Kind
        ensures { result ≡ self.now.kind }
    {
        self.kind
    }

    pub fn values(&self) -> &[Value]
        ensures values { result.now ≡ self.now.values }
        ensures kinds { AreOf self.now.kind self.now.values }
        ensures bounded { length self.now.values ≤ 1000 }
    {
        self.values.as_slice()
    }

    /// Its text, if it has one value, of kind astring.
    pub fn text(&self) -> Option<&Astring>
        ensures { option_copied result ≡ text_of self.now.values }
    {
        text_of(self.values())
    }
}

fn text_of(values: &[Value]) -> Option<&Astring>
    ensures { option_copied result ≡ text_of values.now }
{
    match values {
        [Value::Astring(text)] => Some(text),
        _ => None,
    }
}

impl Property {
    /// The values with memory of their own.
    pub fn copy_values(&self) -> Result<Items<Value>, AllocError>
        ensures copy { IfOk result (λ copy. copy ≡ self.now.values) }
        ensures kinds { AreOf self.now.kind self.now.values }
    {
        Ok(Items::from_vec(copy_of(&self.values)?))
    }
}

impl Keyed for Property {
    type Key = Name;

    ghost by = { by_text (λ p. p.name) };

    fn key(&self) -> &Name {
        &self.name
    }

    ghost same = { refl };
}

impl TextKeyed for Property {
    ghost text = { λ p. p.name };

    fn key_text(&self) -> &str {
        self.name.as_str()
    }

    ghost same_order = { λ ps rises. rises };
}

impl Clone for Property {
    ghost is_clone = { λ s copy. copy ≡ s };

    fn clone(&self) -> Result<Property, AllocError> {
        let name = self.name.clone()?;
        let values = copy_of(&self.values)?;
        Ok(Property {
            name,
            kind: self.kind,
            values,
        })
    }
}

impl ExactClone for Property {
    ghost exact = { λ p copy same. same };
}

#[tactic(auto, using(crate::proofs::Copies::same_items))]
fn copy_of(values: &Vec<Value>) -> Result<Vec<Value>, AllocError>
    ensures { IfOk result (λ copy. copy.items ≡ values.now.items) }
{
    values.clone()
}
