ghost use Rattle.smf_fmri.specs.ByKey.{Rises, by_text, list_with_item};
ghost use Rattle.smf_value.specs.Edits.{Leaves, del, put_property};
ghost use Rattle.smf_value.specs.Groups.{IsGroup, by_property, group_with, property_of, text_in};
ghost use Rattle.smf_value.specs.declared.fault.GroupFault.TheVariants.{Memory};
ghost use Rattle.std.specs.Int.RustNames.{bit_and};
ghost use Rattle.std.specs.Option.{option_copied};
ghost use Rattle.std.specs.Prelude.{◌≡◌, ◌≢◌, ◌≤◌, ◌==◌, [], Err, length, nat_lt, refl};

use crate::astring::Astring;
use crate::fault::GroupFault;
use crate::flags::GroupFlags;
use crate::name::Name;
use crate::property::Property;
use bitflags::Flags;
use smf_fmri::limits::MAX_PARTS;
use smf_fmri::{ExactClone, Items, Keyed, Ordered, TextKeyed};
use std::alloc::{AllocError, Global};
use std::marker::Model;

/// A group: a name, a type, whether it is kept over a boot, and at most 1,000 properties in the order of their names.
#[derive(Drop)]
pub struct Group {
    name: Name,
    group_type: Name,
    flags: GroupFlags,
    properties: Ordered<Property>,
}

impl Model for Group {
    ghost use Rattle.smf_value.specs.Groups.{GroupRecord, group_with};
    ghost use Rattle.std.specs.Int.RustNames.{bit_and};
    ghost use Rattle.std.specs.Prelude.{◌==◌, ◌≤◌, length};

    ghost Value = { GroupRecord };

    ghost view = { λ g. group_with g.name g.group_type (bit_and g.flags.0 1 == 1) g.properties };

    ghost invariant = { λ g. length g.properties ≤ 1000 };
}

impl Group {
    /// A group without properties.
    pub fn new(alloc: Global, name: Name, group_type: Name, flags: GroupFlags) -> Group
        ensures { result ≡ group_with name group_type (bit_and flags.0 1 == 1) [] }
    {
        Group {
            name,
            group_type,
            flags,
            properties: Ordered::new(alloc),
        }
    }

    /// A group of properties that are known to stand in order.
    pub(crate) fn with_properties(
        name: Name,
        group_type: Name,
        non_persistent: bool,
        properties: Items<Property>,
    ) -> Group
        requires rises { Rises by_property properties }
        requires bounded { length properties ≤ 1000 }
        ensures { result ≡ group_with name group_type non_persistent properties }
    {
        Group {
            name,
            group_type,
            flags: if non_persistent {
                GroupFlags::NON_PERSISTENT
            } else {
                GroupFlags::NONE
            },
            properties: Ordered::from_vec(properties.into_vec()),
        }
    }

    pub fn name(&self) -> &Name
        ensures { result.now ≡ self.now.name }
    {
        &self.name
    }

    pub fn group_type(&self) -> &Name
        ensures { result.now ≡ self.now.group_type }
    {
        &self.group_type
    }

    pub fn is_non_persistent(&self) -> bool
        ensures { result ≡ self.now.non_persistent }
    {
        self.flags.contains(GroupFlags::NON_PERSISTENT)
    }

    pub fn properties(&self) -> &[Property]
        ensures properties { result.now ≡ self.now.properties }
        ensures formed { IsGroup self.now }
    {
        self.properties.as_slice()
    }

    /// The property of a name.
    pub fn find(&self, name: &str) -> Option<&Property>
        ensures { option_copied result ≡ property_of name.now self.now }
    {
        self.properties.get_text(name)
    }

    /// The text of the property of a name, if it has one value, of kind astring.
    pub fn text(&self, name: &str) -> Option<&Astring>
        ensures { option_copied result ≡ text_in (property_of name.now self.now) }
    {
        match self.find(name) {
            None => None,
            Some(property) => property.text(),
        }
    }
}

impl Group {
    /// Puts a property in its place, over the one that has its name, of whatever kind that is. `Full`: a new one past
    /// 1,000.
    pub fn put(&mut self, property: Property) -> Result<(), GroupFault>
        ensures { Leaves result (put_property property self.old) self.old self.new }
    {
        if is_one_too_many(&self.properties, &property) {
            return Err(GroupFault::Full);
        }
        self.properties.put(property)?;
        Ok(())
    }

    /// Takes a property out of the group. This needs no memory.
    pub fn del(&mut self, name: &Name) -> Result<(), GroupFault>
        ensures exact { Leaves result (del name.now self.old) self.old self.new }
        ensures never { result ≢ Err Memory }
    {
        if self.properties.get(name).is_none() {
            return Err(GroupFault::NoSuch);
        }
        self.properties.remove(name);
        Ok(())
    }
}

/// True if a property would be one more than a group may have.
fn is_one_too_many(properties: &Ordered<Property>, property: &Property) -> bool
    requires { length properties.now ≤ 1000 }
    ensures { result ≡ nat_lt 1000 (length (list_with_item by_property property.now properties.now)) }
{
    if properties.as_slice().len() < MAX_PARTS {
        return false;
    }
    properties.get(property.key()).is_none()
}

impl Keyed for Group {
    type Key = Name;

    ghost by = { by_text (λ g. g.name) };

    fn key(&self) -> &Name {
        &self.name
    }

    ghost same = { refl };
}

impl TextKeyed for Group {
    ghost text = { λ g. g.name };

    fn key_text(&self) -> &str {
        self.name.as_str()
    }

    ghost same_order = { λ gs rises. rises };
}

impl Clone for Group {
    ghost is_clone = { λ s copy. copy ≡ s };

    fn clone(&self) -> Result<Group, AllocError> {
        let name = self.name.clone()?;
        let group_type = self.group_type.clone()?;
        let properties = self.properties.clone()?;
        Ok(Group {
            name,
            group_type,
            flags: self.flags,
            properties,
        })
    }
}

impl ExactClone for Group {
    ghost exact = { λ g copy same. same };
}
