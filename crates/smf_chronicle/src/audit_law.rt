//! Laws of the definitions.

ghost use Rattle.smf_chronicle.specs.Audit.{IsExact};
ghost use Rattle.smf_chronicle.specs.Breaches.{AgreesOnTrails, IsExactTold};
ghost use Rattle.smf_chronicle.specs.declared.entry.Entry.{Entry as AnyEntry};
ghost use Rattle.smf_world.specs.declared.item.Item.{Item as AnyItem};
ghost use Rattle.std.specs.Prelude.{List};

/// No breach is found exactly if a chronicle is safe. Else the entries before the breach are safe, and with the entry at
/// its place the rule that it names is broken.
pub fn an_audit_of_lives_is_exact()
    ensures { (entries : List AnyEntry) → IsExactTold entries }
{}

/// Of the trail of one life that boots, a chronicle says exactly what is safe to read off a trail.
pub fn a_life_is_a_trail()
    ensures { (items : List AnyItem) → AgreesOnTrails items }
{}

/// No breach of a trail is found exactly if it is safe. Else the items before the breach are safe, and with the item at its
/// place the rule that it names is broken.
pub fn an_audit_is_exact()
    ensures { (items : List AnyItem) → IsExact items }
{}
