ghost use Rattle.smf_snap.specs.Composed.{composed_group, composition, group_of};
ghost use Rattle.smf_value.specs.Groups.{GroupRecord};
ghost use Rattle.std.specs.Option.{option_copied};
ghost use Rattle.std.specs.Prelude.{◌≡◌, Some, None};

use smf_fmri::Ordered;
use smf_value::Group;

/// The group of a name that an instance has: its own, else its service's, each as a whole.
pub fn composed_group<'a>(
    instance: &'a Ordered<Group>,
    service: &'a Ordered<Group>,
    name: &str,
) -> Option<&'a Group>
    ensures own { (g : GroupRecord) → group_of name.now instance.now ≡ Some g → option_copied result ≡ Some g }
    ensures services_own { group_of name.now instance.now ≡ None
        → option_copied result ≡ group_of name.now service.now }
    // It is the group of the name in the list of all that the instance has.
    ensures listed { option_copied result ≡ group_of name.now (composition instance.now service.now) }
    ensures value { option_copied result ≡ composed_group instance.now service.now name.now }
{
    // Looking at the instance's groups lets the proof know that they stand in order.
    let _groups = instance.as_slice();
    find_composed(instance, service, name)
}

#[tactic(auto, unfolding(crate::specs::Composed::composed_group))]
fn find_composed<'a>(
    instance: &'a Ordered<Group>,
    service: &'a Ordered<Group>,
    name: &str,
) -> Option<&'a Group>
    ensures { option_copied result ≡ composed_group instance.now service.now name.now }
{
    match instance.get_text(name) {
        Some(group) => Some(group),
        None => service.get_text(name),
    }
}
