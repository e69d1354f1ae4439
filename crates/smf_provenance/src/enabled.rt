ghost use Rattle.std.specs.Option.{option_copied};
ghost use Rattle.std.specs.Prelude.{◌≡◌};
ghost use Rattle.smf_provenance.specs.Enabled.{enabled_by, first_that, has_enabled};

use crate::evidence::EnabledBy;
use smf_value::Group;

fn has_enabled(group: Option<&Group>) -> bool
    ensures { result ≡ has_enabled (option_copied group.entry) }
{
    match group {
        None => false,
        Some(group) => group.find("enabled").is_some(),
    }
}

fn first_that(by_override: bool, by_own: bool, by_service: bool) -> Option<EnabledBy>
    ensures { result ≡ first_that by_override by_own by_service }
{
    if by_override {
        Some(EnabledBy::Override)
    } else if by_own {
        Some(EnabledBy::Own)
    } else if by_service {
        Some(EnabledBy::OfService)
    } else {
        None
    }
}

/// The group that says whether an instance is enabled, of its `general_ovr`, its `general` and that of its service. None if
/// none of them says it.
pub fn enabled_by(
    ovr: Option<&Group>,
    own: Option<&Group>,
    services_own: Option<&Group>,
) -> Option<EnabledBy>
    ensures { result
        ≡ enabled_by (option_copied ovr.entry) (option_copied own.entry) (option_copied services_own.entry) }
{
    first_that(
        has_enabled(ovr),
        has_enabled(own),
        has_enabled(services_own),
    )
}
