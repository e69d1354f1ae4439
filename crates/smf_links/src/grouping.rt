//! The words of a dependency group.

ghost use Rattle.std.specs.Prelude.{◌≡◌};
ghost use Rattle.smf_links.specs.Groupings.{grouping_by, restart_by};

/// How many of the entities of a group have to run.
#[derive(Clone, Copy, PartialEq, Eq)]
pub enum Grouping {
    RequireAll,
    RequireAny,
    /// Each of them, but for those that won't run.
    OptionalAll,
    /// None of them.
    ExcludeAll,
}

/// After which events of the entities a running instance is stopped.
#[derive(Clone, Copy, PartialEq, Eq)]
pub enum RestartOn {
    Nothing,
    /// A stop by an error.
    Error,
    /// Any stop.
    Restart,
    /// Any stop, or a refresh.
    Refresh,
}

impl Grouping {
    /// The grouping of a word.
    pub fn parse(text: &str) -> Option<Grouping>
        ensures { result ≡ grouping_by text.now }
    {
        if text == "require_all" {
            Some(Grouping::RequireAll)
        } else if text == "require_any" {
            Some(Grouping::RequireAny)
        } else if text == "optional_all" {
            Some(Grouping::OptionalAll)
        } else if text == "exclude_all" {
            Some(Grouping::ExcludeAll)
        } else {
            None
        }
    }
}

impl RestartOn {
    /// The meaning of a word of `restart_on`.
    pub fn parse(text: &str) -> Option<RestartOn>
        ensures { result ≡ restart_by text.now }
    {
        if text == "none" {
            Some(RestartOn::Nothing)
        } else if text == "error" {
            Some(RestartOn::Error)
        } else if text == "restart" {
            Some(RestartOn::Restart)
        } else if text == "refresh" {
            Some(RestartOn::Refresh)
        } else {
            None
        }
    }
}
