ghost use Rattle.std.specs.Prelude.{◌≡◌, Some};
ghost use Rattle.smf_state.specs.States.{edge, runs, state_text, read_state, cause_text, read_cause, duration_text, read_duration};

use std::fmt;

/// The state of an instance, as smf(5) has them.
#[derive(Clone, Copy, PartialEq, Eq)]
pub enum State {
    Uninitialized,
    Disabled,
    Offline,
    Online,
    Degraded,
    Maintenance,
}

/// Why an instance stops.
#[derive(Clone, Copy, PartialEq, Eq)]
pub enum Cause {
    Error,
    NonError,
    Admin,
    Config,
}

/// The kind of a running instance: processes of a contract, nothing, or one child, as svc.startd(1M) reads
/// `startd/duration`.
#[derive(Clone, Copy, PartialEq, Eq)]
pub enum Duration {
    Contract,
    Transient,
    Child,
}

/// True if an instance may go from one state to the other without a boot. The edge from disabled to uninitialized is
/// that of a move to another restarter, and no step takes it.
pub fn edge(from: State, to: State) -> bool
    ensures { result ≡ edge from to }
{
    match from {
        State::Uninitialized => {
            matches!(to, State::Disabled | State::Offline | State::Maintenance)
        }
        State::Disabled => matches!(
            to,
            State::Offline | State::Maintenance | State::Uninitialized
        ),
        State::Offline => matches!(to, State::Online | State::Disabled | State::Maintenance),
        State::Online => matches!(
            to,
            State::Degraded | State::Offline | State::Disabled | State::Maintenance
        ),
        State::Degraded => matches!(
            to,
            State::Online | State::Offline | State::Disabled | State::Maintenance
        ),
        State::Maintenance => matches!(to, State::Offline | State::Disabled),
    }
}

impl State {
    /// Online or degraded.
    pub fn runs(self) -> bool
        ensures { result ≡ runs self }
    {
        matches!(self, State::Online | State::Degraded)
    }

    /// The word that svcs(1) prints.
    pub fn text(self) -> &'static str
        ensures { result.now ≡ state_text self }
    {
        match self {
            State::Uninitialized => "uninitialized",
            State::Disabled => "disabled",
            State::Offline => "offline",
            State::Online => "online",
            State::Degraded => "degraded",
            State::Maintenance => "maintenance",
        }
    }

    /// The state of a word.
    pub fn read(text: &str) -> Option<State>
        ensures { result ≡ read_state text.now }
    {
        if text == "uninitialized" {
            Some(State::Uninitialized)
        } else if text == "disabled" {
            Some(State::Disabled)
        } else if text == "offline" {
            Some(State::Offline)
        } else if text == "online" {
            Some(State::Online)
        } else if text == "degraded" {
            Some(State::Degraded)
        } else if text == "maintenance" {
            Some(State::Maintenance)
        } else {
            None
        }
    }
}

impl Cause {
    pub fn text(self) -> &'static str
        ensures { result.now ≡ cause_text self }
    {
        match self {
            Cause::Error => "error",
            Cause::NonError => "nonerror",
            Cause::Admin => "admin",
            Cause::Config => "config",
        }
    }

    /// The cause of a word.
    pub fn read(text: &str) -> Option<Cause>
        ensures { result ≡ read_cause text.now }
    {
        if text == "error" {
            Some(Cause::Error)
        } else if text == "nonerror" {
            Some(Cause::NonError)
        } else if text == "admin" {
            Some(Cause::Admin)
        } else if text == "config" {
            Some(Cause::Config)
        } else {
            None
        }
    }
}

impl Duration {
    pub fn text(self) -> &'static str
        ensures { result.now ≡ duration_text self }
    {
        match self {
            Duration::Contract => "contract",
            Duration::Transient => "transient",
            Duration::Child => "child",
        }
    }

    /// The duration of a word.
    pub fn read(text: &str) -> Option<Duration>
        ensures { result ≡ read_duration text.now }
    {
        if text == "contract" {
            Some(Duration::Contract)
        } else if text == "transient" {
            Some(Duration::Transient)
        } else if text == "child" {
            Some(Duration::Child)
        } else {
            None
        }
    }
}

impl fmt::Display for State {
    ghost output = { λ s. Some (state_text s) };

    fn fmt<W: fmt::Write>(&self, f: &mut fmt::Formatter<W>) -> fmt::Result {
        fmt::Display::fmt(self.text(), f)
    }
}

impl fmt::Display for Cause {
    ghost output = { λ c. Some (cause_text c) };

    fn fmt<W: fmt::Write>(&self, f: &mut fmt::Formatter<W>) -> fmt::Result {
        fmt::Display::fmt(self.text(), f)
    }
}

impl fmt::Display for Duration {
    ghost output = { λ d. Some (duration_text d) };

    fn fmt<W: fmt::Write>(&self, f: &mut fmt::Formatter<W>) -> fmt::Result {
        fmt::Display::fmt(self.text(), f)
    }
}
