ghost use Rattle.smf_method.specs.Outcomes.{is_fatal, outcome_of};
ghost use Rattle.std.specs.Prelude.{◌≡◌};

use smf_contract::{Exit, Method};

/// The meaning of the end of a method.
#[derive(Clone, Copy, PartialEq, Eq)]
pub enum MethodOutcome {
    Good,
    /// It failed, and may be run again.
    Retry,
    /// It failed, and would fail again.
    Fatal,
}

/// True if a code says that no further run would succeed.
fn is_fatal(method: Method, code: u8) -> bool
    ensures { result ≡ is_fatal method code }
{
    match method {
        Method::Start => code == 95 || code == 96 || code == 99 || code == 100,
        Method::Stop => false,
        Method::Refresh => false,
    }
}

/// The outcome of a method that ended so.
pub fn judge(method: Method, exit: Exit) -> MethodOutcome
    ensures { result ≡ outcome_of method exit }
{
    match exit {
        Exit::Killed => MethodOutcome::Retry,
        Exit::Code(code) => {
            if code == 0 {
                MethodOutcome::Good
            } else if is_fatal(method, code) {
                MethodOutcome::Fatal
            } else {
                MethodOutcome::Retry
            }
        }
    }
}
