//! The ends that follow on what was under way.

ghost use Rattle.std.specs.Prelude.{◌≡◌};
ghost use Rattle.smf_restarter.specs.Ends.{ended_refresh, ended_start, ended_stop, failed_with, not_followed, start_counted, start_failed, start_given_up, start_succeeded, stop_failed, end_of_stop, end_on_success};

use crate::known::{Drain, Ending};
use smf_contract::Method;
use smf_fmri::limits::FAILED_STARTS_ALLOWED;
use smf_state::{Cause, Row, State};

/// A start that succeeded ends online, with nothing to be drained.
pub(crate) fn start_succeeded() -> Ending
    ensures { result ≡ start_succeeded }
{
    Ending {
        to: State::Online,
        failed: 0,
        cause: Cause::NonError,
        drain: Drain::Nothing,
    }
}

/// The end of a refresh, in the state that the row has.
pub(crate) fn ended_refresh(row: &Row) -> Ending
    ensures { result ≡ ended_refresh row.now }
{
    Ending {
        to: row.state,
        failed: 0,
        cause: Cause::NonError,
        drain: Drain::Side,
    }
}

/// The end of a stop to a state. If the row names no cause, the cause is `NonError`.
pub(crate) fn ended_stop(row: &Row, next: State) -> Ending
    ensures { result ≡ ended_stop row.now next }
{
    Ending {
        to: next,
        failed: 0,
        cause: row.cause.unwrap_or(Cause::NonError),
        drain: Drain::Both,
    }
}

/// The end that follows a method's success.
pub(crate) fn end_on_success(row: &Row, method: Method) -> Ending
    ensures { result ≡ end_on_success row.now method }
{
    match method {
        Method::Start => start_succeeded(),
        Method::Stop => ended_stop(row, row.next.unwrap_or(row.state)),
        Method::Refresh => ended_refresh(row),
    }
}

/// The end of a stop to a state that has no method.
pub(crate) fn end_of_stop(to: State, cause: Cause) -> Ending
    ensures { result ≡ end_of_stop to cause }
{
    Ending {
        to,
        failed: 0,
        cause,
        drain: Drain::Both,
    }
}

/// The end of a start that the restarter gives up: maintenance.
fn start_given_up() -> Ending
    ensures { result ≡ start_given_up }
{
    Ending {
        to: State::Maintenance,
        failed: 0,
        cause: Cause::NonError,
        drain: Drain::Live,
    }
}

/// The end of a start that may be tried again, with this count of failures.
fn start_counted(failed: u64) -> Ending
    ensures { result ≡ start_counted failed }
{
    Ending {
        to: State::Offline,
        failed,
        cause: Cause::NonError,
        drain: Drain::Live,
    }
}

/// The end of a start that failed. The third failure in a row is the last, and so is one after which a further start
/// would fail too.
fn start_failed(row: &Row, fatal: bool) -> Ending
    ensures { result ≡ start_failed row.now fatal }
{
    if fatal || FAILED_STARTS_ALLOWED <= row.failed {
        start_given_up()
    } else {
        start_counted(row.failed + 1)
    }
}

/// The end of a stop whose method failed.
fn stop_failed() -> Ending
    ensures { result ≡ stop_failed }
{
    Ending {
        to: State::Maintenance,
        failed: 0,
        cause: Cause::Error,
        drain: Drain::Both,
    }
}

/// The end that follows a method's failure. `fatal` says that a further run would fail too.
pub(crate) fn failed_with(row: &Row, method: Method, fatal: bool) -> Ending
    ensures { result ≡ failed_with row.now method fatal }
{
    match method {
        Method::Start => start_failed(row, fatal),
        Method::Stop => stop_failed(),
        Method::Refresh => ended_refresh(row),
    }
}

/// The end that follows if the children of a method could not be followed.
pub(crate) fn not_followed(row: &Row, method: Method) -> Ending
    ensures { result ≡ not_followed row.now method }
{
    match method {
        Method::Start => start_given_up(),
        Method::Stop => stop_failed(),
        Method::Refresh => ended_refresh(row),
    }
}

/// The end of a start that was under way when the restarter was launched. It does not count as a failure.
pub(crate) fn ended_start(row: &Row) -> Ending
    ensures { result ≡ ended_start row.now }
{
    start_counted(row.failed)
}
