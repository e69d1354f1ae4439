//! Why an instance is in maintenance, by all that its server knows.

ghost use Rattle.smf_watch.specs.Bounds.{is_entry};
ghost use Rattle.smf_watch.specs.LastStart.{final_code};
ghost use Rattle.smf_watch.specs.Maintenance.{is_marked_in, moved_by, reason_by, reason_in, reason_of, reason_text, stands_as, start_by, stopped_by};
ghost use Rattle.smf_watch.specs.Retries.{is_retry_of};
ghost use Rattle.std.specs.Option.{option_copied};
ghost use Rattle.std.specs.Prelude.{◌≡◌, ◌++◌, OnOk, find};
ghost use Rattle.std.specs.String.{string_bytes};

use crate::bounds::entry_of;
use crate::causes::{KnownRow, MaintenanceCause};
use crate::last_start::final_code;
use crate::retries::{Retry, RetryStage, retry_of};
use smf_contract::ContractTable;
use smf_model::{InstanceEntry, Journal, Plain};
use smf_state::Cause;
use std::alloc::AllocError;
use std::fmt::Write;

/// Why an instance is in maintenance.
#[derive(Clone, Copy)]
pub enum MaintenanceReason {
    /// One start after another failed, and then one more than is allowed.
    StartsFailed,
    /// Its last start ended with this code, after which no further start would succeed.
    StartExited(u8),
    /// A start was given up: it could not be followed, or those that failed before it were another server's.
    StartFailed,
    StopFailed,
    /// The server marked it, since it ended too often.
    TooQuick,
    /// An administrator marked it.
    Marked,
    /// It cannot be run as it is configured.
    Faulty,
}

/// What is known of an instance besides the rows of its trail.
#[derive(Clone, Copy)]
struct Circumstances {
    /// Why it was last stopped.
    cause: Option<Cause>,
    /// The code of its last start, if no further start would succeed.
    code: Option<u8>,
    /// Whether the server marked it.
    is_marked: bool,
    /// Whether its configuration has a fault.
    is_faulty: bool,
}

/// A start was given up.
fn start_by(code: Option<u8>, otherwise: MaintenanceReason) -> MaintenanceReason
    ensures { result ≡ start_by code otherwise }
{
    match code {
        Some(code) => MaintenanceReason::StartExited(code),
        None => otherwise,
    }
}

/// It was moved to maintenance while it did not run.
fn moved_by(is_marked: bool, is_faulty: bool) -> MaintenanceReason
    ensures { result ≡ moved_by is_marked is_faulty }
{
    if is_marked {
        MaintenanceReason::TooQuick
    } else if is_faulty {
        MaintenanceReason::Faulty
    } else {
        MaintenanceReason::Marked
    }
}

/// It was stopped to be in maintenance, for this cause.
fn stopped_by(cause: Option<Cause>, is_marked: bool) -> MaintenanceReason
    ensures { result ≡ stopped_by cause is_marked }
{
    moved_by(
        is_marked && !matches!(cause, Some(Cause::Config)),
        matches!(cause, Some(Cause::Config)),
    )
}

fn reason_by(cause: MaintenanceCause, known: &Circumstances) -> MaintenanceReason
    ensures { result ≡ reason_by cause known.now }
{
    match cause {
        MaintenanceCause::StartsFailed => start_by(known.code, MaintenanceReason::StartsFailed),
        MaintenanceCause::StartFailed => start_by(known.code, MaintenanceReason::StartFailed),
        MaintenanceCause::StopFailed => MaintenanceReason::StopFailed,
        MaintenanceCause::Stopped => stopped_by(known.cause, known.is_marked),
        MaintenanceCause::Moved => moved_by(known.is_marked, known.is_faulty),
    }
}

/// Whether the server marked an instance before it came into this row.
fn is_marked_in(retry: Option<&Retry>, row: u64) -> bool
    ensures { result ≡ is_marked_in (option_copied retry.entry) row }
{
    match retry {
        None => false,
        Some(retry) => match retry.stage {
            RetryStage::Marked => true,
            RetryStage::Waits => retry.row == row,
            _ => false,
        },
    }
}

/// Whether an instance still stands in a row.
fn stands_as(entry: &InstanceEntry, known: &KnownRow) -> bool
    ensures { result ≡ stands_as entry.now known.now }
{
    entry.instance.row.number == known.row.number
}

fn reason_in(
    entry: &InstanceEntry,
    table: &ContractTable,
    retries: &[Retry],
    is_faulty: bool,
    known: &KnownRow,
) -> Option<MaintenanceReason>
    ensures { result ≡ reason_in entry.now table.now.table retries.now is_faulty known.now }
{
    if !stands_as(entry, known) {
        return None;
    }
    let circumstances = Circumstances {
        cause: entry.instance.row.cause,
        code: final_code(table, known.instance),
        is_marked: is_marked_in(retry_of(retries, known.instance), known.row.number),
        is_faulty,
    };
    match known.cause {
        Some(cause) => Some(reason_by(cause, &circumstances)),
        None => None,
    }
}

/// Why an instance is in maintenance. None if it is not known, or if it does not stand in this row any more. `is_faulty` is
/// whether its configuration has a fault.
pub fn reason_of<J: Journal>(
    repository: &Plain<J>,
    table: &ContractTable,
    retries: &[Retry],
    is_faulty: bool,
    known: &KnownRow,
) -> Option<MaintenanceReason>
    ensures { result ≡ reason_of repository.now.held table.now.table retries.now is_faulty known.now }
{
    match entry_of(repository, known.instance) {
        None => None,
        Some(entry) => reason_in(entry, table, retries, is_faulty, known),
    }
}

fn push_code(text: &mut String, code: u8) -> Result<(), AllocError>
    ensures { OnOk result
        (string_bytes text.new ≡ string_bytes text.old ++ reason_text (MaintenanceReason.StartExited code)) }
{
    match write!(
        text,
        "method start failed for good, with exit status {code}"
    ) {
        Ok(()) => Ok(()),
        Err(_) => Err(AllocError),
    }
}

/// Adds the words of a reason.
pub fn push_reason(text: &mut String, reason: MaintenanceReason) -> Result<(), AllocError>
    ensures { OnOk result (string_bytes text.new ≡ string_bytes text.old ++ reason_text reason) }
{
    match reason {
        MaintenanceReason::StartsFailed => text.push_str("method start failed repeatedly"),
        MaintenanceReason::StartExited(code) => push_code(text, code),
        MaintenanceReason::StartFailed => text.push_str("method start failed"),
        MaintenanceReason::StopFailed => text.push_str("method stop failed"),
        MaintenanceReason::TooQuick => text.push_str("it restarted too quickly"),
        MaintenanceReason::Marked => text.push_str("an administrator marked it"),
        MaintenanceReason::Faulty => text.push_str("its configuration has a fault"),
    }
}
