ghost use Rattle.std.specs.Prelude.{◌≡◌, max};
ghost use Rattle.smf_changes.specs.ChangeRecord.{greater, greatest_of, put_by, put_by_all};

use smf_model::{Change, InstanceEntry};

/// The greater of a number and that of a snapshot, if there is one.
fn greater(top: u64, running: Option<u64>) -> u64
    ensures { result ≡ greater top running }
{
    match running {
        None => top,
        Some(number) => top.max(number),
    }
}

/// The greatest snapshot that entries name as `running`.
pub(crate) fn greatest_of(entries: &[InstanceEntry]) -> u64
    ensures { result ≡ greatest_of 0 entries.now }
{
    let mut top = 0;
    for entry in entries {
        top = greater(top, entry.instance.row.running);
    }
    top
}

fn put_by(top: u64, change: &Change) -> u64
    ensures { result ≡ put_by top change.now }
{
    match change {
        Change::AddInstance(entry) => greater(top, entry.instance.row.running),
        Change::PutInstance(instance) => greater(top, instance.row.running),
        _ => top,
    }
}

/// The greatest that changes put, or that was named before.
pub(crate) fn put_by_all(top: u64, changes: &[Change]) -> u64
    ensures { result ≡ put_by_all top changes.now }
{
    let mut most = top;
    for change in changes {
        most = put_by(most, change);
    }
    most
}
