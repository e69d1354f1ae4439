ghost use Rattle.std.specs.Prelude.{◌≡◌};
ghost use Rattle.smf_runs.specs.FaultTexts.{IsOpenTold, table_text};

use smf_lines::{TextWriter, tell};
use smf_store::{OpenFault, StoreTable};
use std::alloc::Global;

fn table_text(table: StoreTable) -> &'static str
    ensures { result.now ≡ table_text table }
{
    match table {
        StoreTable::Meta => "smf: store: damaged meta",
        StoreTable::Service => "smf: store: damaged service",
        StoreTable::Instance => "smf: store: damaged instance",
        StoreTable::Group => "smf: store: damaged grp",
        StoreTable::Snapshot => "smf: store: damaged snap",
        StoreTable::Restarter => "smf: store: damaged restarter",
    }
}

fn tell_version<E: TextWriter>(alloc: Global, errors: &mut E, version: &i64) -> u8
    ensures status { result ≡ 3 }
    ensures told { IsOpenTold E.write_fails (E.contents errors.old) (E.contents errors.new)
        (OpenFault.Version version.now) }
{
    match format!(in alloc; "smf: store: version {version}") {
        Ok(text) => tell(errors, text.as_str()),
        Err(_) => tell(errors, "smf: no memory"),
    }
}

/// Says why a store was not opened, as far as that can be written, and gives the status of such a run.
pub fn tell_open<E: TextWriter>(alloc: Global, errors: &mut E, fault: &OpenFault) -> u8
    ensures status { result ≡ 3 }
    ensures told { IsOpenTold E.write_fails (E.contents errors.old) (E.contents errors.new) fault.now }
{
    match fault {
        OpenFault::Memory => tell(errors, "smf: no memory"),
        OpenFault::Database => tell(errors, "smf: store: database failed"),
        OpenFault::Damaged(table) => tell(errors, table_text(*table)),
        OpenFault::Version(version) => tell_version(alloc, errors, version),
        OpenFault::TooManyInstances => tell(errors, "smf: store: too many instances"),
    }
}
