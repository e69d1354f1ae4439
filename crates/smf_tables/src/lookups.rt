ghost use Rattle.std.specs.Prelude.{◌≡◌, IfOk, string_bytes};
ghost use Rattle.sqlite.specs.declared.types.Value.TheVariants.{Text};
ghost use Rattle.sqlite.specs.Order.{column};
ghost use Rattle.smf_tables.specs.Calls.{CommitsNone, Finds, IsInside, LeavesAsBefore};
ghost use Rattle.smf_tables.specs.Statements.{FindsService, ReadsName};

use sqlite::{Alter, Error, Row, Transaction, params};

/// The name of an instance, in two columns.
#[derive(Drop)]
pub struct NameColumns {
    pub service: String,
    pub name: String,
}

fn name_in(row: &Row) -> Result<NameColumns, Error>
    ensures { IfOk result (λ it. (column row.now 0 ≡ Text (string_bytes it.service))
        × (column row.now 1 ≡ Text (string_bytes it.name))) }
{
    let service = row.get(0)?;
    let name = row.get(1)?;
    Ok(NameColumns { service, name })
}

/// The name of the instance of a number, if there is one.
pub fn name_of<S: Alter>(tx: &mut Transaction<'_, S>, id: i64) -> Result<Option<NameColumns>, Error>
    requires { IsInside S.Store tx.old.conn.now }
    ensures same_reference { tx.new.conn.ghost_name ≡ tx.old.conn.ghost_name }
    ensures ok { Finds (ReadsName id) S.Store tx.old.conn.now tx.new.conn.now result }
    ensures err { CommitsNone S.Store tx.old.conn.now tx.new.conn.now result }
    ensures crash { LeavesAsBefore S.Store tx.old.conn.now tx.new.conn.now }
{
    let rows = match tx.query_all(
        "SELECT service, name FROM instance WHERE id = ?1",
        params![id],
    ) {
        Ok(rows) => rows,
        Err(fault) => return Err(fault),
    };
    if rows.is_empty() {
        return Ok(None);
    }
    match name_in(&rows[0]) {
        Ok(name) => Ok(Some(name)),
        Err(fault) => Err(fault),
    }
}

/// True if a service is there.
pub fn has_service<S: Alter>(tx: &mut Transaction<'_, S>, name: &str) -> Result<bool, Error>
    requires { IsInside S.Store tx.old.conn.now }
    ensures same_reference { tx.new.conn.ghost_name ≡ tx.old.conn.ghost_name }
    ensures ok { Finds (FindsService name.now) S.Store tx.old.conn.now tx.new.conn.now result }
    ensures err { CommitsNone S.Store tx.old.conn.now tx.new.conn.now result }
    ensures crash { LeavesAsBefore S.Store tx.old.conn.now tx.new.conn.now }
{
    let rows = match tx.query_all("SELECT name FROM service WHERE name = ?1", params![name]) {
        Ok(rows) => rows,
        Err(fault) => return Err(fault),
    };
    if rows.is_empty() {
        return Ok(false);
    }
    Ok(true)
}
