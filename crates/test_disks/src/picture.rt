use sqlite::{Alter, Connection, Error, Row};
use sqlite_value::value::ValueRef;
use std::alloc::{AllocError, Global};

/// All of a store.
const QUERIES: [&str; 6] = [
    "SELECT k, v FROM meta ORDER BY k",
    "SELECT name FROM service ORDER BY name",
    "SELECT id, service, name, rowtext, start_snap, previous_snap FROM instance ORDER BY id",
    "SELECT service, instance, name, body FROM grp ORDER BY service, instance, name",
    "SELECT id, instance, body FROM snap ORDER BY id",
    "SELECT name, launch FROM restarter ORDER BY name",
];

/// Adds a value: what it is, its length, and its bytes.
fn add_bytes(picture: &mut Vec<u8>, kind: u8, bytes: &[u8]) -> Result<(), AllocError> {
    picture.push(kind)?;
    picture.extend_from_slice(&bytes.len().to_le_bytes())?;
    picture.extend_from_slice(bytes)?;
    Ok(())
}

fn add_value(picture: &mut Vec<u8>, value: ValueRef<'_>) -> Result<(), AllocError> {
    match value {
        ValueRef::Null => add_bytes(picture, b'n', &[]),
        ValueRef::Int(number) => add_bytes(picture, b'i', &number.to_le_bytes()),
        // No column of a store holds such a number.
        ValueRef::Real(_) => add_bytes(picture, b'r', &[]),
        ValueRef::Text(bytes) => add_bytes(picture, b't', bytes),
        ValueRef::Blob(bytes) => add_bytes(picture, b'b', bytes),
    }
}

fn add_row(picture: &mut Vec<u8>, row: &Row) -> Result<(), Error> {
    for at in 0..row.column_count() {
        add_value(picture, row.get_ref(at)?)?;
    }
    Ok(())
}

/// Adds the rows of a table.
fn add_table<S: Alter>(
    picture: &mut Vec<u8>,
    conn: &mut Connection<S>,
    query: &str,
) -> Result<(), Error> {
    let rows = conn.query_all(query, &[])?;
    add_bytes(picture, b'q', &rows.len().to_le_bytes())?;
    for row in &rows {
        add_row(picture, row)?;
    }
    Ok(())
}

/// The rows of a database's tables, as bytes: none if it has no tables.
pub(crate) fn picture<S: Alter>(alloc: Global, conn: &mut Connection<S>) -> Result<Vec<u8>, Error> {
    let mut picture = Vec::new(alloc);
    if conn.schema().tables.is_empty() {
        return Ok(picture);
    }
    for query in QUERIES {
        add_table(&mut picture, conn, query)?;
    }
    Ok(picture)
}
