ghost use Rattle.std.specs.Prelude.{◌≡◌, IfOk};

use crate::row::Row;
use std::alloc::{AllocError, Global};
use std::marker::Model;
use std::ops::Deref;
use std::rc::Rc;

/// A row that is not changed any more, which contracts see as one. Copies share it, so that a view, a message and a
/// restarter hold the same.
#[derive(Drop)]
pub struct SharedRow {
    row: Rc<Row>,
}

impl Model for SharedRow {
    ghost use Rattle.smf_state.specs.declared.row.Row.{Row as AnyRow};

    ghost Value = { AnyRow };

    ghost view = { λ s. s.row.value };
}

impl SharedRow {
    pub fn of(alloc: Global, row: Row) -> Result<SharedRow, AllocError>
        ensures { IfOk result (λ s. s ≡ row) }
    {
        match Rc::new(alloc, row) {
            Ok(row) => Ok(SharedRow { row }),
            Err(_row) => Err(AllocError),
        }
    }

    /// A copy that can be changed.
    pub fn to_row(&self) -> Result<Row, AllocError>
        ensures { IfOk result (λ row. row ≡ self.now) }
    {
        let row: &Row = &self.row;
        row.clone()
    }
}

impl Deref for SharedRow {
    type Target = Row;

    ghost deref_gives = { λ s row. row ≡ s };

    fn deref(&self) -> &Row {
        &self.row
    }
}

impl Clone for SharedRow {
    ghost is_clone = { λ s copy. copy ≡ s };

    fn clone(&self) -> Result<SharedRow, AllocError> {
        let row = self.row.clone()?;
        Ok(SharedRow { row })
    }
}
