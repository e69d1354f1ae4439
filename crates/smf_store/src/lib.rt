//! The repository in the tables of a database.
//! Rows: `creation` (the six tables of a new store), `fields` (what rows hold), `rows` (rows put in), `fault` (why a
//! write fails).
//! Changes: `changes` (one change), `writes` (all changes of a command).
//! Reads of rows: `cells` (values of a row), `counter_rows` (the counters), `additions` (the value that rows make).
//! Judgements: `agreement` (the agreement of a table with the earlier ones), `judgements` (the rows of all tables).
//! Opens: `places` (the order of the tables), `queries` (their queries), `opens` (all of a store, in either version),
//! `refusal` (why a store is not opened).
//! The whole: `store` (the journal), `repository` (the repository over a store), `file_bytes` (the bytes of its file).
#![tactic(auto)]

mod additions;
mod agreement;
mod cells;
mod changes;
mod counter_rows;
mod creation;
mod fault;
mod fields;
mod file_bytes;
mod judgements;
mod opens;
mod places;
mod queries;
mod refusal;
mod repository;
mod rows;
mod store;
mod writes;

pub use file_bytes::FileBytes;
pub use refusal::{OpenFault, StoreTable};
pub use repository::open_repository;
pub use store::Store;
