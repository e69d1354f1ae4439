//! Names of services and instances, and the small types that every crate shares.
//! Modules: `fmri`, `instance` and `service` (names), `pattern` (abbreviations), `count` (numbers as texts), `reader`,
//! `limits` (the greatest sizes), `items`, `text`, `bytes`, `number`, `fault`.
//! Lists in the order of a key: `keyed` (things with a key), `sorted` (changes of a vector in that order), `ordered`
//! (such a list); `table` (the same, with room that is made beforehand), `shared` (the same, not changed any more).
#![tactic(auto)]

mod bytes;
mod count;
mod fault;
mod fmri;
mod instance;
mod items;
mod keyed;
pub mod limits;
mod number;
mod ordered;
mod pattern;
mod reader;
mod service;
mod shared;
mod sorted;
mod table;
mod text;

pub use bytes::Bytes;
pub use count::{is_decimal, read_count};
pub use fault::{FmriFault, PickFault};
pub use fmri::Fmri;
pub use instance::InstanceFmri;
pub use items::Items;
pub use keyed::{ExactClone, HasPart, Keyed, TextKeyed};
pub use number::Number;
pub use ordered::Ordered;
pub use pattern::{Pattern, pick};
pub use reader::strip;
pub use service::ServiceFmri;
pub use shared::SharedOrdered;
pub use table::Table;
pub use text::Text;
