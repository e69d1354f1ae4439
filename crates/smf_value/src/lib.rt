//! The data that describe services: values of seven kinds, properties, groups, and the bytes that groups are kept in.
//! Modules: `name`, `kind`, `time`, `astring`, `ustring`, `value`, `flags`, `property`, their `value_texts`,
//! `group` and its `edits`, `body` and its `decoder`, `fault`.
#![tactic(auto)]

mod astring;
mod body;
mod decoder;
mod edits;
mod fault;
mod flags;
mod group;
mod kind;
mod name;
mod property;
mod time;
mod ustring;
mod value;
mod value_texts;

pub use astring::Astring;
pub use body::encode;
pub use decoder::{decode, decode_first};
pub use fault::{BodyFault, GroupFault, NameFault, ValueFault};
pub use flags::GroupFlags;
pub use group::Group;
pub use kind::Kind;
pub use name::Name;
pub use property::Property;
pub use time::Time;
pub use ustring::Ustring;
pub use value::Value;
