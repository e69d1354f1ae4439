//! Messages between the repository, svc.startd's graph and the restarters, and the lines that they are written as.
//! Modules: `order` (what the graph orders), `message`, `encoder` and `decoder` (lines), `law`, `word`, `digits`, `fault`.
#![tactic(auto)]

mod decoder;
mod digits;
mod encoder;
mod fault;
mod law;
mod message;
mod order;
mod word;

pub use decoder::decode;
pub use encoder::encode;
pub use fault::WireFault;
pub use law::{lines_are_read_again, no_line_begins_another};
pub use message::{Known, Message, ViewChanges};
pub use order::{Order, What};
