//! Lines of any reader, and texts to any writer.
//! Modules: `fault`, `turns` (how many lines may still be read), `reader` (sources of lines), `writer` (targets of
//! texts); `lines` (one line of a reader), `text` (which lines are texts), `told` (what is told of a fault), `limits` (the greatest sizes).
#![tactic(auto)]

mod fault;
pub mod limits;
mod lines;
mod reader;
mod text;
mod told;
mod turns;
mod writer;

pub use fault::ReadFault;
pub use lines::{Part, read_line};
pub use reader::{LineReader, NotedReader};
pub use text::text_in;
pub use told::{read_text, tell};
pub use turns::Turns;
pub use writer::TextWriter;
