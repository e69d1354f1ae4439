//! What the desk, the clock and the contracts gave to a server: it is recorded, written as text, read again, and given
//! again to a server that runs over it.
//! Modules: `answer` (what was given), `word`, `digits`, `printing` and `reading` (its text), `sink` (where it is recorded),
//! `recorded` (a desk, a clock and contracts of which it is recorded), `gathered` (what was read, by its kind), `replayed` (a
//! desk, a clock and contracts that give it again), `children` (contracts with which a server went on), `text` (many lines), `law` (what is written is read, and nothing else is).
#![tactic(auto)]

mod answer;
mod children;
mod digits;
mod gathered;
mod law;
mod printing;
mod reading;
mod recorded;
mod replayed;
mod sink;
mod text;
mod word;

pub use answer::{Answer, EndAnswer, Moment, StandAnswer, StartAnswer, StartEnd};
pub use children::{ReplayedChildren, children_of};
pub use gathered::{Gathered, StandRun};
pub use law::{answers_are_read_again, lines_tell_all_answers};
pub use reading::read_answer;
pub use recorded::{RecordedContracts, RecordedDesk, RecordedTimer};
pub use replayed::{ReplayedContract, ReplayedContracts, ReplayedDesk, ReplayedTimer, Said};
pub use sink::{Sink, TimeSink};
pub use text::AnswerText;
