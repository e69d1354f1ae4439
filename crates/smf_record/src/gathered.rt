//! What was read of a record, by its kind.

ghost use Rattle.std.specs.Prelude.{◌≡◌, ◌∷◌, ◌++◌, [], OnOk};
ghost use Rattle.smf_record.specs.Replays.{ends_in, inputs_in, replies_in, stands_in, starts_in, times_in};
ghost use Rattle.smf_watch.specs.declared.ask.ServerInput.TheVariants as asks;

use crate::answer::{Answer, EndAnswer, Moment, StandAnswer, StartAnswer};
use smf_watch::ServerInput;
use std::alloc::{AllocError, Global};
use std::collections::VecDeque;

/// Contracts that were asked one after another and stood the same.
#[derive(Clone, Copy)]
pub struct StandRun {
    pub stand: StandAnswer,
    /// How many there were after the first.
    pub more: u64,
}

/// The answers of a record that were not given yet, in their order.
#[derive(Drop)]
pub struct Gathered {
    pub inputs: VecDeque<ServerInput>,
    pub replies: VecDeque<bool>,
    pub times: Vec<Moment>,
    pub starts: VecDeque<StartAnswer>,
    pub stands: VecDeque<StandRun>,
    pub ends: VecDeque<EndAnswer>,
}

impl Gathered {
    pub fn new(alloc: Global) -> Gathered
        ensures inputs { result.inputs.items ≡ [] }
        ensures replies { result.replies.items ≡ [] }
        ensures times { result.times.items ≡ [] }
        ensures starts { result.starts.items ≡ [] }
        ensures stands { result.stands.items ≡ [] }
        ensures ends { result.ends.items ≡ [] }
    {
        Gathered {
            inputs: VecDeque::new(alloc),
            replies: VecDeque::new(alloc),
            times: Vec::new(alloc),
            starts: VecDeque::new(alloc),
            stands: VecDeque::new(alloc),
            ends: VecDeque::new(alloc),
        }
    }

    fn put_stand(&mut self, stand: StandAnswer, more: u64) -> Result<(), AllocError>
        ensures stands { OnOk result
            (self.new.stands.items ≡ self.old.stands.items ++ record { stand = stand; more = more } ∷ []) }
        ensures inputs { self.new.inputs ≡ self.old.inputs }
        ensures replies { self.new.replies ≡ self.old.replies }
        ensures times { self.new.times ≡ self.old.times }
        ensures starts { self.new.starts ≡ self.old.starts }
        ensures ends { self.new.ends ≡ self.old.ends }
    {
        self.stands.push_back(StandRun { stand, more })?;
        Ok(())
    }

    /// Puts an answer behind the others of its kind. A count of none counts as one.
    pub fn put(&mut self, answer: Answer<Vec<u8>>) -> Result<(), AllocError>
        ensures inputs { OnOk result (self.new.inputs.items ≡ self.old.inputs.items ++ inputs_in asks.Request answer) }
        ensures replies { OnOk result (self.new.replies.items ≡ self.old.replies.items ++ replies_in answer) }
        ensures times { OnOk result (self.new.times.items ≡ self.old.times.items ++ times_in answer) }
        ensures starts { OnOk result (self.new.starts.items ≡ self.old.starts.items ++ starts_in answer) }
        ensures stands { OnOk result (self.new.stands.items ≡ self.old.stands.items ++ stands_in answer) }
        ensures ends { OnOk result (self.new.ends.items ≡ self.old.ends.items ++ ends_in answer) }
    {
        match answer {
            Answer::Tick => self.inputs.push_back(ServerInput::Tick)?,
            Answer::Request(lines) => self.inputs.push_back(ServerInput::Request(lines))?,
            Answer::End => self.inputs.push_back(ServerInput::End)?,
            Answer::Leave => self.inputs.push_back(ServerInput::Leave)?,
            Answer::Replied(is_written) => self.replies.push_back(is_written)?,
            Answer::Time(moment) => self.times.push(moment)?,
            Answer::Start(start) => self.starts.push_back(start)?,
            Answer::Runs(count) => self.put_stand(StandAnswer::Runs, count.saturating_sub(1))?,
            Answer::Left(end) => self.put_stand(StandAnswer::Left(end), 0)?,
            Answer::Gone(end) => self.put_stand(StandAnswer::Gone(end), 0)?,
            Answer::Lost => self.put_stand(StandAnswer::Lost, 0)?,
            Answer::Ends(end) => self.ends.push_back(end)?,
        }
        Ok(())
    }
}
