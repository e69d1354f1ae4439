//! A desk, a clock and contracts that answer as those do that they stand for, and of which each answer is recorded once.

ghost use Rattle.std.specs.Prelude.{◌≡◌, ◌∷◌, [], ◌⊎◌, IfErr, IfOk, OnErr, OnOk, false, true};
ghost use Rattle.smf_edge.specs.Starts.{log_with};
ghost use Rattle.smf_edge.specs.FollowedFacts.{one_more_made};
ghost use Rattle.smf_record.specs.Answers.{IsStartOf, asked_answer, end_answer, stand_answer};
ghost use Rattle.smf_record.specs.declared.answer.Answer.TheVariants as answers;
ghost use Rattle.smf_record.specs.declared.answer.StartAnswer.{StartAnswer};
ghost use Rattle.smf_watch.specs.Traffic.{LeavesAt, LeavesNoMore, Told, asked_in, reply_in};

use crate::answer::{Answer, StartAnswer, asked_answer, end_answer, stand_answer, start_end};
use crate::sink::{Sink, TimeSink};
use smf_edge::{Contracts, Stand, Start};
use smf_model::{Journal, Plain};
use smf_watch::{Desk, ServerInput, Timer};
use std::io;
use std::time::Duration;

/// A desk of which it is recorded what it gave.
#[derive(Drop)]
pub struct RecordedDesk<D: Desk, S: Sink> {
    pub desk: D,
    pub sink: S,
}

impl<D: Desk, S: Sink> Desk for RecordedDesk<D, S> {
    ghost passed = { λ s. D.passed s.desk };

    ghost leaves = { λ s. D.leaves s.desk };

    fn next(&mut self) -> ServerInput
        ensures passed { D.passed self.new.desk ≡ log_with (asked_in result) (D.passed self.old.desk) }
        ensures leaves { LeavesNoMore (D.leaves self.old.desk) (D.leaves self.new.desk) }
        ensures added { S.log self.new.sink ≡ log_with (asked_answer result ∷ []) (S.log self.old.sink) }
    {
        let input = self.desk.next();
        self.sink.add(asked_answer(&input));
        input
    }

    fn reply<J: Journal>(&mut self, repository: &Plain<J>, text: &[u8], status: u8) -> bool
        ensures passed { D.passed self.new.desk
            ≡ log_with (reply_in result text.now status repository.now.held ∷ []) (D.passed self.old.desk) }
        ensures leaves { LeavesAt repository.now.held
            (λ found. J.is_sound repository.now.journal × J.could repository.now.journal found)
            (D.leaves self.old.desk) (D.leaves self.new.desk) }
        ensures added { S.log self.new.sink ≡ log_with (answers.Replied result ∷ []) (S.log self.old.sink) }
    {
        let is_written = self.desk.reply(repository, text, status);
        self.sink.add(Answer::Replied(is_written));
        is_written
    }

    fn tell(&mut self, line: &str)
        ensures passed { D.passed self.new.desk ≡ log_with (Told line.now ∷ []) (D.passed self.old.desk) }
        ensures leaves { LeavesNoMore (D.leaves self.old.desk) (D.leaves self.new.desk) }
        ensures same { self.new.sink ≡ self.old.sink }
    {
        self.desk.tell(line);
    }

    fn pause(&mut self)
        ensures passed { D.passed self.new.desk ≡ D.passed self.old.desk }
        ensures leaves { LeavesNoMore (D.leaves self.old.desk) (D.leaves self.new.desk) }
        ensures same { self.new.sink ≡ self.old.sink }
    {
        self.desk.pause();
    }
}

/// A clock of which it is recorded what it said.
#[derive(Drop)]
pub struct RecordedTimer<T: Timer, S: TimeSink> {
    pub timer: T,
    pub sink: S,
}

impl<T: Timer, S: TimeSink> Timer for RecordedTimer<T, S> {
    ghost says = { λ s. T.says s.timer };

    fn now(&self) -> Duration {
        let now = self.timer.now();
        self.sink.add_time(now);
        now
    }
}

/// Contracts of which it is recorded what they answered.
#[derive(Drop)]
pub struct RecordedContracts<C: Contracts, S: Sink> {
    pub contracts: C,
    pub sink: S,
}

impl<C: Contracts, S: Sink> Contracts for RecordedContracts<C, S> {
    type Held = C::Held;

    ghost facts = { C.facts };

    ghost made = { λ s. C.made s.contracts };

    fn start(&mut self, start: &Start) -> io::Result<C::Held>
        ensures started { IfOk result (C.facts.is_of start.now) }
        ensures failed { IfErr result C.facts.start_fails }
        ensures one { OnOk result (C.made self.new.contracts ≡ one_more_made (C.made self.old.contracts)) }
        ensures none { OnErr result (C.made self.new.contracts ≡ C.made self.old.contracts) }
        ensures added { (told : StartAnswer) × (IsStartOf start.now result told)
            × (S.log self.new.sink ≡ log_with (answers.Start told ∷ []) (S.log self.old.sink)) }
    {
        let started = self.contracts.start(start);
        self.sink.add(Answer::Start(StartAnswer {
            contract: start.contract.get(),
            cookie: start.cookie,
            end: start_end(&started),
        }));
        started
    }

    fn stand(&mut self, held: &mut C::Held) -> io::Result<Stand>
        ensures stood { IfOk result (C.facts.stands held.old) }
        ensures lost { OnErr result (C.facts.is_lost held.old) }
        ensures none { C.made self.new.contracts ≡ C.made self.old.contracts }
        ensures added { S.log self.new.sink ≡ log_with (stand_answer result ∷ []) (S.log self.old.sink) }
    {
        let stood = self.contracts.stand(held);
        self.sink.add(stand_answer(&stood));
        stood
    }

    fn end(&mut self, held: &mut C::Held) -> io::Result<bool>
        ensures ended { IfOk result (λ done. done ≡ true → C.facts.is_ended held.old) }
        ensures living { IfOk result (λ done. done ≡ false → C.facts.may_live held.old) }
        ensures lost { OnErr result (C.facts.may_live held.old) }
        ensures none { C.made self.new.contracts ≡ C.made self.old.contracts }
        ensures added { S.log self.new.sink ≡ log_with (end_answer result ∷ []) (S.log self.old.sink) }
    {
        let ended = self.contracts.end(held);
        self.sink.add(end_answer(&ended));
        ended
    }
}
