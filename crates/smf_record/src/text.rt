//! Answers as lines of a text.

ghost use Rattle.std.specs.Prelude.{◌≡◌, ◌++◌, [], IfOk, OnOk, string_bytes};
ghost use Rattle.smf_record.specs.Answers.{seen_now};
ghost use Rattle.smf_record.specs.Lines.{AddsRuns, IsAdded, line_of, runs_in, runs_line};

use crate::answer::Answer;
use crate::printing::put_answer;
use std::alloc::{AllocError, Global};
use std::fmt::Write;
use std::mem;

/// Lines of answers that are to be written. Contracts that run one after another come in one line. After a fault a line may
/// be cut off.
#[derive(Drop)]
pub struct AnswerText {
    alloc: Global,
    text: String,
    /// So many contracts run, and stand in no line yet.
    runs: u64,
}

/// How many contracts run, if the answer says that of some.
fn runs_in(answer: &Answer<&[u8]>) -> Option<u64>
    ensures { result ≡ runs_in (seen_now answer.now) }
{
    match answer {
        Answer::Runs(count) => Some(*count),
        _ => None,
    }
}

fn put_runs(text: &mut String, runs: u64) -> Result<(), AllocError>
    ensures { OnOk result (string_bytes text.new ≡ string_bytes text.old ++ runs_line runs) }
{
    if runs == 0 {
        return Ok(());
    }
    writeln!(text, "runs {runs}")
}

/// Puts the line of an answer.
fn put_line(text: &mut String, alloc: Global, answer: Answer<&[u8]>) -> Result<(), AllocError>
    ensures { OnOk result (string_bytes text.new ≡ string_bytes text.old ++ line_of (seen_now answer.entry)) }
{
    put_answer(text, alloc, answer)?;
    text.push('\n')
}

impl AnswerText {
    pub fn new(alloc: Global) -> AnswerText
        ensures text { string_bytes result.text ≡ [] }
        ensures runs { result.runs ≡ 0 }
    {
        AnswerText {
            alloc,
            text: String::new(alloc),
            runs: 0,
        }
    }

    /// Writes the line of those that run and stand in none.
    fn close(&mut self) -> Result<(), AllocError>
        ensures text { OnOk result
            (string_bytes self.new.text ≡ string_bytes self.old.text ++ runs_line self.old.runs) }
        ensures runs { OnOk result (self.new.runs ≡ 0) }
    {
        put_runs(&mut self.text, self.runs)?;
        self.runs = 0;
        Ok(())
    }

    fn add_runs(&mut self, count: u64) -> Result<(), AllocError>
        ensures { OnOk result (AddsRuns count (string_bytes self.old.text) self.old.runs
            (string_bytes self.new.text) self.new.runs) }
    {
        match self.runs.checked_add(count) {
            Some(runs) => {
                self.runs = runs;
                Ok(())
            }
            None => {
                self.close()?;
                self.runs = count;
                Ok(())
            }
        }
    }

    /// Adds an answer behind the others.
    pub fn add(&mut self, answer: Answer<&[u8]>) -> Result<(), AllocError>
        ensures { OnOk result (IsAdded (seen_now answer.entry) (string_bytes self.old.text) self.old.runs
            (string_bytes self.new.text) self.new.runs) }
    {
        match runs_in(&answer) {
            Some(count) => self.add_runs(count),
            None => {
                self.close()?;
                put_line(&mut self.text, self.alloc, answer)
            }
        }
    }

    /// All lines. No answer is left.
    pub fn take(&mut self) -> Result<String, AllocError>
        ensures text { IfOk result (λ text.
            string_bytes text ≡ string_bytes self.old.text ++ runs_line self.old.runs) }
        ensures none { OnOk result (string_bytes self.new.text ≡ []) }
        ensures runs { OnOk result (self.new.runs ≡ 0) }
    {
        self.close()?;
        let none = String::new(self.alloc);
        Ok(mem::replace(&mut self.text, none))
    }
}
