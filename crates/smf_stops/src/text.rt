//! A plan as lines.

ghost use Rattle.std.specs.Fmt.{decimal};
ghost use Rattle.std.specs.Prelude.{◌≡◌, ◌+◌, ◌++◌, IfOk, OnOk, codes, string_bytes};
ghost use Rattle.smf_stops.specs.Text.{batch_line, last_line, limit_text, line_end, lines_after, lines_of, name_text, names_text, plan_text};

use crate::plan::{Stop, StopBatch, StopPlan};
use smf_fmri::Text;
use std::alloc::{AllocError, Global};
use std::fmt::Write;

fn put_seconds(out: &mut String, words: &str, seconds: u64) -> Result<(), AllocError>
    ensures { OnOk result (string_bytes out.new ≡ string_bytes out.old ++ (words.now ++ decimal seconds ++ codes " s")) }
{
    match write!(out, "{words}{seconds} s") {
        Ok(()) => Ok(()),
        Err(_) => Err(AllocError),
    }
}

fn put_limit(out: &mut String, seconds: Option<u64>) -> Result<(), AllocError>
    ensures { OnOk result (string_bytes out.new ≡ string_bytes out.old ++ limit_text seconds) }
{
    match seconds {
        None => out.push_str("no limit"),
        Some(seconds) => put_seconds(out, "at most ", seconds),
    }
}

fn put_names(out: &mut String, stops: &[Stop]) -> Result<(), AllocError>
    ensures { OnOk result (string_bytes out.new ≡ string_bytes out.old ++ names_text stops.now) }
{
    for stop in stops {
        out.push_str(" ")?;
        out.push_str(stop.name.print())?;
    }
    Ok(())
}

fn put_number(out: &mut String, number: usize) -> Result<(), AllocError>
    ensures { OnOk result (string_bytes out.new ≡ string_bytes out.old ++ (decimal number ++ codes " ")) }
{
    match write!(out, "{number} ") {
        Ok(()) => Ok(()),
        Err(_) => Err(AllocError),
    }
}

fn put_batch(out: &mut String, number: usize, batch: &StopBatch) -> Result<(), AllocError>
    ensures { OnOk result (string_bytes out.new ≡ string_bytes out.old ++ batch_line number batch.now) }
{
    put_number(out, number)?;
    put_names(out, batch.stops.as_slice())?;
    out.push_str("  ")?;
    put_limit(out, batch.seconds)?;
    out.push_str("\n")?;
    Ok(())
}

fn put_batches(out: &mut String, batches: &[StopBatch]) -> Result<(), AllocError>
    ensures { OnOk result (string_bytes out.new ≡ string_bytes out.old ++ lines_after 0 batches.now) }
{
    let mut number = 0;
    for batch in batches {
        number += 1;
        put_batch(out, number, batch)?;
    }
    Ok(())
}

fn put_all_seconds(out: &mut String, seconds: u64) -> Result<(), AllocError>
    ensures { OnOk result (string_bytes out.new
        ≡ string_bytes out.old ++ (codes "in all at most " ++ decimal seconds ++ codes " s" ++ line_end)) }
{
    put_seconds(out, "in all at most ", seconds)?;
    out.push_str("\n")?;
    Ok(())
}

fn put_last(out: &mut String, seconds: Option<u64>) -> Result<(), AllocError>
    ensures { OnOk result (string_bytes out.new ≡ string_bytes out.old ++ last_line seconds) }
{
    match seconds {
        None => out.push_str("no limit\n"),
        Some(seconds) => put_all_seconds(out, seconds),
    }
}

fn put_plan(out: &mut String, batches: &[StopBatch], seconds: Option<u64>) -> Result<(), AllocError>
    ensures { OnOk result (string_bytes out.new ≡ string_bytes out.old ++ lines_of batches.now seconds) }
{
    if batches.is_empty() {
        return out.push_str("nothing runs\n");
    }
    put_batches(out, batches)?;
    put_last(out, seconds)
}

/// A line for each batch, with its names and its seconds, and a last line with the seconds of all.
#[tactic(auto, unfolding(crate::specs::Text::plan_text))]
pub fn plan_text(alloc: Global, plan: &StopPlan) -> Result<Text, AllocError>
    ensures { IfOk result (λ text. text ≡ plan_text plan.now) }
{
    let mut out = String::new(alloc);
    put_plan(&mut out, plan.batches.as_slice(), plan.seconds)?;
    Ok(Text::from_string(out))
}
