//! Instances as metrics, in the text form that Prometheus reads.

ghost use Rattle.std.specs.List.{flat_map};
ghost use Rattle.std.specs.Prelude.{◌≡◌, ◌++◌, IfOk, OnOk, string_bytes};
ghost use Rattle.smf_show.specs.Metrics.{digit_of, enabled_help, enabled_line, enabled_metric, head, metrics_text, state_help, state_line, state_metric};

use crate::shown::Shown;
use smf_fmri::Text;
use std::alloc::{AllocError, Global};

// ---- names, and what they mean

#[tactic(auto, unfolding(crate::specs::Metrics::state_metric))]
fn state_metric() -> &'static str
    ensures { result.now ≡ state_metric }
{
    "smf_instance_state"
}

#[tactic(auto, unfolding(crate::specs::Metrics::state_help))]
fn state_help() -> &'static str
    ensures { result.now ≡ state_help }
{
    "The state of an instance, in a label."
}

#[tactic(auto, unfolding(crate::specs::Metrics::enabled_metric))]
fn enabled_metric() -> &'static str
    ensures { result.now ≡ enabled_metric }
{
    "smf_instance_enabled"
}

#[tactic(auto, unfolding(crate::specs::Metrics::enabled_help))]
fn enabled_help() -> &'static str
    ensures { result.now ≡ enabled_help }
{
    "Whether an instance is enabled."
}

// ---- lines

#[tactic(auto, unfolding(crate::specs::Metrics::head))]
fn put_head(out: &mut String, metric: &str, help: &str) -> Result<(), AllocError>
    ensures { OnOk result (string_bytes out.new ≡ string_bytes out.old ++ head metric.now help.now) }
{
    out.push_str("# HELP ")?;
    out.push_str(metric)?;
    out.push_str(" ")?;
    out.push_str(help)?;
    out.push_str("\n# TYPE ")?;
    out.push_str(metric)?;
    out.push_str(" gauge\n")
}

#[tactic(auto, unfolding(crate::specs::Metrics::state_line))]
fn put_state(out: &mut String, shown: &Shown) -> Result<(), AllocError>
    ensures { OnOk result (string_bytes out.new ≡ string_bytes out.old ++ state_line shown.now) }
{
    out.push_str(state_metric())?;
    out.push_str("{fmri=\"")?;
    out.push_str(shown.name.print())?;
    out.push_str("\",state=\"")?;
    out.push_str(shown.state.text())?;
    out.push_str("\"} 1\n")
}

fn put_states(out: &mut String, all: &[Shown]) -> Result<(), AllocError>
    ensures { OnOk result (string_bytes out.new ≡ string_bytes out.old ++ flat_map state_line all.now) }
{
    for shown in all {
        put_state(out, shown)?;
    }
    Ok(())
}

fn digit_of(truth: bool) -> &'static str
    ensures { result.now ≡ digit_of truth }
{
    if truth { "1" } else { "0" }
}

#[tactic(auto, unfolding(crate::specs::Metrics::enabled_line))]
fn put_enabled(out: &mut String, shown: &Shown) -> Result<(), AllocError>
    ensures { OnOk result (string_bytes out.new ≡ string_bytes out.old ++ enabled_line shown.now) }
{
    out.push_str(enabled_metric())?;
    out.push_str("{fmri=\"")?;
    out.push_str(shown.name.print())?;
    out.push_str("\"} ")?;
    out.push_str(digit_of(shown.enabled))?;
    out.push('\n')
}

fn put_all_enabled(out: &mut String, all: &[Shown]) -> Result<(), AllocError>
    ensures { OnOk result (string_bytes out.new ≡ string_bytes out.old ++ flat_map enabled_line all.now) }
{
    for shown in all {
        put_enabled(out, shown)?;
    }
    Ok(())
}

/// For each instance a line that has its state as a label, and one that tells if it is enabled.
#[tactic(auto, unfolding(crate::specs::Metrics::metrics_text))]
pub fn metrics_text(alloc: Global, all: &[Shown]) -> Result<Text, AllocError>
    ensures { IfOk result (λ text. text ≡ metrics_text all.now) }
{
    let mut out = String::new(alloc);
    put_head(&mut out, state_metric(), state_help())?;
    put_states(&mut out, all)?;
    put_head(&mut out, enabled_metric(), enabled_help())?;
    put_all_enabled(&mut out, all)?;
    Ok(Text::from_string(out))
}
