ghost use Rattle.std.specs.Prelude.{◌≡◌, ◌++◌, IfOk, OnOk, Some, string_bytes};
ghost use Rattle.smf_chronicle.specs.Lines.{clock_text, line_text};
ghost use Rattle.smf_chronicle.specs.declared.entry.Entry.TheVariants.{Happened};
ghost use Rattle.smf_chronicle.specs.Texts.{entry_text};

use crate::entry::Entry;
use smf_world::{Item, put_item};
use std::alloc::{AllocError, Global};
use std::fmt::Write;

/// Puts the text of an item, without the end of its line.
fn put_happened(out: &mut String, item: &Item) -> Result<(), AllocError>
    ensures { OnOk result (string_bytes out.new ≡ string_bytes out.old ++ entry_text (Happened item.now)) }
{
    put_item(out, item)
}

/// Puts the text of an entry, without the end of its line.
fn put_entry(out: &mut String, entry: &Entry) -> Result<(), AllocError>
    ensures { OnOk result (string_bytes out.new ≡ string_bytes out.old ++ entry_text entry.now) }
{
    match entry {
        Entry::Happened(item) => put_happened(out, item),
        Entry::Life => out.push_str("life"),
        Entry::Row {
            instance,
            number,
            state,
        } => {
            let state = state.text();
            write!(out, "row {instance} {number} {state}")
        }
        Entry::Living { contract, instance } => write!(out, "living {contract} {instance}"),
    }
}

/// Puts a time: seconds and, behind a point, thousandths.
#[tactic(auto, unfolding(crate::specs::Lines::clock_text))]
fn put_clock(out: &mut String, milliseconds: u64) -> Result<(), AllocError>
    ensures { OnOk result (string_bytes out.new ≡ string_bytes out.old ++ clock_text milliseconds) }
{
    let seconds = milliseconds / 1000;
    let tenths = milliseconds / 100 % 10;
    let hundredths = milliseconds / 10 % 10;
    let thousandths = milliseconds % 10;
    write!(out, "{seconds}.{tenths}")?;
    write!(out, "{hundredths}{thousandths}")
}

/// The line of an item in a chronicle, without its end: its link, when it was written in milliseconds since 1970, and the
/// item.
pub fn item_line(
    alloc: Global,
    link: &str,
    milliseconds: u64,
    item: &Item,
) -> Result<String, AllocError>
    ensures { IfOk result (λ line. string_bytes line
        ≡ line_text (Some link.now) (record { clock = clock_text milliseconds; entry = Happened item.now })) }
{
    let mut line = String::from_str(alloc, link)?;
    line.push(' ')?;
    put_clock(&mut line, milliseconds)?;
    line.push(' ')?;
    put_happened(&mut line, item)?;
    Ok(line)
}

/// The line of an entry in a chronicle, without its end: its link, when it was written in milliseconds since 1970, and the
/// entry.
pub fn entry_line(
    alloc: Global,
    link: &str,
    milliseconds: u64,
    entry: &Entry,
) -> Result<String, AllocError>
    ensures { IfOk result (λ line. string_bytes line
        ≡ line_text (Some link.now) (record { clock = clock_text milliseconds; entry = entry.now })) }
{
    let mut line = String::from_str(alloc, link)?;
    line.push(' ')?;
    put_clock(&mut line, milliseconds)?;
    line.push(' ')?;
    put_entry(&mut line, entry)?;
    Ok(line)
}
