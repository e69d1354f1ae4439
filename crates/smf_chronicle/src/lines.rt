//! Texts of many entries, a line for each.

ghost use Rattle.hex.specs.Hex.{encode_lower};
ghost use Rattle.std.specs.List.{AllByRecursion, list_all};
ghost use Rattle.std.specs.Char.{is_ascii_digit};
ghost use Rattle.std.specs.Prelude.{◌≡◌, ◌==◌, [], ℕ, List, Some, IfOk, IfErr, length, not, option_map, string_bytes};
ghost use Rattle.smf_chronicle.specs.Lines.{AreRead, GivesFirst, GivesLine, IsLink, IsReadTo, IsStamped, IsUnlinked, Stamped, behind_clock, behind_link, entry_or, cut_at, fault_at, first_line, first_link, is_link, is_link_digit, is_clock, line_text, lines_text, link_behind, link_to, read_line, told_in};
ghost use Rattle.smf_chronicle.specs.declared.fault.ReadFault.TheVariants.{Unlinked};
ghost use Rattle.smf_chronicle.specs.Reading.{read_entry};

use crate::entry::Entry;
use crate::fault::{LineFault, ReadFault};
use crate::reading::read_entry;
use hex::encode;
use sha2::{Digest, Sha256};
use smf_fmri::is_decimal;
use smf_state::FieldFault;
use std::alloc::{AllocError, Global};

/// The entries of a text, and the link of the line that may follow.
#[derive(Drop)]
pub struct Chronicle {
    pub entries: Vec<Entry>,
    /// The digest of the last line. None for a printed trail, whose lines have no links.
    pub last: Option<String>,
}

fn digits_of(alloc: Global, digest: &[u8]) -> Result<String, AllocError>
    ensures text { IfOk result (λ text. string_bytes text ≡ encode_lower digest.now) }
    ensures link { IfOk result (λ text. IsLink (Some (string_bytes text))) }
{
    encode(alloc, digest)
}

/// The digest of a line without its end, as 64 digits: the link of the line after it.
#[tactic(auto, unfolding(crate::specs::Lines::link_to))]
pub fn link_to(alloc: Global, line: &str) -> Result<String, AllocError>
    ensures digest { IfOk result (λ link. string_bytes link ≡ link_to line.now) }
    ensures link { IfOk result (λ link. IsLink (Some (string_bytes link))) }
{
    let digest = Sha256::digest(line.as_bytes());
    digits_of(alloc, &digest)
}

/// A line, and what stands behind its end.
fn cut_line(text: &str) -> Option<(&str, &str)>
    ensures { option_map (λ x. (x.0.now, x.1.now)) result ≡ cut_at 10 text.now }
{
    text.split_once('\n')
}

fn cut_blank(text: &str) -> Option<(&str, &str)>
    ensures { option_map (λ x. (x.0.now, x.1.now)) result ≡ cut_at 32 text.now }
{
    text.split_once(' ')
}

fn cut_point(text: &str) -> Option<(&str, &str)>
    ensures { option_map (λ x. (x.0.now, x.1.now)) result ≡ cut_at 46 text.now }
{
    text.split_once('.')
}

fn all_digits(text: &[u8]) -> bool
    ensures { result ≡ list_all is_ascii_digit text.now }
{
    text.iter().all(|b| b.is_ascii_digit())
}

/// True if a text is a time: seconds, a point and three digits.
fn is_clock(text: &str) -> bool
    ensures { result ≡ is_clock text.now }
{
    match cut_point(text) {
        None => false,
        Some((seconds, rest)) => {
            is_decimal(seconds.as_bytes()) && rest.len() == 3 && all_digits(rest.as_bytes())
        }
    }
}

fn entry_in(alloc: Global, text: &str) -> Result<Entry, LineFault>
    ensures { GivesLine result (entry_or (read_entry text.now)) }
{
    match read_entry(alloc, text) {
        Ok(entry) => Ok(entry),
        Err(FieldFault::Memory) => Err(LineFault::Memory),
        Err(FieldFault::Left(_)) => Err(LineFault::Unreadable),
    }
}

/// The entry that stands behind a time.
fn behind_clock(alloc: Global, text: &str) -> Result<Entry, LineFault>
    ensures { GivesLine result (behind_clock (cut_at 32 text.now)) }
{
    let Some((clock, rest)) = cut_blank(text) else {
        return Err(LineFault::Unreadable);
    };
    if !is_clock(clock) {
        return Err(LineFault::Unreadable);
    }
    entry_in(alloc, rest)
}

/// The entry of a line that has this link.
fn linked_line(alloc: Global, link: &str, line: &str) -> Result<Entry, LineFault>
    ensures { GivesLine result (behind_link link.now (cut_at 32 line.now)) }
{
    let Some((found, rest)) = cut_blank(line) else {
        return Err(LineFault::Unreadable);
    };
    if found != link {
        return Err(LineFault::Unlinked);
    }
    behind_clock(alloc, rest)
}

/// The entry of a line, which has a link if one is given.
#[tactic(auto, unfolding(crate::specs::Lines::read_line))]
fn read_line(alloc: Global, link: &Option<String>, line: &str) -> Result<Entry, LineFault>
    ensures { GivesLine result (read_line (option_map string_bytes link.now) line.now) }
{
    match link {
        None => entry_in(alloc, line),
        Some(link) => linked_line(alloc, link.as_str(), line),
    }
}

/// The link of the line behind a line.
fn link_behind(
    alloc: Global,
    link: &Option<String>,
    line: &str,
) -> Result<Option<String>, AllocError>
    ensures next { IfOk result (λ next. option_map string_bytes next
        ≡ link_behind (option_map string_bytes link.now) line.now) }
    ensures link { IfOk result (λ next. IsLink (option_map string_bytes link.now)
        → IsLink (option_map string_bytes next)) }
{
    match link {
        None => Ok(None),
        Some(_) => Ok(Some(link_to(alloc, line)?)),
    }
}

fn is_link_digit(b: u8) -> bool
    ensures { result ≡ is_link_digit b }
{
    b.is_ascii_digit() || (b >= b'a' && b <= b'f')
}

fn are_link_digits(text: &[u8]) -> bool
    ensures { result ≡ list_all is_link_digit text.now }
{
    text.iter().all(|b| is_link_digit(*b))
}

/// True if a text is 64 digits.
fn is_link(text: &str) -> bool
    ensures { result ≡ is_link text.now }
{
    text.len() == 64 && are_link_digits(text.as_bytes())
}

/// The link with which a text begins, if it is a chronicle. A printed trail has none.
pub fn first_link(text: &str) -> Option<&str>
    ensures { option_map (λ link. link.now) result ≡ first_link text.now }
{
    let Some((line, _)) = cut_line(text) else {
        return None;
    };
    let Some((link, _)) = cut_blank(line) else {
        return None;
    };
    if is_link(link) { Some(link) } else { None }
}

fn fault_at(fault: LineFault, line: usize) -> ReadFault
    ensures { result ≡ fault_at line fault }
{
    match fault {
        LineFault::Memory => ReadFault::Memory,
        LineFault::Unreadable => ReadFault::Unreadable(line),
        LineFault::Unlinked => ReadFault::Unlinked(line),
    }
}

/// Reads the line at the front of a text, which has a link if one is given. Gives its entry, the link of the line behind it,
/// and the text behind it.
#[tactic(auto, unfolding(crate::specs::Lines::first_line))]
fn first_line<'a>(
    alloc: Global,
    link: &Option<String>,
    text: &'a str,
) -> Result<(Entry, Option<String>, &'a str), LineFault>
    ensures first { GivesFirst (λ x. (x.0, option_map string_bytes x.1, x.2.now)) result
        (first_line (option_map string_bytes link.now) text.now) }
    ensures link { IfOk result (λ x. IsLink (option_map string_bytes link.now) → IsLink (option_map string_bytes x.1)) }
{
    let Some((line, behind)) = cut_line(text) else {
        return Err(LineFault::Unreadable);
    };
    let entry = read_line(alloc, link, line)?;
    let next = link_behind(alloc, link, line)?;
    Ok((entry, next, behind))
}

/// True if a text is not over.
fn has_more(text: &str) -> bool
    ensures { result ≡ not (length text.now == 0) }
{
    text.len() != 0
}

/// Reads a text of many lines. The first has this link, or none has a link.
pub fn read_lines(alloc: Global, link: Option<String>, text: &str) -> Result<Chronicle, ReadFault>
    // What is read was written so.
    ensures found { IfOk result (λ c. IsReadTo (option_map string_bytes link) text.now c.entries.items
        (option_map string_bytes c.last) []) }
    // What was written so is read, unless memory runs out.
    ensures only { IsLink (option_map string_bytes link) → (lines : List Stamped) → AllByRecursion IsStamped lines
        → text.now ≡ lines_text (option_map string_bytes link) lines → AreRead (told_in result) lines }
    // A line that is told as unlinked is the first whose link is not the digest of the line before it.
    ensures unlinked { IfErr result (λ fault. (line : ℕ) → fault ≡ Unlinked line
        → IsUnlinked (option_map string_bytes link) text.now line) }
{
    let mut entries = Vec::new(alloc);
    let mut last = link;
    let mut rest = text;
    while has_more(rest) {
        let line = entries.len() + 1;
        let (entry, next, behind) = match first_line(alloc, &last, rest) {
            Ok(first) => first,
            Err(fault) => return Err(fault_at(fault, line)),
        };
        entries.push(entry)?;
        last = next;
        rest = behind;
    }
    Ok(Chronicle { entries, last })
}
