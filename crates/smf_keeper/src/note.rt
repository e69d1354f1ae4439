// The note of a contract: what is started, and what a later life has to know of it.
ghost use Rattle.smf_contract.specs.Stated.{AreEvents};
ghost use Rattle.smf_keeper.specs.Notes.{IsNoteOf, bit, field, is_start, key_if, method_fields, terms_fields, variable_field};
ghost use Rattle.std.specs.Fmt.{decimal};
ghost use Rattle.std.specs.Prelude.{◌≡◌, ◌++◌, IfOk, IfSome, OnOk, string_bytes};

use bitflags::Flags;
use smf_contract::{EventSet, Found, Method, Terms};
use smf_edge::{Start, Variable};
use smf_fmri::{Number, read_count};
use smf_method::method_text;
use smf_room::{Note, field_in};
use std::alloc::{AllocError, Global};

/// The bits of all kinds of events.
const ALL_EVENTS: u8 = 63;

/// One field more, with a byte 0 behind it.
fn put(text: &mut String, name: &str, value: &str) -> Result<(), AllocError>
    ensures { OnOk result (string_bytes text.new ≡ string_bytes text.old ++ field name.now value.now) }
{
    text.push_str(name)?;
    text.push_str(value)?;
    text.push('\0')?;
    Ok(())
}

/// One field more that has a number.
fn put_number(alloc: Global, text: &mut String, name: &str, number: u64) -> Result<(), AllocError>
    ensures { OnOk result (string_bytes text.new ≡ string_bytes text.old ++ field name.now (decimal number)) }
{
    let number = format!(in alloc; "{number}")?;
    put(text, name, number.as_str())
}

/// 1 or 0.
fn bit(flag: bool) -> u64
    ensures { result ≡ bit flag }
{
    if flag { 1 } else { 0 }
}

fn put_terms(alloc: Global, text: &mut String, terms: Terms) -> Result<(), AllocError>
    ensures { OnOk result (string_bytes text.new ≡ string_bytes text.old ++ terms_fields terms) }
{
    put_number(
        alloc,
        text,
        "informative=",
        u64::from(terms.informative.bits()),
    )?;
    put_number(alloc, text, "critical=", u64::from(terms.critical.bits()))?;
    put_number(alloc, text, "fatal=", u64::from(terms.fatal.bits()))?;
    put_number(alloc, text, "inherit=", bit(terms.inherit))?;
    put_number(alloc, text, "noorphan=", bit(terms.noorphan))
}

/// One variable of a method more.
fn put_variable(text: &mut String, variable: Variable, start: &Start) -> Result<(), AllocError>
    ensures { OnOk result (string_bytes text.new ≡ string_bytes text.old ++ variable_field start.now variable) }
{
    text.push_str("env=")?;
    text.push_str(variable.name())?;
    put(text, "=", variable.value(start))
}

/// What the variables of a method say, and its words.
fn put_method(text: &mut String, start: &Start) -> Result<(), AllocError>
    ensures { OnOk result (string_bytes text.new ≡ string_bytes text.old ++ method_fields start.now) }
{
    put(text, "method=", method_text(start.method))?;
    put(text, "fmri=", start.instance.print())?;
    put_variable(text, Variable::Path, start)?;
    put_variable(text, Variable::Fmri, start)?;
    put_variable(text, Variable::Method, start)?;
    put_variable(text, Variable::Restarter, start)?;
    put(text, "arg=", "/bin/sh")?;
    put(text, "arg=", "-c")?;
    put(text, "arg=", start.command.as_str())
}

/// Whose contract it is: that of the start of an instance, of which no two may run; or of this method alone.
fn key_of(alloc: Global, start: &Start) -> Result<String, AllocError>
    ensures { IfOk result (λ key. string_bytes key ≡ key_if (is_start start.now.method) start.now) }
{
    let name = start.instance.print();
    match start.method {
        Method::Start => format!(in alloc; "{name}"),
        _ => {
            let number = start.contract.get();
            let method = method_text(start.method);
            format!(in alloc; "{method} {number} {name}")
        }
    }
}

/// The note of a contract for the start of a method.
pub fn note_of(alloc: Global, start: &Start) -> Result<Note, AllocError>
    ensures { IfOk result (IsNoteOf start.now) }
{
    let mut rest = String::new(alloc);
    put_number(alloc, &mut rest, "contract=", start.contract.get())?;
    put_number(alloc, &mut rest, "cookie=", start.cookie)?;
    put_terms(alloc, &mut rest, start.terms)?;
    put_method(&mut rest, start)?;
    Ok(Note {
        instance: key_of(alloc, start)?,
        rest,
    })
}

fn number_in(note: &Note, name: &str) -> Option<u64> {
    read_count(field_in(note.rest.as_str(), name)?)
}

fn events_in(note: &Note, name: &str) -> Option<EventSet>
    ensures { IfSome result AreEvents }
{
    let bits = u8::try_from(number_in(note, name)?).ok()?;
    if bits > ALL_EVENTS {
        return None;
    }
    let events = EventSet::from_bits(bits)?;
    Some(events)
}

fn flag_in(note: &Note, name: &str) -> Option<bool> {
    match number_in(note, name)? {
        0 => Some(false),
        1 => Some(true),
        _ => None,
    }
}

/// The contract that a note tells of. None if it is not a note of `note_of`. The end of its first process is left to be
/// told.
pub fn found_in(note: &Note) -> Option<Found> {
    Some(Found {
        id: Number::new(number_in(note, "contract=")?)?,
        cookie: number_in(note, "cookie=")?,
        terms: Terms {
            informative: events_in(note, "informative=")?,
            critical: events_in(note, "critical=")?,
            fatal: events_in(note, "fatal=")?,
            inherit: flag_in(note, "inherit=")?,
            noorphan: flag_in(note, "noorphan=")?,
        },
        end: None,
    })
}
