//! Likely mistakes in the groups of an instance, as lines.

ghost use Rattle.std.specs.List.{list_all, list_any};
ghost use Rattle.std.specs.Option.{option_copied};
ghost use Rattle.std.specs.Prelude.{◌≡◌, ◌++◌, ◌∷◌, [], IfOk, OnOk, codes, flat_map, option_map, string_bytes, unwrap_or};
ghost use Rattle.smf_fmri.specs.Name.{strip};
ghost use Rattle.smf_method.specs.Commands.{command_of};
ghost use Rattle.smf_state.specs.Fields.{split_field};
ghost use Rattle.smf_reasons.specs.Texts.{line_end};
ghost use Rattle.smf_reasons.specs.Hints.{are_few, exec_of, first_word, group_hints, is_dependency, is_first_signal, is_fourth_signal, is_known, is_method, is_near, is_kill, is_kill_by, is_missing, is_number_of_signal, is_of_dependency, is_of_method, is_of_startd, is_path, is_path_byte, is_read, is_read_of, is_second_signal, is_startd, is_there, is_third_signal, near_type, path_or_none, program_hint, program_hint_by, program_in, program_list, program_of, property_hint, property_hints, signal_hint, signal_hint_by, signal_in, type_hint, type_hint_by};

use smf_fmri::{Items, Text, read_count, strip};
use smf_method::{Builtin, CommandText};
use smf_state::field_at;
use smf_value::{Astring, Group, Property};
use std::alloc::{AllocError, Global};
use strsim::levenshtein;

/// The most edits that lead from a mistyped type to the one that was meant.
const MOST_EDITS: usize = 2;

/// The greatest number of a signal.
const LAST_SIGNAL: u64 = 64;

// ---- the type of a group

fn is_near(alloc: Global, text: &str, known: &str) -> Result<bool, AllocError>
    ensures { IfOk result (λ b. b ≡ is_near text.now known.now) }
{
    let edits = levenshtein(alloc, text, known)?;
    Ok(0 < edits && edits <= MOST_EDITS)
}

/// The type of a group that was meant, if it is mistyped.
fn near_type(alloc: Global, text: &str) -> Result<Option<&'static str>, AllocError>
    ensures { IfOk result (λ t. option_map (λ x. x.now) t ≡ near_type text.now) }
{
    if is_near(alloc, text, "dependency")? {
        return Ok(Some("dependency"));
    }
    if is_near(alloc, text, "method")? {
        return Ok(Some("method"));
    }
    if is_near(alloc, text, "framework")? {
        return Ok(Some("framework"));
    }
    Ok(None)
}

fn put_near(out: &mut String, group: &str, kind: &str, known: &str) -> Result<(), AllocError>
    ensures { OnOk result
        (string_bytes out.new ≡ string_bytes out.old
        ++ (codes "Hint: Group " ++ group.now ++ codes " has the type " ++ kind.now
        ++ codes ", which means nothing. Is it " ++ known.now ++ (codes "?" ++ line_end))) }
{
    out.push_str("Hint: Group ")?;
    out.push_str(group)?;
    out.push_str(" has the type ")?;
    out.push_str(kind)?;
    out.push_str(", which means nothing. Is it ")?;
    out.push_str(known)?;
    out.push_str("?\n")
}

/// Puts a hint if the type of a group is mistyped.
#[tactic(auto, unfolding(crate::specs::Hints::type_hint))]
fn put_type_hint(alloc: Global, out: &mut String, group: &Group) -> Result<(), AllocError>
    ensures { OnOk result (string_bytes out.new ≡ string_bytes out.old ++ type_hint group.now) }
{
    match near_type(alloc, group.group_type().as_str())? {
        None => Ok(()),
        Some(known) => put_near(
            out,
            group.name().as_str(),
            group.group_type().as_str(),
            known,
        ),
    }
}

// ---- properties

fn is_of_dependency(property: &str) -> bool
    ensures { result ≡ is_of_dependency property.now }
{
    property == "grouping"
        || property == "restart_on"
        || property == "type"
        || property == "entities"
}

fn is_of_method(property: &str) -> bool
    ensures { result ≡ is_of_method property.now }
{
    property == "exec" || property == "timeout_seconds"
}

fn is_of_startd(property: &str) -> bool
    ensures { result ≡ is_of_startd property.now }
{
    property == "duration"
        || property == "ignore_error"
        || property == "log_max"
        || property == "log_keep"
        || property == "critical_failure_count"
        || property == "critical_failure_period"
        || property == "retry_seconds"
        || property == "retry_most"
        || property == "retry_count"
}

fn is_dependency(group: &Group) -> bool
    ensures { result ≡ is_dependency group.now }
{
    group.group_type().as_str() == "dependency"
}

fn is_method(group: &Group) -> bool
    ensures { result ≡ is_method group.now }
{
    let name = group.name().as_str();
    name == "start" || name == "stop" || name == "refresh"
}

fn is_startd(group: &Group) -> bool
    ensures { result ≡ is_startd group.now }
{
    group.name().as_str() == "startd"
}

/// True if smf reads a group.
fn is_read(group: &Group) -> bool
    ensures { result ≡ is_read group.now }
{
    is_dependency(group) || is_method(group) || is_startd(group)
}

/// True if smf reads a property of a group.
fn is_read_of(group: &Group, property: &str) -> bool
    ensures { result ≡ is_read_of group.now property.now }
{
    (is_dependency(group) && is_of_dependency(property))
        || (is_method(group) && is_of_method(property))
        || (is_startd(group) && is_of_startd(property))
}

fn put_unread(out: &mut String, group: &str, property: &str) -> Result<(), AllocError>
    ensures { OnOk result
        (string_bytes out.new ≡ string_bytes out.old
        ++ (codes "Hint: Property " ++ group.now ++ codes "/" ++ property.now ++ (codes " is read by nothing." ++ line_end))) }
{
    out.push_str("Hint: Property ")?;
    out.push_str(group)?;
    out.push_str("/")?;
    out.push_str(property)?;
    out.push_str(" is read by nothing.\n")
}

#[tactic(auto, unfolding(crate::specs::Hints::property_hint))]
fn put_property_hint(out: &mut String, group: &Group, property: &Property) -> Result<(), AllocError>
    ensures { OnOk result (string_bytes out.new ≡ string_bytes out.old ++ property_hint group.now property.now) }
{
    let name = property.name().as_str();
    if is_read_of(group, name) {
        return Ok(());
    }
    put_unread(out, group.name().as_str(), name)
}

fn put_all_unread(
    out: &mut String,
    group: &Group,
    properties: &[Property],
) -> Result<(), AllocError>
    ensures { OnOk result
        (string_bytes out.new ≡ string_bytes out.old ++ flat_map (property_hint group.now) properties.now) }
{
    for property in properties {
        put_property_hint(out, group, property)?;
    }
    Ok(())
}

/// Puts a hint for each property that nothing reads of a group that smf reads.
#[tactic(auto, unfolding(crate::specs::Hints::property_hints))]
fn put_property_hints(out: &mut String, group: &Group) -> Result<(), AllocError>
    ensures { OnOk result (string_bytes out.new ≡ string_bytes out.old ++ property_hints group.now) }
{
    if !is_read(group) {
        return Ok(());
    }
    put_all_unread(out, group, group.properties())
}

// ---- the signal of the stop method

fn is_number_of_signal(number: Option<u64>) -> bool
    ensures { result ≡ is_number_of_signal number }
{
    match number {
        None => false,
        Some(number) => 0 < number && number <= LAST_SIGNAL,
    }
}

/// True for the name of a signal from 1 to 8. `libexec/smf_hold` has the names too.
fn is_first_signal(signal: &str) -> bool
    ensures { result ≡ is_first_signal signal.now }
{
    signal == "HUP"
        || signal == "INT"
        || signal == "QUIT"
        || signal == "ILL"
        || signal == "TRAP"
        || signal == "ABRT"
        || signal == "BUS"
        || signal == "FPE"
}

/// True for the name of a signal from 9 to 16.
fn is_second_signal(signal: &str) -> bool
    ensures { result ≡ is_second_signal signal.now }
{
    signal == "KILL"
        || signal == "USR1"
        || signal == "SEGV"
        || signal == "USR2"
        || signal == "PIPE"
        || signal == "ALRM"
        || signal == "TERM"
        || signal == "STKFLT"
}

/// True for the name of a signal from 17 to 24.
fn is_third_signal(signal: &str) -> bool
    ensures { result ≡ is_third_signal signal.now }
{
    signal == "CHLD"
        || signal == "CONT"
        || signal == "STOP"
        || signal == "TSTP"
        || signal == "TTIN"
        || signal == "TTOU"
        || signal == "URG"
        || signal == "XCPU"
}

/// True for the name of a signal from 25 to 31.
fn is_fourth_signal(signal: &str) -> bool
    ensures { result ≡ is_fourth_signal signal.now }
{
    signal == "XFSZ"
        || signal == "VTALRM"
        || signal == "PROF"
        || signal == "WINCH"
        || signal == "IO"
        || signal == "PWR"
        || signal == "SYS"
}

fn is_known(text: &str) -> bool
    ensures { result ≡ is_known text.now }
{
    is_first_signal(text)
        || is_second_signal(text)
        || is_third_signal(text)
        || is_fourth_signal(text)
        || is_number_of_signal(read_count(text))
}

/// True if the system has a signal. `SIG` may stand in front.
fn is_there(signal: &str) -> bool
    ensures { result ≡ is_there signal.now }
{
    match strip("SIG", signal) {
        None => is_known(signal),
        Some(rest) => is_known(rest),
    }
}

fn put_no_signal(out: &mut String, signal: &str) -> Result<(), AllocError>
    ensures { OnOk result
        (string_bytes out.new ≡ string_bytes out.old
        ++ (codes "Hint: Signal " ++ signal.now ++ (codes " of method stop does not exist, so TERM is sent."
        ++ line_end))) }
{
    out.push_str("Hint: Signal ")?;
    out.push_str(signal)?;
    out.push_str(" of method stop does not exist, so TERM is sent.\n")
}

fn put_signal_hint_by(out: &mut String, signal: Option<&str>) -> Result<(), AllocError>
    ensures { OnOk result
        (string_bytes out.new ≡ string_bytes out.old
        ++ signal_hint_by (option_map (λ x. x.now) signal.entry)) }
{
    match signal {
        None => Ok(()),
        Some(signal) => {
            if is_there(signal) {
                return Ok(());
            }
            put_no_signal(out, signal)
        }
    }
}

fn is_kill_by(builtin: Option<Builtin>) -> bool
    ensures { result ≡ is_kill_by builtin }
{
    match builtin {
        None => false,
        Some(Builtin::True) => false,
        Some(Builtin::Kill) => true,
    }
}

fn is_kill(alloc: Global, exec: &str) -> Result<bool, AllocError>
    ensures { IfOk result (λ b. b ≡ is_kill (command_of exec.now)) }
{
    match CommandText::copy_of(alloc, exec)? {
        None => Ok(false),
        Some(command) => Ok(is_kill_by(command.builtin())),
    }
}

/// The signal that a command `:kill -` names.
fn signal_in<'a>(alloc: Global, exec: Option<&'a Astring>) -> Result<Option<&'a str>, AllocError>
    ensures { IfOk result (λ s. option_map (λ x. x.now) s ≡ signal_in (option_copied exec.entry)) }
{
    let Some(exec) = exec else {
        return Ok(None);
    };
    let exec = exec.as_str();
    if !is_kill(alloc, exec)? {
        return Ok(None);
    }
    Ok(strip(":kill -", exec))
}

/// Puts a hint if the stop method names a signal that there is not.
#[tactic(auto, unfolding(crate::specs::Hints::signal_hint))]
fn put_signal_hint(alloc: Global, out: &mut String, group: &Group) -> Result<(), AllocError>
    ensures { OnOk result (string_bytes out.new ≡ string_bytes out.old ++ signal_hint group.now) }
{
    if group.name().as_str() != "stop" {
        return Ok(());
    }
    let signal = signal_in(alloc, group.text("exec"))?;
    put_signal_hint_by(out, signal)
}

// ---- the program of a method

fn is_path_byte(b: u8) -> bool
    ensures { result ≡ is_path_byte b }
{
    b.is_ascii_alphanumeric() || b == b'_' || b == b'.' || b == b'/' || b == b'+' || b == b'-'
}

fn are_path_bytes(bytes: &[u8]) -> bool
    ensures { result ≡ list_all is_path_byte bytes.now }
{
    bytes.iter().all(|b| is_path_byte(*b))
}

fn is_path(text: &[u8]) -> bool
    ensures { result ≡ is_path text.now }
{
    match text {
        [] => false,
        [first, rest @ ..] => *first == b'/' && are_path_bytes(rest),
    }
}

fn first_word(text: &str) -> &str
    ensures { result.now ≡ first_word text.now }
{
    match field_at(Some(text)) {
        None => "",
        Some((word, _)) => word,
    }
}

fn path_or_none(word: &str) -> Option<&str>
    ensures { option_map (λ x. x.now) result ≡ path_or_none word.now }
{
    if is_path(word.as_bytes()) {
        Some(word)
    } else {
        None
    }
}

/// The first word of a command, or the second behind `exec`, if it is an absolute path.
fn program_in(exec: Option<&Astring>) -> Option<&str>
    ensures { option_map (λ x. x.now) result ≡ program_in (option_copied exec.entry) }
{
    match exec {
        None => None,
        Some(exec) => match strip("exec ", exec.as_str()) {
            None => path_or_none(first_word(exec.as_str())),
            Some(rest) => path_or_none(first_word(rest)),
        },
    }
}

/// The program of a method, if its command begins with an absolute path.
#[tactic(auto, unfolding(crate::specs::Hints::program_of))]
pub(crate) fn program_of(group: &Group) -> Option<&str>
    ensures { option_map (λ x. x.now) result ≡ program_of group.now }
{
    if !is_method(group) {
        return None;
    }
    program_in(group.text("exec"))
}

fn is_missing(missing: &[Text], program: &str) -> bool
    ensures { result ≡ is_missing missing.now program.now }
{
    missing.iter().any(|m| m.as_str() == program)
}

fn put_no_program(out: &mut String, program: &str, method: &str) -> Result<(), AllocError>
    ensures { OnOk result
        (string_bytes out.new ≡ string_bytes out.old
        ++ (codes "Hint: Program " ++ program.now ++ codes " of method " ++ method.now ++ (codes " is not there."
        ++ line_end))) }
{
    out.push_str("Hint: Program ")?;
    out.push_str(program)?;
    out.push_str(" of method ")?;
    out.push_str(method)?;
    out.push_str(" is not there.\n")
}

/// Puts a hint if the program of a method is missing.
fn put_program_hint(missing: &[Text], out: &mut String, group: &Group) -> Result<(), AllocError>
    ensures { OnOk result (string_bytes out.new ≡ string_bytes out.old ++ program_hint missing.now group.now) }
{
    match program_of(group) {
        None => Ok(()),
        Some(program) => {
            if !is_missing(missing, program) {
                return Ok(());
            }
            put_no_program(out, program, group.name().as_str())
        }
    }
}

// ---- all of a group

/// Puts the hints of a group, if these programs are missing.
#[tactic(auto, unfolding(crate::specs::Hints::group_hints))]
fn put_group_hints(
    alloc: Global,
    missing: &[Text],
    out: &mut String,
    group: &Group,
) -> Result<(), AllocError>
    ensures { OnOk result (string_bytes out.new ≡ string_bytes out.old ++ group_hints missing.now group.now) }
{
    put_type_hint(alloc, out, group)?;
    put_property_hints(out, group)?;
    put_signal_hint(alloc, out, group)?;
    put_program_hint(missing, out, group)
}

/// Puts the hints of groups, in their order.
pub(crate) fn put_hints(
    alloc: Global,
    missing: &[Text],
    out: &mut String,
    groups: &[Group],
) -> Result<(), AllocError>
    ensures { OnOk result
        (string_bytes out.new ≡ string_bytes out.old ++ flat_map (group_hints missing.now) groups.now) }
{
    for group in groups {
        put_group_hints(alloc, missing, out, group)?;
    }
    Ok(())
}

#[tactic(auto, unfolding(crate::specs::Hints::program_list))]
fn push_program(alloc: Global, group: &Group, all: &mut Items<Text>) -> Result<(), AllocError>
    ensures { OnOk result (all.new ≡ all.old ++ program_list group.now) }
{
    match program_of(group) {
        None => Ok(()),
        Some(program) => all.push(Text::copy_of(alloc, program)?),
    }
}

/// Puts the programs of the methods among groups, in their order.
pub(crate) fn push_programs(
    alloc: Global,
    groups: &[Group],
    all: &mut Items<Text>,
) -> Result<(), AllocError>
    ensures { OnOk result (all.new ≡ all.old ++ flat_map program_list groups.now) }
{
    for group in groups {
        push_program(alloc, group, all)?;
    }
    Ok(())
}
