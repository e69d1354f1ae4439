//! Values read from texts and printed.

ghost use Rattle.smf_fmri.specs.declared.fault.FmriFault.TheVariants.{Memory};
ghost use Rattle.smf_value.specs.ValueTexts.{Gives, Spells, is_decimal, text_of_value, read_astring, read_boolean, read_count, read_fmri, read_integer, read_moment, read_negative, read_positive, read_time, read_ustring, read_value, nine_digits};
ghost use Rattle.smf_value.specs.Texts.{IsShort};
ghost use Rattle.smf_value.specs.Values.{IsValue, kind_of};
ghost use Rattle.smf_value.specs.Moments.{IsMoment};
ghost use Rattle.smf_value.specs.declared.value.Value.{Value as AnyValue};
ghost use Rattle.smf_value.specs.declared.value.Value.TheVariants.{Time as AnyTime};
ghost use Rattle.std.specs.Prelude.{◌≡◌, ◌<◌, ◌≤◌, ◌++◌, ◌-◌, ◌∷◌, IfErr, IfOk, OnOk, Ok, length, replicate, string_bytes, true};
ghost use Rattle.std.specs.Char.{is_ascii_digit};
ghost use Rattle.std.specs.List.{list_all};
ghost use Rattle.std.specs.Str.Parse.{digits_value};

use crate::astring::Astring;
use crate::fault::ValueFault;
use crate::kind::Kind;
use crate::time::Time;
use crate::ustring::Ustring;
use crate::value::Value;
use smf_fmri::limits::{MAX_NAME, MAX_TEXT};
use smf_fmri::{Fmri, FmriFault, Text, strip};
use std::alloc::{AllocError, Global};

fn all_digits(bytes: &[u8]) -> bool
    ensures { result ≡ list_all is_ascii_digit bytes.now }
{
    bytes.iter().all(|b| b.is_ascii_digit())
}

/// True if a text is a number in decimal, without sign or leading zero.
fn is_decimal(bytes: &[u8]) -> bool
    ensures { result ≡ is_decimal bytes.now }
{
    match bytes {
        [] => false,
        [digit] => digit.is_ascii_digit(),
        [first, ..] => *first != b'0' && all_digits(bytes),
    }
}

fn read_boolean(text: &str) -> Result<Value, ValueFault>
    ensures { result ≡ read_boolean text.now }
{
    if text == "true" {
        Ok(Value::Boolean(true))
    } else if text == "false" {
        Ok(Value::Boolean(false))
    } else {
        Err(ValueFault::NotA(Kind::Boolean))
    }
}

#[tactic(auto, unfolding(crate::specs::ValueTexts::read_count))]
fn read_count(text: &str) -> Result<Value, ValueFault>
    ensures { result ≡ read_count text.now }
{
    if !is_decimal(text.as_bytes()) {
        return Err(ValueFault::NotA(Kind::Count));
    }
    match text.parse::<u64>() {
        Ok(number) => Ok(Value::Count(number)),
        Err(_) => Err(ValueFault::Range),
    }
}

fn read_positive(text: &str) -> Result<Value, ValueFault>
    ensures { result ≡ read_positive text.now }
{
    if !is_decimal(text.as_bytes()) {
        return Err(ValueFault::NotA(Kind::Integer));
    }
    match text.parse::<i64>() {
        Ok(number) => Ok(Value::Integer(number)),
        Err(_) => Err(ValueFault::Range),
    }
}

/// A number after a minus: `text` is the minus and then `rest`.
fn read_negative(text: &str, rest: &str) -> Result<Value, ValueFault>
    requires { text.now ≡ 45 ∷ rest.now }
    ensures { result ≡ read_negative rest.now }
{
    if !is_decimal(rest.as_bytes()) || rest == "0" {
        return Err(ValueFault::NotA(Kind::Integer));
    }
    match text.parse::<i64>() {
        Ok(number) => Ok(Value::Integer(number)),
        Err(_) => Err(ValueFault::Range),
    }
}

#[tactic(auto, unfolding(crate::specs::ValueTexts::read_integer))]
fn read_integer(text: &str) -> Result<Value, ValueFault>
    ensures { result ≡ read_integer text.now }
{
    match strip("-", text) {
        Some(rest) => read_negative(text, rest),
        None => read_positive(text),
    }
}

/// The number that nine digits are.
fn nanoseconds_of(digits: &str) -> u32
    requires digits { list_all is_ascii_digit digits.now ≡ true }
    requires nine { length digits.now ≡ 9 }
    ensures value { result ≡ digits_value 10 digits.now }
    ensures bound { result < 1_000_000_000 }
{
    match digits.parse::<u32>() {
        Ok(number) => number,
        Err(_) => unreachable!(),
    }
}

#[tactic(auto, unfolding(crate::specs::ValueTexts::read_moment))]
fn read_moment(seconds: &str, rest: &str) -> Result<Value, ValueFault>
    ensures { result ≡ read_moment seconds.now rest.now }
{
    if !is_decimal(seconds.as_bytes()) || !all_digits(rest.as_bytes()) || rest.len() != 9 {
        return Err(ValueFault::NotA(Kind::Time));
    }
    let nanoseconds = nanoseconds_of(rest);
    let Ok(seconds) = seconds.parse::<u64>() else {
        return Err(ValueFault::Range);
    };
    match Time::new(seconds, nanoseconds) {
        Some(time) => Ok(Value::Time(time)),
        None => Err(ValueFault::Range),
    }
}

#[tactic(auto, unfolding(crate::specs::ValueTexts::read_time))]
fn read_time(text: &str) -> Result<Value, ValueFault>
    ensures { result ≡ read_time text.now }
{
    let Some((seconds, rest)) = text.split_once('.') else {
        return Err(ValueFault::NotA(Kind::Time));
    };
    read_moment(seconds, rest)
}

#[tactic(auto, unfolding(crate::specs::ValueTexts::read_astring))]
fn read_astring(alloc: Global, text: &str) -> Result<Value, ValueFault>
    ensures { Gives (λ v. v) result (read_astring text.now) }
{
    if text.len() > MAX_TEXT {
        return Err(ValueFault::TooLong);
    }
    if !Astring::is_text(text.as_bytes()) {
        return Err(ValueFault::NotA(Kind::Astring));
    }
    Ok(Value::Astring(Astring::new(alloc, text)?))
}

#[tactic(auto, unfolding(crate::specs::ValueTexts::read_ustring))]
fn read_ustring(alloc: Global, text: &str) -> Result<Value, ValueFault>
    ensures { Gives (λ v. v) result (read_ustring text.now) }
{
    if text.len() > MAX_TEXT {
        return Err(ValueFault::TooLong);
    }
    if !Ustring::is_text(text.as_bytes()) {
        return Err(ValueFault::NotA(Kind::Ustring));
    }
    Ok(Value::Ustring(Ustring::new(alloc, text)?))
}

#[tactic(auto, unfolding(crate::specs::ValueTexts::read_fmri))]
fn read_fmri(alloc: Global, text: &str) -> Result<Value, ValueFault>
    ensures { Gives (λ v. v) result (read_fmri text.now) }
{
    if text.len() > MAX_NAME {
        return Err(ValueFault::TooLong);
    }
    match Fmri::parse(alloc, text) {
        Ok(name) => Ok(Value::Fmri(name)),
        Err(FmriFault::Memory) => Err(ValueFault::Memory),
        Err(_) => Err(ValueFault::NotA(Kind::Fmri)),
    }
}

fn value_of(alloc: Global, kind: Kind, text: &str) -> Result<Value, ValueFault>
    ensures { Gives (λ v. v) result (read_value kind text.now) }
{
    match kind {
        Kind::Boolean => read_boolean(text),
        Kind::Count => read_count(text),
        Kind::Integer => read_integer(text),
        Kind::Time => read_time(text),
        Kind::Astring => read_astring(alloc, text),
        Kind::Ustring => read_ustring(alloc, text),
        Kind::Fmri => read_fmri(alloc, text),
    }
}

/// Reads the short text of a name, which is that name. It is refused for want of memory alone.
fn read_again(alloc: Global, name: &Fmri) -> Result<Fmri, FmriFault>
    ensures same { IfOk result (λ f. f ≡ name.now) }
    ensures short { IfOk result (λ _. IsShort name.now) }
    ensures bounded { IfOk result (λ f. length f ≤ 512) }
    ensures only { IfErr result (λ e. e ≡ Memory) }
{
    Fmri::parse(alloc, name.print())
}

/// The short text of a name, which reads as that name.
pub(crate) fn short_of(alloc: Global, name: &Fmri) -> Result<Fmri, AllocError>
    ensures same { IfOk result (λ f. f ≡ name.now) }
    ensures short { IfOk result (λ _. IsShort name.now) }
    ensures bounded { IfOk result (λ f. length f ≤ 512) }
{
    match read_again(alloc, name) {
        Ok(again) => Ok(again),
        Err(FmriFault::Memory) => Err(AllocError),
        Err(_) => unreachable!(),
    }
}

/// Writes zeros up to nine digits, and then the digits.
fn push_padded(text: &mut String, digits: &str) -> Result<(), AllocError>
    ensures { OnOk result
        (string_bytes text.new ≡ string_bytes text.old ++ (replicate (9 - length digits.now) 48 ++ digits.now)) }
{
    for _ in digits.len()..9 {
        text.push('0')?;
    }
    text.push_str(digits)
}

#[tactic(auto, unfolding(crate::specs::ValueTexts::nine_digits))]
fn push_digits(alloc: Global, text: &mut String, number: u32) -> Result<(), AllocError>
    ensures { OnOk result (string_bytes text.new ≡ string_bytes text.old ++ nine_digits number) }
{
    let digits = format!(in alloc; "{number}")?;
    push_padded(text, digits.as_str())
}

impl Value {
    /// The value of a kind that a text spells.
    pub fn read(alloc: Global, kind: Kind, text: &str) -> Result<Value, ValueFault>
        // A value that is read is of the kind, and is spelled so.
        ensures found { IfOk result (λ v. (kind_of v ≡ kind) × Spells text.now v) }
        // A value that is spelled so is read, unless memory runs out.
        ensures only { (v : AnyValue) → kind_of v ≡ kind → Spells text.now v → Gives (λ v. v) result (Ok v) }
        // Which refusal it is, the first one that applies.
        ensures exact { Gives (λ v. v) result (read_value kind text.now) }
    {
        value_of(alloc, kind, text)
    }

    /// The one spelling of the value, of an fmri the short one.
    pub fn print(&self, alloc: Global) -> Result<Text, AllocError>
        ensures printed { IfOk result (λ t. t ≡ text_of_value self.now) }
        // The text that is printed spells the value.
        ensures spelled { IfOk result (λ t. Spells t self.now) }
        // The text that is printed is read as the value again.
        ensures again { IfOk result (λ t. read_value (kind_of self.now) t ≡ Ok self.now) }
    {
        text_of_value(alloc, self)
    }
}

/// Seconds, a point, and nine digits of nanoseconds.
fn printed_time(alloc: Global, time: Time) -> Result<String, AllocError>
    ensures printed { IfOk result (λ text. string_bytes text ≡ text_of_value (AnyTime time)) }
    ensures formed { IsMoment time }
{
    let mut text = format!(in alloc; "{}.", time.seconds())?;
    push_digits(alloc, &mut text, time.nanoseconds())?;
    Ok(text)
}

fn text_of_value(alloc: Global, value: &Value) -> Result<Text, AllocError>
    ensures printed { IfOk result (λ t. t ≡ text_of_value value.now) }
    ensures formed { OnOk result (IsValue value.now) }
{
    match value {
        Value::Boolean(true) => Text::copy_of(alloc, "true"),
        Value::Boolean(false) => Text::copy_of(alloc, "false"),
        Value::Count(number) => {
            let number = *number;
            let text = format!(in alloc; "{number}")?;
            Ok(Text::from_string(text))
        }
        Value::Integer(number) => {
            let number = *number;
            let text = format!(in alloc; "{number}")?;
            Ok(Text::from_string(text))
        }
        Value::Time(time) => {
            let text = printed_time(alloc, *time)?;
            Ok(Text::from_string(text))
        }
        Value::Astring(text) => Text::copy_of(alloc, text.as_str()),
        Value::Ustring(text) => Text::copy_of(alloc, text.as_str()),
        Value::Fmri(name) => {
            let name = short_of(alloc, name)?;
            Text::copy_of(alloc, name.print())
        }
    }
}
