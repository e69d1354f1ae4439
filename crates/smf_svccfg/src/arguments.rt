//! The tokens after each command.

ghost use Rattle.std.specs.Prelude.{◌≡◌, ◌∷◌, [], Some, IfOk, option_map};
ghost use Rattle.smf_fmri.specs.Name.{is_word_byte};
ghost use Rattle.smf_model.specs.declared.command.PropertyChange.TheVariants as properties;
ghost use Rattle.smf_svccfg.specs.declared.line.Line.TheVariants as lines;
ghost use Rattle.smf_svccfg.specs.Lines.{add_by, add_group, add_value, add_values, alone, line_of_command, change_of, component_behind, delete_group_by, delete_property, delete_value, ends_in_colon, group_by, is_equals, is_flag, is_service_text, kind_and_values, kind_in, name_in, names_kind, new_group, no_tokens, one_word, parts_at_slash, set_property, set_values, target_by, target_in, text_in, values_in, with_kind, word_or_none, words_before_close};

use crate::command::CfgCommand;
use crate::line::Line;
use crate::token::Token;
use smf_fmri::{Items, Text};
use smf_model::PropertyChange;
use smf_value::{Kind, Name, NameFault};
use std::alloc::{AllocError, Global};

/// The group and the property that a word names.
#[derive(Drop)]
pub(crate) struct Target {
    group: Name,
    property: Name,
}

// ---- what words name

/// The name that a word is.
pub(crate) fn name_in(alloc: Global, word: &str) -> Result<Option<Name>, AllocError>
    ensures { IfOk result (λ name. name ≡ name_in word.now) }
{
    match Name::parse(alloc, word) {
        Ok(name) => Ok(Some(name)),
        Err(NameFault::Memory) => Err(AllocError),
        Err(_) => Ok(None),
    }
}

/// The kind that a word names with a colon at its end.
fn kind_in(word: &str) -> Option<Kind>
    ensures { result ≡ kind_in word.now }
{
    match word {
        "boolean:" => Some(Kind::Boolean),
        "count:" => Some(Kind::Count),
        "integer:" => Some(Kind::Integer),
        "time:" => Some(Kind::Time),
        "astring:" => Some(Kind::Astring),
        "ustring:" => Some(Kind::Ustring),
        "fmri:" => Some(Kind::Fmri),
        _ => None,
    }
}

/// The parts before the first slash and after it.
fn parts_at_slash(word: &str) -> Option<(&str, &str)>
    ensures { option_map (λ x. (x.0.now, x.1.now)) result ≡ parts_at_slash word.now }
{
    word.split_once('/')
}

/// The group and the property of a word GROUP/PROPERTY.
fn target_in(alloc: Global, word: &str) -> Result<Option<Target>, AllocError>
    ensures { IfOk result (λ target. target ≡ target_in word.now) }
{
    let Some((group, property)) = parts_at_slash(word) else {
        return Ok(None);
    };
    let Some(group) = name_in(alloc, group)? else {
        return Ok(None);
    };
    let Some(property) = name_in(alloc, property)? else {
        return Ok(None);
    };
    Ok(Some(Target { group, property }))
}

/// True if a component begins after a byte of a service's name, or none if the byte cannot stand there.
fn component_behind(begins: bool, b: u8) -> Option<bool>
    ensures { result ≡ component_behind begins b }
{
    if begins {
        return if b.is_ascii_alphanumeric() {
            Some(false)
        } else {
            None
        };
    }
    if b == b'/' {
        return Some(true);
    }
    if is_word_byte(b) { Some(false) } else { None }
}

fn is_word_byte(b: u8) -> bool
    ensures { result ≡ is_word_byte b }
{
    b.is_ascii_alphanumeric() || b == b'_' || b == b'-' || b == b'.' || b == b','
}

/// True if a text is one or more components with slashes between them.
fn is_service_text(bytes: &[u8]) -> bool
    ensures { result ≡ is_service_text bytes.now }
{
    let mut begins = true;
    for b in bytes {
        match component_behind(begins, *b) {
            Some(next) => begins = next,
            None => return false,
        }
    }
    !begins
}

// ---- tokens

/// The text of a word, bare or quoted.
pub(crate) fn text_in(token: &Token) -> Option<&str>
    ensures { option_map (λ x. x.now) result ≡ text_in token.now }
{
    match token {
        Token::Open => None,
        Token::Close => None,
        Token::Bare(word) => Some(word.as_str()),
        Token::Quoted(word) => Some(word.as_str()),
    }
}

/// One word and nothing else.
fn one_word(tokens: &[Token]) -> Option<&str>
    ensures { option_map (λ x. x.now) result ≡ one_word tokens.now }
{
    match tokens {
        [token] => text_in(token),
        _ => None,
    }
}

/// One word, or none.
fn word_or_none(alloc: Global, tokens: &[Token]) -> Result<Option<Option<Text>>, AllocError>
    ensures { IfOk result (λ word. word ≡ word_or_none tokens.now) }
{
    match tokens {
        [] => Ok(Some(None)),
        [token] => match text_in(token) {
            None => Ok(None),
            Some(word) => Ok(Some(Some(Text::copy_of(alloc, word)?))),
        },
        _ => Ok(None),
    }
}

/// Words up to a closing parenthesis, which is the last token.
fn words_before_close(alloc: Global, tokens: &[Token]) -> Result<Option<Items<Text>>, AllocError>
    ensures { IfOk result (λ words. words ≡ words_before_close tokens.now) }
{
    let mut words = Items::new(alloc);
    let mut left = tokens.len();
    for token in tokens {
        left -= 1;
        match token {
            Token::Open => return Ok(None),
            Token::Close => return Ok(if left == 0 { Some(words) } else { None }),
            Token::Bare(word) => words.push(word.clone()?)?,
            Token::Quoted(word) => words.push(word.clone()?)?,
        }
    }
    Ok(None)
}

fn single(alloc: Global, word: &str) -> Result<Items<Text>, AllocError>
    ensures { IfOk result (λ words. words ≡ word.now ∷ []) }
{
    let mut words = Items::new(alloc);
    words.push(Text::copy_of(alloc, word)?)?;
    Ok(words)
}

/// One word, or words in parentheses.
fn values_in(alloc: Global, tokens: &[Token]) -> Result<Option<Items<Text>>, AllocError>
    ensures { IfOk result (λ words. words ≡ values_in tokens.now) }
{
    if let [Token::Open, behind @ ..] = tokens {
        return words_before_close(alloc, behind);
    }
    match one_word(tokens) {
        None => Ok(None),
        Some(word) => Ok(Some(single(alloc, word)?)),
    }
}

fn ends_in_colon(word: &str) -> bool
    ensures { result ≡ ends_in_colon word.now }
{
    word.as_bytes().ends_with(b":")
}

fn no_tokens(tokens: &[Token]) -> bool
    ensures { result ≡ no_tokens tokens.now }
{
    match tokens {
        [] => true,
        _ => false,
    }
}

/// True if a word has to name a kind, as it ends in a colon and values follow.
fn names_kind(word: &str, values: &[Token]) -> bool
    ensures { result ≡ names_kind word.now values.now }
{
    ends_in_colon(word) && !no_tokens(values)
}

/// The kind that a word names, and the values after it.
fn with_kind<'a>(word: &str, values: &'a [Token]) -> Option<(Option<Kind>, &'a [Token])>
    ensures { option_map (λ x. (x.0, x.1.now)) result ≡ with_kind (kind_in word.now) values.now }
{
    match kind_in(word) {
        None => None,
        Some(kind) => Some((Some(kind), values)),
    }
}

/// The values after a command, and the kind that may stand before them; none if the word that has to name it does not.
fn kind_and_values(behind: &[Token]) -> Option<(Option<Kind>, &[Token])>
    ensures { option_map (λ x. (x.0, x.1.now)) result ≡ kind_and_values behind.now }
{
    match behind {
        [Token::Bare(word), values @ ..] if names_kind(word.as_str(), values) => {
            with_kind(word.as_str(), values)
        }
        _ => Some((None, behind)),
    }
}

// ---- commands

/// A command with nothing after it.
fn alone(line: Line, behind: &[Token]) -> Option<Line>
    ensures { result ≡ alone line behind.now }
{
    match behind {
        [] => Some(line),
        _ => None,
    }
}

fn select(alloc: Global, word: Option<&str>) -> Result<Option<Line>, AllocError>
    ensures { IfOk result (λ line. line ≡ option_map (λ x. lines.Select x.now) word.entry) }
{
    match word {
        None => Ok(None),
        Some(word) => Ok(Some(Line::Select(Text::copy_of(alloc, word)?))),
    }
}

fn delete(alloc: Global, word: Option<&str>) -> Result<Option<Line>, AllocError>
    ensures { IfOk result (λ line. line ≡ option_map (λ x. lines.Delete x.now) word.entry) }
{
    match word {
        None => Ok(None),
        Some(word) => Ok(Some(Line::Delete(Text::copy_of(alloc, word)?))),
    }
}

fn add(alloc: Global, word: Option<&str>) -> Result<Option<Line>, AllocError>
    ensures { IfOk result (λ line. line ≡ add_by (option_map (λ x. x.now) word.entry)) }
{
    match word {
        None => Ok(None),
        Some(word) => {
            if is_service_text(word.as_bytes()) {
                Ok(Some(Line::Add(Text::copy_of(alloc, word)?)))
            } else {
                Ok(None)
            }
        }
    }
}

fn delete_group(alloc: Global, word: Option<&str>) -> Result<Option<Line>, AllocError>
    ensures { IfOk result (λ line. line ≡ delete_group_by (option_map (λ x. x.now) word.entry)) }
{
    match word {
        None => Ok(None),
        Some(word) => match name_in(alloc, word)? {
            None => Ok(None),
            Some(name) => Ok(Some(Line::DeleteGroup(name))),
        },
    }
}

fn new_group(
    alloc: Global,
    name: &str,
    group_type: &str,
    non_persistent: bool,
) -> Result<Option<Line>, AllocError>
    ensures { IfOk result (λ line. line ≡ new_group (name_in name.now) (name_in group_type.now) non_persistent) }
{
    let Some(name) = name_in(alloc, name)? else {
        return Ok(None);
    };
    let Some(group_type) = name_in(alloc, group_type)? else {
        return Ok(None);
    };
    Ok(Some(Line::AddGroup {
        name,
        group_type,
        non_persistent,
    }))
}

fn group_by(
    alloc: Global,
    name: &Token,
    group_type: &Token,
    non_persistent: bool,
) -> Result<Option<Line>, AllocError>
    ensures { IfOk result (λ line. line ≡ group_by (text_in name.now) (text_in group_type.now) non_persistent) }
{
    let Some(name) = text_in(name) else {
        return Ok(None);
    };
    let Some(group_type) = text_in(group_type) else {
        return Ok(None);
    };
    new_group(alloc, name, group_type, non_persistent)
}

fn is_flag(token: &Token) -> bool
    ensures { result ≡ is_flag (text_in token.now) }
{
    match text_in(token) {
        None => false,
        Some(word) => word == "P",
    }
}

fn add_group(alloc: Global, behind: &[Token]) -> Result<Option<Line>, AllocError>
    ensures { IfOk result (λ line. line ≡ add_group behind.now) }
{
    match behind {
        [name, group_type] => group_by(alloc, name, group_type, false),
        [name, group_type, flag] => {
            if is_flag(flag) {
                group_by(alloc, name, group_type, true)
            } else {
                Ok(None)
            }
        }
        _ => Ok(None),
    }
}

/// The group and the property of a word, if it is one.
fn target_by(alloc: Global, word: Option<&str>) -> Result<Option<Target>, AllocError>
    ensures { IfOk result (λ target. target ≡ target_by (option_map (λ x. x.now) word.entry)) }
{
    match word {
        None => Ok(None),
        Some(word) => target_in(alloc, word),
    }
}

fn delete_property(alloc: Global, word: Option<&str>) -> Result<Option<Line>, AllocError>
    ensures { IfOk result (λ line. line ≡ delete_property (option_map (λ x. x.now) word.entry)) }
{
    match target_by(alloc, word)? {
        None => Ok(None),
        Some(Target { group, property }) => Ok(Some(Line::Property {
            group,
            change: PropertyChange::Delete { name: property },
        })),
    }
}

fn delete_value_by(alloc: Global, target: Target, value: &str) -> Result<Line, AllocError>
    ensures { IfOk result (λ line. line ≡ change_of target.group (properties.DeleteValue target.property value.now)) }
{
    let value = Text::copy_of(alloc, value)?;
    Ok(Line::Property {
        group: target.group,
        change: PropertyChange::DeleteValue {
            name: target.property,
            value,
        },
    })
}

fn delete_value(alloc: Global, behind: &[Token]) -> Result<Option<Line>, AllocError>
    ensures { IfOk result (λ line. line ≡ delete_value behind.now) }
{
    let [target, value] = behind else {
        return Ok(None);
    };
    let Some(target) = target_by(alloc, text_in(target))? else {
        return Ok(None);
    };
    match text_in(value) {
        None => Ok(None),
        Some(value) => Ok(Some(delete_value_by(alloc, target, value)?)),
    }
}

fn add_value_by(
    alloc: Global,
    target: Target,
    kind: Option<Kind>,
    value: &str,
) -> Result<Line, AllocError>
    ensures { IfOk result (λ line. line ≡ change_of target.group (properties.AddValue target.property kind value.now)) }
{
    let value = Text::copy_of(alloc, value)?;
    Ok(Line::Property {
        group: target.group,
        change: PropertyChange::AddValue {
            name: target.property,
            kind,
            value,
        },
    })
}

fn add_values(alloc: Global, target: Target, behind: &[Token]) -> Result<Option<Line>, AllocError>
    ensures { IfOk result (λ line. line ≡ add_values (Some target) (kind_and_values behind.now)) }
{
    let Some((kind, values)) = kind_and_values(behind) else {
        return Ok(None);
    };
    match one_word(values) {
        None => Ok(None),
        Some(value) => Ok(Some(add_value_by(alloc, target, kind, value)?)),
    }
}

fn add_value(alloc: Global, behind: &[Token]) -> Result<Option<Line>, AllocError>
    ensures { IfOk result (λ line. line ≡ add_value behind.now) }
{
    let [target, values @ ..] = behind else {
        return Ok(None);
    };
    match target_by(alloc, text_in(target))? {
        None => Ok(None),
        Some(target) => add_values(alloc, target, values),
    }
}

fn is_equals(token: &Token) -> bool
    ensures { result ≡ is_equals (text_in token.now) }
{
    match text_in(token) {
        None => false,
        Some(word) => word == "=",
    }
}

fn set_values(alloc: Global, target: Target, behind: &[Token]) -> Result<Option<Line>, AllocError>
    ensures { IfOk result (λ line. line ≡ set_values (Some target) (kind_and_values behind.now)) }
{
    let Some((kind, values)) = kind_and_values(behind) else {
        return Ok(None);
    };
    match values_in(alloc, values)? {
        None => Ok(None),
        Some(values) => Ok(Some(Line::Property {
            group: target.group,
            change: PropertyChange::Set {
                name: target.property,
                kind,
                values,
            },
        })),
    }
}

fn set_property(alloc: Global, behind: &[Token]) -> Result<Option<Line>, AllocError>
    ensures { IfOk result (λ line. line ≡ set_property behind.now) }
{
    let [target, sign, values @ ..] = behind else {
        return Ok(None);
    };
    if !is_equals(sign) {
        return Ok(None);
    }
    match target_by(alloc, text_in(target))? {
        None => Ok(None),
        Some(target) => set_values(alloc, target, values),
    }
}

fn select_snapshot(alloc: Global, behind: &[Token]) -> Result<Option<Line>, AllocError>
    ensures { IfOk result (λ line. line ≡ option_map (λ word. lines.SelectSnapshot word) (word_or_none behind.now)) }
{
    match word_or_none(alloc, behind)? {
        None => Ok(None),
        Some(word) => Ok(Some(Line::SelectSnapshot(word))),
    }
}

fn revert(alloc: Global, behind: &[Token]) -> Result<Option<Line>, AllocError>
    ensures { IfOk result (λ line. line ≡ option_map (λ word. lines.Revert word) (word_or_none behind.now)) }
{
    match word_or_none(alloc, behind)? {
        None => Ok(None),
        Some(word) => Ok(Some(Line::Revert(word))),
    }
}

/// The line of a command with these tokens after it; none if it cannot be used so.
pub(crate) fn line_of_command(
    alloc: Global,
    command: CfgCommand,
    behind: &[Token],
) -> Result<Option<Line>, AllocError>
    ensures { IfOk result (λ line. line ≡ line_of_command command behind.now) }
{
    match command {
        CfgCommand::Select => select(alloc, one_word(behind)),
        CfgCommand::Delete => delete(alloc, one_word(behind)),
        CfgCommand::Unselect => Ok(alone(Line::Unselect, behind)),
        CfgCommand::List => Ok(alone(Line::List, behind)),
        CfgCommand::ListGroups => Ok(alone(Line::ListGroups, behind)),
        CfgCommand::ListProperties => Ok(alone(Line::ListProperties, behind)),
        CfgCommand::ListSnapshots => Ok(alone(Line::ListSnapshots, behind)),
        CfgCommand::Add => add(alloc, one_word(behind)),
        CfgCommand::AddGroup => add_group(alloc, behind),
        CfgCommand::DeleteGroup => delete_group(alloc, one_word(behind)),
        CfgCommand::DeleteProperty => delete_property(alloc, one_word(behind)),
        CfgCommand::SetProperty => set_property(alloc, behind),
        CfgCommand::AddValue => add_value(alloc, behind),
        CfgCommand::DeleteValue => delete_value(alloc, behind),
        CfgCommand::SelectSnapshot => select_snapshot(alloc, behind),
        CfgCommand::Revert => revert(alloc, behind),
        CfgCommand::End => Ok(alone(Line::End, behind)),
        CfgCommand::Exit => Ok(alone(Line::End, behind)),
        CfgCommand::Quit => Ok(alone(Line::End, behind)),
    }
}
