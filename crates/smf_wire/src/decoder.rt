//! Messages read from lines, from left to right.

ghost use Rattle.std.specs.Prelude.{◌≡◌, IfOk, None, Ok};
ghost use Rattle.smf_fmri.specs.ByKey.{Rises};
ghost use Rattle.smf_fmri.specs.Patterns.{read_short};
ghost use Rattle.smf_method.specs.Commands.{command_of};
ghost use Rattle.smf_state.specs.Fields.{GivesAt, IsRead, left_of, read_optional, text_of_borrow, next_field};
ghost use Rattle.smf_state.specs.Patched.{by_item};
ghost use Rattle.smf_state.specs.Texts.{row_at};
ghost use Rattle.smf_wire.specs.Grammar.{GivesMessage, GivesWhole, IsClosed, all_changed_at, all_known_at, changed_at, changed_behind, changes_at, close_at, is_above, item_at, item_behind, items_at, known_at, last_changed, last_item, last_known, message_at, message_behind, method_at, method_behind, method_of, optional_method_at, order_at, proposal_at, read_above, read_body, read_command, read_line, read_seconds, row_if, view_at, what_at, what_behind, whole_message};
ghost use Rattle.smf_wire.specs.Lines.{HasLine, IsSpelled, has_row, is_body, line_text};
ghost use Rattle.smf_wire.specs.Words.{read_message_word, read_order_word, read_why};
ghost use Rattle.smf_wire.specs.declared.message.Message.{Message as AnyMessage};
ghost use Rattle.smf_wire.specs.declared.word.MessageWord.TheVariants as words;
ghost use Rattle.smf_wire.specs.declared.word.OrderWord.TheVariants as order_words;

use crate::digits::read_hex;
use crate::fault::WireFault;
use crate::message::{Known, Message, ViewChanges};
use crate::order::{Order, What};
use crate::word::{MessageWord, OrderWord, read_why};
use smf_fmri::{Bytes, InstanceFmri, Items, Ordered, SharedOrdered, read_count};
use smf_method::{CommandText, MethodCall, Timeout};
use smf_state::{
    ChangedItem, FieldFault, Ignore, Proposal, SharedRow, View, ViewItem, Why, WrongField,
    cause_at, duration_at, field_at, flag_at, ignore_at, left_of, name_at, number_at, row_at,
    state_at, step_at,
};
use std::alloc::{AllocError, Global};
use std::str;

fn wrong(rest: Option<&str>) -> WrongField
    ensures { result.left ≡ left_of (text_of_borrow rest.entry) }
{
    WrongField {
        left: left_of(rest),
    }
}

#[tactic(auto, unfolding(smf_state::specs::Fields::next_field))]
fn message_word_at(rest: Option<&str>) -> Result<(MessageWord, Option<&str>), WrongField>
    ensures { IsRead result (next_field read_message_word (text_of_borrow rest.entry)) }
{
    let Some((field, after)) = field_at(rest) else {
        return Err(wrong(rest));
    };
    match MessageWord::read(field) {
        Some(word) => Ok((word, after)),
        None => Err(wrong(rest)),
    }
}

#[tactic(auto, unfolding(smf_state::specs::Fields::next_field))]
fn order_word_at(rest: Option<&str>) -> Result<(OrderWord, Option<&str>), WrongField>
    ensures { IsRead result (next_field read_order_word (text_of_borrow rest.entry)) }
{
    let Some((field, after)) = field_at(rest) else {
        return Err(wrong(rest));
    };
    match OrderWord::read(field) {
        Some(word) => Ok((word, after)),
        None => Err(wrong(rest)),
    }
}

#[tactic(auto, unfolding(smf_state::specs::Fields::next_field))]
fn why_at(rest: Option<&str>) -> Result<(Why, Option<&str>), WrongField>
    ensures { IsRead result (next_field read_why (text_of_borrow rest.entry)) }
{
    let Some((field, after)) = field_at(rest) else {
        return Err(wrong(rest));
    };
    match read_why(field) {
        Some(why) => Ok((why, after)),
        None => Err(wrong(rest)),
    }
}

/// True if a number is above the one before it.
fn is_above(before: Option<u64>, number: u64) -> bool
    ensures { result ≡ is_above before number }
{
    match before {
        None => true,
        Some(before) => before < number,
    }
}

/// A number above the one before it.
fn read_above(before: Option<u64>, text: &str) -> Option<u64>
    ensures { result ≡ read_above before text.now }
{
    match read_count(text) {
        Some(number) if is_above(before, number) => Some(number),
        _ => None,
    }
}

#[tactic(auto, unfolding(smf_state::specs::Fields::next_field))]
fn above_at(before: Option<u64>, rest: Option<&str>) -> Result<(u64, Option<&str>), WrongField>
    ensures { IsRead result (next_field (read_above before) (text_of_borrow rest.entry)) }
{
    let Some((field, after)) = field_at(rest) else {
        return Err(wrong(rest));
    };
    match read_above(before, field) {
        Some(number) => Ok((number, after)),
        None => Err(wrong(rest)),
    }
}

/// The seconds of a timeout, which are below 2^64 - 1.
fn read_seconds(text: &str) -> Option<u64>
    ensures { result ≡ read_seconds text.now }
{
    match read_count(text) {
        Some(seconds) if seconds < u64::MAX => Some(seconds),
        _ => None,
    }
}

#[tactic(auto, unfolding(smf_state::specs::Fields::next_field))]
fn seconds_at(rest: Option<&str>) -> Result<(u64, Option<&str>), WrongField>
    ensures { IsRead result (next_field read_seconds (text_of_borrow rest.entry)) }
{
    let Some((field, after)) = field_at(rest) else {
        return Err(wrong(rest));
    };
    match read_seconds(field) {
        Some(seconds) => Ok((seconds, after)),
        None => Err(wrong(rest)),
    }
}

#[tactic(auto, unfolding(smf_state::specs::Fields::next_field))]
fn optional_seconds_at(rest: Option<&str>) -> Result<(Option<u64>, Option<&str>), WrongField>
    ensures { IsRead result (next_field (read_optional read_seconds) (text_of_borrow rest.entry)) }
{
    let Some((field, after)) = field_at(rest) else {
        return Err(wrong(rest));
    };
    if field == "-" {
        return Ok((None, after));
    }
    match read_seconds(field) {
        Some(seconds) => Ok((Some(seconds), after)),
        None => Err(wrong(rest)),
    }
}

/// The command that bytes are, if they are one.
fn command_of(alloc: Global, bytes: &[u8]) -> Result<Option<CommandText>, AllocError>
    ensures { IfOk result (λ c. c ≡ command_of bytes.now) }
{
    match str::from_utf8(bytes) {
        Ok(text) => CommandText::copy_of(alloc, text),
        Err(_) => Ok(None),
    }
}

fn read_command(alloc: Global, text: &str) -> Result<Option<CommandText>, AllocError>
    ensures { IfOk result (λ c. c ≡ read_command text.now) }
{
    match read_hex(alloc, text)? {
        None => Ok(None),
        Some(bytes) => command_of(alloc, bytes.as_slice()),
    }
}

#[tactic(auto, unfolding(smf_state::specs::Fields::next_field))]
fn command_at(alloc: Global, rest: Option<&str>) -> Result<(CommandText, Option<&str>), FieldFault>
    ensures { GivesAt result (next_field read_command (text_of_borrow rest.entry)) }
{
    let Some((field, after)) = field_at(rest) else {
        return Err(FieldFault::Left(left_of(rest)));
    };
    match read_command(alloc, field)? {
        Some(command) => Ok((command, after)),
        None => Err(FieldFault::Left(left_of(rest))),
    }
}

/// True if bytes can be a body: any can, if there are some.
fn is_body(bytes: &[u8]) -> bool
    ensures { result ≡ is_body bytes.now }
{
    !bytes.is_empty()
}

fn read_body(alloc: Global, text: &str) -> Result<Option<Bytes>, AllocError>
    ensures { IfOk result (λ b. b ≡ read_body text.now) }
{
    let Some(bytes) = read_hex(alloc, text)? else {
        return Ok(None);
    };
    if !is_body(bytes.as_slice()) {
        return Ok(None);
    }
    Ok(Some(bytes))
}

#[tactic(auto, unfolding(smf_state::specs::Fields::next_field))]
fn optional_body_at(
    alloc: Global,
    rest: Option<&str>,
) -> Result<(Option<Bytes>, Option<&str>), FieldFault>
    ensures { GivesAt result (next_field (read_optional read_body) (text_of_borrow rest.entry)) }
{
    let Some((field, after)) = field_at(rest) else {
        return Err(FieldFault::Left(left_of(rest)));
    };
    if field == "-" {
        return Ok((None, after));
    }
    match read_body(alloc, field)? {
        Some(body) => Ok((Some(body), after)),
        None => Err(FieldFault::Left(left_of(rest))),
    }
}

fn method_of(seconds: u64, command: CommandText) -> MethodCall
    ensures { result ≡ method_of seconds command }
{
    MethodCall {
        timeout: Timeout::new(seconds),
        command,
    }
}

#[tactic(auto, unfolding(crate::specs::Grammar::method_at))]
fn method_at(alloc: Global, rest: Option<&str>) -> Result<(MethodCall, Option<&str>), FieldFault>
    ensures { GivesAt result (method_at (text_of_borrow rest.entry)) }
{
    let (seconds, rest) = seconds_at(rest)?;
    let (command, rest) = command_at(alloc, rest)?;
    Ok((method_of(seconds, command), rest))
}

fn method_behind(
    alloc: Global,
    seconds: Option<u64>,
    rest: Option<&str>,
) -> Result<(Option<MethodCall>, Option<&str>), FieldFault>
    ensures { GivesAt result (method_behind seconds (text_of_borrow rest.entry)) }
{
    match seconds {
        None => Ok((None, rest)),
        Some(seconds) => {
            let (command, rest) = command_at(alloc, rest)?;
            Ok((Some(method_of(seconds, command)), rest))
        }
    }
}

#[tactic(auto, unfolding(crate::specs::Grammar::optional_method_at))]
fn optional_method_at(
    alloc: Global,
    rest: Option<&str>,
) -> Result<(Option<MethodCall>, Option<&str>), FieldFault>
    ensures { GivesAt result (optional_method_at (text_of_borrow rest.entry)) }
{
    let (seconds, rest) = optional_seconds_at(rest)?;
    method_behind(alloc, seconds, rest)
}

#[tactic(auto, unfolding(crate::specs::Grammar::what_behind))]
fn start_at(alloc: Global, rest: Option<&str>) -> Result<(What, Option<&str>), FieldFault>
    ensures { GivesAt result (what_behind order_words.Start (text_of_borrow rest.entry)) }
{
    let (method, rest) = method_at(alloc, rest)?;
    let (duration, rest) = duration_at(rest)?;
    let (ignore, rest) = ignore_at(rest)?;
    let what = What::Start {
        method,
        duration,
        ignore: Ignore::new(ignore),
    };
    Ok((what, rest))
}

#[tactic(auto, unfolding(crate::specs::Grammar::what_behind))]
fn stop_at(alloc: Global, rest: Option<&str>) -> Result<(What, Option<&str>), FieldFault>
    ensures { GivesAt result (what_behind order_words.Stop (text_of_borrow rest.entry)) }
{
    let (to, rest) = state_at(rest)?;
    let (cause, rest) = cause_at(rest)?;
    let (method, rest) = optional_method_at(alloc, rest)?;
    Ok((What::Stop { to, cause, method }, rest))
}

#[tactic(auto, unfolding(crate::specs::Grammar::what_behind))]
fn what_behind(
    alloc: Global,
    word: OrderWord,
    rest: Option<&str>,
) -> Result<(What, Option<&str>), FieldFault>
    ensures { GivesAt result (what_behind word (text_of_borrow rest.entry)) }
{
    match word {
        OrderWord::To => {
            let (state, rest) = state_at(rest)?;
            Ok((What::To(state), rest))
        }
        OrderWord::Start => start_at(alloc, rest),
        OrderWord::Stop => stop_at(alloc, rest),
        OrderWord::Refresh => {
            let (method, rest) = optional_method_at(alloc, rest)?;
            Ok((What::Refresh { method }, rest))
        }
    }
}

#[tactic(auto, unfolding(crate::specs::Grammar::what_at))]
fn what_at(alloc: Global, rest: Option<&str>) -> Result<(What, Option<&str>), FieldFault>
    ensures { GivesAt result (what_at (text_of_borrow rest.entry)) }
{
    let (word, rest) = order_word_at(rest)?;
    what_behind(alloc, word, rest)
}

fn shared_row_at(alloc: Global, rest: Option<&str>) -> Result<(SharedRow, Option<&str>), FieldFault>
    ensures { GivesAt result (row_at (text_of_borrow rest.entry)) }
{
    let (row, rest) = row_at(alloc, rest)?;
    let row = SharedRow::of(alloc, row)?;
    Ok((row, rest))
}

#[tactic(auto, unfolding(crate::specs::Grammar::known_at))]
fn known_at(
    alloc: Global,
    before: Option<u64>,
    rest: Option<&str>,
) -> Result<(Known, Option<&str>), FieldFault>
    ensures { GivesAt result (known_at before (text_of_borrow rest.entry)) }
{
    let (instance, rest) = above_at(before, rest)?;
    let (name, rest) = name_at(alloc, rest)?;
    let (row, rest) = shared_row_at(alloc, rest)?;
    let known = Known {
        instance,
        name,
        row,
    };
    Ok((known, rest))
}

fn last_known(rows: &[Known]) -> Option<u64>
    ensures { result ≡ last_known rows.now }
{
    rows.last().map(|known| known.instance)
}

/// So many instances, their numbers rising.
fn all_known_at(
    alloc: Global,
    count: u64,
    rest: Option<&str>,
) -> Result<(Items<Known>, Option<&str>), FieldFault>
    ensures { GivesAt result (all_known_at None count (text_of_borrow rest.entry)) }
{
    let mut rows: Items<Known> = Items::new(alloc);
    let mut left = rest;
    for _ in 0..count {
        let (known, after) = known_at(alloc, last_known(rows.as_slice()), left)?;
        rows.push(known)?;
        left = after;
    }
    Ok((rows, left))
}

/// The fields of an item after its number and its name.
#[tactic(auto, unfolding(crate::specs::Grammar::item_behind))]
fn item_behind(
    alloc: Global,
    instance: u64,
    name: InstanceFmri,
    rest: Option<&str>,
) -> Result<(ViewItem, Option<&str>), FieldFault>
    ensures { GivesAt result (item_behind instance name (text_of_borrow rest.entry)) }
{
    let (enabled, rest) = flag_at(rest)?;
    let (readable, rest) = flag_at(rest)?;
    let (row, rest) = shared_row_at(alloc, rest)?;
    let (body, rest) = optional_body_at(alloc, rest)?;
    let item = ViewItem {
        instance,
        name,
        enabled,
        readable,
        row,
        body,
    };
    Ok((item, rest))
}

#[tactic(auto, unfolding(crate::specs::Grammar::item_at))]
fn item_at(
    alloc: Global,
    before: Option<u64>,
    rest: Option<&str>,
) -> Result<(ViewItem, Option<&str>), FieldFault>
    ensures { GivesAt result (item_at before (text_of_borrow rest.entry)) }
{
    let (instance, rest) = above_at(before, rest)?;
    let (name, rest) = name_at(alloc, rest)?;
    item_behind(alloc, instance, name, rest)
}

fn last_item(items: &[ViewItem]) -> Option<u64>
    ensures { result ≡ last_item items.now }
{
    items.last().map(|item| item.instance)
}

/// So many items of a view, their numbers rising.
fn items_at(
    alloc: Global,
    count: u64,
    rest: Option<&str>,
) -> Result<(Items<ViewItem>, Option<&str>), FieldFault>
    ensures { GivesAt result (items_at None count (text_of_borrow rest.entry)) }
{
    let mut items: Items<ViewItem> = Items::new(alloc);
    let mut left = rest;
    for _ in 0..count {
        let (item, after) = item_at(alloc, last_item(items.as_slice()), left)?;
        items.push(item)?;
        left = after;
    }
    Ok((items, left))
}

#[tactic(auto, unfolding(smf_state::specs::Fields::next_field))]
fn optional_name_at(
    alloc: Global,
    rest: Option<&str>,
) -> Result<(Option<InstanceFmri>, Option<&str>), FieldFault>
    ensures { GivesAt result (next_field (read_optional read_short) (text_of_borrow rest.entry)) }
{
    let Some((field, after)) = field_at(rest) else {
        return Err(FieldFault::Left(left_of(rest)));
    };
    if field == "-" {
        return Ok((None, after));
    }
    match InstanceFmri::read_short(alloc, field)? {
        Some(name) => Ok((Some(name), after)),
        None => Err(FieldFault::Left(left_of(rest))),
    }
}

/// The change of an instance: its item after its name, or none after `-`.
fn changed_behind(
    alloc: Global,
    instance: u64,
    name: Option<InstanceFmri>,
    rest: Option<&str>,
) -> Result<(ChangedItem, Option<&str>), FieldFault>
    ensures { GivesAt result (changed_behind instance name (text_of_borrow rest.entry)) }
{
    match name {
        None => {
            let gone = ChangedItem {
                instance,
                item: None,
            };
            Ok((gone, rest))
        }
        Some(name) => {
            let (item, rest) = item_behind(alloc, instance, name, rest)?;
            let changed = ChangedItem {
                instance,
                item: Some(item),
            };
            Ok((changed, rest))
        }
    }
}

#[tactic(auto, unfolding(crate::specs::Grammar::changed_at))]
fn changed_at(
    alloc: Global,
    before: Option<u64>,
    rest: Option<&str>,
) -> Result<(ChangedItem, Option<&str>), FieldFault>
    ensures { GivesAt result (changed_at before (text_of_borrow rest.entry)) }
{
    let (instance, rest) = above_at(before, rest)?;
    let (name, rest) = optional_name_at(alloc, rest)?;
    changed_behind(alloc, instance, name, rest)
}

fn last_changed(items: &[ChangedItem]) -> Option<u64>
    ensures { result ≡ last_changed items.now }
{
    items.last().map(|changed| changed.instance)
}

/// So many changes, their numbers rising.
fn all_changed_at(
    alloc: Global,
    count: u64,
    rest: Option<&str>,
) -> Result<(Items<ChangedItem>, Option<&str>), FieldFault>
    ensures { GivesAt result (all_changed_at None count (text_of_borrow rest.entry)) }
{
    let mut items: Items<ChangedItem> = Items::new(alloc);
    let mut left = rest;
    for _ in 0..count {
        let (changed, after) = changed_at(alloc, last_changed(items.as_slice()), left)?;
        items.push(changed)?;
        left = after;
    }
    Ok((items, left))
}

#[tactic(auto, unfolding(crate::specs::Grammar::proposal_at))]
fn proposal_at(alloc: Global, rest: Option<&str>) -> Result<(Proposal, Option<&str>), FieldFault>
    ensures { GivesAt result (proposal_at (text_of_borrow rest.entry)) }
{
    let (proposer, rest) = name_at(alloc, rest)?;
    let (launch, rest) = number_at(rest)?;
    let (serial, rest) = number_at(rest)?;
    let (instance, rest) = number_at(rest)?;
    let (number, rest) = number_at(rest)?;
    match step_at(rest) {
        Ok((step, rest)) => {
            let proposal = Proposal {
                proposer,
                launch,
                serial,
                instance,
                number,
                step,
            };
            Ok((proposal, rest))
        }
        Err(wrong) => Err(FieldFault::Left(wrong.left)),
    }
}

#[tactic(auto, unfolding(crate::specs::Grammar::order_at))]
fn order_at(alloc: Global, rest: Option<&str>) -> Result<(Order, Option<&str>), FieldFault>
    ensures { GivesAt result (order_at (text_of_borrow rest.entry)) }
{
    let (restarter, rest) = name_at(alloc, rest)?;
    let (instance, rest) = number_at(rest)?;
    let (name, rest) = name_at(alloc, rest)?;
    let (revision, rest) = number_at(rest)?;
    let (row, rest) = shared_row_at(alloc, rest)?;
    let (what, rest) = what_at(alloc, rest)?;
    let order = Order {
        restarter,
        instance,
        name,
        revision,
        row,
        what,
    };
    Ok((order, rest))
}

/// Items in number order, as a view holds them.
fn shared_items(
    alloc: Global,
    items: Items<ViewItem>,
) -> Result<SharedOrdered<ViewItem>, AllocError>
    requires { Rises by_item items }
    ensures { IfOk result (λ s. s ≡ items) }
{
    SharedOrdered::of(alloc, Ordered::from_vec(items.into_vec()))
}

#[tactic(auto, unfolding(crate::specs::Grammar::view_at))]
fn view_at(alloc: Global, rest: Option<&str>) -> Result<(View, Option<&str>), FieldFault>
    ensures { GivesAt result (view_at (text_of_borrow rest.entry)) }
{
    let (revision, rest) = number_at(rest)?;
    let (count, rest) = number_at(rest)?;
    let (items, rest) = items_at(alloc, count, rest)?;
    let items = shared_items(alloc, items)?;
    Ok((View { revision, items }, rest))
}

#[tactic(auto, unfolding(crate::specs::Grammar::changes_at))]
fn changes_at(alloc: Global, rest: Option<&str>) -> Result<(ViewChanges, Option<&str>), FieldFault>
    ensures { GivesAt result (changes_at (text_of_borrow rest.entry)) }
{
    let (from, rest) = number_at(rest)?;
    let (to, rest) = number_at(rest)?;
    let (count, rest) = number_at(rest)?;
    let (items, rest) = all_changed_at(alloc, count, rest)?;
    Ok((ViewChanges { from, to, items }, rest))
}

fn has_row(why: Why) -> bool
    ensures { result ≡ has_row why }
{
    match why {
        Why::NoSuch => false,
        Why::Launch => true,
        Why::Owner => true,
        Why::Number => true,
        Why::Snapshot => true,
        Why::Step(_) => true,
    }
}

/// The row as it is, if a refused proposal has one.
fn row_if(
    alloc: Global,
    is_there: bool,
    rest: Option<&str>,
) -> Result<(Option<SharedRow>, Option<&str>), FieldFault>
    ensures { GivesAt result (row_if is_there (text_of_borrow rest.entry)) }
{
    if !is_there {
        return Ok((None, rest));
    }
    let (row, rest) = shared_row_at(alloc, rest)?;
    Ok((Some(row), rest))
}

#[tactic(auto, unfolding(crate::specs::Grammar::message_behind))]
fn join_behind(alloc: Global, rest: Option<&str>) -> Result<(Message, Option<&str>), FieldFault>
    ensures { GivesAt result (message_behind words.Join (text_of_borrow rest.entry)) }
{
    let (name, rest) = name_at(alloc, rest)?;
    let (launch, rest) = number_at(rest)?;
    Ok((Message::Join { name, launch }, rest))
}

#[tactic(auto, unfolding(crate::specs::Grammar::message_behind))]
fn rows_behind(alloc: Global, rest: Option<&str>) -> Result<(Message, Option<&str>), FieldFault>
    ensures { GivesAt result (message_behind words.Rows (text_of_borrow rest.entry)) }
{
    let (name, rest) = name_at(alloc, rest)?;
    let (launch, rest) = number_at(rest)?;
    let (count, rest) = number_at(rest)?;
    let (rows, rest) = all_known_at(alloc, count, rest)?;
    Ok((Message::Rows { name, launch, rows }, rest))
}

#[tactic(auto, unfolding(crate::specs::Grammar::message_behind))]
fn ack_behind(alloc: Global, rest: Option<&str>) -> Result<(Message, Option<&str>), FieldFault>
    ensures { GivesAt result (message_behind words.Ack (text_of_borrow rest.entry)) }
{
    let (name, rest) = name_at(alloc, rest)?;
    let (launch, rest) = number_at(rest)?;
    let (serial, rest) = number_at(rest)?;
    let (instance, rest) = number_at(rest)?;
    let (row, rest) = shared_row_at(alloc, rest)?;
    let message = Message::Ack {
        name,
        launch,
        serial,
        instance,
        row,
    };
    Ok((message, rest))
}

#[tactic(auto, unfolding(crate::specs::Grammar::message_behind))]
fn nack_behind(alloc: Global, rest: Option<&str>) -> Result<(Message, Option<&str>), FieldFault>
    ensures { GivesAt result (message_behind words.Nack (text_of_borrow rest.entry)) }
{
    let (name, rest) = name_at(alloc, rest)?;
    let (launch, rest) = number_at(rest)?;
    let (serial, rest) = number_at(rest)?;
    let (instance, rest) = number_at(rest)?;
    let (why, rest) = why_at(rest)?;
    let (row, rest) = row_if(alloc, has_row(why), rest)?;
    let message = Message::Nack {
        name,
        launch,
        serial,
        instance,
        why,
        row,
    };
    Ok((message, rest))
}

/// The fields of a message after its word.
#[tactic(auto, unfolding(crate::specs::Grammar::message_behind))]
fn message_behind(
    alloc: Global,
    word: MessageWord,
    rest: Option<&str>,
) -> Result<(Message, Option<&str>), FieldFault>
    ensures { GivesAt result (message_behind word (text_of_borrow rest.entry)) }
{
    match word {
        MessageWord::Join => join_behind(alloc, rest),
        MessageWord::Rows => rows_behind(alloc, rest),
        MessageWord::Propose => {
            let (proposal, rest) = proposal_at(alloc, rest)?;
            Ok((Message::Propose(proposal), rest))
        }
        MessageWord::Ack => ack_behind(alloc, rest),
        MessageWord::Nack => nack_behind(alloc, rest),
        MessageWord::AskView => Ok((Message::AskView, rest)),
        MessageWord::View => {
            let (view, rest) = view_at(alloc, rest)?;
            Ok((Message::View(view), rest))
        }
        MessageWord::AskChange => {
            let (revision, rest) = number_at(rest)?;
            Ok((Message::AskChange(revision), rest))
        }
        MessageWord::Changes => {
            let (changes, rest) = changes_at(alloc, rest)?;
            Ok((Message::Changes(changes), rest))
        }
        MessageWord::Order => {
            let (order, rest) = order_at(alloc, rest)?;
            Ok((Message::Order(order), rest))
        }
    }
}

/// The message that stands first in the rest of a line, and the rest after it.
#[tactic(auto, unfolding(crate::specs::Grammar::message_at))]
fn message_at(alloc: Global, rest: Option<&str>) -> Result<(Message, Option<&str>), FieldFault>
    ensures { GivesAt result (message_at (text_of_borrow rest.entry)) }
{
    let (word, rest) = message_word_at(rest)?;
    message_behind(alloc, word, rest)
}

/// The field that closes a line, with nothing after it.
#[tactic(auto, unfolding(crate::specs::Grammar::close_at, smf_state::specs::Fields::next_field))]
fn close_at(rest: Option<&str>) -> Result<(), WrongField>
    ensures { IsClosed result (close_at (text_of_borrow rest.entry)) }
{
    let Some((field, after)) = field_at(rest) else {
        return Err(wrong(rest));
    };
    if field != "." {
        return Err(wrong(rest));
    }
    match after {
        None => Ok(()),
        Some(_) => Err(wrong(after)),
    }
}

#[tactic(auto, unfolding(crate::specs::Grammar::whole_message))]
fn whole_message(alloc: Global, line: &str) -> Result<Message, FieldFault>
    ensures { GivesWhole result (whole_message line.now) }
{
    let (message, rest) = message_at(alloc, Some(line))?;
    close_at(rest)?;
    Ok(message)
}

#[tactic(auto, unfolding(crate::specs::Grammar::read_line))]
fn read_line(alloc: Global, line: &str) -> Result<Message, WireFault>
    ensures { GivesMessage result (read_line line.now) }
{
    match whole_message(alloc, line) {
        Ok(message) => Ok(message),
        Err(FieldFault::Left(left)) => {
            Err(WireFault::NotInGrammar(line.len().saturating_sub(left)))
        }
        Err(FieldFault::Memory) => Err(WireFault::Memory),
    }
}

/// The message that a line spells, without its end of line: fields with one space between, closed by the field `.`.
pub fn decode(alloc: Global, line: &str) -> Result<Message, WireFault>
    // A message that is read is spelled so.
    ensures found { IfOk result (λ m. line.now ≡ line_text m) }
    ensures spelled { IfOk result IsSpelled }
    // A message that is spelled so is read, unless memory runs out.
    ensures only { (m : AnyMessage) → HasLine m → line.now ≡ line_text m → GivesMessage result (Ok m) }
    // A fault gives the place of the first wrong field.
    ensures exact { GivesMessage result (read_line line.now) }
{
    read_line(alloc, line)
}
