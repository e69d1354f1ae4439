ghost use Rattle.std.specs.Prelude.{◌≡◌, pos, IfSome, option_map};
ghost use Rattle.sqlite.specs.declared.types.Value.TheVariants.{Blob, Int, Text};
ghost use Rattle.std.specs.Str.{is_utf8};
ghost use Rattle.sqlite.specs.Order.{column};
ghost use Rattle.sqlite_value.specs.Value.{owned};
ghost use Rattle.smf_store.specs.Shown.{optional_value};
ghost use Rattle.smf_store.specs.RowValues.{bytes_in, count_in, value_if, integer_in, number_in, optional_in, text_in};

use smf_fmri::Number;
use sqlite::Row;
use sqlite_value::value::ValueRef;

/// The value of a column, which is NULL past the last.
fn value_at(row: &Row, at: usize) -> ValueRef<'_>
    ensures { owned result ≡ column row.now at }
{
    match row.get_ref(at) {
        Ok(value) => value,
        Err(_) => ValueRef::Null,
    }
}

fn unsigned(number: i64) -> Option<u64>
    ensures { result ≡ count_in (Int number) }
{
    if number < 0 {
        return None;
    }
    Some(number as u64)
}

pub(crate) fn integer_at(row: &Row, at: usize) -> Option<i64>
    ensures exact { result ≡ integer_in (column row.now at) }
    ensures shows { IfSome result (λ n. column row.now at ≡ Int n) }
{
    match value_at(row, at) {
        ValueRef::Int(number) => Some(number),
        ValueRef::Null => None,
        ValueRef::Real(_) => None,
        ValueRef::Text(_) => None,
        ValueRef::Blob(_) => None,
    }
}

pub(crate) fn count_at(row: &Row, at: usize) -> Option<u64>
    ensures exact { result ≡ count_in (column row.now at) }
    ensures shows { IfSome result (λ n. column row.now at ≡ Int (pos n)) }
{
    match value_at(row, at) {
        ValueRef::Int(number) => unsigned(number),
        ValueRef::Null => None,
        ValueRef::Real(_) => None,
        ValueRef::Text(_) => None,
        ValueRef::Blob(_) => None,
    }
}

/// A number up to the greatest that a store holds.
pub(crate) fn number_at(row: &Row, at: usize) -> Option<Number>
    ensures exact { result ≡ number_in (column row.now at) }
    ensures shows { IfSome result (λ n. column row.now at ≡ Int (pos n)) }
{
    let Some(number) = count_at(row, at) else {
        return None;
    };
    Number::new(number)
}

/// A number or NULL.
pub(crate) fn optional_at(row: &Row, at: usize) -> Option<Option<Number>>
    ensures exact { result ≡ optional_in (column row.now at) }
    ensures shows { IfSome result (λ n. column row.now at ≡ optional_value n) }
{
    match value_at(row, at) {
        ValueRef::Null => Some(None),
        ValueRef::Int(_) => number_at(row, at).map(Some),
        ValueRef::Real(_) => None,
        ValueRef::Text(_) => None,
        ValueRef::Blob(_) => None,
    }
}

/// The bytes as a text, if they are one.
fn text_of(bytes: &[u8]) -> Option<&str>
    ensures exact { option_map (λ x. x.now) result ≡ value_if (is_utf8 bytes.now) bytes.now }
    ensures same { IfSome result (λ text. text.now ≡ bytes.now) }
{
    match std::str::from_utf8(bytes) {
        Ok(text) => Some(text),
        Err(_) => None,
    }
}

pub(crate) fn text_at(row: &Row, at: usize) -> Option<&str>
    ensures exact { option_map (λ x. x.now) result ≡ text_in (column row.now at) }
    ensures shows { IfSome result (λ text. column row.now at ≡ Text text.now) }
{
    match value_at(row, at) {
        ValueRef::Text(text) => text_of(text),
        ValueRef::Null => None,
        ValueRef::Int(_) => None,
        ValueRef::Real(_) => None,
        ValueRef::Blob(_) => None,
    }
}

pub(crate) fn bytes_at(row: &Row, at: usize) -> Option<&[u8]>
    ensures exact { option_map (λ x. x.now) result ≡ bytes_in (column row.now at) }
    ensures shows { IfSome result (λ bytes. column row.now at ≡ Blob bytes.now) }
{
    match value_at(row, at) {
        ValueRef::Blob(bytes) => Some(bytes),
        ValueRef::Null => None,
        ValueRef::Int(_) => None,
        ValueRef::Real(_) => None,
        ValueRef::Text(_) => None,
    }
}
