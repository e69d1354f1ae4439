ghost use Rattle.smf_fmri.specs.Name.{strip};
ghost use Rattle.smf_room.specs.Tokens.{IsReadable, read_ended, read_over, read_rest, read_token, token_name};
ghost use Rattle.std.specs.Prelude.{◌≡◌, codes, IfOk, IfSome, Some, string_bytes};

use smf_fmri::{read_count, strip};
use std::alloc::{AllocError, Global};

/// The state of a contract that has a token. A status is one as wait gives it.
#[derive(Clone, Copy)]
pub enum Token {
    /// It may begin.
    Go,
    /// It never begins.
    Void,
    /// Its first process runs, or will, or could not be started.
    Begun,
    /// Its first process ended with this status.
    Ended(u64),
    /// Nothing is left of it. Without a status nobody knows how the first process ended.
    Over(Option<u64>),
}

/// The name of the file that is a token.
pub fn name_of(alloc: Global, token: Token) -> Result<String, AllocError>
    ensures { IfOk result (λ name. string_bytes name ≡ token_name token) }
{
    match token {
        Token::Go => format!(in alloc; "go"),
        Token::Void => format!(in alloc; "void"),
        Token::Begun => format!(in alloc; "begun"),
        Token::Ended(status) => format!(in alloc; "ended-{status}"),
        Token::Over(Some(status)) => format!(in alloc; "over-{status}"),
        Token::Over(None) => format!(in alloc; "over-x"),
    }
}

fn read_over(status: &str) -> Option<Token>
    ensures { result ≡ read_over status.now }
{
    if status == "x" {
        return Some(Token::Over(None));
    }
    match read_count(status) {
        Some(status) => Some(Token::Over(Some(status))),
        None => None,
    }
}

fn read_ended(status: &str) -> Option<Token>
    ensures { result ≡ read_ended status.now }
{
    match read_count(status) {
        Some(status) => Some(Token::Ended(status)),
        None => None,
    }
}

fn read_rest(name: &str) -> Option<Token>
    ensures { result ≡ read_rest (strip (codes "ended-") name.now) (strip (codes "over-") name.now) }
{
    if let Some(status) = strip("ended-", name) {
        return read_ended(status);
    }
    match strip("over-", name) {
        Some(status) => read_over(status),
        None => None,
    }
}

fn token_named(name: &str) -> Option<Token>
    ensures { result ≡ read_token name.now }
{
    if name == "go" {
        Some(Token::Go)
    } else if name == "void" {
        Some(Token::Void)
    } else if name == "begun" {
        Some(Token::Begun)
    } else {
        read_rest(name)
    }
}

/// The token that a file of this name is. None if it is no token.
pub fn read_token(name: &str) -> Option<Token>
    ensures exact { result ≡ read_token name.now }
    ensures printed { IfSome result (λ t. name.now ≡ token_name t) }
    ensures read { (t : Token) → IsReadable t → name.now ≡ token_name t → result ≡ Some t }
{
    token_named(name)
}
