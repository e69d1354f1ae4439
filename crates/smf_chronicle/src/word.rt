ghost use Rattle.std.specs.Prelude.{◌≡◌, Some, None};
ghost use Rattle.smf_chronicle.specs.Words.{read_method, read_next, read_word};

use smf_contract::Method;
use smf_state::State;

/// The word that an entry begins with.
#[derive(Clone, Copy, PartialEq, Eq)]
pub(crate) enum Word {
    Boot,
    Committed,
    Held,
    Spawned,
    Emptied,
    Life,
    Row,
    Living,
}

impl Word {
    pub(crate) fn read(text: &str) -> Option<Word>
        ensures { result ≡ read_word text.now }
    {
        if text == "boot" {
            Some(Word::Boot)
        } else if text == "committed" {
            Some(Word::Committed)
        } else if text == "held" {
            Some(Word::Held)
        } else if text == "spawned" {
            Some(Word::Spawned)
        } else if text == "emptied" {
            Some(Word::Emptied)
        } else if text == "life" {
            Some(Word::Life)
        } else if text == "row" {
            Some(Word::Row)
        } else if text == "living" {
            Some(Word::Living)
        } else {
            None
        }
    }
}

pub(crate) fn read_next(text: &str) -> Option<Option<State>>
    ensures { result ≡ read_next text.now }
{
    if text == "none" {
        Some(None)
    } else {
        match State::read(text) {
            Some(state) => Some(Some(state)),
            None => None,
        }
    }
}

pub(crate) fn read_method(text: &str) -> Option<Method>
    ensures { result ≡ read_method text.now }
{
    if text == "start" {
        Some(Method::Start)
    } else if text == "stop" {
        Some(Method::Stop)
    } else if text == "refresh" {
        Some(Method::Refresh)
    } else {
        None
    }
}
