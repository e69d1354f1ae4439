ghost use Rattle.std.specs.Prelude.{◌≡◌};
ghost use Rattle.smf_wire.specs.Words.{read_message_word, read_order_word, read_step_fault, read_why, why_text};

use smf_state::{StepFault, Why};

/// The word that the line of a message begins with.
#[derive(Clone, Copy, PartialEq, Eq)]
pub(crate) enum MessageWord {
    Join,
    Rows,
    Propose,
    Ack,
    Nack,
    AskView,
    View,
    AskChange,
    Changes,
    Order,
}

/// The word that begins what an order says.
#[derive(Clone, Copy, PartialEq, Eq)]
pub(crate) enum OrderWord {
    To,
    Start,
    Stop,
    Refresh,
}

impl MessageWord {
    pub(crate) fn read(text: &str) -> Option<MessageWord>
        ensures { result ≡ read_message_word text.now }
    {
        if text == "join" {
            Some(MessageWord::Join)
        } else if text == "rows" {
            Some(MessageWord::Rows)
        } else if text == "propose" {
            Some(MessageWord::Propose)
        } else if text == "ack" {
            Some(MessageWord::Ack)
        } else if text == "nack" {
            Some(MessageWord::Nack)
        } else if text == "askview" {
            Some(MessageWord::AskView)
        } else if text == "view" {
            Some(MessageWord::View)
        } else if text == "order" {
            Some(MessageWord::Order)
        } else if text == "askchange" {
            Some(MessageWord::AskChange)
        } else if text == "changes" {
            Some(MessageWord::Changes)
        } else {
            None
        }
    }
}

impl OrderWord {
    pub(crate) fn read(text: &str) -> Option<OrderWord>
        ensures { result ≡ read_order_word text.now }
    {
        if text == "to" {
            Some(OrderWord::To)
        } else if text == "start" {
            Some(OrderWord::Start)
        } else if text == "stop" {
            Some(OrderWord::Stop)
        } else if text == "refresh" {
            Some(OrderWord::Refresh)
        } else {
            None
        }
    }
}

/// The word for why a proposal is refused.
pub(crate) fn why_text(why: Why) -> &'static str
    ensures { result.now ≡ why_text why }
{
    match why {
        Why::NoSuch => "nosuch",
        Why::Launch => "launch",
        Why::Owner => "owner",
        Why::Number => "number",
        Why::Snapshot => "snapshot",
        Why::Step(StepFault::Exhausted) => "exhausted",
        Why::Step(StepFault::StillLive) => "live",
        Why::Step(StepFault::NotLive) => "notlive",
        Why::Step(StepFault::NoEdge) => "edge",
    }
}

pub(crate) fn read_why(text: &str) -> Option<Why>
    ensures { result ≡ read_why text.now }
{
    if text == "nosuch" {
        Some(Why::NoSuch)
    } else if text == "launch" {
        Some(Why::Launch)
    } else if text == "owner" {
        Some(Why::Owner)
    } else if text == "number" {
        Some(Why::Number)
    } else if text == "snapshot" {
        Some(Why::Snapshot)
    } else {
        read_step_fault(text)
    }
}

fn read_step_fault(text: &str) -> Option<Why>
    ensures { result ≡ read_step_fault text.now }
{
    if text == "exhausted" {
        Some(Why::Step(StepFault::Exhausted))
    } else if text == "live" {
        Some(Why::Step(StepFault::StillLive))
    } else if text == "notlive" {
        Some(Why::Step(StepFault::NotLive))
    } else if text == "edge" {
        Some(Why::Step(StepFault::NoEdge))
    } else {
        None
    }
}
