ghost use Rattle.std.specs.Prelude.{◌≡◌, IfOk, option_map};
ghost use Rattle.smf_svccfg.specs.Lines.{is_comment};
ghost use Rattle.smf_script.specs.Requests.{again_by, asked_by, asked_of, behind_blank, behind_one_blank, behind_word, boot_line, count_in, crash_by, exit_by, exit_line, exit_of, front, incident_request, join_by, lose_by, process_by, refuse_by, request_of, schedule_request, settle_by, timeout_by, trail_line, word_in};

use smf_admin::copies;
use smf_contract::{Exit, Failure};
use smf_fmri::{Items, Text, read_count, strip};
use smf_lines::text_in;
use smf_svccfg::words;
use smf_world::ProcessEvent;
use std::alloc::{AllocError, Global};

/// What a line asks of the node alone.
#[derive(Drop)]
pub enum NodeRequest {
    /// A blank line or a comment.
    Nothing,
    /// A line of svccfg.
    Svccfg(Text),
    /// The words after svcadm.
    Svcadm(Items<Text>),
    /// The words after svcs.
    Svcs(Items<Text>),
    /// The next so many spawns are refused.
    Refuse(u64),
    /// The message of this number is lost, among those that are sent from now on.
    Lose(u64),
    /// So many messages, the last that were delivered, are delivered again.
    Again(u64),
    /// A method of the instance that a word stands for takes too long.
    Timeout(Text),
    /// The restarter of a name crashes.
    Crash(Text),
    Trail,
    Bad,
}

/// What a line asks of the children of services, and of the node by what they answer.
#[derive(Drop)]
pub enum ChildRequest {
    /// So many rounds at most.
    Settle(u64),
    /// Something happens to a process of the instance that a word stands for.
    Process { word: Text, what: ProcessEvent },
    /// The process of the instance that a word stands for is waited for.
    Join(Text),
    Boot,
}

/// The request of a line, by who does it.
#[derive(Drop)]
pub enum Request {
    Node(NodeRequest),
    Children(ChildRequest),
}

fn is_comment(text: &[u8]) -> bool
    ensures { result ≡ is_comment text.now }
{
    match text {
        [first, ..] => *first == b'#',
        [] => false,
    }
}

/// The text after a blank in front, if there is one.
fn behind_blank(text: &str) -> Option<&str>
    ensures { option_map (λ x. x.now) result ≡ behind_blank text.now }
{
    match strip(" ", text) {
        Some(behind) => Some(behind),
        None => strip("\t", text),
    }
}

/// A text without the blanks in front.
fn front(text: &str) -> &str
    ensures { result.now ≡ front text.now }
{
    let mut rest = text;
    loop {
        match behind_blank(rest) {
            Some(behind) => rest = behind,
            None => return rest,
        }
    }
}

fn behind_one_blank(text: &str) -> &str
    ensures { result.now ≡ behind_one_blank text.now }
{
    match behind_blank(text) {
        Some(behind) => behind,
        None => "",
    }
}

/// The text after the blanks in front, a word and one blank.
fn behind_word<'a>(word: &str, text: &'a str) -> &'a str
    ensures { result.now ≡ behind_word word.now text.now }
{
    match strip(word, front(text)) {
        Some(behind) => behind_one_blank(behind),
        None => "",
    }
}

/// The count that stands alone.
fn count_in(arguments: &[Text]) -> Option<u64>
    ensures { result ≡ count_in arguments.now }
{
    match arguments {
        [word] => read_count(word.as_str()),
        _ => None,
    }
}

/// The word that stands alone.
fn word_in(arguments: &[Text]) -> Result<Option<Text>, AllocError>
    ensures { IfOk result (λ word. word ≡ word_in arguments.now) }
{
    match arguments {
        [word] => Ok(Some(word.clone()?)),
        _ => Ok(None),
    }
}

fn settle_by(count: Option<u64>) -> Request
    ensures { result ≡ settle_by count }
{
    match count {
        Some(rounds) => Request::Children(ChildRequest::Settle(rounds)),
        None => Request::Node(NodeRequest::Bad),
    }
}

fn refuse_by(count: Option<u64>) -> Request
    ensures { result ≡ refuse_by count }
{
    match count {
        Some(count) => Request::Node(NodeRequest::Refuse(count)),
        None => Request::Node(NodeRequest::Bad),
    }
}

fn lose_by(count: Option<u64>) -> Request
    ensures { result ≡ lose_by count }
{
    match count {
        Some(count) => Request::Node(NodeRequest::Lose(count)),
        None => Request::Node(NodeRequest::Bad),
    }
}

fn again_by(count: Option<u64>) -> Request
    ensures { result ≡ again_by count }
{
    match count {
        Some(count) => Request::Node(NodeRequest::Again(count)),
        None => Request::Node(NodeRequest::Bad),
    }
}

fn trail_line(arguments: &[Text]) -> Request
    ensures { result ≡ trail_line arguments.now }
{
    match arguments {
        [] => Request::Node(NodeRequest::Trail),
        _ => Request::Node(NodeRequest::Bad),
    }
}

fn boot_line(arguments: &[Text]) -> Request
    ensures { result ≡ boot_line arguments.now }
{
    match arguments {
        [] => Request::Children(ChildRequest::Boot),
        _ => Request::Node(NodeRequest::Bad),
    }
}

fn timeout_by(word: Option<Text>) -> Request
    ensures { result ≡ timeout_by word }
{
    match word {
        Some(word) => Request::Node(NodeRequest::Timeout(word)),
        None => Request::Node(NodeRequest::Bad),
    }
}

fn join_by(word: Option<Text>) -> Request
    ensures { result ≡ join_by word }
{
    match word {
        Some(word) => Request::Children(ChildRequest::Join(word)),
        None => Request::Node(NodeRequest::Bad),
    }
}

fn crash_by(word: Option<Text>) -> Request
    ensures { result ≡ crash_by word }
{
    match word {
        Some(word) => Request::Node(NodeRequest::Crash(word)),
        None => Request::Node(NodeRequest::Bad),
    }
}

fn process_by(what: ProcessEvent, word: Option<Text>) -> Request
    ensures { result ≡ process_by what word }
{
    match word {
        Some(word) => Request::Children(ChildRequest::Process { word, what }),
        None => Request::Node(NodeRequest::Bad),
    }
}

fn exit_of(code: Option<u64>) -> Option<ProcessEvent>
    ensures { result ≡ exit_of code }
{
    let code = code?;
    if code < 256 {
        Some(ProcessEvent::Exit(Exit::Code(code as u8)))
    } else {
        None
    }
}

fn exit_by(word: &Text, what: Option<ProcessEvent>) -> Result<Request, AllocError>
    ensures { IfOk result (λ request. request ≡ exit_by word.now what) }
{
    match what {
        Some(what) => Ok(Request::Children(ChildRequest::Process {
            word: word.clone()?,
            what,
        })),
        None => Ok(Request::Node(NodeRequest::Bad)),
    }
}

fn exit_line(arguments: &[Text]) -> Result<Request, AllocError>
    ensures { IfOk result (λ request. request ≡ exit_line arguments.now) }
{
    match arguments {
        [word, code] => exit_by(word, exit_of(read_count(code.as_str()))),
        _ => Ok(Request::Node(NodeRequest::Bad)),
    }
}

/// A request in which something happens to processes, restarters or the machine.
fn incident_request(first: &str, arguments: &[Text]) -> Result<Request, AllocError>
    ensures { IfOk result (λ request. request ≡ incident_request first.now arguments.now) }
{
    if first == "exit" {
        exit_line(arguments)
    } else if first == "fork" {
        Ok(process_by(ProcessEvent::Fork, word_in(arguments)?))
    } else if first == "core" {
        let what = ProcessEvent::Fail(Failure::Core);
        Ok(process_by(what, word_in(arguments)?))
    } else if first == "signal" {
        let what = ProcessEvent::Fail(Failure::Signal);
        Ok(process_by(what, word_in(arguments)?))
    } else if first == "hwerr" {
        let what = ProcessEvent::Fail(Failure::Hwerr);
        Ok(process_by(what, word_in(arguments)?))
    } else if first == "timeout" {
        Ok(timeout_by(word_in(arguments)?))
    } else if first == "join" {
        Ok(join_by(word_in(arguments)?))
    } else if first == "crash" {
        Ok(crash_by(word_in(arguments)?))
    } else if first == "boot" {
        Ok(boot_line(arguments))
    } else {
        Ok(Request::Node(NodeRequest::Bad))
    }
}

/// A request to the schedule, or for its trail.
fn schedule_request(first: &str, arguments: &[Text]) -> Result<Request, AllocError>
    ensures { IfOk result (λ request. request ≡ schedule_request first.now arguments.now) }
{
    if first == "settle" {
        Ok(settle_by(count_in(arguments)))
    } else if first == "refuse" {
        Ok(refuse_by(count_in(arguments)))
    } else if first == "lose" {
        Ok(lose_by(count_in(arguments)))
    } else if first == "again" {
        Ok(again_by(count_in(arguments)))
    } else if first == "trail" {
        Ok(trail_line(arguments))
    } else {
        incident_request(first, arguments)
    }
}

fn asked_by(alloc: Global, text: &str, words: &[Text]) -> Result<Request, AllocError>
    ensures { IfOk result (λ request. request ≡ asked_by text.now words.now) }
{
    let [first, arguments @ ..] = words else {
        return Ok(Request::Node(NodeRequest::Nothing));
    };
    let first = first.as_str();
    if first == "svccfg" {
        let line = Text::copy_of(alloc, behind_word("svccfg", text))?;
        Ok(Request::Node(NodeRequest::Svccfg(line)))
    } else if first == "svcadm" {
        Ok(Request::Node(NodeRequest::Svcadm(copies(alloc, arguments)?)))
    } else if first == "svcs" {
        Ok(Request::Node(NodeRequest::Svcs(copies(alloc, arguments)?)))
    } else {
        schedule_request(first, arguments)
    }
}

#[tactic(auto, unfolding(crate::specs::Requests::asked_of))]
fn asked_of(alloc: Global, text: &str) -> Result<Request, AllocError>
    ensures { IfOk result (λ request. request ≡ asked_of text.now) }
{
    if is_comment(text.as_bytes()) {
        return Ok(Request::Node(NodeRequest::Nothing));
    }
    let words = words(alloc, text)?;
    asked_by(alloc, text, words.as_slice())
}

/// Reads a line, which stands without its end.
#[tactic(auto, unfolding(crate::specs::Requests::request_of))]
pub fn request_of(alloc: Global, line: &[u8]) -> Result<Request, AllocError>
    ensures { IfOk result (λ request. request ≡ request_of line.now) }
{
    match text_in(line) {
        Some(text) => asked_of(alloc, text),
        None => Ok(Request::Node(NodeRequest::Bad)),
    }
}
