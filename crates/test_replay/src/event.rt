ghost use Rattle.std.specs.Prelude.{◌≡◌, ◌<◌, IfOk};
ghost use Rattle.smf_world.specs.declared.event.Event.TheVariants as events;
ghost use Rattle.test_replay.specs.Events.{bare, code_of, crash_by, delivery_by, event_named, event_of, exit_of, launch_by, number_in, number_of, process_by, process_event_of, process_of, report_by, report_of, simple_process_event, spawn_answer_of, tick_by, tick_event, tick_of, timeout_by, timeout_of};

use smf_contract::{Exit, Failure};
use smf_fmri::{InstanceFmri, Number, Text, read_count};
use smf_world::{Event, ProcessEvent, SpawnAnswer};
use std::alloc::{AllocError, Global};

fn number_of(count: Option<u64>) -> Option<Number>
    ensures { result ≡ number_of count }
{
    match count {
        Some(count) => Number::new(count),
        None => None,
    }
}

fn number_in(word: &str) -> Option<Number>
    ensures { result ≡ number_in word.now }
{
    number_of(read_count(word))
}

fn delivery_by(arguments: &[Text]) -> Option<Event>
    ensures { result ≡ delivery_by arguments.now }
{
    match arguments {
        [place] => match read_count(place.as_str()) {
            Some(place) => Some(Event::Deliver(place)),
            None => None,
        },
        _ => None,
    }
}

fn ask_by(arguments: &[Text]) -> Option<Event>
    ensures { result ≡ bare events.Ask arguments.now }
{
    match arguments {
        [] => Some(Event::Ask),
        _ => None,
    }
}

fn orders_by(arguments: &[Text]) -> Option<Event>
    ensures { result ≡ bare events.Orders arguments.now }
{
    match arguments {
        [] => Some(Event::Orders),
        _ => None,
    }
}

fn boot_by(arguments: &[Text]) -> Option<Event>
    ensures { result ≡ bare events.Boot arguments.now }
{
    match arguments {
        [] => Some(Event::Boot),
        _ => None,
    }
}

fn launch_by(alloc: Global, arguments: &[Text]) -> Result<Option<Event>, AllocError>
    ensures { IfOk result (λ event. event ≡ launch_by arguments.now) }
{
    match arguments {
        [name] => match InstanceFmri::read_short(alloc, name.as_str())? {
            Some(name) => Ok(Some(Event::Launch(name))),
            None => Ok(None),
        },
        _ => Ok(None),
    }
}

fn crash_by(alloc: Global, arguments: &[Text]) -> Result<Option<Event>, AllocError>
    ensures { IfOk result (λ event. event ≡ crash_by arguments.now) }
{
    match arguments {
        [name] => match InstanceFmri::read_short(alloc, name.as_str())? {
            Some(name) => Ok(Some(Event::Crash(name))),
            None => Ok(None),
        },
        _ => Ok(None),
    }
}

fn spawn_answer_of(word: &str) -> Option<SpawnAnswer>
    ensures { result ≡ spawn_answer_of word.now }
{
    if word == "made" {
        Some(SpawnAnswer::Made)
    } else if word == "refused" {
        Some(SpawnAnswer::Refused)
    } else if word == "notfollowed" {
        Some(SpawnAnswer::NotFollowed)
    } else {
        None
    }
}

/// 0 stands for the restarter itself.
fn tick_event(restarter: InstanceFmri, instance: u64, spawn: SpawnAnswer) -> Event
    ensures { result ≡ tick_event restarter instance spawn }
{
    if instance == 0 {
        Event::OwnTick(restarter)
    } else {
        Event::Tick {
            restarter,
            instance,
            spawn,
        }
    }
}

fn tick_of(
    restarter: Option<InstanceFmri>,
    instance: Option<u64>,
    spawn: Option<SpawnAnswer>,
) -> Option<Event>
    ensures { result ≡ tick_of restarter instance spawn }
{
    Some(tick_event(restarter?, instance?, spawn?))
}

fn tick_by(alloc: Global, arguments: &[Text]) -> Result<Option<Event>, AllocError>
    ensures { IfOk result (λ event. event ≡ tick_by arguments.now) }
{
    match arguments {
        [name, instance] => {
            let name = InstanceFmri::read_short(alloc, name.as_str())?;
            let made = Some(SpawnAnswer::Made);
            Ok(tick_of(name, read_count(instance.as_str()), made))
        }
        [name, instance, answer] => {
            let name = InstanceFmri::read_short(alloc, name.as_str())?;
            let answer = spawn_answer_of(answer.as_str());
            Ok(tick_of(name, read_count(instance.as_str()), answer))
        }
        _ => Ok(None),
    }
}

fn timeout_of(restarter: Option<InstanceFmri>, instance: Option<u64>) -> Option<Event>
    ensures { result ≡ timeout_of restarter instance }
{
    Some(Event::Timeout {
        restarter: restarter?,
        instance: instance?,
    })
}

fn timeout_by(alloc: Global, arguments: &[Text]) -> Result<Option<Event>, AllocError>
    ensures { IfOk result (λ event. event ≡ timeout_by arguments.now) }
{
    match arguments {
        [name, instance] => {
            let name = InstanceFmri::read_short(alloc, name.as_str())?;
            Ok(timeout_of(name, read_count(instance.as_str())))
        }
        _ => Ok(None),
    }
}

fn code_of(number: Option<u64>) -> Option<ProcessEvent>
    ensures { result ≡ code_of number }
{
    let number = number?;
    if number < 256 {
        Some(ProcessEvent::Exit(Exit::Code(number as u8)))
    } else {
        None
    }
}

fn exit_of(word: &str) -> Option<ProcessEvent>
    ensures { result ≡ exit_of word.now }
{
    if word == "killed" {
        Some(ProcessEvent::Exit(Exit::Killed))
    } else {
        code_of(read_count(word))
    }
}

fn simple_process_event(word: &str) -> Option<ProcessEvent>
    ensures { result ≡ simple_process_event word.now }
{
    if word == "fork" {
        Some(ProcessEvent::Fork)
    } else if word == "core" {
        Some(ProcessEvent::Fail(Failure::Core))
    } else if word == "signal" {
        Some(ProcessEvent::Fail(Failure::Signal))
    } else if word == "hwerr" {
        Some(ProcessEvent::Fail(Failure::Hwerr))
    } else {
        None
    }
}

fn process_event_of(words: &[Text]) -> Option<ProcessEvent>
    ensures { result ≡ process_event_of words.now }
{
    match words {
        [word] => simple_process_event(word.as_str()),
        [word, code] => {
            if word.as_str() == "exit" {
                exit_of(code.as_str())
            } else {
                None
            }
        }
        _ => None,
    }
}

fn process_of(process: Option<Number>, what: Option<ProcessEvent>) -> Option<Event>
    ensures { result ≡ process_of process what }
{
    Some(Event::Process {
        process: process?,
        what: what?,
    })
}

fn process_by(arguments: &[Text]) -> Option<Event>
    ensures { result ≡ process_by arguments.now }
{
    match arguments {
        [process, what @ ..] => process_of(number_in(process.as_str()), process_event_of(what)),
        [] => None,
    }
}

fn report_of(contract: Option<Number>, number: Option<Number>) -> Option<Event>
    ensures { result ≡ report_of contract number }
{
    Some(Event::Report {
        contract: contract?,
        number: number?,
    })
}

fn report_by(arguments: &[Text]) -> Option<Event>
    ensures { result ≡ report_by arguments.now }
{
    match arguments {
        [contract, number] => {
            report_of(number_in(contract.as_str()), number_in(number.as_str()))
        }
        _ => None,
    }
}

fn event_named(alloc: Global, first: &str, arguments: &[Text]) -> Result<Option<Event>, AllocError>
    ensures { IfOk result (λ event. event ≡ event_named first.now arguments.now) }
{
    if first == "deliver" {
        Ok(delivery_by(arguments))
    } else if first == "ask" {
        Ok(ask_by(arguments))
    } else if first == "orders" {
        Ok(orders_by(arguments))
    } else if first == "boot" {
        Ok(boot_by(arguments))
    } else if first == "launch" {
        launch_by(alloc, arguments)
    } else if first == "crash" {
        crash_by(alloc, arguments)
    } else if first == "tick" {
        tick_by(alloc, arguments)
    } else if first == "timeout" {
        timeout_by(alloc, arguments)
    } else if first == "process" {
        Ok(process_by(arguments))
    } else if first == "report" {
        Ok(report_by(arguments))
    } else {
        Ok(None)
    }
}

/// The event that the words of a line name, if they name one.
#[tactic(auto, unfolding(crate::specs::Events::event_of))]
pub(crate) fn event_of(alloc: Global, words: &[Text]) -> Result<Option<Event>, AllocError>
    ensures { IfOk result (λ event. event ≡ event_of words.now) }
{
    match words {
        [first, arguments @ ..] => event_named(alloc, first.as_str(), arguments),
        [] => Ok(None),
    }
}
