// The first item of a trail that breaks what is safe: by the rules of chronicles, and two more of starts.
use smf_chronicle::{ReadFault, audit, read_lines};
use smf_contract::Method;
use smf_state::State;
use smf_world::{Item, trail_text};
use std::alloc::{AllocError, Global};

/// The place of an item, and the rule that it breaks.
#[derive(Clone, Copy)]
pub(crate) struct Broken {
    pub(crate) place: usize,
    pub(crate) rule: &'static str,
}

fn was_begun(before: &[Item], instance: u64, run: u64) -> bool {
    before.iter().any(|item| match item {
        Item::Spawned {
            instance: i,
            run: r,
            ..
        } => *i == instance && *r == run,
        _ => false,
    })
}

/// Whether the last commit of an instance announced a start, and no boot came after it.
fn is_announced(before: &[Item], instance: u64) -> bool {
    let mut announced = false;
    for item in before {
        match item {
            Item::Boot => announced = false,
            Item::Committed {
                instance: i,
                state,
                next,
                ..
            } => {
                if *i == instance {
                    announced = *state == State::Offline && *next == Some(State::Online);
                }
            }
            _ => {}
        }
    }
    announced
}

/// The rule of starts that an item breaks, if it comes after these.
fn broken_start(before: &[Item], item: &Item) -> Option<&'static str> {
    match item {
        Item::Spawned {
            instance,
            run,
            method: Method::Start,
            ..
        } => {
            if was_begun(before, *instance, *run) {
                Some("begun twice")
            } else if is_announced(before, *instance) {
                None
            } else {
                Some("start not announced")
            }
        }
        _ => None,
    }
}

fn first_broken_start(trail: &[Item]) -> Option<Broken> {
    for place in 0..trail.len() {
        if let Some(rule) = broken_start(&trail[..place], &trail[place]) {
            return Some(Broken { place, rule });
        }
    }
    None
}

/// The first item that breaks a rule of chronicles. A trail is read as `smf audit` reads it.
fn first_breach(alloc: Global, trail: &[Item]) -> Result<Option<Broken>, AllocError> {
    let text = trail_text(alloc, trail)?;
    match read_lines(alloc, None, text.as_str()) {
        Ok(chronicle) => match audit(alloc, &chronicle.entries)? {
            None => Ok(None),
            Some(breach) => Ok(Some(Broken {
                place: breach.place,
                rule: breach.rule.text(),
            })),
        },
        Err(ReadFault::Memory) => Err(AllocError),
        Err(ReadFault::Unreadable(line) | ReadFault::Unlinked(line)) => Ok(Some(Broken {
            place: line.saturating_sub(1),
            rule: "not read",
        })),
    }
}

/// The first item of a trail that breaks what is safe.
pub(crate) fn first_broken(alloc: Global, trail: &[Item]) -> Result<Option<Broken>, AllocError> {
    let started = first_broken_start(trail);
    let breach = first_breach(alloc, trail)?;
    match (started, breach) {
        (Some(started), Some(breach)) if breach.place < started.place => Ok(Some(breach)),
        (Some(started), _) => Ok(Some(started)),
        (None, breach) => Ok(breach),
    }
}
