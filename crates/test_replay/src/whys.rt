//! Lines of svccfg and lines `state FMRI STATE [NEXT]`: why what the lines configured does not run. Each instance is
//! refreshed first, and is offline if no line says its state. After a line `show`, which prints, all begins anew. A
//! line `check` prints what is wrong of the instances.

use smf_fmri::{Items, Ordered, SharedOrdered};
use smf_model::{Command, Edit, NoJournal, Plain, RepoFault};
use smf_reasons::{check, check_text_of, tell, text_of};
use smf_script::do_cfg_line;
use smf_state::{SharedRow, State, View, ViewItem};
use smf_svccfg::Selection;
use std::alloc::{AllocError, Global};
use std::io::{BufRead, BufReader};

/// The state of an instance, as a line says it.
#[derive(Drop)]
struct Stated {
    name: String,
    state: State,
    next: Option<State>,
}

/// `FMRI STATE [NEXT]`.
fn read_stated(alloc: Global, text: &str) -> Result<Option<Stated>, AllocError> {
    let mut words = text.split(' ');
    let Some(name) = words.next() else {
        return Ok(None);
    };
    let Some(state) = words.next() else {
        return Ok(None);
    };
    let Some(state) = State::read(state) else {
        return Ok(None);
    };
    let next = match words.next() {
        None => None,
        Some(word) => State::read(word),
    };
    Ok(Some(Stated {
        name: String::from_str(alloc, name)?,
        state,
        next,
    }))
}

fn state_of(all: &[Stated], name: &str) -> (State, Option<State>) {
    for stated in all {
        if stated.name.as_str() == name {
            return (stated.state, stated.next);
        }
    }
    (State::Offline, None)
}

fn item_in(alloc: Global, all: &[Stated], item: &ViewItem) -> Result<ViewItem, AllocError> {
    let (state, next) = state_of(all, item.name.print());
    let mut row = item.row.to_row()?;
    row.state = state;
    row.next = next;
    let mut item = item.clone()?;
    item.row = SharedRow::of(alloc, row)?;
    Ok(item)
}

/// The view with the states that lines say.
fn view_in(alloc: Global, all: &[Stated], view: &View) -> Result<View, AllocError> {
    let mut items = Ordered::new(alloc);
    for item in view.items.as_slice() {
        items.put(item_in(alloc, all, item)?)?;
    }
    Ok(View {
        revision: view.revision,
        items: SharedOrdered::of(alloc, items)?,
    })
}

fn refresh_all(repository: &mut Plain<NoJournal>) -> Result<(), RepoFault> {
    let view = repository.view()?;
    for item in view.items.as_slice() {
        let _ = repository.apply(&Command::Edit(Edit::Refresh(item.instance)))?;
    }
    Ok(())
}

fn print_whys(
    rt: &HostRuntime,
    alloc: Global,
    repository: &mut Plain<NoJournal>,
    all: &[Stated],
) -> Result<(), RepoFault> {
    refresh_all(repository)?;
    let view = view_in(alloc, all, &repository.view()?)?;
    let told = tell(alloc, &view)?;
    let text = text_of(alloc, told.as_slice())?;
    let text = text.as_str();
    let _ = print!(rt; "{text}");
    Ok(())
}

fn check_all(
    rt: &HostRuntime,
    alloc: Global,
    repository: &mut Plain<NoJournal>,
) -> Result<(), RepoFault> {
    refresh_all(repository)?;
    let told = check(alloc, &repository.view()?)?;
    let text = check_text_of(alloc, told.as_slice())?;
    let text = text.as_str();
    let _ = print!(rt; "{text}");
    Ok(())
}

fn note(
    rt: &HostRuntime,
    alloc: Global,
    all: &mut Vec<Stated>,
    text: &str,
) -> Result<(), AllocError> {
    match read_stated(alloc, text)? {
        Some(stated) => {
            all.push(stated)?;
            Ok(())
        }
        None => {
            let _ = eprintln!(rt; "bad line: {text}");
            Ok(())
        }
    }
}

/// Answers every line of standard input.
pub(crate) fn answer_whys(rt: &HostRuntime, alloc: Global) -> Result<(), RepoFault> {
    let mut repository = Plain::new(alloc, NoJournal {});
    let mut selection = Selection::Nothing;
    let mut all = Vec::new(alloc);
    let Ok(reader) = BufReader::new(alloc, rt.reader()) else {
        return Err(RepoFault::Memory);
    };
    for line in reader.lines(alloc) {
        let Ok(line) = line else {
            return Err(RepoFault::Memory);
        };
        let line = line.as_str();
        if line == "show" {
            print_whys(rt, alloc, &mut repository, all.as_slice())?;
            repository = Plain::new(alloc, NoJournal {});
            selection = Selection::Nothing;
            all = Vec::new(alloc);
        } else if line == "check" {
            check_all(rt, alloc, &mut repository)?;
        } else if let Some(text) = line.strip_prefix("state ") {
            note(rt, alloc, &mut all, text)?;
        } else if do_cfg_line(alloc, &mut repository, &mut selection, line).is_err() {
            let _ = eprintln!(rt; "bad line: {line}");
        }
    }
    print_whys(rt, alloc, &mut repository, all.as_slice())
}
