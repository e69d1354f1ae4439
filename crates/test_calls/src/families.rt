use crate::answers::Answer;
use crate::views::Views;
use crate::words::split_word;
use crate::{
    config, contracts, cookies, dependencies, fields, groups, lines, methods, names, refusals,
    repository, rows, snapshots, steps, values, views,
};
use smf_changes::Repository;
use smf_contract::ContractTable;
use smf_model::{NoJournal, Plain};
use smf_value::Group;
use std::alloc::Global;

/// The state that calls change from line to line.
#[derive(Drop)]
pub(crate) struct Session {
    table: ContractTable,
    /// None before the first line `group`.
    group: Option<Group>,
    views: Views,
    repository: Repository<NoJournal>,
}

impl Session {
    pub(crate) fn new(alloc: Global) -> Session {
        Session {
            table: ContractTable::new(alloc),
            group: None,
            views: Views::new(alloc),
            repository: Repository::over(alloc, Plain::new(alloc, NoJournal {})),
        }
    }
}

/// Answers a call that needs no session; whether it is one.
fn value_answer(alloc: Global, out: &mut Answer, call: &str, text: &str) -> bool {
    match call {
        "field" => fields::answer(alloc, out, text),
        "message" => lines::again(alloc, out, text),
        "refusal" => refusals::refusal(alloc, out, text),
        _ => {
            return names::answer(alloc, out, call, text)
                || rows::answer(alloc, out, call, text)
                || steps::answer(alloc, out, call, text)
                || values::answer(alloc, out, call, text)
                || snapshots::answer(alloc, out, call, text)
                || cookies::answer(out, call, text)
                || config::answer(alloc, out, call, text);
        }
    }
    true
}

/// The same of a call that may change the session.
fn session_answer(
    alloc: Global,
    session: &mut Session,
    out: &mut Answer,
    call: &str,
    text: &str,
) -> bool {
    methods::answer(alloc, &session.group, out, call, text)
        || dependencies::answer(alloc, &session.group, &mut session.views, out, call, text)
        || groups::answer(alloc, &mut session.group, out, call, text)
        || views::answer(alloc, &mut session.views, out, call, text)
        || repository::answer(alloc, &mut session.repository, out, call, text)
        || contracts::answer(alloc, &mut session.table, out, call, text)
}

/// Answers a line that is a call.
pub(crate) fn answer(alloc: Global, session: &mut Session, out: &mut Answer, line: &str) {
    let (call, text) = split_word(line);
    let is_call = value_answer(alloc, out, call, text)
        || session_answer(alloc, session, out, call, text);
    if !is_call {
        out.bad_line();
    }
}
