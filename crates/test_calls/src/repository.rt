//! One repository that lines change and read. OWNER is a service's name, or the number of an instance.

use crate::answers::Answer;
use crate::groups::{put_short, word_of};
use crate::names::{instance_of, name_of};
use crate::snapshots::put_names;
use crate::steps::{proposal_of, step_of};
use crate::values::kind_of;
use crate::words::{number_of, put_count, split_two, split_word, truth};
use smf_changes::Repository;
use smf_fmri::{Items, Ordered, ServiceFmri, Text, read_count};
use smf_model::{
    Command, CommandReply, Edit, Instance, Mark, NoJournal, Outcome, Owner, Plain, PropertyChange,
    RepoFault, Tables,
};
use smf_snap::SnapshotName;
use smf_state::{View, ViewItem};
use smf_value::Group;
use smf_wire::{Message, ViewChanges, decode, encode};
use std::alloc::{AllocError, Global};

/// Answers a call of the repository; whether it is one.
pub(crate) fn answer(
    alloc: Global,
    repository: &mut Repository<NoJournal>,
    out: &mut Answer,
    call: &str,
    text: &str,
) -> bool {
    match call {
        "repository" => {
            *repository = Repository::over(alloc, Plain::new(alloc, NoJournal {}));
            out.put("done");
        }
        "edit" => answer_edit(alloc, repository, out, text),
        "edits" => edited_often(alloc, repository, out, text),
        "propose" => answer_propose(alloc, repository, out, text),
        "held" => answer_holdings(alloc, repository.plain(), out, text),
        "ask" => ask(alloc, repository, out, text),
        _ => return false,
    }
    true
}

fn service_of(alloc: Global, out: &mut Answer, word: &str) -> Option<ServiceFmri> {
    let name = name_of(alloc, out, word)?;
    out.value_or_no_memory(name.service_fmri(alloc))
}

fn owner_of(alloc: Global, out: &mut Answer, word: &str) -> Option<Owner> {
    match number_of(word) {
        Some(number) => Some(Owner::Instance(number)),
        None => Some(Owner::Service(service_of(alloc, out, word)?)),
    }
}

/// `SERVICE NAME`.
fn new_instance(alloc: Global, out: &mut Answer, text: &str) -> Option<Edit> {
    let (service, name) = split_word(text);
    let service = service_of(alloc, out, service)?;
    let name = word_of(alloc, out, name)?;
    Some(Edit::AddInstance { service, name })
}

/// `OWNER NAME TYPE`.
fn new_group(alloc: Global, out: &mut Answer, text: &str) -> Option<Edit> {
    let (owner, name, group_type) = split_two(text);
    let name = word_of(alloc, out, name)?;
    let group_type = word_of(alloc, out, group_type)?;
    let owner = owner_of(alloc, out, owner)?;
    Some(Edit::AddGroup {
        owner,
        name,
        group_type,
        non_persistent: false,
    })
}

fn one_value(alloc: Global, word: &str) -> Result<Items<Text>, AllocError> {
    let mut values = Items::new(alloc);
    values.push(Text::copy_of(alloc, word)?)?;
    Ok(values)
}

/// `NAME KIND VALUE`: gives a property one value.
fn set_change(alloc: Global, out: &mut Answer, text: &str) -> Option<PropertyChange> {
    let (name, kind, value) = split_two(text);
    let kind = out.value_or_bad_line(kind_of(kind))?;
    let name = word_of(alloc, out, name)?;
    let values = out.value_or_no_memory(one_value(alloc, value))?;
    Some(PropertyChange::Set {
        name,
        kind: Some(kind),
        values,
    })
}

/// `OWNER GROUP NAME KIND VALUE`.
fn set_edit(alloc: Global, out: &mut Answer, text: &str) -> Option<Edit> {
    let (owner, group, rest) = split_two(text);
    let group = word_of(alloc, out, group)?;
    let owner = owner_of(alloc, out, owner)?;
    let change = set_change(alloc, out, rest)?;
    Some(Edit::Property {
        owner,
        group,
        change,
    })
}

fn enable_edit(instance: u64, enabled: bool, temporary: bool) -> Edit {
    Edit::Enable {
        instance,
        enabled,
        temporary,
    }
}

/// The edit that a verb of svcadm, or `delete_instance`, makes of an instance.
fn asked_edit(verb: &str, instance: u64) -> Option<Edit> {
    match verb {
        "delete_instance" => Some(Edit::DeleteInstance(instance)),
        "restart" => Some(Edit::Restart(instance)),
        "refresh" => Some(Edit::Refresh(instance)),
        "clear" => Some(Edit::Clear(instance)),
        "mark_degraded" => Some(Edit::Mark {
            instance,
            mark: Mark::Degraded,
        }),
        "enable" => Some(enable_edit(instance, true, false)),
        "disable" => Some(enable_edit(instance, false, false)),
        "enable_for_now" => Some(enable_edit(instance, true, true)),
        "disable_for_now" => Some(enable_edit(instance, false, true)),
        _ => None,
    }
}

/// `NUMBER`, and after `revert` the name of a snapshot too.
fn number_edit(verb: &str, text: &str) -> Option<Edit> {
    if verb == "revert" {
        let (instance, snapshot) = snapshot_of(text)?;
        return Some(Edit::Revert { instance, snapshot });
    }
    asked_edit(verb, read_count(text)?)
}

/// An edit; `set` gives a property one value.
fn edit_of(alloc: Global, out: &mut Answer, verb: &str, text: &str) -> Option<Edit> {
    match verb {
        "add_service" => Some(Edit::AddService(service_of(alloc, out, text)?)),
        "delete_service" => Some(Edit::DeleteService(service_of(alloc, out, text)?)),
        "add_instance" => new_instance(alloc, out, text),
        "add_group" => new_group(alloc, out, text),
        "set" => set_edit(alloc, out, text),
        _ => out.value_or_bad_line(number_edit(verb, text)),
    }
}

/// `boot`, `launch NAME`, or an edit.
fn command_of(alloc: Global, out: &mut Answer, text: &str) -> Option<Command> {
    let (verb, rest) = split_word(text);
    match verb {
        "boot" if rest.is_empty() => Some(Command::Boot),
        "launch" => Some(Command::Launch(instance_of(alloc, out, rest)?)),
        _ => Some(Command::Edit(edit_of(alloc, out, verb, rest)?)),
    }
}

fn put_reply(out: &mut Answer, reply: &CommandReply) {
    match reply {
        CommandReply::Made(number) => write!(out, "made {number}"),
        CommandReply::Granted(_) => out.put("granted"),
        CommandReply::Done => out.put("done"),
        CommandReply::NoSuch => out.put("no such"),
        CommandReply::InUse => out.put("in use"),
        CommandReply::NotInState => out.put("not in state"),
        CommandReply::Exists => out.put("exists"),
        CommandReply::Denied(_) => out.put("denied"),
        CommandReply::Limit => out.put("limit"),
        CommandReply::Stale(_, _) => out.put("stale"),
    }
}

/// Carries out a command. Over no journal nothing but want of memory can fail.
fn carried_out(
    repository: &mut Repository<NoJournal>,
    command: &Command,
) -> Result<CommandReply, RepoFault> {
    let Outcome { changes, reply } = repository.plain().outcome_of_command(command)?;
    repository.commit(changes)?;
    Ok(reply)
}

fn apply(repository: &mut Repository<NoJournal>, out: &mut Answer, command: &Command) {
    match carried_out(repository, command) {
        Ok(reply) => put_reply(out, &reply),
        Err(_) => out.want_memory(),
    }
}

/// The same of a command that is done with, if there is one.
fn apply_if_some(
    repository: &mut Repository<NoJournal>,
    out: &mut Answer,
    command: Option<Command>,
) {
    if let Some(command) = command {
        apply(repository, out, &command);
    }
}

fn answer_edit(
    alloc: Global,
    repository: &mut Repository<NoJournal>,
    out: &mut Answer,
    text: &str,
) {
    let command = command_of(alloc, out, text);
    apply_if_some(repository, out, command);
}

/// Carries out a command so often, and shows the last reply.
fn apply_often(
    repository: &mut Repository<NoJournal>,
    out: &mut Answer,
    count: u64,
    command: &Command,
) {
    for _ in 1..count {
        let _reply = carried_out(repository, command);
    }
    apply(repository, out, command);
}

/// `COUNT EDIT`: the same command so often, at least once; the last reply.
fn edited_often(
    alloc: Global,
    repository: &mut Repository<NoJournal>,
    out: &mut Answer,
    text: &str,
) {
    let (count, text) = split_word(text);
    if let Some(count) = out.value_or_bad_line(read_count(count))
        && let Some(command) = command_of(alloc, out, text)
    {
        apply_often(repository, out, count, &command);
    }
}

fn put_line(alloc: Global, out: &mut Answer, message: &Message) {
    if let Some(line) = out.value_or_no_memory(encode(alloc, message)) {
        out.put(line.as_str());
    }
}

/// The line of the whole view.
fn put_whole(alloc: Global, repository: &Repository<NoJournal>, out: &mut Answer) {
    if let Some(view) = out.value_or_no_memory(repository.plain().view()) {
        put_line(alloc, out, &Message::View(view));
    }
}

/// The line of what changed since a revision; that of the whole view if this is not known.
fn put_changes(alloc: Global, repository: &Repository<NoJournal>, out: &mut Answer, from: u64) {
    match out.value_or_no_memory(repository.changes_since(from)) {
        Some(Some((to, items))) => {
            put_line(
                alloc,
                out,
                &Message::Changes(ViewChanges { from, to, items }),
            );
        }
        Some(None) => put_whole(alloc, repository, out),
        None => {}
    }
}

/// The line of a question: the line of the repository's answer.
fn ask(alloc: Global, repository: &Repository<NoJournal>, out: &mut Answer, line: &str) {
    match decode(alloc, line) {
        Ok(Message::AskView) => put_whole(alloc, repository, out),
        Ok(Message::AskChange(from)) => put_changes(alloc, repository, out, from),
        _ => out.bad_line(),
    }
}

/// `NUMBER STEP`: a step of instance 1, by the proposer's first launch; the serial is the number.
fn answer_propose(
    alloc: Global,
    repository: &mut Repository<NoJournal>,
    out: &mut Answer,
    text: &str,
) {
    let (number, step) = split_word(text);
    if let Some(number) = out.value_or_bad_line(read_count(number))
        && let Some(step) = step_of(out, step)
        && let Some(proposal) = proposal_of(alloc, out, 1, number, number, step)
    {
        apply_if_some(repository, out, Some(Command::Propose(proposal)));
    }
}

/// Answers a read of what the repository holds.
fn answer_holdings(alloc: Global, repository: &Plain<NoJournal>, out: &mut Answer, text: &str) {
    let (what, text) = split_word(text);
    match what {
        "revision" if text.is_empty() => put_count(out, Some(repository.revision().get())),
        "groups" => groups(alloc, repository, out, text),
        "rows_of" => rows_of(alloc, repository, out, text),
        "children" => children(alloc, repository, out, text),
        "view" if text.is_empty() => put_view(out, repository.view()),
        "number" => snapshot_number(repository, out, text),
        "copy" if text.is_empty() => put_copy(out, repository.copy()),
        _ => match read_count(text) {
            Some(number) => answer_by_number(alloc, repository, out, what, number),
            None => out.bad_line(),
        },
    }
}

/// The same of what has a number.
fn answer_by_number(
    alloc: Global,
    repository: &Plain<NoJournal>,
    out: &mut Answer,
    what: &str,
    number: u64,
) {
    match what {
        "row" => put_row(out, repository.instance(number)),
        "snapshot" => match repository.snapshot(number) {
            None => out.put("none"),
            Some(snapshot) => put_groups(alloc, out, snapshot.instance_groups.as_slice()),
        },
        "snapshots" => put_snapshots(out, repository.snapshots(number)),
        _ => out.bad_line(),
    }
}

/// `NUMBER NAME`.
fn snapshot_of(text: &str) -> Option<(u64, SnapshotName)> {
    let (number, name) = split_word(text);
    Some((read_count(number)?, SnapshotName::parse(name)?))
}

/// Which snapshot a name means of an instance.
fn snapshot_number(repository: &Plain<NoJournal>, out: &mut Answer, text: &str) {
    match snapshot_of(text) {
        Some((number, name)) => put_count(out, repository.snapshot_number(number, name)),
        None => out.bad_line(),
    }
}

/// The number and the state of the row of an instance.
fn put_row(out: &mut Answer, instance: Result<Option<Instance>, AllocError>) {
    match out.value_or_no_memory(instance) {
        Some(Some(instance)) => {
            let (number, state) = (instance.row.number, instance.row.state);
            write!(out, "{number} {state}");
        }
        Some(None) => out.put("none"),
        None => {}
    }
}

/// Each group's name, and after it the values of its properties.
fn put_groups(alloc: Global, out: &mut Answer, groups: &[Group]) {
    for group in groups {
        out.put_between(" ");
        put_short(alloc, out, group, "");
    }
    out.put_if_empty("none");
}

fn put_shown(alloc: Global, out: &mut Answer, groups: Result<Ordered<Group>, AllocError>) {
    if let Some(groups) = out.value_or_no_memory(groups) {
        put_groups(alloc, out, groups.as_slice());
    }
}

fn groups(alloc: Global, repository: &Plain<NoJournal>, out: &mut Answer, owner: &str) {
    if let Some(owner) = owner_of(alloc, out, owner) {
        put_shown(alloc, out, repository.groups(&owner));
    }
}

/// The names of the snapshots of an instance.
fn put_snapshots(out: &mut Answer, names: Result<Option<Items<SnapshotName>>, AllocError>) {
    match out.value_or_no_memory(names) {
        Some(Some(names)) => put_names(out, names),
        Some(None) => out.put("no such"),
        None => {}
    }
}

fn put_rows(out: &mut Answer, rows: Result<Items<Instance>, AllocError>) {
    if let Some(rows) = out.value_or_no_memory(rows) {
        for row in rows.as_slice() {
            let number = row.number.get();
            out.put_between(" ");
            write!(out, "{number}");
        }
        out.put_if_empty("none");
    }
}

fn rows_of(alloc: Global, repository: &Plain<NoJournal>, out: &mut Answer, name: &str) {
    if let Some(name) = instance_of(alloc, out, name) {
        put_rows(out, repository.rows_of(&name));
    }
}

fn children(alloc: Global, repository: &Plain<NoJournal>, out: &mut Answer, name: &str) {
    if let Some(name) = service_of(alloc, out, name) {
        put_rows(out, repository.children(&name));
    }
}

/// An instance's number and name, if it is enabled, if its restarter can be read, and its row's number. The length of
/// its running snapshot in bytes comes last, if it has one.
fn put_item(out: &mut Answer, item: &ViewItem) {
    let (instance, name, number) = (item.instance, &item.name, item.row.number);
    let (enabled, readable) = (truth(item.enabled), truth(item.readable));
    write!(out, " {instance} {name} {enabled} {readable} {number}");
    if let Some(body) = &item.body {
        let length = body.as_slice().len();
        write!(out, " {length}");
    }
}

/// The revision, and each instance.
fn put_view(out: &mut Answer, view: Result<View, AllocError>) {
    if let Some(view) = out.value_or_no_memory(view) {
        let revision = view.revision;
        write!(out, "{revision}:");
        for item in view.items.as_slice() {
            put_item(out, item);
        }
    }
}

/// How many there are of each kind, and the numbers that come next.
fn put_counts(out: &mut Answer, copy: &Tables) {
    let (services, instances) = (copy.services().len(), copy.entries().len());
    let (names, snapshots) = (copy.names().len(), copy.snapshots().len());
    let launches = copy.launches().len();
    let (instance, snapshot) = (copy.next_instance().get(), copy.next_snapshot().get());
    write!(
        out,
        "services {services}, instances {instances}, names {names}"
    );
    write!(out, ", snapshots {snapshots}, launches {launches}");
    write!(out, ", next {instance} {snapshot}");
}

/// An instance's number and its restarter, and the number and the state of its row.
fn put_owned(out: &mut Answer, instance: &Instance) {
    let (number, owner) = (instance.number.get(), instance.row.owner.print());
    let (row, state) = (instance.row.number, instance.row.state);
    write!(out, ", {number} {owner} {row} {state}");
}

/// A copy of all that is held: its revision, its counts, and each instance.
fn put_copy(out: &mut Answer, copy: Result<Tables, AllocError>) {
    if let Some(copy) = out.value_or_no_memory(copy) {
        let revision = copy.revision().get();
        write!(out, "{revision}: ");
        put_counts(out, &copy);
        for entry in copy.entries() {
            put_owned(out, &entry.instance);
        }
    }
}
