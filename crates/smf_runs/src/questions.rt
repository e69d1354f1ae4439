ghost use Rattle.std.specs.Prelude.{◌≡◌, ◌≢◌, ◌++◌, IfNone, IfOk, IfSome, None, Ok, OnErr, OnSome, map};
ghost use Rattle.smf_dep.specs.Members.{members};
ghost use Rattle.smf_reasons.specs.ViewHints.{programs_of};
ghost use Rattle.smf_runs.specs.Reasons.{AreChecked, AreFound, ArePrograms, AreTold, AreWritten, IsCheckText, IsAnswer, IsAnswered, IsExcused, IsInspected, IsNoted, IsWritten, view_after_refresh, status_of};
ghost use Rattle.smf_model.specs.Laws.{IsNumbered};
ghost use Rattle.smf_model.specs.Shown.{view as view_of};
ghost use Rattle.smf_store.specs.Opens.{IsOpenedAs};

use crate::configured::view_after_refresh;
use crate::fault_texts::tell_open;
use crate::patterns::{missed_text, reasons_by_words, texts_of};
use crate::unrefreshed::noted_all;
use smf_admin::unmatched_words;
use smf_fmri::{Items, Text};
use smf_lines::{TextWriter, tell};
use smf_model::{Journal, Plain, Tables};
use smf_reasons::{check_text_of, hint_text, programs_of, text_of};
use smf_state::View;
use smf_store::{OpenFault, open_repository};
use sqlite::{Alter, Connection};
use std::alloc::{AllocError, Global};

/// The reasons that are asked for.
#[derive(Drop)]
struct Answer {
    text: Text,
    /// The lines about words that match no instance.
    missed: Text,
    all_matched: bool,
}

/// What a check prints, and its status.
#[derive(Drop)]
struct Checked {
    text: Text,
    status: u8,
}

/// Why a text was not written.
#[derive(Clone, Copy)]
enum Unwritten {
    Memory,
    Output,
}

/// The reasons of the instances that words mean, and what of them is unrefreshed.
fn reasons<J: Journal>(
    alloc: Global,
    repository: &Plain<J>,
    view: &View,
    words: &[Text],
) -> Result<Text, AllocError>
    requires { view.now ≡ view_of repository.now.held }
    ensures { IfOk result (AreTold repository.now.held words.now) }
{
    let all = smf_reasons::tell(alloc, view)?;
    let all = noted_all(alloc, repository, view, all)?;
    let all = reasons_by_words(alloc, words, all)?;
    text_of(alloc, all.as_slice())
}

fn answer_in<J: Journal>(
    alloc: Global,
    repository: &Plain<J>,
    view: &View,
    words: &[Text],
) -> Result<Answer, AllocError>
    requires { view.now ≡ view_of repository.now.held }
    ensures { IfOk result (IsAnswer repository.now.held words.now) }
{
    let text = reasons(alloc, repository, view, words)?;
    let unmatched = unmatched_words(alloc, view.items.as_slice(), words)?;
    let missed = missed_text(alloc, unmatched.as_slice())?;
    Ok(Answer {
        text,
        missed,
        all_matched: unmatched.as_slice().is_empty(),
    })
}

/// The answer of what a repository holds.
fn answer_of<J: Journal>(
    alloc: Global,
    repository: &Plain<J>,
    words: &[&str],
) -> Result<Answer, AllocError>
    ensures { IfOk result (IsAnswer repository.now.held (map (λ w. w.now) words.now)) }
{
    let words = texts_of(alloc, words)?;
    let view = repository.view()?;
    answer_in(alloc, repository, &view, words.as_slice())
}

/// Tells of words that match no instance, as far as that can be written, and gives the status.
fn note<E: TextWriter>(errors: &mut E, answer: &Answer) -> u8
    ensures status { result ≢ 3 }
    ensures noted { IsNoted E.write_fails (E.contents errors.old)
        (E.contents errors.new) answer.now.missed answer.now.all_matched result }
{
    if answer.all_matched {
        return 0;
    }
    match errors.write_text(answer.missed.as_str().as_bytes()) {
        Ok(()) => 1,
        Err(_) => 1,
    }
}

fn write<W: TextWriter, E: TextWriter>(
    writer: &mut W,
    errors: &mut E,
    answer: &Answer,
) -> Result<u8, Unwritten>
    ensures status { IfOk result (λ status. status ≢ 3) }
    ensures written { IfOk result
        (λ status. IsWritten E.write_fails answer.now (W.contents writer.old) (W.contents writer.new)
        (E.contents errors.old) (E.contents errors.new) status) }
    ensures silent { OnErr result (E.contents errors.new ≡ E.contents errors.old) }
{
    match writer.write_text(answer.text.as_str().as_bytes()) {
        Ok(()) => Ok(note(errors, answer)),
        Err(_) => Err(Unwritten::Output),
    }
}

fn write_reasons<J: Journal, W: TextWriter, E: TextWriter>(
    alloc: Global,
    repository: &Plain<J>,
    words: &[&str],
    writer: &mut W,
    errors: &mut E,
) -> Result<u8, Unwritten>
    ensures status { IfOk result (λ status. status ≢ 3) }
    ensures written { IfOk result
        (λ status. AreWritten E.write_fails repository.now.held (map (λ w. w.now) words.now) (W.contents writer.old)
        (W.contents writer.new) (E.contents errors.old) (E.contents errors.new) status) }
    ensures silent { OnErr result (E.contents errors.new ≡ E.contents errors.old) }
{
    match answer_of(alloc, repository, words) {
        Ok(answer) => write(writer, errors, &answer),
        Err(_) => Err(Unwritten::Memory),
    }
}

fn excuse<E: TextWriter>(errors: &mut E, why: Unwritten) -> u8
    ensures status { result ≡ 3 }
    ensures told { IsExcused E.write_fails (E.contents errors.old) (E.contents errors.new) }
{
    match why {
        Unwritten::Memory => tell(errors, "smf: no memory"),
        Unwritten::Output => tell(errors, "smf: output failed"),
    }
}

/// Writes why instances of a database that words mean do not run though they are enabled. Without words all instances
/// are meant. The status is 0, 1 if a word matches no instance, which is told, or 3 for a fault.
pub(crate) fn why<S: Alter + Drop, W: TextWriter, E: TextWriter>(
    alloc: Global,
    conn: Connection<S>,
    words: &[&str],
    writer: &mut W,
    errors: &mut E,
) -> u8
    ensures ok { result ≢ 3
        → IsAnswered S.Store conn E.write_fails (map (λ w. w.now) words.now) (W.contents writer.old)
        (W.contents writer.new) (E.contents errors.old) (E.contents errors.new) result }
    ensures fault { result ≡ 3 → IsExcused E.write_fails (E.contents errors.old) (E.contents errors.new) }
{
    match open_repository(alloc, conn) {
        Ok(repository) => {
            let written = write_reasons(alloc, &repository, words, writer, errors);
            let _conn = repository.into_journal().release();
            match written {
                Ok(status) => status,
                Err(why) => excuse(errors, why),
            }
        }
        Err((fault, _conn)) => tell_open(alloc, errors, &fault),
    }
}

/// The text of the flaws of a view's instances.
fn flaws(alloc: Global, view: &View) -> Result<Text, AllocError>
    ensures { IfOk result (AreFound view.now) }
{
    let all = smf_reasons::check(alloc, view)?;
    check_text_of(alloc, all.as_slice())
}

/// Flaws, and behind them hints.
fn joined(alloc: Global, flaws: &Text, hints: &Text) -> Result<Text, AllocError>
    ensures { IfOk result (λ text. text ≡ flaws.now ++ hints.now) }
{
    let mut text = String::from_str(alloc, flaws.as_str())?;
    text.push_str(hints.as_str())?;
    Ok(Text::from_string(text))
}

/// What a check prints of a view, and the status that its flaws give.
fn check_view(alloc: Global, view: &View, missing: &[Text]) -> Result<Checked, AllocError>
    ensures { IfOk result (IsCheckText view.now missing.now) }
{
    let flaws = flaws(alloc, view)?;
    let hints = hint_text(alloc, view, missing)?;
    let text = joined(alloc, &flaws, &hints)?;
    Ok(Checked {
        text,
        status: status_of(flaws.as_str()),
    })
}

/// The same of what a repository holds, as it would be after a refresh.
fn checked_of<J: Journal>(
    alloc: Global,
    repository: &Plain<J>,
    missing: &[Text],
) -> Result<Checked, AllocError>
    ensures { IfOk result (IsCheckText (view_after_refresh repository.now.held) missing.now) }
{
    let view = view_after_refresh(alloc, repository)?;
    check_view(alloc, &view, missing)
}

fn status_of(text: &str) -> u8
    ensures exact { result ≡ status_of text.now }
    ensures status { result ≢ 3 }
{
    if text.is_empty() { 0 } else { 1 }
}

fn write_flaws<J: Journal, W: TextWriter>(
    alloc: Global,
    repository: &Plain<J>,
    missing: &[Text],
    writer: &mut W,
) -> Result<u8, Unwritten>
    ensures status { IfOk result (λ status. status ≢ 3) }
    ensures written { IfOk result
        (λ status. AreChecked repository.now.held missing.now (W.contents writer.old) (W.contents writer.new) status) }
{
    let Ok(found) = checked_of(alloc, repository, missing) else {
        return Err(Unwritten::Memory);
    };
    match writer.write_text(found.text.as_str().as_bytes()) {
        Ok(()) => Ok(found.status),
        Err(_) => Err(Unwritten::Output),
    }
}

/// Writes what is wrong of each instance that a database has, enabled or not, before it is started, and then what is
/// likely a mistake. The status is 0, 1 if an instance has a flaw, or 3 for a fault.
pub(crate) fn check<S: Alter + Drop, W: TextWriter, E: TextWriter>(
    alloc: Global,
    conn: Connection<S>,
    missing: &[Text],
    writer: &mut W,
    errors: &mut E,
) -> u8
    ensures ok { result ≢ 3
        → IsInspected S.Store conn missing.now (W.contents writer.old) (W.contents writer.new) result }
    ensures fault { result ≡ 3 → IsExcused E.write_fails (E.contents errors.old) (E.contents errors.new) }
    ensures silent { result ≢ 3 → (E.contents errors.new ≡ E.contents errors.old) }
{
    match open_repository(alloc, conn) {
        Ok(repository) => {
            let written = write_flaws(alloc, &repository, missing, writer);
            let _conn = repository.into_journal().release();
            match written {
                Ok(status) => status,
                Err(why) => excuse(errors, why),
            }
        }
        Err((fault, _conn)) => tell_open(alloc, errors, &fault),
    }
}

/// The programs of the methods in a repository, as they would be after a refresh.
fn programs_in<J: Journal>(alloc: Global, repository: &Plain<J>) -> Result<Items<Text>, AllocError>
    ensures { IfOk result
        (λ programs. programs ≡ programs_of (members (view_after_refresh repository.now.held).items)) }
{
    let view = view_after_refresh(alloc, repository)?;
    programs_of(alloc, &view)
}

/// Tells why a store was not opened, which gives nothing.
#[tactic(auto, using(crate::proofs::Excused::open_excused))]
fn tell_unopened<T, E: TextWriter>(alloc: Global, errors: &mut E, fault: &OpenFault) -> Option<T>
    ensures none { result ≡ None }
    ensures told { IsExcused E.write_fails (E.contents errors.old) (E.contents errors.new) }
{
    let _status = tell_open(alloc, errors, fault);
    None
}

/// What was found, or nothing if memory ran out, which is told.
fn found_or_told<T, E: TextWriter>(errors: &mut E, found: Result<T, AllocError>) -> Option<T>
    ensures found { IfSome result (λ it. found ≡ Ok it) }
    ensures quiet { OnSome result (E.contents errors.new ≡ E.contents errors.old) }
    ensures fault { IfNone result (IsExcused E.write_fails (E.contents errors.old) (E.contents errors.new)) }
{
    match found {
        Ok(it) => Some(it),
        Err(_) => {
            let _status = excuse(errors, Unwritten::Memory);
            None
        }
    }
}

/// The programs of the methods in a database, or none if that can't be said, which is told.
pub(crate) fn programs<S: Alter + Drop, E: TextWriter>(
    alloc: Global,
    conn: Connection<S>,
    errors: &mut E,
) -> Option<Items<Text>>
    ensures found { IfSome result (ArePrograms S.Store conn) }
    ensures quiet { OnSome result (E.contents errors.new ≡ E.contents errors.old) }
    ensures fault { IfNone result (IsExcused E.write_fails (E.contents errors.old) (E.contents errors.new)) }
{
    match open_repository(alloc, conn) {
        Ok(repository) => {
            let found = programs_in(alloc, &repository);
            let _conn = repository.into_journal().release();
            found_or_told(errors, found)
        }
        Err((fault, _conn)) => tell_unopened(alloc, errors, &fault),
    }
}

/// What a database holds, or nothing if that can't be said, which is told.
pub(crate) fn held<S: Alter + Drop, E: TextWriter>(
    alloc: Global,
    conn: Connection<S>,
    errors: &mut E,
) -> Option<Tables>
    ensures found { IfSome result (IsOpenedAs S.Store conn) }
    ensures numbered { IfSome result IsNumbered }
    ensures quiet { OnSome result (E.contents errors.new ≡ E.contents errors.old) }
    ensures fault { IfNone result (IsExcused E.write_fails (E.contents errors.old) (E.contents errors.new)) }
{
    match open_repository(alloc, conn) {
        Ok(repository) => {
            let found = repository.tables_as_stored();
            let _conn = repository.into_journal().release();
            found_or_told(errors, found)
        }
        Err((fault, _conn)) => tell_unopened(alloc, errors, &fault),
    }
}
