ghost use Rattle.std.specs.List.{flat_map, list_any};
ghost use Rattle.std.specs.Option.{option_to_list};
ghost use Rattle.std.specs.Prelude.{◌≡◌, ◌++◌, replicate, refl, filter, IfOk, OnOk, string_bytes};
ghost use Rattle.smf_admin.specs.Relations.{is_related};
ghost use Rattle.smf_dep.specs.Members.{members};
ghost use Rattle.smf_fmri.specs.ByKey.{by_text};
ghost use Rattle.smf_fmri.specs.Patterns.{matches};
ghost use Rattle.smf_admin.specs.Output.{items_by_choice as chosen_of, entries, entry_of, entry_text, header_text, is_chosen, is_listed, is_matched, is_named, item_entries, sorted_entries, member_entries, pattern_of, patterns_of, entries_by_relation, svcs_text, unmatched_words, unmatched_text};

use crate::list_options::{Chosen, Options, Relation};
use crate::messages::no_match_text;
use crate::relations::is_related;
use smf_dep::{GraphMember, members};
use smf_fmri::{FmriFault, InstanceFmri, Items, Keyed, Ordered, Pattern, Text};
use smf_state::{State, ViewItem};
use std::alloc::{AllocError, Global};

/// The output of svcs.
#[derive(Drop)]
pub struct Listing {
    pub text: Text,
    /// True if each pattern matches an instance.
    pub all_matched: bool,
}

/// A line of the output: an instance with its state.
#[derive(Drop)]
struct Entry {
    name: InstanceFmri,
    state: State,
    in_transition: bool,
}

impl Keyed for Entry {
    type Key = InstanceFmri;

    ghost by = { by_text (λ e. e.name) };

    fn key(&self) -> &InstanceFmri {
        &self.name
    }

    ghost same = { refl };
}

// ---- patterns

/// The pattern that a word is, if it is one.
fn pattern_of(alloc: Global, word: &Text) -> Result<Option<Pattern>, AllocError>
    ensures { IfOk result (λ p. option_to_list p ≡ pattern_of word.now) }
{
    match Pattern::parse(alloc, word.as_str()) {
        Ok(pattern) => Ok(Some(pattern)),
        Err(FmriFault::Memory) => Err(AllocError),
        Err(_) => Ok(None),
    }
}

/// The patterns that words are. A word that is none is left out.
pub fn patterns_of(alloc: Global, words: &[Text]) -> Result<Vec<Pattern>, AllocError>
    ensures { IfOk result (λ all. all.items ≡ patterns_of words.now) }
{
    let mut all = Vec::new(alloc);
    for word in words {
        if let Some(pattern) = pattern_of(alloc, word)? {
            all.push(pattern)?;
        }
    }
    Ok(all)
}

fn is_match(pattern: &Pattern, name: &InstanceFmri) -> bool
    ensures { result ≡ matches pattern.now name.now }
{
    pattern.matches(name.as_fmri())
}

/// True if one of the patterns matches an instance's name.
pub fn is_named(patterns: &[Pattern], name: &InstanceFmri) -> bool
    ensures { result ≡ is_named patterns.now name.now }
{
    patterns.iter().any(|pattern| is_match(pattern, name))
}

fn any_named(patterns: &[Pattern], view: &[ViewItem]) -> bool
    ensures { result ≡ list_any (λ i. is_named patterns.now i.name) view.now }
{
    view.iter().any(|item| is_named(patterns, &item.name))
}

fn is_matched(alloc: Global, view: &[ViewItem], word: &Text) -> Result<bool, AllocError>
    ensures { IfOk result (λ b. b ≡ is_matched view.now word.now) }
{
    match pattern_of(alloc, word)? {
        Some(pattern) => Ok(any_named(&[pattern], view)),
        None => Ok(false),
    }
}

/// The words that match no instance.
pub fn unmatched_words(
    alloc: Global,
    view: &[ViewItem],
    words: &[Text],
) -> Result<Items<Text>, AllocError>
    ensures { IfOk result (λ all. all ≡ unmatched_words view.now words.now) }
{
    let mut all = Items::new(alloc);
    for word in words {
        if !is_matched(alloc, view, word)? {
            all.push(word.clone()?)?;
        }
    }
    Ok(all)
}

// ---- which instances

fn is_listed(item: &ViewItem) -> bool
    ensures { result ≡ is_listed item.now }
{
    item.enabled || item.row.state.runs()
}

fn is_chosen(chosen: Chosen, patterns: &[Pattern], item: &ViewItem) -> bool
    ensures { result ≡ is_chosen chosen patterns.now item.now }
{
    match chosen {
        Chosen::Listed => is_listed(item),
        Chosen::All => true,
        Chosen::Named => is_named(patterns, &item.name),
        Chosen::Related(_) => is_named(patterns, &item.name),
    }
}

fn entry_of(name: &InstanceFmri, state: State, next: Option<State>) -> Result<Entry, AllocError>
    ensures { IfOk result (λ entry. entry ≡ entry_of name.now state next) }
{
    let name = name.clone()?;
    Ok(Entry {
        name,
        state,
        in_transition: next.is_some(),
    })
}

/// The entries of the instances that are chosen, in the byte order of their names.
fn chosen_entries(
    alloc: Global,
    view: &[ViewItem],
    chosen: Chosen,
    patterns: &[Pattern],
) -> Result<Ordered<Entry>, AllocError>
    ensures { IfOk result (λ es. es ≡ sorted_entries (item_entries (chosen_of chosen patterns.now view.now))) }
{
    let mut entries = Ordered::new(alloc);
    for item in view {
        if is_chosen(chosen, patterns, item) {
            entries.put(entry_of(&item.name, item.row.state, item.row.next)?)?;
        }
    }
    Ok(entries)
}

fn chosen_items(
    alloc: Global,
    view: &[ViewItem],
    chosen: Chosen,
    patterns: &[Pattern],
) -> Result<Vec<ViewItem>, AllocError>
    ensures { IfOk result (λ all. all.items ≡ chosen_of chosen patterns.now view.now) }
{
    let mut all = Vec::new(alloc);
    for item in view {
        if is_chosen(chosen, patterns, item) {
            all.push(item.clone()?)?;
        }
    }
    Ok(all)
}

fn chosen_members(
    alloc: Global,
    view: &[ViewItem],
    chosen: Chosen,
    patterns: &[Pattern],
) -> Result<Items<GraphMember>, AllocError>
    ensures { IfOk result (λ ms. ms ≡ members (chosen_of chosen patterns.now view.now)) }
{
    let items = chosen_items(alloc, view, chosen, patterns)?;
    members(alloc, items.as_slice())
}

/// The entries of the instances that stand so to one of those chosen, in the byte order of their names.
fn related_entries(
    alloc: Global,
    all: &[GraphMember],
    relation: Relation,
    chosen: &[GraphMember],
) -> Result<Ordered<Entry>, AllocError>
    ensures { IfOk result
        (λ es. es ≡ sorted_entries (member_entries (filter (is_related relation chosen.now) all.now))) }
{
    let mut entries = Ordered::new(alloc);
    for member in all {
        if is_related(relation, chosen, member) {
            entries.put(entry_of(&member.name, member.state, member.next)?)?;
        }
    }
    Ok(entries)
}

fn entries_by_relation(
    alloc: Global,
    view: &[ViewItem],
    relation: Relation,
    patterns: &[Pattern],
) -> Result<Ordered<Entry>, AllocError>
    ensures { IfOk result (λ es. es ≡ sorted_entries (entries_by_relation relation patterns.now view.now)) }
{
    let chosen = chosen_members(alloc, view, Chosen::Related(relation), patterns)?;
    let all = members(alloc, view)?;
    related_entries(alloc, all.as_slice(), relation, chosen.as_slice())
}

/// The entries of the instances that are shown, in the byte order of their names.
#[tactic(auto, unfolding(crate::specs::Output::entries))]
fn entries(
    alloc: Global,
    view: &[ViewItem],
    options: &Options,
) -> Result<Ordered<Entry>, AllocError>
    ensures { IfOk result (λ es. es ≡ entries view.now options.now) }
{
    let patterns = patterns_of(alloc, options.patterns.as_slice())?;
    match options.chosen {
        Chosen::Related(relation) => entries_by_relation(
            alloc,
            view,
            relation,
            patterns.as_slice(),
        ),
        chosen => chosen_entries(alloc, view, chosen, patterns.as_slice()),
    }
}

// ---- the text

/// Puts so many blanks.
pub fn put_blanks(out: &mut String, count: usize) -> Result<(), AllocError>
    ensures { OnOk result (string_bytes out.new ≡ string_bytes out.old ++ replicate count 32) }
{
    for _ in 0..count {
        out.push(' ')?;
    }
    Ok(())
}

/// The places of the state.
const STATE_PLACES: usize = 14;

fn put_entry(out: &mut String, entry: &Entry) -> Result<(), AllocError>
    ensures { OnOk result (string_bytes out.new ≡ string_bytes out.old ++ entry_text entry.now) }
{
    let state = entry.state.text();
    let star = if entry.in_transition { "*" } else { "" };
    out.push_str(state)?;
    out.push_str(star)?;
    put_blanks(out, STATE_PLACES.saturating_sub(state.len() + star.len()))?;
    out.push(' ')?;
    out.push_str(entry.name.print())?;
    out.push('\n')
}

fn put_entries(out: &mut String, entries: &[Entry]) -> Result<(), AllocError>
    ensures { OnOk result (string_bytes out.new ≡ string_bytes out.old ++ flat_map entry_text entries.now) }
{
    for entry in entries {
        put_entry(out, entry)?;
    }
    Ok(())
}

fn put_unmatched(alloc: Global, out: &mut String, words: &[Text]) -> Result<(), AllocError>
    ensures { OnOk result (string_bytes out.new ≡ string_bytes out.old ++ flat_map unmatched_text words.now) }
{
    for word in words {
        out.push_str(no_match_text(alloc, "svcs", word.as_str())?.as_str())?;
    }
    Ok(())
}

fn put_header(out: &mut String, header: bool) -> Result<(), AllocError>
    ensures { OnOk result (string_bytes out.new ≡ string_bytes out.old ++ header_text header) }
{
    if header {
        out.push_str("STATE          FMRI\n")?;
    }
    Ok(())
}

/// The output of svcs for a view. If the words ask for dependencies or dependents, the view has to have the bodies of
/// running snapshots.
#[tactic(auto, unfolding(crate::specs::Output::svcs_text))]
pub fn svcs_text(alloc: Global, view: &[ViewItem], options: &Options) -> Result<Listing, AllocError>
    ensures { IfOk result (λ listing. listing ≡ svcs_text view.now options.now) }
{
    let unmatched = unmatched_words(alloc, view, options.patterns.as_slice())?;
    let entries = entries(alloc, view, options)?;
    let mut out = String::new(alloc);
    put_unmatched(alloc, &mut out, unmatched.as_slice())?;
    put_header(&mut out, options.header)?;
    put_entries(&mut out, entries.as_slice())?;
    Ok(Listing {
        text: Text::from_string(out),
        all_matched: unmatched.as_slice().is_empty(),
    })
}
