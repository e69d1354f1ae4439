ghost use Rattle.std.specs.Option.{option_copied};
ghost use Rattle.std.specs.Prelude.{◌≡◌, ◌||◌, [], List, true, IfOk, IfSome, OnOk, Some, option_map};
ghost use Rattle.smf_model.specs.declared.held.InstanceEntry.{InstanceEntry as AnyEntry};
ghost use Rattle.smf_model.specs.Contents.{Holdings};
ghost use Rattle.smf_model.specs.Look.{holdings_after_changes};
ghost use Rattle.smf_changes.specs.Owned.{AreOwned, AreTold, are_numbered, is_among, owners_of, put_row, puts_numbered, puts_numbered_all, with_owner, with_owner_put, with_owners_put};

use smf_fmri::{InstanceFmri, Items};
use smf_model::{Change, InstanceEntry};
use smf_state::SharedRow;
use std::alloc::{AllocError, Global};

/// The owners of all rows, as far as they are known.
#[derive(Drop)]
pub(crate) struct Owners {
    /// The owner of each row, and maybe others. None, if they are still to be found.
    pub(crate) names: Option<Items<InstanceFmri>>,
    /// True only if no row has the number 0.
    pub(crate) all_numbered: bool,
}

/// True if the name is among the names.
fn is_among(names: &[InstanceFmri], owner: &InstanceFmri) -> bool
    ensures { result ≡ is_among names.now owner.now }
{
    names.contains(owner)
}

/// Adds a name, if it is not there.
fn add(names: &mut Items<InstanceFmri>, owner: &InstanceFmri) -> Result<(), AllocError>
    ensures { OnOk result (names.new ≡ with_owner names.old owner.now) }
{
    if is_among(names.as_slice(), owner) {
        return Ok(());
    }
    names.push(owner.clone()?)
}

/// The owners of entries, each once.
fn owners_of(alloc: Global, entries: &[InstanceEntry]) -> Result<Items<InstanceFmri>, AllocError>
    ensures { IfOk result (λ names. names ≡ owners_of [] entries.now) }
{
    let mut names = Items::new(alloc);
    for entry in entries {
        add(&mut names, &entry.instance.row.owner)?;
    }
    Ok(names)
}

/// The row that a change puts.
fn put_row(change: &Change) -> Option<&SharedRow>
    ensures { option_copied result ≡ put_row change.now }
{
    match change {
        Change::AddInstance(entry) => Some(&entry.instance.row),
        Change::PutInstance(instance) => Some(&instance.row),
        _ => None,
    }
}

/// Adds the owner that a change puts.
fn add_put(names: &mut Items<InstanceFmri>, change: &Change) -> Result<(), AllocError>
    ensures { OnOk result (names.new ≡ with_owner_put names.old (put_row change.now)) }
{
    match put_row(change) {
        None => Ok(()),
        Some(row) => add(names, &row.owner),
    }
}

/// Adds the owners that changes put.
fn add_all_put(names: &mut Items<InstanceFmri>, changes: &[Change]) -> Result<(), AllocError>
    ensures { OnOk result (names.new ≡ with_owners_put names.old changes.now) }
{
    for change in changes {
        add_put(names, change)?;
    }
    Ok(())
}

/// The owners after changes. None, if memory runs out.
fn after(names: Option<Items<InstanceFmri>>, changes: &[Change]) -> Option<Items<InstanceFmri>>
    ensures { IfSome result (λ all. option_map (λ before. with_owners_put before changes.now) names ≡ Some all) }
{
    let mut all = names?;
    match add_all_put(&mut all, changes) {
        Ok(()) => Some(all),
        Err(_) => None,
    }
}

fn puts_numbered(all_numbered: bool, change: &Change) -> bool
    ensures { result ≡ puts_numbered all_numbered (put_row change.now) }
{
    match put_row(change) {
        None => all_numbered,
        Some(row) => all_numbered && row.number != 0,
    }
}

/// True if all rows were numbered and the changes put no row with the number 0.
fn puts_numbered_all(all_numbered: bool, changes: &[Change]) -> bool
    ensures { result ≡ puts_numbered_all all_numbered changes.now }
{
    let mut all = all_numbered;
    for change in changes {
        all = puts_numbered(all, change);
    }
    all
}

/// True if no entry's row has the number 0.
fn are_numbered(entries: &[InstanceEntry]) -> bool
    ensures { result ≡ are_numbered entries.now }
{
    entries.iter().all(|entry| entry.instance.row.number != 0)
}

/// True if no entry's row has the number 0. If this is known already, the function does not look at the entries.
fn find_numbered(is_known: bool, entries: &[InstanceEntry]) -> bool
    ensures { result ≡ (is_known || are_numbered entries.now) }
{
    if is_known {
        return true;
    }
    are_numbered(entries)
}

/// Finds the owners of entries, if they are not known.
fn find_names(
    names: &mut Option<Items<InstanceFmri>>,
    alloc: Global,
    entries: &[InstanceEntry],
) -> Result<(), AllocError>
    ensures { AreOwned names.old entries.now → AreOwned names.new entries.now }
{
    if names.is_some() {
        return Ok(());
    }
    let all = owners_of(alloc, entries)?;
    *names = Some(all);
    Ok(())
}

impl Owners {
    /// Nothing is known.
    pub(crate) fn unknown() -> Owners
        ensures { (es : List AnyEntry) → AreTold result es }
    {
        Owners {
            names: None,
            all_numbered: false,
        }
    }

    /// Notes what changes put, before they are made. If memory runs out the owners are no longer known.
    pub(crate) fn note(&mut self, changes: &[Change])
        ensures before { (es : List AnyEntry) → AreTold self.old es → AreTold self.new es }
        ensures then { (h : Holdings) → AreTold self.old h.instances
            → AreTold self.new (holdings_after_changes h changes.now).instances }
    {
        self.all_numbered = puts_numbered_all(self.all_numbered, changes);
        self.names = after(self.names.take(), changes);
    }

    /// Finds what is not known.
    pub(crate) fn find(
        &mut self,
        alloc: Global,
        entries: &[InstanceEntry],
    ) -> Result<(), AllocError>
        requires { AreTold self.old entries.now }
        ensures { AreTold self.new entries.now }
    {
        find_names(&mut self.names, alloc, entries)?;
        self.all_numbered = find_numbered(self.all_numbered, entries);
        Ok(())
    }

    /// The owner of each row, and maybe others, if they are known and no row has the number 0.
    pub(crate) fn owner_names(&self) -> Option<&[InstanceFmri]>
        ensures names { IfSome (option_copied result) (λ names. self.now.names ≡ Some names) }
        ensures numbered { IfSome (option_copied result) (λ names. self.now.all_numbered ≡ true) }
    {
        if !self.all_numbered {
            return None;
        }
        match &self.names {
            None => None,
            Some(names) => Some(names.as_slice()),
        }
    }
}
