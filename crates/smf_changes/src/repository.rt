ghost use Rattle.std.specs.Option.{option_copied};
ghost use Rattle.std.specs.Prelude.{◌≡◌, ◌<◌, [], length, IfErr, IfOk, IfSome, OnErr, OnOk};
ghost use Rattle.smf_model.specs.Journals.{IsUnwritten, LeavesOldOr, LeavesOnly};
ghost use Rattle.smf_model.specs.Laws.{IsNumbered};
ghost use Rattle.smf_model.specs.Look.{holdings_after_changes};
ghost use Rattle.smf_model.specs.Shown.{view};
ghost use Rattle.smf_changes.specs.Changes.{changes_since};
ghost use Rattle.smf_changes.specs.ChangeRecord.{IsKept, lists_of};
ghost use Rattle.smf_changes.specs.Owned.{HasOwnersAmong};
ghost use Rattle.smf_changes.specs.Recorded.{next_lists};

use crate::change_record::Kept;
use crate::snapshot_bounds::put_by_all;
use smf_fmri::{InstanceFmri, Items};
use smf_model::{Change, Journal, Plain, RepoFault};
use smf_state::{ChangedItem, HeldView};
use std::alloc::{AllocError, Global};
use std::marker::Model;

/// The repository, with a record of which instances its newest commits touched.
#[derive(Drop)]
pub struct Repository<J: Journal> {
    alloc: Global,
    plain: Plain<J>,
    kept: Kept,
}

impl<J: Journal> Model for Repository<J> {
    ghost use Rattle.smf_changes.specs.ChangeRecord.{IsKept, lists_of};
    ghost use Rattle.smf_changes.specs.Recorded.{Recorded};

    ghost Value = { Recorded J };

    ghost view = { λ r. record { held = r.plain.held; journal = r.plain.journal; recent = lists_of r.kept r.plain.held } };

    ghost invariant = { λ r. IsKept r.kept r.plain.held };
}

impl<J: Journal> Repository<J> {
    /// A repository of which no changes are recorded yet.
    pub fn over(alloc: Global, plain: Plain<J>) -> Repository<J>
        ensures held { result.held ≡ plain.held }
        ensures journal { result.journal ≡ plain.journal }
        ensures recent { result.recent ≡ [] }
    {
        let kept = Kept::over(alloc, &plain);
        Repository { alloc, plain, kept }
    }

    /// The repository, to be read.
    pub fn plain(&self) -> &Plain<J>
        ensures held { result.now.held ≡ self.now.held }
        ensures journal { result.now.journal ≡ self.now.journal }
    {
        &self.plain
    }

    /// The repository without the record.
    pub fn into_plain(self) -> Plain<J>
        ensures held { result.held ≡ self.held }
        ensures journal { result.journal ≡ self.journal }
    {
        self.plain
    }

    /// Drops the record of changes. The view is worked out again when it is kept next.
    pub fn forget_changes(&mut self)
        ensures held { self.new.held ≡ self.old.held }
        ensures journal { self.new.journal ≡ self.old.journal }
        ensures recent { self.new.recent ≡ [] }
    {
        self.kept.recent.clear();
        self.kept.stale = None;
        self.kept.shown = None;
    }

    /// Makes changes and records which instances they touch. The journal is written first, and an error leaves the
    /// repository and its record. If there are no changes the journal is not called.
    pub fn commit(&mut self, changes: Items<Change>) -> Result<(), RepoFault>
        requires { IsNumbered (holdings_after_changes self.old.held changes) }
        ensures ok { OnOk result (self.new.held ≡ holdings_after_changes self.old.held changes) }
        ensures err { OnErr result (self.new.held ≡ self.old.held) }
        ensures recent { OnOk result (self.new.recent ≡ next_lists self.old.held changes self.old.recent) }
        ensures lists { OnErr result (self.new.recent ≡ self.old.recent) }
        ensures trusted { J.is_clean self.new.journal → J.is_clean self.old.journal }
        ensures sound { OnOk result (0 < length changes → J.is_clean self.new.journal → J.is_sound self.new.journal) }
        ensures stands { J.stands self.new.journal self.new.held }
        ensures crash { LeavesOldOr J.could self.old.journal self.new.journal
            (holdings_after_changes self.old.held changes) }
        ensures settled { J.is_sound self.new.journal → LeavesOnly J.could self.new.journal self.new.held }
        ensures fault { IfErr result (IsUnwritten J.write_fails changes) }
    {
        commit(self.alloc, &mut self.plain, &mut self.kept, changes)
    }

    /// The revision of today, and today's items of all that commits touched since another revision. None, if the record
    /// does not keep all lists since then.
    pub fn changes_since(&self, from: u64) -> Result<Option<(u64, Items<ChangedItem>)>, AllocError>
        ensures { IfOk result (λ c. c ≡ changes_since self.now.recent self.now.held from) }
    {
        self.kept.since(self.alloc, &self.plain, from)
    }

    /// Keeps the view of svc.startd's graph, brought up to date, and what `owners` gives.
    pub fn keep_view(&mut self) -> Result<(), AllocError>
        ensures { self.new ≡ self.old }
    {
        self.kept.keep_view(self.alloc, &self.plain)
    }

    /// The view that is kept. There is none between a commit and the next call that keeps it.
    pub fn current_view(&self) -> Option<&HeldView>
        ensures { IfSome (option_copied result) (λ v. v ≡ view self.now.held) }
    {
        self.kept.up_to_date()
    }

    /// The owners of all instances, and maybe others, if they are known and each row has a number. There may be none
    /// between a commit and the next call that keeps the view, so it is a hint alone.
    pub fn owners(&self) -> Option<&[InstanceFmri]>
        ensures { IfSome (option_copied result) (λ names. HasOwnersAmong names self.now.held) }
    {
        self.kept.owners.owner_names()
    }
}

/// Makes changes, after the items that they may touch are noted.
fn commit<J: Journal>(
    alloc: Global,
    plain: &mut Plain<J>,
    kept: &mut Kept,
    changes: Items<Change>,
) -> Result<(), RepoFault>
    requires numbered { IsNumbered (holdings_after_changes plain.old.held changes) }
    requires kept { IsKept kept.old plain.old.held }
    ensures kept { IsKept kept.new plain.new.held }
    ensures ok { OnOk result (plain.new.held ≡ holdings_after_changes plain.old.held changes) }
    ensures err { OnErr result (plain.new.held ≡ plain.old.held) }
    ensures recent { OnOk result
        (lists_of kept.new plain.new.held ≡ next_lists plain.old.held changes (lists_of kept.old plain.old.held)) }
    ensures lists { OnErr result (lists_of kept.new plain.new.held ≡ lists_of kept.old plain.old.held) }
    ensures trusted { J.is_clean plain.new.journal → J.is_clean plain.old.journal }
    ensures sound { OnOk result (0 < length changes → J.is_clean plain.new.journal → J.is_sound plain.new.journal) }
    ensures stands { J.stands plain.new.journal plain.new.held }
    ensures crash { LeavesOldOr J.could plain.old.journal plain.new.journal
        (holdings_after_changes plain.old.held changes) }
    ensures settled { J.is_sound plain.new.journal → LeavesOnly J.could plain.new.journal plain.new.held }
    ensures fault { IfErr result (IsUnwritten J.write_fails changes) }
{
    if changes.is_empty() {
        return plain.commit(changes);
    }
    plain.see_standing();
    let olds = kept.prepare(alloc, plain, changes.as_slice())?;
    let top = put_by_all(kept.greatest_running, changes.as_slice());
    plain.commit(changes)?;
    kept.stale = Some(olds);
    kept.greatest_running = top;
    Ok(())
}
