ghost use Rattle.std.specs.Prelude.{◌≡◌, List};
ghost use Rattle.smf_fmri.specs.ByKey.{Rises};
ghost use Rattle.smf_value.specs.Groups.{GroupRecord, by_group};
ghost use Rattle.smf_snap.specs.Snapshots.{groups_of_revert, snapshot_groups};
ghost use Rattle.smf_meaning.specs.Composition.{IsRestored, IsTaken};

/// A revert brings the groups of the snapshot back and keeps those that no snapshot holds. To revert to what was just
/// taken changes nothing.
pub fn reverts_bring_back()
    ensures taken { (gs : List GroupRecord) → Rises by_group gs → IsTaken gs (snapshot_groups gs) }
    ensures restored { (before snapshot : List GroupRecord) → Rises by_group before → Rises by_group snapshot
        → IsRestored before snapshot (groups_of_revert before snapshot) }
    ensures again { (gs : List GroupRecord) → Rises by_group gs → groups_of_revert gs (snapshot_groups gs) ≡ gs }
{}
