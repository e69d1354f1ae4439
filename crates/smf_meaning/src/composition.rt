ghost use Rattle.std.specs.Prelude.{◌≡◌, List, Some};
ghost use Rattle.smf_fmri.specs.ByKey.{Rises};
ghost use Rattle.smf_value.specs.Groups.{GroupRecord, by_group};
ghost use Rattle.smf_snap.specs.Composed.{composed_group};
ghost use Rattle.smf_snap.specs.declared.body.SnapshotBody.{SnapshotBody as AnyBody};
ghost use Rattle.smf_dep.specs.Members.{groups_of_snapshot as read_of};
ghost use Rattle.smf_model.specs.declared.held.Instance.{Instance as AnyInstance};
ghost use Rattle.smf_model.specs.declared.held.Owner.TheVariants as owners;
ghost use Rattle.smf_model.specs.declared.held.Snapshot.{Snapshot as AnySnapshot};
ghost use Rattle.smf_model.specs.Contents.{Holdings};
ghost use Rattle.smf_model.specs.Look.{groups_of};
ghost use Rattle.smf_model.specs.GeneralGroup.{service_owner};
ghost use Rattle.smf_model.specs.Shown.{composed_of};
ghost use Rattle.smf_svccfg.specs.Listed.{composed_in};
ghost use Rattle.smf_meaning.specs.Composition.{IsComposed, named_in};

/// An instance has its own group of a name, else its service's: the graph, the repository and svccfg agree on it.
pub fn groups_are_composed_alike()
    ensures snapshot { (instance service : List GroupRecord)
        → IsComposed instance service (composed_group instance service) }
    ensures graph { (s : AnyBody) → Rises by_group s.instance → IsComposed s.instance s.service (named_in (read_of s)) }
    ensures repository { (h : Holdings) (i : AnyInstance) → Rises by_group (groups_of h (owners.Instance i.number))
        → IsComposed (groups_of h (owners.Instance i.number)) (groups_of h (service_owner i)) (named_in (composed_of h i)) }
    ensures listed { (s : AnySnapshot) → Rises by_group s.instance_groups
        → IsComposed s.instance_groups s.service_groups (named_in (composed_in (Some s))) }
    ensures alike { (instance service some others : List GroupRecord) → Rises by_group some → Rises by_group others
        → IsComposed instance service (named_in some) → IsComposed instance service (named_in others) → some ≡ others }
{}
