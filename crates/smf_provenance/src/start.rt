ghost use Rattle.std.specs.Prelude.{◌≡◌, IfOk};
ghost use Rattle.smf_dep.specs.Members.{members};
ghost use Rattle.smf_engine.specs.Orders.{method_in};
ghost use Rattle.smf_world.specs.Safe.{is_start};
ghost use Rattle.smf_provenance.specs.Started.{by_member, is_of, readable_method, start_evidence};

use crate::evidence::StartEvidence;
use crate::groups::all_groups;
use crate::scene::{Scene, find_item};
use smf_contract::Method;
use smf_dep::GraphMember;
use smf_method::{MethodCall, MethodFault, ReadMethod};
use smf_state::ViewItem;
use smf_world::{Item, is_start};
use std::alloc::{AllocError, Global};

/// The start method of an instance, if it can be read.
fn start_method(
    alloc: Global,
    item: &ViewItem,
    member: &GraphMember,
) -> Result<Option<ReadMethod>, AllocError>
    ensures { IfOk result (λ read. read ≡ readable_method (method_in item.now member.now Method.Start)) }
{
    match ReadMethod::of(
        alloc,
        &member.composed,
        Method::Start,
        &item.row.owner,
        &item.name,
    ) {
        Ok(read) => Ok(read),
        Err(MethodFault::Memory) => Err(AllocError),
        Err(MethodFault::NoExec) => Ok(None),
        Err(MethodFault::BadTimeout) => Ok(None),
        Err(MethodFault::BadToken(_)) => Ok(None),
        Err(MethodFault::BadDuration) => Ok(None),
        Err(MethodFault::BadIgnore) => Ok(None),
    }
}

/// The evidence of a start of an instance.
#[tactic(auto, unfolding(crate::specs::Started::by_member))]
fn by_member(
    alloc: Global,
    scene: &Scene,
    revision: u64,
    item: &ViewItem,
    member: &GraphMember,
) -> Result<Option<StartEvidence>, AllocError>
    ensures { IfOk result (λ e. e ≡ by_member revision (members scene.now.items) item.now member.now) }
{
    let Some(read) = start_method(alloc, item, member)? else {
        return Ok(None);
    };
    let groups = all_groups(alloc, scene, member.composed.as_slice(), &item.row.owner)?;
    let name = item.name.clone()?;
    let MethodCall { command, .. } = read.call;
    Ok(Some(StartEvidence {
        instance: item.instance,
        name,
        revision,
        is_enabled: item.enabled,
        groups,
        command,
        snapshot: item.row.running,
    }))
}

/// On what evidence a start of an instance was decided on a revision, by the view of that revision. None by another view,
/// and if the instance or its start method is not there.
#[tactic(auto, using(crate::proofs::Seen::other_start, crate::proofs::Seen::no_start, crate::proofs::Seen::that_start))]
pub fn start_evidence(
    alloc: Global,
    scene: &Scene,
    instance: u64,
    revision: u64,
) -> Result<Option<StartEvidence>, AllocError>
    ensures { IfOk result (λ e. e ≡ start_evidence scene.now instance revision) }
{
    if scene.revision() != revision {
        return Ok(None);
    }
    let Some(placed) = find_item(scene.items(), instance) else {
        return Ok(None);
    };
    let member = scene.member_at(placed.place, placed.item);
    let evidence = by_member(alloc, scene, revision, placed.item, member)?;
    Ok(evidence)
}

impl StartEvidence {
    /// True if an item of a trail tells of a start that was decided on this.
    pub fn is_of(&self, item: &Item) -> bool
        ensures { result ≡ is_of self.now item.now }
    {
        match item {
            Item::Spawned {
                instance,
                method,
                revision,
                ..
            } => { is_start(*method) && *instance == self.instance && *revision == self.revision }
            Item::Committed { .. } => false,
            Item::Held { .. } => false,
            Item::Emptied(_) => false,
            Item::Boot => false,
        }
    }
}
