ghost use Rattle.std.specs.List.{AllZip};
ghost use Rattle.std.specs.Prelude.{◌≡◌, true, IfOk, IfSome, refl};
ghost use Rattle.smf_value.specs.Decoder.{Gives};
ghost use Rattle.smf_dep.specs.Departures.{gone_of};
ghost use Rattle.smf_dep.specs.Requirements.{read_groups};
ghost use Rattle.smf_dep.specs.Members.{HasNumbersOf, HasStateOf, IsOfItem, by_member, groups_of_snapshot, implicit, member_of, member_with, members, snapshot_in, when_there, wires, with_implicit};
ghost use Rattle.smf_dep.specs.Methods.{has_unfit_methods};
ghost use Rattle.smf_dep.specs.Verdicts.{cites_by, is_cited, is_idle, is_off, is_running, is_waiting};

use crate::dependency::{Dependency, are_same};
use crate::fault::DependencyFault;
use crate::methods::has_unfit_methods;
use crate::requirements::read_groups;
use crate::shared::Shared;
use smf_fmri::{Bytes, ExactClone, Fmri, InstanceFmri, Items, Keyed, Ordered};
use smf_links::{Grouping, RestartOn, with_room};
use smf_snap::{SnapshotBody, decode_snapshot};
use smf_state::{Row, State, ViewItem, is_startd, startd};
use smf_value::{BodyFault, Group};
use std::alloc::{AllocError, Global};
use std::marker::Model;

/// An instance, as verdicts look at it.
#[derive(Drop)]
pub struct GraphMember {
    pub instance: u64,
    pub name: InstanceFmri,
    pub enabled: bool,
    pub state: State,
    pub next: Option<State>,
    /// The revision on which its last start was decided.
    pub base: u64,
    /// The revisions of its last stop by an error, of its last other stop, of its last refresh and of its last start.
    pub err: u64,
    pub stop: u64,
    pub refresh: u64,
    pub start: u64,
    /// The groups of its running snapshot, by name its own, else those of its service.
    pub composed: Shared<Ordered<Group>>,
    /// Its dependencies, or none if a group can't be read.
    pub dependencies: Option<Shared<Items<Dependency>>>,
}

/// An instance as a verdict looks at it, with what its groups were read from. If that is the same in a later view, they
/// need not be read again. Contracts see the member.
#[derive(Drop)]
pub struct ReadMember {
    member: GraphMember,
    owner: InstanceFmri,
    body: Option<Bytes>,
    has_unfit_methods: bool,
}

impl Model for ReadMember {
    ghost use Rattle.smf_dep.specs.Members.{IsReadFrom};
    ghost use Rattle.smf_dep.specs.declared.member.GraphMember.{GraphMember as AnyMember};

    ghost Value = { AnyMember };

    ghost view = { λ r. r.member };

    ghost invariant = { λ r. IsReadFrom r.owner r.body r.has_unfit_methods r.member };
}

impl Keyed for ReadMember {
    type Key = u64;

    ghost by = { by_member };

    fn key(&self) -> &u64 {
        &self.member.instance
    }

    ghost same = { refl };
}

impl Clone for ReadMember {
    ghost is_clone = { λ s copy. copy ≡ s };

    fn clone(&self) -> Result<ReadMember, AllocError> {
        let member = copy_of_member(&self.member)?;
        let owner = self.owner.clone()?;
        let body = copy_of(&self.body)?;
        Ok(ReadMember {
            member,
            owner,
            body,
            has_unfit_methods: self.has_unfit_methods,
        })
    }
}

impl ExactClone for ReadMember {
    ghost exact = { λ member copy same. same };
}

fn snapshot_in(alloc: Global, item: &ViewItem) -> Result<SnapshotBody, BodyFault>
    ensures { Gives (λ x. x) result (snapshot_in item.now.body) }
{
    match &item.body {
        Some(body) => decode_snapshot(alloc, body.as_slice()),
        None => Ok(SnapshotBody {
            service: Ordered::new(alloc),
            instance: Ordered::new(alloc),
        }),
    }
}

/// The groups of a snapshot: by name the instance's own, else the service's, each as a whole.
fn compose(snapshot: SnapshotBody) -> Result<Ordered<Group>, AllocError>
    ensures { IfOk result (λ gs. gs ≡ groups_of_snapshot snapshot) }
{
    let mut groups = snapshot.service;
    for group in snapshot.instance.into_vec() {
        groups.put(group)?;
    }
    Ok(groups)
}

/// The dependency of an instance on its restarter, if that is not svc.startd.
fn implicit(alloc: Global, owner: &InstanceFmri) -> Result<Option<Dependency>, AllocError>
    ensures { IfOk result (λ d. when_there d ≡ implicit owner.now) }
{
    if is_startd(owner) {
        return Ok(None);
    }
    let mut entities = Items::new(alloc);
    entities.push(owner.as_fmri().clone()?)?;
    Ok(Some(Dependency {
        grouping: Grouping::RequireAll,
        restart_on: RestartOn::Nothing,
        entities,
    }))
}

fn dependencies_in(
    alloc: Global,
    owner: &InstanceFmri,
    groups: &Ordered<Group>,
) -> Result<Option<Items<Dependency>>, AllocError>
    ensures { IfOk result (λ ds. ds ≡ with_implicit owner.now (read_groups groups.now)) }
{
    let mut all = match read_groups(alloc, groups) {
        Ok(all) => all,
        Err(DependencyFault::Memory) => return Err(AllocError),
        Err(_) => return Ok(None),
    };
    if let Some(dependency) = implicit(alloc, owner)? {
        all.push(dependency)?;
    }
    Ok(Some(all))
}

fn member_named(
    item: &ViewItem,
    name: InstanceFmri,
    composed: Shared<Ordered<Group>>,
    dependencies: Option<Shared<Items<Dependency>>>,
) -> GraphMember
    ensures { name ≡ item.now.name → result ≡ member_with item.now composed dependencies }
{
    GraphMember {
        instance: item.instance,
        name,
        enabled: item.enabled,
        state: item.row.state,
        next: item.row.next,
        base: item.row.base,
        err: item.row.err,
        stop: item.row.stop,
        refresh: item.row.refresh,
        start: item.row.start,
        composed,
        dependencies,
    }
}

fn shared_dependencies(
    alloc: Global,
    dependencies: Option<Items<Dependency>>,
) -> Result<Option<Shared<Items<Dependency>>>, AllocError>
    ensures { IfOk result (λ ds. ds ≡ dependencies) }
{
    match dependencies {
        None => Ok(None),
        Some(dependencies) => Ok(Some(Shared::of(alloc, dependencies)?)),
    }
}

fn member_with(
    alloc: Global,
    item: &ViewItem,
    composed: Ordered<Group>,
    dependencies: Option<Items<Dependency>>,
) -> Result<GraphMember, AllocError>
    ensures { IfOk result (λ m. m ≡ member_with item.now composed dependencies) }
{
    let name = item.name.clone()?;
    let composed = Shared::of(alloc, composed)?;
    let dependencies = shared_dependencies(alloc, dependencies)?;
    Ok(member_named(item, name, composed, dependencies))
}

/// The same instance in a later view, whose name and groups are what they were.
fn member_again(item: &ViewItem, kept: GraphMember) -> GraphMember
    requires { IsOfItem item.now kept }
    ensures { result ≡ member_of item.now }
{
    let GraphMember {
        name,
        composed,
        dependencies,
        ..
    } = kept;
    member_named(item, name, composed, dependencies)
}

#[tactic(auto, unfolding(crate::specs::Members::member_of))]
fn member_of(alloc: Global, item: &ViewItem) -> Result<GraphMember, AllocError>
    ensures { IfOk result (λ m. m ≡ member_of item.now) }
{
    let snapshot = match snapshot_in(alloc, item) {
        Ok(snapshot) => snapshot,
        Err(BodyFault::Memory) => return Err(AllocError),
        Err(BodyFault::BadBody(_)) => return member_with(alloc, item, Ordered::new(alloc), None),
    };
    let composed = compose(snapshot)?;
    let dependencies = dependencies_in(alloc, &item.row.owner, &composed)?;
    member_with(alloc, item, composed, dependencies)
}

/// True if the number and the states of an instance are those of an item, and it is enabled if the item is.
fn has_state_of(member: &GraphMember, item: &ViewItem) -> bool
    ensures { result ≡ true → HasStateOf item.now member.now }
{
    member.instance == item.instance
        && member.enabled == item.enabled
        && member.state == item.row.state
        && member.next == item.row.next
}

/// True if the revisions of what happened to an instance are those of a row.
fn has_numbers_of(member: &GraphMember, row: &Row) -> bool
    ensures { result ≡ true → HasNumbersOf row.now member.now }
{
    member.base == row.base
        && member.err == row.err
        && member.stop == row.stop
        && member.refresh == row.refresh
        && member.start == row.start
}

fn copy_of(body: &Option<Bytes>) -> Result<Option<Bytes>, AllocError>
    ensures { IfOk result (λ copy. copy ≡ body.now) }
{
    match body {
        None => Ok(None),
        Some(bytes) => Ok(Some(bytes.clone()?)),
    }
}

fn is_body(kept: &Option<Bytes>, body: &Option<Bytes>) -> bool
    ensures { result ≡ true → kept.now ≡ body.now }
{
    match kept {
        None => body.is_none(),
        Some(kept) => match body {
            None => false,
            Some(body) => kept == body,
        },
    }
}

fn copy_of_dependencies(
    dependencies: &Option<Shared<Items<Dependency>>>,
) -> Result<Option<Shared<Items<Dependency>>>, AllocError>
    ensures { IfOk result (λ copy. copy ≡ dependencies.now) }
{
    match dependencies {
        None => Ok(None),
        Some(dependencies) => Ok(Some(dependencies.clone()?)),
    }
}

/// True if two members depend on the same.
pub(crate) fn has_same_dependencies(
    kept: &Option<Shared<Items<Dependency>>>,
    other: &Option<Shared<Items<Dependency>>>,
) -> bool
    ensures { result ≡ true → kept.now ≡ other.now }
{
    match kept {
        None => other.is_none(),
        Some(kept) => match other {
            None => false,
            Some(other) => are_same(kept.as_slice(), other.as_slice()),
        },
    }
}

/// A copy, which shares what was read.
fn copy_of_member(member: &GraphMember) -> Result<GraphMember, AllocError>
    ensures { IfOk result (λ copy. copy ≡ member.now) }
{
    let name = member.name.clone()?;
    let composed = member.composed.clone()?;
    let dependencies = copy_of_dependencies(&member.dependencies)?;
    Ok(GraphMember {
        instance: member.instance,
        name,
        enabled: member.enabled,
        state: member.state,
        next: member.next,
        base: member.base,
        err: member.err,
        stop: member.stop,
        refresh: member.refresh,
        start: member.start,
        composed,
        dependencies,
    })
}

/// An instance that went: disabled and without groups, and nothing ever happened to it.
fn gone_member(alloc: Global, member: &GraphMember) -> Result<GraphMember, AllocError>
    ensures { IfOk result (λ m. m ≡ gone_of member.now) }
{
    let name = member.name.clone()?;
    let composed = Shared::of(alloc, Ordered::new(alloc))?;
    let dependencies = Shared::of(alloc, Items::new(alloc))?;
    Ok(GraphMember {
        instance: member.instance,
        name,
        enabled: false,
        state: State::Disabled,
        next: None,
        base: 0,
        err: 0,
        stop: 0,
        refresh: 0,
        start: 0,
        composed,
        dependencies: Some(dependencies),
    })
}

impl ReadMember {
    /// The instance, as verdicts look at it.
    pub fn member(&self) -> &GraphMember
        ensures { result.now ≡ self.now }
    {
        &self.member
    }

    /// True if its methods don't let it be run by a restarter: there is none to start it, or one can't be read.
    pub fn has_unfit_methods(
        &self,
        alloc: Global,
        restarter: &InstanceFmri,
        instance: &InstanceFmri,
    ) -> Result<bool, AllocError>
        ensures { IfOk result (λ b. b ≡ has_unfit_methods restarter.now instance.now self.now.composed) }
    {
        if self.owner == *restarter && self.member.name == *instance {
            return Ok(self.has_unfit_methods);
        }
        has_unfit_methods(alloc, restarter, instance, &self.member.composed)
    }

    pub(crate) fn read(alloc: Global, item: &ViewItem) -> Result<ReadMember, AllocError>
        ensures { IfOk result (λ r. r ≡ member_of item.now) }
    {
        let member = member_of(alloc, item)?;
        let owner = item.row.owner.clone()?;
        let body = copy_of(&item.body)?;
        let has_unfit_methods = has_unfit_methods(alloc, &owner, &member.name, &member.composed)?;
        Ok(ReadMember {
            member,
            owner,
            body,
            has_unfit_methods,
        })
    }

    /// True if its groups would be read of an item from the same.
    pub(crate) fn is_read_from(&self, item: &ViewItem) -> bool
        ensures { result ≡ true → IsOfItem item.now self.now }
    {
        self.member.name == item.name
            && self.owner == item.row.owner
            && is_body(&self.body, &item.body)
    }

    /// True if it has the name of an item.
    pub(crate) fn has_name_of(&self, item: &ViewItem) -> bool
        ensures { result ≡ true → item.now.name ≡ self.now.name }
    {
        item.name == self.member.name
    }

    /// True if it has the name and the dependencies of another.
    fn has_wires_of(&self, other: &ReadMember) -> bool
        ensures { result ≡ true → wires self.now ≡ wires other.now }
    {
        self.member.name == other.member.name
            && has_same_dependencies(&self.member.dependencies, &other.member.dependencies)
    }

    /// The member of an item, if that has the name and the dependencies of this one.
    pub(crate) fn successor(
        &self,
        alloc: Global,
        item: &ViewItem,
    ) -> Result<Option<ReadMember>, AllocError>
        ensures { IfOk result (λ o. IfSome o (λ m. (m ≡ member_of item.now) × (wires m ≡ wires self.now))) }
    {
        if self.is_read_from(item) {
            let kept = self.clone()?;
            return Ok(Some(kept.again(item)));
        }
        let member = ReadMember::read(alloc, item)?;
        if !member.has_wires_of(self) {
            return Ok(None);
        }
        Ok(Some(member))
    }

    /// True if its state is that of an item from which its groups would be read the same.
    fn has_state_of(&self, item: &ViewItem) -> bool
        requires { IsOfItem item.now self.now }
        ensures { result ≡ true → self.now ≡ member_of item.now }
    {
        has_state_of(&self.member, item) && has_numbers_of(&self.member, &item.row)
    }

    /// The instance in its place once it went.
    pub(crate) fn departure(&self, alloc: Global) -> Result<ReadMember, AllocError>
        ensures { IfOk result (λ r. r ≡ gone_of self.now) }
    {
        let owner = startd(alloc)?;
        let member = gone_member(alloc, &self.member)?;
        let has_unfit_methods = has_unfit_methods(alloc, &owner, &member.name, &member.composed)?;
        Ok(ReadMember {
            member,
            owner,
            body: None,
            has_unfit_methods,
        })
    }

    /// The same instance in a later view.
    pub(crate) fn again(self, item: &ViewItem) -> ReadMember
        requires { IsOfItem item.now self }
        ensures { result ≡ member_of item.now }
    {
        let ReadMember {
            member,
            owner,
            body,
            has_unfit_methods,
        } = self;
        ReadMember {
            member: member_again(item, member),
            owner,
            body,
            has_unfit_methods,
        }
    }
}

/// How the members that were kept stand to the items of a view.
#[derive(Clone, Copy, PartialEq, Eq)]
pub(crate) enum Standing {
    /// They are the members of these items.
    Same,
    /// They were read from the same, but states may be others.
    Alike,
    Other,
}

fn standing_with(standing: Standing, is_same: bool) -> Standing
    ensures same { result ≡ Standing.Same → (standing ≡ Standing.Same) × (is_same ≡ true) }
    ensures other { result ≡ Standing.Other → standing ≡ Standing.Other }
{
    if is_same { standing } else { Standing::Alike }
}

/// How the members that were kept stand to the items of a view, the first to the first and so on.
pub(crate) fn standing_of(kept: &[ReadMember], items: &[ViewItem]) -> Standing
    ensures same { result ≡ Standing.Same → kept.now ≡ members items.now }
    ensures alike { result ≡ Standing.Alike → AllZip IsOfItem items.now kept.now }
{
    if kept.len() != items.len() {
        return Standing::Other;
    }
    let mut standing = Standing::Same;
    let mut place = 0;
    for item in items {
        let member = &kept[place];
        if !member.is_read_from(item) {
            return Standing::Other;
        }
        standing = standing_with(standing, member.has_state_of(item));
        place += 1;
    }
    standing
}

/// The same instances in a later view.
pub(crate) fn members_again(
    alloc: Global,
    kept: Items<ReadMember>,
    items: &[ViewItem],
) -> Result<Items<ReadMember>, AllocError>
    requires { AllZip IsOfItem items.now kept }
    ensures { IfOk result (λ all. all ≡ members items.now) }
{
    let mut kept = kept.into_vec().into_iter();
    let mut all = with_room(alloc, items.len())?;
    for item in items {
        let Some(member) = kept.next() else {
            unreachable!()
        };
        all.push(member.again(item))?;
    }
    Ok(all)
}

/// The member of an item. It takes the kept one, if that was read from the same.
fn renewed_member(
    alloc: Global,
    kept: Option<ReadMember>,
    item: &ViewItem,
) -> Result<ReadMember, AllocError>
    ensures { IfOk result (λ m. m ≡ member_of item.now) }
{
    match kept {
        Some(kept) if kept.is_read_from(item) => Ok(kept.again(item)),
        _ => ReadMember::read(alloc, item),
    }
}

/// The member of each item of a view. It takes those kept of an earlier view, if they were read from the same.
pub(crate) fn renewed_members(
    alloc: Global,
    kept: Items<ReadMember>,
    items: &[ViewItem],
) -> Result<Items<ReadMember>, AllocError>
    ensures { IfOk result (λ all. all ≡ members items.now) }
{
    let mut kept = kept.into_vec().into_iter();
    let mut all = with_room(alloc, items.len())?;
    for item in items {
        all.push(renewed_member(alloc, kept.next(), item)?)?;
    }
    Ok(all)
}

/// The member of each item of a view.
pub fn members(alloc: Global, items: &[ViewItem]) -> Result<Items<GraphMember>, AllocError>
    ensures { IfOk result (λ ms. ms ≡ members items.now) }
{
    let mut all = Items::new(alloc);
    for item in items {
        all.push(member_of(alloc, item)?)?;
    }
    Ok(all)
}

impl GraphMember {
    /// True if a name, which is that of an instance or that of a service, stands for it.
    pub(crate) fn is_cited_by(&self, is_instance: bool, entity: &Fmri) -> bool
        ensures { result ≡ cites_by is_instance entity.now self.now }
    {
        if is_instance {
            self.name.as_fmri() == entity
        } else {
            self.name.as_fmri().service() == entity.service()
        }
    }

    /// True if an entity stands for it.
    pub fn is_cited(&self, entity: &Fmri) -> bool
        ensures { result ≡ is_cited entity.now self.now }
    {
        self.is_cited_by(entity.instance().is_some(), entity)
    }

    /// Online or degraded.
    pub fn is_running(&self) -> bool
        ensures { result ≡ is_running self.now }
    {
        self.state.runs()
    }

    /// Disabled, or in maintenance.
    pub fn is_off(&self) -> bool
        ensures { result ≡ is_off self.now }
    {
        matches!(self.state, State::Disabled | State::Maintenance)
    }

    /// Not enabled, or in maintenance.
    pub fn is_idle(&self) -> bool
        ensures { result ≡ is_idle self.now }
    {
        !self.enabled || self.state == State::Maintenance
    }

    /// Enabled and offline, with nothing under way.
    pub fn is_waiting(&self) -> bool
        ensures { result ≡ is_waiting self.now }
    {
        self.enabled && self.state == State::Offline && self.next.is_none()
    }
}
