ghost use Rattle.std.specs.Option.{option_copied};
ghost use Rattle.std.specs.Prelude.{◌≡◌, ◌++◌, IfOk, IfSome, None, OnOk, Some, find, flat_map, if◌then◌else◌, length, nat_lt, slice_get};
ghost use Rattle.smf_dep.specs.Members.{member_of, members};
ghost use Rattle.smf_dep.specs.Verdicts.{is_met};
ghost use Rattle.smf_engine.specs.Orders.{is_about, with_changes};
ghost use Rattle.smf_provenance.specs.Groups.{at, cited_as, cited_by, cited_for, cited_if, last_stop, says_met};

use crate::evidence::Cited;
use smf_dep::{Dependency, Graph, GraphMember, Verdict};
use smf_fmri::{Fmri, Items};
use smf_state::{HeldView, View, ViewItem};
use smf_wire::ViewChanges;
use std::alloc::{AllocError, Global};
use std::marker::Model;

/// A view with its graph, which contracts see as the view.
pub struct Scene {
    view: HeldView,
    graph: Graph,
}

/// Crates above call this, and prove nothing of the parts that go.
impl Drop for Scene {
    fn drop(self) {
        let Scene {
            view: _view,
            graph: _graph,
        } = self;
    }
}

impl Model for Scene {
    ghost use Rattle.std.specs.Prelude.{◌≡◌};
    ghost use Rattle.smf_dep.specs.Members.{members};
    ghost use Rattle.smf_state.specs.declared.view.View.{View as AnyView};

    ghost Value = { AnyView };

    ghost view = { λ s. s.view };

    ghost invariant = { λ s. s.graph ≡ members s.view.items };
}

/// An item of a view, with its place.
#[derive(Clone, Copy)]
pub(crate) struct Placed<'a> {
    pub(crate) place: usize,
    pub(crate) item: &'a ViewItem,
}

/// The item of an instance.
pub(crate) fn find_item(items: &[ViewItem], instance: u64) -> Option<Placed<'_>>
    ensures there { IfSome result (λ p. slice_get items.now p.place ≡ Some p.item.now) }
    ensures found { IfSome result (λ p. find (is_about instance) items.now ≡ Some p.item.now) }
    ensures none { result ≡ None → find (is_about instance) items.now ≡ None }
{
    for (place, item) in items.iter().enumerate() {
        if item.instance == instance {
            return Some(Placed { place, item });
        }
    }
    None
}

fn says_met(verdict: Verdict) -> bool
    ensures { result ≡ says_met verdict }
{
    match verdict {
        Verdict::Met => true,
        Verdict::Waiting => false,
        Verdict::Blocked => false,
    }
}

#[tactic(auto, using(crate::proofs::Told::met_is))]
fn is_met(alloc: Global, graph: &Graph, dependency: &Dependency) -> Result<bool, AllocError>
    ensures { IfOk result (λ b. b ≡ is_met graph.now dependency.now) }
{
    let verdict = graph.verdict(alloc, dependency)?;
    Ok(says_met(verdict))
}

fn last_stop(member: &GraphMember) -> u64
    ensures { result ≡ last_stop member.now }
{
    if member.err < member.stop {
        member.stop
    } else {
        member.err
    }
}

fn cited_as(member: &GraphMember) -> Result<Cited, AllocError>
    ensures { IfOk result (λ cited. cited ≡ cited_as member.now) }
{
    let since = if member.is_running() {
        member.start
    } else {
        last_stop(member)
    };
    let name = member.name.clone()?;
    Ok(Cited {
        name,
        state: member.state,
        since,
    })
}

/// Puts an instance, if there is one and the entity stands for it.
fn put_if_cited(
    member: Option<&GraphMember>,
    entity: &Fmri,
    all: &mut Items<Cited>,
) -> Result<(), AllocError>
    ensures { OnOk result (all.new ≡ all.old ++ at (cited_if entity.now) (option_copied member.entry)) }
{
    match member {
        None => Ok(()),
        Some(member) => {
            if member.is_cited(entity) {
                all.push(cited_as(member)?)
            } else {
                Ok(())
            }
        }
    }
}

impl Scene {
    /// The scene of a view as it came.
    pub fn of(alloc: Global, view: View) -> Result<Scene, AllocError>
        ensures { IfOk result (λ s. s ≡ view) }
    {
        let graph = Graph::of(alloc, view.items.as_slice())?;
        let view = HeldView::of(alloc, view);
        Ok(Scene { view, graph })
    }

    /// The scene after changes, if they go on from it.
    #[tactic(auto, unfolding(smf_state::specs::Patched::view_after_changes))]
    pub fn after(self, alloc: Global, changes: &ViewChanges) -> Result<Scene, AllocError>
        ensures { IfOk result (λ s. Some s ≡ with_changes (Some self) changes.now) }
    {
        if self.view.revision() != changes.from || changes.to < changes.from {
            return Ok(self);
        }
        let Scene {
            mut view,
            mut graph,
        } = self;
        let items = changes.items.as_slice();
        let _touched = graph.update(alloc, items)?;
        view.patch(alloc, changes.to, items)?;
        Ok(Scene { view, graph })
    }

    /// The revision of the view.
    pub fn revision(&self) -> u64
        ensures { result ≡ self.now.revision }
    {
        self.view.revision()
    }

    pub(crate) fn items(&self) -> &[ViewItem]
        ensures { result.now ≡ self.now.items }
    {
        self.view.items()
    }

    /// The instance at a place, as verdicts look at it.
    pub(crate) fn member(&self, place: usize) -> Option<&GraphMember>
        ensures { option_copied result ≡ slice_get (members self.now.items) place }
    {
        match self.graph.member(place) {
            None => None,
            Some(read) => Some(read.member()),
        }
    }

    /// The instance of an item at a place.
    #[tactic(auto, using(crate::proofs::Places::placed_member))]
    pub(crate) fn member_at(&self, place: usize, item: &ViewItem) -> &GraphMember
        requires { slice_get self.now.items place ≡ Some item.now }
        ensures { result.now ≡ member_of item.now }
    {
        let Some(member) = self.member(place) else {
            unreachable!()
        };
        member
    }

    pub(crate) fn is_met(&self, alloc: Global, dependency: &Dependency) -> Result<bool, AllocError>
        ensures { IfOk result (λ b. b ≡ is_met (members self.now.items) dependency.now) }
    {
        is_met(alloc, &self.graph, dependency)
    }

    /// How many instances there are.
    pub(crate) fn count(&self) -> usize
        ensures { result ≡ length (members self.now.items) }
    {
        self.items().len()
    }

    /// Puts the instances that an entity stands for.
    fn put_cited(&self, entity: &Fmri, all: &mut Items<Cited>) -> Result<(), AllocError>
        ensures { OnOk result (all.new ≡ all.old ++ cited_for (members self.now.items) entity.now) }
    {
        for place in 0..self.count() {
            put_if_cited(self.member(place), entity, all)?;
        }
        Ok(())
    }

    /// The instances that the entities of a dependency stand for.
    pub(crate) fn cited_by(
        &self,
        alloc: Global,
        dependency: &Dependency,
    ) -> Result<Items<Cited>, AllocError>
        ensures { IfOk result (λ all. all ≡ cited_by (members self.now.items) dependency.now) }
    {
        let mut all = Items::new(alloc);
        for entity in dependency.entities.as_slice() {
            self.put_cited(entity, &mut all)?;
        }
        Ok(all)
    }
}
