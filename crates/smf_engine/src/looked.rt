ghost use Rattle.std.specs.Prelude.{◌≡◌, ◌++◌, [], ℕ, IfOk, None, OnErr, OnOk, Some, false, map, true};
ghost use Rattle.smf_dep.specs.Members.{members};
ghost use Rattle.smf_engine.specs.Coverage.{AreAlikeBut, Covers, CoversBut, IsJudged, as_seen, number_put, order_for};
ghost use Rattle.smf_engine.specs.Orders.{order, orders};
ghost use Rattle.smf_fmri.specs.ByKey.{Rises, lookup};
ghost use Rattle.smf_state.specs.declared.view.ViewItem.{ViewItem as AnyItem};
ghost use Rattle.smf_state.specs.Patched.{by_item, with_items};

use crate::view_orders::{has_decision, order_with};
use smf_dep::Graph;
use smf_fmri::{Items, Ordered, SharedOrdered};
use smf_state::{ChangedItem, HeldView, View, ViewItem};
use smf_wire::Order;
use std::alloc::{AllocError, Global};
use std::marker::Model;

/// A view that was looked at: the graph of its instances, and those for which something may be ordered. The view that
/// is held may show something else of the instances that are stale.
#[derive(Drop)]
pub(crate) struct Looked {
    view: HeldView,
    graph: Graph,
    decided: Ordered<u64>,
    stale: Vec<u64>,
}

impl Model for Looked {
    ghost use Rattle.smf_engine.specs.Coverage.{IsLooked, LookedAt};

    ghost Value = { LookedAt };

    ghost view = { λ l. record { items = l.view.items; stale = l.stale.items } };

    ghost invariant = { λ l. IsLooked l.view l.graph l.decided };
}

/// True if something may be ordered for an instance.
fn may_order(
    alloc: Global,
    view: &HeldView,
    graph: &Graph,
    instance: u64,
) -> Result<bool, AllocError>
    requires { graph.now ≡ members view.now.items }
    ensures { IfOk result (λ b. b ≡ false → (i : AnyItem) → lookup by_item view.now.items instance ≡ Some i
        → (revision : ℕ) → order revision view.now.items i ≡ None) }
{
    let Some(item) = view.item(instance) else {
        return Ok(false);
    };
    let Some(place) = graph.place_of(instance) else {
        return Ok(false);
    };
    has_decision(alloc, graph, item, place)
}

/// Finds out if something may be ordered for an instance.
fn judge(
    alloc: Global,
    view: &HeldView,
    graph: &Graph,
    decided: &mut Ordered<u64>,
    instance: u64,
) -> Result<(), AllocError>
    requires { graph.now ≡ members view.now.items }
    ensures { OnOk result (IsJudged view.now.items instance decided.old decided.new) }
{
    if may_order(alloc, view, graph, instance)? {
        decided.put(instance)?;
    } else {
        decided.remove(&instance);
    }
    Ok(())
}

/// The same for each of these instances. For all others it is known.
fn judge_all(
    alloc: Global,
    view: &HeldView,
    graph: &Graph,
    decided: &mut Ordered<u64>,
    instances: &[u64],
) -> Result<(), AllocError>
    requires shown { graph.now ≡ members view.now.items }
    requires others { CoversBut instances.now view.now.items decided.old }
    ensures { OnOk result (Covers view.now.items decided.new) }
{
    for instance in instances {
        judge(alloc, view, graph, decided, *instance)?;
    }
    Ok(())
}

fn numbers_of(alloc: Global, items: &[ViewItem]) -> Result<Vec<u64>, AllocError>
    ensures { IfOk result (λ ns. ns.items ≡ map (λ i. i.instance) items.now) }
{
    let mut all = Vec::with_capacity(alloc, items.len())?;
    for item in items {
        all.push(item.instance)?;
    }
    Ok(all)
}

/// The instances for which something may be ordered, each of a view judged.
fn all_decided(alloc: Global, view: &HeldView, graph: &Graph) -> Result<Ordered<u64>, AllocError>
    requires { graph.now ≡ members view.now.items }
    ensures { IfOk result (λ ns. Covers view.now.items ns) }
{
    let mut decided = Ordered::new(alloc);
    let numbers = numbers_of(alloc, view.items())?;
    judge_all(alloc, view, graph, &mut decided, &numbers)?;
    Ok(decided)
}

fn number_put(change: &ChangedItem) -> u64
    ensures { result ≡ number_put change.now }
{
    match &change.item {
        None => change.instance,
        Some(item) => item.instance,
    }
}

/// Puts the numbers of what changes after others. If memory runs out, some may be missing.
pub(crate) fn push_numbers(all: &mut Vec<u64>, changes: &[ChangedItem]) -> Result<(), AllocError>
    ensures { OnOk result (all.new.items ≡ all.old.items ++ map number_put changes.now) }
{
    for change in changes {
        all.push(number_put(change))?;
    }
    Ok(())
}

fn item_at(view: &HeldView, instance: u64) -> Result<Option<ViewItem>, AllocError>
    ensures { IfOk result (λ i. i ≡ lookup by_item view.now.items instance) }
{
    match view.item(instance) {
        None => Ok(None),
        Some(item) => Ok(Some(item.clone()?)),
    }
}

/// The items of instances, as a view shows them.
fn items_of(
    alloc: Global,
    view: &HeldView,
    instances: &[u64],
) -> Result<Vec<ChangedItem>, AllocError>
    ensures { IfOk result (λ cs. cs.items ≡ map (as_seen view.now.items) instances.now) }
{
    let mut all = Vec::new(alloc);
    for instance in instances {
        let item = item_at(view, *instance)?;
        all.push(ChangedItem {
            instance: *instance,
            item,
        })?;
    }
    Ok(all)
}

/// A view of the same items.
fn copy_of(alloc: Global, view: &HeldView) -> Result<HeldView, AllocError>
    ensures { IfOk result (λ v. v ≡ view.now) }
{
    let items = view.items().to_vec(alloc)?;
    let items = SharedOrdered::of(alloc, Ordered::from_vec(items))?;
    Ok(HeldView::of(
        alloc,
        View {
            revision: view.revision(),
            items,
        },
    ))
}

/// The graph of a view. It does not read again what another graph read.
pub(crate) fn graph_of(
    alloc: Global,
    last: Option<Graph>,
    view: &HeldView,
) -> Result<Graph, AllocError>
    ensures { IfOk result (λ g. g ≡ members view.now.items) }
{
    match last {
        None => Graph::of(alloc, view.items()),
        Some(last) => last.successor(alloc, view.items()),
    }
}

impl Looked {
    /// Looks at a view as a whole. It does not read again what another graph read.
    pub(crate) fn of(
        alloc: Global,
        view: &HeldView,
        last: Option<Graph>,
    ) -> Result<Looked, AllocError>
        ensures items { IfOk result (λ l. l.items ≡ view.now.items) }
        ensures stale { IfOk result (λ l. l.stale ≡ []) }
    {
        let view = copy_of(alloc, view)?;
        let graph = graph_of(alloc, last, &view)?;
        let decided = all_decided(alloc, &view, &graph)?;
        Ok(Looked {
            view,
            graph,
            decided,
            stale: Vec::new(alloc),
        })
    }

    /// The graph alone.
    pub(crate) fn into_graph(self) -> Graph {
        self.graph
    }

    /// True if the view that is held shows what was looked at.
    pub(crate) fn is_fresh(&self) -> bool
        ensures fresh { result ≡ true → self.now.stale ≡ [] }
        ensures rises { Rises by_item self.now.items }
    {
        let _items = self.view.items();
        self.stale.is_empty()
    }

    /// The view that is held shows something else of these instances. If memory runs out, nothing is noted.
    pub(crate) fn note(&mut self, alloc: Global, changes: &[ChangedItem]) -> Result<(), AllocError>
        ensures items { OnOk result (self.new.items ≡ self.old.items) }
        ensures stale { OnOk result (self.new.stale ≡ self.old.stale ++ map number_put changes.now) }
        ensures err { OnErr result (self.new ≡ self.old) }
    {
        let mut numbers = Vec::with_capacity(alloc, changes.len())?;
        push_numbers(&mut numbers, changes)?;
        self.stale.append(&mut numbers)
    }

    /// Looks at items that changed, and at no others.
    fn with(self, alloc: Global, to: u64, changes: &[ChangedItem]) -> Result<Looked, AllocError>
        ensures items { IfOk result (λ l. l.items ≡ with_items changes.now self.items) }
        ensures stale { IfOk result (λ l. l.stale ≡ []) }
    {
        let Looked {
            mut view,
            mut graph,
            mut decided,
            ..
        } = self;
        view.patch(alloc, to, changes)?;
        let mut touched = graph.update(alloc, changes)?.into_vec();
        push_numbers(&mut touched, changes)?;
        judge_all(alloc, &view, &graph, &mut decided, &touched)?;
        Ok(Looked {
            view,
            graph,
            decided,
            stale: Vec::new(alloc),
        })
    }

    /// Looks at what is stale.
    pub(crate) fn up_to(self, alloc: Global, seen: &HeldView) -> Result<Looked, AllocError>
        requires { AreAlikeBut self.stale self.items seen.now.items }
        ensures items { IfOk result (λ l. l.items ≡ seen.now.items) }
        ensures stale { IfOk result (λ l. l.stale ≡ []) }
    {
        let _shown = seen.items();
        if self.is_fresh() {
            return Ok(self);
        }
        let changes = items_of(alloc, seen, &self.stale)?;
        self.with(alloc, seen.revision(), &changes)
    }

    /// Looks at items that the view that is held does not show yet.
    pub(crate) fn ahead(
        self,
        alloc: Global,
        to: u64,
        changes: &[ChangedItem],
    ) -> Result<Looked, AllocError>
        ensures items { IfOk result (λ l. l.items ≡ with_items changes.now self.items) }
        ensures stale { IfOk result (λ l. l.stale ≡ map number_put changes.now) }
    {
        let mut looked = self.with(alloc, to, changes)?;
        looked.note(alloc, changes)?;
        Ok(looked)
    }

    /// The order for an instance of the view that was looked at.
    pub(crate) fn order_for(
        &self,
        alloc: Global,
        revision: u64,
        instance: u64,
    ) -> Result<Option<Order>, AllocError>
        ensures { IfOk result (λ o. o ≡ order_for revision self.now.items instance) }
    {
        let Some(item) = self.view.item(instance) else {
            return Ok(None);
        };
        let Some(place) = self.graph.place_of(instance) else {
            return Ok(None);
        };
        order_with(alloc, revision, &self.graph, item, place)
    }

    /// All orders of the view that was looked at, in number order.
    pub(crate) fn orders(&self, alloc: Global, revision: u64) -> Result<Items<Order>, AllocError>
        ensures { IfOk result (λ os. os ≡ orders revision self.now.items) }
    {
        let _shown = self.view.items();
        let mut all = Vec::new(alloc);
        for instance in self.decided.as_slice() {
            if let Some(order) = self.order_for(alloc, revision, *instance)? {
                all.push(order)?;
            }
        }
        Ok(Items::from_vec(all))
    }
}
