ghost use Rattle.std.specs.Prelude.{◌≡◌, IfOk, None, OnErr, OnOk, Some, [], find, map, option_map};
ghost use Rattle.smf_engine.specs.Coverage.{IsBeside, IsKept, IsNoted, number_put};
ghost use Rattle.smf_engine.specs.Orders.{order_by_view, has_no_orders, is_about, is_none_left, newer, order_in, orders, orders_seen, question, with_changes};
ghost use Rattle.smf_state.specs.declared.view.View.{View as AnyView};
ghost use Rattle.smf_state.specs.Patched.{view_after_changes};

use crate::looked::{Looked, graph_of};
use crate::view_orders::{has_no_orders_by, order_of, orders};
use smf_dep::Graph;
use smf_fmri::Items;
use smf_state::{ChangedItem, HeldView, View};
use smf_wire::{Message, Order, ViewChanges};
use std::alloc::{AllocError, Global};
use std::marker::Model;

/// svc.startd's graph, which contracts see as the view that it holds.
pub struct Engine {
    seen: Option<HeldView>,
    /// The view that was looked at last, from which that one differs in few instances.
    looked: Option<Looked>,
    /// The graph of an older view. It saves reading instances again, and has no other use.
    last: Option<Graph>,
}

/// Crates above call this, and prove nothing of the parts that go.
impl Drop for Engine {
    fn drop(self) {
        let Engine {
            seen: _seen,
            looked: _looked,
            last: _last,
        } = self;
    }
}

impl Model for Engine {
    ghost use Rattle.std.specs.Prelude.{Option};
    ghost use Rattle.smf_engine.specs.Coverage.{IsBeside};
    ghost use Rattle.smf_state.specs.declared.view.View.{View as AnyView};

    ghost Value = { Option AnyView };

    ghost view = { λ e. e.seen };

    ghost invariant = { λ e. IsBeside e.seen e.looked };
}

/// The graph of the view that was looked at, or else the last graph.
fn graph_left(looked: Option<Looked>, last: Option<Graph>) -> Option<Graph> {
    match looked {
        None => last,
        Some(looked) => Some(looked.into_graph()),
    }
}

/// Notes what changed in the view that is held. If memory runs out, nothing is noted.
fn note(
    alloc: Global,
    looked: &mut Option<Looked>,
    changes: &[ChangedItem],
) -> Result<(), AllocError>
    ensures ok { OnOk result (IsNoted looked.old (map number_put changes.now) looked.new) }
    ensures err { OnErr result (looked.new ≡ looked.old) }
{
    match looked {
        None => Ok(()),
        Some(kept) => kept.note(alloc, changes),
    }
}

/// Brings a view up to date, and notes what changed. If memory runs out the view is as it was, and so is what was looked
/// at.
fn take_in(
    alloc: Global,
    held: &mut HeldView,
    looked: &mut Option<Looked>,
    changes: &ViewChanges,
) -> Result<(), AllocError>
    requires { IsBeside (Some held.old) looked.old }
    ensures ok { OnOk result (held.new ≡ view_after_changes held.old changes.now.to changes.now.items) }
    ensures err { OnErr result (held.new ≡ held.old) }
    ensures beside { IsBeside (Some held.new) looked.new }
    ensures kept { OnErr result (IsKept looked.old looked.new) }
{
    let items = changes.items.as_slice();
    note(alloc, looked, items)?;
    held.patch(alloc, changes.to, items)
}

/// Looks at a view, of which most may have been looked at already.
fn look_at(
    alloc: Global,
    seen: &HeldView,
    looked: Option<Looked>,
    last: Option<Graph>,
) -> Result<Looked, AllocError>
    requires { IsBeside (Some seen.now) looked }
    ensures items { IfOk result (λ l. l.items ≡ seen.now.items) }
    ensures stale { IfOk result (λ l. l.stale ≡ []) }
{
    match looked {
        None => Looked::of(alloc, seen, last),
        Some(looked) => looked.up_to(alloc, seen),
    }
}

/// All orders of a view, by what was looked at if that is the same.
fn orders_of_seen(
    alloc: Global,
    seen: &HeldView,
    looked: &Option<Looked>,
) -> Result<Items<Order>, AllocError>
    requires { IsBeside (Some seen.now) looked.now }
    ensures { IfOk result (λ os. os ≡ orders seen.now.revision seen.now.items) }
{
    let items = seen.items();
    match looked {
        Some(looked) if looked.is_fresh() => looked.orders(alloc, seen.revision()),
        _ => orders(alloc, seen.revision(), items),
    }
}

/// The order for one instance of a view, by what was looked at if that is the same.
fn order_of_seen(
    alloc: Global,
    seen: &HeldView,
    looked: &Option<Looked>,
    instance: u64,
) -> Result<Option<Order>, AllocError>
    requires { IsBeside (Some seen.now) looked.now }
    ensures { IfOk result
        (λ o. o ≡ order_in seen.now.revision seen.now.items (find (is_about instance) seen.now.items)) }
{
    let items = seen.items();
    match looked {
        Some(looked) if looked.is_fresh() => looked.order_for(alloc, seen.revision(), instance),
        _ => order_of(alloc, seen.revision(), items, instance),
    }
}

fn is_none_left(orders: &[Order]) -> bool
    ensures { result ≡ is_none_left orders.now }
{
    match orders.first() {
        None => true,
        Some(_) => false,
    }
}

impl Engine {
    /// A graph that holds no view, and so orders nothing.
    pub fn new() -> Engine
        ensures { result ≡ None }
    {
        Engine {
            seen: None,
            looked: None,
            last: None,
        }
    }

    /// Drops the view. It keeps what was read of instances, so that it need not be read again.
    pub fn forget(&mut self)
        ensures { self.new ≡ None }
    {
        self.last = graph_left(self.looked.take(), self.last.take());
        self.seen = None;
    }

    /// Takes the first view, and then each of a greater revision than that of the one held. It drops any other.
    pub fn take_view(&mut self, alloc: Global, view: View)
        ensures { self.new ≡ newer self.old view }
    {
        match &self.seen {
            Some(held) if held.revision() >= view.revision => {}
            _ => {
                self.last = graph_left(self.looked.take(), self.last.take());
                self.seen = Some(HeldView::of(alloc, view));
            }
        }
    }

    /// Brings the view that is held up to date, if the changes begin with its revision and do not end below it. It
    /// ignores any others. If memory runs out the view is as it was.
    pub fn take_changes(&mut self, alloc: Global, changes: &ViewChanges) -> Result<(), AllocError>
        ensures ok { OnOk result (self.new ≡ with_changes self.old changes.now) }
        ensures err { OnErr result (self.new ≡ self.old) }
    {
        match &mut self.seen {
            Some(held) if held.revision() == changes.from && changes.from <= changes.to => {
                take_in(alloc, held, &mut self.looked, changes)
            }
            _ => Ok(()),
        }
    }

    /// The graph's question to the repository: for the view, or for what changed since the one that it holds.
    pub fn question(&self) -> Message
        ensures { result ≡ question self.now }
    {
        match &self.seen {
            None => Message::AskView,
            Some(held) => Message::AskChange(held.revision()),
        }
    }

    /// Looks at what changed of the view that is held, so that its orders are found without a look at the others. If
    /// memory runs out, it looks at all the next time.
    pub fn look(&mut self, alloc: Global) -> Result<(), AllocError>
        ensures { self.new ≡ self.old }
    {
        let Some(seen) = &self.seen else {
            return Ok(());
        };
        let looked = look_at(alloc, seen, self.looked.take(), self.last.take())?;
        self.looked = Some(looked);
        Ok(())
    }

    /// The order for one instance, by the view that is held. It takes the whole view into account.
    pub fn decide(&self, alloc: Global, instance: u64) -> Result<Option<Order>, AllocError>
        ensures { IfOk result (λ o. o ≡ order_by_view self.now instance) }
    {
        match &self.seen {
            None => Ok(None),
            Some(seen) => order_of_seen(alloc, seen, &self.looked, instance),
        }
    }

    /// All orders of the view that is held, in number order. After `look` the others are not looked at.
    pub fn decide_all(&self, alloc: Global) -> Result<Items<Order>, AllocError>
        ensures { IfOk result (λ os. os ≡ orders_seen self.now) }
    {
        match &self.seen {
            None => Ok(Items::new(alloc)),
            Some(seen) => orders_of_seen(alloc, seen, &self.looked),
        }
    }

    /// True if nothing would be ordered of a view, whatever view is held. It looks at all of it.
    pub fn orders_nothing(&mut self, alloc: Global, view: &HeldView) -> Result<bool, AllocError>
        ensures same { self.new ≡ self.old }
        ensures nothing { IfOk result (λ b. b ≡ has_no_orders view.now) }
    {
        let last = graph_left(self.looked.take(), self.last.take());
        let graph = graph_of(alloc, last, view)?;
        let is_nothing = has_no_orders_by(alloc, view.revision(), &graph, view.items())?;
        self.last = Some(graph);
        Ok(is_nothing)
    }

    /// The revision of the view that is held.
    pub fn revision(&self) -> Option<u64>
        ensures { result ≡ option_map (λ v. v.revision) self.now }
    {
        match &self.seen {
            None => None,
            Some(seen) => Some(seen.revision()),
        }
    }

    /// True if nothing would be ordered of the view that is held once these changes are made. It looks at what changed.
    pub fn would_order_nothing(
        &mut self,
        alloc: Global,
        to: u64,
        changes: &[ChangedItem],
    ) -> Result<bool, AllocError>
        ensures same { self.new ≡ self.old }
        ensures nothing { IfOk result (λ b. (v : AnyView) → self.old ≡ Some v
            → b ≡ has_no_orders (view_after_changes v to changes.now)) }
    {
        let Some(seen) = &self.seen else {
            return Ok(true);
        };
        let looked = look_at(alloc, seen, self.looked.take(), self.last.take())?;
        let looked = looked.ahead(alloc, to, changes)?;
        let orders = looked.orders(alloc, to)?;
        self.looked = Some(looked);
        Ok(is_none_left(orders.as_slice()))
    }
}
