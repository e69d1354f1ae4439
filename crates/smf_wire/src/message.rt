ghost use Rattle.std.specs.Prelude.{◌≡◌, IfOk};
ghost use Rattle.smf_wire.specs.declared.message.Message.TheVariants.{Ack, Nack};

use crate::order::Order;
use smf_fmri::{InstanceFmri, Items};
use smf_state::{ChangedItem, Proposal, SharedRow, View, Why};
use std::alloc::AllocError;

/// An instance as a restarter knows it.
#[derive(Drop)]
pub struct Known {
    pub instance: u64,
    pub name: InstanceFmri,
    pub row: SharedRow,
}

/// The changes of what svc.startd's graph sees, from one revision to another.
#[derive(Drop)]
pub struct ViewChanges {
    pub from: u64,
    pub to: u64,
    /// The instances whose items are other than they were, in number order.
    pub items: Items<ChangedItem>,
}

/// A message that one actor sends to another. Launches and serials are those of the restarter that is named.
#[derive(Drop)]
pub enum Message {
    /// A restarter asks for the rows that it owns.
    Join {
        name: InstanceFmri,
        launch: u64,
    },
    /// The rows of a restarter, in number order.
    Rows {
        name: InstanceFmri,
        launch: u64,
        rows: Items<Known>,
    },
    /// A restarter proposes a step.
    Propose(Proposal),
    /// A proposal was granted: the row that it led to.
    Ack {
        name: InstanceFmri,
        launch: u64,
        serial: u64,
        instance: u64,
        row: SharedRow,
    },
    /// A proposal was refused: why, and the row as it is, if the instance is there.
    Nack {
        name: InstanceFmri,
        launch: u64,
        serial: u64,
        instance: u64,
        why: Why,
        row: Option<SharedRow>,
    },
    /// The graph asks what the repository holds.
    AskView,
    /// The repository shows what it holds.
    View(View),
    /// The graph, which holds the view of a revision, asks what changed since.
    AskChange(u64),
    /// The repository tells what changed.
    Changes(ViewChanges),
    Order(Order),
}

impl Clone for Known {
    ghost is_clone = { λ s copy. copy ≡ s };

    fn clone(&self) -> Result<Known, AllocError> {
        let name = self.name.clone()?;
        let row = self.row.clone()?;
        Ok(Known {
            instance: self.instance,
            name,
            row,
        })
    }
}

#[tactic(auto, using(smf_state::proofs::Copies::same_items))]
fn copy_of_changes(items: &Items<ChangedItem>) -> Result<Items<ChangedItem>, AllocError>
    ensures { IfOk result (λ copy. copy ≡ items.now) }
{
    items.clone()
}

impl Clone for ViewChanges {
    ghost is_clone = { λ s copy. copy ≡ s };

    fn clone(&self) -> Result<ViewChanges, AllocError> {
        let items = copy_of_changes(&self.items)?;
        Ok(ViewChanges {
            from: self.from,
            to: self.to,
            items,
        })
    }
}

#[tactic(auto, using(smf_state::proofs::Copies::same_items))]
fn copy_of_rows(rows: &Items<Known>) -> Result<Items<Known>, AllocError>
    ensures { IfOk result (λ copy. copy ≡ rows.now) }
{
    rows.clone()
}

fn copy_of_row(row: &Option<SharedRow>) -> Result<Option<SharedRow>, AllocError>
    ensures { IfOk result (λ copy. copy ≡ row.now) }
{
    match row {
        None => Ok(None),
        Some(row) => Ok(Some(row.clone()?)),
    }
}

fn copy_of_ack(
    name: &InstanceFmri,
    launch: u64,
    serial: u64,
    instance: u64,
    row: &SharedRow,
) -> Result<Message, AllocError>
    ensures { IfOk result (λ copy. copy ≡ Ack name.now launch serial instance row.now) }
{
    let name = name.clone()?;
    let row = row.clone()?;
    Ok(Message::Ack {
        name,
        launch,
        serial,
        instance,
        row,
    })
}

fn copy_of_nack(
    name: &InstanceFmri,
    launch: u64,
    serial: u64,
    instance: u64,
    why: Why,
    row: &Option<SharedRow>,
) -> Result<Message, AllocError>
    ensures { IfOk result (λ copy. copy ≡ Nack name.now launch serial instance why row.now) }
{
    let name = name.clone()?;
    let row = copy_of_row(row)?;
    Ok(Message::Nack {
        name,
        launch,
        serial,
        instance,
        why,
        row,
    })
}

impl Clone for Message {
    ghost is_clone = { λ s copy. copy ≡ s };

    fn clone(&self) -> Result<Message, AllocError> {
        match self {
            Message::Join { name, launch } => Ok(Message::Join {
                name: name.clone()?,
                launch: *launch,
            }),
            Message::Rows { name, launch, rows } => Ok(Message::Rows {
                name: name.clone()?,
                launch: *launch,
                rows: copy_of_rows(rows)?,
            }),
            Message::Propose(proposal) => Ok(Message::Propose(proposal.clone()?)),
            Message::Ack {
                name,
                launch,
                serial,
                instance,
                row,
            } => copy_of_ack(name, *launch, *serial, *instance, row),
            Message::Nack {
                name,
                launch,
                serial,
                instance,
                why,
                row,
            } => copy_of_nack(name, *launch, *serial, *instance, *why, row),
            Message::AskView => Ok(Message::AskView),
            Message::View(view) => Ok(Message::View(view.clone()?)),
            Message::AskChange(revision) => Ok(Message::AskChange(*revision)),
            Message::Changes(changes) => Ok(Message::Changes(changes.clone()?)),
            Message::Order(order) => Ok(Message::Order(order.clone()?)),
        }
    }
}
