use crate::item::Item;
use smf_contract::ContractCall;
use smf_fmri::{InstanceFmri, Items};
use smf_model::{Command, CommandReply};
use smf_state::View;
use smf_wire::{Message, ViewChanges};

/// A change of the launched restarters.
#[derive(Drop)]
pub enum Becomes {
    /// A launched one knows more.
    Knows {
        name: InstanceFmri,
        change: smf_restarter::KnowledgeChange,
    },
    Launched {
        name: InstanceFmri,
        /// The holder that its contracts name.
        actor: u64,
        launch: u64,
    },
    Gone(InstanceFmri),
    NoneLeft,
}

/// The work of an event, found before anything changes.
#[derive(Drop)]
pub struct Work {
    /// The changes of the repository.
    pub changes: Items<smf_model::Change>,
    /// The command that was accepted, if one was.
    pub command: Items<Command>,
    /// The reply to the command, if one was given.
    pub reply: Items<CommandReply>,
    /// The items of the trail, in order.
    pub items: Items<Item>,
    /// The messages that are sent, in order.
    pub messages: Items<Message>,
    pub becomes: Items<Becomes>,
    /// The views that are shown to the graph.
    pub seen: Items<View>,
    /// The changes of the view that the graph holds.
    pub patches: Items<ViewChanges>,
    /// True if the graph drops the view that it holds.
    pub forgets: bool,
    /// The call on the contracts.
    pub call: ContractCall,
}
