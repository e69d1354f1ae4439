//! The node: the machine, and the schedule by which its actors act. It takes events one by one, or lets them happen in
//! rounds until nothing is left to do.
//! Modules: `fault`; `found_contracts` (with which a node goes on); `marks` (the marks and counts of a schedule);
//! `name_order` (restarters in order); `node` (the node and what it shows); `events` (what may happen, and happens);
//! `deeds` (what a schedule does one at a time); `turns` (the deeds of a turn); `runners` (what those who run methods
//! answer and tell); `rounds` (turns and rounds); `requests` (what is asked of a schedule); `client` (a node as a client
//! of the repository).
#![tactic(auto)]

mod client;
mod deeds;
mod events;
mod fault;
mod found_contracts;
mod marks;
mod name_order;
mod node;
mod requests;
mod rounds;
mod runners;
mod turns;

pub use client::edits_are_events;
pub use fault::{ContinueFault, NodeFault};
pub use node::Node;
pub use runners::MAX_POLLS;
