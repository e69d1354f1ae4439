ghost use Rattle.smf_node.specs.declared.fault.NodeFault.TheVariants.{Memory};
ghost use Rattle.smf_node.specs.Marks.{last_delivered, progress_of};
ghost use Rattle.smf_node.specs.Runs.{RepeatFails, RepeatsUntilFault};
ghost use Rattle.smf_past.specs.Begun.{IsSafeSince};
ghost use Rattle.smf_world.specs.Schedule.{delivered_again, progress_with_loss, lost_place};
ghost use Rattle.std.specs.Prelude.{◌≡◌, ◌++◌, drop, filter, nat_lt, option_to_list, reverse, take, IfErr, IfOk, OnErr, OnOk};

use crate::fault::NodeFault;
use crate::node::Node;
use smf_model::Journal;
use smf_world::Event;
use std::alloc::{AllocError, Global};

/// The greatest count of messages, after which none is sent.
const PAST: u64 = 0x8000_0000_0000_0000;

/// The place of the message that is lost.
fn lost_place(sent: u64, count: u64) -> Option<u64>
    ensures { result ≡ lost_place sent count }
{
    let behind = sent.checked_add(count)?;
    if count > 0 && behind < PAST {
        Some(behind - 1)
    } else {
        None
    }
}

/// The places below this one.
fn places_below(alloc: Global, lost: &[u64], sent: u64) -> Result<Vec<u64>, AllocError>
    ensures { IfOk result (λ all. all.items ≡ filter (λ place. nat_lt place sent) lost.now) }
{
    let mut all = Vec::new(alloc);
    for place in lost {
        if *place < sent {
            all.push(*place)?;
        }
    }
    Ok(all)
}

/// The places of the messages that are lost: those that were sent, and one that is to be.
fn all_lost(alloc: Global, lost: &[u64], sent: u64, count: u64) -> Result<Vec<u64>, AllocError>
    ensures { IfOk result (λ all. all.items ≡
        filter (λ place. nat_lt place sent) lost.now ++ option_to_list (lost_place sent count)) }
{
    let mut all = places_below(alloc, lost, sent)?;
    match lost_place(sent, count) {
        None => Ok(all),
        Some(place) => {
            all.push(place)?;
            Ok(all)
        }
    }
}

/// The places after the first so many.
fn behind(places: &[u64], skipped: usize) -> &[u64]
    ensures { result.now ≡ drop skipped places.now }
{
    if skipped <= places.len() {
        &places[skipped..]
    } else {
        &[]
    }
}

fn copy_of_places(alloc: Global, places: &[u64]) -> Result<Vec<u64>, AllocError>
    ensures { IfOk result (λ all. all.items ≡ places.now) }
{
    let mut all = Vec::new(alloc);
    for place in places {
        all.push(*place)?;
    }
    Ok(all)
}

fn last(alloc: Global, delivered: &[u64], count: u64) -> Result<Vec<u64>, AllocError>
    ensures { IfOk result (λ all. all.items ≡ reverse (take count (reverse delivered.now))) }
{
    let skipped = (delivered.len() as u64).saturating_sub(count) as usize;
    let all = copy_of_places(alloc, behind(delivered, skipped))?;
    Ok(all)
}

impl<J: Journal> Node<J> {
    /// Loses one of the messages that are sent from now on: the one of this number, or none for 0. It replaces an
    /// earlier request.
    #[tactic(auto, unfolding(crate::specs::Marks::progress_of, smf_world::specs::Schedule::progress_with_loss))]
    pub fn lose(&mut self, count: u64) -> Result<(), NodeFault>
        ensures ok { OnOk result (self.new ≡ progress_with_loss count self.old) }
        ensures err { OnErr result (self.new ≡ self.old) }
        ensures fault { IfErr result (λ e. e ≡ Memory) }
    {
        let sent = self.sent_count();
        self.marks.lost = all_lost(self.alloc, &self.marks.lost, sent, count)?;
        Ok(())
    }

    /// The places of the last messages that were delivered, the oldest of them first.
    #[tactic(auto, unfolding(crate::specs::Marks::progress_of, crate::specs::Marks::last_delivered))]
    fn last_delivered(&self, count: u64) -> Result<Vec<u64>, AllocError>
        ensures { IfOk result (λ all. all.items ≡ last_delivered count self.now) }
    {
        last(self.alloc, &self.marks.delivered, count)
    }

    fn repeat(&mut self, places: &[u64]) -> Result<(), NodeFault>
        ensures ok { OnOk result (self.new ≡ delivered_again places.now self.old) }
        ensures err { IfErr result (λ e. RepeatsUntilFault J.write_fails self.old places.now self.new e) }
    {
        for place in places {
            self.goes(Event::Deliver(*place))?;
        }
        Ok(())
    }

    fn repeat_last(&mut self, count: u64) -> Result<(), NodeFault>
        ensures ok { OnOk result (self.new ≡ delivered_again (last_delivered count self.old) self.old) }
        ensures err { IfErr result
            (λ e. RepeatFails J.write_fails self.old (last_delivered count self.old) self.new e) }
    {
        let places = self.last_delivered(count)?;
        self.repeat(&places)
    }

    /// The last messages that were delivered are delivered again, in their order. A fault ends it.
    pub fn again(&mut self, count: u64) -> Result<(), NodeFault>
        ensures ok { OnOk result (self.new ≡ delivered_again (last_delivered count self.old) self.old) }
        ensures safe { IsSafeSince self.new.world }
        ensures err { IfErr result
            (λ e. RepeatFails J.write_fails self.old (last_delivered count self.old) self.new e) }
    {
        let result = self.repeat_last(count);
        let _shown = self.trail();
        result
    }
}
