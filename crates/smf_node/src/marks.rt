ghost use Rattle.smf_node.specs.Marks.{is_told, progress_of, remaining_progress};
ghost use Rattle.smf_past.specs.Remains.{remains};
ghost use Rattle.smf_contract.specs.Entries.{has_members};
ghost use Rattle.smf_world.specs.Schedule.{begun_at, has_key, has_other_key, mark_heard, progress_with_mark};
ghost use Rattle.smf_world.specs.declared.event.Event.TheVariants as events;
ghost use Rattle.smf_world.specs.World.{World as AnyWorld};
ghost use Rattle.std.specs.List.{list_all, list_any};
ghost use Rattle.std.specs.Prelude.{◌≡◌, ◌<◌, ◌++◌, [], filter, length, Bool, vec_capacity, vec_len, OnErr, OnOk};

use smf_contract::{ContractEvent, ContractTable};
use smf_world::{Event, EventKey};
use std::alloc::{AllocError, Global};

/// The marks that a schedule keeps.
#[derive(Drop)]
pub struct Marks {
    /// The places of the messages that were delivered, the newest last.
    pub(crate) delivered: Vec<u64>,
    /// Those of them that were delivered before their turn.
    pub(crate) early: Vec<u64>,
    /// The place of the next message in the order of sending.
    pub(crate) next: u64,
    /// The places of the messages that are lost.
    pub(crate) lost: Vec<u64>,
    /// How many spawns are still to be refused.
    pub(crate) refuse: u64,
    /// How many events of the contract table were looked at.
    pub(crate) looked: usize,
    /// Those of them that no holder has heard.
    pub(crate) unheard: Vec<ContractEvent>,
    /// Events that a holder heard before they were looked at.
    pub(crate) heard: Vec<EventKey>,
}

/// True if an event has this contract and this number.
pub(crate) fn has_key(key: &EventKey, event: &ContractEvent) -> bool
    ensures { result ≡ has_key key.now event.now }
{
    event.contract == key.contract && event.number == key.number
}

fn is_among(key: &EventKey, events: &[ContractEvent]) -> bool
    ensures { result ≡ list_any (has_key key.now) events.now }
{
    events.iter().any(|event| has_key(key, event))
}

/// Takes the event of this number out of others.
pub(crate) fn take_out(key: &EventKey, events: &mut Vec<ContractEvent>)
    ensures { events.new.items ≡ filter (has_other_key key.now) events.old.items }
{
    events.retain(|event| !has_key(key, event));
}

/// True if the contract of each event has members.
fn have_members(table: &ContractTable, events: &[ContractEvent]) -> bool
    ensures { result ≡ list_all (λ e. has_members e.contract table.now.table.members) events.now }
{
    events.iter().all(|event| table.has_members(event.contract))
}

impl Marks {
    /// Nothing was delivered yet.
    #[tactic(auto, unfolding(crate::specs::Marks::progress_of))]
    pub(crate) fn new(alloc: Global) -> Marks
        ensures { (w : AnyWorld) → progress_of w result ≡ begun_at w }
    {
        Marks {
            delivered: Vec::new(alloc),
            early: Vec::new(alloc),
            next: 0,
            lost: Vec::new(alloc),
            refuse: 0,
            looked: 0,
            unheard: Vec::new(alloc),
            heard: Vec::new(alloc),
        }
    }

    /// True if each message was delivered in its turn, none is still to be lost, all events were looked at, and those that
    /// nobody has heard are of contracts that have members.
    #[tactic(auto, unfolding(crate::specs::Marks::progress_of, crate::specs::Marks::is_told))]
    pub(crate) fn are_told(&self, sent: usize, table: &ContractTable) -> bool
        ensures { (w : AnyWorld) → length w.sent ≡ sent → w.table ≡ table.now.table
            → is_told (progress_of w self.now) ≡ result }
    {
        sent as u64 <= self.next
            && self.lost.is_empty()
            && self.looked == table.events().len()
            && have_members(table, &self.unheard)
    }

    /// The marks of messages go, with the messages. So many events of contracts are left.
    #[tactic(auto, unfolding(crate::specs::Marks::progress_of))]
    pub(crate) fn forget(&mut self, looked: usize)
        ensures { (w : AnyWorld) → length (remains w).table.events ≡ looked
            → progress_of (remains w) self.new ≡ remaining_progress (progress_of w self.old) }
    {
        self.delivered.clear();
        self.early.clear();
        self.next = 0;
        self.lost.clear();
        self.looked = looked;
    }

    /// Makes room for the marks of one more event.
    #[tactic(auto, unfolding(crate::specs::Marks::progress_of))]
    pub(crate) fn reserve(&mut self) -> Result<(), AllocError>
        ensures kept { (w : AnyWorld) → progress_of w self.new ≡ progress_of w self.old }
        ensures delivered { OnOk result (vec_len self.new.delivered < vec_capacity self.new.delivered) }
        ensures early { OnOk result (vec_len self.new.early < vec_capacity self.new.early) }
        ensures heard { OnOk result (vec_len self.new.heard < vec_capacity self.new.heard) }
    {
        self.delivered.reserve(1)?;
        self.early.reserve(1)?;
        self.heard.reserve(1)?;
        Ok(())
    }

    /// A message was delivered.
    #[tactic(auto, unfolding(crate::specs::Marks::progress_of))]
    fn deliver(&mut self, place: u64)
        requires delivered { vec_len self.old.delivered < vec_capacity self.old.delivered }
        requires early { vec_len self.old.early < vec_capacity self.old.early }
        ensures { (w : AnyWorld) → (heard new : Bool)
            → progress_of w self.new ≡ progress_with_mark (events.Deliver place) heard new (progress_of w self.old) }
    {
        self.delivered.push(place).unwrap();
        if place >= self.next {
            self.early.push(place).unwrap();
        }
    }

    /// A holder heard the event of a contract.
    #[tactic(auto, unfolding(crate::specs::Marks::progress_of))]
    fn hear(&mut self, key: EventKey)
        requires { vec_len self.old.heard < vec_capacity self.old.heard }
        ensures { (w : AnyWorld) → progress_of w self.new
            ≡ mark_heard (list_any (has_key key) (progress_of w self.old).unheard) key (progress_of w self.old) }
    {
        if is_among(&key, &self.unheard) {
            take_out(&key, &mut self.unheard);
        } else {
            self.heard.push(key).unwrap();
        }
    }

    /// The contracts are gone.
    #[tactic(auto, unfolding(crate::specs::Marks::progress_of))]
    fn boot(&mut self)
        ensures { (w : AnyWorld) → progress_of w self.new
            ≡ record (progress_of w self.old) { looked = 0; unheard = []; heard = [] } }
    {
        self.looked = 0;
        self.unheard.clear();
        self.heard.clear();
    }

    /// Marks an event that has happened. `is_heard` says whether a holder heard a report, and `is_new` whether a
    /// revision was made.
    #[tactic(auto, unfolding(crate::specs::Marks::progress_of))]
    pub(crate) fn mark(&mut self, event: &Event, is_heard: bool, is_new: bool)
        requires delivered { vec_len self.old.delivered < vec_capacity self.old.delivered }
        requires early { vec_len self.old.early < vec_capacity self.old.early }
        requires heard { vec_len self.old.heard < vec_capacity self.old.heard }
        ensures { (w : AnyWorld) → progress_of w self.new
            ≡ progress_with_mark event.now is_heard is_new (progress_of w self.old) }
    {
        match event {
            Event::Deliver(place) => self.deliver(*place),
            Event::Report { contract, number } => {
                if is_heard {
                    self.hear(EventKey {
                        contract: *contract,
                        number: *number,
                    });
                }
            }
            Event::Boot => {
                if is_new {
                    self.boot();
                }
            }
            Event::Client(_) => {}
            Event::Ask => {}
            Event::Orders => {}
            Event::OwnTick(_) => {}
            Event::Tick { .. } => {}
            Event::Process { .. } => {}
            Event::Timeout { .. } => {}
            Event::Crash(_) => {}
            Event::Launch(_) => {}
        }
    }

    /// So many events were looked at, and these came.
    #[tactic(auto, unfolding(crate::specs::Marks::progress_of))]
    pub(crate) fn look(
        &mut self,
        looked: usize,
        mut news: Vec<ContractEvent>,
    ) -> Result<(), AllocError>
        ensures ok { (w : AnyWorld)
            → OnOk result
            (progress_of w self.new
            ≡ record (progress_of w self.old) {
              looked = looked;
              unheard = (progress_of w self.old).unheard ++ news.items;
              heard = [];
            }) }
        ensures err { (w : AnyWorld) → OnErr result (progress_of w self.new ≡ progress_of w self.old) }
    {
        self.unheard.reserve(news.len())?;
        self.unheard.append(&mut news).unwrap();
        self.looked = looked;
        self.heard.clear();
        Ok(())
    }
}
