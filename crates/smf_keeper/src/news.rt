// What is heard of contracts between looks at them.
use smf_room::{LiveRoom, Room};
use std::alloc::Global;

/// So many contracts are noted. If there is news of more, it is as if there were some of all.
const MOST_NOTED: usize = 64;

/// News of contracts. It is asked for once in a round: each contract is asked about at most once in it.
#[derive(Drop)]
pub(crate) struct News {
    /// Contracts of which there is news, and that were not looked at since.
    ids: Vec<u64>,
    round: u64,
    /// The last round in which there was news of all.
    of_all: u64,
}

impl News {
    pub(crate) fn new(alloc: Global) -> News {
        News {
            ids: Vec::new(alloc),
            round: 1,
            of_all: 0,
        }
    }

    /// Gives the round in which it is asked about a contract. If this is the one in which it was asked about it last, a new
    /// one begins.
    pub(crate) fn ask<R: Room + Drop>(&mut self, room: &LiveRoom<R>, asked_in: u64) -> u64 {
        if asked_in == self.round {
            self.round = self.round.saturating_add(1);
            if room.news(&mut self.ids) || self.ids.len() > MOST_NOTED {
                self.ids.clear();
                self.of_all = self.round;
            }
        }
        self.round
    }

    /// True if there is news of a contract since the round in which it was looked at.
    pub(crate) fn is_of(&self, id: u64, looked_in: u64) -> bool {
        looked_in < self.of_all || self.ids.contains(&id)
    }

    /// A contract is looked at now. Gives the round.
    pub(crate) fn look(&mut self, id: u64) -> u64 {
        self.ids.retain(|noted| *noted != id);
        self.round
    }
}
