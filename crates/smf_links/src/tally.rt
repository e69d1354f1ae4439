//! How many of a link's entities run, are parked, are off and are settled.

ghost use Rattle.std.specs.List.{list_all, list_any};
ghost use Rattle.std.specs.Prelude.{◌≡◌, ◌+◌, ◌<◌, ◌^◌, if◌then◌else◌, slice_set, count_by};
ghost use Rattle.smf_links.specs.Tallies.{entities_block, entities_meet, off, is_parked_entity, runs, is_settled_entity};
ghost use Rattle.smf_links.specs.Wires.{put_in};

use crate::grouping::Grouping;
use std::marker::Model;

/// An entity, by the places that it stands for.
#[derive(Clone, Copy)]
pub struct Entity {
    pub runs: bool,
    pub parked: bool,
    pub off: bool,
    pub settled: bool,
}

/// The entities of a link, and how many of them run, are parked, are off and are settled.
#[derive(Drop)]
pub struct Tally {
    entities: Vec<Entity>,
    run: usize,
    park: usize,
    off: usize,
    settle: usize,
}

impl Model for Tally {
    ghost use Rattle.std.specs.Prelude.{List};
    ghost use Rattle.smf_links.specs.declared.tally.Entity.{Entity};
    ghost use Rattle.smf_links.specs.Tallies.{AreCounted};

    ghost Value = { List Entity };

    ghost view = { λ t. t.entities.items };

    ghost invariant = { λ t. AreCounted t.entities.items t.run t.park t.off t.settle };
}

/// The tallies of the links of an instance.
#[derive(Drop)]
pub struct NodeTallies {
    tallies: Vec<Tally>,
}

impl Model for NodeTallies {
    ghost use Rattle.std.specs.Prelude.{List};
    ghost use Rattle.smf_links.specs.declared.tally.Entity.{Entity};

    ghost Value = { List (List Entity) };

    ghost view = { λ t. t.tallies.items };
}

/// A count, after one of those that are counted changed.
fn count_after_change(count: usize, was: bool, is: bool) -> usize
    requires some { (if was then 1 else 0) < count + 1 }
    requires small { count < 2 ^ 63 }
    ensures { result + (if was then 1 else 0) ≡ count + (if is then 1 else 0) }
{
    if was == is {
        return count;
    }
    if is { count + 1 } else { count - 1 }
}

fn count_running(entities: &[Entity]) -> usize
    ensures { result ≡ count_by runs entities.now }
{
    entities.iter().filter(|e| e.runs).count()
}

fn count_parked(entities: &[Entity]) -> usize
    ensures { result ≡ count_by is_parked_entity entities.now }
{
    entities.iter().filter(|e| e.parked).count()
}

fn count_off(entities: &[Entity]) -> usize
    ensures { result ≡ count_by off entities.now }
{
    entities.iter().filter(|e| e.off).count()
}

fn count_settled(entities: &[Entity]) -> usize
    ensures { result ≡ count_by is_settled_entity entities.now }
{
    entities.iter().filter(|e| e.settled).count()
}

impl Tally {
    pub fn of(entities: Vec<Entity>) -> Tally
        ensures { result ≡ entities.items }
    {
        let run = count_running(entities.as_slice());
        let park = count_parked(entities.as_slice());
        let off = count_off(entities.as_slice());
        let settle = count_settled(entities.as_slice());
        Tally {
            entities,
            run,
            park,
            off,
            settle,
        }
    }

    /// Replaces the entity at a place, if there is one.
    pub fn set(&mut self, place: usize, entity: Entity)
        ensures { self.new ≡ slice_set self.old place entity }
    {
        if place < self.entities.len() {
            let was = self.entities[place];
            self.run = count_after_change(self.run, was.runs, entity.runs);
            self.park = count_after_change(self.park, was.parked, entity.parked);
            self.off = count_after_change(self.off, was.off, entity.off);
            self.settle = count_after_change(self.settle, was.settled, entity.settled);
            self.entities[place] = entity;
        }
    }

    fn all_run(&self) -> bool
        ensures { result ≡ list_all runs self.now }
    {
        self.run == self.entities.len()
    }

    fn any_runs(&self) -> bool
        ensures { result ≡ list_any runs self.now }
    {
        self.run != 0
    }

    fn any_parked(&self) -> bool
        ensures { result ≡ list_any is_parked_entity self.now }
    {
        self.park != 0
    }

    fn all_parked(&self) -> bool
        ensures { result ≡ list_all is_parked_entity self.now }
    {
        self.park == self.entities.len()
    }

    fn all_off(&self) -> bool
        ensures { result ≡ list_all off self.now }
    {
        self.off == self.entities.len()
    }

    fn all_settled(&self) -> bool
        ensures { result ≡ list_all is_settled_entity self.now }
    {
        self.settle == self.entities.len()
    }

    /// True if the link is blocked. It takes a few steps.
    pub fn is_blocked(&self, grouping: Grouping) -> bool
        ensures { result ≡ entities_block grouping self.now }
    {
        match grouping {
            Grouping::RequireAll => !self.all_run() && self.any_parked(),
            Grouping::RequireAny => !self.any_runs() && self.all_parked(),
            Grouping::OptionalAll => false,
            Grouping::ExcludeAll => !self.all_off() && self.any_runs(),
        }
    }

    /// True if the link is met. It takes a few steps.
    pub fn is_met(&self, grouping: Grouping) -> bool
        ensures { result ≡ entities_meet grouping self.now }
    {
        match grouping {
            Grouping::RequireAll => self.all_run(),
            Grouping::RequireAny => self.any_runs(),
            Grouping::OptionalAll => self.all_settled(),
            Grouping::ExcludeAll => self.all_off(),
        }
    }
}

impl NodeTallies {
    pub fn of(tallies: Vec<Tally>) -> NodeTallies
        ensures { result ≡ tallies.items }
    {
        NodeTallies { tallies }
    }

    pub fn as_slice(&self) -> &[Tally]
        ensures { result.now ≡ self.now }
    {
        self.tallies.as_slice()
    }

    /// Replaces an entity of a link, if there is one.
    pub fn set(&mut self, link: usize, place: usize, entity: Entity)
        ensures { self.new ≡ put_in self.old link place entity }
    {
        if link < self.tallies.len() {
            self.tallies[link].set(place, entity);
        }
    }
}
