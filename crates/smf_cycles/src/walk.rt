//! A walk through a graph in depth first order, which finds its components. Its answers are only hints.

use crate::graph::{edges_of, number_at, set_number};
use crate::places::Places;
use std::alloc::{AllocError, Global};

/// A place that the walk is at, and which of its edges it follows next.
#[derive(Clone, Copy)]
struct Step {
    place: usize,
    next: usize,
}

/// Numbers count from 1, and 0 stands for none yet.
#[derive(Drop)]
pub(crate) struct Walk {
    // The places in the order in which the walk came to them.
    begun: Vec<usize>,
    // The places in the order in which the walk left them.
    done: Vec<usize>,
    // For each place, its number in the order in which the walk came to them.
    numbers: Vec<usize>,
    // For each place, the lowest number that the walk found from it on, in its component.
    lows: Vec<usize>,
    // For each place, the place that has that lowest number.
    targets: Vec<usize>,
    // For each place, the place by which the walk came into its component.
    roots: Vec<usize>,
    // For each place, the number of its component, which is above those of the components that it leads to.
    ranks: Vec<usize>,
    count: usize,
    // The places whose component is not known yet.
    open: Vec<usize>,
    steps: Vec<Step>,
}

impl Walk {
    pub(crate) fn new(alloc: Global, count: usize) -> Result<Self, AllocError> {
        Ok(Walk {
            begun: Vec::new(alloc),
            done: Vec::new(alloc),
            numbers: vec![in alloc; 0; count]?,
            lows: vec![in alloc; 0; count]?,
            targets: vec![in alloc; 0; count]?,
            roots: vec![in alloc; 0; count]?,
            ranks: vec![in alloc; 0; count]?,
            count: 0,
            open: Vec::new(alloc),
            steps: Vec::new(alloc),
        })
    }

    pub(crate) fn entry_order(&self) -> &[usize] {
        self.begun.as_slice()
    }

    pub(crate) fn exit_order(&self) -> &[usize] {
        self.done.as_slice()
    }

    pub(crate) fn targets(&self) -> &[usize] {
        self.targets.as_slice()
    }

    pub(crate) fn roots(&self) -> &[usize] {
        self.roots.as_slice()
    }

    pub(crate) fn into_ranks(self) -> Vec<usize> {
        self.ranks
    }

    fn begin(&mut self, place: usize) -> Result<(), AllocError> {
        self.begun.push(place)?;
        let number = self.begun.len();
        set_number(&mut self.numbers, place, number);
        set_number(&mut self.lows, place, number);
        self.open.push(place)?;
        self.steps.push(Step { place, next: 0 })?;
        Ok(())
    }

    fn lower(&mut self, place: usize, low: usize) {
        if low < number_at(&self.lows, place) {
            set_number(&mut self.lows, place, low);
        }
    }

    fn follow(&mut self, from: usize, to: usize) -> Result<(), AllocError> {
        if to >= self.numbers.len() {
            return Ok(());
        }
        let number = number_at(&self.numbers, to);
        if number == 0 {
            self.begin(to)?;
        } else if number_at(&self.ranks, to) == 0 {
            self.lower(from, number);
        }
        Ok(())
    }

    /// Takes the component of a place off the open ones.
    fn close(&mut self, root: usize) {
        self.count = self.count.saturating_add(1);
        while let Some(place) = self.open.pop() {
            set_number(&mut self.ranks, place, self.count);
            set_number(&mut self.roots, place, root);
            if place == root {
                break;
            }
        }
    }

    fn leave(&mut self, place: usize) -> Result<(), AllocError> {
        self.done.push(place)?;
        let low = number_at(&self.lows, place);
        let target = number_at(&self.begun, low.saturating_sub(1));
        set_number(&mut self.targets, place, target);
        if low == number_at(&self.numbers, place) {
            self.close(place);
        } else if let Some(step) = self.steps.last() {
            let from = step.place;
            self.lower(from, low);
        }
        Ok(())
    }

    /// Follows the next edge of the place that the walk is at. Gives false if there is no such place.
    fn advance(&mut self, edges: &[Places]) -> Result<bool, AllocError> {
        let Some(Step { place, next }) = self.steps.pop() else {
            return Ok(false);
        };
        match edges_of(edges, place).get(next) {
            Some(to) => {
                self.steps.push(Step {
                    place,
                    next: next.saturating_add(1),
                })?;
                self.follow(place, *to)?;
            }
            None => self.leave(place)?,
        }
        Ok(true)
    }

    fn visit(&mut self, edges: &[Places], place: usize) -> Result<(), AllocError> {
        self.begin(place)?;
        for _ in 0..u64::MAX {
            if !self.advance(edges)? {
                break;
            }
        }
        Ok(())
    }

    pub(crate) fn run(&mut self, edges: &[Places]) -> Result<(), AllocError> {
        for place in 0..edges.len() {
            if number_at(&self.numbers, place) == 0 {
                self.visit(edges, place)?;
            }
        }
        Ok(())
    }
}
