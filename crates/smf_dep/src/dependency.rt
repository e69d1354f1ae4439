ghost use Rattle.std.specs.Prelude.{◌≡◌, IfOk, true};

use smf_fmri::{Fmri, Items};
use smf_links::{Grouping, RestartOn};
use std::alloc::AllocError;

/// The dependency that a dependency group asks for.
#[derive(Drop)]
pub struct Dependency {
    pub grouping: Grouping,
    pub restart_on: RestartOn,
    /// Names of instances, and of services, which stand for each of their instances that is there.
    pub entities: Items<Fmri>,
}

#[tactic(auto, using(smf_state::proofs::Copies::same_items))]
fn copy_of(entities: &Items<Fmri>) -> Result<Items<Fmri>, AllocError>
    ensures { IfOk result (λ copy. copy ≡ entities.now) }
{
    entities.clone()
}

impl Clone for Dependency {
    ghost is_clone = { λ s copy. copy ≡ s };

    fn clone(&self) -> Result<Dependency, AllocError> {
        let entities = copy_of(&self.entities)?;
        Ok(Dependency {
            grouping: self.grouping,
            restart_on: self.restart_on,
            entities,
        })
    }
}

fn are_same_names(names: &[Fmri], others: &[Fmri]) -> bool
    ensures { result ≡ true → names.now ≡ others.now }
{
    names == others
}

fn is_same(dependency: &Dependency, other: &Dependency) -> bool
    ensures { result ≡ true → dependency.now ≡ other.now }
{
    dependency.grouping == other.grouping
        && dependency.restart_on == other.restart_on
        && are_same_names(dependency.entities.as_slice(), other.entities.as_slice())
}

/// True if the one list asks for what the other does.
pub(crate) fn are_same(dependencies: &[Dependency], others: &[Dependency]) -> bool
    ensures { result ≡ true → dependencies.now ≡ others.now }
{
    if dependencies.len() != others.len() {
        return false;
    }
    let mut place = 0;
    for other in others {
        if !is_same(&dependencies[place], other) {
            return false;
        }
        place += 1;
    }
    true
}
