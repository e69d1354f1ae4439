//! What an instance requires, and whether it goes.

ghost use Rattle.std.specs.List.{list_any};
ghost use Rattle.std.specs.Prelude.{◌≡◌, ◌&&◌};
ghost use Rattle.smf_dep.specs.Verdicts.{is_cited};
ghost use Rattle.smf_stops.specs.Stops.{excludes, is_going, requires, requires_by};

use smf_dep::{Dependency, GraphMember, Grouping};
use smf_fmri::Fmri;

/// True if it runs, or a transition of it is under way.
#[tactic(auto, unfolding(crate::specs::Stops::is_going))]
pub(crate) fn is_going(member: &GraphMember) -> bool
    ensures { result ≡ is_going member.now }
{
    member.is_running() || member.next.is_some()
}

/// True if an instance may go on without those that a dependency names.
fn excludes(grouping: Grouping) -> bool
    ensures { result ≡ excludes grouping }
{
    match grouping {
        Grouping::RequireAll => false,
        Grouping::RequireAny => false,
        Grouping::OptionalAll => false,
        Grouping::ExcludeAll => true,
    }
}

fn is_named(other: &GraphMember, entities: &[Fmri]) -> bool
    ensures { result ≡ list_any (λ entity. is_cited entity other.now) entities.now }
{
    entities.iter().any(|entity| other.is_cited(entity))
}

fn requires_by(other: &GraphMember, dependency: &Dependency) -> bool
    ensures { result ≡ requires_by other.now dependency.now }
{
    if excludes(dependency.grouping) {
        return false;
    }
    is_named(other, dependency.entities.as_slice())
}

fn any_requires(other: &GraphMember, dependencies: &[Dependency]) -> bool
    ensures { result ≡ list_any (requires_by other.now) dependencies.now }
{
    dependencies
        .iter()
        .any(|dependency| requires_by(other, dependency))
}

/// True if an instance requires another one.
fn is_required(member: &GraphMember, other: &GraphMember) -> bool
    ensures { result ≡ requires member.now other.now }
{
    if member.instance == other.instance {
        return false;
    }
    match &member.dependencies {
        None => false,
        Some(dependencies) => any_requires(other, dependencies.as_slice()),
    }
}

/// True if an instance goes and requires another one.
pub(crate) fn holds(member: &GraphMember, other: &GraphMember) -> bool
    ensures { result ≡ (is_going member.now && requires member.now other.now) }
{
    is_going(member) && is_required(member, other)
}
