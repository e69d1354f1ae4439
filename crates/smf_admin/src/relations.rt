ghost use Rattle.std.specs.List.{list_any};
ghost use Rattle.std.specs.Prelude.{◌≡◌};
ghost use Rattle.smf_dep.specs.Verdicts.{is_cited};
ghost use Rattle.smf_admin.specs.Relations.{any_cites, depends, depends_by, is_related};

use crate::list_options::Relation;
use smf_dep::{Dependency, GraphMember};
use smf_fmri::Fmri;

fn any_cites(entities: &[Fmri], member: &GraphMember) -> bool
    ensures { result ≡ any_cites member.now entities.now }
{
    entities.iter().any(|entity| member.is_cited(entity))
}

fn depends_by(dependencies: &[Dependency], on: &GraphMember) -> bool
    ensures { result ≡ list_any (depends_by on.now) dependencies.now }
{
    dependencies
        .iter()
        .any(|dependency| any_cites(dependency.entities.as_slice(), on))
}

/// True if an instance depends on another, by any group.
fn depends(member: &GraphMember, on: &GraphMember) -> bool
    ensures { result ≡ depends member.now on.now }
{
    match &member.dependencies {
        None => false,
        Some(dependencies) => depends_by(dependencies.as_slice(), on),
    }
}

fn is_dependency(chosen: &[GraphMember], member: &GraphMember) -> bool
    ensures { result ≡ list_any (λ c. depends c member.now) chosen.now }
{
    chosen.iter().any(|one| depends(one, member))
}

fn is_dependent(chosen: &[GraphMember], member: &GraphMember) -> bool
    ensures { result ≡ list_any (λ c. depends member.now c) chosen.now }
{
    chosen.iter().any(|one| depends(member, one))
}

/// True if an instance has this relation to one of those that were chosen.
pub(crate) fn is_related(relation: Relation, chosen: &[GraphMember], member: &GraphMember) -> bool
    ensures { result ≡ is_related relation chosen.now member.now }
{
    match relation {
        Relation::Dependencies => is_dependency(chosen, member),
        Relation::Dependents => is_dependent(chosen, member),
    }
}
