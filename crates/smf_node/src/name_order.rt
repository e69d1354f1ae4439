ghost use Rattle.smf_fmri.specs.ByKey.{list_with_item, put_all};
ghost use Rattle.smf_state.specs.OwnName.{startd as the_startd};
ghost use Rattle.smf_world.specs.Schedule.{by_name, in_order};
ghost use Rattle.std.specs.Cmp.Lexicographic.{pointwise};
ghost use Rattle.std.specs.Prelude.{◌≡◌, ◌∷◌, ◌++◌, [], filter, map, nat_eq, not, refl, IfOk, OnOk};

use smf_fmri::{InstanceFmri, Keyed, Ordered};
use smf_model::Instance;
use smf_restarter::Restarter;
use smf_state::startd;
use std::alloc::{AllocError, Global};
use std::marker::Model;

/// The name of a restarter, by which it is put in byte order.
#[derive(Drop)]
pub(crate) struct Named {
    name: InstanceFmri,
}

impl Model for Named {
    ghost use Rattle.std.specs.Prelude.{List, ℕ};

    ghost Value = { List ℕ };

    ghost view = { λ n. n.name };
}

impl Keyed for Named {
    type Key = InstanceFmri;

    ghost by = { by_name };

    fn key(&self) -> &InstanceFmri {
        &self.name
    }

    ghost same = { refl };
}

fn put_name(names: &mut Ordered<Named>, name: &InstanceFmri) -> Result<(), AllocError>
    ensures { OnOk result (names.new ≡ list_with_item by_name name.now names.old) }
{
    let name = name.clone()?;
    names.put(Named { name })
}

/// The owners of rows, in byte order.
fn owners(alloc: Global, instances: &[Instance]) -> Result<Ordered<Named>, AllocError>
    ensures { IfOk result (λ all. all ≡ put_all by_name (map (λ i. i.row.owner) instances.now) []) }
{
    let mut names = Ordered::new(alloc);
    for instance in instances {
        put_name(&mut names, &instance.row.owner)?;
    }
    Ok(names)
}

/// The names of restarters, in byte order.
fn names(alloc: Global, restarters: &[Restarter]) -> Result<Ordered<Named>, AllocError>
    ensures { IfOk result (λ all. all ≡ put_all by_name (map (λ k. k.name) (map (λ k. k.known) restarters.now)) []) }
{
    let mut names = Ordered::new(alloc);
    for restarter in restarters {
        put_name(&mut names, restarter.name())?;
    }
    Ok(names)
}

/// Adds copies of the names but one after others.
fn push_others(
    all: &mut Vec<InstanceFmri>,
    names: &[Named],
    first: &InstanceFmri,
) -> Result<(), AllocError>
    ensures { OnOk result
        (all.new.items ≡ all.old.items ++ filter (λ name. not (pointwise nat_eq name first.now)) names.now) }
{
    for named in names {
        if named.name != *first {
            all.push(named.name.clone()?)?;
        }
    }
    Ok(())
}

/// svc.startd's own first, and then the others.
fn behind_startd(alloc: Global, names: &[Named]) -> Result<Vec<InstanceFmri>, AllocError>
    ensures { IfOk result
        (λ all. all.items ≡ the_startd ∷ filter (λ name. not (pointwise nat_eq name the_startd)) names.now) }
{
    let first = startd(alloc)?;
    let mut all = Vec::new(alloc);
    all.push(first.clone()?)?;
    push_others(&mut all, names, &first)?;
    Ok(all)
}

/// The owners of rows: svc.startd's own first, and then the others in byte order.
pub(crate) fn owners_in_order(
    alloc: Global,
    instances: &[Instance],
) -> Result<Vec<InstanceFmri>, AllocError>
    ensures { IfOk result (λ all. all.items ≡ in_order (map (λ i. i.row.owner) instances.now)) }
{
    let names = owners(alloc, instances)?;
    behind_startd(alloc, names.as_slice())
}

/// The names of restarters: svc.startd's own first, and then the others in byte order.
pub(crate) fn names_in_order(
    alloc: Global,
    restarters: &[Restarter],
) -> Result<Vec<InstanceFmri>, AllocError>
    ensures { IfOk result (λ all. all.items ≡ in_order (map (λ k. k.name) (map (λ k. k.known) restarters.now))) }
{
    let names = names(alloc, restarters)?;
    behind_startd(alloc, names.as_slice())
}
