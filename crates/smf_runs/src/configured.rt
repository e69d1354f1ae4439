//! The view that svc.startd's graph would have if each instance was refreshed.

ghost use Rattle.std.specs.Prelude.{◌≡◌, IfOk, Some, map, option_map};
ghost use Rattle.smf_fmri.specs.ByKey.{Rises};
ghost use Rattle.smf_model.specs.declared.held.Instance.{Instance as AnyInstance};
ghost use Rattle.smf_model.specs.Contents.{Holdings};
ghost use Rattle.smf_model.specs.Look.{instance};
ghost use Rattle.smf_model.specs.Next.{current_instance, snapshot_of};
ghost use Rattle.smf_model.specs.Shown.{body_of as body_of_snapshot};
ghost use Rattle.smf_runs.specs.Reasons.{body_of, view_after_refresh, item_after_refresh};
ghost use Rattle.smf_runs.specs.Unrefreshed.{taken_of};
ghost use Rattle.smf_state.specs.Patched.{by_item};

use smf_fmri::{Bytes, Ordered, SharedOrdered};
use smf_model::{Instance, Journal, Owner, Plain};
use smf_snap::{encode_both, take};
use smf_state::{View, ViewItem};
use smf_value::Group;
use std::alloc::{AllocError, Global};

/// The groups of an owner that a snapshot would keep today.
pub(crate) fn taken_of<J: Journal>(
    alloc: Global,
    repository: &Plain<J>,
    owner: &Owner,
) -> Result<Ordered<Group>, AllocError>
    ensures { IfOk result (λ groups. groups ≡ taken_of repository.now.held owner.now) }
{
    let groups = repository.groups(owner)?;
    take(alloc, &groups)
}

/// The bytes of a snapshot that an instance would have.
fn body_of<J: Journal>(
    alloc: Global,
    repository: &Plain<J>,
    instance: &Instance,
) -> Result<Bytes, AllocError>
    ensures { IfOk result (λ body. body ≡ body_of repository.now.held instance.now) }
{
    let service = instance.name.as_fmri().service_fmri(alloc)?;
    let service = taken_of(alloc, repository, &Owner::Service(service))?;
    let own = taken_of(alloc, repository, &Owner::Instance(instance.number))?;
    encode_both(alloc, &service, &own)
}

fn body_at<J: Journal>(
    alloc: Global,
    repository: &Plain<J>,
    number: u64,
) -> Result<Option<Bytes>, AllocError>
    ensures { IfOk result
        (λ body. body ≡ option_map (body_of repository.now.held) (current_instance repository.now.held number)) }
{
    match repository.instance(number)? {
        None => Ok(None),
        Some(instance) => {
            let body = body_of(alloc, repository, &instance)?;
            Ok(Some(body))
        }
    }
}

/// An item as a refresh would make it.
fn item_after_refresh<J: Journal>(
    alloc: Global,
    repository: &Plain<J>,
    item: &ViewItem,
) -> Result<ViewItem, AllocError>
    ensures { IfOk result (λ i. i ≡ item_after_refresh repository.now.held item.now) }
{
    let body = body_at(alloc, repository, item.instance)?;
    let mut item = item.clone()?;
    item.body = body;
    Ok(item)
}

fn all_refreshed<J: Journal>(
    alloc: Global,
    repository: &Plain<J>,
    items: &[ViewItem],
) -> Result<Ordered<ViewItem>, AllocError>
    requires { Rises by_item items.now }
    ensures { IfOk result (λ all. all ≡ map (item_after_refresh repository.now.held) items.now) }
{
    let mut all = Vec::new(alloc);
    for item in items {
        all.push(item_after_refresh(alloc, repository, item)?)?;
    }
    Ok(Ordered::from_vec(all))
}

/// The view that the graph would have if each instance was refreshed.
#[tactic(auto, unfolding(crate::specs::Reasons::view_after_refresh))]
pub(crate) fn view_after_refresh<J: Journal>(
    alloc: Global,
    repository: &Plain<J>,
) -> Result<View, AllocError>
    ensures { IfOk result (λ view. view ≡ view_after_refresh repository.now.held) }
{
    let view = repository.view()?;
    let items = all_refreshed(alloc, repository, view.items.as_slice())?;
    let items = SharedOrdered::of(alloc, items)?;
    Ok(View {
        revision: view.revision,
        items,
    })
}

/// A check looks at the bytes of the snapshot that a refresh would take.
pub fn a_check_sees_what_a_refresh_takes()
    ensures { (h : Holdings) (i : AnyInstance) → instance h i.number ≡ Some i
        → body_of h i ≡ body_of_snapshot (snapshot_of h i) }
{}
