ghost use Rattle.smf_snap.specs.Body.{IsSnapshot, decoded_snapshot, spelled_both, spelled_snapshot};
ghost use Rattle.smf_snap.specs.declared.body.SnapshotBody.{SnapshotBody as AnySnapshot};
ghost use Rattle.smf_value.specs.Body.{AreGroups};
ghost use Rattle.smf_value.specs.Decoder.{Gives};
ghost use Rattle.std.specs.Prelude.{◌≡◌, IfOk, Ok};

use smf_fmri::{Bytes, Ordered};
use smf_value::{BodyFault, Group, decode, decode_first, encode};
use std::alloc::{AllocError, Global};

/// The groups that a snapshot holds of an instance and of its service.
#[derive(Drop)]
pub struct SnapshotBody {
    pub service: Ordered<Group>,
    pub instance: Ordered<Group>,
}

/// The bytes of a snapshot: the service's body, and then the instance's.
pub fn encode_snapshot(alloc: Global, snapshot: &SnapshotBody) -> Result<Bytes, AllocError>
    ensures spelled { IfOk result (λ b. b ≡ spelled_snapshot snapshot.now) }
    ensures formed { IfOk result (λ _. IsSnapshot snapshot.now) }
{
    encode_both(alloc, &snapshot.service, &snapshot.instance)
}

/// The bytes of the snapshot that holds these groups of a service and of its instance.
pub fn encode_both(
    alloc: Global,
    service: &Ordered<Group>,
    instance: &Ordered<Group>,
) -> Result<Bytes, AllocError>
    ensures spelled { IfOk result (λ b. b ≡ spelled_both service.now instance.now) }
    ensures formed { IfOk result (λ _. AreGroups service.now × AreGroups instance.now) }
{
    let mut bytes = encode(alloc, service)?.to_vec(alloc)?;
    let instance = encode(alloc, instance)?;
    bytes.extend_from_slice(instance.as_slice())?;
    Bytes::from_vec(alloc, bytes)
}

/// The snapshot of such bytes. A place is counted from the start of the first body.
pub fn decode_snapshot(alloc: Global, bytes: &[u8]) -> Result<SnapshotBody, BodyFault>
    ensures found { IfOk result (λ s. IsSnapshot s × (bytes.now ≡ spelled_snapshot s)) }
    ensures only { (s : AnySnapshot) → IsSnapshot s → bytes.now ≡ spelled_snapshot s → Gives (λ x. x) result (Ok s) }
    ensures exact { Gives (λ x. x) result (decoded_snapshot bytes.now) }
{
    decode_snapshot_exact(alloc, bytes)
}

#[tactic(auto, unfolding(crate::specs::Body::decoded_snapshot))]
fn decode_snapshot_exact(alloc: Global, bytes: &[u8]) -> Result<SnapshotBody, BodyFault>
    ensures { Gives (λ x. x) result (decoded_snapshot bytes.now) }
{
    let (service, rest) = match decode_first(alloc, bytes) {
        Ok(found) => found,
        Err(fault) => return Err(fault),
    };
    match decode(alloc, rest) {
        Ok(instance) => Ok(SnapshotBody { service, instance }),
        Err(BodyFault::Memory) => Err(BodyFault::Memory),
        Err(BodyFault::BadBody(place)) => {
            Err(BodyFault::BadBody(bytes.len() - rest.len() + place))
        }
    }
}
