ghost use Rattle.std.specs.Prelude.{◌≡◌, ℕ, List, Err};
ghost use Rattle.smf_value.specs.declared.fault.BodyFault.{BodyFault as AnyBodyFault};
ghost use Rattle.smf_value.specs.Body.{bytes_of_groups};
ghost use Rattle.smf_value.specs.Groups.{GroupRecord};
ghost use Rattle.smf_value.specs.Decoder.{groups_of_body};
ghost use Rattle.smf_snap.specs.Body.{decoded_snapshot};
ghost use Rattle.smf_meaning.specs.WrongParts.{AreBytes, IsBodyFault, IsSnapshotFault, body_fields, bytes_of};

/// The reader refuses bytes that are no body at the start of the first wrong field, or at the end if a field is
/// missing. The bytes before that place are fields that a body can begin with.
pub fn bodies_are_wrong_at_a_field()
    ensures spelled { (gs : List GroupRecord) → bytes_of (body_fields gs) ≡ bytes_of_groups gs }
    ensures wrong { (bytes : List ℕ) (fault : AnyBodyFault) → AreBytes bytes → groups_of_body bytes ≡ Err fault
        → IsBodyFault bytes fault }
{}

/// The same of bytes that are no snapshot: the first of the two bodies is wrong, or the second one after it.
pub fn snapshots_are_wrong_at_a_field()
    ensures { (bytes : List ℕ) (fault : AnyBodyFault) → AreBytes bytes → decoded_snapshot bytes ≡ Err fault
        → IsSnapshotFault bytes fault }
{}
