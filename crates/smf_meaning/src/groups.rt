ghost use Rattle.std.specs.Prelude.{◌≡◌, ℕ, List, Option, Ok};
ghost use Rattle.smf_value.specs.declared.kind.Kind.{Kind};
ghost use Rattle.smf_value.specs.Edits.{add_value, del, del_value, set};
ghost use Rattle.smf_value.specs.Groups.{GroupRecord};
ghost use Rattle.smf_meaning.specs.Edited.{IsAdded, IsDeleted, IsLess, IsSet};

/// An edit of a group makes the stated property, and leaves every other as it was.
pub fn edits_make_the_stated_property()
    ensures set { (name : List ℕ) (kind : Option Kind) (texts : List (List ℕ)) (g after : GroupRecord)
        → set name kind texts g ≡ Ok after → IsSet name kind texts g after }
    ensures added { (name : List ℕ) (kind : Option Kind) (text : List ℕ) (g after : GroupRecord)
        → add_value name kind text g ≡ Ok after → IsAdded name kind text g after }
    ensures less { (name text : List ℕ) (g after : GroupRecord)
        → del_value name text g ≡ Ok after → IsLess name text g after }
    ensures deleted { (name : List ℕ) (g after : GroupRecord) → del name g ≡ Ok after → IsDeleted name g after }
{}
