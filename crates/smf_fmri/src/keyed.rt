ghost use Rattle.std.specs.Prelude.{◌≡◌, List, ℕ, refl};
ghost use Rattle.smf_fmri.specs.ByKey.{By, Rises, by_number, by_text};

/// Things with a key, by which they are found and put in order. In contracts it is `by`, which compares as the key's
/// type does.
pub trait Keyed {
    type Key: Ord;

    ghost by: { By Self Self.Key };

    fn key(&self) -> &Self::Key
        ensures { result.now ≡ by.key self.now };

    ghost same: { by.cmp ≡ Self.Key.cmp };
}

/// Things with a text as their key, so that a borrowed text finds them.
pub trait TextKeyed: Keyed {
    ghost text: { Self → List ℕ };

    fn key_text(&self) -> &str
        ensures { result.now ≡ text self.now };

    ghost same_order: { (xs : List Self) → Rises Self.by xs → Rises (by_text text) xs };
}

/// Things with a part that can be given to them, and that leaves their key.
pub trait HasPart: Keyed {
    type Part: Drop;

    ghost with_part: { Self → Self.Part → Self };

    fn set_part(&mut self, part: Self::Part)
        ensures { self.new ≡ with_part self.old part };

    ghost keeps_key: { (x : Self) (part : Self.Part) → Self.by.key (with_part x part) ≡ Self.by.key x };
}

/// Things that are cloned as they are.
pub trait ExactClone: Clone {
    ghost exact: { (x copy : Self) → Self.is_clone x copy → copy ≡ x };
}

/// A number is its own key.
impl Keyed for u64 {
    type Key = u64;

    ghost by = { by_number (λ n. n) };

    fn key(&self) -> &u64 {
        self
    }

    ghost same = { refl };
}

impl ExactClone for u64 {
    ghost exact = { λ n copy same. same };
}
