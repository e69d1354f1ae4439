ghost use Rattle.std.specs.Cmp;
ghost use Rattle.std.specs.Cmp.Lexicographic.{pointwise, slice_cmp, nat_list_eq_equiv, nat_list_cmp_total, texts_ties, texts_po};
ghost use Rattle.std.specs.Ordering.{nat_cmp};
ghost use Rattle.std.specs.Prelude.{◌≡◌, refl, Some, IfOk, nat_eq};
ghost use Rattle.smf_fmri.specs.Patterns.{IsInstanceName, named_instance, read_short};

use crate::fault::FmriFault;
use crate::fmri::Fmri;
use std::alloc::{AllocError, Global};
use std::cmp::Ordering;
use std::fmt;
use std::marker::Model;

/// The name of an instance, which contracts see as its short text. A restarter, the owner of a row and the instance of
/// a dependency are named by one.
#[derive(Drop)]
pub struct InstanceFmri {
    name: Fmri,
}

impl Model for InstanceFmri {
    ghost use Rattle.std.specs.Prelude.{List, ℕ};

    ghost Value = { List ℕ };

    ghost use Rattle.smf_fmri.specs.Patterns.{IsInstanceName};

    ghost view = { λ i. i.name };

    ghost invariant = { λ i. IsInstanceName i.name };
}

impl InstanceFmri {
    /// The same name, or none if it names a service.
    pub fn of(name: Fmri) -> Option<InstanceFmri>
        ensures { result ≡ named_instance name }
    {
        if name.instance().is_none() {
            return None;
        }
        Some(InstanceFmri { name })
    }

    /// The instance that a text names in the short form, or none if it does not.
    #[tactic(auto, unfolding(crate::specs::Patterns::read_short))]
    pub fn read_short(alloc: Global, text: &str) -> Result<Option<InstanceFmri>, AllocError>
        ensures { IfOk result (λ i. i ≡ read_short text.now) }
    {
        let name = match Fmri::parse(alloc, text) {
            Ok(name) => name,
            Err(FmriFault::Memory) => return Err(AllocError),
            Err(_) => return Ok(None),
        };
        if name.print() == text {
            Ok(InstanceFmri::of(name))
        } else {
            Ok(None)
        }
    }

    /// The name of an instance whose short text is known to be one.
    pub fn from_valid_text(alloc: Global, text: &str) -> Result<InstanceFmri, AllocError>
        requires { IsInstanceName text.now }
        ensures { IfOk result (λ i. i ≡ text.now) }
    {
        let name = Fmri::from_valid_text(alloc, text)?;
        Ok(InstanceFmri { name })
    }

    pub fn as_fmri(&self) -> &Fmri
        ensures { result.now ≡ self.now }
    {
        &self.name
    }

    pub fn into_fmri(self) -> Fmri
        ensures { result ≡ self }
    {
        self.name
    }

    /// The short text, which begins with `svc:/`.
    pub fn print(&self) -> &str
        ensures text { result.now ≡ self.now }
        // The printed text is the name of an instance again.
        ensures named { IsInstanceName self.now }
    {
        self.name.print()
    }
}

impl Clone for InstanceFmri {
    ghost is_clone = { λ s copy. copy ≡ s };

    fn clone(&self) -> Result<InstanceFmri, AllocError> {
        let name = self.name.clone()?;
        Ok(InstanceFmri { name })
    }
}

impl PartialEq for InstanceFmri {
    ghost eq = { λ x y. pointwise nat_eq x y };

    ghost laws = { Cmp.partial_equiv_from_equiv nat_list_eq_equiv };

    fn eq(&self, other: &InstanceFmri) -> bool {
        self.name == other.name
    }
}

impl Eq for InstanceFmri {
    ghost laws = { nat_list_eq_equiv };
}

impl PartialOrd for InstanceFmri {
    ghost partial_cmp = { λ x y. Some (slice_cmp nat_cmp x y) };

    ghost laws = { texts_po };

    fn partial_cmp(&self, other: &InstanceFmri) -> Option<Ordering> {
        Some(self.cmp(other))
    }
}

impl Ord for InstanceFmri {
    ghost cmp = { λ x y. slice_cmp nat_cmp x y };

    ghost total = { nat_list_cmp_total };

    ghost matches_partial_cmp = { λ x y. refl };

    ghost matches_eq = { texts_ties };

    fn cmp(&self, other: &InstanceFmri) -> Ordering {
        self.name.cmp(&other.name)
    }
}

impl fmt::Display for InstanceFmri {
    ghost output = { λ s. Some s };

    fn fmt<W: fmt::Write>(&self, f: &mut fmt::Formatter<W>) -> fmt::Result {
        fmt::Display::fmt(&self.name, f)
    }
}
