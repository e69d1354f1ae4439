ghost use Rattle.std.specs.Cmp;
ghost use Rattle.std.specs.Cmp.Lexicographic.{pointwise, slice_cmp, nat_list_eq_equiv, nat_list_cmp_total, texts_ties, texts_po};
ghost use Rattle.std.specs.Ordering.{nat_cmp};
ghost use Rattle.std.specs.Prelude.{◌≡◌, refl, Some, nat_eq};
ghost use Rattle.smf_fmri.specs.Patterns.{IsServiceName, named_service};

use crate::fmri::Fmri;
use std::alloc::AllocError;
use std::cmp::Ordering;
use std::fmt;
use std::marker::Model;

/// The name of a service, which contracts see as its short text.
#[derive(Drop)]
pub struct ServiceFmri {
    name: Fmri,
}

impl Model for ServiceFmri {
    ghost use Rattle.std.specs.Prelude.{List, ℕ};

    ghost Value = { List ℕ };

    ghost use Rattle.smf_fmri.specs.Patterns.{IsServiceName};

    ghost view = { λ s. s.name };

    ghost invariant = { λ i. IsServiceName i.name };
}

impl ServiceFmri {
    /// The same name, or none if it names an instance.
    pub fn of(name: Fmri) -> Option<ServiceFmri>
        ensures { result ≡ named_service name }
    {
        if name.instance().is_some() {
            return None;
        }
        Some(ServiceFmri { name })
    }

    /// The name of a service that is known to be one.
    pub(crate) fn from_service_name(name: Fmri) -> ServiceFmri
        requires { IsServiceName name }
        ensures { result ≡ name }
    {
        ServiceFmri { name }
    }

    pub fn as_fmri(&self) -> &Fmri
        ensures { result.now ≡ self.now }
    {
        &self.name
    }

    pub fn into_fmri(self) -> Fmri
        ensures { result ≡ self }
    {
        self.name
    }

    /// The short text, which begins with `svc:/`.
    pub fn print(&self) -> &str
        ensures text { result.now ≡ self.now }
        // The printed text is the name of a service again.
        ensures named { IsServiceName self.now }
    {
        self.name.print()
    }
}

impl Clone for ServiceFmri {
    ghost is_clone = { λ s copy. copy ≡ s };

    fn clone(&self) -> Result<ServiceFmri, AllocError> {
        let name = self.name.clone()?;
        Ok(ServiceFmri { name })
    }
}

impl PartialEq for ServiceFmri {
    ghost eq = { λ x y. pointwise nat_eq x y };

    ghost laws = { Cmp.partial_equiv_from_equiv nat_list_eq_equiv };

    fn eq(&self, other: &ServiceFmri) -> bool {
        self.name == other.name
    }
}

impl Eq for ServiceFmri {
    ghost laws = { nat_list_eq_equiv };
}

impl PartialOrd for ServiceFmri {
    ghost partial_cmp = { λ x y. Some (slice_cmp nat_cmp x y) };

    ghost laws = { texts_po };

    fn partial_cmp(&self, other: &ServiceFmri) -> Option<Ordering> {
        Some(self.cmp(other))
    }
}

impl Ord for ServiceFmri {
    ghost cmp = { λ x y. slice_cmp nat_cmp x y };

    ghost total = { nat_list_cmp_total };

    ghost matches_partial_cmp = { λ x y. refl };

    ghost matches_eq = { texts_ties };

    fn cmp(&self, other: &ServiceFmri) -> Ordering {
        self.name.cmp(&other.name)
    }
}

impl fmt::Display for ServiceFmri {
    ghost output = { λ s. Some s };

    fn fmt<W: fmt::Write>(&self, f: &mut fmt::Formatter<W>) -> fmt::Result {
        fmt::Display::fmt(&self.name, f)
    }
}
