ghost use Rattle.smf_value.specs.Kinds.{kind_code, kind_from, kind_text};
ghost use Rattle.std.specs.Prelude.{◌≡◌};

use std::fmt;

/// The kind of a property's values.
#[derive(Clone, Copy, Debug, PartialEq, Eq)]
pub enum Kind {
    Boolean,
    Count,
    Integer,
    Time,
    Astring,
    Ustring,
    Fmri,
}

impl Kind {
    /// The byte that stands for it in a body.
    pub fn code(self) -> u8
        ensures { result ≡ kind_code self }
    {
        match self {
            Kind::Boolean => 0,
            Kind::Count => 1,
            Kind::Integer => 2,
            Kind::Time => 3,
            Kind::Astring => 4,
            Kind::Ustring => 5,
            Kind::Fmri => 6,
        }
    }

    /// The kind that a byte stands for.
    pub fn from_code(code: u8) -> Option<Kind>
        ensures { result ≡ kind_from code }
    {
        match code {
            0 => Some(Kind::Boolean),
            1 => Some(Kind::Count),
            2 => Some(Kind::Integer),
            3 => Some(Kind::Time),
            4 => Some(Kind::Astring),
            5 => Some(Kind::Ustring),
            6 => Some(Kind::Fmri),
            _ => None,
        }
    }

    /// Its word in a listing.
    pub fn as_str(self) -> &'static str
        ensures { result.now ≡ kind_text self }
    {
        match self {
            Kind::Boolean => "boolean",
            Kind::Count => "count",
            Kind::Integer => "integer",
            Kind::Time => "time",
            Kind::Astring => "astring",
            Kind::Ustring => "ustring",
            Kind::Fmri => "fmri",
        }
    }
}

impl fmt::Display for Kind {
    ghost use Rattle.smf_value.specs.Kinds.{kind_text};
    ghost use Rattle.std.specs.Prelude.{Some};

    ghost output = { λ k. Some (kind_text k) };

    fn fmt<W: fmt::Write>(&self, f: &mut fmt::Formatter<W>) -> fmt::Result {
        fmt::Display::fmt(self.as_str(), f)
    }
}
