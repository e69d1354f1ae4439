// The environment of methods.
ghost use Rattle.std.specs.Prelude.{◌≡◌};
ghost use Rattle.smf_edge.specs.Environment.{variable_name, variable_value};

use crate::start::Start;
use smf_method::method_text;

/// A variable of a method (smf_method(7)). A method has each of them, and no other.
#[derive(Clone, Copy)]
pub enum Variable {
    Path,
    Fmri,
    Method,
    Restarter,
}

impl Variable {
    pub fn name(self) -> &'static str
        ensures { result.now ≡ variable_name self }
    {
        match self {
            Variable::Path => "PATH",
            Variable::Fmri => "SMF_FMRI",
            Variable::Method => "SMF_METHOD",
            Variable::Restarter => "SMF_RESTARTER",
        }
    }

    /// The value that it has in a start.
    pub fn value(self, start: &Start) -> &str
        ensures { result.now ≡ variable_value start.now self }
    {
        match self {
            Variable::Path => "/usr/sbin:/usr/bin:/sbin:/bin",
            Variable::Fmri => start.instance.print(),
            Variable::Method => method_text(start.method),
            Variable::Restarter => start.restarter.print(),
        }
    }
}
