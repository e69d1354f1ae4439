ghost use Rattle.smf_value.specs.Values.{is_value, kind_of};
ghost use Rattle.std.specs.Prelude.{◌≡◌};

use crate::astring::Astring;
use crate::kind::Kind;
use crate::time::Time;
use crate::ustring::Ustring;
use smf_fmri::Fmri;
use std::alloc::AllocError;

/// A value of one of the seven kinds.
#[derive(Drop, PartialEq, Eq)]
pub enum Value {
    Boolean(bool),
    Count(u64),
    Integer(i64),
    Time(Time),
    Astring(Astring),
    Ustring(Ustring),
    Fmri(Fmri),
}

impl Value {
    pub fn kind(&self) -> Kind
        ensures { result ≡ kind_of self.now }
    {
        match self {
            Value::Boolean(_) => Kind::Boolean,
            Value::Count(_) => Kind::Count,
            Value::Integer(_) => Kind::Integer,
            Value::Time(_) => Kind::Time,
            Value::Astring(_) => Kind::Astring,
            Value::Ustring(_) => Kind::Ustring,
            Value::Fmri(_) => Kind::Fmri,
        }
    }
}

impl Value {
    /// True if it is the same value.
    pub fn is_value(&self, other: &Value) -> bool
        ensures { result ≡ is_value self.now other.now }
    {
        match (self, other) {
            (Value::Boolean(a), Value::Boolean(b)) => *a == *b,
            (Value::Count(a), Value::Count(b)) => *a == *b,
            (Value::Integer(a), Value::Integer(b)) => *a == *b,
            (Value::Time(a), Value::Time(b)) => {
                a.seconds() == b.seconds() && a.nanoseconds() == b.nanoseconds()
            }
            (Value::Astring(a), Value::Astring(b)) => *a == *b,
            (Value::Ustring(a), Value::Ustring(b)) => *a == *b,
            (Value::Fmri(a), Value::Fmri(b)) => *a == *b,
            _ => false,
        }
    }
}

impl Clone for Value {
    ghost is_clone = { λ s copy. copy ≡ s };

    fn clone(&self) -> Result<Value, AllocError> {
        Ok(match self {
            Value::Boolean(b) => Value::Boolean(*b),
            Value::Count(n) => Value::Count(*n),
            Value::Integer(z) => Value::Integer(*z),
            Value::Time(t) => Value::Time(*t),
            Value::Astring(text) => Value::Astring(text.clone()?),
            Value::Ustring(text) => Value::Ustring(text.clone()?),
            Value::Fmri(name) => Value::Fmri(name.clone()?),
        })
    }
}
