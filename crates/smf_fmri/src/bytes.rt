ghost use Rattle.std.specs.Cmp;
ghost use Rattle.std.specs.Cmp.Lexicographic.{pointwise, nat_list_eq_equiv};
ghost use Rattle.std.specs.Prelude.{◌≡◌, [], IfOk, nat_eq};

use std::alloc::{AllocError, Global};
use std::marker::Model;
use std::rc::Rc;

/// Bytes of any form, which contracts see as their list. Copies share them.
#[derive(Drop)]
pub struct Bytes {
    bytes: Rc<Vec<u8>>,
}

impl Model for Bytes {
    ghost use Rattle.std.specs.Prelude.{List, ℕ};

    ghost Value = { List ℕ };

    ghost view = { λ b. b.bytes.value.items };
}

impl Bytes {
    pub fn new(alloc: Global) -> Result<Bytes, AllocError>
        ensures { IfOk result (λ b. b ≡ []) }
    {
        Bytes::from_vec(alloc, Vec::new(alloc))
    }

    /// A copy of bytes.
    pub fn copy_of(alloc: Global, bytes: &[u8]) -> Result<Bytes, AllocError>
        ensures { IfOk result (λ b. b ≡ bytes.now) }
    {
        let bytes = bytes.to_vec(alloc)?;
        Bytes::from_vec(alloc, bytes)
    }

    pub fn from_vec(alloc: Global, bytes: Vec<u8>) -> Result<Bytes, AllocError>
        ensures { IfOk result (λ b. b ≡ bytes.items) }
    {
        match Rc::new(alloc, bytes) {
            Ok(bytes) => Ok(Bytes { bytes }),
            Err(_bytes) => Err(AllocError),
        }
    }

    /// A copy that can be added to.
    pub fn to_vec(&self, alloc: Global) -> Result<Vec<u8>, AllocError>
        ensures { IfOk result (λ v. v.items ≡ self.now) }
    {
        self.as_slice().to_vec(alloc)
    }

    pub fn as_slice(&self) -> &[u8]
        ensures { result.now ≡ self.now }
    {
        self.bytes.as_slice()
    }
}

impl Clone for Bytes {
    ghost is_clone = { λ s copy. copy ≡ s };

    fn clone(&self) -> Result<Bytes, AllocError> {
        let bytes = self.bytes.clone()?;
        Ok(Bytes { bytes })
    }
}

impl PartialEq for Bytes {
    ghost eq = { λ x y. pointwise nat_eq x y };

    ghost laws = { Cmp.partial_equiv_from_equiv nat_list_eq_equiv };

    fn eq(&self, other: &Bytes) -> bool {
        self.as_slice() == other.as_slice()
    }
}

impl Eq for Bytes {
    ghost laws = { nat_list_eq_equiv };
}
