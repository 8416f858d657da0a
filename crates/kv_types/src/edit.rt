// Edits: a put of a value at a key, or a deletion.
ghost use Rattle.std.specs.Prelude.{◌≡◌, IfOk, option_copied};

use crate::{Key, Value};
use std::alloc::AllocError;

/// One change of a map: a put or a deletion.
#[derive(Debug, Drop)]
pub enum Edit {
    Put(Key, Value),
    Delete(Key),
}

impl Edit {
    ghost use Rattle.kv_types.specs.Maps.{key_of, value_put};

    pub fn key(&self) -> &Key
        ensures { result.now ≡ key_of self.now }
    {
        match self {
            Edit::Put(key, _) => key,
            Edit::Delete(key) => key,
        }
    }

    /// The value that a put writes, or `None` for a deletion.
    pub fn value(&self) -> Option<&Value>
        ensures { option_copied result ≡ value_put self.now }
    {
        match self {
            Edit::Put(_, value) => Some(value),
            Edit::Delete(_) => None,
        }
    }

    pub fn clone(&self) -> Result<Edit, AllocError>
        ensures { IfOk result (λ edit. edit ≡ self.now) }
    {
        match self {
            Edit::Put(key, value) => Ok(Edit::Put(key.clone()?, value.clone()?)),
            Edit::Delete(key) => Ok(Edit::Delete(key.clone()?)),
        }
    }
}
