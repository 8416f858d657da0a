// The edits of a batch, which its clones share.
ghost use Rattle.std.specs.Prelude.{◌≡◌, IfOk};
ghost use Rattle.kv_types.specs.Shared.{shared_edits};

use crate::Edit;
use std::alloc::AllocError;
use std::rc::Rc;

// Edits that never change. Those that were read from bytes have one owner, and so have those for
// whose count of owners memory was wanting.
#[derive(Debug, Drop)]
pub enum SharedEdits {
    Counted(Rc<Vec<Edit>>),
    Sole(Vec<Edit>),
}

fn clone_all(edits: &Vec<Edit>) -> Result<Vec<Edit>, AllocError>
    ensures { IfOk result (λ copy. copy.items ≡ edits.now.items) }
{
    let mut copy = Vec::with_capacity(*edits.allocator(), edits.len())?;
    for edit in edits {
        copy.push(edit.clone()?)?;
    }
    Ok(copy)
}

impl SharedEdits {
    /// Edits that a clone copies. They take no memory beside their own.
    pub fn new(edits: Vec<Edit>) -> SharedEdits
        ensures { shared_edits result ≡ edits.items }
    {
        SharedEdits::Sole(edits)
    }

    /// Edits that a clone shares, if there is memory for the count of owners.
    pub fn counted(edits: Vec<Edit>) -> SharedEdits
        ensures { shared_edits result ≡ edits.items }
    {
        let alloc = *edits.allocator();
        match Rc::new(alloc, edits) {
            Ok(counted) => SharedEdits::Counted(counted),
            Err(refused) => SharedEdits::Sole(refused.value),
        }
    }

    pub fn as_slice(&self) -> &[Edit]
        ensures { result.now ≡ shared_edits self.now }
    {
        match self {
            SharedEdits::Counted(edits) => edits.as_ref().as_slice(),
            SharedEdits::Sole(edits) => edits.as_slice(),
        }
    }

    pub fn clone(&self) -> Result<SharedEdits, AllocError>
        ensures { IfOk result (λ edits. shared_edits edits ≡ shared_edits self.now) }
    {
        match self {
            SharedEdits::Counted(edits) => Ok(SharedEdits::Counted(edits.clone()?)),
            SharedEdits::Sole(edits) => Ok(SharedEdits::Sole(clone_all(edits)?)),
        }
    }
}
