// The files of a folder that are open.
ghost use Rattle.std.specs.Prelude.{◌≡◌, ◌<◌, ◌≤◌, ◌==◌, [], IfOk, IsTrue, OnOk, vec_len};
ghost use Rattle.std.specs.List.{position};
ghost use Rattle.dir_disk.specs.declared.open_files.TheConstants.{MOST};

use crate::open_file::OpenFile;
use std::alloc::{AllocError, Global};

/// The most files that are open at once.
const MOST: usize = 32;

/// The files that were used last, the latest at the end. The list has its memory from the beginning
/// on, so no file that was opened is refused for want of it.
#[derive(Drop)]
pub struct OpenFiles {
    files: Vec<OpenFile>,
    ghost few: { vec_len files ≤ MOST },
}

impl OpenFiles {
    ghost use Rattle.std.specs.Prelude.{ℕ};
    ghost use Rattle.dir_disk.specs.Open.{IsLatest, IsNotOpen};
    ghost use Rattle.dir_disk.specs.declared.open_file.OpenFile.{OpenFile};

    pub fn new(alloc: Global) -> Result<OpenFiles, AllocError>
        ensures { IfOk result (λ it. it.files.items ≡ []) }
    {
        Ok(OpenFiles {
            files: Vec::with_capacity(alloc, MOST)?,
        })
    }

    // Where the file with this number is.
    fn index_of(&self, number: u64) -> Option<usize>
        ensures { result
            ≡ position (λ (it : OpenFile). it.number == number) self.now.files.items }
    {
        self.files.iter().position(|it| it.number() == number)
    }

    /// Closes the file with this number, if it is open.
    pub fn close(&mut self, number: u64)
        ensures { IsNotOpen number self.new }
    {
        self.files.retain(|it| it.number() != number);
    }

    /// Keeps an open file as the latest. Where too many are open, the one that was used least
    /// lately is closed.
    pub fn keep(&mut self, file: OpenFile) -> Result<(), AllocError>
        ensures { OnOk result (IsLatest file.number self.new) }
    {
        if self.files.len() >= MOST {
            self.files.remove(0);
        }
        self.files.push(file)?;
        Ok(())
    }

    /// Makes an open file with this number the latest. It answers whether there is one.
    pub fn touch(&mut self, number: u64) -> Result<bool, AllocError>
        ensures latest { IfOk result (λ is_open. IsTrue is_open → IsLatest number self.new) }
        ensures absent { IfOk result (λ is_open. (IsTrue is_open → ⊥) → IsNotOpen number self.new) }
    {
        let Some(index) = self.index_of(number) else {
            return Ok(false);
        };
        let file = self.files.remove(index);
        self.files.push(file)?;
        Ok(true)
    }

    /// The latest file.
    pub fn latest(&mut self) -> &mut OpenFile
        requires { 0 < vec_len self.old.files }
        ensures { (number : ℕ) → IsLatest number self.old → result.now.number ≡ number }
    {
        let last = self.files.len() - 1;
        &mut self.files[last]
    }
}
