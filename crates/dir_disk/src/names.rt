// The names of files: their numbers in decimal.
ghost use Rattle.std.specs.Prelude.{ℕ, ◌≡◌, ◌<◌, ◌^◌, ◌++◌, IfOk, IfSome, IsNone, codes};
ghost use Rattle.std.specs.Prelude.{string_bytes};
ghost use Rattle.std.specs.Fmt.{decimal};
ghost use Rattle.dir_disk.specs.Names.{file_path};

use std::alloc::{AllocError, Global};

/// The number of the file with this name: the name spells it without a sign and without leading
/// zeros. Any other name is that of no file of the disk.
pub fn number_of(name: &str) -> Option<u64>
    ensures number { IfSome result (λ file. name.now ≡ decimal file) }
    ensures none { IsNone result → (file : ℕ) → file < 2 ^ 64 → name.now ≡ decimal file → ⊥ }
{
    let bytes = name.as_bytes();
    if bytes.is_empty() || bytes[0] == b'+' {
        return None;
    }
    if bytes[0] == b'0' && bytes.len() > 1 {
        return None;
    }
    match name.parse::<u64>() {
        Ok(number) => Some(number),
        Err(_) => None,
    }
}

/// The path of the file with this number.
pub fn path_of(alloc: Global, folder: &str, file: u64) -> Result<String, AllocError>
    ensures { IfOk result (λ path. string_bytes path ≡ file_path folder.now file) }
{
    format!(in alloc; "{folder}/{file}")
}

/// The path of the folder itself, which is that of nothing where it is no folder.
pub fn path_of_folder(alloc: Global, folder: &str) -> Result<String, AllocError>
    ensures { IfOk result (λ path. string_bytes path ≡ folder.now ++ codes "/.") }
{
    format!(in alloc; "{folder}/.")
}
