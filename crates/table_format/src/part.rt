//! Digests of parts.
ghost use Rattle.std.specs.Prelude.{◌≡◌, OnOk, List, ℕ, IfSome, IsNone};
ghost use Rattle.table_format.specs.Blocks.{digest, sealed};

use sha2::{Digest, Sha256};
use std::alloc::AllocError;

#[tactic(auto, unfolding(crate::specs::Blocks::digest))]
fn digest_of(content: &[u8]) -> [u8; 8]
    ensures { result ≡ digest content.now }
{
    let d = Sha256::digest(content);
    [d[0], d[1], d[2], d[3], d[4], d[5], d[6], d[7]]
}

/// Appends the digest of all that `part` holds.
pub fn seal(part: &mut Vec<u8>) -> Result<(), AllocError>
    ensures { OnOk result (part.new.items ≡ sealed part.old.items) }
{
    let digest = digest_of(part);
    part.extend_from_slice(&digest)
}

/// The content before the digest, if the digest is that of the content.
pub fn unsealed(part: &[u8]) -> Option<&[u8]>
    ensures sealed { IfSome result (λ content. part.now ≡ sealed content.now) }
    ensures none { IsNone result → (content : List ℕ) → part.now ≡ sealed content → ⊥ }
{
    if part.len() < 8 {
        return None;
    }
    let (content, end) = part.split_at(part.len() - 8);
    if end != digest_of(content).as_slice() {
        return None;
    }
    Some(content)
}
