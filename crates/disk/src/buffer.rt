// The buffer of a file, and the bytes in it that writes have overwritten.
ghost use Rattle.std.specs.Prelude.{◌≡◌, ◌≤◌, ◌+◌, [], length, take, drop, OnOk, OnErr, IfOk};
ghost use Rattle.disk.specs.States.{overwritten};
ghost use Rattle.disk.specs.Buffer.{uncovered, AllWithin};
ghost use Rattle.disk.specs.Covered.{covered_bytes};

use std::alloc::{AllocError, Global};
use std::marker::Model;

// Bytes that a write has overwritten. One byte, as that of a gate, takes no memory of its own.
#[derive(Drop)]
pub enum CoveredBytes {
    One([u8; 1]),
    Many(Vec<u8>),
}

impl CoveredBytes {
    fn of(alloc: Global, bytes: &[u8]) -> Result<CoveredBytes, AllocError>
        ensures { IfOk result (λ it. covered_bytes it ≡ bytes.now) }
    {
        match bytes {
            [one] => Ok(CoveredBytes::One([*one])),
            _ => Ok(CoveredBytes::Many(Vec::from_slice(alloc, bytes)?)),
        }
    }

    fn clone(&self) -> Result<CoveredBytes, AllocError>
        ensures { IfOk result (λ it. covered_bytes it ≡ covered_bytes self.now) }
    {
        match self {
            CoveredBytes::One(byte) => Ok(CoveredBytes::One(*byte)),
            CoveredBytes::Many(bytes) => Ok(CoveredBytes::Many(bytes.clone()?)),
        }
    }

    fn as_slice(&self) -> &[u8]
        ensures { result.now ≡ covered_bytes self.now }
    {
        match self {
            CoveredBytes::One(byte) => byte.as_slice(),
            CoveredBytes::Many(bytes) => bytes.as_slice(),
        }
    }
}

// Bytes of a buffer that a write has overwritten, and the place where they began.
#[derive(Drop)]
pub struct Covered {
    at: usize,
    bytes: CoveredBytes,
}

impl Model for Covered {
    ghost use Rattle.disk.specs.Piece.{Piece};
    ghost use Rattle.disk.specs.Covered.{covered_bytes};

    ghost Value = { Piece };

    ghost view = { λ covered. record { at = covered.at; bytes = covered_bytes covered.bytes } };
}

impl Covered {
    fn clone(&self) -> Result<Covered, AllocError>
        ensures { IfOk result (λ covered. covered ≡ self.now) }
    {
        Ok(Covered {
            at: self.at,
            bytes: self.bytes.clone()?,
        })
    }
}

pub fn clone_all(alloc: Global, covered: &[Covered]) -> Result<Vec<Covered>, AllocError>
    ensures { IfOk result (λ all. all.items ≡ covered.now) }
{
    let mut all = Vec::new(alloc);
    for one in covered {
        all.push(one.clone()?)?;
    }
    Ok(all)
}

// The bytes of the buffer that a write of this length overwrites.
pub fn covered_by(
    alloc: Global,
    buffer: &[u8],
    at: usize,
    len: usize,
) -> Result<Covered, AllocError>
    requires { at ≤ length buffer.now }
    ensures place { IfOk result (λ covered. covered.at ≡ at) }
    ensures bytes { IfOk result (λ covered. covered.bytes ≡ take len (drop at buffer.now)) }
{
    let behind = &buffer[at..];
    let bytes = CoveredBytes::of(alloc, &behind[..len.min(behind.len())])?;
    Ok(Covered { at, bytes })
}

// Overwrites the buffer from a place on, and extends it where the bytes end past its end.
pub fn overwrite(old: &mut Vec<u8>, at: usize, bytes: &[u8]) -> Result<(), AllocError>
    requires { at ≤ length old.old.items }
    ensures ok { OnOk result (old.new.items ≡ overwritten old.old.items at bytes.now) }
    ensures err { OnErr result (old.new.items ≡ old.old.items) }
{
    let inside = bytes.len().min(old.len() - at);
    old.extend_from_slice(&bytes[inside..])?;
    put_over(old, at, &bytes[..inside]);
    Ok(())
}

// Overwrites bytes of the buffer within its length.
fn put_over(old: &mut Vec<u8>, at: usize, bytes: &[u8])
    requires { at + length bytes.now ≤ length old.old.items }
    ensures { old.new.items ≡ overwritten old.old.items at bytes.now }
{
    let place = &mut old.as_mut_slice()[at..at + bytes.len()];
    place.copy_from_slice(bytes);
}

// Restores the overwritten bytes, the latest first.
pub fn uncover(buffer: &mut Vec<u8>, covered: &mut Vec<Covered>)
    requires { AllWithin (length buffer.old.items) covered.old.items }
    ensures back { buffer.new.items ≡ uncovered buffer.old.items covered.old.items }
    ensures none { covered.new.items ≡ [] }
    ensures len { length buffer.new.items ≡ length buffer.old.items }
{
    while let Some(one) = covered.pop() {
        put_over(buffer, one.at, one.bytes.as_slice());
    }
}
