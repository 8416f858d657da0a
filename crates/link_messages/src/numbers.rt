// Numbers and truth values, written as bytes and read from them.
ghost use Rattle.std.specs.Prelude.{◌≡◌, ◌++◌, OnOk};
ghost use Rattle.std.specs.Int.{w8, w16, w32, w64};
ghost use Rattle.link_messages.specs.Spelling.{truth, u16, u32, u64};
ghost use Rattle.byte_fields.specs.{number_at};
ghost use Rattle.link_messages.specs.Reading.{ReadsField, truth_at};

use crate::FrameError;
use byteorder::{BigEndian, ByteOrder};
use std::alloc::AllocError;

pub fn put_truth(out: &mut Vec<u8>, value: bool) -> Result<(), AllocError>
    ensures { OnOk result (out.new.items ≡ out.old.items ++ truth value) }
{
    out.push(if value { 1 } else { 0 })?;
    Ok(())
}

pub fn put_u16(out: &mut Vec<u8>, number: u16) -> Result<(), AllocError>
    ensures { OnOk result (out.new.items ≡ out.old.items ++ u16 number) }
{
    let mut bytes = [0; 2];
    BigEndian::write_u16(&mut bytes, number);
    out.extend_from_slice(&bytes)
}

pub fn put_u32(out: &mut Vec<u8>, number: u32) -> Result<(), AllocError>
    ensures { OnOk result (out.new.items ≡ out.old.items ++ u32 number) }
{
    let mut bytes = [0; 4];
    BigEndian::write_u32(&mut bytes, number);
    out.extend_from_slice(&bytes)
}

pub fn put_u64(out: &mut Vec<u8>, number: u64) -> Result<(), AllocError>
    ensures { OnOk result (out.new.items ≡ out.old.items ++ u64 number) }
{
    let mut bytes = [0; 8];
    BigEndian::write_u64(&mut bytes, number);
    out.extend_from_slice(&bytes)
}

#[tactic(auto, unfolding(crate::specs::Reading::truth_at))]
pub fn truth_of(bytes: &mut &[u8]) -> Result<bool, FrameError>
    ensures { ReadsField result bytes.new.now (truth_at bytes.old.now) }
{
    match *bytes {
        [0, rest @ ..] => {
            *bytes = rest;
            Ok(false)
        }
        [1, rest @ ..] => {
            *bytes = rest;
            Ok(true)
        }
        _ => Err(FrameError::BadField),
    }
}

pub fn u8_of(bytes: &mut &[u8]) -> Result<u8, FrameError>
    ensures { ReadsField result bytes.new.now (number_at w8 bytes.old.now) }
{
    let [number, rest @ ..] = *bytes else {
        return Err(FrameError::BadField);
    };
    *bytes = rest;
    Ok(*number)
}

pub fn u16_of(bytes: &mut &[u8]) -> Result<u16, FrameError>
    ensures { ReadsField result bytes.new.now (number_at w16 bytes.old.now) }
{
    if bytes.len() < 2 {
        return Err(FrameError::BadField);
    }
    let (front, rest) = bytes.split_at(2);
    *bytes = rest;
    Ok(BigEndian::read_u16(front))
}

pub fn u32_of(bytes: &mut &[u8]) -> Result<u32, FrameError>
    ensures { ReadsField result bytes.new.now (number_at w32 bytes.old.now) }
{
    if bytes.len() < 4 {
        return Err(FrameError::BadField);
    }
    let (front, rest) = bytes.split_at(4);
    *bytes = rest;
    Ok(BigEndian::read_u32(front))
}

pub fn u64_of(bytes: &mut &[u8]) -> Result<u64, FrameError>
    ensures { ReadsField result bytes.new.now (number_at w64 bytes.old.now) }
{
    if bytes.len() < 8 {
        return Err(FrameError::BadField);
    }
    let (front, rest) = bytes.split_at(8);
    *bytes = rest;
    Ok(BigEndian::read_u64(front))
}
