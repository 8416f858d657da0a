// The fields of frames, written as bytes and read from them.
ghost use Rattle.std.specs.Prelude.{◌≡◌, ◌++◌, OnOk, IfOk, IfSome, option_copied, option_map};
ghost use Rattle.configurations.specs.{IsId};
ghost use Rattle.byte_fields.specs.declared.stored_key.TheConstants.{MAX_KEY};
ghost use Rattle.kv_types.specs.declared.bounds.TheConstants.{MAX_VALUE};
ghost use Rattle.kv_types.specs.{batch_at};
ghost use Rattle.byte_fields.specs.{text_bytes, text_at};
ghost use Rattle.link_messages.specs.Spelling.{u16, u32, u64, optional, at_text};
ghost use Rattle.link_messages.specs.Spelling.{range_text, IsEpoch, IsNumber, IsKey, IsValue};
ghost use Rattle.link_messages.specs.Spelling.{IsRange};
ghost use Rattle.link_messages.specs.Reading.{ReadsField};
ghost use Rattle.link_messages.specs.Reading.{epoch_at, id_at, count_at, place_at};
ghost use Rattle.link_messages.specs.Reading.{at_at, found_at, config_at, bound_at, range_at};

use crate::numbers::{put_truth, put_u16, put_u32, put_u64, truth_of, u16_of, u32_of, u64_of};
use crate::{BoxedRange, FrameError};
use configurations::laws::test_decides_config;
use configurations::{Config, Epoch, NodeId};
use kv_types::{Batch, Key, Number, Range, Value};
use std::alloc::{AllocError, Global};

// ---- writing

pub fn put_epoch(out: &mut Vec<u8>, epoch: Epoch) -> Result<(), AllocError>
    ensures spelled { OnOk result (out.new.items ≡ out.old.items ++ u32 epoch) }
    ensures is { IsEpoch epoch }
{
    put_u32(out, epoch.get())
}

pub fn put_id(out: &mut Vec<u8>, id: NodeId) -> Result<(), AllocError>
    ensures spelled { OnOk result (out.new.items ≡ out.old.items ++ u16 id) }
    ensures is { IsId id }
{
    put_u16(out, id.get())
}

pub fn put_number(out: &mut Vec<u8>, number: Number) -> Result<(), AllocError>
    ensures spelled { OnOk result (out.new.items ≡ out.old.items ++ u64 number) }
    ensures is { IsNumber number }
{
    put_u64(out, number.get())
}

pub fn put_at(out: &mut Vec<u8>, at: Option<Number>) -> Result<(), AllocError>
    ensures spelled { OnOk result (out.new.items ≡ out.old.items ++ at_text at) }
    ensures is { OnOk result (IfSome at IsNumber) }
{
    match at {
        Some(number) => {
            out.push(1)?;
            put_number(out, number)
        }
        None => Ok(out.push(0)?),
    }
}

pub fn put_found(out: &mut Vec<u8>, value: Option<&Value>) -> Result<(), AllocError>
    ensures spelled { OnOk result (out.new.items
        ≡ out.old.items ++ optional text_bytes (option_copied value.entry)) }
    ensures is { OnOk result (IfSome (option_copied value.entry) IsValue) }
{
    match value {
        Some(value) => {
            out.push(1)?;
            value.spell_into(out)
        }
        None => Ok(out.push(0)?),
    }
}

fn put_bound(out: &mut Vec<u8>, to: Option<&Key>) -> Result<(), AllocError>
    ensures spelled { OnOk result (out.new.items
        ≡ out.old.items ++ optional text_bytes (option_copied to.entry)) }
    ensures is { OnOk result (IfSome (option_copied to.entry) IsKey) }
{
    match to {
        Some(key) => {
            out.push(1)?;
            key.spell_into(out)
        }
        None => Ok(out.push(0)?),
    }
}

pub fn put_range(out: &mut Vec<u8>, range: &Range) -> Result<(), AllocError>
    ensures spelled { OnOk result (out.new.items ≡ out.old.items ++ range_text range.now) }
    ensures is { OnOk result (IsRange range.now) }
{
    range.from().spell_into(out)?;
    put_bound(out, range.to())?;
    put_truth(out, range.is_backward())?;
    put_u32(out, range.limit())
}

// ---- reading: from the front of the bytes, which then hold the bytes behind the field

#[tactic(auto, unfolding(crate::specs::Reading::epoch_at))]
pub fn epoch_of(bytes: &mut &[u8]) -> Result<Epoch, FrameError>
    ensures { ReadsField result bytes.new.now (epoch_at bytes.old.now) }
{
    match Epoch::new(u32_of(bytes)?) {
        Some(epoch) => Ok(epoch),
        None => Err(FrameError::BadField),
    }
}

#[tactic(auto, unfolding(crate::specs::Reading::id_at))]
pub fn id_of(bytes: &mut &[u8]) -> Result<NodeId, FrameError>
    ensures { ReadsField result bytes.new.now (id_at bytes.old.now) }
{
    match NodeId::new(u16_of(bytes)?) {
        Some(id) => Ok(id),
        None => Err(FrameError::BadField),
    }
}

#[tactic(auto, unfolding(crate::specs::Reading::count_at))]
pub fn number_of(bytes: &mut &[u8]) -> Result<Number, FrameError>
    ensures { ReadsField result bytes.new.now (count_at bytes.old.now) }
{
    match Number::new(u64_of(bytes)?) {
        Some(number) => Ok(number),
        None => Err(FrameError::BadField),
    }
}

#[tactic(auto, unfolding(crate::specs::Reading::place_at))]
pub fn place_of(bytes: &mut &[u8]) -> Result<Number, FrameError>
    ensures { ReadsField result bytes.new.now (place_at bytes.old.now) }
{
    let number = number_of(bytes)?;
    if number.get() < 1 {
        return Err(FrameError::BadField);
    }
    Ok(number)
}

#[tactic(auto, unfolding(crate::specs::Reading::at_at))]
pub fn at_of(bytes: &mut &[u8]) -> Result<Option<Number>, FrameError>
    ensures { ReadsField result bytes.new.now (at_at bytes.old.now) }
{
    if !truth_of(bytes)? {
        return Ok(None);
    }
    Ok(Some(number_of(bytes)?))
}

pub fn key_of(alloc: Global, bytes: &mut &[u8]) -> Result<Key, FrameError>
    ensures { ReadsField result bytes.new.now (text_at MAX_KEY bytes.old.now) }
{
    match Key::read_from(alloc, bytes)? {
        Some((read, rest)) => {
            *bytes = rest;
            Ok(read)
        }
        None => Err(FrameError::BadField),
    }
}

pub fn value_of(alloc: Global, bytes: &mut &[u8]) -> Result<Value, FrameError>
    ensures { ReadsField result bytes.new.now (text_at MAX_VALUE bytes.old.now) }
{
    match Value::read_from(alloc, bytes)? {
        Some((read, rest)) => {
            *bytes = rest;
            Ok(read)
        }
        None => Err(FrameError::BadField),
    }
}

pub fn batch_of(alloc: Global, bytes: &mut &[u8]) -> Result<Batch, FrameError>
    ensures { ReadsField result bytes.new.now (batch_at bytes.old.now) }
{
    match Batch::read_from(alloc, bytes)? {
        Some((read, rest)) => {
            *bytes = rest;
            Ok(read)
        }
        None => Err(FrameError::BadField),
    }
}

#[tactic(auto, unfolding(crate::specs::Reading::found_at))]
pub fn found_of(alloc: Global, bytes: &mut &[u8]) -> Result<Option<Value>, FrameError>
    ensures { ReadsField result bytes.new.now (found_at bytes.old.now) }
{
    if !truth_of(bytes)? {
        return Ok(None);
    }
    Ok(Some(value_of(alloc, bytes)?))
}

#[tactic(auto, unfolding(crate::specs::Reading::bound_at))]
fn bound_of(alloc: Global, bytes: &mut &[u8]) -> Result<Option<Key>, FrameError>
    ensures { ReadsField result bytes.new.now (bound_at bytes.old.now) }
{
    if !truth_of(bytes)? {
        return Ok(None);
    }
    Ok(Some(key_of(alloc, bytes)?))
}

#[tactic(auto, unfolding(crate::specs::Reading::range_at, crate::specs::Reading::limit_at))]
fn range_of(alloc: Global, bytes: &mut &[u8]) -> Result<Range, FrameError>
    ensures { ReadsField result bytes.new.now (range_at bytes.old.now) }
{
    let from = key_of(alloc, bytes)?;
    let to = bound_of(alloc, bytes)?;
    let backward = truth_of(bytes)?;
    let limit = u32_of(bytes)?;
    match Range::new(from, to, backward, limit) {
        Ok(range) => Ok(range),
        Err(_) => Err(FrameError::BadField),
    }
}

pub fn boxed_range_of(alloc: Global, bytes: &mut &[u8]) -> Result<BoxedRange, FrameError>
    ensures { ReadsField result bytes.new.now (range_at bytes.old.now) }
{
    let range = range_of(alloc, bytes)?;
    Ok(BoxedRange::new(alloc, range)?)
}

// The configuration at the front of the bytes, and the bytes behind it.
fn front_config_of(alloc: Global, bytes: &[u8]) -> Result<Option<(Config, &[u8])>, AllocError>
    ensures { IfOk result (λ found.
        option_map (λ x. (x.0, x.1.now)) found ≡ config_at bytes.now) }
{
    test_decides_config(); // law: the test succeeds exactly for the configurations
    Ok(Config::read_from(alloc, bytes)?)
}

pub fn config_of(alloc: Global, bytes: &mut &[u8]) -> Result<Config, FrameError>
    ensures { ReadsField result bytes.new.now (config_at bytes.old.now) }
{
    match front_config_of(alloc, bytes)? {
        Some((config, rest)) => {
            *bytes = rest;
            Ok(config)
        }
        None => Err(FrameError::BadField),
    }
}
