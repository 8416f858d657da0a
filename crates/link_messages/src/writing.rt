// Each kind of frame, written as bytes.
ghost use Rattle.std.specs.Prelude.{◌≡◌, ◌≤◌, ◌++◌, OnOk, IfOk, IfSome};
ghost use Rattle.configurations.specs.{IsId};
ghost use Rattle.kv_types.specs.{IsBatch, batch_bytes as batch_text};
ghost use Rattle.link_messages.specs.Spelling.{u8, u16, u32, u64, at_text, kind, fields};
ghost use Rattle.link_messages.specs.Spelling.{frame_bytes};
ghost use Rattle.link_messages.specs.Spelling.{refusal_number, IsEpoch, IsNumber, HasBounds};
ghost use Rattle.link_messages.specs.Spelling.{IsFrame};

use crate::fields::{put_at, put_epoch, put_found, put_id, put_number, put_range};
use crate::rows::put_page;
use crate::{Frame, Refusal};
use byteorder::{BigEndian, ByteOrder};
use configurations::{Epoch, NodeId};
use kv_types::{Batch, Number};
use std::alloc::{AllocError, Global};

fn kind_of(frame: &Frame) -> u8
    ensures { result ≡ kind frame.now }
{
    match frame {
        Frame::Forward { .. } => 1,
        Frame::Ack { .. } => 2,
        Frame::Notice { .. } => 3,
        Frame::Submit { .. } => 4,
        Frame::Get { .. } => 5,
        Frame::Rows { .. } => 6,
        Frame::Open { .. } => 7,
        Frame::Close { .. } => 8,
        Frame::Committed { .. } => 9,
        Frame::Value { .. } => 10,
        Frame::RowsAre { .. } => 11,
        Frame::Opened { .. } => 12,
        Frame::Refused { .. } => 13,
        Frame::Closed { .. } => 14,
    }
}

// The sender and its epoch.
fn put_from(out: &mut Vec<u8>, epoch: Epoch, from: NodeId) -> Result<(), AllocError>
    ensures spelled { OnOk result (out.new.items ≡ out.old.items ++ (u32 epoch ++ u16 from)) }
    ensures is { OnOk result (IsEpoch epoch × IsId from) }
{
    put_epoch(out, epoch)?;
    put_id(out, from)
}

fn put_two(out: &mut Vec<u8>, first: Number, second: Number) -> Result<(), AllocError>
    ensures spelled { OnOk result (out.new.items ≡ out.old.items ++ (u64 first ++ u64 second)) }
    ensures is { OnOk result (IsNumber first × IsNumber second) }
{
    put_number(out, first)?;
    put_number(out, second)
}

// The fields of a request at a number, or else at the committed number.
fn put_asked(out: &mut Vec<u8>, request: Number, at: Option<Number>) -> Result<(), AllocError>
    ensures spelled { OnOk result (out.new.items ≡ out.old.items ++ (u64 request ++ at_text at)) }
    ensures is { OnOk result (IsNumber request × IfSome at IsNumber) }
{
    put_number(out, request)?;
    put_at(out, at)
}

fn put_batch(out: &mut Vec<u8>, number: Number, batch: &Batch) -> Result<(), AllocError>
    ensures spelled { OnOk result (out.new.items
        ≡ out.old.items ++ (u64 number ++ batch_text batch.now)) }
    ensures is { OnOk result (IsNumber number × IsBatch batch.now) }
{
    put_number(out, number)?;
    batch.spell_into(out)
}

fn put_refusal(out: &mut Vec<u8>, refusal: Refusal) -> Result<(), AllocError>
    ensures { OnOk result (out.new.items ≡ out.old.items ++ u8 (refusal_number refusal)) }
{
    Ok(out.push(refusal as u8)?)
}

// The fields of a frame to a node of the chain.
fn put_link(out: &mut Vec<u8>, frame: &Frame) -> Result<(), AllocError>
    requires { kind frame.now ≤ 3 }
    ensures spelled { OnOk result (out.new.items ≡ out.old.items ++ fields frame.now) }
    ensures lawful { OnOk result (HasBounds frame.now → IsFrame frame.now) }
{
    match frame {
        Frame::Forward {
            epoch,
            from,
            number,
            batch,
        } => {
            put_from(out, *epoch, *from)?;
            put_batch(out, *number, batch)
        }
        Frame::Ack {
            epoch,
            from,
            committed,
            have,
        } => {
            put_from(out, *epoch, *from)?;
            put_two(out, *committed, *have)
        }
        Frame::Notice { epoch, config } => {
            put_epoch(out, *epoch)?;
            config.spell_into(out)
        }
        _ => Ok(()),
    }
}

// The fields of a client's request.
fn put_request(out: &mut Vec<u8>, frame: &Frame) -> Result<(), AllocError>
    requires { (4 ≤ kind frame.now) × (kind frame.now ≤ 8) }
    ensures spelled { OnOk result (out.new.items ≡ out.old.items ++ fields frame.now) }
    ensures lawful { OnOk result (HasBounds frame.now → IsFrame frame.now) }
{
    match frame {
        Frame::Submit { request, batch } => put_batch(out, *request, batch),
        Frame::Get { request, at, key } => {
            put_asked(out, *request, *at)?;
            key.spell_into(out)
        }
        Frame::Rows { request, at, range } => {
            put_asked(out, *request, *at)?;
            put_range(out, range.as_range())
        }
        Frame::Open { request, at } => put_asked(out, *request, *at),
        Frame::Close { request, number } => put_two(out, *request, *number),
        _ => Ok(()),
    }
}

// The fields of a reply to a client.
fn put_reply(out: &mut Vec<u8>, frame: &Frame) -> Result<(), AllocError>
    requires { 9 ≤ kind frame.now }
    ensures spelled { OnOk result (out.new.items ≡ out.old.items ++ fields frame.now) }
    ensures lawful { OnOk result (HasBounds frame.now → IsFrame frame.now) }
{
    match frame {
        Frame::Committed { request, number } => put_two(out, *request, *number),
        Frame::Value {
            request,
            number,
            value,
        } => {
            put_two(out, *request, *number)?;
            put_found(out, value.as_ref())
        }
        Frame::RowsAre {
            request,
            number,
            page,
        } => {
            put_two(out, *request, *number)?;
            put_page(out, page)
        }
        Frame::Opened { request, number } => put_two(out, *request, *number),
        Frame::Refused { request, refusal } => {
            put_number(out, *request)?;
            put_refusal(out, *refusal)
        }
        Frame::Closed { request, number } => put_two(out, *request, *number),
        _ => Ok(()),
    }
}

fn put_fields(out: &mut Vec<u8>, frame: &Frame) -> Result<(), AllocError>
    ensures spelled { OnOk result (out.new.items ≡ out.old.items ++ fields frame.now) }
    ensures lawful { OnOk result (HasBounds frame.now → IsFrame frame.now) }
{
    match kind_of(frame) {
        ..4 => put_link(out, frame),
        4..9 => put_request(out, frame),
        _ => put_reply(out, frame),
    }
}

// Room for a frame. One with a batch, or of numbers alone, is written with no second allocation.
fn room_for(frame: &Frame) -> usize {
    match frame {
        Frame::Forward { batch, .. } | Frame::Submit { batch, .. } => 19 + batch.spelled_len(),
        _ => 27,
    }
}

/// The one spelling of the frame in bytes.
pub fn write(alloc: Global, frame: &Frame) -> Result<Vec<u8>, AllocError>
    ensures spelled { IfOk result (λ bytes. bytes.items ≡ frame_bytes frame.now) }
    ensures lawful { IfOk result (λ _. HasBounds frame.now → IsFrame frame.now) }
{
    let mut out = Vec::with_capacity(alloc, room_for(frame))?;
    out.extend_from_slice(&[0; 4])?;
    out.push(kind_of(frame))?;
    put_fields(&mut out, frame)?;
    let len = out.len() - 4;
    BigEndian::write_u32(&mut out, (len % (1 << 32)) as u32);
    Ok(out)
}
