// Keys, values, edits and batches, written as bytes.
ghost use Rattle.std.specs.Prelude.{◌≡◌, ◌≤◌, ◌<◌, ◌^◌, ◌++◌, ◌+◌, ◌*◌, length, OnOk, All};
ghost use Rattle.kv_types.specs.Spelling.{IsEdit, edit_bytes, edits_bytes, front_bytes, mark_bytes};

use crate::bounds::{MAX_EDITS, MAX_VALUE};
use crate::{Edit, Mark};
use byte_fields::{MAX_KEY, put_text, put_u64};
use std::alloc::AllocError;

fn put_edit(out: &mut Vec<u8>, edit: &Edit) -> Result<(), AllocError>
    ensures { OnOk result (out.new.items ≡ out.old.items ++ edit_bytes edit.now) }
{
    match edit {
        Edit::Put(key, value) => {
            out.push(1)?;
            put_text(out, key.as_bytes())?;
            put_text(out, value.as_bytes())
        }
        Edit::Delete(key) => {
            out.push(2)?;
            put_text(out, key.as_bytes())
        }
    }
}

// Appends client and request of a mark.
fn put_mark(out: &mut Vec<u8>, mark: Mark) -> Result<(), AllocError>
    ensures { OnOk result (out.new.items ≡ out.old.items ++ mark_bytes mark) }
{
    put_u64(out, mark.client)?;
    put_u64(out, mark.request)
}

/// Appends what stands before the edits of a batch with this mark, or with none.
pub fn put_front(out: &mut Vec<u8>, mark: Option<Mark>) -> Result<(), AllocError>
    ensures { OnOk result (out.new.items ≡ out.old.items ++ front_bytes mark) }
{
    match mark {
        Some(mark) => {
            out.extend_from_slice(&[0, 0])?;
            put_mark(out, mark)
        }
        None => Ok(()),
    }
}

pub fn put_edits(out: &mut Vec<u8>, edits: &[Edit]) -> Result<(), AllocError>
    requires { length edits.now < 2 ^ 16 }
    ensures { OnOk result (out.new.items ≡ out.old.items ++ edits_bytes edits.now) }
{
    out.extend_from_slice(&(edits.len() as u16).to_be_bytes())?;
    for edit in edits {
        put_edit(out, edit)?;
    }
    Ok(())
}

fn edit_len(edit: &Edit) -> usize
    ensures len { result ≡ length (edit_bytes edit.now) }
    ensures limit { result ≤ 5 + MAX_KEY + MAX_VALUE }
    ensures edit { IsEdit edit.now }
{
    match edit {
        Edit::Put(key, value) => 5 + key.as_bytes().len() + value.as_bytes().len(),
        Edit::Delete(key) => 3 + key.as_bytes().len(),
    }
}

/// How many bytes stand before the edits of a batch with this mark, or with none.
pub fn front_len(mark: Option<Mark>) -> usize
    ensures len { result ≡ length (front_bytes mark) }
    ensures limit { result ≤ 18 }
{
    match mark {
        Some(_) => 18,
        None => 0,
    }
}

pub fn spelled_len(edits: &[Edit]) -> usize
    requires { length edits.now ≤ MAX_EDITS }
    ensures len { result ≡ length (edits_bytes edits.now) }
    ensures limit { result ≤ 2 + (5 + MAX_KEY + MAX_VALUE) * MAX_EDITS }
    ensures each { All IsEdit edits.now }
{
    let mut len = 2;
    for edit in edits {
        len += edit_len(edit);
    }
    len
}
