// What a node drops, sends and replies, and its numbers, as lines. Each has the number of a line of
// the input.
use configurations::NodeId;
use disk::MemDisk;
use kv_types::{Number, Page, Value};
use link_messages::Frame;
use node::{Node, Numbers, Output, Reply};
use std::alloc::AllocError;

// Puts a frame, by its sender, its addressee and its numbers.
fn put_frame(text: &mut String, line: u64, to: NodeId, frame: &Frame) -> Result<(), AllocError> {
    let to = to.get();
    match frame {
        Frame::Forward {
            epoch,
            from,
            number,
            ..
        } => {
            let (epoch, from, number) = (epoch.get(), from.get(), number.get());
            writeln!(text, "{line}: {from}>{to} forward {epoch} {number}")
        }
        Frame::Ack {
            epoch,
            from,
            committed,
            have,
        } => {
            let (epoch, from) = (epoch.get(), from.get());
            let (committed, have) = (committed.get(), have.get());
            writeln!(text, "{line}: {from}>{to} ack {epoch} {committed} {have}")
        }
        _ => writeln!(text, "{line}: another frame to {to}"),
    }
}

// Bytes as text.
fn text_of(bytes: &[u8]) -> &str {
    str::from_utf8(bytes).unwrap_or("no text")
}

// Puts a word and a number, for a request.
fn put_numbered(
    text: &mut String,
    request: Number,
    word: &str,
    number: Number,
) -> Result<(), AllocError> {
    let (request, number) = (request.get(), number.get());
    writeln!(text, "{request}: {word} {number}")
}

// Puts the value at a number, or that there is none.
fn put_value(
    text: &mut String,
    request: Number,
    value: &Option<Value>,
    number: Number,
) -> Result<(), AllocError> {
    match value {
        Some(value) => {
            let value = text_of(value.as_bytes());
            writeln!(text, "{}: value {value} at {}", request.get(), number.get())
        }
        None => put_numbered(text, request, "none at", number),
    }
}

// Puts the rows of a page.
fn put_rows(text: &mut String, request: Number, page: &Page) -> Result<(), AllocError> {
    let request = request.get();
    for row in page.rows() {
        let (key, value) = (text_of(row.key()), text_of(row.value()));
        writeln!(text, "{request}: row {key}={value}")?;
    }
    Ok(())
}

fn put_reply(text: &mut String, reply: &Reply) -> Result<(), AllocError> {
    match reply {
        Reply::Committed { request, number } => put_numbered(text, *request, "committed", *number),
        Reply::Opened { request, number } => put_numbered(text, *request, "opened", *number),
        Reply::Closed { request, number } => put_numbered(text, *request, "closed", *number),
        Reply::Refused { request, refusal } => {
            let (request, code) = (request.get(), *refusal as u8);
            writeln!(text, "{request}: refused {code} {refusal:?}")
        }
        Reply::Value {
            request,
            number,
            value,
        } => put_value(text, *request, value, *number),
        Reply::Rows {
            request,
            number,
            page,
        } => {
            put_rows(text, *request, page)?;
            put_numbered(text, *request, "rows at", *number)
        }
    }
}

/// Puts the output of a step: why its input was dropped, its frames and its replies.
pub fn put_output(text: &mut String, line: u64, output: &Output) -> Result<(), AllocError> {
    if let Some(reason) = output.dropped {
        writeln!(text, "{line}: dropped {reason:?}")?;
    }
    for sent in &*output.frames {
        put_frame(text, line, sent.to, &sent.frame)?;
    }
    for reply in &*output.replies {
        put_reply(text, reply)?;
    }
    Ok(())
}

// Puts the numbers of the node of an identifier, and how many tables each level has.
fn put_numbers(text: &mut String, id: NodeId, numbers: &Numbers) -> Result<(), AllocError> {
    let (id, epoch, count) = (id.get(), numbers.epoch.get(), numbers.count.get());
    let (floor, kept) = (numbers.floor.get(), numbers.kept.get());
    write!(
        text,
        "node {id} epoch {epoch} count {count} floor {floor} kept {kept} tables"
    )?;
    for tables in &numbers.tables {
        write!(text, " {tables}")?;
    }
    Ok(())
}

/// Puts the numbers of a node, how many tables each level has, and its configuration.
pub fn put_node(text: &mut String, line: u64, node: &Node<MemDisk>) -> Result<(), AllocError> {
    let numbers = node.numbers();
    write!(text, "{line}: ")?;
    put_numbers(text, node.id(), &numbers)?;
    write!(text, " committed {} of", numbers.committed.get())?;
    for id in node.config().ids() {
        write!(text, " {}", id.get())?;
    }
    text.push_str("\n")
}
