//! The text of each line of a report.
ghost use Rattle.std.specs.Prelude.{◌≡◌, Some};
ghost use Rattle.client.specs.Text.{adopted_text, frame_text, line_text, reply_text};
ghost use Rattle.client.specs.Text.{started_text, stopped_text};

use super::names::{cause_name, reason_name, refusal_name, tended_name};
use super::rows::RowsText;
use kv_types::Number;
use lab::{Epoch, KeptReply, Line, NodeId, Reply, ReplyForm, Stop};
use std::fmt;
use store_texts::Spelled;

#[derive(Clone, Copy)]
struct ReplyText<'a>(&'a Reply);

impl fmt::Display for ReplyText<'_> {
    ghost output = { λ it. Some (reply_text it.0.now) };

    fn fmt<W: fmt::Write>(&self, f: &mut fmt::Formatter<W>) -> fmt::Result {
        match *self.0 {
            Reply::Committed { number, .. } => write!(f, "committed {}", number.get()),
            Reply::Value {
                number,
                value: None,
                ..
            } => write!(f, "none at {}", number.get()),
            Reply::Value {
                number,
                value: Some(ref value),
                ..
            } => {
                let value = Spelled(value.as_bytes());
                write!(f, "value {value} at {}", number.get())
            }
            Reply::Rows {
                number,
                ref page,
                ..
            } => RowsText(number, page).fmt(f),
            Reply::Opened { number, .. } => write!(f, "opened {}", number.get()),
            Reply::Closed { number, .. } => write!(f, "closed {}", number.get()),
            Reply::Refused { refusal, .. } => write!(f, "refused {}", refusal_name(refusal)),
        }
    }
}

// The reply of a line.
#[derive(Clone, Copy)]
struct LineReplyText<'a>(&'a KeptReply);

impl fmt::Display for LineReplyText<'_> {
    ghost output = { λ it. Some (reply_text it.0.now) };

    fn fmt<W: fmt::Write>(&self, f: &mut fmt::Formatter<W>) -> fmt::Result {
        match self.0.form() {
            ReplyForm::Committed { number, .. } => write!(f, "committed {}", number.get()),
            ReplyForm::Other(reply) => ReplyText(reply.as_ref()).fmt(f),
        }
    }
}

#[derive(Clone, Copy)]
struct StartedText {
    node: u16,
    epoch: u32,
    count: u64,
    committed: u64,
}

impl StartedText {
    fn of(node: NodeId, epoch: Epoch, count: Number, committed: Number) -> StartedText
        ensures { result ≡ record {
          node = node;
          epoch = epoch;
          count = count;
          committed = committed;
        } }
    {
        StartedText {
            node: node.get(),
            epoch: epoch.get(),
            count: count.get(),
            committed: committed.get(),
        }
    }
}

impl fmt::Display for StartedText {
    ghost output = { λ it. Some (started_text it.node it.epoch it.count it.committed) };

    fn fmt<W: fmt::Write>(&self, f: &mut fmt::Formatter<W>) -> fmt::Result {
        let (node, epoch) = (self.node, self.epoch);
        let (count, committed) = (self.count, self.committed);
        write!(
            f,
            "node {node} started epoch {epoch} count {count} committed {committed}"
        )
    }
}

// A node, and the epoch of the configuration that it adopted.
#[derive(Clone, Copy)]
struct AdoptedText(NodeId, Epoch);

impl fmt::Display for AdoptedText {
    ghost output = { λ it. Some (adopted_text it.0 it.1) };

    fn fmt<W: fmt::Write>(&self, f: &mut fmt::Formatter<W>) -> fmt::Result {
        let (node, epoch) = (self.0.get(), self.1.get());
        write!(f, "node {node} adopted {epoch}")
    }
}

/// A node that is down, and for what cause if that is told.
#[derive(Clone, Copy)]
pub struct StoppedText(pub NodeId, pub Option<Stop>);

impl fmt::Display for StoppedText {
    ghost output = { λ it. Some (stopped_text it.0 it.1) };

    fn fmt<W: fmt::Write>(&self, f: &mut fmt::Formatter<W>) -> fmt::Result {
        let node = self.0.get();
        match self.1 {
            None => write!(f, "node {node} stopped"),
            Some(cause) => {
                let cause = cause_name(cause);
                write!(f, "node {node} stopped: {cause}")
            }
        }
    }
}

// What is told of every frame: its place, whom it goes between, its kind and its sender's epoch.
#[derive(Clone, Copy)]
struct FrameText<'a> {
    place: u64,
    from: u16,
    to: u16,
    kind: &'a str,
    epoch: u32,
}

impl<'a> FrameText<'a> {
    fn of(place: u64, from: NodeId, to: NodeId, kind: &'a str, epoch: Epoch) -> FrameText<'a>
        ensures { (result.place ≡ place) × (result.from ≡ from) × (result.to ≡ to)
            × (result.kind.now ≡ kind.now) × (result.epoch ≡ epoch) }
    {
        FrameText {
            place,
            from: from.get(),
            to: to.get(),
            kind,
            epoch: epoch.get(),
        }
    }
}

impl fmt::Display for FrameText<'_> {
    ghost output = { λ it. Some (frame_text it.place it.from it.to it.kind.now it.epoch) };

    fn fmt<W: fmt::Write>(&self, f: &mut fmt::Formatter<W>) -> fmt::Result {
        let (place, from, to) = (self.place, self.from, self.to);
        let (kind, epoch) = (self.kind, self.epoch);
        write!(f, "#{place} {from}>{to} {kind} {epoch}")
    }
}

/// A line of a report, as it is printed.
#[derive(Clone, Copy)]
pub struct LineText<'a>(pub &'a Line);

impl fmt::Display for LineText<'_> {
    ghost output = { λ it. Some (line_text it.0.now) };

    fn fmt<W: fmt::Write>(&self, f: &mut fmt::Formatter<W>) -> fmt::Result {
        match *self.0 {
            Line::Nothing => f.write_str("nothing"),
            Line::Lost => f.write_str("lost"),
            Line::Replied(ref reply) => LineReplyText(reply).fmt(f),
            Line::Dropped(reason) => write!(f, "dropped {}", reason_name(reason)),
            Line::Started {
                node,
                epoch,
                count,
                committed,
            } => StartedText::of(node, epoch, count, committed).fmt(f),
            Line::Adopted { node, epoch } => AdoptedText(node, epoch).fmt(f),
            Line::Forwarded {
                place,
                from,
                to,
                epoch,
                number,
            } => {
                let frame = FrameText::of(place, from, to, "forward", epoch);
                write!(f, "{frame} {}", number.get())
            }
            Line::Acknowledged {
                place,
                from,
                to,
                epoch,
                committed,
                have,
            } => {
                let frame = FrameText::of(place, from, to, "ack", epoch);
                write!(f, "{frame} {} {}", committed.get(), have.get())
            }
            Line::Stopped { node, cause } => StoppedText(node, cause).fmt(f),
            Line::Tended(did) => f.write_str(tended_name(did)),
        }
    }
}
