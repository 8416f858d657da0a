// Replies as a list of lines keeps them.
ghost use Rattle.std.specs.Prelude.{◌≡◌, IfOk, IsOk};
ghost use Rattle.carriers.specs.KeptReplies.{IsCommit, kept_reply};

use kv_types::Number;
use node::Reply;
use std::alloc::{AllocError, Global};
use std::marker::Model;

/// How a reply is kept. Most report a batch that is committed, and need no allocation.
#[derive(Drop)]
pub enum ReplyForm {
    Committed { request: Number, number: Number },
    Other(Box<Reply>),
}

/// A reply that is kept, in less memory. Contracts see it as a `Reply`.
#[derive(Drop)]
pub struct KeptReply {
    form: ReplyForm,
}

impl Model for KeptReply {
    ghost use Rattle.node.specs.declared.Reply.{Reply};
    ghost use Rattle.carriers.specs.KeptReplies.{kept_reply};

    ghost Value = { Reply };

    ghost view = { λ it. kept_reply it.form };
}

impl KeptReply {
    /// This reply. Refused where memory runs out for its box; that of a commit has none.
    #[inline(always)]
    pub fn new(alloc: Global, reply: Reply) -> Result<KeptReply, AllocError>
        ensures same { IfOk result (λ it. it ≡ reply) }
        ensures unboxed { IsCommit reply → IsOk result }
    {
        let form = match reply {
            Reply::Committed { request, number } => ReplyForm::Committed { request, number },
            reply => ReplyForm::Other(Box::new(alloc, reply)?),
        };
        Ok(KeptReply { form })
    }

    /// How it is kept.
    pub fn form(&self) -> &ReplyForm
        ensures { kept_reply result.now ≡ self.now }
    {
        &self.form
    }
}
