//! The last answer that was written. An agent that waits for others looks again and again, and is answered the same
//! many times.

ghost use Rattle.std.specs.Prelude.{◌≡◌, Some, None, IfSome, IsTrue, OnOk};
ghost use Rattle.bhs_session.specs.Texts.{text_of};

use crate::replies::push_reply;
use bhs_model::Reply;
use bhs_net::Memory;
use bhs_wire::LentReply;
use std::alloc::Global;
use std::marker::Model;

/// An answer with its line, cached so that an equal answer is not formatted again. Contracts see the answer, if there
/// is one.
#[derive(Drop)]
pub(crate) struct LastLine {
    reply: Option<Reply>,
    line: Vec<u8>,
}

impl Model for LastLine {
    ghost use Rattle.std.specs.Prelude.{◌≡◌, Option};
    ghost use Rattle.std.specs.Option.{ForSome};
    ghost use Rattle.bhs_model.specs.declared.replies.Reply.{Reply};
    ghost use Rattle.bhs_session.specs.Texts.{text_of};

    ghost Value = { Option Reply };

    ghost view = { λ l. l.reply };

    ghost invariant = { λ l. ForSome l.reply (λ reply. l.line.items ≡ text_of reply) };
}

impl LastLine {
    /// Of no answer yet. Takes no memory.
    pub(crate) fn new(alloc: Global) -> LastLine
        ensures { result ≡ None }
    {
        LastLine {
            reply: None,
            line: Vec::new(alloc),
        }
    }

    /// Puts together the line of an answer, unless it is the last one. After an `Err` there is no last answer.
    #[inline(always)]
    pub(crate) fn put(&mut self, reply: Reply) -> Result<(), Memory>
        ensures { OnOk result (self.new ≡ Some reply) }
    {
        if self.is_of(&reply) {
            return Ok(());
        }
        self.reply = None;
        self.line.clear();
        let alloc = *self.line.allocator();
        push_reply(alloc, LentReply::of_reply(&reply), &mut self.line)?;
        self.reply = Some(reply);
        Ok(())
    }

    // Returns whether this is the cached answer.
    #[inline(always)]
    fn is_of(&self, reply: &Reply) -> bool
        ensures { IsTrue result → self.now ≡ Some reply.now }
    {
        match &self.reply {
            Some(last) => *last == *reply,
            None => false,
        }
    }

    /// The line of the last answer, with its line feed.
    #[inline(always)]
    pub(crate) fn line(&self) -> &[u8]
        ensures { IfSome self.now (λ reply. result.now ≡ text_of reply) }
    {
        &self.line
    }
}
