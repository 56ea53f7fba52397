//! A user's message, as it stands in a mailbox, and its spelling in one payload.
//! Below are names; mailboxes and typed values stand above.

ghost use Rattle.std.specs.Prelude.{◌≡◌, ◌++◌, IfOk, OnOk, OnErr, Ok};
ghost use Rattle.ch_ident.specs.Fits.{IsUser};
ghost use Rattle.ch_ident.specs.Outcome.{Gives};
ghost use Rattle.ch_ident.specs.Reading.{user_of};
ghost use Rattle.ch_ident.specs.Spelling.{user};
ghost use Rattle.ch_ident.specs.declared.message.Message.{Message};

use crate::error::IdentError;
use crate::field::read_name;
use crate::name::Name;
use ch_base::{OutOfMemory, Text};
use std::alloc::Global;

/// A message between processes: the mark of its type, and its body.
#[derive(Debug, Drop)]
pub struct Message {
    pub mark: Name,
    pub body: Text,
}

impl Message {
    /// An equal message.
    pub fn copy(&self) -> Result<Message, OutOfMemory>
        ensures { IfOk result (λ m. m ≡ self.now) }
    {
        Ok(Message {
            mark: self.mark.copy()?,
            body: self.body.copy()?,
        })
    }
}

/// Appends the one spelling of a user's message: its mark as a name, then its body.
///
/// The only refusal is want of memory, after which the vector is unchanged.
pub fn put_user(value: &Message, out: &mut Vec<u8>) -> Result<(), OutOfMemory>
    ensures ok { OnOk result (out.new.items ≡ out.old.items ++ user value.now) }
    ensures err { OnErr result (out.new.items ≡ out.old.items) }
{
    let mark = &value.mark;
    let mark = mark.bytes.as_slice();
    let body = value.body.as_slice();
    // With room for all of it, no append below fails.
    out.reserve(1 + mark.len() + body.len())?;
    out.push(mark.len() as u8)?;
    out.extend_from_slice(mark)?;
    out.extend_from_slice(body)?;
    Ok(())
}

#[tactic(auto, unfolding(crate::specs::Reading::user_of))]
fn read_user(alloc: Global, bytes: &[u8]) -> Result<Message, IdentError>
    ensures { Gives result (user_of bytes.now) }
{
    let (mark, body) = read_name(alloc, bytes)?;
    let body = Text::of(alloc, body)?;
    Ok(Message { mark, body })
}

/// The user's message that the bytes spell: the body is all that follows the mark.
///
/// Refuses with `Short` where the bytes end inside the mark, with `BadText` where its length isn't
/// 1 to 63 or a byte of it isn't from 0x21 to 0x7e, whichever fault stands first.
pub fn take_user(alloc: Global, bytes: &[u8]) -> Result<Message, IdentError>
    // What is read is spelled so.
    ensures found { IfOk result (λ m. IsUser m × (bytes.now ≡ user m)) }
    // What is spelled so is read, unless memory runs out.
    ensures only { (m : Message) → IsUser m → bytes.now ≡ user m → Gives result (Ok m) }
    // Which fault it is.
    ensures exact { Gives result (user_of bytes.now) }
{
    read_user(alloc, bytes)
}
