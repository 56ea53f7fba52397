//! What a node writes to another node, and into a mailbox.

ghost use Rattle.std.specs.Prelude.{◌≡◌, ◌<◌, ◌^◌, ◌++◌, true, length, drop, IfOk};
ghost use Rattle.std.specs.List.{list_all};
ghost use Rattle.ch_ident.specs.declared.node_message.NodeMessage.{NodeMessage as NodeMessageValue};
ghost use Rattle.ch_ident.specs.Fits.{FitsMessage};
ghost use Rattle.ch_ident.specs.Names.{is_text as is_text_of, is_printable as is_printable_of};
ghost use Rattle.ch_ident.specs.Spelling.{message as message_of, reference, reason as reason_of, process as process_of, found as found_of};

use ch_base::{OutOfMemory, Text};
use ch_ident::{Name, NodeMessage, ProcessId, Reason, Ref, put_message};
use std::alloc::Global;

fn is_printable(b: u8) -> bool
    ensures { result ≡ is_printable_of b }
{
    b >= 0x20 && b <= 0x7e
}

fn all_printable(bytes: &[u8]) -> bool
    ensures { result ≡ list_all is_printable_of bytes.now }
{
    bytes.iter().all(|b| is_printable(*b))
}

fn is_text(bytes: &[u8]) -> bool
    ensures { result ≡ is_text_of bytes.now }
{
    bytes.len() <= 255 && all_printable(bytes)
}

fn is_short(bytes: &Text) -> bool
    ensures { result ≡ true → length bytes.now < 2 ^ 32 }
{
    bytes.len() <= u32::MAX as usize
}

/// Whether a message has a spelling.
fn fits(message: &NodeMessage) -> bool
    ensures { result ≡ true → FitsMessage message.now }
{
    match message {
        NodeMessage::Spawn { args, .. } => is_short(args),
        NodeMessage::NamedSend { body, .. } => is_short(body),
        NodeMessage::Died { reason, .. } => match reason {
            Reason::Exception(text) => is_text(text.as_slice()),
            _ => true,
        },
        NodeMessage::Exit { text, .. } => is_text(text.as_slice()),
        NodeMessage::Kill { text, .. } => is_text(text.as_slice()),
        _ => true,
    }
}

/// The one spelling of a message to a node. What has none is told as want of memory, since the model
/// spells it all the same, and no byte layout could be read again.
pub(crate) fn spelled(alloc: Global, message: &NodeMessage) -> Result<Text, OutOfMemory>
    ensures { IfOk result (λ text. text ≡ message_of message.now) }
{
    if !fits(message) {
        return Err(OutOfMemory);
    }
    let mut payload = Vec::new(alloc);
    put_message(message, &mut payload)?;
    Ok(Text::from_vec(payload))
}

/// The bytes after the first.
fn after_tag(alloc: Global, bytes: &Text) -> Result<Text, OutOfMemory>
    ensures { IfOk result (λ text. text ≡ drop 1 bytes.now) }
{
    match bytes.as_slice() {
        [] => Ok(Text::new(alloc)),
        [_, rest @ ..] => Text::of(alloc, rest),
    }
}

/// A reference and a reason, as a monitor's message has them.
pub(crate) fn died_body(alloc: Global, watch: &Ref, reason: &Reason) -> Result<Text, OutOfMemory>
    ensures { IfOk result (λ text. text ≡ reference watch.now ++ reason_of reason.now) }
{
    let said = NodeMessage::Died {
        watch: watch.copy()?,
        reason: reason.copy()?,
    };
    after_tag(alloc, &spelled(alloc, &said)?)
}

/// A mark of the node's own messages.
#[tactic(auto, unfolding(ch_ident::specs::Reading::name_of))]
pub(crate) fn own_mark(alloc: Global, mark: &[u8]) -> Result<Name, OutOfMemory>
    ensures { IfOk result (λ name. name ≡ mark.now) }
{
    match Name::new(alloc, mark) {
        Ok(name) => Ok(name),
        Err(_) => Err(OutOfMemory),
    }
}

/// A reference and a process, as the answer to a spawn has them.
pub(crate) fn spawned_body(
    alloc: Global,
    question: &Ref,
    process: &ProcessId,
) -> Result<Text, OutOfMemory>
    ensures { IfOk result (λ text. text ≡ reference question.now ++ process_of process.now) }
{
    let said = NodeMessage::DidSpawn {
        question: question.copy()?,
        process: process.copy()?,
    };
    after_tag(alloc, &spelled(alloc, &said)?)
}

/// An equal finding.
pub(crate) fn copy_found(at: &Option<ProcessId>) -> Result<Option<ProcessId>, OutOfMemory>
    ensures { IfOk result (λ copied. copied ≡ at.now) }
{
    match at {
        None => Ok(None),
        Some(process) => Ok(Some(process.copy()?)),
    }
}

/// A reference and what was found, as the answer to a question for a name has them.
pub(crate) fn found_body(
    alloc: Global,
    question: &Ref,
    at: &Option<ProcessId>,
) -> Result<Text, OutOfMemory>
    ensures { IfOk result (λ text. text ≡ reference question.now ++ found_of at.now) }
{
    let said = NodeMessage::IsAt {
        question: question.copy()?,
        found: copy_found(at)?,
    };
    after_tag(alloc, &spelled(alloc, &said)?)
}
