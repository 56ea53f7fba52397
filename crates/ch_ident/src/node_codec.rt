//! The messages from node to node as bytes, read and written: a tag, then the fields in order.
//! Below are the readers and writers of the fields; a node writes these to its peers and reads
//! what they wrote.

ghost use Rattle.std.specs.Prelude.{◌≡◌, ◌++◌, IfOk, OnOk, OnErr, Ok};
ghost use Rattle.ch_ident.specs.Fits.{FitsMessage, IsMessage};
ghost use Rattle.ch_ident.specs.Outcome.{Gives, GivesBy};
ghost use Rattle.ch_ident.specs.Reading.{opening_at, monitor_at, unmonitor_at, link_at, unlink_at, spawn_at, did_spawn_at, died_at, where_is_at, is_at_at, named_send_at, exit_at, kill_at, message_at, message_of};
ghost use Rattle.ch_ident.specs.Spelling.{message};
ghost use Rattle.ch_ident.specs.declared.node_message.NodeMessage.{NodeMessage};

use crate::error::IdentError;
use crate::field::{read_long, read_name, read_text, write_long, write_name, write_text};
use crate::identifier::{
    read_found, read_identifier, read_process, read_reference, write_found, write_identifier,
    write_process, write_reference,
};
use crate::node_message::NodeMessage;
use crate::reason::{read_reason, write_reason};
use ch_base::OutOfMemory;
use std::alloc::Global;

#[tactic(auto, unfolding(crate::specs::Reading::opening_at))]
fn read_opening(alloc: Global, bytes: &[u8]) -> Result<(NodeMessage, &[u8]), IdentError>
    ensures { GivesBy (λ x. (x.0, x.1.now)) result (opening_at bytes.now) }
{
    let (from, rest) = read_identifier(alloc, bytes)?;
    let (to, rest) = read_identifier(alloc, rest)?;
    Ok((NodeMessage::Opening { from, to }, rest))
}

#[tactic(auto, unfolding(crate::specs::Reading::monitor_at))]
fn read_monitor(alloc: Global, bytes: &[u8]) -> Result<(NodeMessage, &[u8]), IdentError>
    ensures { GivesBy (λ x. (x.0, x.1.now)) result (monitor_at bytes.now) }
{
    let (watch, rest) = read_reference(alloc, bytes)?;
    let (target, rest) = read_process(alloc, rest)?;
    Ok((NodeMessage::Monitor { watch, target }, rest))
}

#[tactic(auto, unfolding(crate::specs::Reading::unmonitor_at))]
fn read_unmonitor(alloc: Global, bytes: &[u8]) -> Result<(NodeMessage, &[u8]), IdentError>
    ensures { GivesBy (λ x. (x.0, x.1.now)) result (unmonitor_at bytes.now) }
{
    let (watch, rest) = read_reference(alloc, bytes)?;
    Ok((NodeMessage::Unmonitor { watch }, rest))
}

#[tactic(auto, unfolding(crate::specs::Reading::link_at))]
fn read_link(alloc: Global, bytes: &[u8]) -> Result<(NodeMessage, &[u8]), IdentError>
    ensures { GivesBy (λ x. (x.0, x.1.now)) result (link_at bytes.now) }
{
    let (watch, rest) = read_reference(alloc, bytes)?;
    let (target, rest) = read_process(alloc, rest)?;
    Ok((NodeMessage::Link { watch, target }, rest))
}

#[tactic(auto, unfolding(crate::specs::Reading::unlink_at))]
fn read_unlink(alloc: Global, bytes: &[u8]) -> Result<(NodeMessage, &[u8]), IdentError>
    ensures { GivesBy (λ x. (x.0, x.1.now)) result (unlink_at bytes.now) }
{
    let (watch, rest) = read_reference(alloc, bytes)?;
    Ok((NodeMessage::Unlink { watch }, rest))
}

#[tactic(auto, unfolding(crate::specs::Reading::spawn_at))]
fn read_spawn(alloc: Global, bytes: &[u8]) -> Result<(NodeMessage, &[u8]), IdentError>
    ensures { GivesBy (λ x. (x.0, x.1.now)) result (spawn_at bytes.now) }
{
    let (question, rest) = read_reference(alloc, bytes)?;
    let (label, rest) = read_name(alloc, rest)?;
    let (args, rest) = read_long(alloc, rest)?;
    Ok((
        NodeMessage::Spawn {
            question,
            label,
            args,
        },
        rest,
    ))
}

#[tactic(auto, unfolding(crate::specs::Reading::did_spawn_at))]
fn read_did_spawn(alloc: Global, bytes: &[u8]) -> Result<(NodeMessage, &[u8]), IdentError>
    ensures { GivesBy (λ x. (x.0, x.1.now)) result (did_spawn_at bytes.now) }
{
    let (question, rest) = read_reference(alloc, bytes)?;
    let (process, rest) = read_process(alloc, rest)?;
    Ok((NodeMessage::DidSpawn { question, process }, rest))
}

#[tactic(auto, unfolding(crate::specs::Reading::died_at))]
fn read_died(alloc: Global, bytes: &[u8]) -> Result<(NodeMessage, &[u8]), IdentError>
    ensures { GivesBy (λ x. (x.0, x.1.now)) result (died_at bytes.now) }
{
    let (watch, rest) = read_reference(alloc, bytes)?;
    let (reason, rest) = read_reason(alloc, rest)?;
    Ok((NodeMessage::Died { watch, reason }, rest))
}

#[tactic(auto, unfolding(crate::specs::Reading::where_is_at))]
fn read_where_is(alloc: Global, bytes: &[u8]) -> Result<(NodeMessage, &[u8]), IdentError>
    ensures { GivesBy (λ x. (x.0, x.1.now)) result (where_is_at bytes.now) }
{
    let (question, rest) = read_reference(alloc, bytes)?;
    let (name, rest) = read_name(alloc, rest)?;
    Ok((NodeMessage::WhereIs { question, name }, rest))
}

#[tactic(auto, unfolding(crate::specs::Reading::is_at_at))]
fn read_is_at(alloc: Global, bytes: &[u8]) -> Result<(NodeMessage, &[u8]), IdentError>
    ensures { GivesBy (λ x. (x.0, x.1.now)) result (is_at_at bytes.now) }
{
    let (question, rest) = read_reference(alloc, bytes)?;
    let (found, rest) = read_found(alloc, rest)?;
    Ok((NodeMessage::IsAt { question, found }, rest))
}

#[tactic(auto, unfolding(crate::specs::Reading::named_send_at))]
fn read_named_send(alloc: Global, bytes: &[u8]) -> Result<(NodeMessage, &[u8]), IdentError>
    ensures { GivesBy (λ x. (x.0, x.1.now)) result (named_send_at bytes.now) }
{
    let (name, rest) = read_name(alloc, bytes)?;
    let (mark, rest) = read_name(alloc, rest)?;
    let (body, rest) = read_long(alloc, rest)?;
    Ok((NodeMessage::NamedSend { name, mark, body }, rest))
}

#[tactic(auto, unfolding(crate::specs::Reading::exit_at))]
fn read_exit(alloc: Global, bytes: &[u8]) -> Result<(NodeMessage, &[u8]), IdentError>
    ensures { GivesBy (λ x. (x.0, x.1.now)) result (exit_at bytes.now) }
{
    let (target, rest) = read_process(alloc, bytes)?;
    let (text, rest) = read_text(alloc, rest)?;
    Ok((NodeMessage::Exit { target, text }, rest))
}

#[tactic(auto, unfolding(crate::specs::Reading::kill_at))]
fn read_kill(alloc: Global, bytes: &[u8]) -> Result<(NodeMessage, &[u8]), IdentError>
    ensures { GivesBy (λ x. (x.0, x.1.now)) result (kill_at bytes.now) }
{
    let (target, rest) = read_process(alloc, bytes)?;
    let (text, rest) = read_text(alloc, rest)?;
    Ok((NodeMessage::Kill { target, text }, rest))
}

/// The table of tags, read.
#[tactic(auto, unfolding(crate::specs::Reading::message_at, crate::specs::Reading::fields_at))]
fn read_message(alloc: Global, bytes: &[u8]) -> Result<(NodeMessage, &[u8]), IdentError>
    ensures { GivesBy (λ x. (x.0, x.1.now)) result (message_at bytes.now) }
{
    match bytes {
        [] => Err(IdentError::Short),
        [0, rest @ ..] => read_opening(alloc, rest),
        [1, rest @ ..] => read_monitor(alloc, rest),
        [2, rest @ ..] => read_unmonitor(alloc, rest),
        [3, rest @ ..] => read_link(alloc, rest),
        [4, rest @ ..] => read_unlink(alloc, rest),
        [5, rest @ ..] => read_spawn(alloc, rest),
        [6, rest @ ..] => read_did_spawn(alloc, rest),
        [7, rest @ ..] => read_died(alloc, rest),
        [8, rest @ ..] => read_where_is(alloc, rest),
        [9, rest @ ..] => read_is_at(alloc, rest),
        [10, rest @ ..] => read_named_send(alloc, rest),
        [11, rest @ ..] => read_exit(alloc, rest),
        [12, rest @ ..] => read_kill(alloc, rest),
        [_, ..] => Err(IdentError::BadTag),
    }
}

/// The table of tags, written.
fn write_message(value: &NodeMessage, out: &mut Vec<u8>) -> Result<(), OutOfMemory>
    requires { FitsMessage value.now }
    ensures { OnOk result (out.new.items ≡ out.old.items ++ message value.now) }
{
    match value {
        NodeMessage::Opening { from, to } => {
            out.push(0)?;
            write_identifier(from, out)?;
            write_identifier(to, out)
        }
        NodeMessage::Monitor { watch, target } => {
            out.push(1)?;
            write_reference(watch, out)?;
            write_process(target, out)
        }
        NodeMessage::Unmonitor { watch } => {
            out.push(2)?;
            write_reference(watch, out)
        }
        NodeMessage::Link { watch, target } => {
            out.push(3)?;
            write_reference(watch, out)?;
            write_process(target, out)
        }
        NodeMessage::Unlink { watch } => {
            out.push(4)?;
            write_reference(watch, out)
        }
        NodeMessage::Spawn {
            question,
            label,
            args,
        } => {
            out.push(5)?;
            write_reference(question, out)?;
            write_name(label, out)?;
            write_long(args, out)
        }
        NodeMessage::DidSpawn { question, process } => {
            out.push(6)?;
            write_reference(question, out)?;
            write_process(process, out)
        }
        NodeMessage::Died { watch, reason } => {
            out.push(7)?;
            write_reference(watch, out)?;
            write_reason(reason, out)
        }
        NodeMessage::WhereIs { question, name } => {
            out.push(8)?;
            write_reference(question, out)?;
            write_name(name, out)
        }
        NodeMessage::IsAt { question, found } => {
            out.push(9)?;
            write_reference(question, out)?;
            write_found(found, out)
        }
        NodeMessage::NamedSend { name, mark, body } => {
            out.push(10)?;
            write_name(name, out)?;
            write_name(mark, out)?;
            write_long(body, out)
        }
        NodeMessage::Exit { target, text } => {
            out.push(11)?;
            write_process(target, out)?;
            write_text(text, out)
        }
        NodeMessage::Kill { target, text } => {
            out.push(12)?;
            write_process(target, out)?;
            write_text(text, out)
        }
    }
}

/// Appends the one spelling of a message from node to node: its tag, then its fields in order.
/// Each text has at most 255 bytes from 0x20 to 0x7e, and arguments and bodies have fewer than
/// 2 to the 32nd bytes.
///
/// The only refusal is want of memory, after which the vector is unchanged.
pub fn put_message(value: &NodeMessage, out: &mut Vec<u8>) -> Result<(), OutOfMemory>
    requires { FitsMessage value.now }
    ensures ok { OnOk result (out.new.items ≡ out.old.items ++ message value.now) }
    ensures err { OnErr result (out.new.items ≡ out.old.items) }
{
    // Spelled apart, so that want of memory on the way leaves `out` as it was.
    let mut spelled = Vec::new(*out.allocator());
    write_message(value, &mut spelled)?;
    out.extend_from_slice(&spelled)?;
    Ok(())
}

#[tactic(auto, unfolding(crate::specs::Reading::message_of, crate::specs::Reading::whole))]
fn read_all(alloc: Global, bytes: &[u8]) -> Result<NodeMessage, IdentError>
    ensures { Gives result (message_of bytes.now) }
{
    let (message, rest) = read_message(alloc, bytes)?;
    if !rest.is_empty() {
        return Err(IdentError::Extra);
    }
    Ok(message)
}

/// The message from node to node that the bytes spell, all of them.
///
/// Refuses with the first fault from the front: `Short` where they end inside a field, `BadTag`
/// for a tag or a flag that isn't in its table, `BadText` for an address, a name or a text out of
/// its rule, `Extra` where bytes follow the last field. The texts of `Exit` and `Kill` may be
/// longer or shorter here than a process's reason may be.
pub fn take_message(alloc: Global, bytes: &[u8]) -> Result<NodeMessage, IdentError>
    // What is read is spelled so.
    ensures found { IfOk result (λ m. IsMessage m × (bytes.now ≡ message m)) }
    // What is spelled so is read, unless memory runs out.
    ensures only { (m : NodeMessage) → IsMessage m → bytes.now ≡ message m → Gives result (Ok m) }
    // Which fault it is.
    ensures exact { Gives result (message_of bytes.now) }
{
    read_all(alloc, bytes)
}
