//! The fields that name a process, a target, a reference or a socket.
//!
//! Each is cut into names and digits first. The numbers of the digits are asked for when every field of
//! the line is of its class. Plain fields stand below, and lines above.

ghost use Rattle.std.specs.Prelude.{◌≡◌};
ghost use Rattle.std.specs.Option.{option_map};
ghost use Rattle.ch_model.specs.FieldsOfNames.{process_of, destination_of, named_of, reference_of, socket_of, numbered as numbered_of, numbered_target as numbered_target_of, numbered_destination as numbered_destination_of, numbered_reference as numbered_reference_of, numbered_socket as numbered_socket_of, target_node as target_node_of};
ghost use Rattle.ch_fields.specs.Outcome.{Gives};

use crate::fault::Fault;
use crate::plain_field::{apart, digits, node_name, number, split_at_byte, word};
use ch_base::Text;
use ch_model::{BadKind, ProcName, RefName, SockName, TargetName};
use std::alloc::Global;

/// A process: a node's name, a dot and digits.
#[tactic(auto, unfolding(ch_model::specs::FieldsOfNames::process_of))]
pub fn process(field: &[u8]) -> Result<(&[u8], &[u8]), Fault>
    ensures { Gives (λ p. (p.0.now, p.1.now)) result (process_of field.now) }
{
    let (name, number) = split_at_byte(b'.', field).ok_or(Fault::Bad(BadKind::Form))?;
    let name = node_name(name)?;
    let number = digits(number)?;
    Ok((name, number))
}

/// A destination: a process, or a process, a slash and the digits of its port.
#[tactic(auto, unfolding(ch_model::specs::FieldsOfNames::destination_of, ch_model::specs::FieldsOfNames::destination_parts))]
pub fn destination(field: &[u8]) -> Result<((&[u8], &[u8]), Option<&[u8]>), Fault>
    ensures { Gives (λ p. ((p.0.0.now, p.0.1.now), option_map (λ r. r.now) p.1)) result (destination_of field.now) }
{
    match split_at_byte(b'/', field) {
        None => {
            let process = process(field)?;
            Ok((process, None))
        }
        Some((front, back)) => {
            let process = process(front)?;
            let port = digits(back)?;
            Ok((process, Some(port)))
        }
    }
}

/// A named target: a node's name, a colon and a word.
#[tactic(auto, unfolding(ch_model::specs::FieldsOfNames::named_of))]
pub fn named(alloc: Global, field: &[u8]) -> Result<TargetName, Fault>
    ensures { Gives (λ x. x) result (named_of field.now) }
{
    let (node, name) = split_at_byte(b':', field).ok_or(Fault::Bad(BadKind::Form))?;
    let node = node_name(node)?;
    let name = word(alloc, name)?;
    Ok(TargetName::Named {
        node: Text::of(alloc, node)?,
        name,
    })
}

/// A reference: a node's name, an exclamation mark and digits.
#[tactic(auto, unfolding(ch_model::specs::FieldsOfNames::reference_of))]
pub fn reference(field: &[u8]) -> Result<(&[u8], &[u8]), Fault>
    ensures { Gives (λ p. (p.0.now, p.1.now)) result (reference_of field.now) }
{
    let (name, number) = split_at_byte(b'!', field).ok_or(Fault::Bad(BadKind::Form))?;
    let name = node_name(name)?;
    let number = digits(number)?;
    Ok((name, number))
}

/// A socket: two different names with `>` between them, a dot and digits.
#[tactic(auto, unfolding(ch_model::specs::FieldsOfNames::socket_of))]
pub fn socket(field: &[u8]) -> Result<(&[u8], &[u8], &[u8]), Fault>
    ensures { Gives (λ p. (p.0.now, p.1.now, p.2.now)) result (socket_of field.now) }
{
    let (from, rest) = split_at_byte(b'>', field).ok_or(Fault::Bad(BadKind::Form))?;
    let from = node_name(from)?;
    let (to, number) = process(rest)?;
    let to = apart(from, to)?;
    Ok((from, to, number))
}

/// A process whose number is in its range.
#[tactic(auto, unfolding(ch_model::specs::FieldsOfNames::numbered))]
pub fn numbered(alloc: Global, name: &[u8], digits: &[u8]) -> Result<ProcName, Fault>
    ensures { Gives (λ x. x) result (numbered_of (name.now, digits.now)) }
{
    let counter = number(digits)?;
    Ok(ProcName {
        node: Text::of(alloc, name)?,
        counter,
    })
}

/// A target that is this process, or its port by its digits.
#[tactic(auto, unfolding(ch_model::specs::FieldsOfNames::numbered_target))]
fn numbered_target(process: ProcName, port: Option<&[u8]>) -> Result<TargetName, Fault>
    ensures { Gives (λ x. x) result (numbered_target_of process (option_map (λ r. r.now) port.entry)) }
{
    match port {
        None => Ok(TargetName::Process { process }),
        Some(digits) => {
            let port = number(digits)?;
            Ok(TargetName::Port { process, port })
        }
    }
}

/// A destination whose numbers are in their range.
#[tactic(auto, unfolding(ch_model::specs::FieldsOfNames::numbered_destination))]
pub fn numbered_destination(
    alloc: Global,
    name: &[u8],
    digits: &[u8],
    port: Option<&[u8]>,
) -> Result<TargetName, Fault>
    ensures { Gives (λ x. x) result (numbered_destination_of ((name.now, digits.now), option_map (λ r. r.now) port.entry)) }
{
    let process = numbered(alloc, name, digits)?;
    numbered_target(process, port)
}

/// A reference whose number is in its range.
#[tactic(auto, unfolding(ch_model::specs::FieldsOfNames::numbered_reference))]
pub fn numbered_reference(alloc: Global, name: &[u8], digits: &[u8]) -> Result<RefName, Fault>
    ensures { Gives (λ x. x) result (numbered_reference_of (name.now, digits.now)) }
{
    let number = number(digits)?;
    Ok(RefName {
        node: Text::of(alloc, name)?,
        number,
    })
}

/// A socket whose number is in its range.
#[tactic(auto, unfolding(ch_model::specs::FieldsOfNames::numbered_socket))]
pub fn numbered_socket(
    alloc: Global,
    from: &[u8],
    to: &[u8],
    digits: &[u8],
) -> Result<SockName, Fault>
    ensures { Gives (λ x. x) result (numbered_socket_of (from.now, to.now, digits.now)) }
{
    let number = number(digits)?;
    Ok(SockName {
        from: Text::of(alloc, from)?,
        to: Text::of(alloc, to)?,
        number,
    })
}

/// The node of a target.
pub fn target_node(target: &TargetName) -> &[u8]
    ensures { result.now ≡ target_node_of target.now }
{
    match target {
        TargetName::Process { process } => process.node.as_slice(),
        TargetName::Port { process, .. } => process.node.as_slice(),
        TargetName::Named { node, .. } => node.as_slice(),
    }
}
