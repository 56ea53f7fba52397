//! Who a message is from or for, and the references of what a node asked for: processes, their
//! ports, references and ends of connections, each type with its reader and its writer. Below are
//! single fields; the messages that carry them stand above.

ghost use Rattle.std.specs.Prelude.{◌≡◌, ◌++◌, IfOk, OnOk, OnErr, Ok};
ghost use Rattle.ch_ident.specs.Fits.{IsIdentifier};
ghost use Rattle.ch_ident.specs.Outcome.{Gives, GivesBy};
ghost use Rattle.ch_ident.specs.Reading.{process_at, port_at, reference_at, found_at, identifier_at, identifier_of};
ghost use Rattle.ch_ident.specs.Spelling.{process, port, reference, found, identifier};
ghost use Rattle.ch_ident.specs.declared.identifier.Identifier.{Identifier};

use crate::error::IdentError;
use crate::field::{read_address, read_number, write_address, write_number};
use ch_base::{Address, OutOfMemory};
use std::alloc::Global;

/// A process: its node, the unique number of that node's run, and its number in it.
#[derive(Debug, Drop)]
pub struct ProcessId {
    pub node: Address,
    pub unique: u32,
    pub counter: u32,
}

impl ProcessId {
    /// An equal process id.
    pub fn copy(&self) -> Result<ProcessId, OutOfMemory>
        ensures { IfOk result (λ p. p ≡ self.now) }
    {
        Ok(ProcessId {
            node: self.node.copy()?,
            unique: self.unique,
            counter: self.counter,
        })
    }
}

/// A process's port, by its number in that process.
#[derive(Debug, Drop)]
pub struct SendPortId {
    pub process: ProcessId,
    pub port: u32,
}

impl SendPortId {
    /// An equal port id.
    pub fn copy(&self) -> Result<SendPortId, OutOfMemory>
        ensures { IfOk result (λ p. p ≡ self.now) }
    {
        Ok(SendPortId {
            process: self.process.copy()?,
            port: self.port,
        })
    }
}

/// What a node was asked for: the asking node, and a number of its one counter.
#[derive(Debug, Drop)]
pub struct Ref {
    pub node: Address,
    pub number: u32,
}

impl Ref {
    /// An equal reference.
    pub fn copy(&self) -> Result<Ref, OutOfMemory>
        ensures { IfOk result (λ r. r ≡ self.now) }
    {
        Ok(Ref {
            node: self.node.copy()?,
            number: self.number,
        })
    }
}

/// The reference of a monitor or a link.
pub type MonitorRef = Ref;

/// The reference of a spawn or a question for a name.
pub type SpawnRef = Ref;

#[tactic(auto, unfolding(crate::specs::Reading::process_at))]
pub(crate) fn read_process(alloc: Global, bytes: &[u8]) -> Result<(ProcessId, &[u8]), IdentError>
    ensures { GivesBy (λ x. (x.0, x.1.now)) result (process_at bytes.now) }
{
    let (node, rest) = read_address(alloc, bytes)?;
    let (unique, rest) = read_number(rest)?;
    let (counter, rest) = read_number(rest)?;
    Ok((
        ProcessId {
            node,
            unique,
            counter,
        },
        rest,
    ))
}

pub(crate) fn write_process(id: &ProcessId, out: &mut Vec<u8>) -> Result<(), OutOfMemory>
    ensures { OnOk result (out.new.items ≡ out.old.items ++ process id.now) }
{
    write_address(&id.node, out)?;
    write_number(id.unique, out)?;
    write_number(id.counter, out)
}

#[tactic(auto, unfolding(crate::specs::Reading::port_at))]
pub(crate) fn read_port(alloc: Global, bytes: &[u8]) -> Result<(SendPortId, &[u8]), IdentError>
    ensures { GivesBy (λ x. (x.0, x.1.now)) result (port_at bytes.now) }
{
    let (process, rest) = read_process(alloc, bytes)?;
    let (port, rest) = read_number(rest)?;
    Ok((SendPortId { process, port }, rest))
}

pub(crate) fn write_port(id: &SendPortId, out: &mut Vec<u8>) -> Result<(), OutOfMemory>
    ensures { OnOk result (out.new.items ≡ out.old.items ++ port id.now) }
{
    write_process(&id.process, out)?;
    write_number(id.port, out)
}

#[tactic(auto, unfolding(crate::specs::Reading::reference_at))]
pub(crate) fn read_reference(alloc: Global, bytes: &[u8]) -> Result<(Ref, &[u8]), IdentError>
    ensures { GivesBy (λ x. (x.0, x.1.now)) result (reference_at bytes.now) }
{
    let (node, rest) = read_address(alloc, bytes)?;
    let (number, rest) = read_number(rest)?;
    Ok((Ref { node, number }, rest))
}

pub(crate) fn write_reference(id: &Ref, out: &mut Vec<u8>) -> Result<(), OutOfMemory>
    ensures { OnOk result (out.new.items ≡ out.old.items ++ reference id.now) }
{
    write_address(&id.node, out)?;
    write_number(id.number, out)
}

#[tactic(auto, unfolding(crate::specs::Reading::found_at))]
pub(crate) fn read_found(
    alloc: Global,
    bytes: &[u8],
) -> Result<(Option<ProcessId>, &[u8]), IdentError>
    ensures { GivesBy (λ x. (x.0, x.1.now)) result (found_at bytes.now) }
{
    match bytes {
        [] => Err(IdentError::Short),
        [0, rest @ ..] => Ok((None, rest)),
        [1, rest @ ..] => {
            let (process, rest) = read_process(alloc, rest)?;
            Ok((Some(process), rest))
        }
        [_, ..] => Err(IdentError::BadTag),
    }
}

pub(crate) fn write_found(id: &Option<ProcessId>, out: &mut Vec<u8>) -> Result<(), OutOfMemory>
    ensures { OnOk result (out.new.items ≡ out.old.items ++ found id.now) }
{
    match id {
        None => out.push(0)?,
        Some(process) => {
            out.push(1)?;
            write_process(process, out)?;
        }
    }
    Ok(())
}

/// An end of a connection.
#[derive(Debug, Drop)]
pub enum Identifier {
    Node(Address),
    Process(ProcessId),
    Port(SendPortId),
}

impl Identifier {
    /// An equal identifier.
    pub fn copy(&self) -> Result<Identifier, OutOfMemory>
        ensures { IfOk result (λ i. i ≡ self.now) }
    {
        match self {
            Identifier::Node(node) => Ok(Identifier::Node(node.copy()?)),
            Identifier::Process(process) => Ok(Identifier::Process(process.copy()?)),
            Identifier::Port(port) => Ok(Identifier::Port(port.copy()?)),
        }
    }
}

#[tactic(auto, unfolding(crate::specs::Reading::identifier_at))]
pub(crate) fn read_identifier(
    alloc: Global,
    bytes: &[u8],
) -> Result<(Identifier, &[u8]), IdentError>
    ensures { GivesBy (λ x. (x.0, x.1.now)) result (identifier_at bytes.now) }
{
    match bytes {
        [] => Err(IdentError::Short),
        [0, rest @ ..] => {
            let (node, rest) = read_address(alloc, rest)?;
            Ok((Identifier::Node(node), rest))
        }
        [1, rest @ ..] => {
            let (process, rest) = read_process(alloc, rest)?;
            Ok((Identifier::Process(process), rest))
        }
        [2, rest @ ..] => {
            let (port, rest) = read_port(alloc, rest)?;
            Ok((Identifier::Port(port), rest))
        }
        [_, ..] => Err(IdentError::BadTag),
    }
}

pub(crate) fn write_identifier(id: &Identifier, out: &mut Vec<u8>) -> Result<(), OutOfMemory>
    ensures { OnOk result (out.new.items ≡ out.old.items ++ identifier id.now) }
{
    match id {
        Identifier::Node(node) => {
            out.push(0)?;
            write_address(node, out)
        }
        Identifier::Process(process) => {
            out.push(1)?;
            write_process(process, out)
        }
        Identifier::Port(port) => {
            out.push(2)?;
            write_port(port, out)
        }
    }
}

#[tactic(auto, unfolding(crate::specs::Reading::identifier_of, crate::specs::Reading::whole))]
fn read_all(alloc: Global, bytes: &[u8]) -> Result<Identifier, IdentError>
    ensures { Gives result (identifier_of bytes.now) }
{
    let (id, rest) = read_identifier(alloc, bytes)?;
    if !rest.is_empty() {
        return Err(IdentError::Extra);
    }
    Ok(id)
}

/// Appends the one spelling of an identifier: its tag, and the fields of the node, process or port.
///
/// The only refusal is want of memory, after which the vector is unchanged.
pub fn put_identifier(value: &Identifier, out: &mut Vec<u8>) -> Result<(), OutOfMemory>
    ensures ok { OnOk result (out.new.items ≡ out.old.items ++ identifier value.now) }
    ensures err { OnErr result (out.new.items ≡ out.old.items) }
{
    // Spelled apart, so that want of memory on the way leaves `out` as it was.
    let mut spelled = Vec::new(*out.allocator());
    write_identifier(value, &mut spelled)?;
    out.extend_from_slice(&spelled)?;
    Ok(())
}

/// The identifier that the bytes spell, all of them.
///
/// Refuses with the first fault from the front: `Short` where they end inside a field, `BadTag`
/// for a tag over 2, `BadText` for an address out of its rule, `Extra` where bytes follow.
pub fn take_identifier(alloc: Global, bytes: &[u8]) -> Result<Identifier, IdentError>
    // What is read is spelled so.
    ensures found { IfOk result (λ i. IsIdentifier i × (bytes.now ≡ identifier i)) }
    // What is spelled so is read, unless memory runs out.
    ensures only { (i : Identifier) → IsIdentifier i → bytes.now ≡ identifier i → Gives result (Ok i) }
    // Which fault it is.
    ensures exact { Gives result (identifier_of bytes.now) }
{
    read_all(alloc, bytes)
}
