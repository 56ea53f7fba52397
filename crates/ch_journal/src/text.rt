//! The fields of a line or an entry as text: each has one space before it.

ghost use Rattle.std.specs.Prelude.{◌≡◌, ◌++◌, ◌∷◌, [], OnOk, codes};
ghost use Rattle.std.specs.Fmt.{decimal};
ghost use Rattle.ch_model.specs.SpellingFields.{field as field_of, process_text, port_text, target_text, reference_text, socket_text, end_text, bytes_text, process_or_dash, reference_or_dash, name_or_dash, taken_from, reason_text, why_text, kind_text, verdict_text};

use ch_base::{OutOfMemory, Why};
use ch_ident::{Name, Reason};
use ch_model::{End, ProcName, RefName, SockName, TargetName, Verdict};
use ch_watch::Kind;
use itoa::Buffer;

/// A field.
pub(crate) fn put_field(text: &mut Vec<u8>, field: &[u8]) -> Result<(), OutOfMemory>
    ensures { OnOk result (text.new.items ≡ text.old.items ++ field_of field.now) }
{
    text.push(b' ')?;
    text.extend_from_slice(field)?;
    Ok(())
}

/// A number.
pub(crate) fn put_number(text: &mut Vec<u8>, number: u64) -> Result<(), OutOfMemory>
    ensures { OnOk result (text.new.items ≡ text.old.items ++ field_of (decimal number)) }
{
    let mut digits = Buffer::new();
    put_field(text, digits.format(number).as_bytes())
}

/// A process: its node's name, a dot and its number.
pub(crate) fn put_process(text: &mut Vec<u8>, process: &ProcName) -> Result<(), OutOfMemory>
    ensures { OnOk result (text.new.items ≡ text.old.items ++ field_of (process_text process.now)) }
{
    let mut digits = Buffer::new();
    put_field(text, process.node.as_slice())?;
    text.push(b'.')?;
    text.extend_from_slice(digits.format(process.counter).as_bytes())?;
    Ok(())
}

/// A port: its process, a slash and its number.
pub(crate) fn put_port(text: &mut Vec<u8>, process: &ProcName, port: u32) -> Result<(), OutOfMemory>
    ensures { OnOk result (text.new.items ≡ text.old.items ++ field_of (port_text process.now port)) }
{
    let mut digits = Buffer::new();
    put_process(text, process)?;
    text.push(b'/')?;
    text.extend_from_slice(digits.format(port).as_bytes())?;
    Ok(())
}

/// A node's name, a colon and a name there.
fn put_named(text: &mut Vec<u8>, node: &[u8], name: &[u8]) -> Result<(), OutOfMemory>
    ensures { OnOk result (text.new.items ≡ text.old.items ++ field_of (node.now ++ 58 ∷ name.now)) }
{
    put_field(text, node)?;
    text.push(b':')?;
    text.extend_from_slice(name)?;
    Ok(())
}

/// A target.
pub(crate) fn put_target(text: &mut Vec<u8>, target: &TargetName) -> Result<(), OutOfMemory>
    ensures { OnOk result (text.new.items ≡ text.old.items ++ field_of (target_text target.now)) }
{
    match target {
        TargetName::Process { process } => put_process(text, process),
        TargetName::Port { process, port } => put_port(text, process, *port),
        TargetName::Named { node, name } => {
            put_named(text, node.as_slice(), name.bytes.as_slice())
        }
    }
}

/// A reference: its node's name, an exclamation mark and its number.
pub(crate) fn put_reference(text: &mut Vec<u8>, reference: &RefName) -> Result<(), OutOfMemory>
    ensures { OnOk result (text.new.items ≡ text.old.items ++ field_of (reference_text reference.now)) }
{
    let mut digits = Buffer::new();
    put_field(text, reference.node.as_slice())?;
    text.push(b'!')?;
    text.extend_from_slice(digits.format(reference.number).as_bytes())?;
    Ok(())
}

/// A socket: the opener's name, `>`, the target's name, a dot and its number.
pub(crate) fn put_socket(text: &mut Vec<u8>, sock: &SockName) -> Result<(), OutOfMemory>
    ensures { OnOk result (text.new.items ≡ text.old.items ++ field_of (socket_text sock.now)) }
{
    let mut digits = Buffer::new();
    put_field(text, sock.from.as_slice())?;
    text.push(b'>')?;
    text.extend_from_slice(sock.to.as_slice())?;
    text.push(b'.')?;
    text.extend_from_slice(digits.format(sock.number).as_bytes())?;
    Ok(())
}

/// An end of a socket: `o` or `t`.
pub(crate) fn put_end(text: &mut Vec<u8>, end: End) -> Result<(), OutOfMemory>
    ensures { OnOk result (text.new.items ≡ text.old.items ++ field_of (end_text end)) }
{
    match end {
        End::O => put_field(text, b"o"),
        End::T => put_field(text, b"t"),
    }
}

/// Bytes in lower-case hexadecimal, `-` for none.
pub(crate) fn put_bytes(text: &mut Vec<u8>, bytes: &[u8]) -> Result<(), OutOfMemory>
    ensures { OnOk result (text.new.items ≡ text.old.items ++ field_of (bytes_text bytes.now)) }
{
    if bytes.is_empty() {
        return put_field(text, b"-");
    }
    let digits = hex::encode(*text.allocator(), bytes)?;
    put_field(text, digits.as_bytes())
}

/// A process, or `-` for none.
pub(crate) fn put_process_or_dash(
    text: &mut Vec<u8>,
    process: &Option<ProcName>,
) -> Result<(), OutOfMemory>
    ensures { OnOk result (text.new.items ≡ text.old.items ++ field_of (process_or_dash process.now)) }
{
    match process {
        None => put_field(text, b"-"),
        Some(process) => put_process(text, process),
    }
}

/// A reference, or `-` for none.
pub(crate) fn put_reference_or_dash(
    text: &mut Vec<u8>,
    reference: &Option<RefName>,
) -> Result<(), OutOfMemory>
    ensures { OnOk result (text.new.items ≡ text.old.items ++ field_of (reference_or_dash reference.now)) }
{
    match reference {
        None => put_field(text, b"-"),
        Some(reference) => put_reference(text, reference),
    }
}

/// A name, or `-` for none.
pub(crate) fn put_name_or_dash(text: &mut Vec<u8>, name: &Option<Name>) -> Result<(), OutOfMemory>
    ensures { OnOk result (text.new.items ≡ text.old.items ++ field_of (name_or_dash name.now)) }
{
    match name {
        None => put_field(text, b"-"),
        Some(name) => put_field(text, name.bytes.as_slice()),
    }
}

/// Where a message was taken from: the process's mailbox, or its port.
pub(crate) fn put_taken_from(
    text: &mut Vec<u8>,
    process: &ProcName,
    port: Option<u32>,
) -> Result<(), OutOfMemory>
    ensures { OnOk result (text.new.items ≡ text.old.items ++ field_of (taken_from process.now port)) }
{
    match port {
        None => put_process(text, process),
        Some(port) => put_port(text, process, port),
    }
}

/// Why a process is over, or why a watch was told.
pub(crate) fn put_reason(text: &mut Vec<u8>, reason: &Reason) -> Result<(), OutOfMemory>
    ensures { OnOk result (text.new.items ≡ text.old.items ++ field_of (reason_text reason.now)) }
{
    match reason {
        Reason::Normal => put_field(text, b"normal"),
        Reason::Exception(why) => {
            put_field(text, b"exception ")?;
            text.extend_from_slice(why.as_slice())?;
            Ok(())
        }
        Reason::Disconnect => put_field(text, b"disconnect"),
        Reason::NodeDown => put_field(text, b"nodedown"),
        Reason::UnknownId => put_field(text, b"unknownid"),
    }
}

/// Why a link has failed.
pub(crate) fn why_word(why: Why) -> &'static [u8]
    ensures { result.now ≡ why_text why }
{
    match why {
        Why::Disconnect => b"disconnect",
        Why::NodeDown => b"nodedown",
    }
}

/// What waits under a reference.
pub(crate) fn kind_word(kind: Kind) -> &'static [u8]
    ensures { result.now ≡ kind_text kind }
{
    match kind {
        Kind::Monitor => b"monitor",
        Kind::Link => b"link",
        Kind::Spawn => b"spawn",
        Kind::Ask => b"whereis",
    }
}

/// The answer to an event line.
pub(crate) fn verdict_word(answer: Verdict) -> &'static [u8]
    ensures { result.now ≡ verdict_text answer }
{
    match answer {
        Verdict::Ok => b"ok",
        Verdict::Unknown => b"unknown",
        Verdict::Dead => b"dead",
        Verdict::Hale => b"hale",
        Verdict::Taken => b"taken",
        Verdict::NoName => b"noname",
        Verdict::NoRef => b"noref",
        Verdict::Empty => b"empty",
        Verdict::Long => b"long",
        Verdict::Full => b"full",
        Verdict::Spent => b"spent",
        Verdict::Nothing => b"none",
    }
}
