//! The shapes that several lines and entries share: a word, and its fields as text.

ghost use Rattle.std.specs.Prelude.{◌≡◌, ◌++◌, OnOk};
ghost use Rattle.std.specs.Fmt.{decimal};
ghost use Rattle.ch_model.specs.SpellingFields.{field as field_of, process_text, target_text, reference_text, socket_text, end_text, bytes_text};

use crate::text::{
    put_bytes, put_end, put_field, put_number, put_process, put_reference, put_socket, put_target,
};
use ch_base::OutOfMemory;
use ch_model::{End, ProcName, RefName, SockName, TargetName};

/// A word alone.
pub(crate) fn put_word(text: &mut Vec<u8>, word: &[u8]) -> Result<(), OutOfMemory>
    ensures { OnOk result (text.new.items ≡ text.old.items ++ word.now) }
{
    text.extend_from_slice(word)?;
    Ok(())
}

/// One field.
pub(crate) fn put_one(text: &mut Vec<u8>, word: &[u8], field: &[u8]) -> Result<(), OutOfMemory>
    ensures { OnOk result (text.new.items ≡ text.old.items ++ word.now ++ field_of field.now) }
{
    text.extend_from_slice(word)?;
    put_field(text, field)
}

/// Two fields.
pub(crate) fn put_two(
    text: &mut Vec<u8>,
    word: &[u8],
    first: &[u8],
    second: &[u8],
) -> Result<(), OutOfMemory>
    ensures { OnOk result (text.new.items ≡ text.old.items ++ word.now ++ field_of first.now ++ field_of second.now) }
{
    put_one(text, word, first)?;
    put_field(text, second)
}

/// A process.
pub(crate) fn put_actor(text: &mut Vec<u8>, word: &[u8], by: &ProcName) -> Result<(), OutOfMemory>
    ensures { OnOk result (text.new.items ≡ text.old.items ++ word.now ++ field_of (process_text by.now)) }
{
    text.extend_from_slice(word)?;
    put_process(text, by)
}

/// A process and a field.
pub(crate) fn put_actor_field(
    text: &mut Vec<u8>,
    word: &[u8],
    by: &ProcName,
    field: &[u8],
) -> Result<(), OutOfMemory>
    ensures { OnOk result (text.new.items ≡ text.old.items ++ word.now ++ field_of (process_text by.now) ++ field_of field.now) }
{
    put_actor(text, word, by)?;
    put_field(text, field)
}

/// A process and two fields.
pub(crate) fn put_actor_fields(
    text: &mut Vec<u8>,
    word: &[u8],
    by: &ProcName,
    first: &[u8],
    second: &[u8],
) -> Result<(), OutOfMemory>
    ensures { OnOk result (text.new.items ≡ text.old.items ++ word.now ++ field_of (process_text by.now) ++ field_of first.now ++ field_of second.now) }
{
    put_actor_field(text, word, by, first)?;
    put_field(text, second)
}

/// A process and one that it acts upon.
pub(crate) fn put_pair(
    text: &mut Vec<u8>,
    word: &[u8],
    by: &ProcName,
    on: &ProcName,
) -> Result<(), OutOfMemory>
    ensures { OnOk result (text.new.items ≡ text.old.items ++ word.now ++ field_of (process_text by.now) ++ field_of (process_text on.now)) }
{
    put_actor(text, word, by)?;
    put_process(text, on)
}

/// A process, one that it acts upon, and a text.
pub(crate) fn put_pair_field(
    text: &mut Vec<u8>,
    word: &[u8],
    by: &ProcName,
    on: &ProcName,
    field: &[u8],
) -> Result<(), OutOfMemory>
    ensures { OnOk result (text.new.items ≡ text.old.items ++ word.now ++ field_of (process_text by.now) ++ field_of (process_text on.now) ++ field_of field.now) }
{
    put_pair(text, word, by, on)?;
    put_field(text, field)
}

/// A process and a target.
pub(crate) fn put_sending(
    text: &mut Vec<u8>,
    word: &[u8],
    by: &ProcName,
    to: &TargetName,
) -> Result<(), OutOfMemory>
    ensures { OnOk result (text.new.items ≡ text.old.items ++ word.now ++ field_of (process_text by.now) ++ field_of (target_text to.now)) }
{
    put_actor(text, word, by)?;
    put_target(text, to)
}

/// A mark and a body, without a word.
pub(crate) fn put_message(text: &mut Vec<u8>, mark: &[u8], body: &[u8]) -> Result<(), OutOfMemory>
    ensures { OnOk result (text.new.items ≡ text.old.items ++ field_of mark.now ++ field_of (bytes_text body.now)) }
{
    put_field(text, mark)?;
    put_bytes(text, body)
}

/// A reference.
pub(crate) fn put_watch(text: &mut Vec<u8>, word: &[u8], watch: &RefName) -> Result<(), OutOfMemory>
    ensures { OnOk result (text.new.items ≡ text.old.items ++ word.now ++ field_of (reference_text watch.now)) }
{
    text.extend_from_slice(word)?;
    put_reference(text, watch)
}

/// A reference and a process.
pub(crate) fn put_watch_process(
    text: &mut Vec<u8>,
    word: &[u8],
    watch: &RefName,
    process: &ProcName,
) -> Result<(), OutOfMemory>
    ensures { OnOk result (text.new.items ≡ text.old.items ++ word.now ++ field_of (reference_text watch.now) ++ field_of (process_text process.now)) }
{
    put_watch(text, word, watch)?;
    put_process(text, process)
}

/// A socket.
pub(crate) fn put_sock(text: &mut Vec<u8>, word: &[u8], sock: &SockName) -> Result<(), OutOfMemory>
    ensures { OnOk result (text.new.items ≡ text.old.items ++ word.now ++ field_of (socket_text sock.now)) }
{
    text.extend_from_slice(word)?;
    put_socket(text, sock)
}

/// A socket and bytes.
pub(crate) fn put_sock_bytes(
    text: &mut Vec<u8>,
    word: &[u8],
    sock: &SockName,
    bytes: &[u8],
) -> Result<(), OutOfMemory>
    ensures { OnOk result (text.new.items ≡ text.old.items ++ word.now ++ field_of (socket_text sock.now) ++ field_of (bytes_text bytes.now)) }
{
    put_sock(text, word, sock)?;
    put_bytes(text, bytes)
}

/// A socket and an end.
pub(crate) fn put_sock_end(
    text: &mut Vec<u8>,
    word: &[u8],
    sock: &SockName,
    end: End,
) -> Result<(), OutOfMemory>
    ensures { OnOk result (text.new.items ≡ text.old.items ++ word.now ++ field_of (socket_text sock.now) ++ field_of (end_text end)) }
{
    put_sock(text, word, sock)?;
    put_end(text, end)
}

/// A socket, an end and a count.
pub(crate) fn put_sock_count(
    text: &mut Vec<u8>,
    word: &[u8],
    sock: &SockName,
    end: End,
    count: u64,
) -> Result<(), OutOfMemory>
    ensures { OnOk result (text.new.items ≡ text.old.items ++ word.now ++ field_of (socket_text sock.now) ++ field_of (end_text end) ++ field_of (decimal count)) }
{
    put_sock_end(text, word, sock, end)?;
    put_number(text, count)
}
