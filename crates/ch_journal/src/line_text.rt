//! A line of a journal as text.

ghost use Rattle.std.specs.Prelude.{◌≡◌, ◌++◌, ◌∷◌, [], OnOk, codes};
ghost use Rattle.std.specs.Fmt.{decimal};
ghost use Rattle.ch_base.specs.Addresses.{address_text};
ghost use Rattle.ch_model.specs.SpellingFields.{field as field_of, process_text, target_text, reference_text, bytes_text};
ghost use Rattle.ch_model.specs.Spelling.{what_text as what_text_of};

use crate::shape::{
    put_actor, put_actor_field, put_actor_fields, put_message, put_one, put_pair, put_pair_field,
    put_sending, put_sock, put_sock_bytes, put_sock_count, put_sock_end, put_two, put_word,
};
use crate::text::{put_bytes, put_field, put_number, put_reference};
use ch_base::{Address, OutOfMemory};
use ch_model::{ProcName, RefName, TargetName, What};

/// A name, its address and a unique number.
fn put_declared(
    text: &mut Vec<u8>,
    word: &[u8],
    name: &[u8],
    address: &Address,
    unique: u32,
) -> Result<(), OutOfMemory>
    ensures { OnOk result (text.new.items ≡ text.old.items ++ word.now ++ field_of name.now ++ field_of (address_text address.now) ++ field_of (decimal unique)) }
{
    put_one(text, word, name)?;
    put_field(text, address.text()?.as_slice())?;
    put_number(text, u64::from(unique))
}

/// A message that is sent.
fn put_send(
    text: &mut Vec<u8>,
    word: &[u8],
    by: &ProcName,
    to: &TargetName,
    mark: &[u8],
    body: &[u8],
) -> Result<(), OutOfMemory>
    ensures { OnOk result (text.new.items ≡ text.old.items ++ word.now ++ field_of (process_text by.now) ++ field_of (target_text to.now) ++ field_of mark.now ++ field_of (bytes_text body.now)) }
{
    put_sending(text, word, by, to)?;
    put_message(text, mark, body)
}

/// A process and its port.
fn put_take(text: &mut Vec<u8>, by: &ProcName, port: u32) -> Result<(), OutOfMemory>
    ensures { OnOk result (text.new.items ≡ text.old.items ++ codes "take" ++ field_of (process_text by.now) ++ field_of (decimal port)) }
{
    put_actor(text, b"take", by)?;
    put_number(text, u64::from(port))
}

/// A process and a watch that it takes back.
fn put_unwatch(text: &mut Vec<u8>, by: &ProcName, watch: &RefName) -> Result<(), OutOfMemory>
    ensures { OnOk result (text.new.items ≡ text.old.items ++ codes "unwatch" ++ field_of (process_text by.now) ++ field_of (reference_text watch.now)) }
{
    put_actor(text, b"unwatch", by)?;
    put_reference(text, watch)
}

/// A process, the node where another is made, its label and its arguments.
fn put_spawn(
    text: &mut Vec<u8>,
    by: &ProcName,
    at: &[u8],
    label: &[u8],
    args: &[u8],
) -> Result<(), OutOfMemory>
    ensures { OnOk result (text.new.items ≡ text.old.items ++ codes "spawn" ++ field_of (process_text by.now) ++ field_of at.now ++ field_of label.now ++ field_of (bytes_text args.now)) }
{
    put_actor_fields(text, b"spawn", by, at, label)?;
    put_bytes(text, args)
}

/// The line's canonical text without its newline.
pub(crate) fn put_line_fields(text: &mut Vec<u8>, what: &What) -> Result<(), OutOfMemory>
    ensures { OnOk result (text.new.items ++ 10 ∷ [] ≡ text.old.items ++ what_text_of what.now) }
{
    match what {
        What::Node {
            name,
            address,
            unique,
        } => put_declared(text, b"node", name.as_slice(), address, *unique),
        What::Away {
            name,
            address,
            unique,
        } => put_declared(text, b"away", name.as_slice(), address, *unique),
        What::Label { node, label } => {
            put_two(text, b"label", node.as_slice(), label.bytes.as_slice())
        }
        What::Stranger { name, host } => {
            put_two(text, b"stranger", name.as_slice(), host.as_slice())
        }
        What::Proc { node } => put_one(text, b"proc", node.as_slice()),
        What::Send { by, to, mark, body } => put_send(
            text,
            b"send",
            by,
            to,
            mark.bytes.as_slice(),
            body.as_slice(),
        ),
        What::Nsend { by, to, mark, body } => put_send(
            text,
            b"nsend",
            by,
            to,
            mark.bytes.as_slice(),
            body.as_slice(),
        ),
        What::Again { by, to } => put_sending(text, b"again", by, to),
        What::Recv { by, mark } => put_actor_field(text, b"recv", by, mark.bytes.as_slice()),
        What::Port { by } => put_actor(text, b"port", by),
        What::Take { by, port } => put_take(text, by, *port),
        What::End { by } => put_actor(text, b"end", by),
        What::Fail { by, text: why } => put_actor_field(text, b"fail", by, why.as_slice()),
        What::Fall { by } => put_actor(text, b"fall", by),
        What::Monitor { by, target } => put_pair(text, b"monitor", by, target),
        What::Link { by, target } => put_pair(text, b"link", by, target),
        What::Unwatch { by, watch } => put_unwatch(text, by, watch),
        What::Exit {
            by,
            target,
            text: why,
        } => put_pair_field(text, b"exit", by, target, why.as_slice()),
        What::Kill {
            by,
            target,
            text: why,
        } => put_pair_field(text, b"kill", by, target, why.as_slice()),
        What::Spawn {
            by,
            at,
            label,
            args,
        } => put_spawn(
            text,
            by,
            at.as_slice(),
            label.bytes.as_slice(),
            args.as_slice(),
        ),
        What::Register { by, name } => {
            put_actor_field(text, b"register", by, name.bytes.as_slice())
        }
        What::Unregister { by, name } => {
            put_actor_field(text, b"unregister", by, name.bytes.as_slice())
        }
        What::Whereis { by, at, name } => put_actor_fields(
            text,
            b"whereis",
            by,
            at.as_slice(),
            name.bytes.as_slice(),
        ),
        What::Shut { node } => put_one(text, b"shut", node.as_slice()),
        What::Join { sock } => put_sock(text, b"join", sock),
        What::Come { sock } => put_sock(text, b"come", sock),
        What::Refuse { sock } => put_sock(text, b"refuse", sock),
        What::Feed { sock, end, count } => {
            put_sock_count(text, b"feed", sock, *end, u64::from(*count))
        }
        What::Cut { sock, end } => put_sock_end(text, b"cut", sock, *end),
        What::Lose { sock, end } => put_sock_end(text, b"lose", sock, *end),
        What::Late { node, peer } => put_two(text, b"late", node.as_slice(), peer.as_slice()),
        What::Knock { stranger, node } => {
            put_two(text, b"knock", stranger.as_slice(), node.as_slice())
        }
        What::Poke { sock, bytes } => put_sock_bytes(text, b"poke", sock, bytes.as_slice()),
        What::Quit { sock } => put_sock(text, b"quit", sock),
        What::Settle => put_word(text, b"settle"),
    }
}
