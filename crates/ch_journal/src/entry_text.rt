//! An entry of a log as text.

ghost use Rattle.std.specs.Prelude.{◌≡◌, ◌++◌, ◌∷◌, [], OnOk, codes};
ghost use Rattle.std.specs.Fmt.{decimal};
ghost use Rattle.ch_model.specs.SpellingFields.{field as field_of, process_text, port_text, target_text, reference_text, socket_text, end_text, bytes_text, process_or_dash, reference_or_dash, name_or_dash, taken_from, reason_text, why_text, kind_text, verdict_text};
ghost use Rattle.ch_model.specs.Spelling.{entry_text as entry_text_of};

use crate::shape::{
    put_actor, put_actor_field, put_message, put_one, put_sending, put_sock, put_sock_bytes,
    put_sock_count, put_sock_end, put_two, put_watch, put_watch_process, put_word,
};
use crate::text::{
    kind_word, put_bytes, put_field, put_name_or_dash, put_number, put_port, put_process,
    put_process_or_dash, put_reason, put_reference_or_dash, put_taken_from, verdict_word, why_word,
};
use ch_base::OutOfMemory;
use ch_ident::{Name, Reason};
use ch_model::{End, Entry, ProcName, RefName, SockName, TargetName, Verdict};
use ch_watch::Kind;

/// The number of a line and its answer.
fn put_answer(text: &mut Vec<u8>, number: u32, answer: Verdict) -> Result<(), OutOfMemory>
    ensures { OnOk result (text.new.items ≡ text.old.items ++ codes "line" ++ field_of (decimal number) ++ field_of (verdict_text answer)) }
{
    text.extend_from_slice(b"line")?;
    put_number(text, u64::from(number))?;
    put_field(text, verdict_word(answer))
}

/// A process, and the reference and label of the spawn that made it.
fn put_made(
    text: &mut Vec<u8>,
    process: &ProcName,
    spawn: &Option<RefName>,
    label: &Option<Name>,
) -> Result<(), OutOfMemory>
    ensures { OnOk result (text.new.items ≡ text.old.items ++ codes "made" ++ field_of (process_text process.now) ++ field_of (reference_or_dash spawn.now) ++ field_of (name_or_dash label.now)) }
{
    put_actor(text, b"made", process)?;
    put_reference_or_dash(text, spawn)?;
    put_name_or_dash(text, label)
}

/// A sending process, its target, the epoch of the pair and the index in it.
fn put_place(
    text: &mut Vec<u8>,
    word: &[u8],
    by: &ProcName,
    to: &TargetName,
    epoch: u64,
    index: u64,
) -> Result<(), OutOfMemory>
    ensures { OnOk result (text.new.items ≡ text.old.items ++ word.now ++ field_of (process_text by.now) ++ field_of (target_text to.now) ++ field_of (decimal epoch) ++ field_of (decimal index)) }
{
    put_sending(text, word, by, to)?;
    put_number(text, epoch)?;
    put_number(text, index)
}

/// A pair and its new epoch.
fn put_again(
    text: &mut Vec<u8>,
    by: &ProcName,
    to: &TargetName,
    epoch: u64,
) -> Result<(), OutOfMemory>
    ensures { OnOk result (text.new.items ≡ text.old.items ++ codes "again" ++ field_of (process_text by.now) ++ field_of (target_text to.now) ++ field_of (decimal epoch)) }
{
    put_sending(text, b"again", by, to)?;
    put_number(text, epoch)
}

/// Where a message was taken from, its mark and its body.
fn put_took(
    text: &mut Vec<u8>,
    by: &ProcName,
    port: Option<u32>,
    mark: &[u8],
    body: &[u8],
) -> Result<(), OutOfMemory>
    ensures { OnOk result (text.new.items ≡ text.old.items ++ codes "took" ++ field_of (taken_from by.now port) ++ field_of mark.now ++ field_of (bytes_text body.now)) }
{
    text.extend_from_slice(b"took")?;
    put_taken_from(text, by, port)?;
    put_message(text, mark, body)
}

/// A port that was opened.
fn put_opened(text: &mut Vec<u8>, process: &ProcName, port: u32) -> Result<(), OutOfMemory>
    ensures { OnOk result (text.new.items ≡ text.old.items ++ codes "port" ++ field_of (port_text process.now port)) }
{
    text.extend_from_slice(b"port")?;
    put_port(text, process, port)
}

/// A process and why it is over.
fn put_over(text: &mut Vec<u8>, process: &ProcName, reason: &Reason) -> Result<(), OutOfMemory>
    ensures { OnOk result (text.new.items ≡ text.old.items ++ codes "over" ++ field_of (process_text process.now) ++ field_of (reason_text reason.now)) }
{
    put_actor(text, b"over", process)?;
    put_reason(text, reason)
}

/// A watch that was opened.
fn put_watching(
    text: &mut Vec<u8>,
    watch: &RefName,
    by: &ProcName,
    target: &ProcName,
    kind: Kind,
) -> Result<(), OutOfMemory>
    ensures { OnOk result (text.new.items ≡ text.old.items ++ codes "watch" ++ field_of (reference_text watch.now) ++ field_of (process_text by.now) ++ field_of (process_text target.now) ++ field_of (kind_text kind)) }
{
    put_watch_process(text, b"watch", watch, by)?;
    put_process(text, target)?;
    put_field(text, kind_word(kind))
}

/// A watch and why it was told.
fn put_told(text: &mut Vec<u8>, watch: &RefName, reason: &Reason) -> Result<(), OutOfMemory>
    ensures { OnOk result (text.new.items ≡ text.old.items ++ codes "told" ++ field_of (reference_text watch.now) ++ field_of (reason_text reason.now)) }
{
    put_watch(text, b"told", watch)?;
    put_reason(text, reason)
}

/// A question, who asked it, and the node that was asked.
fn put_asked(
    text: &mut Vec<u8>,
    question: &RefName,
    by: &ProcName,
    at: &[u8],
) -> Result<(), OutOfMemory>
    ensures { OnOk result (text.new.items ≡ text.old.items ++ codes "asked" ++ field_of (reference_text question.now) ++ field_of (process_text by.now) ++ field_of at.now) }
{
    put_watch_process(text, b"asked", question, by)?;
    put_field(text, at)
}

/// A question and what was found, if anything.
fn put_found(
    text: &mut Vec<u8>,
    question: &RefName,
    found: &Option<ProcName>,
) -> Result<(), OutOfMemory>
    ensures { OnOk result (text.new.items ≡ text.old.items ++ codes "isat" ++ field_of (reference_text question.now) ++ field_of (process_or_dash found.now)) }
{
    put_watch(text, b"isat", question)?;
    put_process_or_dash(text, found)
}

/// A node's name and the process that it stands for, if any.
fn put_named(
    text: &mut Vec<u8>,
    node: &[u8],
    name: &[u8],
    process: &Option<ProcName>,
) -> Result<(), OutOfMemory>
    ensures { OnOk result (text.new.items ≡ text.old.items ++ codes "named" ++ field_of node.now ++ field_of name.now ++ field_of (process_or_dash process.now)) }
{
    put_two(text, b"named", node, name)?;
    put_process_or_dash(text, process)
}

/// An item that an end wrote.
fn put_wrote(text: &mut Vec<u8>, sock: &SockName, end: End, bytes: &[u8]) -> Result<(), OutOfMemory>
    ensures { OnOk result (text.new.items ≡ text.old.items ++ codes "wrote" ++ field_of (socket_text sock.now) ++ field_of (end_text end) ++ field_of (bytes_text bytes.now)) }
{
    put_sock_end(text, b"wrote", sock, end)?;
    put_bytes(text, bytes)
}

/// The entry's text without its newline.
pub(crate) fn put_entry_fields(text: &mut Vec<u8>, entry: &Entry) -> Result<(), OutOfMemory>
    ensures { OnOk result (text.new.items ++ 10 ∷ [] ≡ text.old.items ++ entry_text_of entry.now) }
{
    match entry {
        Entry::Line { number, answer } => put_answer(text, *number, *answer),
        Entry::Made {
            process,
            spawn,
            label,
        } => put_made(text, process, spawn, label),
        Entry::Said {
            by,
            to,
            epoch,
            index,
            mark,
            body,
        } => {
            put_place(text, b"said", by, to, *epoch, *index)?;
            put_message(text, mark.bytes.as_slice(), body.as_slice())
        }
        Entry::Again { by, to, epoch } => put_again(text, by, to, *epoch),
        Entry::Got {
            by,
            to,
            epoch,
            index,
            receiver,
        } => {
            put_place(text, b"got", by, to, *epoch, *index)?;
            put_process_or_dash(text, receiver)
        }
        Entry::Took {
            by,
            port,
            mark,
            body,
        } => put_took(text, by, *port, mark.bytes.as_slice(), body.as_slice()),
        Entry::Port { process, port } => put_opened(text, process, *port),
        Entry::Over { process, reason } => put_over(text, process, reason),
        Entry::Doom { process, text: why } => {
            put_actor_field(text, b"doom", process, why.as_slice())
        }
        Entry::Watch {
            watch,
            by,
            target,
            kind,
        } => put_watching(text, watch, by, target, *kind),
        Entry::Unwatch { watch } => put_watch(text, b"unwatch", watch),
        Entry::Absent { watch } => put_watch(text, b"absent", watch),
        Entry::Told { watch, reason } => put_told(text, watch, reason),
        Entry::Asked { question, by, at } => put_asked(text, question, by, at.as_slice()),
        Entry::Spawned { question, process } => {
            put_watch_process(text, b"spawned", question, process)
        }
        Entry::Isat { question, found } => put_found(text, question, found),
        Entry::Named {
            node,
            name,
            process,
        } => put_named(text, node.as_slice(), name.bytes.as_slice(), process),
        Entry::Shut { node } => put_one(text, b"shut", node.as_slice()),
        Entry::Dial { sock } => put_sock(text, b"dial", sock),
        Entry::Knocked { sock } => put_sock(text, b"knocked", sock),
        Entry::Poked { sock, bytes } => put_sock_bytes(text, b"poked", sock, bytes.as_slice()),
        Entry::Quitted { sock } => put_sock(text, b"quitted", sock),
        Entry::Joined { sock } => put_sock(text, b"joined", sock),
        Entry::Came { sock } => put_sock(text, b"came", sock),
        Entry::Refused { sock } => put_sock(text, b"refused", sock),
        Entry::Cut { sock, end } => put_sock_end(text, b"cut", sock, *end),
        Entry::Lost { sock, end } => put_sock_end(text, b"lost", sock, *end),
        Entry::Timed { node, peer } => put_two(text, b"timed", node.as_slice(), peer.as_slice()),
        Entry::Fed { sock, end, count } => put_sock_count(text, b"fed", sock, *end, *count),
        Entry::Wrote { sock, end, bytes } => put_wrote(text, sock, *end, bytes.as_slice()),
        Entry::Up { sock, end } => put_sock_end(text, b"up", sock, *end),
        Entry::Down { sock, end } => put_sock_end(text, b"down", sock, *end),
        Entry::Left { sock, end } => put_sock_end(text, b"left", sock, *end),
        Entry::Broke { node, peer, why } => {
            put_two(text, b"broke", node.as_slice(), peer.as_slice())?;
            put_field(text, why_word(*why))
        }
        Entry::Settled => put_word(text, b"settled"),
    }
}
