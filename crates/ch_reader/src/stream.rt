//! A whole stream at once, from its pieces.

ghost use Rattle.std.specs.Prelude.{◌≡◌, ℕ, List, Option, IfOk};
ghost use Rattle.std.specs.List.{flat_map};
ghost use Rattle.ch_reader.specs.declared.item.Item.{Item};
ghost use Rattle.ch_reader.specs.declared.item.Role.{Role};
ghost use Rattle.ch_reader.specs.declared.item.ReaderError.{ReaderError};
ghost use Rattle.ch_reader.specs.States.{taken};
ghost use Rattle.ch_reader.specs.Runs.{IsBytes, Accounts, with_taken};
ghost use Rattle.ch_reader.specs.Decoding.{Decodes, IsReady, IsReadyUnless, AccountsAll, refusal_of};

use crate::item::{Item, ReaderError, Role};
use crate::reader::Reader;
use ch_base::{OutOfMemory, Text};
use std::alloc::Global;

/// The items of a stream, in order, and the refusal that ends it, where one does.
#[derive(Debug, Drop)]
pub struct Decoded {
    /// The items before an unfinished rest or a refusal.
    pub items: Vec<Item>,
    /// Why the stream is malformed, where it is.
    pub refusal: Option<ReaderError>,
}

/// The items of the stream that comes in these pieces, for the end of this role. They depend on the
/// bytes alone, and not on how they were cut.
pub fn decode(alloc: Global, role: Role, pieces: &[Text]) -> Result<Decoded, OutOfMemory>
    // The bytes are a stream of these items, or malformed after them.
    ensures found { IfOk result (λ d. Decodes role (flat_map (λ piece. piece) pieces.now) d.items.items d.refusal) }
    // They are of no other items and no other refusal, so it doesn't matter how they were cut.
    ensures only { IfOk result (λ d. (items : List Item) (refusal : Option ReaderError) →
        Decodes role (flat_map (λ piece. piece) pieces.now) items refusal → (d.items.items ≡ items) × (d.refusal ≡ refusal)) }
{
    drained(alloc, role, pieces)
}

fn drained(alloc: Global, role: Role, pieces: &[Text]) -> Result<Decoded, OutOfMemory>
    ensures { IfOk result (λ d. Decodes role (flat_map (λ piece. piece) pieces.now) d.items.items d.refusal) }
{
    let mut reader = Reader::new(alloc, role)?;
    let mut items = Vec::new(alloc);
    for piece in pieces {
        match drain(&mut reader, piece.as_slice(), &mut items)? {
            None => {}
            Some(error) => {
                return Ok(Decoded {
                    items,
                    refusal: Some(error),
                });
            }
        }
    }
    Ok(Decoded {
        items,
        refusal: None,
    })
}

/// Feeds a piece, and appends each item that is whole.
fn drain(
    reader: &mut Reader,
    piece: &[u8],
    items: &mut Vec<Item>,
) -> Result<Option<ReaderError>, OutOfMemory>
    requires { IsReady reader.old }
    ensures fits { IsBytes piece.now }
    ensures ready { IfOk result (λ r. IsReadyUnless r reader.new) }
    ensures accounts { IfOk result (λ r. (role : Role) (bytes : List ℕ) → IsBytes bytes →
        Accounts role bytes items.old.items reader.old → AccountsAll role bytes piece.now items.new.items reader.new r) }
{
    let mut done = 0;
    'piece: while done < piece.len() {
        done += reader.feed(&piece[done..])?;
        match take_into(reader, items)? {
            None => {}
            Some(error) => return Ok(Some(error)),
        }
    }
    Ok(None)
}

/// Appends the item that waits, if one does, and answers the refusal that stands, if one does.
fn take_into(reader: &mut Reader, items: &mut Vec<Item>) -> Result<Option<ReaderError>, OutOfMemory>
    ensures refusal { IfOk result (λ r. r ≡ refusal_of (taken reader.old).0) }
    ensures reader { IfOk result (λ _. reader.new ≡ (taken reader.old).1) }
    ensures items { IfOk result (λ _. items.new.items ≡ with_taken items.old.items (taken reader.old).0) }
{
    match reader.take() {
        Ok(None) => Ok(None),
        Ok(Some(item)) => {
            items.push(item)?;
            Ok(None)
        }
        Err(error) => Ok(Some(error)),
    }
}
