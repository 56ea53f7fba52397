//! What a type needs so that its values can be sent, and how they are packed and read.

ghost use Rattle.std.specs.Prelude.{◌≡◌, ◌++◌, List, ℕ, Option, Some, Ok, Err, true, IfOk, OnOk, OnErr, MatchResult};
ghost use Rattle.ch_ident.specs.Names.{is_name};
ghost use Rattle.ch_typed.specs.Outcomes.{Gives, Comes, body_of};
ghost use Rattle.ch_typed.specs.Reading.{AreBytes, unpacked, expected};

use crate::error::TypedError;
use ch_base::{OutOfMemory, Text};
use ch_ident::{Message, Name};
use ch_mail::Mail;
use std::alloc::Global;

/// A type whose values can be sent in messages. Each value has one spelling, and no two values have the
/// same.
pub trait Typed: Sized {
    /// The mark's bytes.
    ghost mark: { List ℕ };

    /// What is a value of the type, where more could be written.
    ghost fits: { Self → Type 0 };

    /// The one spelling of a value.
    ghost spelling: { Self → List ℕ };

    /// The value whose spelling the bytes are.
    ghost read: { List ℕ → Option Self };

    /// The mark of the type's messages: 1 to 63 bytes from 0x21 to 0x7e.
    const MARK: &'static [u8];

    /// `MARK`, as a call, which contracts can speak of.
    fn mark_bytes() -> &'static [u8]
        ensures { result.now ≡ mark };

    /// Appends the spelling. After `OutOfMemory` the vector is unchanged.
    fn put(&self, out: &mut Vec<u8>) -> Result<(), OutOfMemory>
        ensures ok { OnOk result (out.new.items ≡ out.old.items ++ spelling self.now) }
        ensures fits { OnOk result (fits self.now) }
        ensures err { OnErr result (out.new.items ≡ out.old.items) };

    /// The value that the bytes spell, all of them. It is refused with `BadBody` exactly where they are no
    /// value's spelling; its only other refusal is `OutOfMemory`.
    fn take(alloc: Global, bytes: &[u8]) -> Result<Self, TypedError>
        ensures { Gives result (body_of (read bytes.now)) };

    /// The mark is a name.
    ghost is_mark: { is_name mark ≡ true };

    /// What was spelled is read again.
    ghost again: { (value : Self) → fits value → read (spelling value) ≡ Some value };

    /// What is read is a value, and the bytes are its spelling.
    ghost exact: { (bytes : List ℕ) (value : Self) → AreBytes bytes → read bytes ≡ Some value → fits value × (spelling value ≡ bytes) };
}

/// The mark as a name.
fn mark_of<T: Typed>(alloc: Global) -> Result<Name, OutOfMemory>
    ensures { IfOk result (λ name. name ≡ T.mark) }
{
    let bytes = Text::of(alloc, T::mark_bytes())?;
    Ok(Name { bytes })
}

/// The message of a value: the type's mark, and the value's spelling. `unpack` reads the value from it.
#[tactic(auto, using(crate::proofs::Comings::packed))]
pub fn pack<T: Typed>(alloc: Global, value: &T) -> Result<Message, OutOfMemory>
    ensures spelled { IfOk result (λ message. message ≡ record { mark = T.mark; body = T.spelling value.now }) }
    ensures again { IfOk result (λ message. unpacked T.mark T.read message ≡ Ok value.now) }
{
    let mark = mark_of::<T>(alloc)?;
    let mut body = Vec::new(alloc);
    value.put(&mut body)?;
    Ok(Message {
        mark,
        body: Text::from_vec(body),
    })
}

/// The value that the bytes spell.
fn value_of<T: Typed>(alloc: Global, bytes: &[u8]) -> Result<T, TypedError>
    ensures exact { Gives result (body_of (T.read bytes.now)) }
    ensures found { IfOk result (λ value. T.fits value × (T.spelling value ≡ bytes.now)) }
{
    T::take(alloc, bytes)
}

/// The value of a message. It is refused with `WrongMark` exactly where the message's mark isn't the
/// type's, with both, and then with `BadBody` exactly where the body is no value's spelling.
pub fn unpack<T: Typed>(alloc: Global, message: &Message) -> Result<T, TypedError>
    ensures exact { Gives result (unpacked T.mark T.read message.now) }
    ensures found { IfOk result (λ value. T.fits value × (T.spelling value ≡ message.now.body)) }
{
    if message.mark.bytes.as_slice() != T::mark_bytes() {
        let wanted = mark_of::<T>(alloc)?;
        let found = message.mark.copy()?;
        return Err(TypedError::WrongMark { wanted, found });
    }
    value_of(alloc, message.body.as_slice())
}

/// Takes the first message of the type's mark from a mailbox, and gives its value. It is refused with
/// `NotLive` exactly where the process isn't live or wasn't made, with `Empty` exactly where no message of
/// the mark is there, and with `BadBody` exactly where the body is no value's spelling. `BadBody` has taken
/// the message, `OutOfMemory` may have taken it, and the other refusals change nothing.
#[tactic(auto, using(crate::proofs::Comings::comes), unfolding(crate::specs::Reading::expected))]
pub fn expect<T: Typed>(alloc: Global, mail: &mut Mail, process: u32) -> Result<T, TypedError>
    ensures { Comes result mail.old mail.new (expected T.mark T.read mail.old process) }
{
    let mark = mark_of::<T>(alloc)?;
    let message = mail.take(process, &mark)?;
    T::take(alloc, message.body.as_slice())
}
