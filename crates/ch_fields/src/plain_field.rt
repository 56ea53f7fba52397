//! The fields of a line, each with its class: how one is cut off, and how the plain ones are read.
//!
//! A reader answers the first refusal; of a number it asks only that it is digits, until `number` is
//! asked for its value. Below stand the faults, and above the fields that are made of several.

ghost use Rattle.std.specs.Prelude.{◌≡◌, ◌==◌, ◌<◌, not, length, IfSome, position};
ghost use Rattle.std.specs.List.{list_all};
ghost use Rattle.std.specs.Option.{option_map};
ghost use Rattle.std.specs.Str.{bytes_eq};
ghost use Rattle.ch_base.specs.Numbers.{is_digit_of, are_digits as are_digits_of};
ghost use Rattle.ch_base.specs.Addresses.{is_host_byte_of, is_host_of};
ghost use Rattle.ch_ident.specs.Names.{is_printable as is_printable_of};
ghost use Rattle.ch_model.specs.declared.refusal.BadKind.TheVariants.{Form};
ghost use Rattle.ch_model.specs.Fields.{need, at_byte, field_of, last_of, is_letter_of, is_name_byte_of, begins_with_letter as begins_with_letter_of, begins_with_dollar as begins_with_dollar_of, is_dash as is_dash_of, is_node_name_of, node_name_of, digits_of, word_of, sent_mark_of, bytes_of, address_of, host_of, end_of, is_line_text as is_line_text_of, text_of, number_in, count_in};
ghost use Rattle.ch_fields.specs.Outcome.{Gives};

use crate::fault::Fault;
use ch_base::{Address, Text, read_number};
use ch_ident::Name;
use ch_model::{BadKind, End};
use std::alloc::Global;

/// The most bytes of a node's name.
const MOST_NAME_BYTES: usize = 16;

/// The most bytes of a stranger's host.
const MOST_HOST_BYTES: usize = 76;

/// The most bytes of a text.
const MOST_TEXT_BYTES: usize = 200;

/// What stands before the first such byte, and what stands after it.
#[tactic(auto, using(crate::proofs::Fields::at_byte_is))]
pub fn split_at_byte(byte: u8, text: &[u8]) -> Option<(&[u8], &[u8])>
    ensures { option_map (λ p. (p.0.now, p.1.now)) result ≡ at_byte byte text.now }
{
    match place_of(byte, text) {
        None => None,
        Some(i) => Some((text.split_at(i).0, text.split_at(i + 1).1)),
    }
}

fn place_of(byte: u8, text: &[u8]) -> Option<usize>
    ensures place { result ≡ position (λ b. b == byte) text.now }
    ensures within { IfSome result (λ i. i < length text.now) }
{
    text.iter().position(|b| *b == byte)
}

/// The next field, and what follows its space where one comes.
#[tactic(auto, unfolding(ch_model::specs::Fields::field_of))]
pub fn field(rest: Option<&[u8]>) -> Result<(&[u8], Option<&[u8]>), Fault>
    ensures { Gives (λ p. (p.0.now, option_map (λ r. r.now) p.1)) result (field_of (option_map (λ r. r.now) rest.entry)) }
{
    match rest {
        None => Err(Fault::Bad(BadKind::Form)),
        Some(text) => match split_at_byte(b' ', text) {
            None => Ok((text, None)),
            Some((front, back)) => Ok((front, Some(back))),
        },
    }
}

/// No field is left.
#[tactic(auto, unfolding(ch_model::specs::Fields::last_of))]
pub fn last(rest: Option<&[u8]>) -> Result<bool, Fault>
    ensures { Gives (λ x. x) result (last_of (option_map (λ r. r.now) rest.entry)) }
{
    match rest {
        None => Ok(true),
        Some(_) => Err(Fault::Bad(BadKind::Form)),
    }
}

fn is_letter(b: u8) -> bool
    ensures { result ≡ is_letter_of b }
{
    b'a' <= b && b <= b'z'
}

fn is_name_byte(b: u8) -> bool
    ensures { result ≡ is_name_byte_of b }
{
    is_letter(b) || (b'0' <= b && b <= b'9')
}

fn all_name_bytes(text: &[u8]) -> bool
    ensures { result ≡ list_all is_name_byte_of text.now }
{
    text.iter().all(|b| is_name_byte(*b))
}

fn begins_with_letter(text: &[u8]) -> bool
    ensures { result ≡ begins_with_letter_of text.now }
{
    match text {
        [] => false,
        [b, ..] => is_letter(*b),
    }
}

/// A node's name: 1 to 16 lower-case letters and digits, the first a letter.
#[tactic(auto, unfolding(ch_model::specs::Fields::node_name_of))]
pub fn node_name(field: &[u8]) -> Result<&[u8], Fault>
    ensures { Gives (λ x. x.now) result (node_name_of field.now) }
{
    if begins_with_letter(field) && field.len() <= MOST_NAME_BYTES && all_name_bytes(field) {
        Ok(field)
    } else {
        Err(Fault::Bad(BadKind::Form))
    }
}

fn is_digit(b: u8) -> bool
    ensures { result ≡ is_digit_of b }
{
    b'0' <= b && b <= b'9'
}

fn all_digits(bytes: &[u8]) -> bool
    ensures { result ≡ list_all is_digit_of bytes.now }
{
    bytes.iter().all(|b| is_digit(*b))
}

/// Digits, at least one.
#[tactic(auto, unfolding(ch_model::specs::Fields::digits_of))]
pub fn digits(field: &[u8]) -> Result<&[u8], Fault>
    ensures { Gives (λ x. x.now) result (digits_of field.now) }
{
    if !field.is_empty() && all_digits(field) {
        Ok(field)
    } else {
        Err(Fault::Bad(BadKind::Form))
    }
}

/// A mark, or a label: a name.
#[tactic(auto, unfolding(ch_model::specs::Fields::word_of, ch_ident::specs::Reading::name_of))]
pub fn word(alloc: Global, field: &[u8]) -> Result<Name, Fault>
    ensures { Gives (λ x. x) result (word_of field.now) }
{
    Ok(Name::new(alloc, field)?)
}

fn begins_with_dollar(text: &[u8]) -> bool
    ensures { result ≡ begins_with_dollar_of text.now }
{
    match text {
        [] => false,
        [b, ..] => *b == b'$',
    }
}

/// The mark of a message that is sent, which doesn't begin with `$`.
#[tactic(auto, unfolding(ch_model::specs::Fields::sent_mark_of))]
pub fn sent_mark(alloc: Global, field: &[u8]) -> Result<Name, Fault>
    ensures { Gives (λ x. x) result (sent_mark_of field.now) }
{
    let mark = word(alloc, field)?;
    if begins_with_dollar(mark.bytes.as_slice()) {
        return Err(Fault::Bad(BadKind::Form));
    }
    Ok(mark)
}

fn is_dash(text: &[u8]) -> bool
    ensures { result ≡ is_dash_of text.now }
{
    match text {
        [b] => *b == b'-',
        _ => false,
    }
}

/// Bytes: `-` for none, else pairs of hexadecimal digits in either case, at least one pair.
#[tactic(auto, unfolding(ch_model::specs::Fields::bytes_of))]
pub fn bytes(alloc: Global, field: &[u8]) -> Result<Text, Fault>
    ensures { Gives (λ x. x) result (bytes_of field.now) }
{
    if is_dash(field) {
        return Ok(Text::new(alloc));
    }
    if field.is_empty() {
        return Err(Fault::Bad(BadKind::Form));
    }
    Ok(Text::from_vec(hex::decode(alloc, field)?))
}

/// An address.
#[tactic(auto, unfolding(ch_model::specs::Fields::address_of))]
pub fn address(alloc: Global, field: &[u8]) -> Result<Address, Fault>
    ensures { Gives (λ x. x) result (address_of field.now) }
{
    Ok(Address::read(alloc, field)?)
}

/// The number of digits: without a leading zero, at most 4294967295.
#[tactic(auto, unfolding(ch_model::specs::Fields::number_in))]
pub fn number(digits: &[u8]) -> Result<u32, Fault>
    ensures { Gives (λ x. x) result (number_in digits.now) }
{
    Ok(read_number(digits, u32::MAX).ok_or(Fault::Bad(BadKind::Number))?)
}

/// The same, and at least 1.
#[tactic(auto, unfolding(ch_model::specs::Fields::count_in))]
pub fn count(digits: &[u8]) -> Result<u32, Fault>
    ensures { Gives (λ x. x) result (count_in digits.now) }
{
    match read_number(digits, u32::MAX) {
        Some(count) if count >= 1 => Ok(count),
        _ => Err(Fault::Bad(BadKind::Number)),
    }
}

/// The second of two names that have to differ.
pub fn apart<'a>(first: &[u8], second: &'a [u8]) -> Result<&'a [u8], Fault>
    ensures { Gives (λ x. x.now) result (need Form (not (bytes_eq first.now second.now)) second.now) }
{
    if first != second {
        Ok(second)
    } else {
        Err(Fault::Bad(BadKind::Form))
    }
}

fn is_host_byte(b: u8) -> bool
    ensures { result ≡ is_host_byte_of b }
{
    b.is_ascii_alphanumeric() || b == b'-' || b == b'.'
}

fn all_host_bytes(text: &[u8]) -> bool
    ensures { result ≡ list_all is_host_byte_of text.now }
{
    text.iter().all(|b| is_host_byte(*b))
}

/// A stranger's host: the host of some address.
#[tactic(auto, unfolding(ch_model::specs::Fields::host_of))]
pub fn host(field: &[u8]) -> Result<&[u8], Fault>
    ensures { Gives (λ x. x.now) result (host_of field.now) }
{
    if !field.is_empty() && all_host_bytes(field) && field.len() <= MOST_HOST_BYTES {
        Ok(field)
    } else {
        Err(Fault::Bad(BadKind::Form))
    }
}

/// An end of a socket: `o` for the opener's, `t` for the target's.
#[tactic(auto, unfolding(ch_model::specs::Fields::end_of))]
pub fn end(field: &[u8]) -> Result<End, Fault>
    ensures { Gives (λ x. x) result (end_of field.now) }
{
    if field == b"o".as_slice() {
        Ok(End::O)
    } else if field == b"t".as_slice() {
        Ok(End::T)
    } else {
        Err(Fault::Bad(BadKind::Form))
    }
}

fn is_printable(b: u8) -> bool
    ensures { result ≡ is_printable_of b }
{
    0x20 <= b && b <= 0x7e
}

fn all_printable(text: &[u8]) -> bool
    ensures { result ≡ list_all is_printable_of text.now }
{
    text.iter().all(|b| is_printable(*b))
}

fn is_line_text(text: &[u8]) -> bool
    ensures { result ≡ is_line_text_of text.now }
{
    1 <= text.len() && text.len() <= MOST_TEXT_BYTES && all_printable(text)
}

/// A text: the whole rest of its line, 1 to 200 bytes that show something or are spaces.
#[tactic(auto, unfolding(ch_model::specs::Fields::text_of))]
pub fn text(rest: Option<&[u8]>) -> Result<&[u8], Fault>
    ensures { Gives (λ x. x.now) result (text_of (option_map (λ r. r.now) rest.entry)) }
{
    match rest {
        None => Err(Fault::Bad(BadKind::Form)),
        Some(text) => {
            if is_line_text(text) {
                Ok(text)
            } else {
                Err(Fault::Bad(BadKind::Form))
            }
        }
    }
}
