//! The fields that messages are made of, reader and writer of each side by side: numbers, names,
//! texts, bytes behind their length, addresses. A reader takes its field from the front of a
//! slice and answers the value and the rest. Identifiers, reasons and messages stand above.

ghost use Rattle.std.specs.List.{list_all};
ghost use Rattle.std.specs.Prelude.{◌≡◌, ◌<◌, ◌^◌, ◌++◌, ◌∷◌, length, true, OnOk};
ghost use Rattle.ch_base.specs.Addresses.{address_text, read_address as read_address_of};
ghost use Rattle.ch_ident.specs.Names.{is_graphic, is_printable as is_printable_of, is_text};
ghost use Rattle.ch_ident.specs.Outcome.{Gives, GivesBy};
ghost use Rattle.ch_ident.specs.Reading.{piece_at, tested_at, number_at, name_at, text_at, long_at, address_of, address_at};
ghost use Rattle.ch_ident.specs.Spelling.{number, short, long, address};

use crate::error::IdentError;
use crate::name::{Name, all_graphic};
use ch_base::{Address, AddressError, OutOfMemory, Text};
use std::alloc::Global;

#[tactic(auto, unfolding(crate::specs::Reading::piece_at))]
fn read_piece(len: usize, bytes: &[u8]) -> Result<(&[u8], &[u8]), IdentError>
    ensures { GivesBy (λ x. (x.0.now, x.1.now)) result (piece_at len bytes.now) }
{
    if bytes.len() < len {
        return Err(IdentError::Short);
    }
    Ok(bytes.split_at(len))
}

pub(crate) fn read_number(bytes: &[u8]) -> Result<(u32, &[u8]), IdentError>
    ensures { GivesBy (λ x. (x.0, x.1.now)) result (number_at bytes.now) }
{
    if bytes.len() < 4 {
        return Err(IdentError::Short);
    }
    let (word, rest) = bytes.split_at(4);
    let number = u32::from_be_bytes([word[0], word[1], word[2], word[3]]);
    Ok((number, rest))
}

pub(crate) fn write_number(n: u32, out: &mut Vec<u8>) -> Result<(), OutOfMemory>
    ensures { OnOk result (out.new.items ≡ out.old.items ++ number n) }
{
    out.extend_from_slice(&n.to_be_bytes())?;
    Ok(())
}

/// So many bytes of a name: the first that may not stand there decides before their end.
#[tactic(auto, unfolding(crate::specs::Reading::tested_at, crate::specs::Reading::piece_at))]
fn read_graphic(len: usize, bytes: &[u8]) -> Result<(&[u8], &[u8]), IdentError>
    ensures { GivesBy (λ x. (x.0.now, x.1.now)) result (tested_at is_graphic len bytes.now) }
{
    if !all_graphic(&bytes[..len.min(bytes.len())]) {
        return Err(IdentError::BadText);
    }
    read_piece(len, bytes)
}

#[tactic(auto, unfolding(crate::specs::Reading::name_at))]
pub(crate) fn read_name(alloc: Global, bytes: &[u8]) -> Result<(Name, &[u8]), IdentError>
    ensures { GivesBy (λ x. (x.0, x.1.now)) result (name_at bytes.now) }
{
    let (len, rest) = bytes.split_first().ok_or(IdentError::Short)?;
    if *len < 1 || *len > 63 {
        return Err(IdentError::BadText);
    }
    let (name, rest) = read_graphic(*len as usize, rest)?;
    let bytes = Text::of(alloc, name)?;
    Ok((Name { bytes }, rest))
}

pub(crate) fn write_name(name: &Name, out: &mut Vec<u8>) -> Result<(), OutOfMemory>
    ensures { OnOk result (out.new.items ≡ out.old.items ++ short name.now) }
{
    write_short(name.bytes.as_slice(), out)
}

/// A length of one byte, and the bytes.
fn write_short(bytes: &[u8], out: &mut Vec<u8>) -> Result<(), OutOfMemory>
    requires { length bytes.now < 256 }
    ensures { OnOk result (out.new.items ≡ out.old.items ++ short bytes.now) }
{
    out.push(bytes.len() as u8)?;
    out.extend_from_slice(bytes)?;
    Ok(())
}

fn is_printable(b: u8) -> bool
    ensures { result ≡ is_printable_of b }
{
    b >= 0x20 && b <= 0x7e
}

fn all_printable(bytes: &[u8]) -> bool
    ensures { result ≡ list_all is_printable_of bytes.now }
{
    bytes.iter().all(|b| is_printable(*b))
}

/// So many bytes of a text: the first that may not stand there decides before their end.
#[tactic(auto, unfolding(crate::specs::Reading::tested_at, crate::specs::Reading::piece_at))]
fn read_printable(len: usize, bytes: &[u8]) -> Result<(&[u8], &[u8]), IdentError>
    ensures { GivesBy (λ x. (x.0.now, x.1.now)) result (tested_at is_printable_of len bytes.now) }
{
    if !all_printable(&bytes[..len.min(bytes.len())]) {
        return Err(IdentError::BadText);
    }
    read_piece(len, bytes)
}

#[tactic(auto, unfolding(crate::specs::Reading::text_at))]
pub(crate) fn read_text(alloc: Global, bytes: &[u8]) -> Result<(Text, &[u8]), IdentError>
    ensures { GivesBy (λ x. (x.0, x.1.now)) result (text_at bytes.now) }
{
    let (len, rest) = bytes.split_first().ok_or(IdentError::Short)?;
    let (text, rest) = read_printable(*len as usize, rest)?;
    Ok((Text::of(alloc, text)?, rest))
}

pub(crate) fn write_text(text: &Text, out: &mut Vec<u8>) -> Result<(), OutOfMemory>
    requires { is_text text.now ≡ true }
    ensures { OnOk result (out.new.items ≡ out.old.items ++ short text.now) }
{
    write_short(text.as_slice(), out)
}

#[tactic(auto, unfolding(crate::specs::Reading::long_at))]
pub(crate) fn read_long(alloc: Global, bytes: &[u8]) -> Result<(Text, &[u8]), IdentError>
    ensures { GivesBy (λ x. (x.0, x.1.now)) result (long_at bytes.now) }
{
    let (len, rest) = read_number(bytes)?;
    let (text, rest) = read_piece(len as usize, rest)?;
    Ok((Text::of(alloc, text)?, rest))
}

pub(crate) fn write_long(text: &Text, out: &mut Vec<u8>) -> Result<(), OutOfMemory>
    requires { length text.now < 2 ^ 32 }
    ensures { OnOk result (out.new.items ≡ out.old.items ++ long text.now) }
{
    write_number(text.len() as u32, out)?;
    out.extend_from_slice(text.as_slice())?;
    Ok(())
}

/// The address of this text, whose every fault is one of the text.
fn read_address_text(alloc: Global, text: &[u8]) -> Result<Address, IdentError>
    ensures { Gives result (address_of text.now) }
{
    match Address::read(alloc, text) {
        Ok(address) => Ok(address),
        Err(AddressError::OutOfMemory) => Err(IdentError::OutOfMemory),
        Err(AddressError::NoHost) => Err(IdentError::BadText),
        Err(AddressError::BadPort) => Err(IdentError::BadText),
        Err(AddressError::BadId) => Err(IdentError::BadText),
        Err(AddressError::TooLong) => Err(IdentError::BadText),
    }
}

#[tactic(auto, unfolding(crate::specs::Reading::address_at))]
pub(crate) fn read_address(alloc: Global, bytes: &[u8]) -> Result<(Address, &[u8]), IdentError>
    ensures { GivesBy (λ x. (x.0, x.1.now)) result (address_at bytes.now) }
{
    let (len, rest) = bytes.split_first().ok_or(IdentError::Short)?;
    if *len < 1 || *len > 80 {
        return Err(IdentError::BadText);
    }
    let (text, rest) = read_piece(*len as usize, rest)?;
    Ok((read_address_text(alloc, text)?, rest))
}

pub(crate) fn write_address(node: &Address, out: &mut Vec<u8>) -> Result<(), OutOfMemory>
    ensures { OnOk result (out.new.items ≡ out.old.items ++ address node.now) }
{
    // Opens the address, which shows that its text is short.
    let _ = &node.port;
    let text = node.text()?;
    write_short(text.as_slice(), out)
}
