//! Addresses of endpoints: `host:port:id`.

ghost use Rattle.std.specs.Prelude.{◌≡◌, ℕ, ◌<◌, ◌≤◌, ◌+◌, ◌^◌, ◌++◌, ◌∷◌, [], List, length, IfOk, IfSome, position, ◌==◌};
ghost use Rattle.std.specs.Ordering.{nat_cmp};
ghost use Rattle.std.specs.Option.{option_map};
ghost use Rattle.std.specs.Fmt.{decimal};
ghost use Rattle.std.specs.List.{list_all};
ghost use Rattle.std.specs.Cmp.Lexicographic.{slice_cmp};
ghost use Rattle.ch_base.specs.AddressValues.{AddressValue};
ghost use Rattle.ch_base.specs.Addresses.{IsAddress, address_text, read_address, at_colon, host_at, port_at, or_refuse, is_host_byte_of, Gives};

use crate::memory::OutOfMemory;
use crate::number::read_number;
use crate::text::Text;
use arrayvec::ArrayVec;
use itoa::Buffer;
use std::alloc::{AllocError, Global};
use std::cmp::Ordering;
use std::marker::Model;
use thiserror::Error;

/// The most bytes of an address's text.
pub const MOST_ADDRESS_BYTES: usize = 80;

/// Why a text is no address. The first of these that holds is answered.
#[derive(Clone, Copy, Debug, PartialEq, Eq, Error)]
pub enum AddressError {
    /// There is no colon, or what stands before the first is empty or has a byte other than
    /// letters, digits, `.` and `-`.
    #[error("no host")]
    NoHost,
    /// What follows isn't a number from 1 to 65535 without a leading zero and a colon.
    #[error("bad port")]
    BadPort,
    /// The rest isn't a number from 0 to 4294967295 without a leading zero.
    #[error("bad endpoint number")]
    BadId,
    /// The text has more than 80 bytes. It is asked first.
    #[error("address too long")]
    TooLong,
    /// No memory was to be had.
    #[error("out of memory")]
    OutOfMemory,
}

impl From<OutOfMemory> for AddressError {
    ghost use Rattle.ch_base.specs.declared.address.AddressError.TheVariants.{OutOfMemory};

    ghost from_gives = { λ _ e. e ≡ OutOfMemory };

    fn from(_e: OutOfMemory) -> AddressError {
        AddressError::OutOfMemory
    }
}

/// A host, a port, and the number of an endpoint on that host. Its text is one that
/// `Address::read` accepts. Contracts see the three values.
#[derive(Drop, Debug)]
pub struct Address {
    /// Letters, digits, `.` and `-`.
    pub host: Text,
    /// 1 to 65535.
    pub port: u16,
    /// The endpoint's number.
    pub id: u32,
}

impl Model for Address {
    ghost use Rattle.ch_base.specs.AddressValues.{AddressValue};

    ghost Value = { AddressValue };

    ghost use Rattle.ch_base.specs.Addresses.{IsAddress};

    ghost view = { λ a. record { host = a.host; port = a.port; id = a.id } };

    ghost invariant = { λ a. IsAddress (record { host = a.host; port = a.port; id = a.id }) };
}

/// What stands before the first colon, and what stands after it.
#[tactic(auto, using(crate::proofs::Addresses::at_colon_is))]
fn split_colon(text: &[u8]) -> Option<(&[u8], &[u8])>
    ensures { option_map (λ p. (p.0.now, p.1.now)) result ≡ at_colon text.now }
{
    match colon(text) {
        None => None,
        Some(i) => Some((text.split_at(i).0, text.split_at(i + 1).1)),
    }
}

fn colon(text: &[u8]) -> Option<usize>
    ensures place { result ≡ position (λ b. b == 58) text.now }
    ensures within { IfSome result (λ i. i < length text.now) }
{
    text.iter().position(|b| *b == b':')
}

fn is_host_byte(b: u8) -> bool
    ensures { result ≡ is_host_byte_of b }
{
    b.is_ascii_alphanumeric() || b == b'-' || b == b'.'
}

fn all_host_bytes(text: &[u8]) -> bool
    ensures { result ≡ list_all is_host_byte_of text.now }
{
    text.iter().all(|b| is_host_byte(*b))
}

/// The host's text in front, and what follows its colon.
#[tactic(auto, unfolding(crate::specs::Addresses::host_at))]
fn take_host(text: &[u8]) -> Result<(&[u8], &[u8]), AddressError>
    ensures { Gives (λ p. (p.0.now, p.1.now)) result (host_at text.now) }
{
    let (host, rest) = split_colon(text).ok_or(AddressError::NoHost)?;
    if !host.is_empty() && all_host_bytes(host) {
        Ok((host, rest))
    } else {
        Err(AddressError::NoHost)
    }
}

/// The port in front, and what follows its colon.
#[tactic(auto, unfolding(crate::specs::Addresses::port_at))]
fn take_port(text: &[u8]) -> Result<(u16, &[u8]), AddressError>
    ensures { Gives (λ p. (p.0, p.1.now)) result (port_at text.now) }
{
    let (port, rest) = split_colon(text).ok_or(AddressError::BadPort)?;
    match read_number(port, 65535) {
        Some(port) if port >= 1 => Ok((port as u16, rest)),
        _ => Err(AddressError::BadPort),
    }
}

/// The address in its parts, from the front.
#[tactic(auto, unfolding(crate::specs::Addresses::read_address))]
fn read_parts(alloc: Global, text: &[u8]) -> Result<Address, AddressError>
    ensures { Gives (λ a. a) result (read_address text.now) }
{
    if text.len() > MOST_ADDRESS_BYTES {
        return Err(AddressError::TooLong);
    }
    let (host, rest) = take_host(text)?;
    let (port, rest) = take_port(rest)?;
    let id = read_number(rest, u32::MAX).ok_or(AddressError::BadId)?;
    Ok(Address {
        host: Text::of(alloc, host)?,
        port,
        id,
    })
}

impl Address {
    /// Reads `host:port:id`. Of the faults of `AddressError` the length is asked first, then the
    /// host, the port and the endpoint's number, in this order.
    pub fn read(alloc: Global, text: &[u8]) -> Result<Address, AddressError>
        // What is read is the address that the text spells.
        ensures found { IfOk result (λ a. IsAddress a × (text.now ≡ address_text a)) }
        // Each address's text is read, unless memory runs out.
        ensures only { (a : AddressValue) → IsAddress a → text.now ≡ address_text a → Gives (λ x. x) result (Ok a) }
        // Which refusal it is.
        ensures exact { Gives (λ x. x) result (read_address text.now) }
    {
        read_parts(alloc, text)
    }

    /// The text on the stack. It takes no memory.
    fn spelled(&self) -> ArrayVec<u8, 80>
        ensures { result.items ≡ address_text self.now }
    {
        spell(self.host.as_slice(), self.port, self.id)
    }

    /// The address's one text.
    pub fn text(&self) -> Result<Text, OutOfMemory>
        ensures { IfOk result (λ t. t ≡ address_text self.now) }
    {
        Text::of(self.host.allocator(), self.spelled().as_slice())
    }

    /// An equal address.
    pub fn copy(&self) -> Result<Address, OutOfMemory>
        ensures { IfOk result (λ a. a ≡ self.now) }
    {
        Ok(Address {
            host: self.host.copy()?,
            port: self.port,
            id: self.id,
        })
    }

    /// The order of the two texts, byte by byte. It takes no memory.
    pub fn compare(&self, other: &Address) -> Ordering
        ensures { result ≡ slice_cmp nat_cmp (address_text self.now) (address_text other.now) }
    {
        self.spelled().as_slice().cmp(other.spelled().as_slice())
    }
}

/// The text of these three.
fn spell(host: &[u8], port: u16, id: u32) -> ArrayVec<u8, 80>
    requires { length (host.now ++ 58 ∷ decimal port ++ 58 ∷ decimal id) ≤ 80 }
    ensures { result.items ≡ host.now ++ 58 ∷ decimal port ++ 58 ∷ decimal id }
{
    let mut text = ArrayVec::new();
    let mut digits = Buffer::new();
    put(&mut text, host);
    put(&mut text, b":");
    put(&mut text, digits.format(port).as_bytes());
    put(&mut text, b":");
    put(&mut text, digits.format(id).as_bytes());
    text
}

/// Appends where there is room.
fn put(text: &mut ArrayVec<u8, 80>, bytes: &[u8])
    requires { length text.old.items + length bytes.now ≤ 80 }
    ensures { text.new.items ≡ text.old.items ++ bytes.now }
{
    match text.try_extend_from_slice(bytes) {
        Ok(()) => {}
        Err(_) => {}
    }
}
