//! Addresses of the internet protocol, and blocks of them.
ghost use Rattle.std.specs.Prelude.{◌≡◌, ◌==◌};
ghost use Rattle.std.specs.List.{list_any};
ghost use Rattle.limit_ident.specs.Address.{ipv4_of, ipv6_of, address_of, width, block_length, block_of, is_within, agree, IsReading, Writes, WritesIpv4, WritesIpv6};

use ps_time::duplicate::Duplicate;
use ps_time::memory::Memory;
use ps_time::number::read_decimal;
use std::alloc::Global;
use std::net::{Ipv4Addr, Ipv6Addr};

/// An address, as a number whose first bit is the highest.
#[derive(Clone, Copy)]
pub enum Address {
    V4(u32),
    V6(u128),
}

/// The addresses that begin with the same bits as `address` (CIDR, RFC 4632).
#[derive(Clone, Copy)]
pub struct Block {
    pub address: Address,
    /// How many bits at the end don't count.
    pub free_bits: u32,
}

impl Duplicate for Block {
    fn duplicate(&self, _alloc: Global) -> Result<Block, Memory> {
        Ok(*self)
    }
}

fn has_dot(bytes: &[u8]) -> bool
    ensures { result ≡ list_any (λ b. b == 46) bytes.now }
{
    for byte in bytes {
        if *byte == b'.' {
            return true;
        }
    }
    false
}

fn read_ipv4(text: &str) -> Option<u32>
    ensures value { result ≡ ipv4_of text.now }
    ensures grammar { IsReading (WritesIpv4 text.now) result }
{
    match text.parse::<Ipv4Addr>() {
        Ok(address) => Some(address.to_bits()),
        Err(_) => None,
    }
}

fn read_ipv6(text: &str) -> Option<u128>
    ensures value { result ≡ ipv6_of text.now }
    ensures grammar { IsReading (WritesIpv6 text.now) result }
{
    if has_dot(text.as_bytes()) {
        return None;
    }
    match text.parse::<Ipv6Addr>() {
        Ok(address) => Some(address.to_bits()),
        Err(_) => None,
    }
}

/// The address that a text writes: of IPv4 four decimals, of IPv6 (RFC 4291, 2.2) groups alone, without an
/// IPv4 address at their end and without a zone. `None` exactly for every other text.
pub fn read_address(text: &str) -> Option<Address>
    ensures value { result ≡ address_of text.now }
    ensures grammar { IsReading (Writes text.now) result }
{
    if let Some(address) = read_ipv4(text) {
        return Some(Address::V4(address));
    }
    match read_ipv6(text) {
        Some(address) => Some(Address::V6(address)),
        None => None,
    }
}

fn read_length(text: &str) -> Option<u64>
    ensures { result ≡ block_length text.now }
{
    if text.len() > 1 && text.as_bytes()[0] == b'0' {
        return None;
    }
    read_decimal(text, 1, 3)
}

fn width(address: Address) -> u32
    ensures { result ≡ width address }
{
    match address {
        Address::V4(_) => 32,
        Address::V6(_) => 128,
    }
}

/// The block that a text writes: an address, and after a `/` how many of its first bits count. Without
/// that all of them do. `None` exactly for every other text.
#[tactic(auto, using(crate::proofs::AddressLemmas::split))]
pub fn read_block(text: &str) -> Option<Block>
    ensures { result ≡ block_of text.now }
{
    let Some((address, length)) = text.split_once('/') else {
        return Some(Block {
            address: read_address(text)?,
            free_bits: 0,
        });
    };
    let address = read_address(address)?;
    let length = read_length(length)?;
    let width = width(address);
    if length > u64::from(width) {
        return None;
    }
    Some(Block {
        address,
        free_bits: width - length as u32,
    })
}

fn agree(free_bits: u32, a: u128, b: u128) -> bool
    ensures { result ≡ agree free_bits a b }
{
    free_bits >= 128 || a >> free_bits == b >> free_bits
}

impl Block {
    /// Whether the address lies in the block. Those of IPv4 and of IPv6 lie in blocks of their own alone.
    pub fn contains(&self, address: Address) -> bool
        ensures { result ≡ is_within self.now address }
    {
        match (self.address, address) {
            (Address::V4(a), Address::V4(b)) => agree(self.free_bits, u128::from(a), u128::from(b)),
            (Address::V6(a), Address::V6(b)) => agree(self.free_bits, a, b),
            _ => false,
        }
    }
}
