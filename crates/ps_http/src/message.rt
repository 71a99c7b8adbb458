//! Requests and responses.

use ps_time::items::Items;
use ps_time::text::Text;

/// The most bytes of a head that a reader takes.
pub const MAX_HEAD: u32 = 16_384;

/// The most fields of a head.
pub const MAX_FIELDS: usize = 64;

/// The most bytes of a head, and of a body. A head's limit is from 1 to `MAX_HEAD`.
#[derive(Clone, Copy)]
pub struct HttpLimits {
    pub head: u32,
    pub body: u32,
}

/// Which peer sends a request, and its key.
#[derive(Drop)]
pub struct PeerMark {
    pub number: u16,
    /// 1 to 64 letters and digits.
    pub key: Text,
}

/// A request, whose target is cut at its first `?`.
#[derive(Drop)]
pub struct Request {
    pub method: Text,
    pub path: Text,
    pub query: Option<Text>,
    pub peer: Option<PeerMark>,
    /// The connection is to be closed after the reply.
    pub close: bool,
    pub body: Items<u8>,
}

/// A response. `allow` names the methods that a path has.
#[derive(Drop)]
pub struct Response {
    pub status: u16,
    pub allow: Option<Text>,
    /// The connection is closed after it.
    pub close: bool,
    pub body: Items<u8>,
}
