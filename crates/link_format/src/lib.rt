//! What follows a frame on a link, its word and its tag, and what a box is set up with.
//!
//! HMAC (RFC 2104) as a stream over one key, and the tags that are its first bytes (RFC 2404,
//! RFC 4868).
//!
//! The tag of a text that comes in two pieces, 12 bytes of HMAC-SHA-1:
//!
//!     let mut mac = HmacSha1::with_key(&key);
//!     mac.update(&first);
//!     mac.update(&second);
//!     let tag = mac.finish();
//!     assert_eq!(rt; tag.len(), 12);
//!
//! What follows a frame on a link (profiles, words and trailers), and what a box is set up with.
//!
//! A trailer leaves byte by byte, the word first:
//!
//!     let mut trailer: Trailer<2> = Trailer::none();
//!     trailer.load(0x10203, &tag);
//!     assert_eq!(rt; trailer.next_tick(), Tick::Byte(0x02));
//!     assert_eq!(rt; trailer.next_tick(), Tick::Byte(0x03));
#![tactic(auto)]

mod block_hasher;
mod dir;
mod fours;
mod hash;
mod hash_value;
mod keyed_hash;
mod macs;
mod sha1_block;
mod sha256_block;
mod tag;
mod trailer;

pub use block_hasher::{BlockHasher, BlockStart};
pub use dir::Dir;
pub use hash::Digest;
pub use hash_value::{HashValue, Sha1Value, Sha256Value};
pub use macs::{HmacSha1, HmacSha256};
pub use tag::{Mac, TagBytes};
pub use trailer::Trailer;
