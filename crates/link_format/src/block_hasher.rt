//! A hasher that takes a message in pieces, by blocks of 64 bytes.

ghost use Rattle.std.specs.Prelude.{◌≡◌, ℕ, ◌+◌, ◌%◌, ◌<◌, ◌≤◌, List, [], ◌++◌, length, take};
ghost use Rattle.std.specs.Int.{w64, to_be_bytes};
ghost use Rattle.sha2.specs.Sha256.{padded_message};
ghost use Rattle.link_format.specs.Hashing.{HasBegun, HasTaken};

use crate::hash_value::{BLOCK_LEN, HashValue};

// How many bytes wait at most: two blocks.
const ROOM: usize = 128;

// Where the message's length is in the last block.
const LENGTH_AT: usize = 56;

/// A message of whole blocks, all of which are hashed.
#[derive(Clone, Copy, Drop)]
pub struct BlockStart<V> {
    value: V,
    // How many bytes are hashed, modulo 2^64, which is enough for the length in the padding.
    hashed: u64,
}

/// A hasher. The bytes after the last hashed block wait, up to two blocks of them. They are hashed
/// only when more bytes come than there is room for, or when the digest is asked for, which may
/// never happen.
#[derive(Clone, Copy, Drop)]
pub struct BlockHasher<V> {
    start: BlockStart<V>,
    room: [u8; ROOM],
    // How many bytes wait: the first ones of `room`.
    waiting: u8,
}

// Returns the bytes of a number, high byte first. The function isn't inlined: the compiler, if it
// saw it together with a product, would put the bytes together one by one.
#[inline(never)]
fn bytes_of(n: u64) -> [u8; 8]
    ensures { result ≡ to_be_bytes w64 n }
{
    n.to_be_bytes()
}

impl<V: HashValue> BlockStart<V> {
    /// Returns a message of no block.
    #[inline]
    fn new() -> BlockStart<V>
        ensures { HasBegun V.is_after result [] }
    {
        BlockStart {
            value: V::initial(),
            hashed: 0,
        }
    }

    /// Returns a message of one block.
    pub(crate) fn of_block(block: &[u8; BLOCK_LEN]) -> BlockStart<V>
        ensures { HasBegun V.is_after result block.now }
    {
        let mut start = BlockStart::new();
        start.take_block(block);
        start
    }

    // Takes one more block.
    #[inline]
    fn take_block(&mut self, block: &[u8; BLOCK_LEN])
        ensures { (m : List ℕ) → HasBegun V.is_after self.old m
            → HasBegun V.is_after self.new (m ++ block.now) }
    {
        self.value.take_block(block);
        self.hashed = self.hashed.wrapping_add(BLOCK_LEN as u64);
    }

    // Takes one more block: the first 64 of these bytes.
    #[inline]
    fn take_front(&mut self, part: &[u8])
        requires { 64 ≤ length part.now }
        ensures { (m : List ℕ) → HasBegun V.is_after self.old m
            → HasBegun V.is_after self.new (m ++ take 64 part.now) }
    {
        if let Some((block, _)) = part.split_first_chunk::<BLOCK_LEN>() {
            self.take_block(block);
        }
    }

    // Returns the value after the last block, whose last eight bytes are `bits`.
    #[inline]
    fn closed(mut self, mut block: [u8; BLOCK_LEN], bits: &[u8; 8]) -> V
        ensures { (blocks : List ℕ) → length blocks % 64 ≡ 0 → V.is_after self.value blocks
            → V.is_after result (blocks ++ (take 56 block ++ bits.now)) }
    {
        block[LENGTH_AT..].copy_from_slice(bits);
        self.value.take_block(&block);
        self.value
    }

    /// Returns the value after the message, then `tail`, which is less than a block, and the
    /// padding. The last block is laid out in a new array.
    pub(crate) fn ended(mut self, tail: &[u8]) -> V
        requires { length tail.now < 64 }
        ensures { (m : List ℕ) → HasBegun V.is_after self m
            → V.is_after result (padded_message (m ++ tail.now)) }
    {
        let bits = bytes_of(self.hashed.wrapping_add(tail.len() as u64).wrapping_mul(8));
        let mut block = [0; BLOCK_LEN];
        block[..tail.len()].copy_from_slice(tail);
        block[tail.len()] = 0x80;
        if tail.len() < LENGTH_AT {
            return self.closed(block, &bits);
        }
        self.value.take_block(&block);
        self.closed([0; BLOCK_LEN], &bits)
    }
}

impl<V: HashValue> BlockHasher<V> {
    /// Returns a hasher of the empty message.
    #[inline]
    pub(crate) fn new() -> BlockHasher<V>
        ensures { HasTaken V.is_after result [] }
    {
        BlockHasher {
            start: BlockStart::new(),
            room: [0; ROOM],
            waiting: 0,
        }
    }

    /// Begins another message, with the blocks that `start` has hashed.
    #[inline]
    pub(crate) fn begin(&mut self, start: &BlockStart<V>)
        ensures { (m : List ℕ) → HasBegun V.is_after start.now m → HasTaken V.is_after self.new m }
    {
        self.start = *start;
        self.waiting = 0;
    }

    // Hashes the two blocks that wait.
    fn hash_room(&mut self)
        requires { self.old.waiting ≡ 128 }
        ensures taken { (m : List ℕ) → HasTaken V.is_after self.old m
            → HasTaken V.is_after self.new m }
        ensures none { self.new.waiting ≡ 0 }
    {
        self.start.take_front(&self.room);
        let (_, last) = self.room.split_at(BLOCK_LEN);
        self.start.take_front(last);
        self.waiting = 0;
    }

    // Appends a piece that there is room for.
    #[inline(always)]
    fn extend(&mut self, part: &[u8])
        requires { self.old.waiting + length part.now ≤ 128 }
        ensures taken { (m : List ℕ) → HasTaken V.is_after self.old m
            → HasTaken V.is_after self.new (m ++ part.now) }
        ensures longer { self.new.waiting ≡ self.old.waiting + length part.now }
    {
        let used = self.waiting as usize;
        self.room[used..used + part.len()].copy_from_slice(part);
        self.waiting = (used + part.len()) as u8;
    }

    /// Appends to the message. Most pieces are short, and there is room for them. At least the last
    /// byte of a piece waits.
    #[inline(always)]
    pub(crate) fn update(&mut self, part: &[u8])
        ensures taken { (m : List ℕ) → HasTaken V.is_after self.old m
            → HasTaken V.is_after self.new (m ++ part.now) }
        ensures late { 0 < length part.now → 0 < self.new.waiting }
    {
        if self.waiting as usize + part.len() <= ROOM {
            self.extend(part);
        } else if self.waiting as usize <= ROOM {
            self.update_blocks(part);
        }
    }

    // Appends a piece that there isn't enough room for. At most two blocks of it then wait.
    #[inline(never)]
    fn update_blocks(&mut self, part: &[u8])
        requires most { self.old.waiting ≤ 128 }
        requires more { 128 < self.old.waiting + length part.now }
        ensures taken { (m : List ℕ) → HasTaken V.is_after self.old m
            → HasTaken V.is_after self.new (m ++ part.now) }
        ensures late { 0 < length part.now → 0 < self.new.waiting }
    {
        let mut done = ROOM - self.waiting as usize;
        self.extend(&part[..done]);
        self.hash_room();
        'blocks: while ROOM < part.len() - done {
            self.start.take_front(&part[done..]);
            done += BLOCK_LEN;
        }
        self.extend(&part[done..]);
    }

    /// Returns the value after the message with its padding.
    #[inline]
    pub(crate) fn ended(&self) -> V
        ensures { (m : List ℕ) → HasTaken V.is_after self.now m
            → V.is_after result (padded_message m) }
    {
        let waiting = (self.waiting as usize).min(ROOM);
        let mut start = self.start;
        let mut from = 0;
        'blocks: while BLOCK_LEN <= waiting - from {
            start.take_front(&self.room[from..]);
            from += BLOCK_LEN;
        }
        start.ended(&self.room[from..waiting])
    }
}
