//! The rules of the DNP3 link layer, over the bytes of a burst so far.
use crate::crc::FIRST_REGISTER;
use crate::size::{HEADER_LEN, LONGEST, room_by, size_by};
use crate::steps::{
    BLOCK_LEN, START, blocks_at_beginning, ends_right, head_by, header_after, is_header, is_right,
    is_whole, len_byte_after,
};
use crate::table::{after_at_once, after_byte, after_bytes};
use line_rules::{Head, LineRules};

// HEADER_LEN and BLOCK_LEN as the lengths of arrays.
const WHOLE_HEADER: usize = 10;

const BEHIND_FIRST: usize = 9;

const WHOLE_BLOCK: usize = 18;

/// The bytes of a burst so far, as the rules of the DNP3 link layer see them: how many there are,
/// for how many there is room, LEN, the register of the last byte's block and what this block
/// lacks, and whether what comes before it is right. A block is judged when the next one begins,
/// and so the register is always that of the last byte's block.
#[derive(Drop)]
pub struct Dnp {
    len: u16,
    // LEN, or 0 if it isn't there yet
    len_byte: u8,
    // for how many bytes there is room
    room: u16,
    // how many more bytes belong to the block of user data that has begun, or 0 in the header
    block_left: u16,
    register: u16,
    // whether the header is right as far as it is there
    header_right: bool,
    // whether each block of user data before that of the last byte is right
    blocks_right: bool,
}

impl Dnp {
    ghost use Rattle.std.specs.Prelude.{◌≡◌, ℕ, ◌+◌, ◌<◌, ◌≤◌, true, false, List, [], ◌∷◌, ◌++◌};
    ghost use Rattle.std.specs.Prelude.{length, take};
    ghost use Rattle.line_rules.specs.Rules.{fills_room};
    ghost use Rattle.dnp_link_frame.specs.Rules.{dnp_rules};
    ghost use Rattle.dnp_link_frame.specs.Dnp.{DnpStandsFor, Appends, is_full_dnp};

    // Appends a whole header, if there are no bytes yet.
    #[inline]
    fn take_header(&mut self, header: &[u8; WHOLE_HEADER])
        requires { self.old.len ≡ 0 }
        ensures stands { (x : List ℕ) → DnpStandsFor self.old x
            → DnpStandsFor self.new (x ++ header.now) }
        ensures count { self.new.len ≡ 10 }
    {
        self.len = HEADER_LEN;
        self.len_byte = header[2];
        self.room = room_by(self.len_byte);
        self.register = after_at_once(FIRST_REGISTER, header);
        let first = header[0] == START[0];
        self.header_right = is_header(first, header[1], header[2], self.register);
    }

    // Appends the nine bytes of a header that follow its first one.
    #[inline]
    fn take_behind_first(&mut self, following: &[u8; BEHIND_FIRST])
        requires { self.old.len ≡ 1 }
        ensures stands { (x : List ℕ) → DnpStandsFor self.old x
            → DnpStandsFor self.new (x ++ following.now) }
        ensures count { self.new.len ≡ 10 }
    {
        self.len = HEADER_LEN;
        self.len_byte = following[1];
        self.room = room_by(self.len_byte);
        self.register = after_at_once(self.register, following);
        self.header_right = is_header(self.header_right, following[0], following[1], self.register);
    }

    // Appends a byte of a header.
    #[inline(always)]
    fn take_header_byte(&mut self, b: u8)
        requires { self.old.len < 10 }
        ensures stands { (x : List ℕ) → DnpStandsFor self.old x
            → DnpStandsFor self.new (x ++ b ∷ []) }
        ensures count { self.new.len ≡ self.old.len + 1 }
    {
        self.register = after_byte(self.register, b);
        self.header_right = header_after(self.len, self.header_right, self.register, b);
        self.len_byte = len_byte_after(self.len, self.len_byte, b);
        self.room = room_by(self.len_byte);
        self.len += 1;
    }

    // Appends a byte after the header.
    fn take_user_byte(&mut self, b: u8)
        requires behind { 10 ≤ self.old.len }
        requires room { self.old.len < self.old.room }
        ensures { (x : List ℕ) → DnpStandsFor self.old x → DnpStandsFor self.new (x ++ b ∷ []) }
    {
        if self.block_left == 0 {
            self.begin_blocks(&[b]);
            return;
        }
        self.go_on(&[b]);
    }

    // Appends bytes of the block that has begun.
    #[inline]
    fn go_on(&mut self, run: &[u8])
        requires behind { 10 ≤ self.old.len }
        requires block { length run.now ≤ self.old.block_left }
        requires room { self.old.len + length run.now ≤ self.old.room }
        ensures appends { Appends self.old self.new run.now }
        ensures block { self.new.block_left + length run.now ≡ self.old.block_left }
    {
        if run.is_empty() {
            return;
        }
        self.register = after_bytes(self.register, run);
        self.len += run.len() as u16;
        self.block_left -= run.len() as u16;
    }

    // Appends blocks, of which the last may lack bytes. What comes before them, a block or the
    // header, is whole. Each block but the last is judged at once.
    #[inline]
    fn begin_blocks(&mut self, run: &[u8])
        requires behind { 10 ≤ self.old.len }
        requires begins { self.old.block_left ≡ 0 }
        requires some { 0 < length run.now }
        requires room { self.old.len + length run.now ≤ self.old.room }
        ensures { Appends self.old self.new run.now }
    {
        let mut following = run;
        let mut right = blocks_at_beginning(self.len, self.blocks_right, self.register);
        while following.len() > WHOLE_BLOCK {
            let (block, more) = following.split_at(WHOLE_BLOCK);
            right = is_right(right, after_at_once(FIRST_REGISTER, block));
            following = more;
        }
        self.blocks_right = right;
        self.register = after_bytes(FIRST_REGISTER, following);
        self.len += run.len() as u16;
        self.block_left = BLOCK_LEN - following.len() as u16;
    }

    // Appends bytes after the header, for all of which there is room.
    #[inline]
    fn take_blocks(&mut self, run: &[u8])
        requires behind { 10 ≤ self.old.len }
        requires room { self.old.len + length run.now ≤ self.old.room }
        ensures { Appends self.old self.new run.now }
    {
        let lacking = usize::from(self.block_left);
        if run.len() <= lacking {
            self.go_on(run);
            return;
        }
        if lacking == 0 {
            self.begin_blocks(run);
            return;
        }
        self.go_on(&run[..lacking]);
        self.begin_blocks(&run[lacking..]);
    }

    // Appends bytes of a header, one after the other, until it is whole or there are no more.
    // Returns how many it has appended.
    fn take_header_bytes(&mut self, following: &[u8]) -> usize
        requires { self.old.len < 10 }
        ensures within { result ≤ length following.now }
        ensures stands { (x : List ℕ) → DnpStandsFor self.old x
            → DnpStandsFor self.new (x ++ take result following.now) }
        ensures all { result < length following.now → 10 ≤ self.new.len }
        ensures room { (x : List ℕ) (n : ℕ) → DnpStandsFor self.old x → n < result
            → fills_room dnp_rules (x ++ take n following.now) ≡ false }
    {
        let run = following.len().min(usize::from(HEADER_LEN - self.len));
        for place in 0..run {
            self.take_header_byte(following[place]);
        }
        run
    }

    // Appends bytes of a header, until it is whole or there are no more. Returns how many it has
    // appended.
    #[inline]
    fn take_of_header(&mut self, following: &[u8]) -> usize
        requires { self.old.len < 10 }
        ensures within { result ≤ length following.now }
        ensures stands { (x : List ℕ) → DnpStandsFor self.old x
            → DnpStandsFor self.new (x ++ take result following.now) }
        ensures all { result < length following.now → 10 ≤ self.new.len }
        ensures room { (x : List ℕ) (n : ℕ) → DnpStandsFor self.old x → n < result
            → fills_room dnp_rules (x ++ take n following.now) ≡ false }
    {
        if self.len == 1 {
            if let Some((header, _)) = following.split_first_chunk::<BEHIND_FIRST>() {
                self.take_behind_first(header);
                return header.len();
            }
        }
        if self.len == 0 {
            if let Some((header, _)) = following.split_first_chunk::<WHOLE_HEADER>() {
                self.take_header(header);
                return header.len();
            }
        }
        self.take_header_bytes(following)
    }

    // Appends bytes after the header, as many as there is room for, which is at least one. Returns
    // how many it has appended.
    #[inline(never)]
    fn take_user(&mut self, following: &[u8]) -> usize
        requires behind { 10 ≤ self.old.len }
        requires room { is_full_dnp self.old ≡ false }
        ensures within { result ≤ length following.now }
        ensures stands { (x : List ℕ) → DnpStandsFor self.old x
            → DnpStandsFor self.new (x ++ take result following.now) }
        ensures all { result < length following.now → is_full_dnp self.new ≡ true }
        ensures room { (x : List ℕ) (n : ℕ) → DnpStandsFor self.old x → n < result
            → fills_room dnp_rules (x ++ take n following.now) ≡ false }
    {
        let run = following.len().min(usize::from(self.room - self.len));
        self.take_blocks(&following[..run]);
        run
    }

    // Appends bytes after the header, as many as there is room for. Returns how many it has
    // appended.
    #[inline(always)]
    fn take_behind_header(&mut self, following: &[u8]) -> usize
        requires { 10 ≤ self.old.len }
        ensures within { result ≤ length following.now }
        ensures stands { (x : List ℕ) → DnpStandsFor self.old x
            → DnpStandsFor self.new (x ++ take result following.now) }
        ensures all { result < length following.now → is_full_dnp self.new ≡ true }
        ensures room { (x : List ℕ) (n : ℕ) → DnpStandsFor self.old x → n < result
            → fills_room dnp_rules (x ++ take n following.now) ≡ false }
    {
        if self.full() {
            return 0;
        }
        self.take_user(following)
    }

    // Appends the bytes of a header and those after it, as many as there is room for. Returns how
    // many it has appended.
    #[inline(never)]
    fn take_with_header(&mut self, part: &[u8]) -> usize
        requires { self.old.len < 10 }
        ensures within { result ≤ length part.now }
        ensures stands { (x : List ℕ) → DnpStandsFor self.old x
            → DnpStandsFor self.new (x ++ take result part.now) }
        ensures all { result < length part.now → is_full_dnp self.new ≡ true }
        ensures room { (x : List ℕ) (n : ℕ) → DnpStandsFor self.old x → n < result
            → fills_room dnp_rules (x ++ take n part.now) ≡ false }
    {
        let header = self.take_of_header(part);
        if header >= part.len() {
            return header;
        }
        header + self.take_behind_header(&part[header..])
    }
}

impl LineRules for Dnp {
    ghost use Rattle.std.specs.Prelude.{ℕ};
    ghost use Rattle.dnp_link_frame.specs.Rules.{dnp_rules};
    ghost use Rattle.dnp_link_frame.specs.RulesLaws.{dnp_lawful, dnp_headed, dnp_framed};
    ghost use Rattle.dnp_link_frame.specs.RulesLaws.{dnp_filling, dnp_spoiling, dnp_numbers};
    ghost use Rattle.dnp_link_frame.specs.Dnp.{DnpStandsFor, is_full_dnp, dnp_fullness, dnp_bytes};
    ghost use Rattle.dnp_link_frame.specs.Dnp.{dnp_within};

    ghost rules = { dnp_rules };

    ghost stands = { DnpStandsFor };

    ghost is_full = { is_full_dnp };

    ghost MAX = { 292 };

    ghost LABEL = { 2 };

    ghost lawful = { dnp_lawful };

    ghost headed = { dnp_headed };

    ghost framed = { dnp_framed };

    ghost filling = { dnp_filling };

    ghost spoiling = { dnp_spoiling };

    ghost numbers = { dnp_numbers };

    ghost fullness = { dnp_fullness };

    ghost bytes = { dnp_bytes };

    ghost within = { dnp_within };

    const MAX: u16 = LONGEST;

    const LABEL: u8 = 2;

    #[inline]
    fn fresh() -> Dnp {
        Dnp {
            len: 0,
            len_byte: 0,
            room: LONGEST,
            block_left: 0,
            register: FIRST_REGISTER,
            header_right: true,
            blocks_right: true,
        }
    }

    #[inline]
    fn restart(&mut self) {
        *self = Dnp::fresh();
    }

    #[inline]
    fn len(&self) -> u16 {
        self.len
    }

    #[inline]
    fn full(&self) -> bool {
        self.len >= self.room
    }

    #[inline(always)]
    fn take(&mut self, b: u8) {
        if self.len >= HEADER_LEN {
            self.take_user_byte(b);
            return;
        }
        self.take_header_byte(b);
    }

    #[inline(always)]
    fn take_some(&mut self, part: &[u8]) -> usize {
        if self.len < HEADER_LEN {
            return self.take_with_header(part);
        }
        self.take_behind_header(part)
    }

    #[inline]
    fn good(&self) -> bool {
        is_whole(
            self.len,
            self.len_byte,
            self.header_right,
            self.blocks_right,
            self.register,
        )
    }

    #[inline]
    fn head(&self) -> Head {
        head_by(self.len, self.header_right)
    }

    #[inline]
    fn lacking(&self) -> u16 {
        match self.head() {
            Head::Good => size_by(self.len_byte).saturating_sub(self.len),
            Head::Short | Head::Bad => 0,
        }
    }

    #[inline]
    fn ends_right(&self) -> bool {
        ends_right(self.len, self.len_byte, self.register)
    }

    #[inline]
    fn fork(&self) -> Dnp {
        Dnp {
            len: self.len,
            len_byte: self.len_byte,
            room: self.room,
            block_left: self.block_left,
            register: self.register,
            header_right: self.header_right,
            blocks_right: self.blocks_right,
        }
    }
}
