//! What the boxes ask of a protocol: its rules, over the bytes of a burst so far.
ghost use Rattle.std.specs.Prelude.{◌≡◌, ℕ, ◌<◌, ◌≤◌, Bool, true, false, List, [], ◌∷◌, ◌++◌};
ghost use Rattle.std.specs.Prelude.{length, take};
ghost use Rattle.line_rules.specs.Bytes.{AreBytes};
ghost use Rattle.line_rules.specs.Rules.{Rules, fills_room, is_frame_of, head_of, lacking_of};
ghost use Rattle.line_rules.specs.Rules.{has_right_ending_of};
ghost use Rattle.line_rules.specs.RulesLaws.{IsLawful, IsHeaded, IsFramed, IsFilling, HasNumbers};
ghost use Rattle.line_rules.specs.Spoiling.{IsSpoiling};

use crate::Head;

/// The bytes of a burst so far, as the rules of a protocol see them.
pub trait LineRules: Drop {
    /// The protocol's rules over whole lists.
    ghost rules: { Rules };

    /// Holds if the value represents these bytes.
    ghost stands: { Self → List ℕ → Type 0 };

    /// Whether there is no room for another byte.
    ghost is_full: { Self → Bool };

    /// How many bytes a frame has at most.
    ghost MAX: { ℕ };

    /// The number of the protocol.
    ghost LABEL: { ℕ };

    /// There is room for a first byte, and for one more as long as the room isn't full. A full room
    /// stays the same, and no room is greater than the longest frame.
    ghost lawful: { IsLawful rules };

    /// A header has at most ten bytes, and there always is room for one.
    ghost headed: { IsHeaded rules };

    /// A frame has at least one byte, a good header and the size that the rules give for it, and
    /// there is room for it.
    ghost framed: { IsFramed rules };

    /// There is room for the bytes that a frame still lacks. After a whole header, each byte makes
    /// them one fewer, down to none.
    ghost filling: { IsFilling rules };

    /// Bytes that are spoiled aren't a frame and have no right ending. A byte is changed, in its
    /// lowest bit, only if they would have a right ending with it.
    ghost spoiling: { IsSpoiling rules };

    /// The rules have this longest frame and this number of the protocol.
    ghost numbers: { HasNumbers rules MAX LABEL };

    /// The value is full exactly if the rules say so of its bytes.
    ghost fullness: { (value : Self) (x : List ℕ) → stands value x
        → is_full value ≡ fills_room rules x };

    /// What a value represents are numbers below 256.
    ghost bytes: { (value : Self) (x : List ℕ) → stands value x → AreBytes x };

    /// It represents no more bytes than the rules have room for.
    ghost within: { (value : Self) (x : List ℕ) → stands value x → length x ≤ rules.room x };

    /// How many bytes a frame has at most.
    const MAX: u16;

    /// The number of the protocol: 1 is Modbus RTU, 2 is DNP3.
    const LABEL: u8;

    /// Returns a value that represents no bytes.
    fn fresh() -> Self
        /// It represents no bytes.
        ensures stands { stands result [] }
        /// It isn't full.
        ensures room { is_full result ≡ false };

    /// Makes the value represent no bytes again.
    fn restart(&mut self)
        /// It represents no bytes.
        ensures stands { stands self.new [] }
        /// It isn't full.
        ensures room { is_full self.new ≡ false };

    /// Returns how many bytes there are.
    fn len(&self) -> u16
        ensures { (x : List ℕ) → stands self.now x → result ≡ length x };

    /// Whether there is no room for another byte.
    fn full(&self) -> bool
        /// It is whether the value is full.
        ensures full { result ≡ is_full self.now }
        /// It is whether the rules say so of its bytes.
        ensures stands { (x : List ℕ) → stands self.now x → result ≡ fills_room rules x };

    /// Appends a byte, for which there must be room.
    fn take(&mut self, b: u8)
        /// The value isn't full.
        requires { is_full self.old ≡ false }
        ensures { (x : List ℕ) → stands self.old x → stands self.new (x ++ b ∷ []) };

    /// Appends these bytes in order, as many as there is room for, and returns how many.
    fn take_some(&mut self, part: &[u8]) -> usize
        /// No more bytes are taken than there are.
        ensures within { result ≤ length part.now }
        /// The value represents its bytes, and then those that are taken.
        ensures stands { (x : List ℕ) → stands self.old x
            → stands self.new (x ++ take result part.now) }
        /// If not all are taken, the value is full.
        ensures all { result < length part.now → is_full self.new ≡ true }
        /// The value wasn't full before any of those that are taken.
        ensures room { (x : List ℕ) (n : ℕ) → stands self.old x → n < result
            → fills_room rules (x ++ take n part.now) ≡ false }
    {
        let mut taken = 0;
        for byte in part {
            if self.full() {
                return taken;
            }
            self.take(*byte);
            taken += 1;
        }
        taken
    }

    /// Whether the bytes are a frame.
    fn good(&self) -> bool
        ensures { (x : List ℕ) → stands self.now x → result ≡ is_frame_of rules x };

    /// Returns what the bytes say about the header.
    fn head(&self) -> Head
        ensures { (x : List ℕ) → stands self.now x → result ≡ head_of rules x };

    /// Returns how many bytes the frame still lacks, if the bytes begin with a good header, and 0
    /// if they don't.
    fn lacking(&self) -> u16
        ensures { (x : List ℕ) → stands self.now x → result ≡ lacking_of rules x };

    /// Whether the bytes end as a frame does, in the check of the bytes before it. If they do but
    /// must not be a frame, the last one is sent with its lowest bit turned.
    fn ends_right(&self) -> bool
        ensures { (x : List ℕ) → stands self.now x → result ≡ has_right_ending_of rules x };

    /// Returns a second value that represents the same bytes.
    fn fork(&self) -> Self
        ensures { (x : List ℕ) → stands self.now x → stands result x };
}
