//! Reading captures byte by byte, whatever their form is.

use crate::seen::Seen;

/// A reader of captures of one form, in constant memory. It takes a capture byte by byte, and
/// returns bytes of the line and events in their order, each as soon as all of it has come.
pub trait CaptureReader: Drop {
    ghost use Rattle.std.specs.Prelude.{◌≡◌, ℕ, ◌+◌, ◌<◌, List, [], ◌∷◌, ◌++◌, Option, Some, None};
    ghost use Rattle.std.specs.Prelude.{Err, OnOk, IfOk, IfErr};
    ghost use Rattle.std.specs.Option.{option_to_list};
    ghost use Rattle.line_stamps.specs.Walks.{WalkBeginsNone};
    ghost use Rattle.line_stamps.specs.declared.seen.Seen.{Seen};
    ghost use Rattle.line_stamps.specs.declared.TheConstants.{MAX_BYTES};

    /// Why a capture is refused, and where.
    type Refusal: Copy;

    /// Holds for a capture of this form and what is seen in it.
    ghost format: { List ℕ → List Seen → Type 0 };

    /// What the form knows of these bytes, in which these items are seen, though their capture may
    /// not go on to a right end: which of them are right.
    ghost begins: { List ℕ → List Seen → Type 0 };

    /// Holds if the reader has taken these bytes, none of which it refused, and has returned these
    /// items.
    ghost stands: { Self → List ℕ → List Seen → Type 0 };

    /// Holds if the place and the cause of a refusal are right for the next byte after these bytes
    /// and items, or for the end of the capture there.
    ghost refuses: { List ℕ → List Seen → Option ℕ → Self.Refusal → Type 0 };

    /// Holds if the reader has refused its capture with this refusal.
    ghost has_refused: { Self → Self.Refusal → Type 0 };

    /// How many bytes it has taken.
    ghost bytes_taken: { Self → ℕ };

    /// Returns a reader that has taken nothing yet.
    fn start() -> Self
        /// It has taken no byte and returned no item.
        ensures stands { stands result [] [] }
        /// What the form knows of no bytes and no item holds.
        ensures begins { begins [] [] }
        /// It has taken 0 bytes.
        ensures taken { bytes_taken result ≡ 0 };

    /// Returns how many bytes the reader has taken.
    fn taken(&self) -> u64
        ensures { result ≡ bytes_taken self.now };

    /// Takes the next byte of the capture, and returns what is seen with it. A refusal is for good:
    /// each later call returns it too.
    fn feed(&mut self, b: u8) -> Result<Option<Seen>, Self::Refusal>
        /// Fewer than 2^62 bytes were taken before.
        requires { bytes_taken self.old < MAX_BYTES }
        /// The bytes so far represent the items that were returned.
        ensures stands { (bytes : List ℕ) (items : List Seen) → stands self.old bytes items
            → IfOk result (λ seen. stands self.new (bytes ++ b ∷ [])
            (items ++ option_to_list seen)) }
        /// The bytes so far are right as far as the form knows, whether or not a capture goes on.
        ensures begins { (bytes : List ℕ) (items : List Seen) → stands self.old bytes items
            → IfOk result (λ seen. begins (bytes ++ b ∷ []) (items ++ option_to_list seen)) }
        /// Each capture that begins with the bytes so far has these items first.
        ensures each { (bytes : List ℕ) (items : List Seen) → stands self.old bytes items
            → IfOk result (λ seen. (more : List ℕ) (all : List Seen)
            → format ((bytes ++ b ∷ []) ++ more) all
            → (others : List Seen) × (all ≡ (items ++ option_to_list seen) ++ others)) }
        /// It refuses a byte only if no capture of this form begins with the bytes up to it, and
        /// says why and where.
        ensures refused { (bytes : List ℕ) (items : List Seen) → stands self.old bytes items
            → IfErr result (λ bad. WalkBeginsNone format (bytes ++ b ∷ [])
            × refuses bytes items (Some b) bad) }
        /// A byte that isn't refused is counted.
        ensures taken { OnOk result (bytes_taken self.new ≡ bytes_taken self.old + 1) }
        /// The reader remembers a refusal.
        ensures remembered { IfErr result (λ bad. has_refused self.new bad) }
        /// After a refusal each call returns it, and changes nothing.
        ensures for_good { (bad : Self.Refusal) → has_refused self.old bad
            → (result ≡ Err bad) × (self.new ≡ self.old) };

    /// Takes the end of the capture, and refuses it if the bytes so far aren't a whole capture. A
    /// reader that has refused its capture returns that refusal.
    fn finish(self) -> Result<(), Self::Refusal>
        /// If the end is taken, the bytes are a capture with the items that were returned.
        ensures right { (bytes : List ℕ) (items : List Seen) → stands self bytes items
            → OnOk result (format bytes items) }
        /// If the end is refused, the bytes are no capture, and place and cause are right.
        ensures refused { (bytes : List ℕ) (items : List Seen) → stands self bytes items
            → IfErr result (λ bad. ((all : List Seen) → format bytes all → ⊥)
            × refuses bytes items None bad) }
        /// After a refusal it returns that refusal.
        ensures again { (bad : Self.Refusal) → has_refused self bad → result ≡ Err bad };
}
