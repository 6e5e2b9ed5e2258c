//! The rules of a protocol whose devices hunt for frames.
use line_rules::LineRules;

/// The rules of a protocol whose devices hunt for frames: two bytes mark that a header begins.
pub trait Hunted: LineRules {
    ghost use Rattle.std.specs.Prelude.{ℕ, ◌≡◌};
    ghost use Rattle.device_model.specs.HuntLaws.{IsHunted};

    /// The first byte of a header.
    ghost FIRST: { ℕ };

    /// The second byte of a header.
    ghost SECOND: { ℕ };

    /// How many bytes a header has.
    ghost HEADER_LEN: { ℕ };

    /// A good header begins with these two bytes, has more, and says the size and the room of its
    /// frame, which has at most 292 bytes. A header that is a frame isn't good any more once its
    /// last byte is spoiled.
    ghost hunted: { IsHunted FIRST SECOND Self.rules };

    /// The rules' headers have this length.
    ghost header: { Self.rules.header_len ≡ HEADER_LEN };

    /// The byte with which a header begins.
    const FIRST: u8;

    /// The byte after it.
    const SECOND: u8;

    /// How many bytes a header has.
    const HEADER_LEN: u8;
}
