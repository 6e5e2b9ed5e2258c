//! Whether bytes are a frame, for the known answers about frames.
ghost use Rattle.std.specs.Prelude.{◌≡◌};
ghost use Rattle.line_rules.specs.Rules.{is_frame_of};

use line_rules::LineRules;

/// Whether these bytes are a frame by the rules of a protocol.
pub(crate) fn is_frame<R: LineRules>(bytes: &[u8]) -> bool
    ensures { result ≡ is_frame_of R.rules bytes.now }
{
    let mut rules = R::fresh();
    if rules.take_some(bytes) < bytes.len() {
        return false;
    }
    rules.good()
}
