//! Runs of ticks that are added to texts for which there is room, so that no sink is called.
ghost use Rattle.std.specs.Prelude.{◌+◌, ◌<◌, ◌≤◌, [], length, map};
ghost use Rattle.yasir_ticks.specs.Ticks.{silent};
ghost use Rattle.yasir_ticks.specs.declared.tick.Tick.TheVariants.{Byte};
ghost use Rattle.line_texts.specs.Adding.{TextAdds};
ghost use Rattle.line_texts.specs.Texts.{waiting_in};

use crate::texts::Texts;

/// Adds bytes, which complete ten lines at most.
#[inline(never)]
pub(crate) fn add_bytes(texts: &mut Texts, bytes: &[u8])
    requires short { length bytes.now ≤ 300 }
    requires room { length texts.old.ticks.items + 660 ≤ 65536 }
    ensures adds { TextAdds (waiting_in texts.old) (waiting_in texts.new) (map Byte bytes.now) [] }
    ensures grows { length texts.new.ticks.items ≤ length texts.old.ticks.items + 660 }
{
    let mut left = bytes;
    while !texts.writer.join_bytes(left) {
        let taken = texts.writer.complete_by_bytes(&mut texts.ticks, left);
        left = &left[taken..];
    }
}

/// Adds silent ticks, which complete one line at most.
#[inline(never)]
pub(crate) fn add_silence(texts: &mut Texts, ticks: u32)
    requires short { ticks < 1000000 }
    requires room { length texts.old.ticks.items + 66 ≤ 65536 }
    ensures adds { TextAdds (waiting_in texts.old) (waiting_in texts.new) (silent ticks) [] }
    ensures grows { length texts.new.ticks.items ≤ length texts.old.ticks.items + 66 }
{
    if texts.writer.join_silence(ticks) {
        return;
    }
    let taken = texts.writer.complete_by_silence(&mut texts.ticks, ticks);
    texts.writer.join_silence(ticks - taken);
}
