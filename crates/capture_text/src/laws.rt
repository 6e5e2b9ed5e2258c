//! A dump loses nothing of its lines: whoever looks at its wires once in each bit gets the ticks
//! back.
ghost use Rattle.std.specs.Prelude.{◌≡◌, ℕ, ◌<◌, ◌≤◌, List, length, get_or, true};
ghost use Rattle.yasir_ticks.specs.Ticks.{IsTick};
ghost use Rattle.yasir_ticks.specs.declared.tick.Tick.{Tick};
ghost use Rattle.yasir_ticks.specs.declared.tick.Tick.TheVariants.{Silent};
ghost use Rattle.line_stamps.specs.declared.rate.Rate.{Rate};
ghost use Rattle.line_stamps.specs.declared.capture.Way.TheVariants.{A, B};
ghost use Rattle.capture_text.specs.Levels.{tick_levels};
ghost use Rattle.capture_text.specs.Changes.{dump_changes, padded_rows};
ghost use Rattle.capture_text.specs.Looks.{IsWithin, level_at, tick_of_look};

/// At each time within a bit of a tick, a wire has the level of that bit by the changes of the
/// dump.
pub fn looks_give_the_levels()
    /// It holds for way A.
    ensures way_a { (rate : Rate) (a b : List Tick) (tick bit time : ℕ)
        → tick < length (padded_rows a b) → bit < rate.bits → IsWithin rate tick bit time
        → level_at A time true (dump_changes rate a b)
        ≡ get_or (tick_levels rate.bits (get_or (padded_rows a b) tick Silent)) bit true }
    /// It holds for way B.
    ensures way_b { (rate : Rate) (a b : List Tick) (tick bit time : ℕ)
        → tick < length (padded_rows b a) → bit < rate.bits → IsWithin rate tick bit time
        → level_at B time true (dump_changes rate a b)
        ≡ get_or (tick_levels rate.bits (get_or (padded_rows b a) tick Silent)) bit true }
{}

/// The tick can be read back from its levels.
pub fn levels_give_the_tick()
    ensures { (bits : ℕ) (tick : Tick) → 10 ≤ bits → IsTick tick
        → tick_of_look (tick_levels bits tick) ≡ tick }
{}
