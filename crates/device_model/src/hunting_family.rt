//! A device that hunts for frames, and starts anew after a stated number of silent ticks.
use crate::device::Device;
use crate::hunted::Hunted;
use crate::hunting::HuntingDevice;
use crate::silence::Silence;
use yasir_ticks::{MAX_TICKS, Tick};

/// A device that hunts for frames by the rules `R` as `HuntingDevice` does, but for which a stated
/// number of silent ticks together end what it has taken: then it hunts anew with the next byte.
#[derive(Drop)]
pub struct HuntingFamily<R> {
    device: HuntingDevice<R>,
    silence: Silence,
}

impl<R: Hunted> HuntingFamily<R> {
    ghost use Rattle.std.specs.Prelude.{◌≡◌, ℕ, ◌+◌, ◌<◌, ◌≤◌, ◌⊎◌, List, [], ◌∷◌, ◌++◌, length};
    ghost use Rattle.yasir_ticks.specs.declared.tick.Tick.{Tick};
    ghost use Rattle.yasir_ticks.specs.declared.tick.Tick.TheVariants.{Silent, Byte};
    ghost use Rattle.device_model.specs.Frames.{frames_lent};
    ghost use Rattle.device_model.specs.HuntFamily.{hunt_family, FamilyStandsFor, family_ticks};
    ghost use Rattle.device_model.specs.HuntFamily.{family_lent};

    /// Makes a device that has heard nothing. `cut` is 0 for a device that ignores silence, or at
    /// least 2 silent ticks.
    pub fn new(cut: u8) -> HuntingFamily<R>
        /// The cut is 0 or at least 2.
        requires { (cut ≡ 0) ⊎ (2 ≤ cut) }
        /// It has taken 0 ticks.
        ensures taken { family_ticks result ≡ 0 }
        /// It has heard no tick.
        ensures stands { FamilyStandsFor R.LineRules R.FIRST R.SECOND cut result [] }
        /// Of no tick, nothing is read.
        ensures nothing { hunt_family R.FIRST R.SECOND R.rules cut [] ≡ [] }
    {
        HuntingFamily {
            device: HuntingDevice::fresh(),
            silence: Silence::new(cut),
        }
    }

    #[inline]
    fn hear_byte(&mut self, byte: u8) -> Option<u64>
        requires { family_ticks self.old < MAX_TICKS }
        ensures taken { family_ticks self.new ≡ family_ticks self.old + 1 }
        ensures stands { (cut : ℕ) (line : List Tick)
            → FamilyStandsFor R.LineRules R.FIRST R.SECOND cut self.old line
            → FamilyStandsFor R.LineRules R.FIRST R.SECOND cut self.new (line ++ Byte byte ∷ []) }
        ensures answer { (cut : ℕ) (line : List Tick)
            → FamilyStandsFor R.LineRules R.FIRST R.SECOND cut self.old line
            → hunt_family R.FIRST R.SECOND R.rules cut (line ++ Byte byte ∷ [])
            ≡ hunt_family R.FIRST R.SECOND R.rules cut line
            ++ frames_lent result (family_lent self.new) }
    {
        self.silence.end();
        let at = self.device.ticks;
        self.device.ticks += 1;
        self.device.hear_byte(at, byte)
    }

    #[inline]
    fn wait_tick(&mut self)
        requires { family_ticks self.old < MAX_TICKS }
        ensures taken { family_ticks self.new ≡ family_ticks self.old + 1 }
        ensures stands { (cut : ℕ) (line : List Tick)
            → FamilyStandsFor R.LineRules R.FIRST R.SECOND cut self.old line
            → FamilyStandsFor R.LineRules R.FIRST R.SECOND cut self.new (line ++ Silent ∷ []) }
        ensures answer { (cut : ℕ) (line : List Tick)
            → FamilyStandsFor R.LineRules R.FIRST R.SECOND cut self.old line
            → hunt_family R.FIRST R.SECOND R.rules cut (line ++ Silent ∷ [])
            ≡ hunt_family R.FIRST R.SECOND R.rules cut line ++ [] }
    {
        self.device.ticks += 1;
        if !self.silence.wait() {
            return;
        }
        self.device.lose();
    }

    /// Returns the bytes of the frame that was read in the last tick taken.
    #[inline]
    pub fn frame_bytes(&self) -> &[u8]
        /// They are the bytes that the device lends.
        ensures bytes { result.now ≡ family_lent self.now }
        /// There are at most 292.
        ensures few { length result.now ≤ 292 }
    {
        self.device.frame_bytes()
    }

    /// Takes the next tick of the line. If a frame is read in this very tick, returns the tick of
    /// its first byte, and lends its bytes. Otherwise returns `None`. Fewer than `MAX_TICKS` ticks
    /// may have been taken before.
    #[inline]
    pub fn step(&mut self, t: Tick) -> Option<u64>
        /// Fewer than 2^62 ticks were taken before.
        requires { family_ticks self.old < MAX_TICKS }
        /// One more tick is taken.
        ensures taken { family_ticks self.new ≡ family_ticks self.old + 1 }
        /// The device has heard this tick after its line.
        ensures stands { (cut : ℕ) (line : List Tick)
            → FamilyStandsFor R.LineRules R.FIRST R.SECOND cut self.old line
            → FamilyStandsFor R.LineRules R.FIRST R.SECOND cut self.new (line ++ t ∷ []) }
        /// The frame that is returned, if one is, is exactly what is read of the line with this
        /// tick and not of the line without it.
        ensures answer { (cut : ℕ) (line : List Tick)
            → FamilyStandsFor R.LineRules R.FIRST R.SECOND cut self.old line
            → hunt_family R.FIRST R.SECOND R.rules cut (line ++ t ∷ [])
            ≡ hunt_family R.FIRST R.SECOND R.rules cut line
            ++ frames_lent result (family_lent self.new) }
    {
        match t {
            Tick::Byte(byte) => self.hear_byte(byte),
            Tick::Silent => {
                self.wait_tick();
                None
            }
        }
    }
}
