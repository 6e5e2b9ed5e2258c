//! The device as which a spacer of a live line hears a protocol whose devices hunt for frames.
use device_model::{Device, Hunted, HuntingFamily};
use yasir_ticks::Tick;

/// A device that hunts for frames, and forgets what it has taken at 18 silent ticks in a row. The
/// stated device takes no notice of silence, so for it a frame that was cut off would swallow up to
/// 292 of the bytes that follow.
#[derive(Drop)]
pub struct ForgetfulDevice<R>(HuntingFamily<R>);

impl<R: Hunted> Device for ForgetfulDevice<R> {
    ghost use Rattle.device_model.specs.HuntFamily.{hunt_family, FamilyStandsFor, family_ticks};
    ghost use Rattle.device_model.specs.HuntFamily.{family_lent};

    ghost reads = { hunt_family R.FIRST R.SECOND R.rules 18 };

    ghost stands = { λ d. FamilyStandsFor R.LineRules R.FIRST R.SECOND 18 d.0 };

    ghost taken = { λ d. family_ticks d.0 };

    ghost lent = { λ d. family_lent d.0 };

    fn fresh() -> Self {
        ForgetfulDevice(HuntingFamily::new(18))
    }

    fn frame_bytes(&self) -> &[u8] {
        self.0.frame_bytes()
    }

    fn step(&mut self, t: Tick) -> Option<u64> {
        self.0.step(t)
    }
}
