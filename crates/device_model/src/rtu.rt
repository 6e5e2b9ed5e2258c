//! The Modbus RTU device of the standard.
use crate::device::{Device, Met};
use crate::rtu_family::RtuFamily;
use yasir_ticks::{T1_5_TICKS, T3_5_TICKS, Tick};

/// A Modbus RTU device: it reads a burst that four silent ticks follow, if no two adjacent ticks in
/// it are silent and its bytes are a frame.
#[derive(Drop)]
pub struct RtuDevice {
    family: RtuFamily,
}

impl Device for RtuDevice {
    ghost use Rattle.device_model.specs.RtuReads.{rtu_reads};
    ghost use Rattle.device_model.specs.RtuFamily.{RtuFamilyStandsFor, bytes_lent, ticks_heard};

    ghost reads = { rtu_reads };

    ghost stands = { λ d. RtuFamilyStandsFor 4 1 d.family };

    ghost taken = { λ d. ticks_heard d.family };

    ghost lent = { λ d. bytes_lent d.family };

    fn fresh() -> Self {
        RtuDevice {
            family: RtuFamily::new(T3_5_TICKS, T1_5_TICKS - 1),
        }
    }

    #[inline]
    fn frame_bytes(&self) -> &[u8] {
        self.family.frame_bytes()
    }

    #[inline]
    fn step(&mut self, t: Tick) -> Option<u64> {
        self.family.step(t)
    }

    #[inline]
    fn hear(&mut self, bytes: &[u8]) -> Met {
        self.family.hear(bytes);
        Met {
            taken: bytes.len(),
            start: None,
        }
    }

    #[inline]
    fn wait(&mut self, ticks: usize) -> Met {
        self.family.wait(ticks)
    }
}
