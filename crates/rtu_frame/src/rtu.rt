//! The rules of Modbus RTU, over the bytes of a burst so far.
use crate::crc::FIRST_REGISTER;
use crate::table::{after_byte, after_bytes};
use line_rules::{Head, LineRules};

const SHORTEST: u16 = 4;

/// The bytes of a burst so far, as the rules of Modbus RTU see them: how many there are, and their
/// CRC. A frame ends in the CRC of what comes before, and so the CRC of the whole frame is 0.
#[derive(Drop)]
pub struct Rtu {
    len: u16,
    register: u16,
}

impl LineRules for Rtu {
    ghost use Rattle.std.specs.Prelude.{ℕ};
    ghost use Rattle.rtu_frame.specs.Rules.{rtu_rules, rtu_lawful, rtu_headed, rtu_framed};
    ghost use Rattle.rtu_frame.specs.Rules.{rtu_filling};
    ghost use Rattle.rtu_frame.specs.Rules.{rtu_spoiling, rtu_numbers};
    ghost use Rattle.rtu_frame.specs.Rtu.{RtuStandsFor, is_full_rtu, rtu_fullness, rtu_bytes};
    ghost use Rattle.rtu_frame.specs.Rtu.{rtu_within};

    ghost rules = { rtu_rules };

    ghost stands = { RtuStandsFor };

    ghost is_full = { is_full_rtu };

    ghost MAX = { 256 };

    ghost LABEL = { 1 };

    ghost lawful = { rtu_lawful };

    ghost headed = { rtu_headed };

    ghost framed = { rtu_framed };

    ghost filling = { rtu_filling };

    ghost spoiling = { rtu_spoiling };

    ghost numbers = { rtu_numbers };

    ghost fullness = { rtu_fullness };

    ghost bytes = { rtu_bytes };

    ghost within = { rtu_within };

    const MAX: u16 = 256;

    const LABEL: u8 = 1;

    #[inline]
    fn fresh() -> Rtu {
        Rtu {
            len: 0,
            register: FIRST_REGISTER,
        }
    }

    #[inline]
    fn restart(&mut self) {
        self.len = 0;
        self.register = FIRST_REGISTER;
    }

    #[inline]
    fn len(&self) -> u16 {
        self.len
    }

    #[inline]
    fn full(&self) -> bool {
        self.len >= Self::MAX
    }

    #[inline]
    fn take(&mut self, b: u8) {
        self.len += 1;
        self.register = after_byte(self.register, b);
    }

    fn take_some(&mut self, part: &[u8]) -> usize {
        let room = usize::from(Self::MAX.saturating_sub(self.len));
        let taken = part.len().min(room);
        self.register = after_bytes(self.register, &part[..taken]);
        self.len += taken as u16;
        taken
    }

    #[inline]
    fn good(&self) -> bool {
        self.len >= SHORTEST && self.register == 0
    }

    #[inline]
    fn head(&self) -> Head {
        Head::Good
    }

    #[inline]
    fn lacking(&self) -> u16 {
        0
    }

    #[inline]
    fn ends_right(&self) -> bool {
        self.register == 0
    }

    #[inline]
    fn fork(&self) -> Rtu {
        Rtu {
            len: self.len,
            register: self.register,
        }
    }
}
