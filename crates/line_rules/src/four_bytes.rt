//! An example of a protocol's rules, for the tests of generic code.
use crate::{Head, LineRules};

const FRAME_LEN: u16 = 4;

/// The smallest rules that keep every law: a frame is four bytes, the last of which is 0. They show
/// how rules are given, and the tests of generic code run on them.
#[derive(Drop)]
pub struct FourBytes {
    len: u16,
    last: u8,
}

impl LineRules for FourBytes {
    ghost use Rattle.line_rules.specs.FourBytes.{four_bytes, FourBytesStandFor, is_full_four_bytes};
    ghost use Rattle.line_rules.specs.FourBytes.{four_bytes-lawful, four_bytes-headed};
    ghost use Rattle.line_rules.specs.FourBytes.{four_bytes-framed};
    ghost use Rattle.line_rules.specs.FourBytes.{four_bytes-filling, four_bytes-spoiling};
    ghost use Rattle.line_rules.specs.FourBytes.{four_bytes-numbers};
    ghost use Rattle.line_rules.specs.FourBytes.{four_bytes-fullness, four_bytes-bytes};
    ghost use Rattle.line_rules.specs.FourBytes.{four_bytes-within};

    ghost rules = { four_bytes };

    ghost stands = { FourBytesStandFor };

    ghost is_full = { is_full_four_bytes };

    ghost MAX = { 256 };

    ghost LABEL = { 1 };

    ghost lawful = { four_bytes-lawful };

    ghost headed = { four_bytes-headed };

    ghost framed = { four_bytes-framed };

    ghost filling = { four_bytes-filling };

    ghost spoiling = { four_bytes-spoiling };

    ghost numbers = { four_bytes-numbers };

    ghost fullness = { four_bytes-fullness };

    ghost bytes = { four_bytes-bytes };

    ghost within = { four_bytes-within };

    const MAX: u16 = 256;

    const LABEL: u8 = 1;

    fn fresh() -> FourBytes {
        FourBytes { len: 0, last: 1 }
    }

    fn restart(&mut self) {
        self.len = 0;
        self.last = 1;
    }

    fn len(&self) -> u16 {
        self.len
    }

    fn full(&self) -> bool {
        self.len >= Self::MAX
    }

    fn take(&mut self, b: u8) {
        self.len += 1;
        self.last = b;
    }

    fn good(&self) -> bool {
        self.len == FRAME_LEN && self.last == 0
    }

    fn head(&self) -> Head {
        Head::Good
    }

    fn lacking(&self) -> u16 {
        0
    }

    fn ends_right(&self) -> bool {
        self.last == 0
    }

    fn fork(&self) -> FourBytes {
        FourBytes {
            len: self.len,
            last: self.last,
        }
    }
}
