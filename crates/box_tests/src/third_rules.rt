//! The rules of a third protocol, for tests of boxes of any label.
use line_rules::{FourBytes, Head, LineRules};

/// The rules of `FourBytes`, under a label that is neither that of Modbus RTU nor that of DNP3.
#[derive(Drop)]
pub(crate) struct ThirdRules {
    inner: FourBytes,
}

impl LineRules for ThirdRules {
    ghost use Rattle.std.specs.Prelude.{refl};
    ghost use Rattle.line_rules.specs.FourBytes.{four_bytes, FourBytesStandFor, is_full_four_bytes};
    ghost use Rattle.line_rules.specs.FourBytes.{four_bytes-lawful, four_bytes-headed};
    ghost use Rattle.line_rules.specs.FourBytes.{four_bytes-framed, four_bytes-filling};
    ghost use Rattle.line_rules.specs.FourBytes.{four_bytes-spoiling, four_bytes-fullness};
    ghost use Rattle.line_rules.specs.FourBytes.{four_bytes-bytes, four_bytes-within};
    ghost use Rattle.box_tests.specs.Relabelled.{relabelled, relabelled-lawful, relabelled-headed};
    ghost use Rattle.box_tests.specs.Relabelled.{relabelled-framed, relabelled-filling};
    ghost use Rattle.box_tests.specs.Relabelled.{relabelled-spoiling, relabelled-numbers};

    ghost rules = { relabelled 3 four_bytes };

    ghost stands = { λ value. FourBytesStandFor value.inner };

    ghost is_full = { λ value. is_full_four_bytes value.inner };

    ghost MAX = { 256 };

    ghost LABEL = { 3 };

    ghost lawful = { relabelled-lawful 3 four_bytes four_bytes-lawful };

    ghost headed = { relabelled-headed 3 four_bytes four_bytes-headed };

    ghost framed = { relabelled-framed 3 four_bytes four_bytes-framed };

    ghost filling = { relabelled-filling 3 four_bytes four_bytes-filling };

    ghost spoiling = { relabelled-spoiling 3 four_bytes four_bytes-spoiling };

    ghost numbers = { relabelled-numbers 3 four_bytes 256 refl };

    ghost fullness = { λ value. four_bytes-fullness value.inner };

    ghost bytes = { λ value. four_bytes-bytes value.inner };

    ghost within = { λ value. four_bytes-within value.inner };

    const MAX: u16 = 256;

    const LABEL: u8 = 3;

    fn fresh() -> ThirdRules {
        ThirdRules {
            inner: FourBytes::fresh(),
        }
    }

    fn restart(&mut self) {
        self.inner.restart();
    }

    fn len(&self) -> u16 {
        self.inner.len()
    }

    fn full(&self) -> bool {
        self.inner.full()
    }

    fn take(&mut self, b: u8) {
        self.inner.take(b);
    }

    fn good(&self) -> bool {
        self.inner.good()
    }

    fn head(&self) -> Head {
        self.inner.head()
    }

    fn lacking(&self) -> u16 {
        self.inner.lacking()
    }

    fn ends_right(&self) -> bool {
        self.inner.ends_right()
    }

    fn fork(&self) -> ThirdRules {
        ThirdRules {
            inner: self.inner.fork(),
        }
    }
}
