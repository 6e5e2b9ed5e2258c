//! Tests that a run of ticks is taken at once and not tick by tick. No clause says so.
use frame_ending::BurstCut;
use line_rules::{FourBytes, Head, LineRules};
use yasir_ticks::Tick;

/// Rules, with a count of the calls that gave them bytes.
#[derive(Drop)]
struct Counted<R> {
    inner: R,
    calls: u32,
}

impl<R: LineRules> LineRules for Counted<R> {
    ghost rules = { R.rules };

    ghost stands = { λ value. R.stands value.inner };

    ghost is_full = { λ value. R.is_full value.inner };

    ghost MAX = { R.MAX };

    ghost LABEL = { R.LABEL };

    ghost lawful = { R.lawful };

    ghost headed = { R.headed };

    ghost framed = { R.framed };

    ghost filling = { R.filling };

    ghost spoiling = { R.spoiling };

    ghost numbers = { R.numbers };

    ghost fullness = { λ value. R.fullness value.inner };

    ghost bytes = { λ value. R.bytes value.inner };

    ghost within = { λ value. R.within value.inner };

    const MAX: u16 = R::MAX;

    const LABEL: u8 = R::LABEL;

    fn fresh() -> Self {
        Counted {
            inner: R::fresh(),
            calls: 0,
        }
    }

    fn restart(&mut self) {
        self.inner.restart();
    }

    fn len(&self) -> u16 {
        self.inner.len()
    }

    fn full(&self) -> bool {
        self.inner.full()
    }

    fn take(&mut self, b: u8) {
        self.calls = self.calls.saturating_add(1);
        self.inner.take(b);
    }

    fn take_some(&mut self, part: &[u8]) -> usize {
        self.calls = self.calls.saturating_add(1);
        self.inner.take_some(part)
    }

    fn good(&self) -> bool {
        self.inner.good()
    }

    fn head(&self) -> Head {
        self.inner.head()
    }

    fn lacking(&self) -> u16 {
        self.inner.lacking()
    }

    fn ends_right(&self) -> bool {
        self.inner.ends_right()
    }

    fn fork(&self) -> Self {
        Counted {
            inner: self.inner.fork(),
            calls: self.calls,
        }
    }
}

// The first byte is given alone, and the run after it at once.
#[test]
fn a_run_of_bytes_costs_a_call_of_the_rules(rt: HostRuntime) {
    let mut cut: BurstCut<Counted<FourBytes>> = BurstCut::new();
    cut.step(Tick::Byte(7));
    assert!(rt; cut.go_on_some(&[7; 200]) == 200);
    assert!(rt; cut.rules().calls <= 2);
}

/// How many runs of silence there are. Each is as long as a run can be, some 4,000,000,000 ticks.
/// Code that takes them tick by tick doesn't come to an end in the time that a test has.
const RUNS: u32 = 100;

#[test]
fn a_run_of_silence_takes_no_longer_than_a_tick(rt: HostRuntime) {
    for _ in 0..RUNS {
        let mut cut: BurstCut<FourBytes> = BurstCut::new();
        cut.step(Tick::Byte(7));
        cut.wait_some(u32::MAX);
        assert!(rt; cut.rest_through(u32::MAX) == u32::MAX);
    }
}
