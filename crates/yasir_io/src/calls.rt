//! The calls on an object in memory. A test can let some of them fail.
ghost use Rattle.std.specs.Prelude.{◌≡◌, ◌+◌, ◌-◌, ◌^◌, ◌↔◌, min, IsErr, IsTrue};
ghost use Rattle.yasir_io.specs.Causes.{HasCause};
ghost use Rattle.yasir_io.specs.Calls.{IsPlanned};

use crate::Failed;
use crate::faults::Faults;
use arrayvec::ArrayVec;

/// The calls that fail, counted from 1 over all calls on an object.
pub type Plan = ArrayVec<u32, 8>;

/// Memory was refused.
#[derive(Clone, Copy, Debug, PartialEq, Eq)]
pub struct NoMemory;

/// The calls made on an object in memory, some of which a plan lets fail. The count stops at its
/// greatest value.
#[derive(Drop)]
pub(crate) struct Calls {
    pub(crate) plan: Plan,
    pub(crate) made: u64,
    pub(crate) faults: Faults,
}

impl Calls {
    pub(crate) fn new(plan: Plan) -> Calls
        ensures plan { result.plan ≡ plan }
        ensures made { result.made ≡ 0 }
        ensures faults { result.faults.count ≡ 0 }
    {
        Calls {
            plan,
            made: 0,
            faults: Faults::none(),
        }
    }

    /// Counts a call, which fails if the plan says so.
    pub(crate) fn begin(&mut self) -> Result<(), Failed>
        ensures planned { IsErr result ↔ IsPlanned self.old.plan.items self.old.made }
        ensures plan { self.new.plan ≡ self.old.plan }
        ensures made { self.new.made ≡ min (self.old.made + 1) (2 ^ 64 - 1) }
        ensures cause { HasCause self.old.faults.count self.new.faults.count result }
    {
        let fails = self.is_planned();
        self.made = self.made.saturating_add(1);
        if fails {
            return Err(self.faults.add());
        }
        Ok(())
    }

    fn is_planned(&self) -> bool
        ensures { IsTrue result ↔ IsPlanned self.now.plan.items self.now.made }
    {
        match u32::try_from(self.made.saturating_add(1)) {
            Ok(next) => self.plan.contains(&next),
            Err(_) => false,
        }
    }
}
