//! The count of flushes of a sink, and whether bytes came after the last one.
ghost use Rattle.std.specs.Prelude.{◌≡◌, ◌<◌, true, false};
ghost use Rattle.yasir_io.specs.Flushing.{one_more};

/// How often a sink was flushed, and whether bytes were written since. The count stops at its
/// greatest value.
#[derive(Drop)]
pub(crate) struct Flushes {
    pub(crate) count: u64,
    pub(crate) unflushed: bool,
}

impl Flushes {
    pub(crate) fn none() -> Flushes
        ensures count { result.count ≡ 0 }
        ensures unflushed { result.unflushed ≡ false }
    {
        Flushes {
            count: 0,
            unflushed: false,
        }
    }

    /// Takes the sink as unflushed, if any bytes were written.
    pub(crate) fn wait(&mut self, bytes: usize)
        ensures count { self.new.count ≡ self.old.count }
        ensures some { 0 < bytes → self.new.unflushed ≡ true }
        ensures none { bytes ≡ 0 → self.new ≡ self.old }
    {
        if bytes > 0 {
            self.unflushed = true;
        }
    }

    /// Counts a flush that ended well.
    pub(crate) fn add(&mut self)
        ensures count { self.new.count ≡ one_more self.old.count }
        ensures unflushed { self.new.unflushed ≡ false }
    {
        self.count = self.count.saturating_add(1);
        self.unflushed = false;
    }
}
