//! Laws of the journal over any number of uptimes: the numbers rise, so none comes twice.
ghost use Rattle.std.specs.Prelude.{◌≡◌, ℕ, [], List, Option, Some, length};
ghost use Rattle.yasir_io.specs.declared.disk.Slot.{Slot};
ghost use Rattle.yasir_io.specs.declared.disk.TheConstants.{SLOT_LEN};
ghost use Rattle.yasir_io.specs.Disks.{Slots, slot_in, Torn, Reaches, NoMore};
ghost use Rattle.sequence_journal.specs.declared.link.LinkId.{LinkId};
ghost use Rattle.sequence_journal.specs.Slots.{floor_of};
ghost use Rattle.sequence_journal.specs.FailedCalls.{AreWhole, HaveFailedCalls, last_disk};
ghost use Rattle.sequence_journal.specs.Journal.{HasFloorAtLeast};
ghost use Rattle.sequence_journal.specs.Loading.{KeepsLoadable, RefusesLoad};
ghost use Rattle.sequence_journal.specs.Links.{HasDirection};
ghost use Rattle.sequence_journal.specs.declared.journal.LoadError.{LoadError};
ghost use Rattle.yasir_io.specs.Causes.{Rose};
ghost use Rattle.sequence_journal.specs.Uptimes.{RiseFrom, IsUptime, IsIdle, HasNoFloorBelow};
ghost use Rattle.sequence_journal.specs.Uptimes.{Uptime, AreUptimes, all_numbers};
ghost use Rattle.sequence_journal.specs.Uptimes.{Step, answered_in, IsStep, EndsInside};

use yasir_io::SlotDisk;

/// Over uptimes on one disk and for one link, the numbers that they return rise, so none comes
/// twice. The uptimes may have ended at any moment, even while their journals were being loaded.
pub fn numbers_rise()
    ensures { (link : LinkId) (begins : Slots) (floor : ℕ) (uptimes : List Uptime)
        → HasNoFloorBelow link floor begins
        → AreUptimes link begins uptimes → RiseFrom floor (all_numbers uptimes) }
{}

/// An uptime may end at any moment. If it ends inside a step, such as a commit, its numbers are
/// those returned by then. A time in which nothing happens is a step that returns no number. An
/// uptime that ends while its journal is being loaded is an idle one.
pub fn uptime_ends_at_any_moment<D: SlotDisk>()
    /// An uptime that ends inside a step is one with the numbers that were returned by then.
    ensures inside { (link : LinkId) (begins : Slots) (floor : ℕ) (loaded : D)
        (done : List (Step D)) (image : Slots)
        → floor_of link begins ≡ Some floor → EndsInside D.SlotDisk link floor loaded done image
        → IsUptime link begins (answered_in done) image }
    /// A time in which nothing happens is a step that returns no number, if no image has a floor
    /// below the one before.
    ensures between { (link : LinkId) (floor : ℕ) (disk : D)
        → ((c : Slots) → D.may_leave disk c → HasFloorAtLeast link floor c)
        → IsStep D.SlotDisk link floor disk (record { numbers = []; after = disk }) }
    /// An uptime that ends while its journal is being loaded is an idle one.
    ensures loading { (link : LinkId) (begins : Slots) (floor : ℕ) (image : Slots)
        → floor_of link begins ≡ Some floor → KeepsLoadable link begins floor image
        → IsIdle link begins [] image }
{}

/// Idle uptimes, one after the other, count as one idle uptime, and no uptime at all counts as one
/// too.
pub fn idle_uptimes_are_one()
    /// No uptime at all counts as an idle one.
    ensures none { (link : LinkId) (slots : Slots) → IsIdle link slots [] slots }
    /// Two idle uptimes, one after the other, count as one.
    ensures joined { (link : LinkId) (begins between image : Slots)
        → IsIdle link begins [] between → IsIdle link between [] image
        → IsIdle link begins [] image }
{}

/// If slots have a floor for a link, only a fault can keep it from being loaded: no load over them
/// gives `Bad` or `WrongLink`. So after a journal was loaded, no load over what is left of it does.
pub fn floor_is_refused_for_a_fault_alone()
    ensures { (link : LinkId) (slots : Slots) (n : ℕ) (after : Option Slots) (before now : ℕ)
        (error : LoadError) → HasDirection link → HasFloorAtLeast link n slots
        → RefusesLoad link (Some slots) after before now error → Rose before now }
{}

/// Failed calls of a disk take no image away. So whatever a crash at some moment of a run may leave
/// may also be left by the end of a run whose disk fails from that moment on. What is proved of the
/// images at the end of each run, with any disk, therefore holds of a crash at any moment inside.
pub fn failed_calls_keep_images<D: SlotDisk>()
    /// A write takes no image of whole slots away.
    ensures write { (before after : D) (slot : Slot) (image : Slots)
        → Reaches (Torn slot) (D.may_leave before) (D.may_leave after)
        → length (slot_in image slot) ≡ SLOT_LEN → D.may_leave before image
        → D.may_leave after image }
    /// A sync that fails takes no image away.
    ensures sync { (before after : D) (image : Slots)
        → NoMore (D.may_leave after) (D.may_leave before) → D.may_leave before image
        → D.may_leave after image }
    /// Failed calls in a row take no image of whole slots away.
    ensures in_a_row { (before : D) (calls : List D) (image : Slots)
        → HaveFailedCalls D.SlotDisk before calls → AreWhole image → D.may_leave before image
        → D.may_leave (last_disk before calls) image }
{}
