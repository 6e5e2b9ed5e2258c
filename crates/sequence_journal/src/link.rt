//! The link that a journal serves.
ghost use Rattle.std.specs.Prelude.{◌≡◌};
ghost use Rattle.sequence_journal.specs.Links.{has_direction, HasDirection};

/// The link that a journal serves, as a slot names it.
#[derive(Clone, Copy, Debug, PartialEq, Eq)]
pub struct LinkId {
    /// The label of the protocol: 1 for Modbus RTU, 2 for DNP3, and any other byte for another one.
    pub label: u8,
    /// The number of the direction: 0 for `ab`, 1 for `ba`.
    pub dir: u8,
    /// The number of the profile, which is the receiver's delay in ticks: 18 or 24 in this
    /// repository, and any other byte for other words and tags.
    pub profile: u8,
}

impl LinkId {
    /// Returns a link for a journal that no file keeps.
    pub fn of_no_file() -> LinkId
        ensures { HasDirection result }
    {
        LinkId {
            label: 1,
            dir: 0,
            profile: 18,
        }
    }

    /// Whether there is a direction with its number: it is 0 or 1. Then journals can serve the link.
    pub fn has_direction(&self) -> bool
        ensures { result ≡ has_direction self.now }
    {
        matches!(self.dir, 0 | 1)
    }
}
