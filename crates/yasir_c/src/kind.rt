//! Which box C asks for.
ghost use Rattle.command_ends.specs.Links.{HasKnownNumber};
ghost use Rattle.yasir_c.specs.Kinds.{part_number, dir_number};

use any_box::{Kind, Part, Profile, Proto};
use link_format::Dir;

/// Which box C asks for, as numbers.
#[repr(C)]
#[derive(Clone, Copy)]
pub struct KindNumbers {
    /// 0 for a transmitter, 1 for a receiver.
    pub part: u8,
    /// 1 for Modbus RTU, 2 for DNP3.
    pub protocol: u8,
    /// 18 or 24.
    pub profile: u8,
    /// 0 for `ab`, 1 for `ba`.
    pub direction: u8,
}

fn part_in(number: u8) -> Option<Part>
    ensures { HasKnownNumber part_number number result }
{
    match number {
        0 => Some(Part::Sealer),
        1 => Some(Part::Checker),
        _ => None,
    }
}

fn dir_in(number: u8) -> Option<Dir>
    ensures { HasKnownNumber dir_number number result }
{
    match number {
        0 => Some(Dir::Ab),
        1 => Some(Dir::Ba),
        _ => None,
    }
}

impl KindNumbers {
    ghost use Rattle.yasir_c.specs.Kinds.{IsKnownAs};

    /// Returns the kind of the box and its direction, or `None` if there is no such box.
    pub(crate) fn known(&self) -> Option<(Kind, Dir)>
        ensures { IsKnownAs self.now result }
    {
        let part = part_in(self.part)?;
        let proto = Proto::of_label(self.protocol)?;
        let profile = Profile::of_delay(self.profile)?;
        let dir = dir_in(self.direction)?;
        let kind = Kind {
            part,
            proto,
            profile,
        };
        Some((kind, dir))
    }
}
