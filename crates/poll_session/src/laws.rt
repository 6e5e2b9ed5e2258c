//! The law that nobody reads what wasn't sealed.
ghost use Rattle.device_model.specs.Stated.{StatedDevice, IsStatedWithin};
ghost use Rattle.link_format.specs.Profile.{Profile, delay};
ghost use Rattle.poll_session.specs.Polled.{SessionsTell};

use two_wire::two_wire_devices_read_what_was_sealed;

/// A law of sessions of polls over two two-wire boxes, for all profiles, whatever is on the link:
/// stated devices that are deaf while they talk, and as long behind it as they may be, read no
/// frame that wasn't sealed, unless one that has passed is forged. A Modbus RTU member must have a
/// cut from 2 silent ticks up to the receivers' delay.
pub fn polls_tell()
    ensures { (device : StatedDevice) (requests answers : Profile)
        → IsStatedWithin (delay requests) device → IsStatedWithin (delay answers) device
        → SessionsTell device requests answers }
{
    two_wire_devices_read_what_was_sealed();
}
