//! The protocols whose devices hunt for frames, each with its device and its family.
use crate::hunted::Hunted;
use crate::hunting::HuntingDevice;
use crate::hunting_family::HuntingFamily;
use dnp_link_frame::Dnp;

impl Hunted for Dnp {
    ghost use Rattle.device_model.specs.DnpHunted.{dnp_hunted, dnp_header};

    ghost FIRST = { 0x05 };

    ghost SECOND = { 0x64 };

    ghost HEADER_LEN = { 10 };

    ghost hunted = { dnp_hunted };

    ghost header = { dnp_header };

    const FIRST: u8 = 0x05;

    const SECOND: u8 = 0x64;

    const HEADER_LEN: u8 = 10;
}

/// A DNP3 device, which reads the frames of the link layer (IEEE 1815).
pub type DnpDevice = HuntingDevice<Dnp>;

/// A DNP3 device for which a stated number of silent ticks together end what it has taken.
pub type DnpFamily = HuntingFamily<Dnp>;
