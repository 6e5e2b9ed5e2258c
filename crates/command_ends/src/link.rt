//! The links of the programs: protocols and profiles, the parts that make them up, the words that
//! name them, and the identity of a link in a journal. A further protocol or profile is named here.
ghost use Rattle.std.specs.Prelude.{◌≡◌, ◌≤◌, length, IfOk, OnErr};
ghost use Rattle.link_format.specs.declared.dir.Dir.{Dir};
ghost use Rattle.command_ends.specs.declared.link.Profile.{Profile};
ghost use Rattle.command_ends.specs.declared.link.Proto.{Proto};
ghost use Rattle.command_ends.specs.Words.{proto_word, link_word, dir_word};
ghost use Rattle.sequence_journal.specs.Links.{HasDirection};
ghost use Rattle.command_ends.specs.Links.{link_of};

use line_rules::LineRules;
use link_format::Dir;
use sequence_journal::LinkId;

/// The protocol of a line.
#[derive(Clone, Copy, Debug, PartialEq, Eq)]
pub enum Proto {
    /// Modbus RTU.
    Rtu,
    /// The link layer of DNP3.
    Dnp3,
}

/// What follows a frame on a link.
#[derive(Clone, Copy, Debug, PartialEq, Eq)]
pub enum Profile {
    /// Two bytes of the frame's number, and twelve of its tag, by HMAC-SHA-1. The receiver's delay
    /// is 18 ticks.
    Y18,
    /// Four bytes of the frame's number, and sixteen of its tag, by HMAC-SHA-256. The receiver's
    /// delay is 24 ticks.
    Y24,
}

/// Runs a command with the parts of a protocol and a profile: the rules of the protocol and its
/// device, the MAC, the bytes of a number on the link, the receiver's delay in ticks, and the
/// silent ticks that a spacer leaves between frames. Each row of these parts is written here and
/// nowhere else. The command is a macro. It takes such a row, and after it the arguments that are
/// given here. A crate that calls it depends on the crates of those types that its command uses.
#[macro_export]
macro_rules! with_link {
    ($proto:expr, $profile:expr, $command:ident ($($given:expr),*)) => {
        match ($proto, $profile) {
            ($crate::Proto::Rtu, $crate::Profile::Y18) => {
                $command!(
                    [rtu_frame::Rtu, device_model::RtuDevice, link_format::HmacSha1, 2, 18, 21],
                    $($given),*
                )
            }
            ($crate::Proto::Dnp3, $crate::Profile::Y18) => {
                $command!([
                    dnp_link_frame::Dnp, device_model::hunters::DnpDevice, link_format::HmacSha1,
                    2, 18, 21
                ], $($given),*)
            }
            ($crate::Proto::Rtu, $crate::Profile::Y24) => {
                $command!(
                    [rtu_frame::Rtu, device_model::RtuDevice, link_format::HmacSha256, 4, 24, 27],
                    $($given),*
                )
            }
            ($crate::Proto::Dnp3, $crate::Profile::Y24) => {
                $command!([
                    dnp_link_frame::Dnp, device_model::hunters::DnpDevice,
                    link_format::HmacSha256, 4, 24, 27
                ], $($given),*)
            }
        }
    };
}

/// Runs a command with the device of a protocol. The command is a macro. It takes the device, and
/// after it the arguments that are given here.
#[macro_export]
macro_rules! with_device {
    ($proto:expr, $command:ident ($($given:expr),*)) => {
        match $proto {
            $crate::Proto::Rtu => $command!(device_model::RtuDevice, $($given),*),
            $crate::Proto::Dnp3 => $command!(device_model::hunters::DnpDevice, $($given),*),
        }
    };
}

// The link in a direction, which is given by its number.
macro_rules! link_by {
    (
        [$rules:ty, $device:ty, $mac:ty, $word:literal, $delay:literal, $gap:literal], $dir:expr
    ) => {
        LinkId {
            label: <$rules as LineRules>::LABEL,
            dir: $dir,
            profile: $delay,
        }
    };
}

/// Returns the link of a protocol, a profile and a direction, as its journals name it.
pub fn link_of(proto: Proto, profile: Profile, dir: Dir) -> LinkId
    /// It has the label of the protocol, the number of the direction and the delay of the profile.
    ensures link { result ≡ link_of proto profile dir }
    /// Its direction is 0 or 1.
    ensures right { HasDirection result }
{
    let dir = match dir {
        Dir::Ab => 0,
        Dir::Ba => 1,
    };
    with_link!(proto, profile, link_by(dir))
}

impl Proto {
    ghost use Rattle.command_ends.specs.Links.{HasKnownNumber, label_of};

    /// Returns the protocol with this label, or `None` if there is none.
    pub fn of_label(label: u8) -> Option<Proto>
        ensures { HasKnownNumber label_of label result }
    {
        match label {
            1 => Some(Proto::Rtu),
            2 => Some(Proto::Dnp3),
            _ => None,
        }
    }
}

impl Profile {
    ghost use Rattle.command_ends.specs.Links.{HasKnownNumber, delay_of, gap_of};

    /// Returns how many ticks a receiver of this profile holds each byte back.
    pub fn delay(self) -> u8
        /// It is the delay of the profile.
        ensures { result ≡ delay_of self }
    {
        match self {
            Profile::Y18 => 18,
            Profile::Y24 => 24,
        }
    }

    /// Returns how many silent ticks this profile asks for between frames that will be sealed.
    pub fn gap(self) -> u8
        /// It is the gap of the profile.
        ensures { result ≡ gap_of self }
    {
        self.delay() + 3
    }

    /// Returns the profile for which a receiver has this delay, or `None` if there is none.
    pub fn of_delay(delay: u8) -> Option<Profile>
        ensures { HasKnownNumber delay_of delay result }
    {
        match delay {
            18 => Some(Profile::Y18),
            24 => Some(Profile::Y24),
            _ => None,
        }
    }
}

/// The refusal of words that name nothing known.
#[derive(Clone, Copy, Debug, PartialEq, Eq)]
pub struct Usage;

/// Returns the protocol that a word names.
pub fn read_proto(word: &str) -> Result<Proto, Usage>
    /// The word names the protocol that is returned.
    ensures ok { IfOk result (λ proto. word.now ≡ proto_word proto) }
    /// If `Usage` is returned, the word names no protocol.
    ensures usage { OnErr result ((proto : Proto) → word.now ≡ proto_word proto → ⊥) }
{
    match word {
        "rtu" => Ok(Proto::Rtu),
        "dnp3" => Ok(Proto::Dnp3),
        _ => Err(Usage),
    }
}

/// Returns the protocol and the profile that a word names.
pub fn read_link(word: &str) -> Result<(Proto, Profile), Usage>
    /// The word names the protocol and the profile that are returned.
    ensures ok { IfOk result (λ link. word.now ≡ link_word link.0 link.1) }
    /// If `Usage` is returned, the word names no protocol with a profile.
    ensures usage { OnErr result ((proto : Proto) (profile : Profile)
        → word.now ≡ link_word proto profile → ⊥) }
{
    match word {
        "rtu24" => Ok((Proto::Rtu, Profile::Y24)),
        "dnp24" => Ok((Proto::Dnp3, Profile::Y24)),
        _ => match read_proto(word) {
            Ok(proto) => Ok((proto, Profile::Y18)),
            Err(Usage) => Err(Usage),
        },
    }
}

/// Returns the direction that a word names.
pub fn read_dir(word: &str) -> Result<Dir, Usage>
    /// The word names the direction that is returned.
    ensures ok { IfOk result (λ dir. word.now ≡ dir_word dir) }
    /// If `Usage` is returned, the word names no direction.
    ensures usage { OnErr result ((dir : Dir) → word.now ≡ dir_word dir → ⊥) }
{
    match word {
        "ab" => Ok(Dir::Ab),
        "ba" => Ok(Dir::Ba),
        _ => Err(Usage),
    }
}

/// Returns the word that names a protocol and a profile.
pub fn link_word(proto: Proto, profile: Profile) -> &'static [u8]
    /// It is the word that names them.
    ensures word { result.now ≡ link_word proto profile }
    /// It has at most 10 bytes.
    ensures short { length result.now ≤ 10 }
{
    match (proto, profile) {
        (Proto::Rtu, Profile::Y18) => b"rtu",
        (Proto::Dnp3, Profile::Y18) => b"dnp3",
        (Proto::Rtu, Profile::Y24) => b"rtu24",
        (Proto::Dnp3, Profile::Y24) => b"dnp24",
    }
}
