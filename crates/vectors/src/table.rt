//! Known answers: cases, each with the value that is wanted for a key and a text, and tables of them.
ghost use Rattle.std.specs.Prelude.{◌≡◌, ◌<◌, ◌^◌, length, not, position, IfSome, ◌≤◌, option_map};
ghost use Rattle.std.specs.Prelude.{◌↔◌, ℕ, List, Some};
ghost use Rattle.vectors.specs.Cases.{is_right, answer, IsAnswer, truth, user_of};
ghost use Rattle.vectors.specs.Tables.{crc_cases, hmac_cases, frames_cases, user_cases};
ghost use Rattle.arrayvec.specs.ArrayVec.{array_vec_len};
ghost use Rattle.line_rules.specs.Bytes.{AreBytes};
ghost use Rattle.dnp_link_frame.specs.Frame.{IsFrameOf};
ghost use Rattle.dnp_link_frame.specs.declared.header.Header.{Header};

use crate::frame::is_frame;
use arrayvec::ArrayVec;
use dnp_link_frame::{Dnp, dnp_crc, user_data};
use link_format::{HmacSha1, HmacSha256, Mac};
use rtu_frame::{Rtu, crc16};

/// What is computed for a case.
#[derive(Clone, Copy, Debug, PartialEq, Eq)]
pub enum CaseKind {
    /// The CRC-16 of Modbus RTU over the text, high byte first.
    Crc16,
    /// The CRC of DNP3 over the text, high byte first.
    CrcDnp,
    /// The HMAC-SHA-1 of the text under the key, 20 bytes.
    HmacSha1,
    /// The first 12 bytes of the HMAC-SHA-1 of the text under the key, computed by the streaming
    /// calls.
    HmacSha196,
    /// The HMAC-SHA-256 of the text under the key, 32 bytes.
    HmacSha256,
    /// One byte: 1 if the text is a frame of Modbus RTU, or 0 if it isn't.
    RtuFrame,
    /// One byte: 1 if the text is a frame of the DNP3 link layer, or 0 if it isn't.
    DnpFrame,
    /// The user data of the text, if the text is a frame of the DNP3 link layer. Any other text has
    /// none, so its case is never right.
    DnpUser,
}

/// The bytes of a key, a text or a wanted value.
pub type CaseBytes = ArrayVec<u8, 80>;

/// A known answer: the value that is wanted for a key and a text.
#[derive(Debug, Drop)]
pub struct Case {
    /// What is computed.
    pub kind: CaseKind,
    /// The key of an HMAC. Other kinds don't use it.
    pub key: CaseBytes,
    /// The text for which the value is computed.
    pub text: CaseBytes,
    /// The wanted value.
    pub want: CaseBytes,
}

fn bytes_of(list: &[u8]) -> CaseBytes
    requires { length list.now ≤ 80 }
    ensures { result.items ≡ list.now }
{
    let mut bytes = CaseBytes::new();
    let _ = bytes.try_extend_from_slice(list);
    bytes
}

fn truth(holds: bool) -> CaseBytes
    ensures { result.items ≡ truth holds }
{
    bytes_of(&[u8::from(holds)])
}

fn user_of(text: &[u8]) -> Option<CaseBytes>
    requires { length text.now ≤ 80 }
    ensures { option_map (λ user. user.items) result ≡ user_of text.now }
{
    match user_data(text) {
        Ok((_, user)) => Some(bytes_of(user.as_slice())),
        Err(_) => None,
    }
}

impl Case {
    ghost use Rattle.vectors.specs.Cases.{case_of, case_value_of, is_right};

    /// Returns a case with copies of these three lists.
    pub fn new(kind: CaseKind, key: &[u8], text: &[u8], want: &[u8]) -> Case
        /// The key has at most 80 bytes.
        requires key { length key.now ≤ 80 }
        /// The text has at most 80 bytes.
        requires text { length text.now ≤ 80 }
        /// The value has at most 80 bytes.
        requires want { length want.now ≤ 80 }
        ensures { result ≡ case_of kind key.now text.now want.now }
    {
        Case {
            kind,
            key: bytes_of(key),
            text: bytes_of(text),
            want: bytes_of(want),
        }
    }

    fn value(&self) -> Option<CaseBytes>
        ensures { option_map (λ value. value.items) result ≡ case_value_of self.now }
    {
        let (key, text) = (self.key.as_slice(), self.text.as_slice());
        match self.kind {
            CaseKind::Crc16 => Some(bytes_of(&crc16(text).to_be_bytes())),
            CaseKind::CrcDnp => Some(bytes_of(&dnp_crc(text).to_be_bytes())),
            CaseKind::HmacSha1 => Some(bytes_of(&HmacSha1::digest(key, text))),
            CaseKind::HmacSha196 => {
                let mut mac = HmacSha1::with_key(key);
                mac.update(text);
                Some(bytes_of(mac.finish().as_slice()))
            }
            CaseKind::HmacSha256 => Some(bytes_of(&HmacSha256::digest(key, text))),
            CaseKind::RtuFrame => Some(truth(is_frame::<Rtu>(text))),
            CaseKind::DnpFrame => Some(truth(is_frame::<Dnp>(text))),
            CaseKind::DnpUser => user_of(text),
        }
    }

    /// Whether the value that is computed is the wanted one.
    pub(crate) fn is_right(&self) -> bool
        ensures { result ≡ is_right self.now }
    {
        self.value()
            .is_some_and(|value| value.as_slice() == self.want.as_slice())
    }
}

/// The first row, counted from 1, whose value isn't the wanted one.
#[derive(Clone, Copy, Debug, PartialEq, Eq)]
pub struct Miss {
    /// The row, counted from 1.
    pub row: u32,
}

// Returns how many cases come before the first one that isn't right.
fn before_miss(cases: &[Case]) -> Option<usize>
    ensures value { result ≡ position (λ case. not (is_right case)) cases.now }
    ensures within { IfSome result (λ before. before < length cases.now) }
{
    cases.iter().position(|case| !case.is_right())
}

/// Compares each case with the value that the definitions give for it. The error is the first row
/// that isn't right.
#[tactic(auto, unfolding(crate::specs::Cases::answer))]
pub fn run_table(cases: &[Case]) -> Result<(), Miss>
    /// There are fewer than 2^32 cases.
    requires { length cases.now < 2 ^ 32 }
    /// The result is the answer to the table.
    ensures value { result ≡ answer cases.now }
    /// Either each case is right, or the row that is returned is the first that isn't.
    ensures first { IsAnswer cases.now result }
{
    match before_miss(cases) {
        None => Ok(()),
        Some(before) => Err(Miss {
            row: before as u32 + 1,
        }),
    }
}

fn answered(cases: &[Case]) -> (u32, Result<(), Miss>)
    requires { length cases.now < 2 ^ 32 }
    ensures rows { result.0 ≡ length cases.now }
    ensures answer { result.1 ≡ answer cases.now }
{
    (cases.len() as u32, run_table(cases))
}

// Checks the table of these rows. Returns how many rows it has, and the first row that isn't right,
// if any.
macro_rules! table {
    ($($kind:ident: $key:expr, $text:expr => $want:expr;)*) => {
        answered(&[$(Case::new(CaseKind::$kind, $key, $text, $want)),*])
    };
}

/// Checks the table of CRCs. Returns how many rows it has, and the first row that isn't right, if
/// any.
#[tactic(auto, unfolding(crate::specs::Tables::crc_cases))]
pub fn crc_table() -> (u32, Result<(), Miss>)
    /// It has as many rows as the table of CRCs.
    ensures rows { result.0 ≡ length crc_cases }
    /// The result is the answer to this table.
    ensures answer { result.1 ≡ answer crc_cases }
{
    table! {
        Crc16: b"", b"123456789" => b"\x4B\x37";
        Crc16: b"", b"\x01\x03" => b"\x21\x40";
        CrcDnp: b"", b"123456789" => b"\xEA\x82";
        CrcDnp: b"", b"\x05\x64\x05\xC0\x01\x00\x00\x04" => b"\x21\xE9";
    }
}

/// Checks the table of MACs. Returns how many rows it has, and the first row that isn't right, if
/// any.
#[tactic(auto, unfolding(crate::specs::Tables::hmac_cases))]
pub fn hmac_table() -> (u32, Result<(), Miss>)
    /// It has as many rows as the table of MACs.
    ensures rows { result.0 ≡ length hmac_cases }
    /// The result is the answer to this table.
    ensures answer { result.1 ≡ answer hmac_cases }
{
    table! {
        HmacSha1: &[0x0B; 20], b"Hi There" => b"\
            \xB6\x17\x31\x86\x55\x05\x72\x64\xE2\x8B\xC0\xB6\xFB\x37\x8C\x8E\xF1\x46\xBE\x00";
        HmacSha1: b"Jefe", b"what do ya want for nothing?" => b"\
            \xEF\xFC\xDF\x6A\xE5\xEB\x2F\xA2\xD2\x74\x16\xD5\xF1\x84\xDF\x9C\x25\x9A\x7C\x79";
        HmacSha1: &[0xAA; 20], &[0xDD; 50] => b"\
            \x12\x5D\x73\x42\xB9\xAC\x11\xCD\x91\xA3\x9A\xF4\x8A\xA1\x7B\x4F\x63\xF1\x75\xD3";
        HmacSha196: &[0x0C; 20], b"Test With Truncation" => b"\
            \x4C\x1A\x03\x42\x4B\x55\xE0\x7F\xE7\xF2\x7B\xE1";
        HmacSha1: &[0xAA; 80], b"Test Using Larger Than Block-Size Key - Hash Key First" => b"\
            \xAA\x4A\xE5\xE1\x52\x72\xD0\x0E\x95\x70\x56\x37\xCE\x8A\x3B\x55\xED\x40\x21\x12";
        HmacSha256: &[0x0B; 20], b"Hi There" => b"\
            \xB0\x34\x4C\x61\xD8\xDB\x38\x53\x5C\xA8\xAF\xCE\xAF\x0B\xF1\x2B\x88\x1D\xC2\x00\
            \xC9\x83\x3D\xA7\x26\xE9\x37\x6C\x2E\x32\xCF\xF7";
        HmacSha256: b"Jefe", b"what do ya want for nothing?" => b"\
            \x5B\xDC\xC1\x46\xBF\x60\x75\x4E\x6A\x04\x24\x26\x08\x95\x75\xC7\x5A\x00\x3F\x08\
            \x9D\x27\x39\x83\x9D\xEC\x58\xB9\x64\xEC\x38\x43";
    }
}

/// Checks the table of frames. Returns how many rows it has, and the first row that isn't right, if
/// any.
#[tactic(auto, unfolding(crate::specs::Tables::frames_cases))]
pub fn frames_table() -> (u32, Result<(), Miss>)
    /// It has as many rows as the table of frames.
    ensures rows { result.0 ≡ length frames_cases }
    /// The result is the answer to this table.
    ensures answer { result.1 ≡ answer frames_cases }
{
    table! {
        RtuFrame: b"", b"\x01\x03\x00\x00\x00\x0A\xC5\xCD" => b"\x01";
        RtuFrame: b"", b"\x01\x03\x00\x00\x00\x01\x84\x0A" => b"\x01";
        RtuFrame: b"", b"\x11\x03\x00\x6B\x00\x03\x76\x87" => b"\x01";
        RtuFrame: b"", b"\x01\x03\x40\x21" => b"\x01";
        RtuFrame: b"", b"\x01\x03\x00\x00\x00\x0A\xC5\xCC" => b"\x00";
        DnpFrame: b"", b"\x05\x64\x05\xC0\x01\x00\x00\x04\xE9\x21" => b"\x01";
        DnpFrame: b"",
            b"\x05\x64\x0B\xC4\x01\x00\x00\x04\xF4\x5C\xC0\xC0\x01\x3C\x02\x06\x54\xE0" => b"\x01";
    }
}

/// Checks the table of user data. Returns how many rows it has, and the first row that isn't right,
/// if any.
#[tactic(auto, unfolding(crate::specs::Tables::user_cases))]
pub fn user_table() -> (u32, Result<(), Miss>)
    /// It has as many rows as the table of user data.
    ensures rows { result.0 ≡ length user_cases }
    /// The result is the answer to this table.
    ensures answer { result.1 ≡ answer user_cases }
{
    table! {
        DnpUser: b"", b"\x05\x64\x05\xC0\x01\x00\x00\x04\xE9\x21" => b"";
        DnpUser: b"",
            b"\x05\x64\x0B\xC4\x01\x00\x00\x04\xF4\x5C\xC0\xC0\x01\x3C\x02\x06\x54\xE0" =>
            b"\xC0\xC0\x01\x3C\x02\x06";
    }
}

/// The definitions give `user` as the user data of a text exactly if the text is, with some header,
/// the frame of `user`. For a text that isn't a frame they give none.
pub fn user_data_of_frames()
    ensures { (text user : List ℕ) → AreBytes text
        → (user_of text ≡ Some user) ↔ ((header : Header) × IsFrameOf header user text) }
{}
