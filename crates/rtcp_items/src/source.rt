//! Sources that describe themselves and leave (RFC 3550 sections 6.5 and 6.6).
ghost use Rattle.std.specs.Prelude.{◌≡◌};

use media_base::{Bytes, Listed};
use rtp_base::{ReportList, Ssrc};

/// Sources that leave (RFC 3550 section 6.6). A reason is not kept.
#[derive(Debug, PartialEq, Eq, Drop)]
pub struct Goodbye {
    /// The sources.
    pub reports: ReportList<Ssrc>,
}

/// The type of an item that tells the name of the source's endpoint, CNAME (RFC 3550 section
/// 6.5.1).
pub const CNAME_TYPE: u8 = 1;

/// The type of an item that tells the name of a user, NAME (RFC 3550 section 6.5.2).
pub const NAME_TYPE: u8 = 2;

/// The type of an item that tells an address of mail, EMAIL (RFC 3550 section 6.5.3).
pub const EMAIL_TYPE: u8 = 3;

/// The type of an item that tells a number of a phone, PHONE (RFC 3550 section 6.5.4).
pub const PHONE_TYPE: u8 = 4;

/// The type of an item that tells a place, LOC (RFC 3550 section 6.5.5).
pub const LOC_TYPE: u8 = 5;

/// The type of an item that tells the name of a program, TOOL (RFC 3550 section 6.5.6).
pub const TOOL_TYPE: u8 = 6;

/// The type of an item that tells a notice, NOTE (RFC 3550 section 6.5.7).
pub const NOTE_TYPE: u8 = 7;

/// The type of an item that tells a private extension, PRIV (RFC 3550 section 6.5.8).
pub const PRIV_TYPE: u8 = 8;

/// What an item of a description tells (RFC 3550 section 12.2).
#[derive(Clone, Copy, Debug, PartialEq, Eq)]
pub enum SdesType {
    /// The name of the source's endpoint, which stays the same over its SSRCs (RFC 3550 section
    /// 6.5.1).
    CNAME,
    NAME,
    EMAIL,
    PHONE,
    LOC,
    TOOL,
    NOTE,
    PRIV,
    /// Another type, by its number, which is not 0.
    Unknown(u8),
}

impl From<u8> for SdesType {
    ghost use Rattle.rtcp_items.specs.SdesTypes.{sdes_type_of};

    ghost from_gives = { λ n t. t ≡ sdes_type_of n };

    fn from(number: u8) -> Self {
        match number {
            CNAME_TYPE => SdesType::CNAME,
            NAME_TYPE => SdesType::NAME,
            EMAIL_TYPE => SdesType::EMAIL,
            PHONE_TYPE => SdesType::PHONE,
            LOC_TYPE => SdesType::LOC,
            TOOL_TYPE => SdesType::TOOL,
            NOTE_TYPE => SdesType::NOTE,
            PRIV_TYPE => SdesType::PRIV,
            _ => SdesType::Unknown(number),
        }
    }
}

impl From<SdesType> for u8 {
    ghost use Rattle.rtcp_items.specs.SdesTypes.{sdes_number};

    ghost from_gives = { λ t n. n ≡ sdes_number t };

    fn from(kind: SdesType) -> Self {
        match kind {
            SdesType::CNAME => CNAME_TYPE,
            SdesType::NAME => NAME_TYPE,
            SdesType::EMAIL => EMAIL_TYPE,
            SdesType::PHONE => PHONE_TYPE,
            SdesType::LOC => LOC_TYPE,
            SdesType::TOOL => TOOL_TYPE,
            SdesType::NOTE => NOTE_TYPE,
            SdesType::PRIV => PRIV_TYPE,
            SdesType::Unknown(number) => number,
        }
    }
}

/// An item of a description (RFC 3550 section 6.5).
#[derive(Debug, PartialEq, Eq, Drop)]
pub struct SdesItem {
    /// What the text tells.
    pub kind: SdesType,
    /// At most 255 bytes, of UTF-8 where the sender keeps to the standard.
    pub text: Bytes,
}

/// What a source tells of itself (RFC 3550 section 6.5).
#[derive(Debug, PartialEq, Eq, Drop)]
pub struct Sdes {
    /// The source.
    pub ssrc: Ssrc,
    /// Of those read the first 31.
    pub values: Listed<SdesItem>,
}

/// Sources that describe themselves (RFC 3550 section 6.5), at most 31.
#[derive(Debug, PartialEq, Eq, Drop)]
pub struct Descriptions {
    /// What each tells.
    pub reports: Listed<Sdes>,
}
