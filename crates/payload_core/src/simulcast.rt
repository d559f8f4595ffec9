//! Simulcast as an offer tells it (RFC 8853).
use media_base::{Bytes, Listed};
use rtp_wire::Rid;

/// A restriction of a layer (RFC 8851 section 5): its name and its value.
#[derive(Debug, PartialEq, Eq, Drop)]
pub struct SdpAttribute {
    /// The name.
    pub name: Bytes,
    /// The value.
    pub value: Bytes,
}

/// A layer of simulcast.
#[derive(Debug, PartialEq, Eq, Drop)]
pub struct SdpSimulcastLayer {
    /// Which layer it is.
    pub rid: Rid,
    /// Its restrictions in their order, None where none are told.
    pub attributes: Option<Listed<SdpAttribute>>,
}

/// The layers that are sent and received.
#[derive(Debug, PartialEq, Eq, Drop)]
pub struct SdpSimulcast {
    /// The layers that are sent.
    pub send: Listed<SdpSimulcastLayer>,
    /// The layers that are received.
    pub recv: Listed<SdpSimulcastLayer>,
}
