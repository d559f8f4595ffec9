ghost use Rattle.std.specs.Prelude.{◌≡◌, is_some};

use media_units::{Beginning, Instant};
use rtp_wire::{AbsSendTime, Extension, ExtensionMap, ExtensionValues};

/// What the packets of all streams of a session share when they are sealed.
#[derive(Clone, Copy, Debug, PartialEq, Eq)]
pub struct Transport {
    /// The ids of the header extensions (RFC 8285).
    pub exts: ExtensionMap,
    /// When the session's moment 0 was.
    pub beginning: Beginning,
    /// The transport number of the next packet, which counts the packets sealed while it has an id.
    pub twcc: u64,
}

impl Transport {
    ghost use Rattle.stream_core.specs.Sealing.{has_id, send_time, with_sealing, after_packet};

    /// Whether an extension has an id.
    pub fn has_id(&self, extension: Extension) -> bool
        ensures { result ≡ has_id self.now extension }
    {
        self.exts.id_of(extension).is_some()
    }

    /// A moment as an absolute send time.
    pub fn send_time(&self, now: Instant) -> AbsSendTime
        ensures { result ≡ send_time self.now now }
    {
        AbsSendTime::new(now, &self.beginning)
    }

    /// Puts what a packet that is sealed at a moment tells of that among its values.
    pub(crate) fn put_values(&self, values: &mut ExtensionValues, now: Instant)
        ensures { values.new ≡ with_sealing self.now now values.old }
    {
        if self.has_id(Extension::AbsoluteSendTime) {
            values.abs_send_time = Some(self.send_time(now));
        }
        if self.has_id(Extension::TransportSequenceNumber) {
            values.transport_cc = Some((self.twcc % 65536) as u16);
        }
    }

    /// Counts one more packet, where the transport number has an id.
    pub fn count(&mut self)
        ensures { self.new ≡ after_packet self.old }
    {
        if self.has_id(Extension::TransportSequenceNumber) {
            self.twcc = self.twcc.saturating_add(1);
        }
    }
}
