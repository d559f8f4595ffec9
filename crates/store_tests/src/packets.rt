use resend_core::Cached;
use rtp_base::SeqNo;

/// A packet that is kept to be sent again.
#[derive(Drop)]
pub struct Packet {
    pub number: u64,
    pub size: usize,
}

impl Cached for Packet {
    ghost number = { λ p. p.number };

    ghost size = { λ p. p.size };

    fn seq_no(&self) -> SeqNo {
        SeqNo::from(self.number)
    }

    fn payload_len(&self) -> usize {
        self.size
    }
}

/// Whether the number is the wanted one, or neither is there.
pub fn is_number(number: Option<SeqNo>, wanted: Option<u64>) -> bool {
    match (number, wanted) {
        (Some(number), Some(wanted)) => u64::from(number) == wanted,
        (None, None) => true,
        _ => false,
    }
}

/// Whether the packet has the wanted number, or neither is there.
pub fn is_packet(packet: Option<&Packet>, wanted: Option<u64>) -> bool {
    match (packet, wanted) {
        (Some(packet), Some(wanted)) => packet.number == wanted,
        (None, None) => true,
        _ => false,
    }
}
