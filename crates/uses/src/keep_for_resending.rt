//! Packets that were sent, kept until a receiver asks for one again.
ghost use Rattle.std.specs.Prelude.{◌≡◌, ◌<◌, IfOk, OnOk, OnErr};
ghost use Rattle.std.specs.Option.{option_map};
ghost use Rattle.resend_core.specs.ResendStore.{Past};
ghost use Rattle.resend_core.specs.RtxCache.{StandsFor, packet_at, IsCached};

use media_units::Instant;
use resend_core::{CACHED_SIZE_LIMIT, Cached, ResendStore, RtxCache};
use rtp_base::SeqNo;
use std::alloc::{AllocError, Global};

/// Keeps a packet that was sent, and tells the length of the payload of the one that is asked for,
/// if that is kept.
pub fn keep_and_find<P: Cached, S: ResendStore<P>>(
    cache: &mut RtxCache<P, S>,
    packet: P,
    now: Instant,
    asked: SeqNo,
) -> Result<Option<usize>, AllocError>
    requires { P.size packet < CACHED_SIZE_LIMIT }
    ensures len { IfOk result (λ len. len
        ≡ option_map P.size (packet_at S.value_at cache.new asked)) }
    ensures kept { OnOk result ((past : Past P) → StandsFor S.stands_for P.size cache.old past
        → IsCached S.stands_for P.size past (P.number packet) now packet cache.new) }
    ensures unchanged { OnErr result (cache.new ≡ cache.old) }
{
    cache.cache_sent_packet(packet, now)?;
    match cache.get_cached_packet_by_seq_no(asked) {
        Some(packet) => Ok(Some(packet.payload_len())),
        None => Ok(None),
    }
}
