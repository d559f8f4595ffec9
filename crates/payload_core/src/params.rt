//! Payload types and what they carry.
ghost use Rattle.std.specs.Prelude.{◌≡◌, ◌==◌, IfOk, [], ◌∷◌, MatchOption, length};
ghost use Rattle.std.specs.List.{list_any};
ghost use Rattle.std.specs.Option.{option_copied};
ghost use Rattle.std.specs.Slice.Iter.{iter_rest};
ghost use Rattle.std.specs.Iterator.Adapters.{IterYieldsInOrder};
ghost use Rattle.payload_core.specs.declared.params.PayloadParams.{PayloadParams as Params};
ghost use Rattle.payload_core.specs.Params.{is_tele_type};

use crate::codec::{Codec, CodecSpec, FormatParams, MediaKind};
use rtp_wire::{Frequency, Pt};
use std::alloc::{AllocError, Global};
use std::marker::Model;
use std::slice;

/// The greatest telephone event that is agreed on: the sixteen keys (RFC 4733 section 3.2).
pub const TELE_EVENT_MAX: u8 = 15;

/// A payload type, what it carries, and what goes with it. Two are equal where all fields are.
#[derive(Clone, Copy, Debug, PartialEq, Eq)]
pub struct PayloadParams {
    /// The payload type.
    pub pt: Pt,
    /// The type of its repairs (RFC 4588), None where none are sent.
    pub resend: Option<Pt>,
    /// The type under which it is sent with older frames (RED, RFC 2198), None where it is not.
    pub red: Option<Pt>,
    /// What it carries.
    pub spec: CodecSpec,
    /// Whether its arrivals are reported for the whole transport.
    pub fb_transport_cc: bool,
    /// Whether a lost picture may be told (RFC 4585 section 6.3.1).
    pub fb_pli: bool,
    /// Whether a whole picture may be asked for (RFC 5104 section 4.3.1).
    pub fb_fir: bool,
}

impl PayloadParams {
    ghost use Rattle.payload_core.specs.Params.{plain_params, probe_params};

    /// A payload type without RED and without feedback.
    pub fn new(pt: Pt, resend: Option<Pt>, spec: CodecSpec) -> Self
        ensures { result ≡ plain_params pt resend spec }
    {
        PayloadParams {
            pt,
            resend,
            red: None,
            spec,
            fb_transport_cc: false,
            fb_pli: false,
            fb_fir: false,
        }
    }

    /// What probes are sent as, which carry no media: no codec in the clock of video, with feedback
    /// for the whole transport alone.
    pub fn new_probe(pt: Pt) -> Self
        ensures { result ≡ probe_params pt }
    {
        PayloadParams {
            pt,
            resend: None,
            red: None,
            spec: CodecSpec {
                codec: Codec::Null,
                clock_rate: Frequency::NINETY_KHZ,
                channels: None,
                format: FormatParams {
                    min_p_time: None,
                    use_inband_fec: None,
                    use_dtx: None,
                    level_asymmetry_allowed: None,
                    packetization_mode: None,
                    profile_level_id: None,
                    profile_id: None,
                    sprop_max_don_diff: None,
                },
            },
            fb_transport_cc: true,
            fb_pli: false,
            fb_fir: false,
        }
    }
}

/// The payload types that are agreed on, in the order of preference, and the distances of RED.
/// Contracts see both lists.
#[derive(Debug, Drop)]
pub struct CodecConfig {
    all: Vec<PayloadParams>,
    distances: Vec<u32>,
}

impl Model for CodecConfig {
    ghost use Rattle.payload_core.specs.Params.{Config};

    ghost Value = { Config };

    ghost view = { λ c. record { params = c.all.items; distances = c.distances.items } };
}

fn is_tele_type(params: &PayloadParams, pt: Pt) -> bool
    ensures { result ≡ is_tele_type pt params.now }
{
    params.pt == pt && params.spec.codec.is_tele()
}

impl CodecConfig {
    ghost use Rattle.payload_core.specs.Params.{is_type, tele_event_max, IsFirstWith, NoneWith, left_of, for_kind};

    /// These payload types, in this order, and RED that repeats the frame before.
    pub fn new(alloc: Global, params: Vec<PayloadParams>) -> Result<Self, AllocError>
        ensures { IfOk result (λ c. c ≡ record { params = params.items; distances = 1 ∷ [] }) }
    {
        let distances = vec![in alloc; 1]?;
        Ok(CodecConfig {
            all: params,
            distances,
        })
    }

    /// Makes RED repeat the frames that are so many packets back.
    pub fn set_red_distances(&mut self, distances: Vec<u32>)
        ensures { self.new ≡ record self.old { distances = distances.items } }
    {
        self.distances = distances;
    }

    /// The payload types, in order.
    pub fn params(&self) -> &[PayloadParams]
        ensures { result.now ≡ self.now.params }
    {
        self.all.as_slice()
    }

    /// How many payload types there are.
    pub fn len(&self) -> usize
        ensures { result ≡ length self.now.params }
    {
        self.all.len()
    }

    /// Whether there are none.
    pub fn is_empty(&self) -> bool
        ensures { result ≡ (length self.now.params == 0) }
    {
        self.all.is_empty()
    }

    /// The payload types, one after another.
    pub fn iter(&self) -> slice::Iter<'_, PayloadParams>
        ensures rest { iter_rest result ≡ self.now.params }
        ensures runs { IterYieldsInOrder Params }
    {
        self.all.iter()
    }

    /// How many packets back the frames are that RED repeats.
    pub fn red_distances(&self) -> &[u32]
        ensures { result.now ≡ self.now.distances }
    {
        self.distances.as_slice()
    }

    /// Whether media has this payload type. Types of repairs and of RED are none of media. The time
    /// grows with the number of types.
    pub fn has_pt(&self, pt: Pt) -> bool
        ensures { result ≡ list_any (is_type pt) self.now.params }
    {
        self.all.iter().any(|p| p.pt == pt)
    }

    /// The first payload type that carries the same: of which all that is agreed on is equal. None
    /// exactly where there is none. The time grows with the number of types.
    pub fn match_params(&self, params: PayloadParams) -> Option<&PayloadParams>
        ensures { MatchOption (option_copied result) (NoneWith params.spec self.now.params) (IsFirstWith params.spec self.now.params) }
    {
        for known in &self.all {
            if known.spec == params.spec {
                return Some(known);
            }
        }
        None
    }

    /// The payload types for a kind of media, in order.
    pub fn all_for_kind(&self, kind: MediaKind) -> ParamsOfKind<'_>
        ensures { left_of result ≡ for_kind kind self.now.params }
    {
        ParamsOfKind {
            rest: self.all.as_slice(),
            kind,
        }
    }

    fn has_tele_type(&self, pt: Pt) -> bool
        ensures { result ≡ list_any (is_tele_type pt) self.now.params }
    {
        self.all.iter().any(|p| is_tele_type(p, pt))
    }

    /// The greatest telephone event under a payload type: 15. None exactly where no such type
    /// carries telephone events. The time grows with the number of types.
    pub fn tele_event_max(&self, pt: Pt) -> Option<u8>
        ensures { result ≡ tele_event_max self.now.params pt }
    {
        if self.has_tele_type(pt) {
            Some(TELE_EVENT_MAX)
        } else {
            None
        }
    }
}

/// The payload types for a kind of media, in order: an iterator, which takes no memory.
#[derive(Clone, Copy, Debug)]
pub struct ParamsOfKind<'a> {
    rest: &'a [PayloadParams],
    kind: MediaKind,
}

impl<'a> Iterator for ParamsOfKind<'a> {
    ghost use Rattle.std.specs.Iterator.{item_count, YieldsFirstRef};
    ghost use Rattle.payload_core.specs.Params.{left_of};

    type Item = &'a PayloadParams;

    ghost next_gives = { YieldsFirstRef left_of };

    ghost remaining = { item_count left_of };

    fn next(&mut self) -> Option<&'a PayloadParams> {
        while let Some((first, rest)) = self.rest.split_first() {
            self.rest = rest;
            if first.spec.codec.kind() == self.kind {
                return Some(first);
            }
        }
        None
    }
}
