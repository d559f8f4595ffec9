//! What is read of scripts: each kind of line, and what a setup says then.
use media_base::Bytes;
use media_model::*;
use media_script::read_script;
use media_units::{Duration, Instant};
use rtp_wire::{Pt, Ssrc};
use srtp_core::SrtpProfile;
use std::alloc::Global;
use std::test::Fail;

// Each kind of line once, and a stream of each form.
static EVERY_LINE: &[u8] = b"# all of it\n\nstr0m-media 1\ntype 96 vp8 90000\nmedia v video cam\n\
media a audio mic2\nstream A v 42 - -\next 14 delay\ncipher toy\nunix 5\next 0 mid\ntype 255 telephone 4294967295\n\
stream B a 4294967295 0 hi\nkey 00Ff\nprofile gcm128\nstream B v 7 - lo\nrtcp B 2147483648\nmtu 900 1500\n\
type 97 vp9 90000 rtx=255 red=9 pli fir\nstart 4294967295 281474976710656\ncache 7 0 18446744073709 4294967295\n\
cache 42 18446744073709551615 0 none\n\
pause 250\nreports 4000 18446744073709\nlocal A 4294967295\nbegin\n\
write A 5ms 42 18446744073709551615 96 4294967295 1 0 8060Ff c=0000002AffFFffff\ntick B 1000\ndeliver A 0 3\n\
foreign A 1 rtcp -\napp B 2ms 4294967295 0 0102fFfF\nforeign B 1 rtp 80\n#\nend\n\n# end\n";

// The setup of a script.
fn setup_of(alloc: Global, text: &[u8]) -> Result<Setup, Fail> {
    let (setup, _) = read_script(alloc, text).ok().ok_or("a script")?;
    Ok(setup)
}

// The steps of a script.
fn steps_of(alloc: Global, text: &[u8]) -> Result<Vec<Step>, Fail> {
    let (_, steps) = read_script(alloc, text).ok().ok_or("a script")?;
    Ok(steps)
}

// What is said of a script, and whether it holds.
type Fact = (&'static str, bool);

// Tells the first fact that does not hold.
fn all_hold(facts: &[Fact]) -> Result<(), Fail> {
    for (what, holds) in facts {
        if !*holds {
            None::<()>.ok_or(*what)?;
        }
    }
    Ok(())
}

fn are_types(types: &[PayloadType]) -> bool {
    let others = [
        PayloadType {
            pt: Pt::from(255),
            codec: Codec::Telephone,
            rate: 4_294_967_295,
            rtx: None,
            red: None,
            pli: false,
            fir: false,
        },
        PayloadType {
            pt: Pt::from(97),
            codec: Codec::Vp9,
            rate: 90_000,
            rtx: Some(Pt::from(255)),
            red: Some(Pt::from(9)),
            pli: true,
            fir: true,
        },
    ];
    types.len() == 3 && types.get(1..) == Some(others.as_slice())
}

fn is_video(media: &Media) -> bool {
    media.mid.as_slice() == b"v".as_slice()
        && media.kind == MediaKind::Video
        && media.cname.as_slice() == b"cam".as_slice()
        && media.streams.as_slice().len() == 2
}

fn is_layer(stream: &Stream) -> bool {
    stream.side == Side::B
        && stream.ssrc == Ssrc::from(u32::MAX)
        && stream.rtx == Some(Ssrc::from(0))
        && match &stream.rid {
            Some(rid) => rid.as_slice() == b"hi".as_slice(),
            None => false,
        }
}

fn are_media(media: &[Media]) -> bool {
    match media {
        [video, audio] => match audio.streams.as_slice().first() {
            Some(stream) => is_video(video) && is_layer(stream),
            None => false,
        },
        _ => false,
    }
}

#[test]
fn each_line_is_read(rt: HostRuntime) -> Result<(), Fail> {
    let alloc = rt.alloc();
    let key = Key::Given(Bytes::from_slice(alloc, &[0, 255])?);
    let last = SrtcpIndex::new(2_147_483_648).ok_or("an index")?;
    let setup = setup_of(alloc, EVERY_LINE)?;
    let mtu = Mtu {
        target: 900,
        warn: 1500,
    };
    all_hold(&[
        ("its cipher", setup.cipher == CipherName::Toy),
        ("its profile", setup.profile == SrtpProfile::AeadAes128Gcm),
        ("its key", setup.key == key),
        ("its types", are_types(setup.types.as_slice())),
        ("its media", are_media(setup.media.as_slice())),
        ("its mtu", setup.mtu == mtu),
        (
            "its threshold",
            setup.pause_threshold == Duration::from_nanos(250_000_000),
        ),
        (
            "its intervals",
            setup.intervals == intervals(4_000_000_000, 18_446_744_073_709_000_000),
        ),
        ("A", setup.a == local(u32::MAX, SrtcpIndex::FIRST)),
        ("B", setup.b == local(2, last)),
    ])
}

fn cache(packets: u64, nanos: u64, cap: Option<u32>) -> Cache {
    Cache {
        packets,
        age: Duration::from_nanos(nanos),
        cap,
    }
}

#[test]
fn what_streams_keep_is_read(rt: HostRuntime) -> Result<(), Fail> {
    let alloc = rt.alloc();
    let last = FirstNumber::new(281_474_976_710_656).ok_or("a number")?;
    let setup = setup_of(alloc, EVERY_LINE)?;
    let most = Ssrc::from(u32::MAX);
    all_hold(&[
        ("one start", setup.starts.len() == 1),
        ("its number", setup.start(most) == last),
        ("no other", setup.start(Ssrc::from(7)) == FirstNumber::ZERO),
        ("two caches", setup.caches.len() == 2),
        (
            "with a cap",
            setup.cache(Ssrc::from(7)) == cache(0, 18_446_744_073_709_000_000, Some(u32::MAX)),
        ),
        (
            "without one",
            setup.cache(Ssrc::from(42)) == cache(u64::MAX, 0, None),
        ),
        (
            "the usual one",
            setup.cache(most) == cache(2_000, 3_000_000_000, Some(15)),
        ),
    ])
}

// What a side alone brings.
fn local(ssrc: u32, srtcp_index: SrtcpIndex) -> Local {
    Local {
        ssrc: Ssrc::from(ssrc),
        srtcp_index,
    }
}

// The intervals of reports of sound and of pictures, in nanoseconds.
fn intervals(audio: u64, video: u64) -> ReportTimes {
    ReportTimes {
        audio: Duration::from_nanos(audio),
        video: Duration::from_nanos(video),
    }
}

// Whether a step is this side's, at this moment.
fn is_at(step: &Step, side: Side, nanos: u64) -> bool {
    step.side == side && step.time == Instant::from_nanos(nanos)
}

fn is_delivery(step: &Step) -> bool {
    is_at(step, Side::A, 0) && matches!(step.act, Act::Deliver { datagram: 3 })
}

// Whether a step is a datagram of anybody at the moment 1.
fn is_foreign(step: &Step, to: Side, as_kind: Kind, wanted: &[u8]) -> bool {
    match &step.act {
        Act::Foreign { kind, bytes } => {
            is_at(step, to, 1) && *kind == as_kind && bytes.as_slice() == wanted
        }
        _ => false,
    }
}

fn is_feedback(step: &Step) -> bool {
    match &step.act {
        Act::Feedback {
            sender,
            media,
            payload,
        } => {
            let ends = *sender == Ssrc::from(u32::MAX) && *media == Ssrc::from(0);
            let called = is_at(step, Side::B, 2_000_000);
            called && ends && payload.as_slice() == [1, 2, 255, 255].as_slice()
        }
        _ => false,
    }
}

// Whether the steps are two, and then these.
fn are_steps(steps: &[Step]) -> bool {
    match steps {
        [_, _, delivery, rtcp, feedback, rtp] => {
            is_delivery(delivery)
                && is_foreign(rtcp, Side::A, Kind::Rtcp, &[])
                && is_feedback(feedback)
                && is_foreign(rtp, Side::B, Kind::Rtp, &[0x80])
        }
        _ => false,
    }
}

#[test]
fn each_step_is_read(rt: HostRuntime) -> Result<(), Fail> {
    let steps = steps_of(rt.alloc(), EVERY_LINE)?;
    assert!(rt; are_steps(steps.as_slice()));
    Ok(())
}

fn gives_material(alloc: Global, setup: &Setup) -> Result<bool, Fail> {
    let material = setup.material(alloc)?;
    Ok(material.as_slice() == [0, 255].as_slice())
}

fn gives_streams(alloc: Global, setup: &Setup) -> Result<bool, Fail> {
    let wanted = [Ssrc::from(7), Ssrc::from(u32::MAX)];
    let streams = setup.streams(alloc, Side::B)?;
    Ok(streams.as_slice() == wanted.as_slice())
}

fn gives_types(alloc: Global, setup: &Setup) -> Result<bool, Fail> {
    let wanted = [Pt::from(96), Pt::from(255), Pt::from(97), Pt::from(9)];
    let types = setup.types(alloc)?;
    Ok(types.as_slice() == wanted.as_slice())
}

fn gives_claimed_types(alloc: Global, setup: &Setup) -> Result<bool, Fail> {
    let wanted = [
        Pt::from(96),
        Pt::from(255),
        Pt::from(97),
        Pt::from(255),
        Pt::from(9),
    ];
    let claimed = setup.claimed_types(alloc)?;
    Ok(claimed.as_slice() == wanted.as_slice())
}

fn gives_all(alloc: Global, setup: &Setup) -> Result<bool, Fail> {
    let streams = gives_material(alloc, setup)? && gives_streams(alloc, setup)?;
    let types = gives_types(alloc, setup)? && gives_claimed_types(alloc, setup)?;
    Ok(streams && types)
}

#[test]
fn surface_ample(rt: HostRuntime) -> Result<(), Fail> {
    let setup = setup_of(rt.alloc(), EVERY_LINE)?;
    let given = gives_all(rt.alloc(), &setup)?;
    assert!(rt; given);
    Ok(())
}
