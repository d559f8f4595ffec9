use crate::cite_the_laws::played_to_the_end;
use crate::mirror_a_session::take_as_plain;
use crate::play_a_run::played;
use media_model::{Setup, Transcript};
use media_script::read_script;
use media_units::Instant;
use rtp_base::Mid;
use srtp_core::{KeyingMaterial, ToyCipher};
use std::alloc::{AllocError, Global};
use std::test::Fail;
use uses::build_a_script::one_write;
use uses::exchange_a_packet::end;
use uses::tell_a_run::told;

fn mid() -> Mid {
    match Mid::from_slice(b"v") {
        Some(mid) => mid,
        None => unreachable!(),
    }
}

#[test]
fn a_run_is_played(rt: HostRuntime) -> Result<(), Fail> {
    let (setup, steps) = one_write(rt.alloc(), mid(), &[1, 2])?;
    // Written, ticked, sealed, got, opened, yielded.
    assert!(rt; played(rt.alloc(), &setup, &steps).entries().len() == 6);
    Ok(())
}

#[test]
fn laws_are_cited(rt: HostRuntime) -> Result<(), Fail> {
    let (setup, steps) = one_write(rt.alloc(), mid(), &[1, 2])?;
    let entries = match played_to_the_end(rt.alloc(), &setup, &ToyCipher, &steps) {
        Some(transcript) => transcript.entries().len(),
        None => 0,
    };
    assert!(rt; entries == 6);
    Ok(())
}

// What an end makes of no bytes: nothing opens.
fn opens(alloc: Global) -> Result<bool, Fail> {
    let material = KeyingMaterial::new(alloc, &[0; 56])?;
    let mut session = match end(alloc, &material, mid(), false) {
        Ok(session) => session,
        Err(_) => return Ok(true),
    };
    match take_as_plain(&mut *session, Instant::from_nanos(1), &[]) {
        Ok(opened) => Ok(opened.is_some()),
        Err(_) => Ok(true),
    }
}

#[test]
fn a_session_is_mirrored(rt: HostRuntime) -> Result<(), Fail> {
    let opened = opens(rt.alloc())?;
    assert!(rt; !opened);
    Ok(())
}

// The packet 2 is lost, asked for and sent again under the SSRC 43 (RFC 4588 section 4); or a
// repair comes of a packet 5 that the other side never sent.
const REPAIRED: &str = "str0m-media 1
key zero
type 96 vp8 90000 rtx=97
media v video cam
stream A v 42 43 -
begin
write A 1 42 1 96 0 0 1 01
write A 1 42 2 96 0 0 1 02
write A 1 42 3 96 0 0 1 03
tick A 1
deliver B 1 1
deliver B 1 3
tick B 33ms
deliver A 33ms 1
tick A 33ms
deliver B 33ms 4
";

const FOREIGN: &str =
    "foreign B 33ms rtp 8061000a000000000000002b00058061000a002b00020000002100050001\n";

// Whether the text of a run ends with this line.
fn ends_with(
    alloc: Global,
    setup: &Setup,
    run: &Transcript,
    line: &str,
) -> Result<bool, AllocError> {
    let text = told(alloc, setup, run)?;
    Ok(text.as_str().lines().last() == Some(line))
}

// Whether the text of a run of a script ends with this line.
fn is_told(alloc: Global, script: &[u8], line: &str) -> Result<bool, AllocError> {
    match read_script(alloc, script) {
        Ok((setup, steps)) => {
            let run = played(alloc, &setup, &steps);
            ends_with(alloc, &setup, &run, line)
        }
        Err(_) => Ok(false),
    }
}

#[test]
fn a_run_is_told(rt: HostRuntime) -> Result<(), Fail> {
    let script = format!(in rt.alloc(); "{REPAIRED}end\n")?;
    let told = is_told(rt.alloc(), script.as_bytes(), "end genuine=yes repairs=yes")?;
    assert!(rt; told);
    Ok(())
}

#[test]
fn a_foreign_repair_is_told(rt: HostRuntime) -> Result<(), Fail> {
    let script = format!(in rt.alloc(); "{REPAIRED}{FOREIGN}end\n")?;
    let told = is_told(rt.alloc(), script.as_bytes(), "end genuine=no repairs=no")?;
    assert!(rt; told);
    Ok(())
}
