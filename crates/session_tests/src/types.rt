//! Payload types, and those that are repaired under others.
use rtp_base::{Frequency, Pt};
use std::test::Fail;
use stream_core::{PayloadTypes, TypeRow};

fn row(pt: u8, rtx: Option<Pt>) -> TypeRow {
    TypeRow {
        pt: Pt::from(pt),
        clock: Frequency::SECONDS,
        rtx,
        red: None,
    }
}

#[test]
fn types_of_repairs_have_primaries(rt: HostRuntime) -> Result<(), Fail> {
    let mut types = PayloadTypes::new(rt.alloc());
    let repairs = Pt::from(97);
    types.add(row(96, Some(repairs)))?;
    types.add(row(98, Some(repairs)))?;
    assert!(rt; types.primary(repairs) == Some(Pt::from(96)));
    Ok(())
}
