// Which writes of a stream were sent.
ghost use Rattle.std.specs.Prelude.{◌≡◌, ◌+◌, ◌∷◌, ◌++◌, [], List, OnOk};
ghost use Rattle.run_model.specs.Runs.{Happening};
ghost use Rattle.run_widens.specs.Lines.{types_in, happening_in};
ghost use Rattle.run_widens.specs.declared.line.Line.{Line as Watched};
ghost use Rattle.run_widens.specs.Sent.{IsKey, is_first, is_before, first_of, last_of};
ghost use Rattle.run_widens.specs.Sent.{same_carried, put_at, Holds};
ghost use Rattle.run_widens.specs.declared.sent.Carried.{Carried as Key};
ghost use Rattle.std.specs.HashMap.{get};

use crate::line::Line;
use crate::packet::read;
use media_model::{Entry, Kind, Sealed, Write};
use rtp_wire::Pt;
use std::alloc::{AllocError, Global};
use std::collections::HashMap;

// What a repair carries of a write.
#[derive(Clone, Copy, PartialEq, Eq, Hash)]
pub(crate) struct Carried<'a> {
    pub(crate) number: u64,
    pub(crate) pt: u8,
    pub(crate) marker: bool,
    pub(crate) time: u32,
    pub(crate) csrc: &'a [u32],
    pub(crate) payload: &'a [u8],
}

// The place of the first write of which a repair carries the same, and of the last first sending
// under a number.
#[derive(Drop)]
pub(crate) struct Sent<'a> {
    pub(crate) first: HashMap<Carried<'a>, usize>,
    pub(crate) last: HashMap<u64, usize>,
}

// What repairs of a type carry of a write.
fn key_of(write: &Write, pt: Pt) -> Carried<'_>
    ensures { IsKey result write.now pt }
{
    Carried {
        number: u64::from(write.number),
        pt: u8::from(pt),
        marker: write.marker,
        time: write.rtp_time,
        csrc: write.csrc.as_slice(),
        payload: write.payload.as_slice(),
    }
}

impl<'a> Sent<'a> {
    pub(crate) fn new(alloc: Global) -> Self
        ensures { (line : Watched) → Holds line result 0 [] }
    {
        Sent {
            first: HashMap::new(alloc),
            last: HashMap::new(alloc),
        }
    }

    // Adds an entry.
    pub(crate) fn add(
        &mut self,
        line: &Line<'_>,
        at: usize,
        entry: &'a Entry,
    ) -> Result<(), AllocError>
        ensures { OnOk result ((past : List Happening) → Holds line.now self.old at past
            → Holds line.now self.new (at + 1) (past ++ happening_in line.now entry.now ∷ [])) }
    {
        let sender = line.side.peer();
        match entry {
            Entry::Wrote(side, _, write) => {
                if *side == sender && write.ssrc == line.ssrc {
                    if let Some(pt) = line.rtx_of(write.pt) {
                        put(&mut self.first, key_of(write, pt), at)?;
                    }
                }
            }
            Entry::Sealed(sealed) => {
                if sealed.side == sender && is_first(line, sealed) {
                    self.last.insert(u64::from(sealed.index), at)?;
                }
            }
            _ => {}
        }
        Ok(())
    }
}

// Whether the first write that the key is of was sent.
pub(crate) fn was_sent<'x>(sent: &Sent<'x>, key: &Carried<'x>) -> bool
    ensures { result ≡ is_before (first_of sent.now key.now) (last_of sent.now key.now.number) }
{
    let Some(first) = sent.first.get(key) else {
        return false;
    };
    match sent.last.get(&key.number) {
        Some(last) => *first < *last,
        None => false,
    }
}

// Puts a place in at a key that has none.
fn put<'a>(
    first: &mut HashMap<Carried<'a>, usize>,
    key: Carried<'a>,
    at: usize,
) -> Result<(), AllocError>
    ensures { OnOk result ((k : Key) → get same_carried first.new k
        ≡ put_at at key.entry k (get same_carried first.old k)) }
{
    if !first.contains_key(&key) {
        first.insert(key, at)?;
    }
    Ok(())
}

// Whether a seal is that of a first sending.
fn is_first(line: &Line<'_>, sealed: &Sealed) -> bool
    ensures { result ≡ is_first line.now sealed.now }
{
    sealed.kind == Kind::Rtp
        && sealed.ssrc == line.ssrc
        && !read(line.exts, sealed.plain.as_slice()).padded
}
