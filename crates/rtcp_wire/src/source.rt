//! Sources that describe themselves and leave (RFC 3550 sections 6.5 and 6.6).
ghost use Rattle.std.specs.Prelude.{◌≡◌, ◌≤◌, IfOk, OnOk, IfSome, length};
ghost use Rattle.std.specs.Option.{option_map};
ghost use Rattle.rtp_base.specs.Wire.{Puts};
ghost use Rattle.rtcp_wire.specs.Reports.{goodbye_of, goodbye_body};
ghost use Rattle.rtcp_wire.specs.Descriptions.{sdes_item_at, with_item, first_31, sdes_items_of, sdes_at, descriptions_of, descriptions_body};

use crate::row::{Put, Row, read_rows, rows_len, write_rows};
use media_base::{Bytes, Listed};
use rtcp_items::{Descriptions, Goodbye, Sdes, SdesItem, SdesType};
use rtp_base::wire::{put, word};
use rtp_base::{MAX_REPORTS, Ssrc};
use std::alloc::{AllocError, Global};

impl Row for Ssrc {
    ghost use Rattle.std.specs.Int.{w32, to_be_bytes};
    ghost use Rattle.rtp_base.specs.Wire.{word_at};

    ghost size = { 4 };

    ghost row_of = { λ bytes. word_at bytes 0 };

    fn size() -> usize {
        4
    }

    fn read(bytes: &[u8]) -> Self {
        word(bytes, 0).into()
    }
}

impl Put for Ssrc {
    ghost use Rattle.std.specs.Int.{w32, to_be_bytes};
    ghost use Rattle.rtp_base.specs.Wire.{word_at};

    ghost text_of = { to_be_bytes w32 };

    fn len(&self) -> usize {
        4
    }

    fn write(&self, out: &mut [u8], at: usize) -> Option<usize> {
        put(out, at, &u32::from(*self).to_be_bytes())
    }
}

#[tactic(auto, unfolding(crate::specs::Reports::goodbye_of))]
pub(crate) fn read_goodbye(count: u8, body: &[u8]) -> Option<Goodbye>
    requires { count ≤ MAX_REPORTS }
    ensures { result ≡ goodbye_of count body.now }
{
    let count = usize::from(count);
    if body.len() < count * 4 {
        return None;
    }
    Some(Goodbye {
        reports: read_rows(body, count),
    })
}

#[tactic(auto, unfolding(crate::specs::Reports::goodbye_body))]
pub(crate) fn write_goodbye(goodbye: &Goodbye, out: &mut [u8]) -> Option<usize>
    ensures { Puts out.old 0 (goodbye_body goodbye.now) out.new result }
{
    write_rows(goodbye.reports.as_slice(), out, 0)
}

// An item in bytes, and what follows it.
#[derive(Drop)]
struct FoundItem<'a> {
    kind: SdesType,
    text: &'a [u8],
    rest: &'a [u8],
}

// The item at the front of a list, or None where the bytes are too short.
#[tactic(auto, unfolding(crate::specs::Descriptions::sdes_item_at))]
fn first_item(bytes: &[u8]) -> Option<FoundItem<'_>>
    ensures { option_map (λ f. (record { kind = f.kind; text = f.text.now }, f.rest.now)) result ≡ sdes_item_at bytes.now }
{
    if bytes.len() < 2 {
        return None;
    }
    let len = 2 + usize::from(bytes[1]);
    if bytes.len() < len {
        return None;
    }
    let (item, rest) = bytes.split_at(len);
    let (_, text) = item.split_at(2);
    Some(FoundItem {
        kind: bytes[0].into(),
        text,
        rest,
    })
}

// Adds the item, unless 31 are there.
fn keep_item(
    alloc: Global,
    values: &mut Listed<SdesItem>,
    item: &FoundItem<'_>,
) -> Result<(), AllocError>
    ensures { OnOk result (values.new ≡ with_item values.old (record { kind = item.now.kind; text = item.now.text.now })) }
{
    if values.as_slice().len() < MAX_REPORTS {
        let text = Bytes::from_slice(alloc, item.text)?;
        let kind = item.kind;
        values.push(SdesItem { kind, text })?;
    }
    Ok(())
}

// Reads the items before the zero that ends their list, keeps the first 31, and gives the bytes
// from that zero on, or None where an item is too short or no zero comes.
fn read_items(alloc: Global, bytes: &[u8]) -> Result<Option<(Listed<SdesItem>, &[u8])>, AllocError>
    ensures found { IfOk result (λ r. option_map (λ x. (x.0, x.1.now)) r ≡ first_31 (sdes_items_of bytes.now)) }
    ensures within { IfOk result (λ r. IfSome r (λ x. length x.1.now ≤ length bytes.now)) }
{
    // Most chunks have one item, a name.
    let mut values = Listed::from_vec(Vec::with_capacity(alloc, 1)?);
    let mut rest = bytes;
    for _ in 0..bytes.len() {
        if rest.is_empty() {
            return Ok(None);
        }
        if rest[0] == 0 {
            return Ok(Some((values, rest)));
        }
        let Some(item) = first_item(rest) else {
            return Ok(None);
        };
        keep_item(alloc, &mut values, &item)?;
        rest = item.rest;
    }
    Ok(None)
}

// Reads the chunk at the front, and gives what follows it, or None where the bytes are too short.
#[tactic(auto, unfolding(crate::specs::Descriptions::sdes_at))]
fn read_sdes(alloc: Global, bytes: &[u8]) -> Result<Option<(Sdes, &[u8])>, AllocError>
    ensures { IfOk result (λ r. option_map (λ x. (x.0, x.1.now)) r ≡ sdes_at bytes.now) }
{
    if bytes.len() < 4 {
        return Ok(None);
    }
    let (_, list) = bytes.split_at(4);
    let Some((values, end)) = read_items(alloc, list)? else {
        return Ok(None);
    };
    let zeros = 4 - (bytes.len() - end.len()) % 4;
    if end.len() < zeros {
        return Ok(None);
    }
    let (_, rest) = end.split_at(zeros);
    let ssrc = word(bytes, 0).into();
    Ok(Some((Sdes { ssrc, values }, rest)))
}

#[tactic(auto, unfolding(crate::specs::Descriptions::descriptions_of))]
pub(crate) fn read_descriptions(
    alloc: Global,
    count: u8,
    body: &[u8],
) -> Result<Option<Descriptions>, AllocError>
    ensures { IfOk result (λ r. r ≡ descriptions_of count body.now) }
{
    let mut reports = Listed::from_vec(Vec::with_capacity(alloc, usize::from(count))?);
    let mut rest = body;
    for _ in 0..count {
        match read_sdes(alloc, rest) {
            Ok(Some((sdes, after))) => {
                reports.push(sdes)?;
                rest = after;
            }
            Ok(None) => return Ok(None),
            Err(error) => return Err(error),
        }
    }
    Ok(Some(Descriptions { reports }))
}

impl Put for SdesItem {
    ghost use Rattle.rtcp_wire.specs.Descriptions.{sdes_item_text};

    ghost text_of = { sdes_item_text };

    #[tactic(auto, unfolding(crate::specs::Descriptions::sdes_item_text))]
    fn len(&self) -> usize {
        2 + self.text.len()
    }

    #[tactic(auto, unfolding(crate::specs::Descriptions::sdes_item_text))]
    fn write(&self, out: &mut [u8], at: usize) -> Option<usize> {
        let text = self.text.as_slice();
        let at = put(out, at, &[self.kind.into(), (text.len() % 256) as u8])?;
        put(out, at, text)
    }
}

impl Put for Sdes {
    ghost use Rattle.rtcp_wire.specs.Descriptions.{sdes_text};

    ghost text_of = { sdes_text };

    #[tactic(auto, unfolding(crate::specs::Descriptions::sdes_text))]
    fn len(&self) -> usize {
        let len = 4 + rows_len(self.values.as_slice());
        len + 4 - len % 4
    }

    #[tactic(auto, unfolding(crate::specs::Descriptions::sdes_text))]
    fn write(&self, out: &mut [u8], at: usize) -> Option<usize> {
        let end = put(out, at, &u32::from(self.ssrc).to_be_bytes())?;
        let end = write_rows(self.values.as_slice(), out, end)?;
        let zeros = [0; 4];
        put(out, end, &zeros[..4 - (end - at) % 4])
    }
}

#[tactic(auto, unfolding(crate::specs::Descriptions::descriptions_body))]
pub(crate) fn write_descriptions(descriptions: &Descriptions, out: &mut [u8]) -> Option<usize>
    ensures { Puts out.old 0 (descriptions_body descriptions.now) out.new result }
{
    write_rows(descriptions.reports.as_slice(), out, 0)
}
