// The header that each item begins with (RFC 3550 section 6.4.1).
ghost use Rattle.std.specs.Prelude.{◌≡◌, ◌≤◌, IfSome};
ghost use Rattle.std.specs.Option.{option_map};
ghost use Rattle.rtcp_wire.specs.Frame.{view, frame_at, unpadded};

use rtp_base::{MAX_REPORTS, RTP_VERSION, wire};

// An item in bytes: its count or format, its type, what stands after its header, and what follows
// it.
#[derive(Drop)]
pub struct Frame<'a> {
    pub count: u8,
    pub kind: u8,
    pub body: &'a [u8],
    pub rest: &'a [u8],
}

// The bytes without the padding that their last byte counts.
fn without_padding(body: &[u8]) -> &[u8]
    ensures { result.now ≡ unpadded body.now }
{
    let len = body.len();
    if len == 0 {
        return body;
    }
    let count = usize::from(body[len - 1]);
    if count == 0 || count > len {
        return body;
    }
    let (front, _) = body.split_at(len - count);
    front
}

// The item at the front, or None where there is none of the version that ends within the bytes.
pub fn first_frame(bytes: &[u8]) -> Option<Frame<'_>>
    ensures found { option_map view result ≡ frame_at bytes.now }
    ensures few { IfSome result (λ f. f.count ≤ MAX_REPORTS) }
{
    if bytes.len() < 4 || bytes[0] / 64 != RTP_VERSION {
        return None;
    }
    let len = 4 * usize::from(wire::half(bytes, 2)) + 4;
    if bytes.len() < len {
        return None;
    }
    let (item, rest) = bytes.split_at(len);
    let (_, whole) = item.split_at(4);
    let body = if bytes[0] / 32 % 2 == 1 {
        without_padding(whole)
    } else {
        whole
    };
    Some(Frame {
        count: bytes[0] % 32,
        kind: bytes[1],
        body,
        rest,
    })
}
