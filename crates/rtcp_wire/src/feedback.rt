//! Feedback on what was received (RFC 4585 section 6).
ghost use Rattle.std.specs.Prelude.{◌≡◌, IfOk};
ghost use Rattle.rtp_base.specs.Wire.{Puts};
ghost use Rattle.rtcp_wire.specs.Feedback.{app_feedback_of, app_feedback_body};

use crate::row::write_rows;
use media_base::Bytes;
use rtp_base::Ssrc;
use rtp_base::wire::{put, word};
use std::alloc::{AllocError, Global};

/// Feedback of an application (RFC 4585 section 6.4), whose words are its own.
#[derive(Debug, PartialEq, Eq, Drop)]
pub struct AppSpecificFeedback {
    /// Who sends the feedback.
    pub sender_ssrc: Ssrc,
    /// The source that it is about.
    pub media_ssrc: Ssrc,
    /// Whole words of 4 bytes.
    pub payload: Bytes,
}

impl AppSpecificFeedback {
    /// A copy of it.
    pub fn clone(&self, alloc: Global) -> Result<Self, AllocError>
        ensures { IfOk result (λ f. f ≡ self.now) }
    {
        let payload = Bytes::from_slice(alloc, self.payload.as_slice())?;
        Ok(AppSpecificFeedback {
            sender_ssrc: self.sender_ssrc,
            media_ssrc: self.media_ssrc,
            payload,
        })
    }
}

#[tactic(auto, unfolding(crate::specs::Feedback::app_feedback_of))]
pub(crate) fn read_app_feedback(
    alloc: Global,
    body: &[u8],
) -> Result<Option<AppSpecificFeedback>, AllocError>
    ensures { IfOk result (λ f. f ≡ app_feedback_of body.now) }
{
    if body.len() < 8 || body.len() % 4 != 0 {
        return Ok(None);
    }
    let (_, payload) = body.split_at(8);
    Ok(Some(AppSpecificFeedback {
        sender_ssrc: word(body, 0).into(),
        media_ssrc: word(body, 4).into(),
        payload: Bytes::from_slice(alloc, payload)?,
    }))
}

#[tactic(auto, unfolding(crate::specs::Feedback::app_feedback_body))]
pub(crate) fn write_app_feedback(feedback: &AppSpecificFeedback, out: &mut [u8]) -> Option<usize>
    ensures { Puts out.old 0 (app_feedback_body feedback.now) out.new result }
{
    let words: [u32; 2] = [feedback.sender_ssrc.into(), feedback.media_ssrc.into()];
    let at = write_rows(&words, out, 0)?;
    put(out, at, feedback.payload.as_slice())
}
