ghost use Rattle.std.specs.Prelude.{◌≡◌};
ghost use Rattle.media_play.specs.Requests.{call_for};

use media_model::Call;
use media_units::Bitrate;
use rtp_base::KeyframeRequestKind;

/// What an application asks of the sender of a stream.
#[derive(Clone, Copy, Debug, PartialEq, Eq)]
pub enum Request {
    /// A key frame.
    Keyframe(KeyframeRequestKind),
    /// To send at this rate at most.
    Rate(Bitrate),
}

impl Request {
    /// The call that makes it.
    pub fn call(&self) -> Call
        ensures { result ≡ call_for self.now }
    {
        match self {
            Request::Keyframe(_) => Call::Ask,
            Request::Rate(_) => Call::Remb,
        }
    }
}
