//! The rates of a pacer, from an estimate of the bandwidth.
ghost use Rattle.std.specs.Prelude.{◌≡◌};
ghost use Rattle.pace_units.specs.Control.{padding_rate, pacing_rate};

use media_units::Bitrate;

/// The rate of padding that is kept up while media is sent, in bits a second: a choice.
pub const PADDING_TARGET: u64 = 50_000;

/// At how many tenths of the estimate packets are let out: a choice.
pub const PACING_TENTHS: u64 = 11;

/// The rates that a pacer is set to.
#[derive(Clone, Copy, Debug)]
pub struct PacingResult {
    /// The rate at which padding is sent where no media waits.
    pub padding_rate: Bitrate,
    /// The rate at which packets are let out.
    pub pacing_rate: Bitrate,
}

/// The rule that gives the rates.
#[derive(Clone, Copy, Debug, Default)]
pub struct PacerControl {}

impl PacerControl {
    /// The rule.
    pub fn new() -> Self {
        PacerControl {}
    }

    /// The rates for an estimate. Padding is sent while media is active and the link is not
    /// overused: at 50,000 bits a second or at the least rate that was asked for, but not above the
    /// estimate. Packets are let out at eleven tenths of the estimate, rounded down, or at the rate
    /// of padding.
    pub fn calculate(
        &self,
        has_active_media: bool,
        estimate: Bitrate,
        is_overuse: bool,
        minimum: Bitrate,
    ) -> PacingResult
        ensures padding { result.padding_rate ≡ padding_rate has_active_media estimate is_overuse minimum }
        ensures pacing { result.pacing_rate ≡ pacing_rate estimate result.padding_rate }
    {
        let padding_rate = if has_active_media && !is_overuse {
            let target = Bitrate::bps(minimum.as_u64().max(PADDING_TARGET));
            if estimate < target { estimate } else { target }
        } else {
            Bitrate::bps(0)
        };
        let factored = Bitrate::bps(estimate.as_u64() * PACING_TENTHS / 10);
        let pacing_rate = if factored < padding_rate {
            padding_rate
        } else {
            factored
        };
        PacingResult {
            padding_rate,
            pacing_rate,
        }
    }
}
