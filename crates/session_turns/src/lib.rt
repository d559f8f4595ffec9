//! What a session does at each call of a run is a turn of the plain sessions of `run_model`: a
//! write, a tick with its drain, a datagram that comes, a call of the application; and what it
//! seals and opens is right.
#![tactic(auto)]

mod laws;

pub use laws::{
    calls_are_right, calls_turn, hears_turn, maps_nothing, openings_are_right, opens_turn,
    requests_turn, rtcp_openings_are_right, seals_are_right, ticks_cut, ticks_turn, writes_turn,
};
