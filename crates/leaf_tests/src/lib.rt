//! The tests of numbers, headers, registers, stores and mapped streams: worked values of the
//! standards, and each public call that takes memory once with enough of it. What a clause says is
//! not tested.
#![tactic(auto)]

#[cfg(test)]
mod bytes;
#[cfg(test)]
mod drawn_ssrcs;
#[cfg(test)]
mod mapped_streams;
#[cfg(test)]
mod repairs;
#[cfg(test)]
mod rtp_headers;
#[cfg(test)]
mod rtp_numbers;
#[cfg(test)]
mod stores;
#[cfg(test)]
mod units;
