//! Callers of library crates, each in a file of its own: what a user writes, and what a contract
//! may say of it.
#![tactic(auto)]

pub mod answer_a_nack;
pub mod build_a_script;
pub mod check_a_setup;
pub mod copy_bytes;
pub mod count_a_queue;
pub mod count_comparisons;
pub mod exchange_a_packet;
pub mod keep_for_resending;
pub mod keep_in_a_queue;
pub mod look_into_a_queue;
pub mod map_a_datagram;
pub mod measure_a_trip;
pub mod pace_packets;
pub mod place_a_block;
pub mod put_into_order;
pub mod queue_a_packet;
pub mod read_a_header;
pub mod read_a_pace_script;
pub mod read_a_script;
pub mod read_rtcp;
pub mod register_by_mask;
pub mod register_numbers;
pub mod report_arrivals;
pub mod script_parts;
pub mod seal_and_open;
pub mod send_again;
pub mod tell_a_run;
pub mod time_a_packet;
pub mod widen_a_number;
