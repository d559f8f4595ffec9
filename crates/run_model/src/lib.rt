//! What a run of two sessions is, on plain records: events as they are read, streams, turns, and
//! what is read off a list of events.
#![tactic(auto)]
