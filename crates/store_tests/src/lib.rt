//! The tests of the two forms of each store: that both registers answer alike, what a queue of sent
//! packets keeps, what a cache answers, and what is sent again from either.
#![tactic(auto)]

#[cfg(test)]
mod packets;
#[cfg(test)]
mod queues;
#[cfg(test)]
mod registers;
#[cfg(test)]
mod resending;
#[cfg(test)]
mod resends;
