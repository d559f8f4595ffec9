//! The tests of sessions: a table of what two of them seal, open and refuse, each call that takes
//! memory having ample memory.
#![tactic(auto)]

#[cfg(test)]
mod arriving;
#[cfg(test)]
mod calls;
#[cfg(test)]
mod carrying;
#[cfg(test)]
mod coming;
#[cfg(test)]
mod ends;
#[cfg(test)]
mod feedback;
#[cfg(test)]
mod leaving;
#[cfg(test)]
mod mapped;
#[cfg(test)]
mod packets;
#[cfg(test)]
mod redundant;
#[cfg(test)]
mod repairs;
#[cfg(test)]
mod reports;
#[cfg(test)]
mod rounds;
#[cfg(test)]
mod sections;
#[cfg(test)]
mod table;
#[cfg(test)]
mod telling;
#[cfg(test)]
mod types;
