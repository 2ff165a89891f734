//! Tests of words, documents and the networks that are built of them, each with what is read or refused.
//!
//! They stand in a crate of their own, above what they call, so that nothing is proved a second time with them.
#![tactic(auto)]

#[cfg(test)]
mod documents;
#[cfg(test)]
mod networks;
#[cfg(test)]
mod topologies;
#[cfg(test)]
mod traffic;
#[cfg(test)]
mod words;
