//! Tests of the call that plays scripts, over public calls.
//! They stand in a crate of their own, since a crate that has tests is proved a second time with them.
#![tactic(auto)]

#[cfg(test)]
mod plays;
