//! Tests of drafts in frames beside drafts in memory, over the public calls.
#![tactic(auto)]

#[cfg(test)]
mod chance;
#[cfg(test)]
mod greatest;
#[cfg(test)]
mod kinds;
#[cfg(test)]
mod tables;
#[cfg(test)]
mod texts;
