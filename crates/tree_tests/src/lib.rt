//! Tests of trees of pages, of drafts and of what a commit writes, over the public calls.
//! They stand in a crate of their own, since a crate that has tests is proved a second time with them.
#![tactic(auto)]

#[cfg(test)]
mod drafts;
#[cfg(test)]
mod frames;
#[cfg(test)]
mod texts;
#[cfg(test)]
mod trees;
#[cfg(test)]
mod versions;
#[cfg(test)]
mod walks;
