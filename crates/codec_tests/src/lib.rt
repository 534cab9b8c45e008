//! Tests of what is made of bytes, over the public calls: pages, capabilities, scripts and answers.
//! They stand in a crate of their own, since a crate that has tests is proved a second time with them.
#![tactic(auto)]

#[cfg(test)]
mod capabilities;
#[cfg(test)]
mod pages;
#[cfg(test)]
mod scripts;
