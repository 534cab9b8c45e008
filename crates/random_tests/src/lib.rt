//! Random scripts of four clients, played through the top call over small stores. Each play's whole text is compared with that
//! of a plain program, which keeps trees as maps and accesses as sets, and does one line after the other.
//! They stand in a crate of their own, since a crate that has tests is proved a second time with them.
#![tactic(auto)]

#[cfg(test)]
mod plays;
