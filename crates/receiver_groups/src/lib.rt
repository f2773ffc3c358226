//! The named groups of receivers of a script, in the order in which they were written.
//!
//! A group is found by its name, in a map that keeps that order, and from then on known by its
//! place. No call names the map.
#![tactic(auto)]

mod groups;

pub use groups::Groups;
