// Readings and stores of the contents of objects that need no more room.
#![tactic(auto)]

pub mod readings;
pub mod stores;
