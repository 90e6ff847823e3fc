// A word read bit by bit, what the contracts of the set speak with, and the laws; and the walk over a word's set bits. Assumes nothing.
#![tactic(auto)]

pub mod walk;
