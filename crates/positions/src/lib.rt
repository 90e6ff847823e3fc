// No code: plain sets of positions, what the other crates' contracts speak with, and their laws. Assumes nothing.
#![tactic(auto)]
