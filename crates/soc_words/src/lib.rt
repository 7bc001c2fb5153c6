//! Definitions that the contracts of several crates share: words, counts of faults, texts and links.
#![tactic(auto)]
