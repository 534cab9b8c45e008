//! Where the pages of a version lie: definitions and lemmas alone. A tree of pages, each in a block, is reached from the block of its root.
#![tactic(auto)]
