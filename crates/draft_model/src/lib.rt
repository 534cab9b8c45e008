//! What a draft is: trees of pages in blocks, what a draft shows, and what it then stands for.
#![tactic(auto)]

mod laws;

pub use laws::{
    begin_law, feed_access_law, feed_law, flag_law, flush_law, fresh_law, keep_law, level_law,
    mask_law, step_access_law, step_law, write_law,
};
