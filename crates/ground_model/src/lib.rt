//! What the clients of a run share between two turns, what each has of its own, and what a crash
//! may leave of a run; and that the turns of one client leave the others theirs. Definitions, and
//! their laws as contracts of functions that run nothing.
#![tactic(auto)]

mod bound_laws;
mod deciding_laws;
mod laws;
mod line_laws;
mod link_laws;
mod opening_laws;
mod page_laws;
mod rolling_laws;
mod several_laws;
mod walk_laws;

pub use bound_laws::{bounds_are_small, turns_are_bounded};
pub use deciding_laws::{several_are_answered, several_are_based, several_are_decided};
pub use laws::{
    answered_link_stands, causes_are, commit_links, commits_are_noted, drafts_go_on, end_is_noted,
    flushes_go_on, free_is_counted, heads_tell, held_write_leads, left_is_kept, line_step_leads,
    lines_are_noted, link_leads, link_turn_stands, maps_are_fixed, merges_go_on, opened_begins,
    opened_is_fitting, quiet_turn_stands, seals_stay, stops_recover, table_tells, turn_stands,
    turns_recover, walks_go_on, write_turn_stands,
};
pub use line_laws::{
    answer_ends, commits_are_decided, empty_commit_is_noted, held_write_stops, line_turn_stands,
    maps_step, moment_is_past, need_is_told, no_links_are_set, notes_go_on, read_turn_stands,
    stands_stops, writes_are_told,
};
pub use link_laws::{commits_name_versions, links_are_in_doubt, links_are_tested};
pub use opening_laws::{
    bases_begin, bases_stay, super_is_noted, super_is_opened, super_turns_stand,
};
pub use page_laws::blocks_show_pages;
pub use rolling_laws::{
    all_are_left, links_are_left, links_roll, rolling_stops, rolling_turns_stand, rolls_come_to,
};
pub use several_laws::{
    answered_top_stands, commit_links_several, files_are_written, flushes_stay_beside,
    held_blocks_stay, links_stay, several_are_counted, several_are_in_doubt, several_are_tested,
    several_are_told, several_turn_stands,
};
pub use walk_laws::{versions_are_ahead, walks_are_left, walks_stay, walks_take_turns};
