//! That a run follows the order of play: which lines are left, whole lines, and what a run keeps as
//! it goes through the words. Functions that run nothing have its laws as their contracts.
#![tactic(auto)]

mod order_laws;

pub use order_laws::{
    clients_finish, entries_append, entries_are_counted, lines_are_whole, lines_go_on,
    orders_append, orders_are_left, plays_end, plays_go_on,
};
