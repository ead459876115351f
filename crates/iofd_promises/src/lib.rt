//! Promises of every run, in words of their own: laws that use as few as they can of the words that they check, and so
//! become false where a definition is altered. Each is the contract of a function that does nothing; nothing here runs.
#![tactic(auto)]

mod access;
mod closed;
mod dirty;
mod isolation;
mod limits;
mod mapping;
mod memory;
mod policy;
mod ranges;
mod unmap;

pub use access::{
    a_pin_adds_just_itself, access_pins_are_whole_pages_and_few, access_pins_of_files_are_apart,
    an_unpin_takes_just_one, areas_lie_under_access_pins,
    frames_of_pinned_pages_are_given_to_nobody, no_access_pin_lies_in_what_an_unmap_took,
    pages_are_pinned_by_what_keeps_them, pages_keep_their_frames_while_pinned,
};
pub use closed::{
    closed_files_have_nothing, closed_files_stay_closed, commands_of_gone_files_are_refused,
};
pub use dirty::{
    a_page_is_marked_only_by_a_write, a_report_clears_just_its_span,
    a_report_tells_the_marked_pages, a_table_is_tracked_since_it_was_turned_on,
    a_write_is_never_lost, tracked_tables_are_there, turning_on_clears,
    what_was_cleared_is_told_once,
};
pub use isolation::{
    given_frames_were_nobodys, new_pins_are_their_users_pages,
    page_tables_have_their_devices_width, tables_are_of_their_page_tables_width,
    user_pages_have_a_row_each,
};
pub use limits::{
    areas_lie_below_2_to_the_64, ids_are_from_1_to_2_to_the_31, rows_are_few,
    user_pages_lie_below_2_to_the_36,
};
pub use mapping::{a_copy_maps_the_same_memory, a_map_maps_what_was_asked};
pub use memory::{
    given_frames_read_zero, held_reads_answer_what_stands_there,
    held_writes_change_just_their_bytes, nothing_else_changes_a_byte,
    passed_writes_change_just_their_bytes, reads_answer_what_stands_there,
    user_writes_change_just_their_bytes,
};
pub use policy::{
    denied_reads_have_no_area, denied_writes_have_no_area, faults_tell_why,
    passed_writes_reach_their_frame, read_bytes_are_of_a_reached_frame,
};
pub use ranges::{
    areas_avoid_what_devices_reserve, areas_lie_below_their_tables_width,
    chosen_addresses_could_be_fixed,
};
pub use unmap::{
    a_flush_pays_its_own_debts, an_unmap_waits_for_who_owes, bytes_are_answered_where_nobody_owes,
};
