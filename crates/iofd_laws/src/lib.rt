//! Laws of the definitions: what is true of every run, whatever server makes it. Each is the contract of a function
//! that does nothing; nothing here runs.
#![tactic(auto)]

mod every_run;

pub use every_run::{
    areas_are_of_the_files_user, areas_are_usable, areas_never_overlap, areas_stand_by_start,
    debtors_are_attached, devices_are_bound_once, every_access_has_an_answer,
    every_event_has_an_answer, every_held_read_has_an_answer, files_are_apart, ids_are_unique,
    limits_are_kept, memory_of_files_is_apart, objects_stand_by_file_and_id,
    only_free_frames_are_given_out, page_tables_have_what_they_need,
    pins_are_those_of_pinned_pages, pins_keep_their_frames, refusals_for_frames_are_due,
    refusals_for_the_account_are_due, rows_fit, shared_pages_outlive_an_unmap,
    tables_have_own_frames, tables_of_files_are_apart, user_pages_have_own_frames,
};
