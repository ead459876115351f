//! Worked records of the definitions: scripts and tables of records with what each must come out as, worked by hand
//! from the rules, and shown by computing. Each is the contract of a function that does nothing; nothing here runs.
#![tactic(auto)]

mod accesses;
mod choices;
mod debt_script;
mod dirty;
mod first_script;
mod leaving;
mod limits;
mod pins;
mod ranges;
mod ready_world;
mod refusals;
mod second_script;
mod tables;
mod unmaps;

pub use accesses::{
    access_objects_are_refused, access_records_are_lawful, access_script_is_a_run,
    access_script_leaves_its_worlds,
};
pub use choices::{
    choices_are_free, refused_records_change_nothing, tables_give_frames_back,
    tables_take_free_frames, unmaps_answer_bytes_or_wait,
};
pub use debt_script::{debt_script_is_a_run, debt_script_leaves_its_worlds, debt_script_reads};
pub use dirty::{
    dirty_commands_are_refused, dirty_script_is_a_run, dirty_script_leaves_its_worlds,
    other_dirty_records_are_unlawful, written_pages_are_told,
};
pub use first_script::{
    altered_scripts_are_no_runs, lower_tables_may_go_first, owed_flush_leaves_both_answers,
    worked_script_is_a_run, worked_script_reads,
};
pub use leaving::{first_page_tables_wait_for_leaving_areas, page_tables_are_made_or_wait};
pub use limits::{
    areas_have_a_limit, numbers_are_those_of_the_standards, objects_have_a_limit,
    settings_have_limits,
};
pub use pins::{
    held_accesses_are_refused, pin_records_are_lawful, pin_script_is_a_run,
    pin_script_leaves_its_worlds, pins_are_read_and_noticed, pins_are_refused, pins_have_a_limit,
};
pub use ranges::{
    addresses_are_chosen_in_the_list, every_address_is_named,
    least_address_lies_behind_what_is_kept, usable_ranges_are_merged,
};
pub use ready_world::{ready_world_is_left, ready_world_is_reached};
pub use refusals::{
    accesses_are_refused, allowed_ranges_are_refused, attachments_are_refused, copies_are_refused,
    detachments_are_refused, device_writes_are_refused, maps_are_refused, objects_are_refused,
    page_tables_are_refused, unmaps_are_refused,
};
pub use second_script::{
    second_script_has_usable_ranges, second_script_is_a_run, second_script_leaves_its_worlds,
    second_script_reads, second_script_writes,
};
pub use tables::{
    table_script_is_a_run, table_script_leaves_its_worlds, tables_end_at_their_borders,
    tables_move_with_their_pages,
};
pub use unmaps::{other_answers_are_unlawful, unmaps_are_counted, unmaps_of_two_areas_are_counted};
