//! Steps of the law of every interleaving, worked by hand; and, for each demand that the law rests on, steps that break
//! just that one and make it false. Nothing here runs.
#![tactic(auto)]

mod broken;
mod kept;
mod worked;

pub use broken::{
    a_fill_after_the_flush_is_unsound, a_flush_that_keeps_its_cache_is_unsound,
    a_pin_that_goes_with_its_page_is_unsound, an_unmap_that_does_not_wait_is_unsound,
};
pub use kept::{
    entries_are_of_their_areas, frames_that_two_have_are_not_apart, other_answers_are_not_allowed,
    turns_are_counted, walks_find_what_is_mapped,
};
pub use worked::{worked_answers, worked_caches, worked_frames, worked_steps_are_steps};
