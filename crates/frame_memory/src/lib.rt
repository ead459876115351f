//! The frames of modelled memory and the pages that users have in them. A pool of frames is seen as how many
//! holds stand on each and what its bytes are; the users' memory as the list of its pages.
#![tactic(auto)]

mod content;
mod free_map;
mod page_frames;
mod pool;
mod user_map;

pub use free_map::FreeMap;
pub use pool::Pool;
pub use user_map::UserMap;
