//! The rows of implicit path enumeration (Li and Malik) of a plan, which the counts of each driven path meet, and
//! the box of the caps of its edges.
#![tactic(auto)]

mod building;
mod caps;
mod factors;
mod law;
mod sound;

pub use caps::caps_box;
pub use law::{
    caps_leave_room, driven_paths_are_counted, kept_paths_are_counted, one_optimum,
    path_counts_meet_rows, worked_rows,
};
pub use sound::{SoundRow, SoundRows, rows};
