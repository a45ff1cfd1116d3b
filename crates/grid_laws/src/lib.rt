//! Laws of grids as public calls: each makes the calls that its name says, and ensures what they leave.
#![tactic(auto)]

pub mod grids;
pub mod least;

pub use grids::{
    apply_then, apply_then_inverse, flip_rows_then_cols, insert_col_or_row_across,
    push_row_then_pop_row, rebuilt, rotate_left_four_times, rotate_right_then_left,
    run_in_either_order,
};
pub use least::{run_deferred_by_least, step_by_least};
