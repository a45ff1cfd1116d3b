//! What a new user writes first, each function proved without a proof file.
mod boards;
mod lines;
mod paths;
mod positions;

pub use boards::{block_has, framed, from_middle};
pub use lines::{after_steps, clear_of, highest, landing, widest_row};
pub use paths::{cost_of, largest_near, path_top};
pub use positions::{falls, high, knight_moves, near_sum, sides_at, top_of, top_on_way};
