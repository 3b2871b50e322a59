//! Short uses of a map, to be copied.

pub mod grouped_index;
pub mod leaderboard;
pub mod revenue;
pub mod secondary_index;
pub mod sweep_line;
