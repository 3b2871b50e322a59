//! Lists of commands on a tree, and lines of text on a tree of numbers.

pub use bptree_commands::commands::{Command, CommandOn, Reply, ReplyOf, run};
pub use bptree_commands::error::{ServeError, exit_status};
pub use bptree_commands::session::{parts_are_lines, serve};
pub use bptree_commands::walk::End;
