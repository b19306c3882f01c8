//! The table of forms, which makes a script of data: for the reader of setups.
#![tactic(auto)]

mod cell_names;
mod defined;
mod definitions;
mod faults;
mod filled_items;
mod forms;
mod heads;
mod layout;
mod names;
mod nodes;
mod read;
mod rows;
mod shapes;
mod task_forms;
mod templates;
mod tree;

pub use faults::{ExpandFault, SyntaxError, SyntaxKind};
pub use forms::expand;
