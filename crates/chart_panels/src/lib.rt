// A panel for each parent with children, as text but for its rows: its title, its ground, the edges of its slots; and how much room the panels take.
#![tactic(auto)]

mod panels;
mod size;

pub use panels::{put_count, put_grid, put_ground, put_parent, put_stripes, put_title};
pub use size::{child_count, panel_height, panels_height, panels_width};
