// The rows of a panel as text: one for each child, one for the idle slots, and the numbers of the slots.
#![tactic(auto)]

mod rows;
mod scale;

pub use rows::{put_axis, put_idle, put_link};
pub use scale::{slot_width, spacing_of, span_of};
