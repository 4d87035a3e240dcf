// Motion over the reel: to the next record or mark, and over a count of records or marks.
#![tactic(auto)]

mod seeking;
mod spacing;

pub use seeking::{Sought, seek};
pub use spacing::{Count, Rule, Spaced, Span, Stop, Stuck, Turn, none_left, space};
