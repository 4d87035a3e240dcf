// The commands carried out, and how an end is told: state, message, interrupt.
#![tactic(auto)]

mod carried;
mod ends;
mod plans;

pub use carried::carry_out;
pub use ends::{plan_of, still_plan, told_course};
pub use plans::{Answer, Course, Done, How, Plan};
