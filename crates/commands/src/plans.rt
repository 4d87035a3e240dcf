// What a step is about to do, as a value.
use motions::{Ending, Laid, Moved};
use state::{Refusal, Unit};
use tape::Damage;

// What a call that is answered 0 did.
#[derive(Clone, Copy)]
pub enum Done {
    // A step taken, or taken back, a mount: whether it interrupts.
    Step(bool),
    Idle,
}

// The answers of the calls; a definition in specs/ gives each its number.
pub type Answer = Result<Done, Refusal>;

// Whether an advance tells how it ended.
#[derive(Clone, Copy)]
pub enum How {
    // With a message, if the unit has a buffer for it.
    Told(Result<Ending, Damage>),
    // The class alone.
    Untold(usize),
}

// What an advance comes to, before its plan is made of it: the state that it ends from, whether it interrupts, and how it ends. Every way
// through an advance meets here in one small value, so that the plan is made in one place.
#[derive(Clone, Copy)]
pub struct Course {
    pub unit: Unit,
    pub ie: bool,
    pub how: How,
}

// All that a step is about to store.
#[derive(Clone, Copy)]
pub struct Plan {
    // Kept: `advanced` gives one plan whatever the answer, and the theorems speak of its parts.
    pub answer: Answer,
    pub unit: Unit,
    pub moved: Moved,
    pub laid: Laid,
    // Kept: no `Option` of the message, since the table's `p3_message` and `p5` speak of its words whether it is sent or not.
    pub sends: bool,
    pub message: [u16; 7],
}
