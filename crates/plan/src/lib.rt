// What the instructions share: what passes between the stages of a step, the event that one ends with early, the place of its operand,
// where its result goes, and the stack.
#![tactic(auto, unfolding(crate::specs::Kinds::immediate_of, crate::specs::Places::returning, crate::specs::Places::spot_of, crate::specs::Results::into_r, crate::specs::Results::into_m, crate::specs::Results::into_hl, crate::specs::Stack::pushed, crate::specs::Stack::popped))]

pub mod early;
pub mod kinds;
pub mod places;
pub mod results;
pub mod stack;
