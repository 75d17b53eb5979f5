// What salvage is: specs/ says it, and proofs/ has the theorems about it.
#![tactic(auto)]

// How much longer than its input the room for the list has to be, as specs/Salvage.antt has it.
pub const LIST_MORE: usize = 16;
