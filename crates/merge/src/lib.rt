// The merge of up to sixteen parts of one image, and the drain before a relocation.
#![tactic(auto)]

pub mod drain;
pub mod heads;
pub mod next;
pub mod order;
pub mod parts;
mod pass;
pub mod refusals;
pub mod rows;
mod table;
mod tournament;
