// The fragmentation map: what was dropped of each blob file, and what is judged by it.
#![tactic(auto)]

pub mod batch;
pub mod dropped;
mod ids;
mod lent;
pub mod map;
pub mod merged;
pub mod pruned;
pub mod ratio;
pub mod record;
pub mod stored;
pub mod verdict;
