// Numbers in bytes.
#![tactic(auto)]

pub mod bytes;
pub mod cut;
pub mod handle;
pub mod leb128;
mod number;
mod spell;
pub mod wide;

pub use number::{get, put};
