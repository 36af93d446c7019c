// Frames of a blob file: the writer, the scan and the point read.
#![tactic(auto)]

mod blob;
mod cut;
mod growth;
mod header;
pub mod held;
pub mod place;
pub mod reader;
mod refused;
mod said;
pub mod scanner;
pub mod shape;
mod state;
mod steps;
mod tested;
mod widened;
pub mod writer;
