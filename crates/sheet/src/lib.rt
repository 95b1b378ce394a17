// From the bytes of a sheet to its answer: the questions, the run, the reply.
#![tactic(auto)]

pub mod answer;
mod replying;
mod running;
pub mod screen;
