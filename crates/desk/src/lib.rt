//! A desk is what the program works at: the one open sheet, the memory that it lies in, and the limits in force for it. Here is what each command does with it,
//! and what is written of it.
#![tactic(auto)]

mod call;
pub mod desk;
mod view;

pub use desk::Desk;
