//! Tests of what the program does not show: row memory that is too short or holds garbage, what it holds after a refused call, limits of one's own,
//! numbers that no input reaches, and a series of calls with a watcher. Each test is proved safe, and then run.
//! What lines of input show stands in `examples/`, which `.ci/program` runs.
#![tactic(auto)]

#[cfg(test)]
mod garbage;
#[cfg(test)]
mod made;
#[cfg(test)]
mod memories;
#[cfg(test)]
mod numbers;
#[cfg(test)]
mod own;
#[cfg(test)]
mod recorder;
#[cfg(test)]
mod watched;
