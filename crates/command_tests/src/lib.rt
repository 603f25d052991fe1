//! Tests of the commands, each by its words, its input, its status and its text.
#![tactic(auto)]

#[cfg(test)]
mod check;
#[cfg(test)]
mod demo;
#[cfg(test)]
mod expand;
#[cfg(test)]
mod fixtures;
#[cfg(test)]
mod overflows;
#[cfg(test)]
mod solve;
#[cfg(test)]
mod streams;
#[cfg(test)]
mod workers;
