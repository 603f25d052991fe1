//! Tests of fractions, starts, periods, segments, the network for trials, and the checker.
#![tactic(auto)]

#[cfg(test)]
mod checker;
#[cfg(test)]
mod fraction_texts;
#[cfg(test)]
mod fractions;
#[cfg(test)]
mod periods;
#[cfg(test)]
mod segments;
#[cfg(test)]
mod starts;
#[cfg(test)]
mod trials;
