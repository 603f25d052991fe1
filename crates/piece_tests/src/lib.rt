//! Tests of the solver's parts on small pieces, with values worked out by hand.
#![tactic(auto)]

#[cfg(test)]
mod directions;
#[cfg(test)]
mod lists;
#[cfg(test)]
mod pivots;
#[cfg(test)]
mod potentials;
#[cfg(test)]
mod prices;
#[cfg(test)]
mod quasi;
#[cfg(test)]
mod ratios;
#[cfg(test)]
mod samples;
#[cfg(test)]
mod searches;
#[cfg(test)]
mod tables;
