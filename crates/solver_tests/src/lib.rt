//! Tests of the driver of the solver: small networks with outcomes worked out by hand, and a hundred drawn ones.
#![tactic(auto)]

#[cfg(test)]
mod drawn;
#[cfg(test)]
mod fixtures;
#[cfg(test)]
mod outcomes;
