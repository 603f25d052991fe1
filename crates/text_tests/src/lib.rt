//! Tests of the crates that read and write texts: bytes in and out, records, networks, and plans.
#![tactic(auto)]

#[cfg(test)]
mod ended;
#[cfg(test)]
mod networks;
#[cfg(test)]
mod pivots;
#[cfg(test)]
mod plans;
#[cfg(test)]
mod records;
#[cfg(test)]
mod schemes;
#[cfg(test)]
mod streams;
