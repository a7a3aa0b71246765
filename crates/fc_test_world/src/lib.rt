//! Tests of a network element as a whole, and of its elements and control elements: which messages go between them, what they tell and refuse, and how
//! much they take.
#![tactic(auto)]

#[cfg(test)]
mod cases;
#[cfg(test)]
mod copies;
#[cfg(test)]
mod deciding;
#[cfg(test)]
mod elements;
#[cfg(test)]
mod fence;
#[cfg(test)]
mod generated;
#[cfg(test)]
mod greatest;
#[cfg(test)]
mod memory;
#[cfg(test)]
mod messages;
#[cfg(test)]
mod network;
#[cfg(test)]
mod plans;
#[cfg(test)]
mod records;
#[cfg(test)]
mod refused;
#[cfg(test)]
mod said;
#[cfg(test)]
mod steps;
#[cfg(test)]
mod worlds;
