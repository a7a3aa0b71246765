//! Tests of an element that answers queries and is configured, and of a control element, through `run` over hubs in memory: tables of messages with
//! what is sent for each of them, and the report behind them.
#![tactic(auto)]

#[cfg(test)]
mod associations;
#[cfg(test)]
mod claims;
#[cfg(test)]
mod configs;
#[cfg(test)]
mod controlling;
#[cfg(test)]
mod decided;
#[cfg(test)]
mod events;
#[cfg(test)]
mod full;
#[cfg(test)]
mod hub;
#[cfg(test)]
mod lines;
#[cfg(test)]
mod phases;
#[cfg(test)]
mod planned;
#[cfg(test)]
mod queries;
#[cfg(test)]
mod scopes;
#[cfg(test)]
mod serving;
#[cfg(test)]
mod short;
#[cfg(test)]
mod tables;
