//! Tests of connections and rounds: hubs in memory, hubs that listen and that dial over a network that is played and over the sockets of
//! the machine, and numbers that a file keeps.
#![tactic(auto)]

#[cfg(test)]
mod chance;
#[cfg(test)]
mod dials;
#[cfg(test)]
mod hearing;
#[cfg(test)]
mod hubs;
#[cfg(test)]
mod listens;
#[cfg(test)]
mod patience;
#[cfg(test)]
mod played;
#[cfg(test)]
mod playing;
#[cfg(test)]
mod rounds;
#[cfg(test)]
mod sockets;
#[cfg(test)]
mod wanted;
