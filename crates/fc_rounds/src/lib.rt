//! Laws of a whole network element, at every moment of every script: it goes as the network of the protocol goes, so its elements agree on every
//! transaction, whatever is lost, repeated or reordered, and whoever comes and goes; the promise of a world that was played; and the law of the clean
//! round: where a transaction may begin at elements that are idle for it, and nothing is lost and nothing goes wrong, it is completed at every
//! participant.
#![tactic(auto)]

mod clean;
mod laws;
mod promise;

pub use clean::clean_rounds_complete;
pub use laws::{networks_follow_the_protocol, networks_keep_the_promise};
pub use promise::headline;
