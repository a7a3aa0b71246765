//! A network element as a whole, run step by step from a script: forwarding elements and control elements, which are the very types that the
//! commands `element` and `control` run, and all messages that were ever sent between them.
#![tactic(auto)]

mod controllers;
mod faults;
mod laws;
mod lives;
mod naming;
mod nodes;
mod numbers;
mod reporting;
mod sent;
mod setting;
mod stage;
mod stepping;
mod trail;
mod trailing;
mod world;

pub use faults::{Refused, WorldFault};
pub use fc_steps::Step;
pub use laws::messages_stay;
pub use trail::Trail;
pub use world::World;
