//! What an element that goes by its fence has settled, what it works on, and what it holds, over every list of Configs.
#![tactic(auto)]

mod laws;

pub use laws::an_element_folds;
