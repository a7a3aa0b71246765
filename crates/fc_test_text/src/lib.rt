//! Tests of texts and documents: the formats, the model, and the documents of libraries, plans and scripts.
#![tactic(auto)]

#[cfg(test)]
mod format;
#[cfg(test)]
mod libraries;
#[cfg(test)]
mod model;
#[cfg(test)]
mod plans;
#[cfg(test)]
mod scripts;
