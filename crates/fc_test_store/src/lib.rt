//! Tests of an element's configuration and what changes it: undo lists, key indexes and the spots of a library; tables of operations on a configuration,
//! and full tables that go back; the execution of Configs at their limits; and many events at once.
#![tactic(auto)]

#[cfg(test)]
mod arrays;
#[cfg(test)]
mod causes;
#[cfg(test)]
mod exec;
#[cfg(test)]
mod finds;
#[cfg(test)]
mod full;
#[cfg(test)]
mod keys;
#[cfg(test)]
mod library;
#[cfg(test)]
mod many;
#[cfg(test)]
mod rounds;
#[cfg(test)]
mod spots;
#[cfg(test)]
mod tables;
#[cfg(test)]
mod trial;
#[cfg(test)]
mod undo;
#[cfg(test)]
mod words;
#[cfg(test)]
mod worked;
