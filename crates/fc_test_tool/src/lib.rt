//! Tests of the commands of the program, through the call that the program makes: what no table of `fc_test_run` and no row over the built
//! program reaches. Calls fail in turn, input stands at its limit, and messages come in pieces.
#![tactic(auto)]

#[cfg(test)]
mod controlling;
#[cfg(test)]
mod limits;
#[cfg(test)]
mod making;
#[cfg(test)]
mod playing;
#[cfg(test)]
mod running;
#[cfg(test)]
mod serving;
#[cfg(test)]
mod showing;
#[cfg(test)]
mod streams;
