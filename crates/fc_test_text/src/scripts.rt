// Tests of scripts as documents: what each text of a step says, what is told of good ones, and scripts at their limits.
mod documents;
mod limits;
mod networks;
mod steps;
mod telling;
mod texts;
