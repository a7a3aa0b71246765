// Tests of plans as documents: what is told of a good one, and documents at their limits.
mod documents;
mod limits;
mod telling;
