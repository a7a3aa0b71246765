// Tests of the model: declared types and libraries, the values of the widest, and modes.
mod kinds;
mod modes;
mod places;
mod ports;
mod types;
mod widest;
