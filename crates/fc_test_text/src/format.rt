// Tests of the formats: identifiers and ends, TLVs, selects, messages and the texts of bodies.
mod bodies;
mod ends;
mod faults;
mod identifiers;
mod items;
mod kinds;
mod limits;
mod lists;
mod long_selects;
mod messages;
mod path_data;
mod selects;
mod splitter;
