// Declarations of Matter IDL: each module reads one kind of declaration, counts its records and writes them. A reader has the Rust's name; the first
// pass over a declaration is `count_X`, the second `write_X`, and both call the same readers.
//
// What is done for speed beside what lexing names (its lib.rt); no answer changes by it (docs/PERFORMANCE.md):
//
// Order of fields: the two offsets of a name are not side by side in the parts of a declaration, since they would be copied as one value, which
// waits for two stores.
// Read in place: where a reader is called at two places and is too long to be copied, one of the two takes its steps one by one, and the compiler
// copies the reader at the other.
// Told by a letter: most tries are told apart by a first letter, so one is selected and no other is run.
#![tactic(auto)]

mod annotations;
mod attributes;
mod choices;
mod clusters;
mod commands;
pub mod counts;
mod defaults;
mod endpoints;
mod entries;
mod events;
mod fields;
mod instances;
pub mod items;
pub mod layout;
mod levels;
mod maturity;
mod member_kinds;
mod members;
pub mod records;
mod runs;
mod structs;
pub mod writing;
