// The reader of Matter IDL: a text becomes a catalogue of records, and its survey reads every section alone.
#![tactic(auto)]

mod bits;
mod filter;
mod hoisting;
pub mod interface;
mod reading;
mod results;
mod sections;
mod survey;
mod text;
