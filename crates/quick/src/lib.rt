// Quick rows of ATOMLIST, BONDLIST and XYZ: rows as programs write them, read in one pass from their line's first byte on, with no look for the line's end, its bytes or a
// comment before. What is not such a row is answered None and refused nowhere here: the ordinary step judges its line.
#![tactic(auto)]

pub mod atom; // atom.rt: a row of ATOMLIST
pub mod bond; // bond.rt: a row of BONDLIST
mod parts; // parts.rt: what they share
pub mod xyz; // xyz.rt: a row of XYZ
