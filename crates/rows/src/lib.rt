// Rows: one reader a row kind, a slice in, its values or the refusal of a wrong shape out. No table here.
#![tactic(auto)]

pub mod atom; // atom.rt: a row of ATOMLIST
pub mod bond; // bond.rt: a row of BONDLIST
pub mod centre; // centre.rt: a row of STEREOCENTER
pub mod pair; // pair.rt: a row of STEREOPAIR
mod parts; // parts.rt: what the rows share
pub mod xyz; // xyz.rt: a row of XYZ
