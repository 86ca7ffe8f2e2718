// The geometry of a block as its lines come, in the scratch's region of nine numbers: document 02, L2 ("Read MAX_XYZ, XYZ_FACTOR and XYZ after the core"). Nothing is
// known here of the other records; a region of another length is never touched.
#![tactic(auto)]

pub mod latest; // latest.rt: the latest row in the store of rows
pub mod line; // line.rt: a line of one of the three records
mod put; // put.rt: one row more in the region
pub mod run; // run.rt: quick rows of XYZ one behind the other
pub mod sizes; // sizes.rt: the largest size against MAX_XYZ
