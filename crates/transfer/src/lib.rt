// A transfer file of many blocks: the walk from piece to piece, and the name to show for a block. Lends only, writes nothing.
#![tactic(auto)]

mod ends; // ends.rt: where a text, a block or a stray run ends
pub mod names;
mod skips; // skips.rt: lines that cannot matter are passed over
pub mod walks;
