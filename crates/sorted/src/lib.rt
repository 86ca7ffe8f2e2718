// One line of BONDLIST, STEREOCENTER or STEREOPAIR among the sorted rows that are there: document 01, "Rows". A list is lent as its region of the scratch.
#![tactic(auto)]

mod join; // join.rt: a row put to its place in a sorted list
pub mod keyed; // keyed.rt: lines of bonds, centres and pairs
mod kinds; // kinds.rt: the lists whose rows stand by key
pub mod scratch; // scratch.rt: where each list stands in the scratch
