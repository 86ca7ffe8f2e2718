// The codes of the known labels, in the order in which document 01, "Lines and labels", and document 02, L2 and L4, list them. A record that is skipped has 0. They are
// numbers, as in `progress::Progress`: public functions answer for any (docs/PROMISES.md).

pub const SKIPPED: u32 = 0;

pub const TITLE: u32 = 1;

pub const VERSION: u32 = 2;

pub const ORIGIN: u32 = 3;

pub const OWNER: u32 = 4;

pub const MOLFORM: u32 = 5;

pub const ATOMLIST: u32 = 6;

pub const BONDLIST: u32 = 7;

pub const CHARGE: u32 = 8;

pub const RADICAL: u32 = 9;

pub const STEREOCENTER: u32 = 10;

pub const STEREOPAIR: u32 = 11;

pub const BLOCK_ID: u32 = 12;

pub const END: u32 = 13;

pub const MAX_XYZ: u32 = 14;

pub const XYZ_FACTOR: u32 = 15;

pub const XYZ: u32 = 16;

pub const STEREOMOLECULE: u32 = 17;
