// The key of each known label: its letters, five bits each, the last one lowest.
pub(crate) const TITLE: u64 = 21287301;

pub(crate) const JCAMP_CS: u64 = 10839572595;

pub(crate) const ORIGIN: u64 = 522493230;

pub(crate) const OWNER: u64 = 16496818;

pub(crate) const MOLFORM: u64 = 14474755661;

pub(crate) const ATOMLIST: u64 = 56351925876;

pub(crate) const BONDLIST: u64 = 85299963508;

pub(crate) const CHARGE: u64 = 109103333;

pub(crate) const RADICAL: u64 = 19365399596;

pub(crate) const STEREOCENTER: u64 = 707261042578116786;

pub(crate) const STEREOPAIR: u64 = 690684612314418;

pub(crate) const BLOCK_ID: u64 = 2565975332;

pub(crate) const END: u64 = 5572;

pub(crate) const MAX_XYZ: u64 = 438068026;

pub(crate) const XYZ_FACTOR: u64 = 27275392307698;

pub(crate) const XYZ: u64 = 25402;

// The key of no known label, above every key of twelve letters.
pub(crate) const STRANGE: u64 = 1152921504606846976;

// STEREOMOLECULE alone is longer: the key of its first twelve letters, and, above the strange one, those of its first thirteen and of all fourteen.
pub(crate) const TWELVE_LETTERS: u64 = 707261042924065909;

pub(crate) const THIRTEEN_LETTERS: u64 = 1152921504606846977;

pub(crate) const STEREOMOLECULE: u64 = 1152921504606846978;

// From this key on there are twelve letters.
pub(crate) const FULL: u64 = 36028797018963968;
