// What a reading goes by.

// How many elements are known, and whether the formula's totals are tested at END.
#[derive(Clone, Copy)]
pub struct Rules {
    pub last: u32,
    pub totals: bool,
}

impl Rules {
    // "Symbols are those of elements 1 (H) to 103 (Lr)."
    pub const ELEMENTS: u32 = 103;

    // All of them, and the totals tested.
    pub const TODAY: Rules = Rules {
        last: Self::ELEMENTS,
        totals: true,
    };
}
