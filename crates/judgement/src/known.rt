// What a reading goes by, once it is looked at: "Symbols are those of elements 1 (H) to 103 (Lr)."
ghost use Rattle.std.specs.Prelude.{◌≡◌, ◌≤◌};
ghost use Rattle.std.specs.Option.{MatchOption};
ghost use Rattle.judgement.specs.Lines.{Ruled};

use crate::rules::Rules;

// Rules by which an element is known, and no more than there are.
#[derive(Clone, Copy)]
pub struct Known {
    pub rules: Rules,

    ghost low: { 1 ≤ rules.last },

    ghost high: { rules.last ≤ 103 },
}

impl Known {
    // The rules, where a reading may go by them.
    pub fn of(rules: Rules) -> Option<Known>
        ensures { MatchOption result (Ruled rules → ⊥) (λ k. k.rules ≡ rules) }
    {
        if 1 <= rules.last && rules.last <= Rules::ELEMENTS {
            return Some(Known { rules });
        }
        None
    }
}
