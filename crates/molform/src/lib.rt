// The refusal of MOLFORM's value: document 01, "Rows", MOLFORM; "Refusal numbers".
#![tactic(auto)]

ghost use Rattle.std.specs.Prelude.{◌≡◌, [], ◌∷◌};
ghost use Rattle.format.specs.Formula.{finish, formula_shape};
ghost use Rattle.formula.specs.Machine.{state_shown, entry_shown, Sized};
ghost use Rattle.molform.specs.Verdicts.{lowest, entries_verdict, formula_verdict, refusal_with};
ghost use Rattle.molform.specs.Passes.{Carried, Leads};

use elements::{isotope_of, mass_fits};
use format::refusal::Refusal;
use formula::entry::{Entry, quick_entry};
use formula::{State, formula_end, formula_step};
use std::cmp;

// The machine's state, and the lowest refusal of the entries told so far.
#[derive(Clone, Copy, Debug, PartialEq, Eq)]
pub struct Pass {
    pub state: State,
    pub held: Result<(), Refusal>,
}

// How far the quick entries from the value's start reach: their lowest refusal, whether the fragment has an entry there, and the place behind them.
#[derive(Clone, Copy, Debug, PartialEq, Eq)]
pub struct Lead {
    pub held: Result<(), Refusal>,
    pub begun: bool,
    pub at: usize,
}

// The lower of two refusals.
fn lower_refusal(one: Result<(), Refusal>, other: Result<(), Refusal>) -> Result<(), Refusal>
    ensures { result ≡ lowest one other }
{
    let Err(first) = one else {
        return other;
    };
    let Err(second) = other else {
        return one;
    };
    Err(cmp::min_by_key(first, second, |refusal| refusal.number()))
}

// What is wrong with an entry: 10, "number outside its range", 12, "unknown symbol", or nothing: "a symbol and an optional count 1 to 9,999".
fn entry_verdict(entry: Entry, last: u32) -> Result<(), Refusal>
    ensures { result ≡ entries_verdict last (entry_shown entry ∷ []) }
{
    if !mass_fits(entry.mark) || !matches!(entry.count, 1..=9999) {
        return Err(Refusal::Range);
    }
    if isotope_of(entry.mark, last).element == 0 {
        return Err(Refusal::Symbol);
    }
    Ok(())
}

// One byte more of the value.
fn judged_step(pass: Pass, byte: u8, last: u32) -> Pass
    ensures { Sized pass.state → Carried (refusal_with last) pass byte result }
{
    let step = formula_step(pass.state, byte);
    let held = match step.told {
        Some(entry) => lower_refusal(pass.held, entry_verdict(entry, last)),
        None => pass.held,
    };
    Pass {
        state: step.state,
        held,
    }
}

// The refusal at the value's end: 9 where it has no shape.
fn judged_end(pass: Pass, last: u32) -> Result<(), Refusal>
    ensures { result ≡ refusal_with last pass.held (finish (state_shown pass.state)) }
{
    match formula_end(pass.state) {
        Some(Some(entry)) => lower_refusal(pass.held, entry_verdict(entry, last)),
        Some(None) => pass.held,
        None => lower_refusal(pass.held, Err(Refusal::Shape)),
    }
}

// The entries that a value starts with, as far as they are quick ones: they are judged with no machine's state, which is passed on in memory at each byte.
fn judged_lead(value: &[u8], last: u32) -> Lead
    ensures { Leads (refusal_with last) value.now result }
{
    let mut lead = Lead {
        held: Ok(()),
        begun: false,
        at: 0,
    };
    while let Some(quick) = quick_entry(value, lead.at) {
        lead = Lead {
            held: lower_refusal(lead.held, entry_verdict(quick.entry, last)),
            begun: true,
            at: quick.next,
        };
    }
    lead
}

// The refusal of MOLFORM's value: 9, "row of the wrong shape", 10, "number outside its range", 12, "unknown symbol", or none.
pub fn formula_verdict(value: &[u8], last: u32) -> Result<(), Refusal>
    ensures { result ≡ formula_verdict last (formula_shape value.now) }
{
    let lead = judged_lead(value, last);
    let mut pass = Pass {
        state: State::Between(lead.begun),
        held: lead.held,
    };
    for byte in &value[lead.at..] {
        pass = judged_step(pass, *byte, last);
    }
    judged_end(pass, last)
}
