//! The first fault of items that are read one after the other, as the rows of a file or the
//! statements of a text.
//!
//! A grammar has the checks of an item, which are sentences on the item and on what the items
//! before it gave, and what is given with it. So items have an outcome: the first of them at
//! fault, counted from 1, with the cause of its first check that fails, else the fault of the
//! end, else the value of what they give. The definitions and the law are here, and the steps of
//! a reader's loop are in `proofs`; there is no code.
#![tactic(auto)]

ghost use Rattle.std.specs.Prelude.{◌≡◌, ℕ, List, Result};
ghost use Rattle.first_fault.specs.Outcome.{Grammar, IsOutcome};

/// Items have an outcome, and only one: never two faults, two causes of one fault, two values, or
/// a fault and a value.
pub fn items_have_one_outcome<Item, Given, Value, Cause>()
    ensures some { (grammar : Grammar Item Given Value Cause) (items : List Item)
        → (outcome : Result Value (ℕ × Cause)) × IsOutcome grammar items outcome }
    ensures one { (grammar : Grammar Item Given Value Cause) (items : List Item)
        (outcome other : Result Value (ℕ × Cause)) → IsOutcome grammar items outcome
        → IsOutcome grammar items other → outcome ≡ other }
{}
