//! Histories, as laws.

ghost use Rattle.std.specs.Prelude.{◌++◌, ◌∷◌, [], List};
ghost use Rattle.accounts_history.specs.History.{IsLawful, MayFollow};
ghost use Rattle.accounts_history.specs.Laws.{IsWithinBounds};
ghost use Rattle.accounts_history.specs.declared.entry.Entry.{Entry};
ghost use Rattle.series_tables.specs.Plan.{PlanShape};

/// Law: a history without entries is lawful.
pub fn empty_histories_are_lawful()
    ensures { (plan : PlanShape) → IsLawful plan [] }
{}

/// Law: a lawful history with one entry more that may follow it is lawful.
pub fn lawful_histories_grow()
    ensures { (plan : PlanShape) (history : List Entry) (entry : Entry) →
        IsLawful plan history → MayFollow plan history entry →
        IsLawful plan (history ++ entry ∷ []) }
{}

/// Law: what a lawful history begins with is lawful.
pub fn beginnings_are_lawful()
    ensures { (plan : PlanShape) (before after : List Entry) →
        IsLawful plan (before ++ after) → IsLawful plan before }
{}

/// Law: in a lawful history each input fits the plan, there are at most 262,144 of them, the front is at most their
/// number and at most 1,024 below it, and there are at most as many entries as the two come to.
pub fn lawful_histories_are_within_bounds()
    ensures { (plan : PlanShape) (history : List Entry) →
        IsLawful plan history → IsWithinBounds plan history }
{}
