//! What a command makes of a plan and the accepted inputs of an input.

ghost use Rattle.std.specs.Prelude.{◌≡◌, ℕ, List, length, IfOk};
ghost use Rattle.series_tables.specs.Plan.{PlanShape};
ghost use Rattle.series_tables.specs.declared.input.Input.{Input};
ghost use Rattle.qna_parts.specs.Making.{HoldsLast};

use qna_base::Memory;
use series_tables::{Plan, Tables};
use std::alloc::Global;

/// What makes a text of a plan and the accepted inputs of an input.
pub trait Make {
    /// The text of a plan and a list of accepted inputs.
    ghost text: { Self → PlanShape → List Input → List ℕ };

    /// The text of the inputs whose last values the tables hold, so many of them.
    fn make(
        &self,
        alloc: Global,
        plan: &Plan,
        tables: &Tables,
        inputs: u64,
    ) -> Result<Vec<u8>, Memory>
        requires { tables.now.items ≡ length plan.now.names }
        ensures { IfOk result (λ made. (given : List Input) → length given ≡ inputs →
            HoldsLast tables.now given → made.items ≡ text self.now plan.now given) };
}
