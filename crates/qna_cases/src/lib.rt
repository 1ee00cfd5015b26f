//! Worked rows as tables: what the program is given and what it must leave.
//!
//! The values were computed from the definitions, by hand or by a script that shares no code with the program, or come
//! from published worked rows; none was taken from the program. Crates above read them in their tests.
#![tactic(auto)]

mod batch_rows;
mod certificate_rows;
mod hostile_rows;
mod line_rows;
mod plan_rows;
mod trial_rows;
mod verdict_rows;
mod words_rows;

pub use batch_rows::{BatchCase, FOOD_PLAN, batches};
pub use certificate_rows::{CertificateCase, certificates};
pub use hostile_rows::hostile_batches;
pub use line_rows::{LineCase, lines};
pub use plan_rows::{PLAN_STATUS, PlanCase, plans};
pub use trial_rows::trials;
pub use verdict_rows::{CERTIFICATE, VerdictCase, verdicts};
pub use words_rows::{WordsCase, words};
