//! Lines of a stream that comes in any pieces, the fields of a line, and the number or the name in a field.
#![tactic(auto)]

mod cutting;
mod names;
mod numbers;
mod reading;
mod row;

pub use cutting::{LONGEST, Line, Lines, is_passed_over};
pub use names::is_name;
pub use numbers::read_number;
pub use reading::{LineFault, fields, plain_text_is_its_parts};
pub use row::Fields;
