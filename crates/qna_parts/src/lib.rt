//! What the commands share: reading a file to its end, taking an input line by line as its bytes come, the lines of the
//! report, and the command that makes a text of a plan and an input.
#![tactic(auto)]

mod command;
mod intake;
mod lines;
mod making;
mod read;
mod status_line;
mod transfer;

pub use command::{carry_out, commands_complete};
pub use intake::{Taken, Untaken, take_input};
pub use making::Make;
pub use read::{Unread, read_all, read_file};
pub use status_line::{
    tell, tell_pair, tell_plan, tell_unread, tell_untaken, tell_usage, tell_word, write_status,
};
