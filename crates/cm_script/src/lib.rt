//! Scripts and reports as CSV: the lines of a script's bytes, and the text of a report.
#![tactic(auto)]

mod arguments;
mod limits;
mod line;
mod number;
mod read;
mod report;
mod rows;
mod stop;
mod text;
mod verb;

pub use limits::{MAX_CALLERS, MAX_SCRIPT_BYTES, MAX_SCRIPT_LINES, MAX_SCRIPT_LISTS};
pub use line::{Line, Script};
pub use number::number_of;
pub use read::read_script;
pub use report::{CallerEnd, How, Report};
pub use stop::{LineCause, ScriptStop};
pub use text::{render, render_map};
pub use verb::Verb;
