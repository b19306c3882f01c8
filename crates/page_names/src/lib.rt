//! The names of scripts and pages, and the URLs that spell them: for scripts, admission and requests.
#![tactic(auto)]

mod escapes;
mod hexadecimal;
mod names;
mod parse;
mod placing;
mod write;

pub use names::{PageName, ScriptName, Target};
pub use parse::parse_target;
pub use placing::shelf_for;
pub use write::{url_text, write_url};
