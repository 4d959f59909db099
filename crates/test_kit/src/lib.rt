//! What the worked examples share: points and colours, operations and how tables write them, and
//! the readers of tables and of sections. The red box stands here as a line and as FIG text.
#![tactic(auto)]

pub mod notation;
mod operations;
mod sections;
mod tables;
mod texts;
mod values;

pub use operations::{changed, create, created, plain};
pub use sections::{Subjects, answer_sections, ask_rows};
pub use tables::{Answers, ask, is_answer, prints};
pub use texts::{EMPTY_FIG, RED_BOX, RED_BOX_FIG};
pub use values::{BLUE, GREEN, RED, at};
