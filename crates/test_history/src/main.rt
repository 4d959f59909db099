//! Worked examples of streams and lines, of histories and of versions, by public calls alone.
//!
//! The rows come on standard input, a section for each subject. The program writes how many there
//! are, and each row that is answered otherwise.
//!
//! - `calls`: questions that stand alone, with `lines`, `text_lines`, `faults`, and all small
//!   histories (`small_histories`, `small_aims`);
//! - `sinks`, `sources`: how often a writer or a reader is called;
//! - `script`: commands that act on a history and a buffer, with `operation_commands`,
//!   `history_commands`, `buffer_commands` and `version_commands`;
//! - `table_script`: commands that act on a site, with `rounds`, `table_commands` and `looking`.
#![tactic(auto)]

mod buffer_commands;
mod calls;
mod faults;
mod history_commands;
mod lines;
mod looking;
mod operation_commands;
mod rounds;
mod script;
mod sinks;
mod small_aims;
mod small_histories;
mod sources;
mod table_commands;
mod table_script;
mod text_lines;
mod version_commands;

use crate::calls::Calls;
use crate::script::Scene;
use crate::sinks::Writer;
use crate::sources::Reader;
use crate::table_script::TableScene;
use gf_streams::{In, Out};
use std::alloc::Global;
use std::process::ExitCode;
use test_kit::{Subjects, answer_sections, ask_rows};

fn main(rt: HostRuntime) -> ExitCode {
    let mut input = In::new(rt.reader());
    let mut output = Out::new(rt.stdout());
    let status = answer_sections(rt.alloc(), &mut input, &mut output, &mut Examples);
    ExitCode::from(status)
}

/// Who answers for each subject. Each section begins with nothing.
#[derive(Drop)]
struct Examples;

impl Subjects for Examples {
    fn ask(&mut self, alloc: Global, subject: &str, rows: &str) -> Option<String> {
        match subject {
            "sinks" => ask_rows(alloc, subject, rows, &mut Writer::new(0, 0, false)),
            "sources" => ask_rows(alloc, subject, rows, &mut Reader::new(0, 0, 0)),
            "operations" | "conflicts" | "histories" | "buffers" | "groups" | "versions" => {
                ask_rows(alloc, subject, rows, &mut Scene::new(alloc))
            }
            "tables" | "aims" | "bounds" | "hidings" | "looks" => {
                ask_rows(alloc, subject, rows, &mut TableScene::new(alloc))
            }
            "text lines"
            | "lines"
            | "refused lines"
            | "written lines"
            | "faults"
            | "small histories" => ask_rows(alloc, subject, rows, &mut Calls),
            _ => None,
        }
    }
}
