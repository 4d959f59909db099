//! What a service answers.

ghost use Rattle.gf_serve.specs.ReplyTexts.{refusal_words};

use gf_run::{Answer, StudioError};
use gf_status::State;
use gf_studio::NamedRun;
use gf_take_run::{TakeRunError, Taken};
use std::fmt;

/// What a service answers.
#[derive(Drop)]
pub enum Reply {
    /// Operation lines were taken.
    Lines(Arrival),
    /// Operations were made of a FIG text: their lines, and what is told of them.
    Taken(Answer<Taken>),
    /// The named text, and what is told of it.
    Named(Answer<NamedRun>),
    /// The status, and whether something is open.
    Status(Answer<State>),
    /// The request was refused, and nothing changed.
    Refused(Refusal),
}

/// What came with operation lines.
#[derive(Clone, Copy)]
pub struct Arrival {
    /// How many operations came that were not there before.
    pub new: usize,
    /// How many operations wait now.
    pub waiting: usize,
}

/// Why a request was refused, in the words of the command of its name.
#[derive(Debug, Drop)]
pub enum Refusal {
    Run(StudioError),
    Take(TakeRunError),
}

impl fmt::Display for Refusal {
    ghost output = { refusal_words };

    fn fmt<W: fmt::Write>(&self, f: &mut fmt::Formatter<W>) -> fmt::Result {
        match self {
            Refusal::Run(error) => write!(f, "{error}"),
            Refusal::Take(error) => write!(f, "{error}"),
        }
    }
}

impl std::error::Error for Refusal {}
