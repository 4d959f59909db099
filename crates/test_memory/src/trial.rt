//! The marks around the call of a trial, and what came of it.

use std::io::Write;
use std::rt::Stderr;

/// Where the call of a trial begins and ends is marked: on standard error, or nowhere.
#[derive(Drop)]
pub(crate) struct Marks {
    errors: Option<Stderr>,
}

impl Marks {
    /// Marks on standard error.
    pub(crate) fn on(errors: Stderr) -> Marks {
        Marks {
            errors: Some(errors),
        }
    }

    /// Marks nowhere.
    pub(crate) fn none() -> Marks {
        Marks { errors: None }
    }

    /// The next step is the call.
    pub(crate) fn begin(&mut self) {
        self.mark(b"begin\n");
    }

    /// The call was the last step.
    pub(crate) fn end(&mut self) {
        self.mark(b"end\n");
    }

    /// A mark is one write, which takes no memory. One that fails is not tried again.
    fn mark(&mut self, text: &[u8]) {
        if let Some(errors) = &mut self.errors {
            let _ = errors.write(text);
        }
    }
}

/// What came of a trial.
#[derive(Clone, Copy)]
pub(crate) enum Came {
    /// The call answered as its worked example does.
    Right,
    /// The call wanted memory, left all as it was, and then answered as its worked example does.
    RightAfterMemory,
    /// The tape wanted memory and has a prefix of the text. The call then answered as its worked
    /// example does.
    RightAfterWrite,
    /// Memory was refused before the call.
    TooEarly,
    /// The call answered otherwise.
    Wrong,
    /// The call wanted memory, and something is not as it was.
    Changed,
    /// The call wanted memory, and then answered otherwise.
    WrongAfter,
}

impl Came {
    /// A call that was not refused, and whether its answer is that of the worked example.
    pub(crate) fn first(is_right: bool) -> Came {
        if is_right { Came::Right } else { Came::Wrong }
    }

    /// A call that wanted memory: whether all is as it was, and whether the next answer is right.
    pub(crate) fn after_memory(is_kept: bool, is_right: bool) -> Came {
        Came::after(Came::RightAfterMemory, is_kept, is_right)
    }

    /// A call whose tape wanted memory: whether it holds a prefix of the text, and the next answer
    /// is right.
    pub(crate) fn after_write(is_front: bool, is_right: bool) -> Came {
        Came::after(Came::RightAfterWrite, is_front, is_right)
    }

    fn after(came: Came, is_kept: bool, is_right: bool) -> Came {
        if !is_kept {
            Came::Changed
        } else if is_right {
            came
        } else {
            Came::WrongAfter
        }
    }

    /// Whether the trial shows no fault.
    pub(crate) fn is_right(self) -> bool {
        match self {
            Came::Right | Came::RightAfterMemory | Came::RightAfterWrite => true,
            Came::TooEarly | Came::Wrong | Came::Changed | Came::WrongAfter => false,
        }
    }

    /// What is printed of a trial.
    pub(crate) fn text(self) -> &'static str {
        match self {
            Came::Right => "right",
            Came::RightAfterMemory => "OutOfMemory, then right",
            Came::RightAfterWrite => "WriteFailed, then right",
            Came::TooEarly => "wrong: no memory before the call",
            Came::Wrong => "wrong: another answer",
            Came::Changed => "wrong: want of memory changed something",
            Came::WrongAfter => "wrong: another answer after want of memory",
        }
    }
}
