//! The fault of a FIG text, and where it stands.

use gf_fig_tokens::FigFault;
use thiserror::Error;

/// The first fault of a FIG text and its object, counted from 1 with the colours. The object is 0
/// for faults before the objects, and for want of memory.
#[derive(Clone, Copy, Debug, PartialEq, Eq, Error)]
#[error("figure object {object}: {fault}")]
pub struct FigError {
    pub fault: FigFault,
    pub object: u64,
}
