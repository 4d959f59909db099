//! Why no version is kept.

ghost use Rattle.std.specs.Prelude.{◌≡◌};
ghost use Rattle.gf_keep.specs.declared.faults.KeepFault.TheVariants as fault;

use gf_base::OutOfMemory;
use thiserror::Error;

/// Why [`keeping`](crate::keeping) gives no changes, in the order of the checks.
#[derive(Clone, Copy, Debug, PartialEq, Eq, Error)]
pub enum KeepFault {
    /// The site has no such object.
    #[error("NoObject")]
    NoObject,
    /// The object has more than 1,000 visible versions.
    #[error("Range")]
    Range,
    /// No visible version of the object holds all of the operations.
    #[error("NoVersion")]
    NoVersion,
    /// A growth of memory was refused.
    #[error("out of memory")]
    OutOfMemory,
}

impl From<OutOfMemory> for KeepFault {
    ghost from_gives = { λ _ e. e ≡ fault.OutOfMemory };

    fn from(_: OutOfMemory) -> KeepFault {
        KeepFault::OutOfMemory
    }
}
