//! What is asked of a take.

/// Whose operations are made of a drawing, and what else is asked.
#[derive(Clone, Copy)]
pub struct TakeRequest {
    /// The site that makes the operations, 1 to 8.
    pub site: u8,
    /// How many operations of the site there are at most, where one is to be made. None: any
    /// number.
    pub after: Option<u32>,
    /// Whether the named text of all operations is written behind the new ones.
    pub named: bool,
}
