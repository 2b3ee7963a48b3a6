//! Which board it is.

/// What tells one board from another. A poster, its readers and its notes have the same one, which no call changes.
/// No value of it is made: only contracts speak of it.
pub struct Board {
    pub number: u64,
    pub log_name: u64,
    pub cells_name: u64,
}
