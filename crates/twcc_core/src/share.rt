/// So many of a total.
#[derive(Clone, Copy, Debug, PartialEq, Eq)]
pub struct Share {
    /// How many are missing, at most `total`.
    pub missing: u64,
    /// At least 1.
    pub total: u64,
}
