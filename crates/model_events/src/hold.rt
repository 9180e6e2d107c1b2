/// What kind of hold a party has.
#[derive(Clone, Copy, Debug, PartialEq, Eq)]
pub enum HoldKind {
    /// Beside other read holds.
    Read,
    /// Alone.
    Write,
}
