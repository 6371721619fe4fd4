use super::steps::Steps;

/// A place in the tree of a value.
#[derive(Debug, Drop)]
pub enum Index {
    /// The generalized index of this number.
    Number(u128),
    /// The generalized index of this path.
    Path(Steps),
}
