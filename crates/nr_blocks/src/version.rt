//! The versions of a blocks file, by the word that it begins with.

/// The form of a blocks file, by the four bytes that it begins with.
#[derive(Clone, Copy, Debug, PartialEq, Eq)]
pub enum Version {
    /// `NRB1`: no block has a gas price.
    One,
    /// `NRB2`: each block has a gas price.
    Two,
}
