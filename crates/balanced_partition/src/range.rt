//! A partition.

/// The versions from `from` up to `to`, without the version `to` itself.
#[derive(Clone, Copy, Debug, PartialEq, Eq)]
pub struct Range {
    pub from: u32,
    pub to: u32,
}
