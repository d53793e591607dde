//! A range of radii.
ghost use Rattle.std.specs.Prelude.{◌≡◌};
ghost use Rattle.figures.specs.Ranges.{from_least_lem};

/// The radii that may follow another, mm.
#[derive(Clone, Copy, Debug, PartialEq, Eq)]
pub struct NextRadius {
    /// The least of them, mm.
    pub least: u64,
    /// The greatest of them, mm, if there is one.
    pub greatest: Option<u64>,
}

impl NextRadius {
    // The radii from a least one on.
    pub(crate) fn from_least(least: u64) -> NextRadius
        ensures { result ≡ from_least_lem least }
    {
        NextRadius {
            least,
            greatest: None,
        }
    }
}
