//! The versions of a bulk text.
ghost use Rattle.std.specs.Prelude.{◌≡◌};
ghost use Rattle.ell_text.specs.Version.{version_numbered};

/// A version of the bulk text and of its answer.
#[derive(Clone, Copy, PartialEq, Eq)]
pub(crate) enum Version {
    /// Keys stand alone, and the value of each is 0.
    One,
    /// Keys have values.
    Two,
}

impl Version {
    /// Returns the version that has a number.
    pub(crate) fn numbered(number: u8) -> Version
        ensures { result ≡ version_numbered number }
    {
        if number == 2 {
            Version::Two
        } else {
            Version::One
        }
    }
}
