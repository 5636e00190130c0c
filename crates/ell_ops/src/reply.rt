//! What an operation answers.
ghost use Rattle.std.specs.Prelude.{◌≡◌};
ghost use Rattle.ell_ops.specs.Meaning.{found, yes_if};

/// What an operation answers: a find and a swap answer the value of their key, if it is present, an insert answers
/// whether it was absent, and a delete answers whether it was present.
#[derive(Clone, Copy, Debug, PartialEq, Eq)]
pub enum Reply {
    /// Nothing was found, and nothing was changed.
    No,
    /// An insert has added its key, or a delete has removed it.
    Yes,
    /// A find or a swap has found its key, with this value.
    Found(u64),
}

impl Reply {
    /// Returns `Yes` if this holds, else `No`.
    pub fn yes_if(holds: bool) -> Reply
        // Returns `Yes` if this holds, else `No`.
        ensures { result ≡ yes_if holds }
    {
        if holds { Reply::Yes } else { Reply::No }
    }

    /// Returns `Found` with the value, or `No` if there is none.
    pub fn found(value: Option<u64>) -> Reply
        // Returns `Found` with the value, or `No` if there is none.
        ensures { result ≡ found value }
    {
        value.map_or(Reply::No, Reply::Found)
    }
}
