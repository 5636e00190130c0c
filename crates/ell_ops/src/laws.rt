//! Laws of the meaning, for every map and list. Each is the contract of a function that does nothing.
ghost use Rattle.std.specs.Prelude.{◌≡◌, ℕ, List};
ghost use Rattle.ell_ops.specs.KeySet.{KeySet, Lists};
ghost use Rattle.ell_ops.specs.Contents.{Contents, ListsPairs};
ghost use Rattle.ell_ops.specs.LastWriter.{FoldHasPresentKeys, RepliesGoByPresence};

/// The last writer decides. Before each position of a list, and at its end, the map that results from applying the
/// operations has a key exactly if the last insert or delete of the key before that point is an insert, or if the list
/// began with the key and does not delete it before that point. The value is that of its last writer: the insert that
/// found the key absent, or a swap since then that found the value that it replaces. Without a writer it is the value
/// that the list began with. Each reply follows from that. The law holds for every map and every list.
pub fn last_writer()
    // In the map of a list's operations a key has the value of its last writer: the insert that found it absent, or a
    // swap since then that found its first value. It is absent after a delete, or if it was never there.
    ensures maps { FoldHasPresentKeys }
    // The reply to each operation follows from whether its key is present before it, and with which value.
    ensures replies { RepliesGoByPresence }
{}

/// A set has at most one ascending list of its keys, and a map at most one of its keys with their values.
pub fn one_listing()
    // A set has at most one ascending list of its keys, and a map at most one of its pairs.
    ensures keys { (set : KeySet) (xs ys : List ℕ) → Lists set xs → Lists set ys → xs ≡ ys }
    ensures pairs { (there : Contents) (xs ys : List (ℕ × ℕ)) → ListsPairs there xs → ListsPairs there ys → xs ≡ ys }
{}
