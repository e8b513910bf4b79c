//! Which calls there are on the files of a device in folders.

/// A call on `media`, on `root` or `root.new`, on the folder of either, or on a cell in place.
#[derive(Clone, Copy, Debug, PartialEq, Eq)]
pub enum FileCall {
    /// `media` is filled up to whole pages, which are counted.
    CountPages,
    /// A page of `media` is read.
    ReadPage,
    /// A page of `media` is written.
    WritePage,
    /// `media` is synced.
    SyncMedia,
    /// The folder of `media` is synced.
    SyncFolder,
    /// `root` is read, if it is there.
    ReadRoot,
    /// `root` is synced, if it is there.
    SyncRoot,
    /// `root` is removed, if it is there.
    RemoveRoot,
    /// `root.new` is removed, if it is there.
    RemoveNew,
    /// `root.new` is made.
    MakeNew,
    /// `root.new` is synced.
    SyncNew,
    /// `root.new` is renamed to `root`.
    RenameNew,
    /// The folder of `root` is synced.
    SyncCell,
    /// What a cell in place holds is replaced.
    ReplaceInPlace,
    /// A cell in place is cleared.
    ClearInPlace,
}
