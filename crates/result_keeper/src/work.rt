//! Work on a keeper over files, for whom its store is any.

use crate::sqlite_keeper::SqliteKeeper;
use result_table::keeper::Keeper;
use sqlite::{Alter, FileStore};
use sqlite_disk::Disk;

/// What is done with a keeper, whatever its store is.
pub trait KeeperWork {
    /// What comes of it.
    type Outcome;

    // What is known of that.
    ghost comes: { Self → Self.Outcome → Type 0 };

    /// Works on the keeper, and lets it go.
    fn work_on<Q: Keeper + Drop>(self, keeper: Q) -> Self::Outcome
        ensures { comes self result };
}

/// Has the work done on a keeper over any store.
fn hand_to<S: Alter + Drop, W: KeeperWork>(keeper: SqliteKeeper<S>, work: W) -> W::Outcome
    ensures { W.KeeperWork.comes work result }
{
    work.work_on(keeper)
}

/// Has the work done on a keeper over files. That their store is an `Alter` takes the prover long: so it is shown here, over any
/// disk, and by no caller.
pub fn work_on_files<D: Disk + Drop, W: KeeperWork>(
    keeper: SqliteKeeper<FileStore<D>>,
    work: W,
) -> W::Outcome
    ensures { W.KeeperWork.comes work result }
{
    hand_to(keeper, work)
}
