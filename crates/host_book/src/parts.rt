//! A host's book as plain parts.

use host_model::task_row::TaskRow;
use limit_apply::limits::Limits;
use ps_time::items::Items;
use ps_time::key::RunKey;
use ps_time::moment::Moment;
use run_states::row::RunRow;
use std::marker::Model;

/// What a book keeps, without what is looked up in it; seen by contracts as that book.
#[derive(Drop)]
pub struct Parts {
    /// The latest moment, in seconds since 1970 UTC.
    pub moment: Moment,
    /// The limits that were set, numbered from 1.
    pub epochs: Items<Limits>,
    /// For each accepted run the number of its epoch, 0 where there was none; ascending by key.
    pub pairs: Items<(RunKey, u32)>,
    /// The tasks, in the order of their serials.
    pub tasks: Items<TaskRow>,
    /// The rows, ascending by key.
    pub rows: Items<RunRow>,
}

impl Model for Parts {
    ghost use Rattle.host_model.specs.Book.{Book};

    ghost Value = { Book };

    ghost view = { λ p. record { moment = p.moment; epochs = p.epochs; pairs = p.pairs; tasks = p.tasks; rows = p.rows } };
}
