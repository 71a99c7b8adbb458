//! What a host reads of a draft: its tasks and limits, and the runs of a task from key to key.
ghost use Rattle.std.specs.Prelude.{◌≡◌, All, IfSome};
ghost use Rattle.std.specs.Option.{option_copied};
ghost use Rattle.run_states.specs.TaskRows.{number_of};
ghost use Rattle.host_model.specs.Book.{find_task};
ghost use Rattle.host_inputs.specs.Kept.{HasPolicies};

use crate::draft::Draft;
use draft_parts::overlay::lesser_of;
use draft_parts::walk::{first_after, first_bare_after};
use host_inputs::hosting::Hosting;
use host_model::task_row::TaskRow;
use host_pages::showing::Showing;
use lead_core::leading::Leading;
use limit_apply::limits::Limits;
use ps_time::key::RunKey;
use run_states::row::RunRow;

impl<'a> Hosting for Draft<'a> {
    ghost kept = { λ d. record { epochs = d.draft.book.epochs; pairs = d.draft.book.pairs; tasks = d.draft.book.tasks } };

    fn task(&self, serial: u32) -> Option<&TaskRow> {
        find_task(self.book.tasks(), serial)
    }

    fn task_count(&self) -> u32 {
        self.book.tasks().len() as u32
    }

    fn latest_limits(&self) -> Option<&Limits> {
        self.book.epochs().last()
    }

    fn greatest_number(&self, lead: u16, serial: u32) -> u32 {
        let _known = self.touched.in_order();
        number_of(self.newest(lead, serial))
    }

    fn next_of_task(&self, lead: u16, serial: u32, after: Option<RunKey>) -> Option<RunKey> {
        let _known = self.touched.in_order();
        let over = first_after(self.touched.task_rows(lead, serial), after);
        let rows = self.book.rows().task_rows(lead, serial);
        let gone = self.gone.as_slice();
        lesser_of(over, first_bare_after(rows, &self.touched, gone, after))
    }
}

impl<'a> Showing for Draft<'a> {
    fn tasks(&self) -> &[TaskRow] {
        self.book.tasks()
    }

    fn next_row(&self, after: Option<RunKey>) -> Option<RunKey> {
        let over = first_after(self.touched.in_order(), after);
        let rows = self.book.rows().in_order();
        let gone = self.gone.as_slice();
        lesser_of(over, first_bare_after(rows, &self.touched, gone, after))
    }
}

// The task of the serial.
#[tactic(auto, using(crate::proofs::HostingLemmas::policies_found))]
fn find_task(tasks: &[TaskRow], serial: u32) -> Option<&TaskRow>
    ensures task { option_copied result ≡ find_task tasks.now serial }
    ensures policies { All HasPolicies tasks.now → IfSome (option_copied result) HasPolicies }
{
    tasks.iter().find(|task| task.serial == serial)
}

fn number_of(row: Option<&RunRow>) -> u32
    ensures { result ≡ number_of (option_copied row.entry) }
{
    match row {
        Some(row) => row.key.number,
        None => 0,
    }
}
