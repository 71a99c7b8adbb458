//! What a crash in the first opening leaves.

use crate::fault::TableFault;
use crate::host::{KeptHost, new_disks};
use ps_disks::image::Image;
use std::alloc::Global;

// The first opening writes a new pair anew on the second disk, and then sets an epoch. It makes fewer calls than this.
const CALLS: u64 = 12;

// Whether what a crash leaves after so many calls opens with one epoch.
fn cut_letter(alloc: Global, calls: u64) -> Result<char, TableFault> {
    let (first, second) = KeptHost::disks_behind(alloc, 1_000, new_disks(alloc)?, calls)?;
    let host = KeptHost::on(alloc, 1_005, (first, second.crashed(Image::Torn)?))?;
    let (_, _, epochs) = host.stands();
    if epochs == 1 { Ok('o') } else { Ok('?') }
}

/// A message for each number of calls.
pub(crate) fn cut_letters(alloc: Global) -> Result<String, TableFault> {
    let mut letters = String::new(alloc);
    for calls in 0..CALLS {
        letters.push(cut_letter(alloc, calls)?)?;
    }
    Ok(letters)
}
