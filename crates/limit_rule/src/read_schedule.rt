//! The reader of schedules.
ghost use Rattle.std.specs.Prelude.{◌≡◌, [], codes, OnOk};
ghost use Rattle.serde_json.specs.View.{view};
ghost use Rattle.ps_json.specs.Answer.{GivesUnless};
ghost use Rattle.ps_json.specs.Fields.{without_member};
ghost use Rattle.ps_json.specs.Member.{required, optional};
ghost use Rattle.limit_ident.specs.Fault.{wrapped};
ghost use Rattle.limit_rule.specs.ReadSchedule.{number_in, range_in, numbers_in, schedule_of, after_schedule, schedule_in};

use crate::bounds::Bounds;
use crate::schedule::Schedule;
use limit_ident::fault::LimitFault;
use limit_ident::member::{read_whole, take_flag};
use limit_ident::read_lists::{ReadItem, read_items};
use ps_json::fields::Fields;
use ps_time::items::Items;
use serde_json::Value;
use std::alloc::Global;

/// A whole number from `least` to `most`; one out of these bounds is refused as of `place`.
fn read_number(
    alloc: Global,
    value: Value,
    place: &str,
    name: &str,
    least: u8,
    most: u8,
) -> Result<u64, LimitFault>
    ensures { GivesUnless LimitFault.Memory result (number_in place.now least most name.now (view value)) }
{
    let number = read_whole(alloc, value, place, name, i64::from(least), i64::from(most))?;
    Ok(number.unsigned_abs())
}

fn need_number(
    alloc: Global,
    fields: &mut Fields,
    place: &str,
    name: &str,
    least: u8,
    most: u8,
) -> Result<u64, LimitFault>
    ensures value { GivesUnless LimitFault.Memory result
        (required wrapped (number_in place.now least most) name.now fields.old) }
    ensures rest { fields.new ≡ without_member name.now fields.old }
{
    let value = fields.need(alloc, name)?;
    read_number(alloc, value, place, name, least, most)
}

/// From `lower` to `upper`.
fn read_range(
    alloc: Global,
    value: Value,
    place: &str,
    least: u8,
    most: u8,
) -> Result<Bounds, LimitFault>
    ensures { GivesUnless LimitFault.Memory result (range_in least most place.now (view value)) }
{
    let mut fields = Fields::open(alloc, value, place)?;
    let lower = need_number(alloc, &mut fields, place, "lower", least, most)?;
    let upper = need_number(alloc, &mut fields, place, "upper", least, most)?;
    if upper < lower {
        return Err(LimitFault::bad_range(alloc, place));
    }
    fields.end(alloc)?;
    Ok(Bounds { lower, upper })
}

/// Reads the items of the member `place`, each a number or a range of numbers.
#[derive(Clone, Copy)]
struct BoundsReader<'a> {
    place: &'a str,
    least: u8,
    most: u8,
}

impl<'a> ReadItem for BoundsReader<'a> {
    type Item = Bounds;

    ghost use Rattle.limit_rule.specs.ReadSchedule.{item_of};

    ghost item = { λ r d. item_of r.least r.most r.place.now d };

    fn read_item(&self, alloc: Global, value: Value) -> Result<Bounds, LimitFault> {
        if value.is_object() {
            return read_range(alloc, value, self.place, self.least, self.most);
        }
        let number = read_number(alloc, value, self.place, self.place, self.least, self.most)?;
        Ok(Bounds {
            lower: number,
            upper: number,
        })
    }
}

/// The ranges that the member is, or none where it is left out.
fn take_numbers(
    alloc: Global,
    fields: &mut Fields,
    place: &str,
    least: u8,
    most: u8,
) -> Result<Items<Bounds>, LimitFault>
    ensures value { GivesUnless LimitFault.Memory result
        (optional [] (numbers_in least most) place.now fields.old) }
    ensures rest { fields.new ≡ without_member place.now fields.old }
{
    match fields.take(place) {
        None => Ok(Items::new(alloc)),
        Some(value) => {
            let reader = BoundsReader { place, least, most };
            read_items(alloc, value, place, &reader)
        }
    }
}

fn take_schedule(alloc: Global, fields: &mut Fields) -> Result<Schedule, LimitFault>
    ensures value { GivesUnless LimitFault.Memory result (schedule_of fields.old) }
    ensures rest { OnOk result (fields.new ≡ after_schedule fields.old) }
{
    let month = take_numbers(alloc, fields, "month", 1, 12)?;
    let monthday = take_numbers(alloc, fields, "monthday", 1, 31)?;
    let weekday = take_numbers(alloc, fields, "weekday", 1, 7)?;
    let hour = take_numbers(alloc, fields, "hour", 0, 23)?;
    let minute = take_numbers(alloc, fields, "minute", 0, 59)?;
    let overlap = take_flag(alloc, fields, "overlap")?;
    Ok(Schedule {
        month,
        monthday,
        weekday,
        hour,
        minute,
        overlap,
    })
}

/// The schedule that the value of `data` is.
pub(crate) fn read_schedule(alloc: Global, value: Value) -> Result<Schedule, LimitFault>
    ensures { GivesUnless LimitFault.Memory result (schedule_in (codes "data") (view value)) }
{
    let mut fields = Fields::open(alloc, value, "data")?;
    let schedule = take_schedule(alloc, &mut fields)?;
    fields.end(alloc)?;
    Ok(schedule)
}
