//! Lists as bytes.
ghost use Rattle.std.specs.Prelude.{◌++◌, ◌≡◌, All, IfOk, OnOk, length};
ghost use Rattle.std.specs.List.{flat_map};
ghost use Rattle.value_bytes.specs.Codec.{list};
ghost use Rattle.value_bytes.specs.Gives.{Gives};
ghost use Rattle.value_bytes.specs.Reading.{times_at};

use crate::coded::Coded;
use ps_time::items::Items;
use ps_time::memory::Memory;
use std::alloc::Global;
use value_bytes::fault::CodeFault;

fn write_each<T: Coded>(alloc: Global, items: &[T], out: &mut Vec<u8>) -> Result<(), Memory>
    requires { All T.codec.Writable items.now }
    ensures code { OnOk result (out.new.items ≡ out.old.items ++ flat_map T.codec.code items.now) }
    ensures fit { OnOk result (All T.codec.Fits items.now) }
{
    for item in items {
        item.write(alloc, out)?;
    }
    Ok(())
}

/// Adds the bytes of a list: its count, and its items. One of 2^32 items or more has none, and is out of memory.
pub fn write_list<T: Coded>(alloc: Global, items: &[T], out: &mut Vec<u8>) -> Result<(), Memory>
    requires { (list T.codec).Writable items.now }
    ensures code { OnOk result (out.new.items ≡ out.old.items ++ (list T.codec).code items.now) }
    ensures fits { OnOk result ((list T.codec).Fits items.now) }
{
    let Ok(count) = u32::try_from(items.len()) else {
        return Err(Memory);
    };
    count.write(alloc, out)?;
    write_each(alloc, items, out)
}

fn read_times<T: Coded>(
    alloc: Global,
    count: u32,
    bytes: &[u8],
) -> Result<(Items<T>, &[u8]), CodeFault>
    ensures value { Gives (λ x. (x.0, x.1.now)) result (times_at T.codec.read count bytes.now) }
    ensures count { IfOk result (λ x. length x.0 ≡ count) }
    ensures fit { IfOk result (λ x. All T.codec.Fits x.0) }
{
    let mut items = Vec::new(alloc);
    let mut rest = bytes;
    for _ in 0..count {
        let (item, after) = T::read(alloc, rest)?;
        items.push(item)?;
        rest = after;
    }
    Ok((Items::from_vec(items), rest))
}

impl<T: Coded> Coded for Items<T> {
    ghost use Rattle.value_bytes.specs.Codec.{list};
    ghost use Rattle.value_bytes.specs.ListLaws.{list_is};

    ghost codec = { list T.codec };

    fn write(&self, alloc: Global, out: &mut Vec<u8>) -> Result<(), Memory> {
        write_list(alloc, self.as_slice(), out)
    }

    fn read(alloc: Global, bytes: &[u8]) -> Result<(Items<T>, &[u8]), CodeFault> {
        let (count, rest) = u32::read(alloc, bytes)?;
        read_times(alloc, count, rest)
    }

    ghost laws = { list_is T.codec T.laws };
}
