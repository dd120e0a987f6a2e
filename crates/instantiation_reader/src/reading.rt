// Reading an instantiation (FORMAT 6.1, 8.4).
ghost use Rattle.std.specs.Prelude.{◌≡◌, ◌≤◌, length, drop, IfOk};
ghost use Rattle.membership.specs.Entries.{RoomFor};
ghost use Rattle.schema.specs.Schema.{EntriesStand};
ghost use Rattle.instantiation.specs.Instantiation.{reading_of, subsets_of, read_lists, instantiation_reading};
ghost use Rattle.instantiation.specs.Gathering.{gathered, GatheredIn};

use crate::appending::append;
use copying::copy_bytes;
use entry_sorting::{rises, sort_by_attribute};
use instantiation::InstantiationTable;
use refusal::Refusal;
use repeated_attributes::repeated_in;
use type_record::read_list;

// The subsets given to the special attributes (FORMAT 6.1).
fn subsets_of(bytes: &[u8]) -> [u8; 16]
    requires { 47 ≤ length bytes.now }
    ensures { result ≡ subsets_of bytes.now }
{
    let mut subsets = [0u8; 16];
    copy_bytes(&mut subsets, 1, bytes, 15);
    subsets
}

// The lists in these bytes: the number of their entries, at most 256, or the first refusal of 14 to 17 (FORMAT 8.4).
// Their entries stand at the front of the slice, in the order of the bytes. The loop is a `while`, as it leaves out the
// rest of a byte that has no bit left.
fn read_lists(bytes: &[u8], items: &mut [u32]) -> Result<usize, Refusal>
    requires in_bounds { 47 ≤ length bytes.now }
    requires room_for { RoomFor (length bytes.now) items.old }
    ensures value { result ≡ gathered (read_lists bytes.now 256 0 (drop 47 bytes.now)) }
    ensures gathered_in { GatheredIn (length bytes.now) (read_lists bytes.now 256 0 (drop 47 bytes.now)) items.new }
{
    let mut k = 0;
    let mut at = 47;
    let mut s = 0usize;
    while s < 256 {
        let rest = bytes[15 + s / 8] >> (s % 8);
        if rest == 0 {
            s = (s / 8 + 1) * 8;
        } else if rest % 2 == 1 {
            let count = read_list(&bytes[at..])?;
            k = append(items, k, &bytes[at..], count, s as u8);
            at += count * 2 + 1;
            s += 1;
        } else {
            s += 1;
        }
    }
    if at < bytes.len() {
        return Err(Refusal::InputFollowed);
    }
    Ok(k)
}

// The instantiation in these bytes, or the first refusal of 14 to 17, 19, 18 (FORMAT 8.4). Its entries stand at the front
// of `items`; what stands after them, and in the second slice, is free.
pub fn read_instantiation(
    bytes: &[u8],
    items: &mut [u32],
    spare: &mut [u32],
) -> Result<InstantiationTable, Refusal>
    requires { RoomFor (length bytes.now) items.old × RoomFor (length bytes.now) spare.old }
    ensures value { result ≡ reading_of (instantiation_reading bytes.now) }
    ensures entries_stand { EntriesStand (instantiation_reading bytes.now).judgement (instantiation_reading bytes.now).entries items.new }
    ensures count_in_bounds { IfOk result (λ table. table.count ≤ length spare.new) }
{
    if bytes.len() < 47 {
        return Err(Refusal::InputTruncated);
    }
    let count = read_lists(bytes, items)?;
    if 255 < count {
        if repeated_in(bytes) {
            return Err(Refusal::RepeatedAttribute);
        }
        return Err(Refusal::TooManyAttributes);
    }
    sort_by_attribute(&mut items[..count], spare);
    if !rises(&items[..count]) {
        return Err(Refusal::RepeatedAttribute);
    }
    let subsets = subsets_of(bytes);
    Ok(InstantiationTable { subsets, count })
}
