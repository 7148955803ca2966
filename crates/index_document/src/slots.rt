ghost use Rattle.std.specs.Prelude.{◌≡◌, ◌+◌, ◌-◌, ◌^◌, ◌<◌, ◌≤◌, cond, nat_lt, length, slice_index, IfOk, OnOk};
ghost use Rattle.index_document.specs.steps.Directory.{IsChanged, IsClosed, IsOpened};

use crate::numbers::in_32_bits;
use ft_base::Memory;

/// The number at the place, and 0 after the last one.
pub(crate) fn number_at(numbers: &Vec<u32>, at: usize) -> usize
    ensures { result ≡ slice_index numbers.now.items at }
{
    if at >= numbers.len() {
        return 0;
    }
    numbers[at] as usize
}

/// Sees to it that the place is one of the vector's, by zeros after the last number.
fn cover(numbers: &mut Vec<u32>, at: usize) -> Result<(), Memory>
    requires { at < 2 ^ 32 }
    ensures there { OnOk result (at < length numbers.new.items) }
    ensures same { OnOk result ((k : _) → slice_index numbers.new.items k ≡ slice_index numbers.old.items k) }
    ensures length { OnOk result (length numbers.new.items ≡ cond (nat_lt at (length numbers.old.items)) (length numbers.old.items) (at + 1)) }
{
    if at < numbers.len() {
        return Ok(());
    }
    numbers.resize(at + 1, 0)?;
    Ok(())
}

/// The number, raised where it is to be. A number that exceeds 32 bits then finds no memory.
fn shifted(number: u32, moves: bool, by: usize) -> Result<u32, Memory>
    requires { by < 2 ^ 32 }
    ensures { IfOk result (λ sum. sum ≡ cond moves (number + by) number) }
{
    if !moves {
        return Ok(number);
    }
    in_32_bits(number as usize + by)
}

/// The number, lowered where it is to be.
fn lowered(number: u32, moves: bool, by: usize) -> u32
    ensures { result ≡ cond moves (number - by) number }
{
    if !moves {
        return number;
    }
    (number as usize).saturating_sub(by) as u32
}

/// Raises the numbers whose slots are after the place.
fn raise_after(numbers: &mut Vec<u32>, slots: &Vec<u32>, at: usize, by: usize) -> Result<(), Memory>
    requires lengths { length numbers.old.items ≡ length slots.now.items }
    requires few { by < 2 ^ 32 }
    ensures length { OnOk result (length numbers.new.items ≡ length slots.now.items) }
    ensures moved { OnOk result ((k : _) → k < length slots.now.items →
        slice_index numbers.new.items k
        ≡ cond (nat_lt at (slice_index slots.now.items k)) (slice_index numbers.old.items k + by) (slice_index numbers.old.items k)) }
{
    for k in 0..slots.len() {
        numbers[k] = shifted(numbers[k], at < slots[k] as usize, by)?;
    }
    Ok(())
}

/// Raises the slots after the place by one.
fn raise_slots(slots: &mut Vec<u32>, at: usize) -> Result<(), Memory>
    ensures length { OnOk result (length slots.new.items ≡ length slots.old.items) }
    ensures moved { OnOk result ((k : _) → k < length slots.old.items →
        slice_index slots.new.items k ≡ cond (nat_lt at (slice_index slots.old.items k)) (slice_index slots.old.items k + 1) (slice_index slots.old.items k)) }
{
    for k in 0..slots.len() {
        slots[k] = shifted(slots[k], at < slots[k] as usize, 1)?;
    }
    Ok(())
}

/// Lowers the numbers whose slots are after the place.
fn lower_after(numbers: &mut Vec<u32>, slots: &Vec<u32>, at: usize, by: usize)
    requires { length numbers.old.items ≡ length slots.now.items }
    ensures length { length numbers.new.items ≡ length slots.now.items }
    ensures moved { (k : _) → k < length slots.now.items →
        slice_index numbers.new.items k
        ≡ cond (nat_lt at (slice_index slots.now.items k)) (slice_index numbers.old.items k - by) (slice_index numbers.old.items k) }
{
    for k in 0..slots.len() {
        numbers[k] = lowered(numbers[k], at < slots[k] as usize, by);
    }
}

/// Lowers the slots after the place by one.
fn lower_slots(slots: &mut Vec<u32>, at: usize)
    ensures length { length slots.new.items ≡ length slots.old.items }
    ensures moved { (k : _) → k < length slots.old.items →
        slice_index slots.new.items k ≡ cond (nat_lt at (slice_index slots.old.items k)) (slice_index slots.old.items k - 1) (slice_index slots.old.items k) }
{
    for k in 0..slots.len() {
        slots[k] = lowered(slots[k], at < slots[k] as usize, 1);
    }
}

/// Makes way at that place for a leaf with so many words, where there are so many leaves.
pub(crate) fn open_gap(
    slots: &mut Vec<u32>,
    befores: &mut Vec<u32>,
    at: usize,
    count: usize,
    by: usize,
) -> Result<(), Memory>
    requires lengths { length befores.old.items ≡ length slots.old.items }
    requires within { (k : _) → slice_index slots.old.items k ≤ count }
    requires few { by < 2 ^ 32 }
    ensures { OnOk result (IsOpened at by slots.old.items befores.old.items slots.new.items befores.new.items) }
{
    // After the last leaf nothing moves.
    if at >= count {
        return Ok(());
    }
    raise_after(befores, slots, at, by)?;
    raise_slots(slots, at)
}

/// Closes the gap that the leaf of that number leaves at the place where it was taken out.
pub(crate) fn close_gap(
    slots: &mut Vec<u32>,
    befores: &mut Vec<u32>,
    at: usize,
    number: usize,
    by: usize,
)
    requires lengths { length befores.old.items ≡ length slots.old.items }
    requires there { number < length slots.old.items }
    requires place { slice_index slots.old.items number ≡ at + 1 }
    ensures { IsClosed at by number slots.old.items befores.old.items slots.new.items befores.new.items }
{
    let slot = slots[number] as usize;
    lower_after(befores, slots, slot, by);
    lower_slots(slots, slot);
    slots[number] = 0;
}

/// Puts a number at that place, by zeros after the last one where it is after that.
pub(crate) fn put_number(numbers: &mut Vec<u32>, at: usize, number: usize) -> Result<(), Memory>
    requires { at < 2 ^ 32 }
    ensures changed { OnOk result (IsChanged at number numbers.old.items numbers.new.items) }
    ensures length { OnOk result (length numbers.new.items ≡ cond (nat_lt at (length numbers.old.items)) (length numbers.old.items) (at + 1)) }
{
    cover(numbers, at)?;
    numbers[at] = in_32_bits(number)?;
    Ok(())
}
