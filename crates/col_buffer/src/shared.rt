//! Buffers of values: parts of them, and writes that leave other owners as they are.

ghost use Rattle.std.specs.Prelude.{◌≡◌, ◌+◌, ◌<◌, ◌≤◌, ◌++◌, IfOk, OnOk, OnErr, length, take, drop, replicate, slice_set};

use std::alloc::{AllocError, Global};
use std::rc::Rc;

/// A part of the values.
pub fn part<T: Copy>(values: &Rc<Vec<T>>, offset: usize, len: usize) -> &[T]
    requires inside { offset + len ≤ length values.now.value.items }
    ensures values { result.now ≡ take len (drop offset values.now.value.items) }
{
    &values.as_slice()[offset..offset + len]
}

/// So many equal values.
pub fn repeated<T: Copy>(alloc: Global, item: T, count: usize) -> Result<Vec<T>, AllocError>
    ensures items { IfOk result (λ items. items.items ≡ replicate count item) }
{
    let mut items = Vec::new(alloc);
    items.resize(count, item)?;
    Ok(items)
}

/// Puts a part of the values behind others.
pub fn append_range<T: Copy>(
    items: &mut Vec<T>,
    from: &[T],
    start: usize,
    len: usize,
) -> Result<(), AllocError>
    requires inside { start + len ≤ length from.now }
    ensures ok { OnOk result (items.new.items ≡ items.old.items ++ take len (drop start from.now)) }
    ensures err { OnErr result (items.new.items ≡ items.old.items) }
{
    items.extend_from_slice(&from[start..start + len])?;
    Ok(())
}

/// Writes one value: in place where nobody else has the buffer, else into a copy.
pub fn write_at<T: Copy>(
    alloc: Global,
    values: &mut Rc<Vec<T>>,
    place: usize,
    value: T,
) -> Result<(), AllocError>
    requires inside { place < length values.old.value.items }
    ensures ok { OnOk result (values.new.value.items
        ≡ slice_set values.old.value.items place value) }
    ensures err { OnErr result (values.new.value.items ≡ values.old.value.items) }
{
    if let Some(own) = Rc::get_mut(values) {
        own[place] = value;
        return Ok(());
    }
    let mut copy = Vec::from_slice(alloc, values.as_slice())?;
    copy[place] = value;
    *values = Rc::new(alloc, copy)?;
    Ok(())
}
