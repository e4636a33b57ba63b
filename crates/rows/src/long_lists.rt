//! Capacity for long lists.

ghost use Rattle.std.specs.Prelude.{◌≡◌, ◌+◌, ◌<◌, ◌≤◌, OnOk, OnErr, vec_len, vec_capacity};

use std::alloc::{AllocError, Allocator};

// The number of rows from which a list counts as long.
const FEW: usize = 4_096;

// The capacity, in items, by which a long list grows. Unused capacity takes addresses, but no memory.
const MANY: usize = 262_144;

/// Reserves capacity for `count` more items; a long list that has to grow reserves many more. Fails only if the list has no
/// capacity left for them.
pub fn make_room_for<T, A: Allocator>(list: &mut Vec<T, A>, count: usize) -> Result<(), AllocError>
    ensures items { list.new.items ≡ list.old.items }
    ensures room { OnOk result (vec_len list.new + count ≤ vec_capacity list.new) }
    ensures full { OnErr result (vec_capacity list.new < vec_len list.new + count) }
{
    let lacks_room = list.capacity() - list.len() < count;
    if lacks_room && FEW <= list.len() && list.reserve(count.max(MANY)).is_ok() {
        return Ok(());
    }
    list.reserve(count)
}
