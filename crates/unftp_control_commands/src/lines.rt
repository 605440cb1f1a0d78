//! Lines of replies.
ghost use Rattle.std.specs.Prelude.{◌≡◌, ◌++◌, map, string_bytes, OnOk};

use std::alloc::AllocError;

/// Appends these lines, in the memory of the list.
pub fn append_lines(lines: &mut Vec<String>, more: &[&str]) -> Result<(), AllocError>
    // At `Ok` these lines follow those that the list already had, in order.
    ensures { OnOk result (map string_bytes lines.new.items
        ≡ map string_bytes lines.old.items ++ map (λ line. line.now) more.now) }
{
    let alloc = *lines.allocator();
    for line in more {
        lines.push(String::from_str(alloc, line)?)?;
    }
    Ok(())
}
