//! Laws of paged memories. A law answers nothing: its contract is what it says.

ghost use Rattle.std.specs.Prelude.{◌≡◌, ◌≤◌, ◌+◌, length};
ghost use Rattle.tn_pages.specs.Paged.{pages_for, pages_made, started, stored_in};

use crate::memory::PagedMemory;

/// A memory that starts with an image has made at most as many pages as the image's bytes take.
pub fn law_started(size: u32, image: &[u8])
    requires { length image.now ≤ size }
    ensures { pages_made (started size image.now) ≤ pages_for (length image.now) }
{}

/// A write makes at most one page.
pub fn law_written(memory: &PagedMemory, at: usize, width: u8, value: u32)
    ensures { pages_made (stored_in memory.now at width value) ≤ pages_made memory.now + 1 }
{}
