// Which pages of RAM may hold bytes other than 0. Places are counted from RAM's first byte.
ghost use Rattle.std.specs.Prelude.{◌≡◌, ◌≢◌, ◌<◌, ◌≤◌, ◌/◌, ◌-◌, ◌%◌, ℕ, true, false};
ghost use Rattle.elf_image.specs.WrittenPages.{is_written};

use gc_base::limits::{PAGE, RAM_MAX};

/// How many pages the largest RAM has.
const PAGES: usize = (RAM_MAX / PAGE) as usize;

/// How many bytes lie in a page from a place on.
pub(crate) fn room_in_page(place: u64) -> u64
    ensures { result ≡ PAGE - place % PAGE }
{
    PAGE - place % PAGE
}

/// For each page whether it counts as written.
#[derive(Drop)]
pub(crate) struct WrittenPages {
    pages: [bool; PAGES],
}

impl WrittenPages {
    /// No page counts as written.
    pub(crate) fn new() -> WrittenPages
        ensures { (place : ℕ) → is_written result.pages place ≡ false }
    {
        WrittenPages {
            pages: [false; PAGES],
        }
    }

    /// The page of a place counts as written.
    pub(crate) fn mark(&mut self, place: u64)
        requires { place < RAM_MAX }
        ensures page { (other : ℕ) → other / PAGE ≡ place / PAGE → is_written self.new.pages other ≡ true }
        ensures others { (other : ℕ) → other / PAGE ≢ place / PAGE
            → is_written self.new.pages other ≡ is_written self.old.pages other }
    {
        self.pages[(place / PAGE) as usize] = true;
    }

    /// The page of a place counts as written no more.
    pub(crate) fn forget(&mut self, place: u64)
        requires { place < RAM_MAX }
        ensures page { (other : ℕ) → other / PAGE ≡ place / PAGE → is_written self.new.pages other ≡ false }
        ensures others { (other : ℕ) → other / PAGE ≢ place / PAGE
            → is_written self.new.pages other ≡ is_written self.old.pages other }
    {
        self.pages[(place / PAGE) as usize] = false;
    }

    /// The first place from one on that lies in a page which counts as written, or the end, where none does before it.
    pub(crate) fn first_from(&self, from: u64, end: u64) -> u64
        requires order { from ≤ end }
        requires size { end ≤ RAM_MAX }
        ensures least { from ≤ result }
        ensures most { result ≤ end }
        ensures before { (place : ℕ) → from ≤ place → place < result → is_written self.now.pages place ≡ false }
        ensures found { result < end → is_written self.now.pages result ≡ true }
    {
        for page in from / PAGE..end.div_ceil(PAGE) {
            if self.pages[page as usize] {
                return from.max(page * PAGE);
            }
        }
        end
    }
}
