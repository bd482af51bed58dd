//! One page.

ghost use Rattle.std.specs.Prelude.{◌≡◌, ◌≤◌, ◌<◌, ◌+◌, ◌-◌, ◌↔◌, [], if◌then◌else◌, IfOk, IsTrue, length, replicate, slice_index};
ghost use Rattle.tn_base.specs.Effects.{is_width};
ghost use Rattle.tn_pages.specs.Numbers.{value_at, written};
ghost use Rattle.tn_pages.specs.Pages.{is_made, made_page};

use crate::numbers::{read_at, write_at};
use crate::stock::PageStock;
use std::alloc::{AllocError, Global};
use std::marker::Model;

/// How many bytes a page has, but for the last one of a memory, which ends with it.
pub(crate) const PAGE: usize = 256;

/// A page, or the place of one that is not made, which has no bytes and takes no memory. A contract sees the bytes.
#[derive(Drop)]
pub(crate) struct Page {
    bytes: Vec<u8>,
}

impl Model for Page {
    ghost use Rattle.std.specs.Prelude.{ℕ, List};

    ghost Value = { List ℕ };

    ghost view = { λ p. p.bytes.items };
}

impl Page {
    /// The place of a page that is not made.
    pub(crate) fn none(alloc: Global) -> Page
        ensures { result ≡ [] }
    {
        Page {
            bytes: Vec::new(alloc),
        }
    }

    /// A page of zeros.
    pub(crate) fn zeros(alloc: Global) -> Result<Page, AllocError>
        ensures { IfOk result (λ p. p ≡ replicate 256 0) }
    {
        let bytes = vec![in alloc; 0u8; PAGE]?;
        Ok(Page { bytes })
    }

    /// Whether the page is made.
    #[inline(always)]
    pub(crate) fn is_made(&self) -> bool
        ensures { result ≡ is_made self.now }
    {
        !self.bytes.is_empty()
    }

    /// The byte at a place, 0 past the end.
    pub(crate) fn byte(&self, at: usize) -> u8
        ensures { result ≡ slice_index self.now at }
    {
        match self.bytes.get(at) {
            Some(byte) => *byte,
            None => 0,
        }
    }

    /// The number of `width` bytes at a place, 0 where the page is not made.
    #[inline(always)]
    pub(crate) fn value_at(&self, at: usize, width: u8) -> u32
        requires width { IsTrue (is_width width) }
        requires within { 0 < length self.now → at + width ≤ length self.now }
        ensures { result ≡ value_at self.now at width }
    {
        if self.bytes.is_empty() {
            0
        } else {
            read_at(self.bytes.as_slice(), at, width)
        }
    }

    /// Writes the low `width` bytes of a value at a place.
    #[inline(always)]
    pub(crate) fn write(&mut self, at: usize, width: u8, value: u32)
        requires width { IsTrue (is_width width) }
        requires within { at + width ≤ length self.old }
        ensures { self.new ≡ written self.old at width value }
    {
        write_at(self.bytes.as_mut_slice(), at, width, value);
    }

    /// Makes the page, of one of the stock's and of so many bytes, unless it is made.
    #[inline(always)]
    pub(crate) fn make(&mut self, stock: &mut PageStock, len: usize)
        requires len { len ≤ 256 }
        requires stock { 0 < stock.old }
        ensures page { self.new ≡ made_page len self.old }
        ensures stock { stock.new ≡ (if is_made self.old then stock.old else stock.old - 1) }
    {
        if self.is_made() {
            return;
        }
        let mut page = stock.take();
        page.bytes.truncate(len);
        *self = page;
    }

    /// The same page.
    pub(crate) fn copy(&self) -> Result<Page, AllocError>
        ensures { IfOk result (λ p. p ≡ self.now) }
    {
        let bytes = self.bytes.clone()?;
        Ok(Page { bytes })
    }

    /// Whether the pages have equal bytes.
    pub(crate) fn same(&self, other: &Page) -> bool
        ensures { IsTrue result ↔ (self.now ≡ other.now) }
    {
        self.bytes.as_slice() == other.bytes.as_slice()
    }
}
