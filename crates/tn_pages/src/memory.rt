//! Memories in pages.

ghost use Rattle.std.specs.Prelude.{◌≡◌, ◌≤◌, ◌<◌, ◌+◌, ◌-◌, ◌==◌, ◌/◌, ◌%◌, ◌↔◌, [], false, true, count_by, if◌then◌else◌, IfOk, IsTrue, length, slice_index, slice_index_or, slice_set};
ghost use Rattle.tn_base.specs.Effects.{is_width};
ghost use Rattle.tn_pages.specs.Numbers.{value_at};
ghost use Rattle.tn_pages.specs.Paged.{Paged, pages_made, started, stored_in};
ghost use Rattle.tn_pages.specs.Pages.{is_made};

use crate::page::{PAGE, Page};
use crate::stock::PageStock;
use std::alloc::{AllocError, Global};
use std::marker::Model;

/// A memory in pages. A contract sees its bytes, and which of its pages are made.
#[derive(Drop)]
pub struct PagedMemory {
    pages: Vec<Page>,
    size: usize,
}

impl Model for PagedMemory {
    ghost use Rattle.std.specs.Prelude.{map};
    ghost use Rattle.tn_pages.specs.Paged.{Paged};
    ghost use Rattle.tn_pages.specs.Pages.{PagesFit, bytes_in, is_made};

    ghost Value = { Paged };

    ghost view = { λ m. record { bytes = bytes_in m.pages.items m.size; made = map is_made m.pages.items } };

    ghost invariant = { λ m. PagesFit m.pages.items m.size };
}

impl PagedMemory {
    /// `size` bytes: those of the image, and zeros behind them. The pages that have a byte other than 0 are made.
    pub fn new(alloc: Global, size: u32, image: &[u8]) -> Result<PagedMemory, AllocError>
        requires { length image.now ≤ size }
        ensures { IfOk result (λ m. m ≡ started size image.now) }
    {
        let mut memory = PagedMemory::zeros(alloc, size)?;
        let mut stock = PageStock::of(alloc);
        for at in 0..image.len() {
            memory.put(&mut stock, at, image[at])?;
        }
        Ok(memory)
    }

    /// Puts a byte of an image at an address where a zero is. A zero makes no page.
    fn put(&mut self, stock: &mut PageStock, at: usize, byte: u8) -> Result<(), AllocError>
        requires { at < length self.old.bytes }
        ensures { IfOk result (λ _. self.new ≡ (if byte == 0 then self.old else stored_in self.old at 1 byte)) }
    {
        if byte == 0 {
            return Ok(());
        }
        stock.reserve(1)?;
        self.write(stock, at, 1, u32::from(byte));
        Ok(())
    }

    /// So many zeros, without a page.
    fn zeros(alloc: Global, size: u32) -> Result<PagedMemory, AllocError>
        ensures { IfOk result (λ m. m ≡ started size []) }
    {
        let size = size as usize;
        let count = (size + (PAGE - 1)) / PAGE;
        let mut pages = Vec::with_capacity(alloc, count)?;
        for _p in 0..count {
            pages.push(Page::none(alloc))?;
        }
        Ok(PagedMemory { pages, size })
    }

    /// How many bytes there are.
    #[inline(always)]
    pub fn len(&self) -> usize
        ensures { result ≡ length self.now.bytes }
    {
        self.size
    }

    /// How many pages are made.
    pub fn written(&self) -> u32
        ensures { result ≡ pages_made self.now }
    {
        count_made(&self.pages) as u32
    }

    /// The byte at an address.
    pub fn byte(&self, at: usize) -> u8
        requires { at < length self.now.bytes }
        ensures { result ≡ slice_index self.now.bytes at }
    {
        self.pages[at / PAGE].byte(at % PAGE)
    }

    /// The number of `width` bytes, 1, 2 or 4, at an address, all on one page.
    #[inline(always)]
    pub fn value_at(&self, at: usize, width: u8) -> u32
        requires width { IsTrue (is_width width) }
        requires within { at + width ≤ length self.now.bytes }
        requires one_page { at % 256 + width ≤ 256 }
        ensures { result ≡ value_at self.now.bytes at width }
    {
        self.pages[at / PAGE].value_at(at % PAGE, width)
    }

    /// Writes the low `width` bytes, 1, 2 or 4, of a value at an address, all on one page. Where that page is not made, it
    /// becomes one of the stock's.
    #[inline(always)]
    pub fn write(&mut self, stock: &mut PageStock, at: usize, width: u8, value: u32)
        requires width { IsTrue (is_width width) }
        requires within { at + width ≤ length self.old.bytes }
        requires one_page { at % 256 + width ≤ 256 }
        requires stock { 0 < stock.old }
        ensures memory { self.new ≡ stored_in self.old at width value }
        ensures stock { stock.new ≡ (if slice_index_or self.old.made (at / 256) false then stock.old else stock.old - 1) }
    {
        let len = (self.size - PAGE * (at / PAGE)).min(PAGE);
        let page = &mut self.pages[at / PAGE];
        page.make(stock, len);
        page.write(at % PAGE, width, value);
    }

    /// The same memory.
    pub fn copy(&self) -> Result<PagedMemory, AllocError>
        ensures { IfOk result (λ m. m ≡ self.now) }
    {
        let pages = copy_pages(&self.pages)?;
        Ok(PagedMemory {
            pages,
            size: self.size,
        })
    }

    /// Whether the bytes are equal, and the same pages are made.
    pub fn same(&self, other: &PagedMemory) -> bool
        ensures { IsTrue result ↔ (self.now ≡ other.now) }
    {
        self.size == other.size && same_pages(&self.pages, &other.pages)
    }
}

/// How many of the pages are made.
fn count_made(pages: &Vec<Page>) -> usize
    ensures { result ≡ count_by is_made pages.now.items }
{
    let mut made = 0;
    for page in pages {
        if page.is_made() {
            made += 1;
        }
    }
    made
}

/// The same pages.
fn copy_pages(pages: &Vec<Page>) -> Result<Vec<Page>, AllocError>
    ensures { IfOk result (λ r. r.items ≡ pages.now.items) }
{
    let mut all = Vec::with_capacity(pages.allocator().clone()?, pages.len())?;
    for page in pages {
        all.push(page.copy()?)?;
    }
    Ok(all)
}

/// Whether the pages are equal, and in the same order.
fn same_pages(a: &Vec<Page>, b: &Vec<Page>) -> bool
    ensures { IsTrue result ↔ (a.now.items ≡ b.now.items) }
{
    if a.len() != b.len() {
        return false;
    }
    for i in 0..a.len() {
        if !a[i].same(&b[i]) {
            return false;
        }
    }
    true
}
