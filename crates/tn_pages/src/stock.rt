//! Stocks of pages.

ghost use Rattle.std.specs.Prelude.{◌≡◌, ◌≤◌, ◌<◌, ◌-◌, IfOk, MatchResult, length, max, replicate};

use crate::page::Page;
use std::alloc::{AllocError, Global};
use std::marker::Model;

/// How many pages a full stock has.
pub const FULL: u32 = 64;

/// At most 64 pages of zeros that are not in a memory yet. A contract sees how many there are.
#[derive(Drop)]
pub struct PageStock {
    pages: Vec<Page>,
}

impl Model for PageStock {
    ghost use Rattle.std.specs.Prelude.{ℕ, length};
    ghost use Rattle.tn_pages.specs.Pages.{StockFits};

    ghost Value = { ℕ };

    ghost view = { λ s. length s.pages.items };

    ghost invariant = { λ s. StockFits s.pages.items };
}

impl PageStock {
    /// A stock without pages. It takes no memory.
    pub fn of(alloc: Global) -> PageStock
        ensures { result ≡ 0 }
    {
        PageStock {
            pages: Vec::new(alloc),
        }
    }

    /// How many pages there are.
    pub fn len(&self) -> u32
        ensures value { result ≡ self.now }
        ensures few { result ≤ 64 }
    {
        self.pages.len() as u32
    }

    /// Makes pages until there are at least `n`. No page goes. Where memory is wanting, nothing changes.
    pub fn reserve(&mut self, n: u32) -> Result<(), AllocError>
        requires { n ≤ 64 }
        ensures { MatchResult result (λ _. self.new ≡ max self.old n) (λ _. self.new ≡ self.old) }
    {
        let held = self.pages.len();
        let filled = self.fill(n as usize);
        if filled.is_err() {
            self.pages.truncate(held);
        }
        filled
    }

    /// A stock of as many pages.
    pub fn copy(&self) -> Result<PageStock, AllocError>
        ensures { IfOk result (λ s. s ≡ self.now) }
    {
        let mut stock = PageStock::of(self.pages.allocator().clone()?);
        stock.reserve(self.len())?;
        Ok(stock)
    }

    /// Takes a page of zeros out of a stock that has one.
    #[inline(always)]
    pub(crate) fn take(&mut self) -> Page
        requires { 0 < self.old }
        ensures page { result ≡ replicate 256 0 }
        ensures stock { self.new ≡ self.old - 1 }
    {
        self.pages.pop().unwrap()
    }

    /// Makes pages until there are at least `n`, or memory is wanting.
    fn fill(&mut self, n: usize) -> Result<(), AllocError>
        requires { n ≤ 64 }
        ensures filled { IfOk result (λ _. self.new ≡ max self.old n) }
        ensures more { self.old ≤ self.new }
    {
        let held = self.pages.len();
        for _i in held..n {
            let page = Page::zeros(self.pages.allocator().clone()?)?;
            self.pages.push(page)?;
        }
        Ok(())
    }
}
