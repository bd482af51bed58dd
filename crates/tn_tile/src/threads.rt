//! The threads of a tile.

ghost use Rattle.std.specs.Prelude.{◌≡◌, ◌≤◌, ◌<◌, ◌↔◌, ◌+◌, ◌^◌, IfOk, IsTrue, length, map, slice_index_or, slice_set};
ghost use Rattle.tn_tile.specs.Alone.{RanAlone, Stops};
ghost use Rattle.tn_tile.specs.Kept.{with_switches};
ghost use Rattle.tn_tile.specs.Receivers.{is_dead};
ghost use Rattle.tn_tile.specs.Rows.{told};
ghost use Rattle.tn_tile.specs.Step.{no_thread};

use crate::alone::run_code;
use polite_switch::switch::Switch;
use rv_isa::instr::Instr;
use std::alloc::AllocError;
use std::marker::Model;
use tn_base::effect::Effect;
use tn_pages::stock::PageStock;
use tn_thread::state::ThreadState;
use tn_thread::thread::Thread;
use tn_thread::view::View;

/// The threads of a tile by ascending address.
#[derive(Drop)]
pub struct Threads {
    pub(crate) items: Vec<Thread>,
}

impl Model for Threads {
    ghost use Rattle.std.specs.Prelude.{List};
    ghost use Rattle.tn_thread.specs.declared.thread.Thread.{Thread};

    ghost Value = { List Thread };

    ghost view = { λ t. t.items.items };
}

impl Threads {
    /// These threads.
    pub(crate) fn of(items: Vec<Thread>) -> Threads
        ensures { result ≡ items.items }
    {
        Threads { items }
    }

    /// All threads.
    pub(crate) fn all(&self) -> &[Thread]
        ensures { result.now ≡ self.now }
    {
        &self.items
    }

    /// The thread at a place.
    #[inline(always)]
    pub(crate) fn get(&self, at: u32) -> &Thread
        requires { at < length self.now }
        ensures { result.now ≡ slice_index_or self.now at no_thread }
    {
        &self.items[at as usize]
    }

    /// Whether the thread at a place has ended.
    #[inline(always)]
    pub(crate) fn has_ended(&self, at: u32) -> bool
        requires { at < length self.now }
        ensures { result ≡ is_dead (slice_index_or self.now at no_thread).state }
    {
        has_ended(self.get(at).state())
    }

    /// Makes steps of the thread at a place as long as they ask nothing of its tile: at most this many. The thread runs.
    #[inline(always)]
    pub(crate) fn run_alone<V: View>(
        &mut self,
        at: u32,
        code: &[Option<Instr>],
        sight: &V,
        stock: &mut PageStock,
        most: u32,
    ) -> (u32, Option<Effect>)
        requires there { at < length self.old }
        requires fuel { (slice_index_or self.old at no_thread).steps + most < 2 ^ 32 }
        requires pages { most ≤ stock.old }
        ensures steps { RanAlone at result.0 code.now (V.sight sight.now) self.old self.new }
        ensures next { Stops result.0 result.1 most code.now (slice_index_or self.new at no_thread) }
        ensures stock { stock.old ≤ stock.new + result.0 }
    {
        let thread = &mut self.items[at as usize];
        run_code(code, thread, sight, stock, most)
    }

    /// A stock of so many pages.
    pub(crate) fn stock(&self, pages: u32) -> Result<PageStock, AllocError>
        requires { pages ≤ 64 }
        ensures { IfOk result (λ stock. stock ≡ pages) }
    {
        let mut stock = PageStock::of(self.items.allocator().clone()?);
        stock.reserve(pages)?;
        Ok(stock)
    }

    /// Gives each idle thread its answer.
    pub(crate) fn tell(&mut self, value: u32)
        ensures { self.new ≡ map (told value) self.old }
    {
        tell_each(&mut self.items, value);
    }

    /// The same threads.
    pub(crate) fn copy(&self) -> Result<Threads, AllocError>
        ensures { IfOk result (λ t. t ≡ self.now) }
    {
        let items = copy_threads(&self.items)?;
        Ok(Threads { items })
    }

    /// Whether the threads are equal.
    pub(crate) fn same(&self, other: &Threads) -> bool
        ensures { IsTrue result ↔ (self.now ≡ other.now) }
    {
        same_threads(&self.items, &other.items)
    }
}

/// The threads with their softswitches: the first thread gets the first, and so on.
pub(crate) fn with_switches(mut threads: Vec<Thread>, mut switches: Vec<Switch>) -> Vec<Thread>
    requires { length switches.items ≤ length threads.items }
    ensures { result.items ≡ with_switches threads.items switches.items }
{
    while let Some(switch) = switches.pop() {
        threads[switches.len()].give_switch(switch);
    }
    threads
}

/// Whether a thread has ended.
fn has_ended(state: &ThreadState) -> bool
    ensures { result ≡ is_dead state.now }
{
    match state {
        ThreadState::Dead(_) => true,
        ThreadState::Run
        | ThreadState::Wait(_)
        | ThreadState::Idle(_)
        | ThreadState::Answered(_)
        | ThreadState::Trapped(_) => false,
    }
}

/// Gives a thread its answer, if it is idle.
fn tell(t: &mut Thread, value: u32)
    ensures { t.new ≡ told value t.old }
{
    if let ThreadState::Idle(_) = t.state() {
        t.answer(value);
    }
}

/// Gives each idle thread its answer.
fn tell_each(threads: &mut Vec<Thread>, value: u32)
    ensures { threads.new.items ≡ map (told value) threads.old.items }
{
    for k in 0..threads.len() {
        tell(&mut threads[k], value);
    }
}

/// The same threads.
fn copy_threads(threads: &Vec<Thread>) -> Result<Vec<Thread>, AllocError>
    ensures { IfOk result (λ r. r.items ≡ threads.now.items) }
{
    let mut all = Vec::with_capacity(threads.allocator().clone()?, threads.len())?;
    for t in threads {
        all.push(t.copy()?)?;
    }
    Ok(all)
}

/// Whether the threads are equal.
fn same_threads(a: &Vec<Thread>, b: &Vec<Thread>) -> bool
    ensures { IsTrue result ↔ (a.now.items ≡ b.now.items) }
{
    if a.len() != b.len() {
        return false;
    }
    for i in 0..a.len() {
        if !a[i].same(&b[i]) {
            return false;
        }
    }
    true
}
