//! One step of a thread over a code.

ghost use Rattle.std.specs.Prelude.{◌≡◌, ◌≢◌, ◌≤◌, ◌<◌, ◌+◌, ◌/◌, IsTrue, is_some, slice_get};
ghost use Rattle.tn_base.specs.declared.op.Op.TheVariants as op;
ghost use Rattle.tn_thread.specs.Asks.{asks};
ghost use Rattle.tn_thread.specs.Fits.{StepFits};
ghost use Rattle.tn_thread.specs.Step.{FitsStep, runnable};
ghost use Rattle.tn_tile.specs.Alone.{NextIs};
ghost use Rattle.tn_tile.specs.Step.{due_at, fetched_at, next_step};

use rv_exec::exec::exec;
use rv_isa::instr::Instr;
use tn_base::effect::Effect;
use tn_base::event::Trap;
use tn_pages::stock::PageStock;
use tn_thread::ask::Ask;
use tn_thread::state::ThreadState;
use tn_thread::thread::Thread;
use tn_thread::view::View;

/// A thread's own part of a step, and what it asks of its tile.
#[inline(always)]
pub(crate) fn advance<V: View>(
    code: &[Option<Instr>],
    thread: &mut Thread,
    sight: &V,
    stock: &mut PageStock,
) -> Ask
    requires runnable { IsTrue (runnable (V.sight sight.now) thread.old.state) }
    requires fuel { thread.old.steps < thread.old.shape.fuel }
    requires page { 0 < stock.old }
    ensures { asks result thread.new ≡ next_step code.now (V.sight sight.now) thread.old }
{
    match thread.state() {
        ThreadState::Run => run_next(code, thread, sight, stock),
        _ => {
            resume_next(code, thread, sight);
            Ask::None
        }
    }
}

/// The step of a thread that runs.
fn run_next<V: View>(
    code: &[Option<Instr>],
    thread: &mut Thread,
    sight: &V,
    stock: &mut PageStock,
) -> Ask
    requires running { thread.old.state ≡ ThreadState.Run }
    requires fuel { thread.old.steps < thread.old.shape.fuel }
    requires page { 0 < stock.old }
    ensures { asks result thread.new ≡ next_step code.now (V.sight sight.now) thread.old }
{
    if is_due(code, thread) {
        return thread.dispatch(sight);
    }
    let effect = fetch(code, thread);
    thread.apply_asking(effect, sight, stock)
}

/// Whether a dispatch of the thread is due: it is at the firmware's address, and no code stands there.
#[inline(always)]
pub(crate) fn is_due(code: &[Option<Instr>], thread: &Thread) -> bool
    ensures { result ≡ is_some (due_at (slice_get code.now (thread.now.pc / 4)) thread.now) }
{
    match code.get((thread.pc() / 4) as usize) {
        None => thread.is_at_firmware(),
        Some(_) => false,
    }
}

/// The step of a thread that runs, whose next instruction has this effect.
#[inline(always)]
pub(crate) fn apply_next<V: View>(
    code: &[Option<Instr>],
    thread: &mut Thread,
    sight: &V,
    stock: &mut PageStock,
    effect: Effect,
) -> Ask
    requires running { thread.old.state ≡ ThreadState.Run }
    requires fuel { thread.old.steps < thread.old.shape.fuel }
    requires next { NextIs code.now effect thread.old }
    requires page { 0 < stock.old }
    ensures step { asks result thread.new ≡ next_step code.now (V.sight sight.now) thread.old }
    ensures fits { StepFits (V.sight sight.now) thread.old (asks result thread.new) }
    ensures stock { stock.old ≤ stock.new + 1 }
{
    if is_due(code, thread) {
        return thread.dispatch(sight);
    }
    thread.apply_asking(effect, sight, stock)
}

/// The next step of a thread that waits or is idle: it asks nothing.
#[inline(always)]
pub(crate) fn resume_next<V: View>(_code: &[Option<Instr>], thread: &mut Thread, sight: &V)
    requires runnable { IsTrue (runnable (V.sight sight.now) thread.old.state) }
    requires suspended { thread.old.state ≢ ThreadState.Run }
    requires fuel { thread.old.steps < thread.old.shape.fuel }
    ensures { record { thread = thread.new; op = op.None } ≡ next_step _code.now (V.sight sight.now) thread.old }
{
    let _nothing = thread.resume_asking(sight);
}

/// Executes the instruction at a thread's pc: what it writes to the registers, and its effect.
#[inline(always)]
fn fetch(code: &[Option<Instr>], thread: &mut Thread) -> Effect
    ensures row { record { thread = thread.new; effect = result } ≡ fetched_at (slice_get code.now (thread.old.pc / 4)) thread.old }
    ensures fits { FitsStep result }
{
    let pc = thread.pc();
    match code.get((pc / 4) as usize) {
        None => Effect::Trap(Trap::BadFetch),
        Some(None) => Effect::Trap(Trap::BadInstr),
        Some(Some(i)) => exec(i, pc, &mut thread.regs),
    }
}
