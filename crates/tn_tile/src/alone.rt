//! Steps of a thread that ask nothing of its tile, in a loop of their own: most steps are such ones.

ghost use Rattle.std.specs.Prelude.{◌≡◌, ◌≤◌, ◌<◌, ◌+◌, ◌/◌, ◌^◌, Some, slice_get};
ghost use Rattle.tn_thread.specs.Alone.{Goes, StockGoes};
ghost use Rattle.tn_thread.specs.Step.{FitsStep};
ghost use Rattle.tn_tile.specs.Alone.{Fetches, Stops, alone_at, went_alone};

use rv_exec::exec::exec;
use rv_isa::instr::Instr;
use tn_base::effect::Effect;
use tn_base::event::Trap;
use tn_pages::stock::PageStock;
use tn_thread::thread::Thread;
use tn_thread::view::View;

/// Makes steps of a thread that runs, as long as they ask nothing of its tile, and at most so many. It says how many, and
/// if it stopped before the most, the effect of the next instruction.
#[inline(always)]
pub(crate) fn run_code<V: View>(
    code: &[Option<Instr>],
    thread: &mut Thread,
    sight: &V,
    stock: &mut PageStock,
    most: u32,
) -> (u32, Option<Effect>)
    requires fuel { thread.old.steps + most < 2 ^ 32 }
    requires pages { most ≤ stock.old }
    ensures steps { went_alone result.0 code.now (V.sight sight.now) thread.old ≡ Some thread.new }
    ensures next { Stops result.0 result.1 most code.now thread.new }
    ensures stock { stock.old ≤ stock.new + result.0 }
{
    let mut pc = thread.pc();
    let mut made = 0;
    while made < most {
        let Some(next) = step_alone(code, pc, thread, sight, stock) else {
            thread.catch_up(made, pc);
            let effect = fetch_at(code, pc, thread);
            return (made, Some(effect));
        };
        pc = next;
        made += 1;
    }
    thread.catch_up(made, pc);
    (made, None)
}

/// Executes the instruction at `pc`, where its step asks nothing of the tile, and says where the thread goes on.
#[inline(always)]
fn step_alone<V: View>(
    code: &[Option<Instr>],
    pc: u32,
    thread: &mut Thread,
    sight: &V,
    stock: &mut PageStock,
) -> Option<u32>
    requires { 0 < stock.old }
    ensures step { Goes result (alone_at (slice_get code.now (pc / 4)) (V.sight sight.now) pc thread.old) thread.old thread.new }
    ensures stock { StockGoes result stock.old stock.new }
{
    match code.get((pc / 4) as usize) {
        Some(Some(i)) => {
            let effect = exec(i, pc, &mut thread.regs);
            thread.go_alone(effect, sight, stock, pc)
        }
        _ => None,
    }
}

/// Executes the instruction at `pc`: what it writes to the registers, and its effect.
#[inline(always)]
fn fetch_at(code: &[Option<Instr>], pc: u32, thread: &mut Thread) -> Effect
    ensures row { Fetches (slice_get code.now (pc / 4)) result pc thread.old thread.new }
    ensures fits { FitsStep result }
{
    match code.get((pc / 4) as usize) {
        None => Effect::Trap(Trap::BadFetch),
        Some(None) => Effect::Trap(Trap::BadInstr),
        Some(Some(i)) => exec(i, pc, &mut thread.regs),
    }
}
