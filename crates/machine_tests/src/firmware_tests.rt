//! A thread with the firmware of a graph, which no job has yet: what one dispatch of the firmware makes of a thread at its
//! start, and which control registers the code outside the firmware may use.

ghost use Rattle.std.specs.Prelude.{◌==◌, IsTrue, Some, None, if◌then◌else◌};
ghost use Rattle.tn_thread.specs.Command.{FitsCommand};

use polite_switch::device::Device;
use polite_switch::switch::Switch;
use std::alloc::{AllocError, Global};
use std::test::Fail;
use tn_base::bytes::Bytes;
use tn_base::effect::Effect;
use tn_base::event::Trap;
use tn_base::ids::ThreadId;
use tn_base::message::Dest;
use tn_base::op::Op;
use tn_base::regs::Regs;
use tn_base::shape::{Shape, ShapeNumbers};
use tn_pages::stock::PageStock;
use tn_thread::command::Command;
use tn_thread::state::{ThreadState, WaitSet};
use tn_thread::thread::{FIRMWARE, Thread};
use tn_thread::view::View;

/// A tile on which the thread holds slot 3.
#[derive(Drop)]
struct Seen {
    can_send: bool,
    first: Option<u16>,
    key: Option<u16>,
    message: Bytes,
}

impl View for Seen {
    ghost sight = { λ v. record { can_send = v.can_send; first = v.first; key = v.key; held = λ s. if s == 3 then Some v.message else None } };

    fn can_send(&self) -> bool {
        self.can_send
    }

    fn first(&self) -> Option<u16> {
        self.first
    }

    fn key(&self) -> Option<u16> {
        self.key
    }

    fn held(&self, slot: u16) -> Option<&Bytes> {
        if slot == 3 { Some(&self.message) } else { None }
    }
}

/// One tile with two threads, in version 1.
const TWO: ShapeNumbers = ShapeNumbers {
    version: 1,
    boards_x: 1,
    boards_y: 1,
    tiles_x: 1,
    tiles_y: 1,
    cores: 1,
    threads: 2,
    slots: 4,
    link: 4,
    mem: 256,
    fuel: 100,
    turn: 16,
};

/// What a step asks of the tile; of a message where it goes and how many bytes it has.
#[derive(Clone, Copy, PartialEq)]
enum Asks {
    Nothing,
    Send(Dest, usize),
    Hand,
    Free(u16),
    Idle(bool),
    Kill(u32),
    Trap(Trap),
}

/// What an operation asks.
fn asked(op: &Op) -> Asks {
    match op {
        Op::None => Asks::Nothing,
        Op::Send(dest, message) => Asks::Send(*dest, message.as_slice().len()),
        Op::Hand => Asks::Hand,
        Op::Free(slot) => Asks::Free(*slot),
        Op::Idle(vote) => Asks::Idle(*vote),
        Op::Kill(value) => Asks::Kill(*value),
        Op::Trap(why) => Asks::Trap(*why),
    }
}

/// What a thread has become in one step: what the step asked, what the thread does, its address, what was read into x5, and
/// how many steps and sends it has made.
#[derive(Clone, Copy, PartialEq)]
struct Became {
    asks: Asks,
    state: ThreadState,
    pc: u32,
    read: u32,
    steps: u32,
    sends: u32,
}

fn look_at(thread: &Thread, op: &Op) -> Became {
    Became {
        asks: asked(op),
        state: *thread.state(),
        pc: thread.pc(),
        read: thread.regs().get(5),
        steps: thread.steps(),
        sends: thread.sends(),
    }
}

/// A tile on which slot 3 holds a message. A letter's first 16 bits are the number of its slot.
fn tile(can_send: bool, first: Option<u16>) -> Result<Seen, Fail> {
    let message = Bytes::of(&[1; 16])?;
    Ok(Seen {
        can_send,
        first,
        key: first,
        message,
    })
}

/// Whether a command enters no handler, or one where instructions may stand.
fn may_enter(c: &Command) -> bool
    ensures { IsTrue result → FitsCommand c.now }
{
    match c {
        Command::Enter { entry, .. } => *entry % 4 == 0,
        _ => true,
    }
}

/// What a thread with firmware has become after a command.
fn commanded(alloc: Global, c: Command, view: &Seen) -> Result<Became, Fail> {
    let shape = Shape::of(TWO)?;
    if !may_enter(&c) {
        return Err(Fail::from("no instruction stands there"));
    }
    let _numbers = shape.numbers();
    let mut thread = Thread::start(alloc, &shape, ThreadId(1), &[], Some(1))?;
    let op = thread.command(c, view);
    Ok(look_at(&thread, &op))
}

/// What a thread with firmware has become after code outside the firmware read or wrote a control register.
fn used(alloc: Global, csr: u16, writes: bool, view: &Seen) -> Result<Became, Fail> {
    let shape = Shape::of(TWO)?;
    let _numbers = shape.numbers();
    let mut thread = Thread::start(alloc, &shape, ThreadId(1), &[], Some(1))?;
    let effect = if writes {
        Effect::CsrWrite {
            rd: 0,
            csr,
            value: 1,
        }
    } else {
        Effect::CsrRead { rd: 5, csr }
    };
    let mut stock = PageStock::of(alloc);
    stock.reserve(1)?;
    let op = thread.apply(effect, view, &mut stock);
    Ok(look_at(&thread, &op))
}

/// The thread runs on at the firmware's address.
const RUNS: Became = Became {
    asks: Asks::Nothing,
    state: ThreadState::Run,
    pc: FIRMWARE,
    read: 0,
    steps: 1,
    sends: 0,
};

/// A command, whether no send is pending, the first slot of the queue, and what the thread becomes.
type Case = (Command, bool, Option<u16>, Became);

const BUSY: Became = Became {
    asks: Asks::Trap(Trap::SendBusy),
    state: ThreadState::Trapped(Trap::SendBusy),
    ..RUNS
};

const COMMANDS: [Case; 16] = [
    (
        Command::Recv,
        true,
        Some(2),
        Became {
            asks: Asks::Hand,
            ..RUNS
        },
    ),
    (
        Command::Recv,
        true,
        None,
        Became {
            asks: Asks::Trap(Trap::RecvEmpty),
            state: ThreadState::Trapped(Trap::RecvEmpty),
            ..RUNS
        },
    ),
    // A pin without edges sends nothing, also while a send is pending.
    (Command::KeySend(None), true, None, RUNS),
    (Command::KeySend(None), false, None, RUNS),
    (
        Command::KeySend(Some(258)),
        true,
        None,
        Became {
            asks: Asks::Send(Dest::Key(258), 16),
            sends: 1,
            ..RUNS
        },
    ),
    (Command::KeySend(Some(258)), false, None, BUSY),
    (
        Command::HostSend,
        true,
        None,
        Became {
            asks: Asks::Send(Dest::Host, 16),
            sends: 1,
            ..RUNS
        },
    ),
    (Command::HostSend, false, None, BUSY),
    (
        Command::Free(3),
        true,
        None,
        Became {
            asks: Asks::Free(3),
            ..RUNS
        },
    ),
    (
        Command::Free(2),
        true,
        None,
        Became {
            asks: Asks::Trap(Trap::BadFree),
            state: ThreadState::Trapped(Trap::BadFree),
            ..RUNS
        },
    ),
    (
        Command::Wait(1),
        false,
        None,
        Became {
            state: ThreadState::Wait(WaitSet::CAN_SEND),
            ..RUNS
        },
    ),
    (
        Command::Wait(6),
        true,
        None,
        Became {
            state: ThreadState::Wait(WaitSet::CAN_RECV),
            ..RUNS
        },
    ),
    (
        Command::Idle(true),
        true,
        None,
        Became {
            asks: Asks::Idle(true),
            state: ThreadState::Idle(true),
            ..RUNS
        },
    ),
    (
        Command::Idle(false),
        true,
        None,
        Became {
            asks: Asks::Idle(false),
            state: ThreadState::Idle(false),
            ..RUNS
        },
    ),
    (
        Command::Kill,
        true,
        None,
        Became {
            asks: Asks::Kill(0),
            state: ThreadState::Dead(0),
            ..RUNS
        },
    ),
    (
        Command::Trap(Trap::BadPin),
        true,
        None,
        Became {
            asks: Asks::Trap(Trap::BadPin),
            state: ThreadState::Trapped(Trap::BadPin),
            ..RUNS
        },
    ),
];

#[test]
fn commands(rt: HostRuntime) -> Result<(), Fail> {
    for (k, (command, can_send, first, became)) in COMMANDS.iter().enumerate() {
        let view = tile(*can_send, *first)?;
        assert!(rt;
            commanded(rt.alloc(), *command, &view)? == *became,
            "case {k}"
        );
    }
    // A handler begins at its address with its registers.
    let mut regs = Regs::zero();
    regs.set(5, 9);
    let enter = Command::Enter { entry: 64, regs };
    let begins = Became {
        pc: 64,
        read: 9,
        ..RUNS
    };
    assert!(rt; commanded(rt.alloc(), enter, &tile(true, None)?)? == begins);
    Ok(())
}

/// The use of the control register traps.
const BAD_CSR: Became = Became {
    asks: Asks::Trap(Trap::BadCsr),
    state: ThreadState::Trapped(Trap::BadCsr),
    ..RUNS
};

/// A control register, whether it is written, and what the thread becomes. Of all registers code outside the firmware may use HartId and SendSlot.
const REGISTERS: [(u16, bool, Became); 14] = [
    (
        0xF14,
        false,
        Became {
            pc: FIRMWARE + 4,
            read: 1,
            ..RUNS
        },
    ),
    (
        0x80C,
        false,
        Became {
            pc: FIRMWARE + 4,
            read: 0x5000_0000,
            ..RUNS
        },
    ),
    (0x800, false, BAD_CSR),
    (0x801, false, BAD_CSR),
    (0x807, false, BAD_CSR),
    (0x802, true, BAD_CSR),
    (0x803, true, BAD_CSR),
    (0x804, true, BAD_CSR),
    (0x805, true, BAD_CSR),
    (0x806, true, BAD_CSR),
    (0x808, true, BAD_CSR),
    (0x809, true, BAD_CSR),
    (0x80A, true, BAD_CSR),
    (0x80B, true, BAD_CSR),
];

#[test]
fn registers_outside_the_firmware(rt: HostRuntime) -> Result<(), Fail> {
    let view = tile(true, Some(3))?;
    for (k, (csr, writes, became)) in REGISTERS.iter().enumerate() {
        assert!(rt;
            used(rt.alloc(), *csr, *writes, &view)? == *became,
            "case {k}"
        );
    }
    Ok(())
}

/// After an idle of the firmware that is answered: what was given, whether all registers are still zero, and the address.
fn answered(alloc: Global, value: u32) -> Result<(u32, bool, u32), Fail> {
    let shape = Shape::of(TWO)?;
    let _numbers = shape.numbers();
    let view = tile(true, None)?;
    let mut thread = Thread::start(alloc, &shape, ThreadId(1), &[], Some(1))?;
    let _op = thread.command(Command::Idle(true), &view);
    thread.answer(value);
    let _resumed = thread.resume(&view);
    Ok((thread.given(), *thread.regs() == Regs::zero(), thread.pc()))
}

/// The completion of the firmware's idle writes no register and stays at its address.
#[test]
fn answers(rt: HostRuntime) -> Result<(), Fail> {
    assert!(rt; answered(rt.alloc(), 1)? == (1, true, FIRMWARE));
    Ok(())
}

/// A softswitch without a device.
fn no_device(alloc: Global) -> Result<Switch, AllocError> {
    Switch::of(alloc, Vec::new(alloc), Vec::new(alloc))
}

/// A softswitch of one device, which has the state at address 64 and is vertex 9.
fn one_device(alloc: Global) -> Result<Switch, AllocError> {
    let mut devices = Vec::new(alloc);
    devices.push(Device {
        vertex: 9,
        state: 64,
        entries: [4, 8, 12, 16, 20],
        keys: Vec::new(alloc),
    })?;
    Switch::of(alloc, devices, Vec::new(alloc))
}

/// Whether the first dispatch of a thread asks this, and leaves the thread at this address with these values in ra, sp and a0 to a4.
fn dispatches(
    alloc: Global,
    switch: Switch,
    view: &Seen,
    asks: &Asks,
    pc: u32,
    wanted: &[u32; 7],
) -> Result<bool, Fail> {
    let shape = Shape::of(TWO)?;
    let _numbers = shape.numbers();
    let mut thread = Thread::start(alloc, &shape, ThreadId(1), &[], Some(1))?;
    thread.give_switch(switch);
    let ask = thread.dispatch(view);
    let op = thread.op_of(ask);
    let regs = thread.regs();
    let seen = [
        regs.get(1),
        regs.get(2),
        regs.get(10),
        regs.get(11),
        regs.get(12),
        regs.get(13),
        regs.get(14),
    ];
    Ok(asked(&op) == *asks && thread.pc() == pc && seen == *wanted)
}

/// The handler init of a device is entered, with its registers.
fn enters_init(alloc: Global) -> Result<bool, Fail> {
    let switch = one_device(alloc)?;
    let regs = [FIRMWARE, 256, 64, 0, 0, 9, 0];
    dispatches(alloc, switch, &tile(true, None)?, &Asks::Nothing, 4, &regs)
}

/// Without a device the thread is idle, and votes for the end.
fn idles(alloc: Global) -> Result<bool, Fail> {
    let switch = no_device(alloc)?;
    dispatches(
        alloc,
        switch,
        &tile(true, None)?,
        &Asks::Idle(true),
        FIRMWARE,
        &[0; 7],
    )
}

/// A letter whose key has no in-edge is a trap.
fn traps(alloc: Global) -> Result<bool, Fail> {
    let switch = no_device(alloc)?;
    let trap = Asks::Trap(Trap::BadLocalKey);
    dispatches(
        alloc,
        switch,
        &tile(true, Some(3))?,
        &trap,
        FIRMWARE,
        &[0; 7],
    )
}

/// A dispatch enters the handler init of a device. Without a device the thread is idle, or it traps at a letter whose key has no
/// in-edge.
#[test]
fn first_dispatches(rt: HostRuntime) -> Result<(), Fail> {
    assert!(rt; enters_init(rt.alloc())?);
    assert!(rt; idles(rt.alloc())?);
    assert!(rt; traps(rt.alloc())?);
    Ok(())
}
