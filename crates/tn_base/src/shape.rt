//! The numbers of a machine.

ghost use Rattle.std.specs.Prelude.{◌≡◌, ◌≤◌};
ghost use Rattle.tn_base.specs.Shape.{within, shape_of, first_fault, thread_count, WithinLimits};

use std::marker::Model;

/// The numbers that a machine is made of.
#[derive(Clone, Copy, PartialEq, Eq, Debug)]
pub struct ShapeNumbers {
    /// The version of the job's text, 1 or 2: messages have up to 4 flits in 1, up to 8 in 2.
    pub version: u32,
    /// Boards from west to east, 1 to 4.
    pub boards_x: u32,
    /// Boards from north to south, 1 to 4.
    pub boards_y: u32,
    /// Tiles of a board from west to east, 1 to 4.
    pub tiles_x: u32,
    /// Tiles of a board from north to south, 1 to 4.
    pub tiles_y: u32,
    /// Cores of a tile, 1 to 4.
    pub cores: u32,
    /// Threads of a core, 1 to 16.
    pub threads: u32,
    /// Message slots of a tile, 4 to 512.
    pub slots: u32,
    /// Packets that a link holds, 1 to 16.
    pub link: u32,
    /// Private bytes of a thread, a multiple of 64 from 64 to 65,536. All threads together have at most
    /// 268,435,456.
    pub mem: u32,
    /// Steps that a thread may make, at least 1.
    pub fuel: u32,
    /// Steps that one turn may make, 1 to 64.
    pub turn: u32,
}

/// The first number that is outside its limits.
#[derive(Clone, Copy, PartialEq, Eq, Debug)]
pub enum ShapeFault {
    Version,
    Boards,
    Tiles,
    Cores,
    Threads,
    Slots,
    Link,
    Mem,
    /// The private bytes of all threads together.
    Total,
    Fuel,
    Turn,
}

/// The numbers of a machine, each within its limits. A contract sees the numbers.
#[derive(Clone, Copy, PartialEq, Eq, Debug)]
pub struct Shape {
    numbers: ShapeNumbers,
}

impl Model for Shape {
    ghost use Rattle.std.specs.Prelude.{IsTrue};
    ghost use Rattle.tn_base.specs.declared.shape.ShapeNumbers.{ShapeNumbers};
    ghost use Rattle.tn_base.specs.Shape.{is_shape};

    ghost Value = { ShapeNumbers };

    ghost view = { λ s. s.numbers };

    ghost invariant = { λ s. IsTrue (is_shape s.numbers) };

    ghost inverse = { λ n. record { numbers = n } };
}

/// Whether a number is from the least to the greatest.
fn is_within(least: u32, greatest: u32, n: u32) -> bool
    ensures { result ≡ within least greatest n }
{
    least <= n && n <= greatest
}

/// How many threads the numbers name.
fn count_threads(n: &ShapeNumbers) -> u32
    requires boards_x { n.now.boards_x ≤ 4 }
    requires boards_y { n.now.boards_y ≤ 4 }
    requires tiles_x { n.now.tiles_x ≤ 4 }
    requires tiles_y { n.now.tiles_y ≤ 4 }
    requires cores { n.now.cores ≤ 4 }
    requires threads { n.now.threads ≤ 16 }
    ensures value { result ≡ thread_count n.now }
    ensures small { result ≤ 16384 }
{
    n.boards_x * n.boards_y * n.tiles_x * n.tiles_y * n.cores * n.threads
}

/// The first number that is outside its limits.
fn find_fault(n: &ShapeNumbers) -> Option<ShapeFault>
    ensures { result ≡ first_fault n.now }
{
    if !is_within(1, 2, n.version) {
        return Some(ShapeFault::Version);
    }
    if !is_within(1, 4, n.boards_x) || !is_within(1, 4, n.boards_y) {
        return Some(ShapeFault::Boards);
    }
    if !is_within(1, 4, n.tiles_x) || !is_within(1, 4, n.tiles_y) {
        return Some(ShapeFault::Tiles);
    }
    if !is_within(1, 4, n.cores) {
        return Some(ShapeFault::Cores);
    }
    if !is_within(1, 16, n.threads) {
        return Some(ShapeFault::Threads);
    }
    if !is_within(4, 512, n.slots) {
        return Some(ShapeFault::Slots);
    }
    if !is_within(1, 16, n.link) {
        return Some(ShapeFault::Link);
    }
    if !is_within(64, 65536, n.mem) || n.mem % 64 != 0 {
        return Some(ShapeFault::Mem);
    }
    if u64::from(count_threads(n)) * u64::from(n.mem) > MOST_PRIVATE_BYTES {
        return Some(ShapeFault::Total);
    }
    if !is_within(1, u32::MAX, n.fuel) {
        return Some(ShapeFault::Fuel);
    }
    if !is_within(1, 64, n.turn) {
        return Some(ShapeFault::Turn);
    }
    None
}

/// The most private bytes that all threads together may have.
const MOST_PRIVATE_BYTES: u64 = 268_435_456;

impl Shape {
    /// The machine of these numbers.
    pub fn of(n: ShapeNumbers) -> Result<Shape, ShapeFault>
        ensures { result ≡ shape_of n }
    {
        match find_fault(&n) {
            Some(fault) => Err(fault),
            None => Ok(Shape { numbers: n }),
        }
    }

    /// The numbers that the machine is made of.
    #[inline(always)]
    pub fn numbers(&self) -> ShapeNumbers
        ensures value { result ≡ self.now }
        ensures limits { WithinLimits self.now }
    {
        self.numbers
    }

    /// How many threads the machine has, 1 to 16,384.
    pub fn thread_count(&self) -> u32
        ensures value { result ≡ thread_count self.now }
        ensures small { result ≤ 16384 }
    {
        count_threads(&self.numbers)
    }
}
