//! The jobs of the tests.

/// Two threads that end with their addresses, each in two steps.
pub(crate) const TWO: &[u8] = b"tinsel 1\nshape 1 1 1 1 1 2\ncode all\nf1402573\n80b51073\nend\n";

/// A thread that sends a message to itself, and traps.
pub(crate) const TRAPS: &[u8] =
    b"tinsel 1\nshape 1 1 1 1 1 1\nturn 3\ncode all\n80301073\n80601073\n00000000\nend\n";

/// A thread that spins, with 100 steps to make.
pub(crate) const SPINS: &[u8] = b"tinsel 1\nshape 1 1 1 1 1 1\nfuel 100\ncode all\n0000006f\nend\n";

/// A thread with 64 KiB ends at once.
pub(crate) const ENDS_AT_ONCE: &[u8] =
    b"tinsel 1\nshape 1 1 1 1 1 1\nmem 65536\ncode all\n80b01073\nend\n";

/// A thread with 64 KiB stores a zero at address 0, and ends.
pub(crate) const STORES_A_ZERO: &[u8] =
    b"tinsel 1\nshape 1 1 1 1 1 1\nmem 65536\ncode all\n00002023\n80b01073\nend\n";

/// A thread writes 77 into its message, sends it to itself, polls until it is there, takes it, reads 77 from it, frees it
/// and ends with 77.
pub(crate) const ECHO: &[u8] =
    b"tinsel 1\nshape 1 1 1 1 1 1\ncode all\n500005b7\n04d00613\n00c5a023\n80301073\n\
    80601073\n80102573\nfe050ee3\n807025f3\n0005a503\n80859073\n80b51073\nend\n";

/// A thread sends itself an empty message, and ends some steps later without it.
pub(crate) const LEFT: &[u8] =
    b"tinsel 1\nshape 1 1 1 1 1 1\nturn 2\ncode all\n80301073\n80601073\n00000013\n\
    00000013\n80b01073\nend\n";

/// Thread 0 sends 64 to the thread of the other tile, which ends with it.
pub(crate) const EAST: &[u8] =
    b"tinsel 1\nshape 1 1 2 1 1 1\ncode all\nf1402573\n00051e63\n500005b7\n\
    04000613\n00c5a023\n80361073\n80601073\n80b01073\n00200693\n80969073\n807025f3\n\
    0005a503\n80b51073\nend\n";

/// Threads 0 and 1 of each of two cores. Thread 1 sends to threads 0 and 17, to thread 16, and to the host.
pub(crate) const THRICE: &[u8] = b"tinsel 1\nshape 1 1 1 1 2 2\nasm all\n\
    csrrs a0, HartId, x0\nli a1, 1\nbne a0, a1, rest\nli a2, 0x20001\n\
    csrrw x0, MaskLow, a2\ncsrrw x0, Send, a1\ncsrrw x0, WaitUntil, a1\nli a2, 16\n\
    csrrw x0, SendDest, a2\ncsrrw x0, Send, x0\ncsrrw x0, WaitUntil, a1\nli a2, 0x40000000\n\
    csrrw x0, SendDest, a2\ncsrrw x0, Send, x0\n\
    rest: csrrw x0, Kill, x0\nend\n";

/// Thread 0 sends by key 2 to all three threads: to thread 1 with its key over the first word, to threads 1 and 2 and to
/// itself with keys over the first half word, and to itself by the second beat.
pub(crate) const KEYED: &[u8] = b"tinsel 1\nshape 1 1 1 1 1 3\nasm all\n\
    csrrs a0, HartId, x0\nli a4, 2\nli a5, 2\n\
    bnez a0, other\nli a1, 0x50000000\nli a2, 0x10000\n\
    sw a2, 0(a1)\ncsrrw x0, SendDest, a5\ncsrrw x0, Send, a5\n\
    j take\nother: bne a0, a5, take\nli a4, 1\n\
    take: li a0, 0\nnext: csrrw x0, WaitUntil, a5\ncsrrs a1, Recv, x0\n\
    lw a2, 0(a1)\nadd a0, a0, a2\naddi a4, a4, -1\n\
    bnez a4, next\ncsrrw x0, Kill, a0\n\
    end\ntable 0 0\n\
    0500808060402000830200030000000000000000830380000000000000000000\n\
    0100002001000000000000000000000000000000000000000000000000000000\nend\n";

/// Thread 0 sends by key 1: to itself with key 7, and over the boards' link, behind which a URM1 with key 8 and an MRM with
/// key 9 lead to the other board's thread.
pub(crate) const ACROSS: &[u8] = b"tinsel 1\nshape 2 1 1 1 1 1\nasm all\n\
    csrrs a0, HartId, x0\nbnez a0, quit\nli a1, 1\ncsrrw x0, SendDest, a1\n\
    li a1, 2\ncsrrw x0, Send, a1\nquit: csrrw x0, Kill, x0\nend\ntable 0 0\n\
    020000e000000000220000000000000000000000000000000000000000000000\nend\ntable 1 0\n\
    0300000001000000830480000000000000000000000000000000000000000000\nend\n";

/// Thread 0 sends by key 1 to the other board, where its message goes nowhere, and then to the thread of the other board,
/// which sends to the host, and by a key that names no beats.
pub(crate) const MEET: &[u8] = b"tinsel 1\nshape 2 1 1 1 1 1\nasm all\n\
    csrrs a0, HartId, x0\nli a1, 1\nli a2, 2\nbnez a0, east\n\
    csrrw x0, SendDest, a1\ncsrrw x0, Send, a2\ncsrrw x0, WaitUntil, a1\n\
    li a3, 1024\ncsrrw x0, SendDest, a3\ncsrrw x0, Send, x0\ncsrrw x0, Kill, x0\n\
    east: li a3, 0x40000000\ncsrrw x0, SendDest, a3\ncsrrw x0, Send, x0\n\
    csrrw x0, WaitUntil, a1\ncsrrw x0, SendDest, x0\ncsrrw x0, Send, a2\ncsrrw x0, Kill, x0\nend\n\
    table 0 0\n0100220000000000000000000000000000000000000000000000000000000000\nend\n\
    table 1 0\n0000000000000000000000000000000000000000000000000000000000000000\nend\n";

/// A thread is idle with its vote against the end, and ends with what it reads.
pub(crate) const AGAINST: &[u8] =
    b"tinsel 1\nshape 1 1 1 1 1 1\ncode all\n80a015f3\n80b59073\nend\n";

/// A thread is idle with its vote for the end, and ends with what it reads.
pub(crate) const FOR: &[u8] =
    b"tinsel 1\nshape 1 1 1 1 1 1\nasm all\nli a1, 1\ncsrrw a1, Idle, a1\n\
    csrrw x0, Kill, a1\nend\n";

/// A thread waits for a message that nobody sends.
pub(crate) const WAITS: &[u8] = b"tinsel 1\nshape 1 1 1 1 1 1\ncode all\n00200513\n80951073\nend\n";

/// Thread 1 sends two messages to thread 0, which takes the first and frees it.
pub(crate) const SENDERS: &[u8] = b"tinsel 1\nshape 1 1 1 1 1 2\nasm all\n\
    csrrs a0, HartId, x0\nli a1, 1\nbeqz a0, take\n\
    csrrw x0, Send, x0\ncsrrw x0, WaitUntil, a1\ncsrrw x0, Send, x0\ncsrrw x0, Kill, x0\n\
    take: li a1, 2\ncsrrw x0, WaitUntil, a1\ncsrrs a1, Recv, x0\ncsrrw x0, Free, a1\n\
    csrrw x0, Idle, x0\nend\n";

/// Thread 0 sends to the thread of the other tile, which sends back twice. Each is idle between its letters, votes for the end, and
/// ends with the announced value.
pub(crate) const BACK: &[u8] = b"tinsel 1\nshape 1 1 2 1 1 1\nasm all\n\
    csrrs a0, HartId, x0\nli a1, 1\nbnez a0, other\nli a2, 64\n\
    csrrw x0, SendDest, a2\ncsrrw x0, Send, x0\n\
    rest: csrrw a3, Idle, a1\nbnez a3, quit\ncsrrs a4, Recv, x0\n\
    csrrw x0, Free, a4\nj rest\nquit: csrrw x0, Kill, a3\n\
    other: csrrw a3, Idle, a1\ncsrrs a4, Recv, x0\ncsrrw x0, Free, a4\n\
    csrrw x0, Send, x0\ncsrrw x0, WaitUntil, a1\ncsrrw x0, Send, x0\nj rest\nend\n";
