//! Texts of graphs, which no command reads yet. Their faults were worked out by hand.

use graph_text::graph::GraphKind;
use graph_text::read::read_graph;
use std::alloc::Global;
use std::process::Abort;
use tn_text::lines::law_line_count;
use tn_text::stop::{Fault, Stop};

/// The first fault of a text whose first line is line 10, or None where the text is a graph.
fn fault_of<H: Abort>(rt: &H, alloc: Global, text: &[u8]) -> Option<(u32, GraphKind)> {
    assert!(rt; text.len() < 4000);
    law_line_count(text);
    match read_graph(alloc, text, 10) {
        Err(Stop::Fault(Fault { line, kind })) => Some((line, kind)),
        Err(Stop::Memory) => panic!(rt; "no memory"),
        Ok(_) => None,
    }
}

static CASES: [(&'static [u8], Option<(u32, GraphKind)>); 20] = [
    (
        b"graph 1 4\nkind sum 1 3\nvertex a sum 1 0 3\n\tvertex b sum -2 # two\r\n\nedge a 0 b\nedge b 0x0 a 7\n",
        None,
    ),
    (b"", Some((10, GraphKind::BadLine))),
    (b"\ngraph 1 1\n", Some((10, GraphKind::BadLine))),
    (b"graph 9 1\n", Some((10, GraphKind::BadNumber))),
    (b"graph 8 64\n", Some((10, GraphKind::NoKind))),
    (b"graph 8 64\nkind k 4 16", Some((10, GraphKind::NoVertex))),
    (b"graph 1 1\ngraph 1 1\n", Some((11, GraphKind::BadLine))),
    (b"graph 1 1\nkind k 5 1\n", Some((11, GraphKind::BadNumber))),
    (
        b"graph 1 1\nkind k x 99999999999\n",
        Some((11, GraphKind::BadLine)),
    ),
    (
        b"graph 1 1\nkind k 1 1\n\nkind k 1 17\n",
        Some((13, GraphKind::BadNumber)),
    ),
    (
        b"graph 1 1\nkind k 1 1\n\nkind k 1 1\n",
        Some((13, GraphKind::Twice)),
    ),
    (
        b"graph 1 1\nkind k 1 1\nvertex k k -2147483648\nvertex v k -2147483649\n",
        Some((13, GraphKind::BadNumber)),
    ),
    (
        b"graph 1 1\nkind k 1 1\nvertex v k -0x1\n",
        Some((12, GraphKind::BadLine)),
    ),
    (
        b"graph 1 1\nkind k 1 1\nvertex v j 1 2\n",
        Some((12, GraphKind::NoKind)),
    ),
    (
        b"graph 1 1\nkind k 1 1\nvertex v k 1 2\n",
        Some((12, GraphKind::TooMany)),
    ),
    (
        b"graph 1 1\nkind k 1 1\nvertex v k\nvertex v j\n",
        Some((13, GraphKind::Twice)),
    ),
    (
        b"graph 1 1\nkind k 1 1\nvertex v k\nedge v 1 w\n",
        Some((13, GraphKind::NoVertex)),
    ),
    (
        b"graph 1 1\nkind k 1 1\nvertex v k\nedge v 1 v\n",
        Some((13, GraphKind::NoPin)),
    ),
    (
        b"graph 1 1\nkind k 1 1\nvertex v k\nedge v 0 v -1\n",
        Some((13, GraphKind::BadLine)),
    ),
    (
        b"graph 1 1\nkind k 1 1\nvertex v k\nedge v 0 v 0xffffffff\nend\n",
        Some((14, GraphKind::BadLine)),
    ),
];

#[test]
fn first_fault_of_a_graph_is_at_its_line(rt: HostRuntime) {
    for (k, (text, fault)) in CASES.iter().enumerate() {
        assert!(rt; fault_of(&rt, rt.alloc(), *text) == *fault, "case {k}");
    }
}
