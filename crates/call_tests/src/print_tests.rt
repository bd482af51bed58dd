//! The printed form of a job, which no command shows: all settings in their order, the sections by their kinds.

use job_text::print::print_job;
use job_text::read::read_job;
use std::test::Fail;
use tn_text::lines::law_line_count;

/// A job as its author may write it.
const WRITTEN: &[u8] =
    b"# two boards\n\ntinsel 2\nshape 2 1 0x1 1 1 02\n\tfuel 100\r\ncode all\nF1402573 # HartId\n\nend\n\
    asm 64\n  a: nop # done\n\n end\nfill 1 0x10 0aFf\ntable 1 0\n\
    0100220000000000000000000000000000000000000000000000000000000000\nend\nhost send 0 2a\nhost idle\n\
    graph 1 16\nkind a 1 1\nend\n";

const PRINTED: &[u8] =
    b"tinsel 2\nshape 2 1 1 1 1 2\nslots 64\nlink 4\nmem 4096\nfuel 100\nturn 16\n\
    code all\nf1402573\nend\nasm 64\na: nop\n\nend\nfill 1 16 0aff\ntable 1 0\n\
    0100220000000000000000000000000000000000000000000000000000000000\nend\nhost send 0 2a\nhost idle\n\
    graph 1 16\nkind a 1 1\nend\n";

#[test]
fn job_is_printed_without_comments(rt: HostRuntime) -> Result<(), Fail> {
    assert!(rt; WRITTEN.len() < 4000);
    law_line_count(WRITTEN);
    let Ok(job) = read_job(rt.alloc(), WRITTEN) else {
        return Err(Fail::from("the job is not read"));
    };
    let text = print_job(rt.alloc(), &job)?;
    assert!(rt; text.as_slice() == PRINTED);
    Ok(())
}
