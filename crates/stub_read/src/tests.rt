use super::*;
use std::test::Fail;

const ALL: &[u8] =
    b"send A.B c\nensure 48\nensure_row .0.10 4 4294967295\nalign 8\nchunk 44\nat 0 num . 4 be\n\
at 4 tag .1 1 le\nat 5 flag .1 8 be\nat 6 count .1 2 3 4 le\nat 7 short .2 8 9 10\nat 8 const 00ff\nat 9 const \n\
at 10 head id 4 be\nat 11 head remote 4 le\nat 12 head local 4 le\nend\nrow_copy .\nrow_swap .3\nrow_wide .4 be\n\
each .5\nalign 4\neach .\nend\nend\nswitch .6\ncase -170141183460469231731687303715884105728\nalign 1\ncase 7\n\
default\ncall 0 .\nend\nsome .7\nend\ncall 1 .0\npatch 8 12 le\nsub 0\nalign 2\nend\nsub 1\nend\nend\n";

/// How many octets of a text are read as its first stub; 0 where none is.
fn used(rt: &HostRuntime, text: &[u8]) -> usize {
    match read_stub(rt.alloc(), text) {
        Ok(stub) => stub.used,
        Err(_) => 0,
    }
}

#[test]
fn every_line_is_read_and_other_lines_are_no_text(rt: HostRuntime) -> Result<(), Fail> {
    assert_eq!(rt; used(&rt, ALL), ALL.len());
    assert_eq!(rt; used(&rt, b"send \nend\nsend x\nend\n"), 10);
    assert_eq!(rt; used(&rt, b"send x\nensure 01\nend\n"), 0);
    assert_eq!(rt; used(&rt, b"send x\nsub 1\nend\nend\n"), 0);
    Ok(())
}
