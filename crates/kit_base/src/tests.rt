ghost use Rattle.std.specs.Prelude.{Some};

use super::*;
use std::test::Fail;

fn octets(rt: &HostRuntime, text: &[u8]) -> Result<Octets, NoMemory> {
    Octets::from_slice(rt.alloc(), text)
}

fn words(rt: &HostRuntime, text: &[u8]) -> Result<Words, NoMemory> {
    let mut all = Words::new(rt.alloc());
    all.push(octets(rt, text)?)?;
    Ok(all)
}

/// Whether this line comes next.
fn gives<S: Source>(lines: &mut Lines, source: &mut S, text: &[u8]) -> bool {
    match lines.next(source) {
        Ok(Line::Text(line)) => line.as_slice() == text,
        _ => false,
    }
}

/// A source that counts its reads and notes what they ask for.
#[derive(Drop)]
struct Counting {
    inner: MemSource,
    reads: u64,
    asked: usize,
}

impl Source for Counting {
    ghost left = { λ s. Some s.inner.left };

    ghost faults = { λ s. s.inner.plan.faults };

    fn read(&mut self, into: &mut [u8]) -> Result<usize, Failed> {
        self.reads = self.reads.saturating_add(1);
        self.asked = into.len();
        self.inner.read(into)
    }
}

/// A sink that notes how many octets each write was given.
#[derive(Drop)]
struct Noting {
    inner: MemSink,
    handed: [usize; 4],
    writes: usize,
}

impl Sink for Noting {
    ghost held = { λ s. Some s.inner.held };

    ghost faults = { λ s. s.inner.plan.faults };

    fn write(&mut self, piece: &[u8]) -> Result<usize, Failed> {
        if self.writes < 4 {
            self.handed[self.writes] = piece.len();
            self.writes += 1;
        }
        self.inner.write(piece)
    }
}

#[test]
fn a_failed_read_is_reported_and_stays(rt: HostRuntime) -> Result<(), Fail> {
    let mut source = MemSource::new(octets(&rt, b"ab\ncd\n")?, words(&rt, b"2")?, 3);
    let mut lines = Lines::new(rt.alloc(), 4, 100);
    assert!(rt; gives(&mut lines, &mut source, b"ab"));
    assert!(rt; matches!(lines.next(&mut source), Err(LineErr::Failed)));
    assert!(rt; matches!(lines.next(&mut source), Err(LineErr::Failed)));
    Ok(())
}

#[test]
fn a_read_asks_for_a_piece_or_for_one_octet_too_many(rt: HostRuntime) -> Result<(), Fail> {
    let inner = MemSource::new(octets(&rt, b"ab\ncd\ne")?, Words::new(rt.alloc()), 100);
    let mut source = Counting {
        inner,
        reads: 0,
        asked: 0,
    };
    let mut lines = Lines::new(rt.alloc(), 4, 65_540);
    assert!(rt; gives(&mut lines, &mut source, b"ab"));
    assert_eq!(rt; (source.reads, source.asked), (1, 65_536));
    assert!(rt; gives(&mut lines, &mut source, b"cd"));
    assert_eq!(rt; source.reads, 1, "a line is kept");
    assert!(rt; gives(&mut lines, &mut source, b"e"));
    assert_eq!(rt;
        (source.reads, source.asked),
        (2, 65_534),
        "7 octets of 65,541 are taken"
    );
    Ok(())
}

#[test]
fn a_write_is_handed_all_that_is_left(rt: HostRuntime) -> Result<(), Fail> {
    let inner = MemSink::new(rt.alloc(), Words::new(rt.alloc()), 4)?;
    let mut sink = Noting {
        inner,
        handed: [0; 4],
        writes: 0,
    };
    assert!(rt; write_whole(&mut sink, b"0123456789").is_ok());
    assert_eq!(rt; sink.handed, [10, 6, 2, 0]);
    assert_eq!(rt; sink.inner.held(), b"0123456789".as_slice());
    Ok(())
}

// Where an allocation fails, as tests/fail_alloc has it, this looks at what is reported.
#[test]
fn where_memory_ends_no_other_line_is_reported(rt: HostRuntime) -> Result<(), Fail> {
    let text = octets(&rt, b"ab\r\nlonger\nc")?;
    let mut source = MemSource::new(text, Words::new(rt.alloc()), 3);
    let mut lines = Lines::new(rt.alloc(), 4, 100);
    for want in [b"ab".as_slice(), b"".as_slice(), b"c".as_slice()] {
        match lines.next(&mut source) {
            Ok(Line::Text(line)) => assert!(rt; line.as_slice() == want),
            Ok(Line::Long) => assert!(rt; want.is_empty()),
            Err(LineErr::NoMemory) => return Ok(()),
            _ => assert!(rt; false),
        }
    }
    Ok(())
}
