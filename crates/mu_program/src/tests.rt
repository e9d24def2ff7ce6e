// The adapters over a reader and a writer of which one call fails.
ghost use Rattle.std.specs.Prelude.{◌≤◌, IfOk};

use crate::absent::{NoClock, NoFlash, NoLink};
use crate::standard::{StandardInput, StandardOutput};
use mu_outside::{Clock, Failed, Flash, Link, Sink, Source};
use std::io::{self, ErrorKind, Read, Write};

// Its second call fails. Each other one gives or takes one octet, but for a call with no room, and the fourth, which
// gives or takes none.
#[derive(Drop)]
struct Stuttering {
    calls: u8,
}

impl Stuttering {
    fn count(&mut self, room: usize) -> io::Result<usize>
        ensures { IfOk result (λ n. (n ≤ 1) × (n ≤ room)) }
    {
        self.calls = self.calls.saturating_add(1);
        match self.calls {
            2 => Err(io::Error::from(ErrorKind::BrokenPipe)),
            4 => Ok(0),
            _ => Ok(room.min(1)),
        }
    }
}

impl Read for Stuttering {
    fn read(&mut self, buf: &mut [u8]) -> io::Result<usize> {
        let count = self.count(buf.len())?;
        if count == 1 {
            buf[0] = b'a';
        }
        Ok(count)
    }
}

impl Write for Stuttering {
    fn write(&mut self, buf: &[u8]) -> io::Result<usize> {
        self.count(buf.len())
    }

    fn flush(&mut self) -> io::Result<()> {
        Ok(())
    }
}

#[test]
fn a_failed_read_is_a_fault_and_the_next_goes_on(rt: HostRuntime) {
    let mut source = StandardInput::new(Stuttering { calls: 0 });
    let mut out = [0; 4];
    assert_eq!(rt; source.read(&mut out), Ok(1));
    assert_eq!(rt; out, [b'a', 0, 0, 0]);
    assert_eq!(rt; source.read(&mut out), Err(Failed));
    assert_eq!(rt; source.read(&mut out), Ok(1));
    assert_eq!(rt; source.read(&mut out), Ok(0));
}

#[test]
fn a_write_that_fails_or_takes_nothing_is_a_fault(rt: HostRuntime) {
    let mut sink = StandardOutput::new(Stuttering { calls: 0 });
    assert_eq!(rt; sink.write(b"abc"), Ok(1));
    assert_eq!(rt; sink.write(b"bc"), Err(Failed));
    assert_eq!(rt; sink.write(b"bc"), Ok(1));
    assert_eq!(rt; sink.write(b"c"), Err(Failed));
    assert_eq!(rt; sink.write(b""), Ok(0));
}

#[test]
fn what_is_absent_fails_each_call(rt: HostRuntime) {
    let mut flash = NoFlash::new();
    assert_eq!(rt; flash.pages(), 0);
    assert_eq!(rt; flash.read(0, &mut []), Err(Failed));
    let mut link = NoLink::new();
    assert_eq!(rt; link.bind(1), Err(Failed));
    assert_eq!(rt; link.send(1, 2, b"a"), Err(Failed));
    assert!(rt; link.receive(1).is_err());
    assert_eq!(rt; NoClock.now(), 0);
}
