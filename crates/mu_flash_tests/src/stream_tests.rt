// Inputs and outputs in memory.
use mu_outside::{BytesSink, BytesSource, Failed, Limited, Sink, Source};
use std::test::Fail;

// Through the bound, as every caller reads.
fn read_from<S: Source>(source: &mut S, out: &mut [u8]) -> Result<usize, Failed> {
    source.read(out)
}

fn write_to<K: Sink>(sink: &mut K, bytes: &[u8]) -> Result<usize, Failed> {
    sink.write(bytes)
}

#[test]
fn a_source_gives_its_octets_and_then_ends(rt: HostRuntime) -> Result<(), Fail> {
    let mut source = BytesSource::new(rt.alloc(), &[1, 2, 3, 4, 5], &[])?;
    let mut out = [0; 3];
    assert_eq!(rt; read_from(&mut source, &mut out), Ok(3));
    assert_eq!(rt; out, [1, 2, 3]);
    assert_eq!(rt; read_from(&mut source, &mut []), Ok(0));
    assert_eq!(rt; read_from(&mut source, &mut out), Ok(2));
    assert_eq!(rt; out, [4, 5, 3]);
    assert_eq!(rt; read_from(&mut source, &mut out), Ok(0));
    Ok(())
}

#[test]
fn the_named_reads_fail_and_lose_nothing(rt: HostRuntime) -> Result<(), Fail> {
    let mut source = BytesSource::new(rt.alloc(), &[1, 2, 3], &[4, 1, 0])?;
    let mut out = [0; 2];
    assert_eq!(rt; read_from(&mut source, &mut out), Err(Failed));
    assert_eq!(rt; out, [0, 0]);
    assert_eq!(rt; read_from(&mut source, &mut out), Ok(2));
    assert_eq!(rt; out, [1, 2]);
    assert_eq!(rt; read_from(&mut source, &mut out), Ok(1));
    assert_eq!(rt; read_from(&mut source, &mut out), Err(Failed));
    assert_eq!(rt; read_from(&mut source, &mut out), Ok(0));
    Ok(())
}

#[test]
fn a_sink_takes_what_fits_and_then_fails(rt: HostRuntime) -> Result<(), Fail> {
    let mut sink = BytesSink::new(rt.alloc(), 4, &[2])?;
    assert_eq!(rt; write_to(&mut sink, &[1, 2, 3]), Ok(3));
    assert_eq!(rt; write_to(&mut sink, &[4, 5]), Err(Failed));
    assert_eq!(rt; sink.bytes(), [1, 2, 3].as_slice());
    assert_eq!(rt; write_to(&mut sink, &[4, 5]), Ok(1));
    assert_eq!(rt; write_to(&mut sink, &[5]), Err(Failed));
    assert_eq!(rt; write_to(&mut sink, &[]), Ok(0));
    assert_eq!(rt; sink.bytes(), [1, 2, 3, 4].as_slice());
    Ok(())
}

#[test]
fn a_limit_ends_an_input_early(rt: HostRuntime) -> Result<(), Fail> {
    let mut source = BytesSource::new(rt.alloc(), b"abcdef", &[3])?;
    let mut out = [0; 3];
    let mut limited = Limited::new(&mut source, 4);
    assert_eq!(rt; limited.read(&mut out), Ok(3));
    assert_eq!(rt; out, [b'a', b'b', b'c']);
    assert_eq!(rt; limited.read(&mut out), Ok(1));
    assert_eq!(rt; out[0], b'd');
    assert_eq!(rt; limited.read(&mut out), Ok(0));
    assert_eq!(rt; source.read(&mut out), Err(Failed));
    assert_eq!(rt; source.read(&mut out), Ok(2));
    assert_eq!(rt; out, [b'e', b'f', b'c']);
    Ok(())
}
