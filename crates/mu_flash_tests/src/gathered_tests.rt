// An output that gathers, over one in memory.
ghost use Rattle.std.specs.Prelude.{◌≡◌, Some};
ghost use Rattle.mu_outside.specs.Bytes.{sink_octets};

use mu_outside::{BytesSink, Failed, Gather, Gathered, Lent, Loan, Sink};
use std::marker::Brand;
use std::test::Fail;

// Writes two pieces and hands them on, twice where the first time fails.
fn two_pieces<'k, N: Loan>(
    lent: Lent<'k, BytesSink>,
) -> (
    Lent<'k, BytesSink>,
    [Result<usize, Failed>; 2],
    [Result<(), Failed>; 2],
)
    requires name { lent.output.ghost_name ≡ N.name }
    requires start { Some (sink_octets lent.output.now) ≡ N.start }
    ensures { result.0.output.ghost_name ≡ lent.entry.output.ghost_name }
{
    let mut gathered: Gathered<'k, BytesSink, N> = Gathered::new(lent);
    let written = [gathered.write(b"abc"), gathered.write(b"de")];
    let handed = [gathered.flush(), gathered.flush()];
    (gathered.back(), written, handed)
}

// Writes as much as is gathered at most, and then an octet.
fn one_more<'k, N: Loan>(
    lent: Lent<'k, BytesSink>,
) -> (Lent<'k, BytesSink>, [Result<usize, Failed>; 2])
    requires name { lent.output.ghost_name ≡ N.name }
    requires start { Some (sink_octets lent.output.now) ≡ N.start }
    ensures { result.0.output.ghost_name ≡ lent.entry.output.ghost_name }
{
    let mut gathered: Gathered<'k, BytesSink, N> = Gathered::new(lent);
    let written = [gathered.write(&[7; 65_536]), gathered.write(b"a")];
    (gathered.back(), written)
}

#[test]
fn a_failure_loses_nothing(rt: HostRuntime) -> Result<(), Fail> {
    let mut sink = BytesSink::new(rt.alloc(), 9, &[1])?;
    let lent = Lent::new(&mut sink);
    let done = two_pieces::<Brand>(lent);
    assert_eq!(rt; done.1, [Ok(3), Ok(2)]);
    assert_eq!(rt; done.2, [Err(Failed), Ok(())]);
    assert_eq!(rt; sink.bytes(), b"abcde".as_slice());
    Ok(())
}

#[test]
fn what_was_not_taken_stays(rt: HostRuntime) -> Result<(), Fail> {
    let mut sink = BytesSink::new(rt.alloc(), 4, &[])?;
    let lent = Lent::new(&mut sink);
    let done = two_pieces::<Brand>(lent);
    assert_eq!(rt; done.2, [Err(Failed), Err(Failed)]);
    assert_eq!(rt; sink.bytes(), b"abcd".as_slice());
    Ok(())
}

#[test]
fn it_hands_on_once_it_is_full(rt: HostRuntime) -> Result<(), Fail> {
    let mut sink = BytesSink::new(rt.alloc(), 70_000, &[])?;
    let lent = Lent::new(&mut sink);
    let done = one_more::<Brand>(lent);
    assert_eq!(rt; done.1, [Ok(65_536), Ok(1)]);
    assert_eq!(rt; sink.bytes(), [7; 65_536].as_slice());
    Ok(())
}
