// A node of one image, and a distributor, on flashes of banks of one page.
use mu_command_line::Status;
use mu_format::{Format, Formatted, Kind, format};
use mu_outside::{BytesSink, BytesSource, FaultyFlash, Flash, Pattern, RamFlash};
use mu_store::{BankState, Booted, boot};
use std::alloc::Global;
use std::test::Fail;

const NODE: Format = Format {
    kind: Kind::Node,
    pages: 1,
    version: 7,
};

// The calls of a source and of a sink that fail.
#[derive(Clone, Copy)]
struct Failing<'a> {
    source: &'a [u32],
    sink: &'a [u32],
}

const NONE: Failing<'static> = Failing {
    source: &[],
    sink: &[],
};

// Whether a node of these octets ends so, with this text.
fn ends<F: Flash + Drop>(
    alloc: Global,
    flash: F,
    octets: &[u8],
    failing: Failing<'_>,
    status: Status,
    text: &str,
) -> Result<bool, Fail> {
    let mut source = BytesSource::new(alloc, octets, failing.source)?;
    let mut sink = BytesSink::new(alloc, 64, failing.sink)?;
    let ended = format(NODE, flash, &mut source, &mut sink);
    Ok(ended.status == status && sink.bytes() == text.as_bytes())
}

fn ram(alloc: Global) -> Result<RamFlash, Fail> {
    Ok(RamFlash::new(alloc, 6)?)
}

// The count of the record of a flash, and the size and the version of the image in bank 0.
fn shown(flash: RamFlash) -> Option<(u32, u32, u32)> {
    match boot(flash) {
        Ok(Booted::Rest(store)) => match store.bank_state(0) {
            BankState::Sealed(meta) => Some((store.count(), meta.size, meta.version)),
            _ => None,
        },
        _ => None,
    }
}

#[test]
fn a_node_is_made(rt: HostRuntime) -> Result<(), Fail> {
    let alloc = rt.alloc();
    let mut source = BytesSource::new(alloc, b"abc", &[])?;
    let mut sink = BytesSink::new(alloc, 64, &[])?;
    let Formatted { status, flash } = format(NODE, ram(alloc)?, &mut source, &mut sink);
    assert_eq!(rt; status, Status::Done);
    assert!(rt; sink.bytes() == b"formatted 6\n".as_slice());
    assert_eq!(rt; shown(flash), Some((2, 3, 7)));
    assert!(rt;
        ends(
            alloc,
            ram(alloc)?,
            &[5; 4096],
            NONE,
            Status::Done,
            "formatted 6\n"
        )?
    );
    Ok(())
}

#[test]
fn an_image_that_does_not_fit_is_refused(rt: HostRuntime) -> Result<(), Fail> {
    let alloc = rt.alloc();
    assert!(rt;
        ends(
            alloc,
            ram(alloc)?,
            b"",
            NONE,
            Status::Refused,
            "refused 0 0 short\n"
        )?
    );
    assert!(rt;
        ends(
            alloc,
            ram(alloc)?,
            &[5; 4097],
            NONE,
            Status::Refused,
            "refused 0 4096 long\n"
        )?
    );
    Ok(())
}

#[test]
fn a_flash_with_other_pages_is_refused_and_stays_as_it_was(rt: HostRuntime) -> Result<(), Fail> {
    let alloc = rt.alloc();
    for pages in &[0, 5, 7] {
        let mut source = BytesSource::new(alloc, b"abc", &[])?;
        let mut sink = BytesSink::new(alloc, 64, &[])?;
        let ended = format(NODE, RamFlash::new(alloc, *pages)?, &mut source, &mut sink);
        assert_eq!(rt; ended.status, Status::Refused);
        assert!(rt; sink.bytes() == b"refused 0 0 value\n".as_slice());
        for octet in ended.flash.octets() {
            assert_eq!(rt; *octet, 255);
        }
    }
    Ok(())
}

#[test]
fn each_device_that_fails_ends_it(rt: HostRuntime) -> Result<(), Fail> {
    let alloc = rt.alloc();
    let source = Failing {
        source: &[2],
        sink: &[],
    };
    let sink = Failing {
        source: &[],
        sink: &[2],
    };
    assert!(rt; ends(alloc, ram(alloc)?, b"abc", source, Status::SourceFault, "")?);
    assert!(rt;
        ends(
            alloc,
            ram(alloc)?,
            b"abc",
            sink,
            Status::SinkFault,
            "formatted "
        )?
    );
    assert!(rt; ends(alloc, ram(alloc)?, b"", sink, Status::SinkFault, "refused ")?);
    Ok(())
}

// The operations of a node of one page: both control pages are erased and the first is programmed, the image's page is erased and programmed, and
// the second record is programmed.
#[test]
fn each_operation_of_the_flash_that_fails_ends_it(rt: HostRuntime) -> Result<(), Fail> {
    let alloc = rt.alloc();
    for number in 1..=6 {
        for pattern in &[Pattern::Old, Pattern::New] {
            let flash = FaultyFlash::new(alloc, &[255; 24576], &[(number, *pattern)], &[])?;
            assert!(rt; ends(alloc, flash, b"abc", NONE, Status::FlashFault, "")?);
        }
    }
    let flash = FaultyFlash::new(alloc, &[255; 24576], &[(7, Pattern::Old)], &[])?;
    assert!(rt; ends(alloc, flash, b"abc", NONE, Status::Done, "formatted 6\n")?);
    Ok(())
}

// The count of the record of a flash whose banks are not being filled, and how many banks it has.
fn banks(flash: RamFlash) -> Option<(u32, u8)> {
    match boot(flash) {
        Ok(Booted::Rest(store)) => Some((store.count(), store.banks())),
        _ => None,
    }
}

#[test]
fn a_distributor_is_made_without_an_input(rt: HostRuntime) -> Result<(), Fail> {
    let alloc = rt.alloc();
    let what = Format {
        kind: Kind::Distributor,
        pages: 1,
        version: 7,
    };
    let mut source = BytesSource::new(alloc, b"abc", &[1])?;
    let mut sink = BytesSink::new(alloc, 64, &[])?;
    let Formatted { status, flash } = format(
        what,
        RamFlash::new(alloc, 10)?,
        &mut source,
        &mut sink,
    );
    assert_eq!(rt; status, Status::Done);
    assert!(rt; sink.bytes() == b"formatted 10\n".as_slice());
    assert_eq!(rt; banks(flash), Some((1, 4)));
    Ok(())
}
