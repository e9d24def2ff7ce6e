// Rows of the table over a flash in memory.
use crate::made::{
    ID, ME, PUSH, SIZE, again, block, carry, chunk, expect, image, says, server, start, told,
};
use mu_blobmsg::BlobMsg;
use mu_blobsrv::BlobServer;
use mu_codec::Outbox;
use mu_outside::CutFlash;
use std::process::Abort;
use std::test::Fail;

// Whether a message is answered with one packet to the client, which says this.
fn answers(
    rt: &impl Abort,
    server: &mut BlobServer<CutFlash>,
    msg: &BlobMsg,
    now: u64,
    answer: &BlobMsg,
) -> bool {
    match told(rt, server, msg, now) {
        Ok(out) => says(&out, answer),
        Err(_) => false,
    }
}

// The Transfer Status of a status and a phase, with the blocks that are missing.
fn status(status: u8, phase: u8, missing: &[u8]) -> BlobMsg {
    BlobMsg::TransferStatus {
        status,
        mode: 1,
        phase,
        id: Some(ID),
        size: Some(SIZE),
        log: Some(12),
        mtu: Some(380),
        blocks: Some(missing),
    }
}

#[test]
fn information_is_told(rt: HostRuntime) -> Result<(), Fail> {
    let Some(mut server) = server(rt.alloc())? else {
        assert!(rt; false);
        return Ok(());
    };
    let information = BlobMsg::BlobInformationStatus {
        min_log: 12,
        max_log: 14,
        max_chunks: 2048,
        max_chunk_size: 376,
        max_size: 12288,
        mtu: 380,
        push: 1,
        pull: 1,
    };
    assert!(rt;
        answers(
            &rt,
            &mut server,
            &BlobMsg::BlobInformationGet,
            0,
            &information
        )
    );
    Ok(())
}

// The mode, size, log and MTU of starts with other parameters than those of the push.
const OTHERS: [(u8, u32, u8, u16); 4] = [
    (2, SIZE, 12, 380),
    (1, 8291, 12, 380),
    (1, SIZE, 13, 380),
    (1, SIZE, 12, 379),
];

// A transfer that stands in phase 5 with blocks 1 and 2 missing is taken up again, by its own parameters alone, and carried to its end.
fn is_taken_up_again(rt: &impl Abort, server: &mut BlobServer<CutFlash>, image: &[u8], now: u64) {
    let own = start(1, SIZE, 12, 380);
    assert!(rt; answers(rt, server, &own, now, &status(4, 5, &[6])));
    assert!(rt; expect(rt, server, now).is_ok());
    for (mode, size, log, mtu) in OTHERS {
        let other = start(mode, size, log, mtu);
        assert!(rt; answers(rt, server, &other, now, &status(5, 5, &[6])));
    }
    assert!(rt; answers(rt, server, &own, now, &status(0, 2, &[6])));
    assert!(rt; carry(rt, server, image, PUSH).is_ok());
}

#[test]
fn a_transfer_is_taken_up_again_after_a_timeout(rt: HostRuntime) -> Result<(), Fail> {
    let image = image(rt.alloc())?;
    let Some(mut server) = server(rt.alloc())? else {
        assert!(rt; false);
        return Ok(());
    };
    assert!(rt; begin(&rt, &mut server, image.as_slice()));
    assert!(rt; passes(&rt, &mut server, 10002));
    assert!(rt;
        answers(
            &rt,
            &mut server,
            &BlobMsg::TransferGet,
            10002,
            &status(0, 3, &[6])
        )
    );
    assert!(rt; passes(&rt, &mut server, 10003));
    is_taken_up_again(&rt, &mut server, image.as_slice(), 20000);
    Ok(())
}

#[test]
fn a_transfer_is_taken_up_again_after_a_cut(rt: HostRuntime) -> Result<(), Fail> {
    let image = image(rt.alloc())?;
    let Some(mut server) = server(rt.alloc())? else {
        assert!(rt; false);
        return Ok(());
    };
    assert!(rt; begin(&rt, &mut server, image.as_slice()));
    let Some(mut server) = again(server) else {
        assert!(rt; false);
        return Ok(());
    };
    is_taken_up_again(&rt, &mut server, image.as_slice(), 0);
    Ok(())
}

// Block 0 is sent at 1, block 1 is begun at 2, and its first chunk comes at 3.
fn begin(rt: &impl Abort, server: &mut BlobServer<CutFlash>, image: &[u8]) -> bool {
    let one = BlobMsg::BlockStart {
        block: 1,
        chunk_size: 376,
    };
    expect(rt, server, 0).is_ok()
        && answers(rt, server, &start(1, SIZE, 12, 380), 0, &status(0, 2, &[7]))
        && block(rt, server, image, PUSH, 0, 1).is_ok()
        && told(rt, server, &one, 2).is_ok()
        && chunk(rt, server, image, PUSH, 1, 0, 3).is_ok()
}

// Time passes, and nothing is sent.
fn passes(rt: &impl Abort, server: &mut BlobServer<CutFlash>, now: u64) -> bool {
    assert!(rt; server.fault().is_none());
    let mut out = Outbox::new();
    server.on_time(ME, now, &mut out);
    out.is_empty()
}
