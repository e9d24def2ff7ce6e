// Nodes in scripts: whole updates, power cuts and refusals. The stranger is at 0001 and the node at 0002; its image is the octet 61, and
// 61 62 63 the new one.
use crate::top_tests::expect;
use std::alloc::Global;
use std::process::Abort;
use std::test::Fail;

/// A node with one image, in banks of one page.
const NODE: &[u8] = b"node 0002 0000 1 1 hex:61\n";

/// A node with two images.
const PAIR: &[u8] = b"pair 0002 0000 1 1 hex:61 1 hex:61\n";

/// A node whose note is of the older form.
const OLD_NODE: &[u8] = b"old 0002 0000 1 1 hex:61\n";

/// An Update Start of the new image, as version 2.
const SAY_START: &[u8] =
    b"say 0001 0002 830d0500000700000000000100000300000002000000ba7816bf8f01cfea414140de5dae2223b00361a396177a9cb410ff61f20015ad\n";

/// Its line.
const SENT_START: &[u8] =
    b"sent 0 0001 0002 830d0500000700000000000100000300000002000000ba7816bf8f01cfea414140de5dae2223b00361a396177a9cb410ff61f20015ad\n";

/// It is taken: Transfer Active.
const STARTED: &[u8] = b"sent 1 0002 0001 83104005000000070000000000010000\n";

/// A Transfer Start by push, of blocks of 4,096 octets.
const SAY_TRANSFER: &[u8] = b"say 0001 0002 8301400700000000000100030000000c7c01\n";

/// Its line.
const SENT_TRANSFER: &[u8] = b"sent 2 0001 0002 8301400700000000000100030000000c7c01\n";

/// It is taken: Waiting For Next Block, block 0 not held.
const TRANSFERRED: &[u8] = b"sent 3 0002 0001 830340020700000000000100030000000c7c0101\n";

/// A Block Start of block 0, in chunks of 8 octets.
const SAY_BLOCK: &[u8] = b"say 0001 0002 830400000800\n";

/// Its line.
const SENT_BLOCK: &[u8] = b"sent 4 0001 0002 830400000800\n";

/// It is taken: all chunks missing.
const BLOCK_STATUS: &[u8] = b"sent 5 0002 0001 670000000800\n";

/// The one chunk.
const SAY_CHUNK: &[u8] = b"say 0001 0002 660000616263\n";

/// Its line.
const SENT_CHUNK: &[u8] = b"sent 6 0001 0002 660000616263\n";

/// An Update Get.
const SAY_GET: &[u8] = b"say 0001 0002 830c\n";

/// Its line and its answer: Verification Succeeded.
const SENT_GET: &[u8] =
    b"sent 7 0001 0002 830c\nsent 8 0002 0001 83108005000000070000000000010000\n";

/// An Update Apply.
const SAY_APPLY: &[u8] = b"say 0001 0002 830f\n";

/// Its line and its answer: Applying Update.
const SENT_APPLY: &[u8] =
    b"sent 9 0001 0002 830f\nsent 10 0002 0001 8310c005000000070000000000010000\n";

/// The image that the node was made with.
const OLD_IMAGE: &[u8] =
    b"active 0002 1 1 ca978112ca1bbdcafac231b39a23dc4da786eff8147c4e72b9807785afee48bb\n";

/// The new image.
const NEW_IMAGE: &[u8] =
    b"active 0002 2 3 ba7816bf8f01cfea414140de5dae2223b00361a396177a9cb410ff61f20015ad\n";

/// The parts, one behind the other.
fn joined(alloc: Global, parts: &[&[u8]]) -> Result<Vec<u8>, Fail> {
    let mut all = Vec::new(alloc);
    for part in parts {
        all.extend_from_slice(part)?;
    }
    Ok(all)
}

/// Runs a script to its end, and looks at what was written.
fn expect_run(
    rt: &impl Abort,
    alloc: Global,
    script: &[&[u8]],
    written: &[&[u8]],
) -> Result<(), Fail> {
    let script = joined(alloc, script)?;
    let written = joined(alloc, written)?;
    expect(rt, alloc, script.as_slice(), 0, written.as_slice())
}

/// Runs a script to a refused line.
fn expect_refused(
    rt: &impl Abort,
    alloc: Global,
    script: &[&[u8]],
    written: &[&[u8]],
) -> Result<(), Fail> {
    let script = joined(alloc, script)?;
    let written = joined(alloc, written)?;
    expect(rt, alloc, script.as_slice(), 7, written.as_slice())
}

/// The script of an update up to its Transfer Start, with further lines before that is delivered.
fn up_to_transfer(alloc: Global, node: &[u8], before: &[u8]) -> Result<Vec<u8>, Fail> {
    joined(
        alloc,
        &[
            node,
            SAY_START,
            b"deliver 0 0002\n",
            SAY_TRANSFER,
            before,
            b"deliver 2 0002\n",
        ],
    )
}

/// What it writes, with the text of that delivery.
fn transfer_written(alloc: Global, delivered: &[u8]) -> Result<Vec<u8>, Fail> {
    joined(alloc, &[SENT_START, STARTED, SENT_TRANSFER, delivered])
}

/// The script of an update up to its chunk, with further lines before that is delivered.
fn up_to_chunk(alloc: Global, before: &[u8]) -> Result<Vec<u8>, Fail> {
    let begun = up_to_transfer(alloc, NODE, b"")?;
    joined(
        alloc,
        &[
            begun.as_slice(),
            SAY_BLOCK,
            b"deliver 4 0002\n",
            SAY_CHUNK,
            before,
            b"deliver 6 0002\n",
        ],
    )
}

/// What it writes, with the text of that delivery.
fn chunk_written(alloc: Global, delivered: &[u8]) -> Result<Vec<u8>, Fail> {
    let begun = transfer_written(alloc, TRANSFERRED)?;
    joined(
        alloc,
        &[
            begun.as_slice(),
            SENT_BLOCK,
            BLOCK_STATUS,
            SENT_CHUNK,
            delivered,
        ],
    )
}

#[test]
fn a_whole_update(rt: HostRuntime) -> Result<(), Fail> {
    let alloc = rt.alloc();
    let script = up_to_chunk(alloc, b"")?;
    let written = chunk_written(alloc, b"")?;
    expect_run(
        &rt,
        alloc,
        &[
            script.as_slice(),
            b"phase 0002\ntime 0002 1\nphase 0002\n",
            SAY_GET,
            b"deliver 7 0002\n",
            SAY_APPLY,
            b"deliver 9 0002\nactive 0002\nphase 0002\ntime 0002 2\nactive 0002\nphase 0002\n",
        ],
        &[
            written.as_slice(),
            b"phase 0002 3 4\nphase 0002 4 4\n",
            SENT_GET,
            SENT_APPLY,
            OLD_IMAGE,
            b"phase 0002 6 4\n",
            NEW_IMAGE,
            b"phase 0002 0 0\n",
        ],
    )
}

/// The power goes at an operation of the first record after a boot, which erases a control page before.
fn start_torn(rt: &impl Abort, alloc: Global, tear: &[u8], booted: &[u8]) -> Result<(), Fail> {
    expect_run(
        rt,
        alloc,
        &[
            NODE,
            SAY_START,
            tear,
            b"deliver 0 0002\nactive 0002\nphase 0002\n",
        ],
        &[SENT_START, booted],
    )
}

#[test]
fn torn_at_its_first_record(rt: HostRuntime) -> Result<(), Fail> {
    let alloc = rt.alloc();
    let old =
        b"boot 0002 2 0\nactive 0002 1 1 ca978112ca1bbdcafac231b39a23dc4da786eff8147c4e72b9807785afee48bb\nphase 0002 0 0\n";
    start_torn(&rt, alloc, b"tear 0002 1 none\n", old)?;
    start_torn(&rt, alloc, b"tear 0002 1 all\n", old)?;
    start_torn(&rt, alloc, b"tear 0002 1 made:7\n", old)?;
    start_torn(&rt, alloc, b"tear 0002 2 none\n", old)?;
    let new =
        b"boot 0002 3 0\nactive 0002 1 1 ca978112ca1bbdcafac231b39a23dc4da786eff8147c4e72b9807785afee48bb\nphase 0002 1 0\n";
    start_torn(&rt, alloc, b"tear 0002 2 all\n", new)?;
    start_torn(&rt, alloc, b"tear 0002 1 none\ntear 0002 2 all\n", new)
}

#[test]
fn an_event_with_fewer_operations_leaves_the_tear(rt: HostRuntime) -> Result<(), Fail> {
    let alloc = rt.alloc();
    // Block Start has no operation, the last chunk of a block of one page three.
    let script = joined(
        alloc,
        &[
            SAY_BLOCK,
            b"tear 0002 3 all\ndeliver 4 0002\n",
            SAY_CHUNK,
            b"deliver 6 0002\n",
        ],
    )?;
    let begun = up_to_transfer(alloc, NODE, b"")?;
    let written = transfer_written(alloc, TRANSFERRED)?;
    expect_run(
        &rt,
        alloc,
        &[begun.as_slice(), script.as_slice(), b"phase 0002\n"],
        &[
            written.as_slice(),
            SENT_BLOCK,
            BLOCK_STATUS,
            SENT_CHUNK,
            b"boot 0002 4 1\nphase 0002 3 4\n",
        ],
    )
}

#[test]
fn a_cut_spends_the_tear(rt: HostRuntime) -> Result<(), Fail> {
    expect_run(
        &rt,
        rt.alloc(),
        &[
            NODE,
            SAY_START,
            b"tear 0002 1 none\ncut 0002\ndeliver 0 0002\ncut 0002\nphase 0002\n",
        ],
        &[
            SENT_START,
            b"boot 0002 2 0\n",
            STARTED,
            b"boot 0002 3 0\nphase 0002 1 0\n",
        ],
    )
}

/// The power goes where the verification writes its record, which is one operation.
fn verification_torn(
    rt: &impl Abort,
    alloc: Global,
    lines: &[u8],
    booted: &[u8],
) -> Result<(), Fail> {
    let script = up_to_chunk(alloc, b"")?;
    let written = chunk_written(alloc, b"")?;
    expect_run(
        rt,
        alloc,
        &[script.as_slice(), lines],
        &[written.as_slice(), booted],
    )
}

#[test]
fn torn_between_seal_and_record(rt: HostRuntime) -> Result<(), Fail> {
    let alloc = rt.alloc();
    verification_torn(
        &rt,
        alloc,
        b"tear 0002 1 all\ntime 0002 1\nphase 0002\n",
        b"boot 0002 5 0\nphase 0002 4 4\n",
    )?;
    verification_torn(
        &rt,
        alloc,
        b"tear 0002 1 none\ntime 0002 1\nphase 0002\ntime 0002 1\nphase 0002\n",
        b"boot 0002 4 1\nphase 0002 3 4\nphase 0002 4 4\n",
    )
}

#[test]
fn torn_where_a_bank_is_begun(rt: HostRuntime) -> Result<(), Fail> {
    let alloc = rt.alloc();
    let script = up_to_transfer(alloc, NODE, b"tear 0002 2 all\n")?;
    let written = transfer_written(alloc, b"boot 0002 4 0\n")?;
    expect_run(
        &rt,
        alloc,
        &[script.as_slice(), b"phase 0002\n"],
        &[written.as_slice(), b"phase 0002 1 5\n"],
    )
}

/// The power goes where a block of one page is put, which is three operations.
fn block_torn(rt: &impl Abort, alloc: Global, tear: &[u8], booted: &[u8]) -> Result<(), Fail> {
    let script = up_to_chunk(alloc, tear)?;
    let written = chunk_written(alloc, booted)?;
    expect_run(
        rt,
        alloc,
        &[script.as_slice(), b"phase 0002\n"],
        &[written.as_slice()],
    )
}

#[test]
fn torn_where_a_block_is_put(rt: HostRuntime) -> Result<(), Fail> {
    let alloc = rt.alloc();
    block_torn(
        &rt,
        alloc,
        b"tear 0002 2 all\n",
        b"boot 0002 4 0\nphase 0002 1 5\n",
    )?;
    block_torn(
        &rt,
        alloc,
        b"tear 0002 3 none\n",
        b"boot 0002 4 0\nphase 0002 1 5\n",
    )?;
    block_torn(
        &rt,
        alloc,
        b"tear 0002 3 all\n",
        b"boot 0002 4 1\nphase 0002 3 4\n",
    )
}

#[test]
fn a_transfer_times_out(rt: HostRuntime) -> Result<(), Fail> {
    let alloc = rt.alloc();
    let script = up_to_transfer(alloc, NODE, b"")?;
    let written = transfer_written(alloc, TRANSFERRED)?;
    expect_run(
        &rt,
        alloc,
        &[
            script.as_slice(),
            b"time 0002 9999\nphase 0002\ntime 0002 1\nphase 0002\ntime 0002 10000\nphase 0002\n",
        ],
        &[
            written.as_slice(),
            b"phase 0002 2 2\nphase 0002 2 2\nphase 0002 1 5\n",
        ],
    )
}

#[test]
fn an_equal_version_is_refused(rt: HostRuntime) -> Result<(), Fail> {
    expect(
        &rt,
        rt.alloc(),
        b"node 0002 0000 1 1 hex:61\nsay 0001 0002 830d0500000700000000000100000300000001000000ba7816bf8f01cfea414140de5dae2223b00361a396177a9cb410ff61f20015ad\ndeliver 0 0002\n",
        0,
        b"sent 0 0001 0002 830d0500000700000000000100000300000001000000ba7816bf8f01cfea414140de5dae2223b00361a396177a9cb410ff61f20015ad\nsent 1 0002 0001 831005\n",
    )
}

#[test]
fn a_node_with_two_images(rt: HostRuntime) -> Result<(), Fail> {
    let alloc = rt.alloc();
    expect_run(
        &rt,
        alloc,
        &[PAIR, b"say 0001 0002 83080002\ndeliver 0 0002\ncut 0002\n"],
        &[
            b"sent 0 0001 0002 83080002\nsent 1 0002 0001 8309020026ffff01000000ca978112ca1bbdcafac231b39a23dc4da786eff8147c4e72b9807785afee48bb0026ffff01000000ca978112ca1bbdcafac231b39a23dc4da786eff8147c4e72b9807785afee48bb00\nboot 0002 3 0\n",
        ],
    )?;
    expect_run(
        &rt,
        alloc,
        &[
            PAIR,
            b"say 0001 0002 830d0500000700000000000100010300000002000000ba7816bf8f01cfea414140de5dae2223b00361a396177a9cb410ff61f20015ad\ndeliver 0 0002\n",
            SAY_TRANSFER,
            b"deliver 2 0002\n",
            SAY_BLOCK,
            b"deliver 4 0002\n",
            SAY_CHUNK,
            b"deliver 6 0002\ntime 0002 1\n",
            SAY_APPLY,
            b"deliver 7 0002\ntime 0002 2\nactive 0002\n",
        ],
        &[
            b"sent 0 0001 0002 830d0500000700000000000100010300000002000000ba7816bf8f01cfea414140de5dae2223b00361a396177a9cb410ff61f20015ad\nsent 1 0002 0001 83104005000000070000000000010001\n",
            SENT_TRANSFER,
            TRANSFERRED,
            SENT_BLOCK,
            BLOCK_STATUS,
            SENT_CHUNK,
            b"sent 7 0001 0002 830f\nsent 8 0002 0001 8310c005000000070000000000010001\n",
            OLD_IMAGE,
            NEW_IMAGE,
        ],
    )
}

#[test]
fn a_node_with_the_older_note(rt: HostRuntime) -> Result<(), Fail> {
    let alloc = rt.alloc();
    expect_run(
        &rt,
        alloc,
        &[OLD_NODE, SAY_START, b"tear 0002 2 none\ndeliver 0 0002\n"],
        &[SENT_START, b"boot 0002 2 0\n"],
    )?;
    expect_run(
        &rt,
        alloc,
        &[
            OLD_NODE,
            SAY_START,
            b"tear 0002 2 all\ndeliver 0 0002\nphase 0002\n",
        ],
        &[SENT_START, b"boot 0002 3 0\nphase 0002 1 0\n"],
    )
}

#[test]
fn a_stranger_has_no_member_s_blob_id(rt: HostRuntime) -> Result<(), Fail> {
    let alloc = rt.alloc();
    expect_refused(
        &rt,
        alloc,
        &[
            NODE,
            b"node 0001 0000 1 1 hex:61\nsay 0009 0002 830d0500000700000000000100000300000002000000ba7816bf8f01cfea414140de5dae2223b00361a396177a9cb410ff61f20015ad\n",
        ],
        &[b"refused 3 14 premise\n"],
    )?;
    // The top 16 bits are 0001, and no member is there.
    expect_run(
        &rt,
        alloc,
        &[
            NODE,
            b"say 0009 0002 830d0500000700000000000100000300000002000000ba7816bf8f01cfea414140de5dae2223b00361a396177a9cb410ff61f20015ad\n",
        ],
        &[
            b"sent 0 0009 0002 830d0500000700000000000100000300000002000000ba7816bf8f01cfea414140de5dae2223b00361a396177a9cb410ff61f20015ad\n",
        ],
    )
}

#[test]
fn lines_of_an_unknown_member_are_refused(rt: HostRuntime) -> Result<(), Fail> {
    let alloc = rt.alloc();
    expect_refused(
        &rt,
        alloc,
        &[NODE, b"time 0003 1\n"],
        &[b"refused 2 5 member\n"],
    )?;
    expect_refused(
        &rt,
        alloc,
        &[NODE, b"cut 0003\n"],
        &[b"refused 2 4 member\n"],
    )?;
    expect_refused(
        &rt,
        alloc,
        &[NODE, b"tear 0003 1 none\n"],
        &[b"refused 2 5 member\n"],
    )?;
    expect_refused(
        &rt,
        alloc,
        &[NODE, b"phase 0003\n"],
        &[b"refused 2 6 member\n"],
    )
}

#[test]
fn member_lines_are_refused_at_their_place(rt: HostRuntime) -> Result<(), Fail> {
    let alloc = rt.alloc();
    let late = b"phase 0002\npair 0003 0000 1 1 hex:61 1 hex:61\n";
    expect_refused(
        &rt,
        alloc,
        &[NODE, late],
        &[b"phase 0002 0 0\nrefused 3 0 member\n"],
    )?;
    let again = b"old 0002 0000 1 1 hex:61\n";
    expect_refused(&rt, alloc, &[NODE, again], &[b"refused 2 4 member\n"])?;
    let past = b"pair 0003 0000 1 1 made:1:4097 1 made:1:4097\n";
    expect_refused(&rt, alloc, &[NODE, past], &[b"refused 2 19 token\n"])?;
    let second_past = b"pair 0003 0000 1 1 made:1:4096 1 made:1:4097\n";
    expect_refused(&rt, alloc, &[NODE, second_past], &[b"refused 2 33 token\n"])
}
