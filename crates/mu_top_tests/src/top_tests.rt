use mu_outside::{BytesSink, BytesSource, RamFlash, RamLink, SetClock, Source};
use mu_top::{WordList, top};
use std::alloc::Global;
use std::process::Abort;
use std::test::Fail;

const ONE_NODE: &[u8] =
    b"node 0002 0000 1 1 hex:61\nsay 0001 0002 83080001\ndeliver 0 0002\nactive 0002\n";

const ONE_NODE_ANSWERS: &[u8] =
    b"sent 0 0001 0002 83080001\nsent 1 0002 0001 8309010026ffff01000000ca978112ca1bbdcafac231b39a23dc4da786eff8147c4e72b9807785afee48bb00\nactive 0002 1 1 ca978112ca1bbdcafac231b39a23dc4da786eff8147c4e72b9807785afee48bb\n";

/// What `top` with these words makes of a source and a sink. No call of the link succeeds.
fn status_of(
    alloc: Global,
    words: &[&str],
    source: &mut BytesSource,
    sink: &mut BytesSink,
) -> Result<u8, Fail> {
    let mut list = WordList::new();
    for word in words {
        list.add(word);
    }
    let flash = RamFlash::new(alloc, 1)?;
    let mut link = RamLink::new(alloc, 0, 0, &[1])?;
    let mut clock = SetClock::new(alloc, &[])?;
    let ended = top(alloc, &list, source, sink, flash, &mut link, &mut clock);
    Ok(ended.status)
}

/// Runs a command without keys over an ample sink, and looks at the status and at what was written.
fn expect_of(
    rt: &impl Abort,
    alloc: Global,
    command: &str,
    input: &[u8],
    status: u8,
    written: &[u8],
) -> Result<(), Fail> {
    let mut source = BytesSource::new(alloc, input, &[])?;
    let mut sink = BytesSink::new(alloc, 65536, &[])?;
    let found = status_of(alloc, &[command], &mut source, &mut sink)?;
    assert_eq!(rt; found, status);
    assert_eq!(rt; sink.bytes(), written);
    Ok(())
}

/// The same of a script.
pub(crate) fn expect(
    rt: &impl Abort,
    alloc: Global,
    script: &[u8],
    status: u8,
    written: &[u8],
) -> Result<(), Fail> {
    expect_of(rt, alloc, "replay", script, status, written)
}

#[test]
fn one_node_answers(rt: HostRuntime) -> Result<(), Fail> {
    expect(&rt, rt.alloc(), ONE_NODE, 0, ONE_NODE_ANSWERS)
}

#[test]
fn an_empty_script_writes_nothing(rt: HostRuntime) -> Result<(), Fail> {
    expect(&rt, rt.alloc(), b"", 0, b"")?;
    expect(&rt, rt.alloc(), b"\n\n# a comment\n#", 0, b"")
}

/// These words are no command, and nothing is done.
fn expect_usage(rt: &impl Abort, alloc: Global, words: &[&str]) -> Result<(), Fail> {
    let mut source = BytesSource::new(alloc, ONE_NODE, &[])?;
    let mut sink = BytesSink::new(alloc, 65536, &[])?;
    assert_eq!(rt; status_of(alloc, words, &mut source, &mut sink)?, 2);
    assert_eq!(rt; sink.bytes(), b"".as_slice());
    Ok(())
}

#[test]
fn no_words_are_no_command(rt: HostRuntime) -> Result<(), Fail> {
    let alloc = rt.alloc();
    expect_usage(&rt, alloc, &[])?;
    expect_usage(&rt, alloc, &["replay", "x"])?;
    expect_usage(&rt, alloc, &["check", "x=1"])?;
    expect_usage(&rt, alloc, &["show", "check"])?;
    expect_usage(&rt, alloc, &["checks"])?;
    expect_usage(&rt, alloc, &["relay"])?;
    expect_usage(&rt, alloc, &["Replay"])
}

#[test]
fn a_small_sink_takes_what_fits(rt: HostRuntime) -> Result<(), Fail> {
    let alloc = rt.alloc();
    for room in 0..ONE_NODE_ANSWERS.len() {
        let mut source = BytesSource::new(alloc, ONE_NODE, &[])?;
        let mut sink = BytesSink::new(alloc, room as u32, &[])?;
        assert_eq!(rt;
            status_of(alloc, &["replay"], &mut source, &mut sink)?,
            4,
            "in {room}"
        );
        assert_eq!(rt; sink.bytes(), &ONE_NODE_ANSWERS[..room], "in {room}");
    }
    Ok(())
}

/// The script of one node, with a comment of 9,000 octets in three lines before the last line.
fn long_script(alloc: Global) -> Result<Vec<u8>, Fail> {
    let mut script = Vec::from_slice(alloc, &ONE_NODE[..64])?;
    for _ in 0..3 {
        script.push(b'#')?;
        script.extend_from_slice(&[b'x'; 3000])?;
        script.push(b'\n')?;
    }
    script.extend_from_slice(&ONE_NODE[64..])?;
    Ok(script)
}

#[test]
fn each_write_fails_in_turn(rt: HostRuntime) -> Result<(), Fail> {
    let alloc = rt.alloc();
    let script = long_script(alloc)?;
    for (call, status, written) in [(1, 4, 0), (2, 4, 132), (3, 0, 213)] {
        let mut source = BytesSource::new(alloc, &script, &[])?;
        let mut sink = BytesSink::new(alloc, 65536, &[call])?;
        assert_eq!(rt;
            status_of(alloc, &["replay"], &mut source, &mut sink)?,
            status,
            "at {call}"
        );
        assert_eq!(rt; sink.bytes(), &ONE_NODE_ANSWERS[..written], "at {call}");
    }
    Ok(())
}

#[test]
fn what_was_printed_is_handed_on_before_the_next_read(rt: HostRuntime) -> Result<(), Fail> {
    let alloc = rt.alloc();
    let script = long_script(alloc)?;
    let mut source = BytesSource::new(alloc, &script, &[])?;
    let mut sink = BytesSink::new(alloc, 65536, &[1])?;
    assert_eq!(rt; status_of(alloc, &["replay"], &mut source, &mut sink)?, 4);
    let mut rest = [0; 9000];
    assert_eq!(rt;
        source.read(&mut rest),
        Ok(script.len().saturating_sub(8192))
    );
    Ok(())
}

#[test]
fn each_read_fails_in_turn(rt: HostRuntime) -> Result<(), Fail> {
    let alloc = rt.alloc();
    let script = long_script(alloc)?;
    for (call, status, written) in [(1, 3, 0), (2, 3, 132), (3, 3, 213), (4, 0, 213)] {
        let mut source = BytesSource::new(alloc, &script, &[call])?;
        let mut sink = BytesSink::new(alloc, 65536, &[])?;
        assert_eq!(rt;
            status_of(alloc, &["replay"], &mut source, &mut sink)?,
            status,
            "at {call}"
        );
        assert_eq!(rt; sink.bytes(), &ONE_NODE_ANSWERS[..written], "at {call}");
    }
    Ok(())
}

#[test]
fn what_a_node_answers(rt: HostRuntime) -> Result<(), Fail> {
    for (payload, answer) in [
        // Nothing is asked for, or nothing is there from that index on.
        (
            b"83080000".as_slice(),
            b"sent 1 0002 0001 83090100\n".as_slice(),
        ),
        (
            b"83080105".as_slice(),
            b"sent 1 0002 0001 83090101\n".as_slice(),
        ),
        (
            b"8308ff01".as_slice(),
            b"sent 1 0002 0001 830901ff\n".as_slice(),
        ),
        // No message that a node takes.
        (b"830800".as_slice(), b"unread 0 0002\n".as_slice()),
        (b"8308000100".as_slice(), b"unread 0 0002\n".as_slice()),
        (b"83090100".as_slice(), b"unread 0 0002\n".as_slice()),
        (b"83".as_slice(), b"unread 0 0002\n".as_slice()),
        (b"ff".as_slice(), b"unread 0 0002\n".as_slice()),
    ] {
        let alloc = rt.alloc();
        for destination in [b"0002".as_slice(), b"c000".as_slice()] {
            let mut script = Vec::from_slice(alloc, b"node 0002 c000 1 1 hex:61\nsay 0001 ")?;
            script.extend_from_slice(destination)?;
            script.push(b' ')?;
            script.extend_from_slice(payload)?;
            script.extend_from_slice(b"\ndeliver 0 0002\n")?;
            let mut written = Vec::from_slice(alloc, b"sent 0 0001 ")?;
            written.extend_from_slice(destination)?;
            written.push(b' ')?;
            written.extend_from_slice(payload)?;
            written.push(b'\n')?;
            written.extend_from_slice(answer)?;
            expect(&rt, alloc, &script, 0, &written)?;
        }
    }
    Ok(())
}

#[test]
fn refused_lines_are_shown_at_their_place(rt: HostRuntime) -> Result<(), Fail> {
    for (script, written) in [
        // No line of a script.
        (b"nod 0002".as_slice(), b"refused 1 0 token\n".as_slice()),
        (b"\n# x\nactive 2\n", b"refused 3 7 token\n"),
        (b"active 0002\r\n", b"refused 1 7 token\n"),
        (b"active", b"refused 1 6 token\n"),
        (b"active 0002 ", b"refused 1 12 token\n"),
        // A member line that comes too late, also with an address that is used.
        (
            b"node 0002 0000 1 1 hex:61\nactive 0002\nnode 0002 0000 1 1 hex:61\n",
            b"active 0002 1 1 ca978112ca1bbdcafac231b39a23dc4da786eff8147c4e72b9807785afee48bb\nrefused 3 0 member\n",
        ),
        (
            b"say 0001 0002 8308\nnode 0003 0000 1 1 hex:61",
            b"sent 0 0001 0002 8308\nrefused 2 0 member\n",
        ),
        // An address that is used twice, before a content past the bank.
        (
            b"node 0002 0000 1 1 hex:61\nnode 0002 0000 1 1 made:0:4097\n",
            b"refused 2 5 member\n",
        ),
        // A content past the bank.
        (b"node 0002 0000 1 1 made:0:4097\n", b"refused 1 19 token\n"),
        (
            b"node 0002 0000 256 1 made:0:1048577\n",
            b"refused 1 21 token\n",
        ),
        // An unknown address, also where there is no such packet.
        (b"active 0002\n", b"refused 1 7 member\n"),
        (b"deliver 0 0002\n", b"refused 1 10 member\n"),
        // No such packet, and no addressee of it.
        (
            b"node 0002 0000 1 1 hex:61\ndeliver 0 0002\n",
            b"refused 2 8 packet\n",
        ),
        (
            b"node 0002 0000 1 1 hex:61\nsay 0001 0003 83\ndeliver 0 0002\n",
            b"sent 0 0001 0003 83\nrefused 3 10 packet\n",
        ),
        (
            b"node 0002 c001 1 1 hex:61\nsay 0001 c000 83\ndeliver 0 0002\n",
            b"sent 0 0001 c000 83\nrefused 3 10 packet\n",
        ),
        // A stranger's packet from a member's address.
        (
            b"node 0002 0000 1 1 hex:61\nsay 0002 0001 83\n",
            b"refused 2 4 premise\n",
        ),
        // Upper case is read, lower case is written.
        (
            b"node 00AB 0000 1 1 hex:61\nsay 00CD 00AB FF\nactive 00ab 1\n",
            b"sent 0 00cd 00ab ff\nrefused 3 12 token\n",
        ),
        // What comes behind a refused line isn't done.
        (
            b"say 0001 0002 8\nsay 0001 0002 83\n",
            b"refused 1 14 token\n",
        ),
    ] {
        expect(&rt, rt.alloc(), script, 7, written)?;
    }
    Ok(())
}

#[test]
fn refused_lines_behind_others_are_shown_at_their_place(rt: HostRuntime) -> Result<(), Fail> {
    for (script, written) in [
        (
            b"node 0002 0000 1 1 hex:61\nnode 0003 0000 1 1 hex:61\nnode 0003 0000 1 1 hex:61\n".as_slice(),
            b"refused 3 5 member\n".as_slice(),
        ),
        (
            b"node 0002 0000 1 1 hex:61\nactive 0003\n",
            b"refused 2 7 member\n",
        ),
        (
            b"say 0001 0002 83\ndeliver 0 0002\n",
            b"sent 0 0001 0002 83\nrefused 2 10 member\n",
        ),
        (
            b"node 0002 0000 1 1 hex:61\nsay 0001 0002 83\ndeliver 1 0002\n",
            b"sent 0 0001 0002 83\nrefused 3 8 packet\n",
        ),
        (
            b"node 0002 0000 1 1 hex:61\nnode 0003 0000 1 1 hex:61\nsay 0003 0002 83\n",
            b"refused 3 4 premise\n",
        ),
    ] {
        expect(&rt, rt.alloc(), script, 7, written)?;
    }
    Ok(())
}

#[test]
fn a_bank_may_be_full(rt: HostRuntime) -> Result<(), Fail> {
    expect(
        &rt,
        rt.alloc(),
        b"node 0002 0000 1 7 made:9:4096\nactive 0002",
        0,
        b"active 0002 7 4096 b1a6679ed6efaa3505f7e232d967c6c2a1423aa3b6b4afdf77812c583ccf64d5\n",
    )
}

#[test]
fn a_line_may_have_4096_octets(rt: HostRuntime) -> Result<(), Fail> {
    let alloc = rt.alloc();
    for (octets, status, written) in [
        (4096, 0, b"".as_slice()),
        (4097, 7, b"refused 2 4096 long\n"),
        (20000, 7, b"refused 2 4096 long\n"),
    ] {
        let mut script = Vec::from_slice(alloc, b"\n#")?;
        for _ in 1..octets {
            script.push(b'x')?;
        }
        script.push(b'\n')?;
        expect(&rt, alloc, &script, status, written)?;
    }
    Ok(())
}

#[test]
fn a_script_may_have_32_members(rt: HostRuntime) -> Result<(), Fail> {
    let alloc = rt.alloc();
    let mut script = Vec::new(alloc);
    for member in 1..33 {
        let line = format!(in alloc; "node 00{member:02} 0000 1 1 hex:61\n")?;
        script.extend_from_slice(line.as_bytes())?;
    }
    expect(&rt, alloc, &script, 0, b"")?;
    script.extend_from_slice(b"node 0001 0000 1 1 hex:61\n")?;
    expect(&rt, alloc, &script, 7, b"refused 33 0 member\n")
}

#[test]
fn a_script_may_have_100000_lines(rt: HostRuntime) -> Result<(), Fail> {
    let alloc = rt.alloc();
    let mut script = vec![in alloc; b'\n'; 100_000]?;
    expect(&rt, alloc, &script, 0, b"")?;
    script.push(b'\n')?;
    expect(&rt, alloc, &script, 14, b"")?;
    script[99_999] = b'x';
    expect(&rt, alloc, &script, 7, b"refused 100000 0 token\n")
}

#[test]
fn payloads_are_checked(rt: HostRuntime) -> Result<(), Fail> {
    let alloc = rt.alloc();
    for (input, status, written) in [
        (b"".as_slice(), 0, b"".as_slice()),
        (b"\n# a comment\n\n#", 0, b""),
        // Unused bits are not looked at, and are written as 0.
        (
            b"83017f0700000000000100030000000c7c01\n",
            0,
            b"8301400700000000000100030000000c7c01\n",
        ),
        (
            b"83017F0700000000000100030000000C7C01",
            0,
            b"8301400700000000000100030000000c7c01\n",
        ),
        (b"8306\n8305\n", 0, b"8306\n8305\n"),
        // Hexadecimal that is wrong: at its first bad digit, or at its end.
        (b"83g6", 7, b"refused 1 2 hex\n"),
        (b"8306\n\n830", 7, b"8306\nrefused 3 3 hex\n"),
        (b"8x0", 7, b"refused 1 1 hex\n"),
        (b"8306\r\n", 7, b"refused 1 4 hex\n"),
        (b"83 06", 7, b"refused 1 2 hex\n"),
        (b"\xFF", 7, b"refused 1 0 hex\n"),
        // Payloads that are wrong.
        (b"83ff", 7, b"refused 1 0 opcode\n"),
        (b"83", 7, b"refused 1 0 short\n"),
        (b"6600", 7, b"refused 1 1 short\n"),
        (b"83013f", 7, b"refused 1 2 value\n"),
        (b"830600", 7, b"refused 1 2 long\n"),
        (b"8306\n6600\n8306\n", 7, b"8306\nrefused 2 1 short\n"),
    ] {
        expect_of(&rt, alloc, "check", input, status, written)?;
    }
    Ok(())
}

#[test]
fn payloads_are_shown(rt: HostRuntime) -> Result<(), Fail> {
    let alloc = rt.alloc();
    for (input, status, written) in [
        (b"".as_slice(), 0, b"".as_slice()),
        (
            b"# missing chunks\n67c00000C8000009\n\n8306\n",
            0,
            b"block-status status=0 format=3 block=0 chunk-size=200 missing=0,9\nblob-information-get\n",
        ),
        (b"830a01", 0, b"metadata-check index=1 metadata=\n"),
        (b"6600", 7, b"refused 1 1 short\n"),
        (b"8308000\n", 7, b"refused 1 7 hex\n"),
        (
            b"83080001\n8399\n",
            7,
            b"information-get first=0 limit=1\nrefused 2 0 opcode\n",
        ),
    ] {
        expect_of(&rt, alloc, "show", input, status, written)?;
    }
    Ok(())
}

#[test]
fn a_line_of_a_payload_may_have_4096_octets(rt: HostRuntime) -> Result<(), Fail> {
    let alloc = rt.alloc();
    let mut input = vec![in alloc; b'0'; 4096]?;
    input[..4].copy_from_slice(b"8306");
    expect_of(&rt, alloc, "check", &input, 7, b"refused 1 380 long\n")?;
    input.push(b'x')?;
    expect_of(&rt, alloc, "check", &input, 7, b"refused 1 4096 long\n")?;
    input[0] = b'#';
    expect_of(&rt, alloc, "check", &input, 7, b"refused 1 4096 long\n")
}

#[test]
fn payloads_may_have_any_number_of_lines(rt: HostRuntime) -> Result<(), Fail> {
    let alloc = rt.alloc();
    let mut input = vec![in alloc; b'\n'; 100_001]?;
    expect_of(&rt, alloc, "check", &input, 0, b"")?;
    input.extend_from_slice(b"8306")?;
    expect_of(&rt, alloc, "check", &input, 0, b"8306\n")
}

#[test]
fn a_fault_ends_a_check(rt: HostRuntime) -> Result<(), Fail> {
    let alloc = rt.alloc();
    let mut source = BytesSource::new(alloc, b"8306\n8305\n", &[1])?;
    let mut sink = BytesSink::new(alloc, 65536, &[])?;
    assert_eq!(rt; status_of(alloc, &["check"], &mut source, &mut sink)?, 3);
    assert_eq!(rt; sink.bytes(), b"".as_slice());
    let mut source = BytesSource::new(alloc, b"8306\n8305\n", &[])?;
    let mut sink = BytesSink::new(alloc, 7, &[])?;
    assert_eq!(rt; status_of(alloc, &["check"], &mut source, &mut sink)?, 4);
    assert_eq!(rt; sink.bytes(), b"8306\n83".as_slice());
    Ok(())
}

/// `image version=2` over these octets ends with this status and writes this.
fn expect_image(
    rt: &impl Abort,
    alloc: Global,
    octets: &[u8],
    status: u8,
    written: &[u8],
) -> Result<(), Fail> {
    let mut source = BytesSource::new(alloc, octets, &[])?;
    let mut sink = BytesSink::new(alloc, 65536, &[])?;
    let found = status_of(alloc, &["image", "version=2"], &mut source, &mut sink)?;
    assert_eq!(rt; found, status);
    assert_eq!(rt; sink.bytes(), written);
    Ok(())
}

#[test]
fn an_image_is_told(rt: HostRuntime) -> Result<(), Fail> {
    let alloc = rt.alloc();
    expect_image(
        &rt,
        alloc,
        b"abc",
        0,
        b"size 3 version 2 digest ba7816bf8f01cfea414140de5dae2223b00361a396177a9cb410ff61f20015ad\nmetadata 0300000002000000ba7816bf8f01cfea414140de5dae2223b00361a396177a9cb410ff61f20015ad\nid ffff02000000ba7816bf8f01cfea414140de5dae2223b00361a396177a9cb410ff61f20015ad\n",
    )?;
    expect_image(&rt, alloc, b"", 7, b"refused 0 0 short\n")
}

#[test]
fn an_image_has_at_most_1048576_octets(rt: HostRuntime) -> Result<(), Fail> {
    let alloc = rt.alloc();
    let mut octets = Vec::new(alloc);
    for _ in 0..1048577 {
        octets.push(0)?;
    }
    expect_image(
        &rt,
        alloc,
        octets.as_slice(),
        7,
        b"refused 0 1048576 long\n",
    )?;
    octets.pop();
    let mut source = BytesSource::new(alloc, octets.as_slice(), &[])?;
    let mut sink = BytesSink::new(alloc, 65536, &[])?;
    let status = status_of(alloc, &["image", "version=0"], &mut source, &mut sink)?;
    assert_eq!(rt; status, 0);
    Ok(())
}

#[test]
fn an_image_needs_its_version(rt: HostRuntime) -> Result<(), Fail> {
    let alloc = rt.alloc();
    expect_usage(&rt, alloc, &["image"])?;
    expect_usage(&rt, alloc, &["image", "version="])?;
    expect_usage(&rt, alloc, &["image", "version=01"])?;
    expect_usage(&rt, alloc, &["image", "version=4294967296"])?;
    expect_usage(&rt, alloc, &["image", "size=1"])?;
    expect_usage(&rt, alloc, &["image", "version=1", "version=1"])
}

#[test]
fn a_fault_ends_an_image(rt: HostRuntime) -> Result<(), Fail> {
    let alloc = rt.alloc();
    let mut source = BytesSource::new(alloc, b"abc", &[2])?;
    let mut sink = BytesSink::new(alloc, 65536, &[])?;
    let words = ["image", "version=4294967295"];
    assert_eq!(rt; status_of(alloc, &words, &mut source, &mut sink)?, 3);
    assert_eq!(rt; sink.bytes(), b"".as_slice());
    let mut source = BytesSource::new(alloc, b"abc", &[])?;
    let mut sink = BytesSink::new(alloc, 65536, &[3])?;
    assert_eq!(rt; status_of(alloc, &words, &mut source, &mut sink)?, 4);
    assert_eq!(rt; sink.bytes(), b"size 3".as_slice());
    Ok(())
}
