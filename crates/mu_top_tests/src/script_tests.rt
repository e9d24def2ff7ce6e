use mu_script::{Content, Event, LineFault, LineWhy, Pattern, read_line};
use std::process::Abort;
use std::test::Fail;

// A line that is refused `token`, and the place.
type Refused = (&'static [u8], u16);

const FORMS: &[Refused] = &[
    // the first token
    (b"nod 0002 0000 1 1 hex:61", 0),
    (b"Node 0002 0000 1 1 hex:61", 0),
    (b" active 0002", 0),
    (b" ", 0),
    (b"\r", 0),
    (b"\xff\xfe 0002", 0),
    // a token lacks
    (b"node", 4),
    (b"node 0002", 9),
    (b"node 0002 0000 1 1", 18),
    (b"say", 3),
    (b"say 0001", 8),
    (b"say 0001 0002", 13),
    (b"deliver", 7),
    (b"deliver 0", 9),
    (b"active", 6),
    // one token too many
    (b"active 0002 0003", 12),
    (b"deliver 0 0002 1", 15),
    (b"say 0001 0002 61 62", 17),
    (b"node 0002 0000 1 1 hex:61 hex:62", 26),
    // an empty token
    (b"active  0002", 7),
    (b"active ", 7),
    (b"active 0002 ", 12),
    (b"node 0002  0000 1 1 hex:61", 10),
    (b"say 0001 0002 ", 14),
    // a CR belongs to the last token
    (b"active 0002\r", 7),
    (b"deliver 0 0002\r", 10),
    (b"say 0001 0002 61\r", 14),
    // octets that are no text
    (b"active \xff\xff\xff\xff", 7),
    (b"say 0001 0002 \xc3\x28", 14),
    // where several tokens are wrong, the first
    (b"node 0000 0001 0 x y", 5),
    (b"deliver x", 8),
    (b"active 0000 0002", 7),
];

const LIMITS: &[Refused] = &[
    (b"deliver 00 0002", 8),
    (b"deliver 01 0002", 8),
    (b"deliver +1 0002", 8),
    (b"deliver -1 0002", 8),
    (b"deliver 1a 0002", 8),
    (b"deliver 4294967296 0002", 8),
    (b"deliver 18446744073709551616 0002", 8),
    (b"node 0002 0000 0 1 hex:61", 15),
    (b"node 0002 0000 257 1 hex:61", 15),
    (b"node 0002 0000 +1 1 hex:61", 15),
    (b"node 0002 0000 01 1 hex:61", 15),
    (b"node 0002 0000 1 4294967296 hex:61", 17),
    (b"node 0002 0000 1 -0 hex:61", 17),
    (b"active 0000", 7),
    (b"active 8000", 7),
    (b"active c000", 7),
    (b"active 002", 7),
    (b"active 00002", 7),
    (b"active 0x02", 7),
    (b"node 8000 0000 1 1 hex:61", 5),
    (b"node 0002 0001 1 1 hex:61", 10),
    (b"node 0002 bfff 1 1 hex:61", 10),
    (b"say c000 0002 61", 4),
    (b"say 0000 0002 61", 4),
    (b"say 0001 0000 61", 9),
    (b"say 0001 8000 61", 9),
    (b"say 0001 bfff 61", 9),
    (b"deliver 0 c000", 10),
];

const OCTETS: &[Refused] = &[
    (b"say 0001 0002 6", 14),
    (b"say 0001 0002 616", 14),
    (b"say 0001 0002 6g", 14),
    (b"node 0002 0000 1 1 hex:", 19),
    (b"node 0002 0000 1 1 hex:6", 19),
    (b"node 0002 0000 1 1 hex", 19),
    (b"node 0002 0000 1 1 HEX:61", 19),
    (b"node 0002 0000 1 1 61", 19),
    (b"node 0002 0000 1 1 hex:61:62", 19),
    (b"node 0002 0000 1 1 made:0:0", 19),
    (b"node 0002 0000 1 1 made:65536:1", 19),
    (b"node 0002 0000 1 1 made:1:1048577", 19),
    (b"node 0002 0000 1 1 made:1", 19),
    (b"node 0002 0000 1 1 made::1", 19),
    (b"node 0002 0000 1 1 made:1:2:3", 19),
    (b"node 0002 0000 1 1 made:01:1", 19),
];

const MEMBERS: &[Refused] = &[
    // a token lacks
    (b"pair", 4),
    (b"pair 0002 0000 1 1 hex:61", 25),
    (b"pair 0002 0000 1 1 hex:61 1", 27),
    (b"old", 3),
    (b"old 0002 0000 1 1", 17),
    // one token too many
    (b"pair 0002 0000 1 1 hex:61 1 hex:62 1", 35),
    (b"old 0002 0000 1 1 hex:61 1", 25),
    // the first token
    (b"pairs 0002 0000 1 1 hex:61 1 hex:62", 0),
    (b"OLD 0002 0000 1 1 hex:61", 0),
    // out of their limits
    (b"pair 8000 0000 1 1 hex:61 1 hex:62", 5),
    (b"pair 0002 bfff 1 1 hex:61 1 hex:62", 10),
    (b"pair 0002 0000 0 1 hex:61 1 hex:62", 15),
    (b"pair 0002 0000 257 1 hex:61 1 hex:62", 15),
    (b"pair 0002 0000 1 4294967296 hex:61 1 hex:62", 17),
    (b"pair 0002 0000 1 1 hex: 1 hex:62", 19),
    (b"pair 0002 0000 1 1 hex:61 4294967296 hex:62", 26),
    (b"pair 0002 0000 1 1 hex:61 01 hex:62", 26),
    (b"pair 0002 0000 1 1 hex:61 1 hex:6", 28),
    (b"pair 0002 0000 1 1 hex:61 1 made:1:1048577", 28),
    (b"pair 0002 0000 1 1 hex:61 hex:62 1", 26),
    (b"old 0000 0000 1 1 hex:61", 4),
    (b"old 0002 0001 1 1 hex:61", 9),
    (b"old 0002 0000 0 1 hex:61", 14),
    (b"old 0002 0000 257 1 hex:61", 14),
    (b"old 0002 0000 1 4294967296 hex:61", 16),
    (b"old 0002 0000 1 1 made:0:0", 18),
];

const TIMES_AND_CUTS: &[Refused] = &[
    // a token lacks
    (b"time", 4),
    (b"time 0002", 9),
    (b"cut", 3),
    (b"tear", 4),
    (b"tear 0002", 9),
    (b"tear 0002 1", 11),
    (b"phase", 5),
    // one token too many
    (b"time 0002 1 2", 12),
    (b"cut 0002 1", 9),
    (b"tear 0002 1 none 1", 17),
    (b"phase 0002 1", 11),
    // an empty token
    (b"time  1", 5),
    (b"cut ", 4),
    (b"tear 0002 1 ", 12),
    (b"phase  0002", 6),
    // the first token
    (b"Time 0002 1", 0),
    (b"cuts 0002", 0),
    (b"tea 0002 1 none", 0),
    (b"phases 0002", 0),
    // addresses
    (b"time 0000 1", 5),
    (b"time c000 1", 5),
    (b"cut 8000", 4),
    (b"tear 0000 1 none", 5),
    (b"phase c000", 6),
    // moments
    (b"time 0002 9223372036854775808", 10),
    (b"time 0002 18446744073709551616", 10),
    (b"time 0002 340282366920938463463374607431768211456", 10),
    (b"time 0002 00", 10),
    (b"time 0002 +1", 10),
    (b"time 0002 -1", 10),
    (b"time 0002 1ms", 10),
    (b"time 0002 1\r", 10),
    // numbers of operations
    (b"tear 0002 0 none", 10),
    (b"tear 0002 1001 none", 10),
    (b"tear 0002 01 none", 10),
    (b"tear 0002 none 1", 10),
    // patterns
    (b"tear 0002 1 None", 12),
    (b"tear 0002 1 old", 12),
    (b"tear 0002 1 alls", 12),
    (b"tear 0002 1 none\r", 12),
    (b"tear 0002 1 made", 12),
    (b"tear 0002 1 made:", 12),
    (b"tear 0002 1 made:65536", 12),
    (b"tear 0002 1 made:00", 12),
    (b"tear 0002 1 made:-1", 12),
    (b"tear 0002 1 made:1:2", 12),
    (b"tear 0002 1 hex:61", 12),
];

fn is_refused(line: &[u8], at: u16, why: LineWhy) -> bool {
    match read_line(line) {
        Ok(_) => false,
        Err(fault) => fault == LineFault { at, why },
    }
}

fn is_hex(content: &Content, octets: &[u8]) -> bool {
    match content {
        Content::Hex(held) => held.as_slice() == octets,
        Content::Made { .. } => false,
    }
}

fn is_made(content: &Content, of: u16, length: u32) -> bool {
    match content {
        Content::Hex(_) => false,
        Content::Made { seed, size } => *seed == of && *size == length,
    }
}

fn is_time(line: &[u8], at: u16, moment: u64) -> bool {
    match read_line(line) {
        Ok(Some(Event::Time { addr, ms })) => addr == at && ms == moment,
        _ => false,
    }
}

fn is_tear(line: &[u8], number: u16, left: Pattern) -> bool {
    match read_line(line) {
        Ok(Some(Event::Tear { addr, n, pattern })) => {
            addr == 0x0002 && n == number && pattern == left
        }
        _ => false,
    }
}

fn are_refused_token(rt: &impl Abort, lines: &[Refused]) {
    for (line, at) in lines {
        assert!(rt; is_refused(line, *at, LineWhy::Token), "{line:?} at {at}");
    }
}

#[test]
fn forms_are_refused_at_the_first_token_that_shows_it(rt: HostRuntime) {
    are_refused_token(&rt, FORMS);
}

#[test]
fn numbers_and_addresses_are_refused_out_of_their_limits(rt: HostRuntime) {
    are_refused_token(&rt, LIMITS);
}

#[test]
fn octets_and_images_are_refused_out_of_their_limits(rt: HostRuntime) {
    are_refused_token(&rt, OCTETS);
    let mut say = [b'6'; 776];
    say[..14].copy_from_slice(b"say 0001 0002 ");
    assert!(rt; is_refused(&say, 14, LineWhy::Token));
    assert!(rt; matches!(read_line(&say[..774]), Ok(Some(Event::Say { .. }))));
    let mut node = [b'6'; 2073];
    node[..23].copy_from_slice(b"node 0002 0000 1 1 hex:");
    assert!(rt; is_refused(&node, 19, LineWhy::Token));
    assert!(rt; matches!(read_line(&node[..2071]), Ok(Some(Event::Node { .. }))));
}

#[test]
fn lines_of_other_nodes_are_refused_at_the_first_token_that_shows_it(rt: HostRuntime) {
    are_refused_token(&rt, MEMBERS);
}

#[test]
fn times_and_cuts_are_refused_at_the_first_token_that_shows_it(rt: HostRuntime) {
    are_refused_token(&rt, TIMES_AND_CUTS);
}

#[test]
fn lines_have_at_most_4096_octets(rt: HostRuntime) {
    let mut line = [b'#'; 4097];
    assert!(rt; is_refused(&line, 4096, LineWhy::Long));
    assert!(rt; matches!(read_line(&line[..4096]), Ok(None)));
    line[..12].copy_from_slice(b"active 0002 ");
    assert!(rt; is_refused(&line, 4096, LineWhy::Long));
    assert!(rt; is_refused(&line[..4096], 12, LineWhy::Token));
    assert!(rt; matches!(read_line(b""), Ok(None)));
    assert!(rt; matches!(read_line(b"#"), Ok(None)));
    assert!(rt; matches!(read_line(b"# \xff active 0002"), Ok(None)));
}

#[test]
fn lines_are_read(rt: HostRuntime) -> Result<(), Fail> {
    let Some(
        Event::Node {
            addr,
            group,
            pages,
            version,
            content: Content::Made { seed, size },
        },
    ) = read_line(b"node 7FFF fFfF 256 4294967295 made:65535:1048576")?
    else {
        return Err(Fail::from("no node"));
    };
    assert_eq!(rt;
        (addr, group, pages, version, seed, size),
        (0x7FFF, 0xFFFF, 256, 4294967295, 65535, 1048576)
    );
    let Some(
        Event::Node {
            addr,
            group,
            pages,
            version,
            content: Content::Hex(octets),
        },
    ) = read_line(b"node 0001 c000 1 0 hex:6A4b")?
    else {
        return Err(Fail::from("no node"));
    };
    assert_eq!(rt; (addr, group, pages, version), (1, 0xC000, 1, 0));
    assert_eq!(rt; octets.as_slice(), [0x6A, 0x4B].as_slice());
    let Some(Event::Say { from, to, payload }) = read_line(b"say 0001 C000 83080001")? else {
        return Err(Fail::from("nothing said"));
    };
    assert_eq!(rt; (from, to), (1, 0xC000));
    assert_eq!(rt; payload.as_slice(), [0x83, 0x08, 0x00, 0x01].as_slice());
    assert!(rt;
        matches!(
            read_line(b"deliver 4294967295 0002"),
            Ok(Some(Event::Deliver {
                packet: 4294967295,
                addr: 2
            }))
        )
    );
    assert!(rt;
        matches!(
            read_line(b"deliver 0 7fff"),
            Ok(Some(Event::Deliver {
                packet: 0,
                addr: 0x7FFF
            }))
        )
    );
    assert!(rt;
        matches!(
            read_line(b"active 00aB"),
            Ok(Some(Event::Active { addr: 0xAB }))
        )
    );
    assert!(rt;
        matches!(
            read_line(b"node 0002 0000 1 1 made:0:1"),
            Ok(Some(Event::Node {
                group: 0,
                content: Content::Made { seed: 0, size: 1 },
                ..
            }))
        )
    );
    Ok(())
}

#[test]
fn times_and_cuts_are_read(rt: HostRuntime) {
    assert!(rt;
        is_time(
            b"time 7fff 9223372036854775807",
            0x7FFF,
            9_223_372_036_854_775_807
        )
    );
    assert!(rt; is_time(b"time 0001 0", 1, 0));
    assert!(rt;
        matches!(
            read_line(b"cut 7FFF"),
            Ok(Some(Event::Cut { addr: 0x7FFF }))
        )
    );
    assert!(rt; matches!(read_line(b"phase 0001"), Ok(Some(Event::Phase { addr: 1 }))));
    assert!(rt; is_tear(b"tear 0002 1 none", 1, Pattern::Old));
    assert!(rt; is_tear(b"tear 0002 1000 all", 1000, Pattern::New));
    assert!(rt; is_tear(b"tear 0002 3 made:0", 3, Pattern::Made(0)));
    assert!(rt; is_tear(b"tear 0002 4 made:65535", 4, Pattern::Made(65535)));
}

#[test]
fn other_nodes_are_read(rt: HostRuntime) -> Result<(), Fail> {
    let Some(
        Event::Pair {
            addr,
            group,
            pages,
            version,
            content,
            second_version,
            second_content,
        },
    ) = read_line(b"pair 0002 c001 256 7 hex:6162 4294967295 made:8:9")?
    else {
        return Err(Fail::from("no pair"));
    };
    assert_eq!(rt;
        (addr, group, pages, version, second_version),
        (2, 0xC001, 256, 7, 4_294_967_295)
    );
    assert!(rt; is_hex(&content, b"ab"));
    assert!(rt; is_made(&second_content, 8, 9));
    let Some(
        Event::Old {
            addr,
            group,
            pages,
            version,
            content,
        },
    ) = read_line(b"old 0003 0000 4 5 made:6:7")?
    else {
        return Err(Fail::from("no node of the older form"));
    };
    assert_eq!(rt; (addr, group, pages, version), (3, 0, 4, 5));
    assert!(rt; is_made(&content, 6, 7));
    Ok(())
}
