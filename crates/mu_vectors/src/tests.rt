use crate::{Longest, Refused, Vector, blob, distribution, opcodes, update};
use arrayvec::ArrayVec;
use mu_access::{read, undatagram, write};
use mu_codec::{Refusal, Why};
use mu_report::{ListFault, Report, decode_list, encode_list, read_report};

// Whether the octets and the canonical octets are the same message, and this one is written as the canonical octets.
fn holds(vector: &Vector) -> bool {
    let Ok(message) = read(vector.octets) else {
        return false;
    };
    read(vector.canonical) == Ok(message) && is_canonical(vector.canonical)
}

// Whether what the octets are is written as these octets.
fn is_canonical(octets: &[u8]) -> bool {
    match read(octets) {
        Ok(message) => write(&message).as_slice() == octets,
        Err(_) => false,
    }
}

fn is_refused(octets: &[u8], at: u16, why: Why) -> bool {
    read(octets) == Err(Refusal { at, why })
}

fn is_longest(longest: &Longest) -> bool {
    let mut octets: ArrayVec<u8, 400> = ArrayVec::new();
    if octets.try_extend_from_slice(longest.head).is_err() {
        return false;
    }
    for _ in 0..380 {
        if octets.try_extend_from_slice(longest.repeated).is_err() {
            break;
        }
    }
    let length = longest.length as usize;
    octets.len() > length
        && is_canonical(&octets.as_slice()[..length])
        && is_refused(
            &octets.as_slice()[..length + 1],
            longest.length,
            longest.past,
        )
}

#[test]
fn vectors_are_read_and_written(rt: HostRuntime) {
    for table in [blob::VECTORS, update::VECTORS, distribution::VECTORS] {
        for vector in table {
            assert!(rt; holds(vector), "at {:?}", vector.octets);
        }
    }
}

#[test]
fn refusals_are_at_their_place(rt: HostRuntime) {
    for table in [
        opcodes::REFUSED,
        blob::REFUSED,
        update::REFUSED,
        distribution::REFUSED,
    ] {
        for (octets, at, why) in table {
            assert!(rt; is_refused(octets, *at, *why), "at {octets:?}");
        }
    }
}

#[test]
fn the_longest_messages_end_at_their_place(rt: HostRuntime) {
    for table in [blob::LONGEST, update::LONGEST, distribution::LONGEST] {
        for longest in table {
            assert!(rt; is_longest(longest), "at {:?}", longest.head);
        }
    }
}

#[test]
fn lists_are_of_the_shortest_patterns(rt: HostRuntime) {
    let encoded = encode_list(&[0, 127, 128, 2047]);
    assert!(rt; encoded.is_some());
    if let Some(list) = encoded {
        assert_eq!(rt; list.as_slice(), b"\x00\x7F\xC2\x80\xDF\xBF".as_slice());
    }
    assert_eq!(rt;
        decode_list(b"\xE0\x82\x80"),
        Err(ListFault { at: 0, cut: false })
    );
    assert_eq!(rt;
        decode_list(b"\xE0\x82"),
        Err(ListFault { at: 0, cut: true })
    );
}

#[test]
fn a_bit_past_the_last_chunk_is_no_report(rt: HostRuntime) {
    for (bits, is_report) in [
        (b"\x00\x00\x20", false),
        (b"\x00\x00\x10", true),
        (b"\x00\x00\x80", false),
    ] {
        let mut field = ArrayVec::new();
        for bit in bits {
            if field.try_push(*bit).is_err() {
                break;
            }
        }
        assert_eq!(rt;
            read_report(&Report::Bits(field), 21).is_some(),
            is_report,
            "at {bits:?}"
        );
    }
}

#[test]
fn a_datagram_has_a_payload_of_at_most_380_octets(rt: HostRuntime) {
    let mut octets = [0x66; 389];
    octets[..8].copy_from_slice(b"MU\x01\x00\x02\x00\x00\xC0");
    assert!(rt; undatagram(&octets[..388]).is_ok());
    assert_eq!(rt;
        undatagram(&octets),
        Err(Refusal {
            at: 388,
            why: Why::Long
        })
    );
}
