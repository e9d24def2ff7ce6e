ghost use Rattle.std.specs.Prelude.{◌≡◌, ◌≤◌, length};

use arrayvec::ArrayVec;
use mu_report::{ListFault, NumberSet, Report, decode_list, encode_list, read_report, report_of};

// The set of the numbers that are below `n`.
fn set_of(n: u16, numbers: &[u16]) -> NumberSet
    requires { n ≤ 2048 }
    ensures { length result ≡ n }
{
    let mut set = NumberSet::new(n);
    for number in numbers {
        if *number < set.bound() {
            set.insert(*number);
        }
    }
    set
}

fn is_set(set: &NumberSet, numbers: &[u16]) -> bool {
    let mut next = set.first_from(0);
    for number in numbers {
        if next != Some(*number) || !set.contains(*number) {
            return false;
        }
        next = match *number {
            0..=2047 => set.first_from(*number + 1),
            _ => None,
        };
    }
    next == None && set.count() as usize == numbers.len()
}

fn bits(octets: &[u8]) -> Report {
    let mut field = ArrayVec::new();
    let _ = field.try_extend_from_slice(octets);
    Report::Bits(field)
}

fn list(numbers: &[u16]) -> Report {
    let mut listed = ArrayVec::new();
    let _ = listed.try_extend_from_slice(numbers);
    Report::List(listed)
}

fn decodes(bytes: &[u8], numbers: &[u16]) -> bool {
    bytes.len() <= 379
        && match decode_list(bytes) {
            Ok(decoded) => decoded.as_slice() == numbers,
            Err(_) => false,
        }
}

fn is_faulty(bytes: &[u8], at: u16, cut: bool) -> bool {
    bytes.len() <= 379
        && match decode_list(bytes) {
            Ok(_) => false,
            Err(fault) => fault == ListFault { at, cut },
        }
}

fn encodes(numbers: &[u16], bytes: &[u8]) -> bool {
    match encode_list(numbers) {
        Some(octets) => octets.as_slice() == bytes,
        None => false,
    }
}

#[test]
fn numbers_have_the_shortest_pattern(rt: HostRuntime) {
    assert!(rt; encodes(&[0, 127, 128, 2047], b"\x00\x7f\xc2\x80\xdf\xbf"));
    assert!(rt; decodes(b"\x00\x7f\xc2\x80\xdf\xbf", &[0, 127, 128, 2047]));
    // The ends of three octets, and surrogates as any other number.
    assert!(rt;
        encodes(
            &[0x800, 0xD800, 0xDFFF, 0xFFFF],
            b"\xe0\xa0\x80\xed\xa0\x80\xed\xbf\xbf\xef\xbf\xbf"
        )
    );
    assert!(rt;
        decodes(
            b"\xe0\xa0\x80\xed\xa0\x80\xed\xbf\xbf\xef\xbf\xbf",
            &[0x800, 0xD800, 0xDFFF, 0xFFFF]
        )
    );
    assert!(rt; encodes(&[], &[]));
    assert!(rt; decodes(&[], &[]));
}

#[test]
fn the_first_bad_pattern_is_named(rt: HostRuntime) {
    let cases: [(&[u8], u16, bool); 14] = [
        (b"\xe0\x82\x80", 0, false),
        (b"\xe0\x82", 0, true),
        (b"\xe0\x9f\xbf", 0, false),
        (b"\xc1\xbf", 0, false),
        (b"\xc0\x80", 0, false),
        (b"\xc2", 0, true),
        (b"\xc2\x41", 0, false),
        (b"\xe1\x41", 0, true),
        (b"\xe1\x41\x80", 0, false),
        (b"\xe1\x80\x41", 0, false),
        (b"\x41\xc2", 1, true),
        (b"\xdf\xbf\xe0\x82\x80\xff", 2, false),
        (b"\xef\xbf\xbf\x80", 3, false),
        (b"\xf0\x90\x80\x80", 0, false),
    ];
    for (bytes, at, cut) in cases {
        assert!(rt; is_faulty(bytes, at, cut), "at {at} {cut}");
    }
}

#[test]
fn each_first_octet_announces_its_pattern(rt: HostRuntime) {
    for first in 0..=255u8 {
        let number = first as u16;
        let alone = [first];
        let followed = [first, 0xBF, 0xBF];
        match first {
            0x00..=0x7F => {
                assert!(rt; decodes(&alone, &[number]), "{first}");
                assert!(rt; is_faulty(&followed, 1, false), "{first}");
            }
            0xC2..=0xDF => {
                assert!(rt; is_faulty(&alone, 0, true), "{first}");
                assert!(rt;
                    decodes(&followed[..2], &[(number - 0xC0) * 64 + 63]),
                    "{first}"
                );
                assert!(rt; is_faulty(&followed, 2, false), "{first}");
            }
            0xE0..=0xEF => {
                assert!(rt; is_faulty(&alone, 0, true), "{first}");
                assert!(rt;
                    decodes(&followed, &[(number - 0xE0) * 4096 + 4095]),
                    "{first}"
                );
            }
            _ => {
                assert!(rt; is_faulty(&alone, 0, false), "{first}");
                assert!(rt; is_faulty(&followed, 0, false), "{first}");
            }
        }
    }
}

#[test]
fn a_list_has_at_most_379_octets(rt: HostRuntime) {
    let ones = [1; 380];
    let mut mixed = [0xFFFF; 128];
    mixed[126] = 1;
    mixed[127] = 1;
    assert!(rt; encode_list(&ones[..379]).is_some());
    assert!(rt; encode_list(&ones).is_none());
    assert!(rt; encode_list(&mixed[..126]).is_some());
    assert!(rt; encode_list(&mixed[..127]).is_some());
    assert!(rt; encode_list(&mixed).is_none());
}

#[test]
fn a_set_has_the_numbers_that_were_added(rt: HostRuntime) {
    for n in [1, 8, 63, 64, 65, 2047, 2048] {
        let last = n - 1;
        let mut set = set_of(n, &[last, 0, last]);
        assert_eq!(rt; set.bound(), n);
        assert_eq!(rt; set.count(), if n == 1 { 1 } else { 2 }, "{n}");
        assert!(rt; set.contains(last) && !set.contains(n), "{n}");
        assert_eq!(rt; set.first_from(last), Some(last), "{n}");
        assert_eq!(rt; set.first_from(n), None, "{n}");
        assert_eq!(rt; set.missing().count(), n - set.count(), "{n}");
        set.remove(n);
        set.remove(0);
        set.remove(0);
        assert_eq!(rt; set.count(), if n == 1 { 0 } else { 1 }, "{n}");
        let other = set_of(n, &[0]);
        set.union_with(&other);
        assert_eq!(rt; set.first_from(0), Some(0), "{n}");
    }
    let none = NumberSet::new(0);
    assert!(rt; none.bound() == 0 && none.count() == 0 && none.missing().count() == 0);
    assert!(rt; none.first_from(0) == None && none.first_from(65535) == None && !none.contains(0));
}

#[test]
fn the_first_number_is_found_across_words(rt: HostRuntime) {
    let set = set_of(2048, &[63, 64, 127, 1983, 2047]);
    assert!(rt; is_set(&set, &[63, 64, 127, 1983, 2047]));
    for (from, found) in [
        (0, 63),
        (63, 63),
        (64, 64),
        (65, 127),
        (128, 1983),
        (1984, 2047),
        (2047, 2047),
    ] {
        assert_eq!(rt; set.first_from(from), Some(found), "{from}");
    }
}

#[test]
fn a_bit_field_has_a_bit_for_each_number(rt: HostRuntime) {
    let empty: [u16; 0] = [];
    assert_eq!(rt; set_of(0, &empty).bit_field().as_slice(), b"".as_slice());
    assert_eq!(rt;
        set_of(9, &[0, 8]).bit_field().as_slice(),
        b"\x01\x01".as_slice()
    );
}

#[test]
fn a_report_takes_the_list_where_it_is_shorter(rt: HostRuntime) {
    let empty: [u16; 0] = [];
    assert!(rt; report_of(&set_of(1, &[0])) == Report::All);
    assert!(rt; report_of(&set_of(1, &empty)) == Report::Nothing);
    assert!(rt; report_of(&set_of(8, &[7])) == bits(b"\x80"));
    assert!(rt; report_of(&set_of(9, &[8])) == list(&[8]));
    assert!(rt; report_of(&set_of(21, &[9, 0])) == list(&[0, 9]));
    assert!(rt; report_of(&set_of(21, &[0, 9, 20])) == bits(b"\x01\x02\x10"));
    assert!(rt; report_of(&set_of(21, &[0, 9, 20]).missing()) == bits(b"\xfe\xfd\x0f"));
    assert!(rt; report_of(&NumberSet::new(2048).missing()) == Report::All);
    assert!(rt; report_of(&NumberSet::new(2047)) == Report::Nothing);
}

// The set of so many numbers from 1,000 on that are below `n`.
fn thousands(n: u16, count: u16) -> NumberSet
    requires within { n ≤ 2048 }
    requires few { count ≤ 2048 }
    ensures { length result ≡ n }
{
    let mut set = NumberSet::new(n);
    for number in 1000..1000 + count {
        if number < set.bound() {
            set.insert(number);
        }
    }
    set
}

#[test]
fn a_report_of_the_most_numbers_takes_the_shorter_form(rt: HostRuntime) {
    // 127 numbers of two octets are shorter than 256 octets, 128 are as long.
    for n in [2047, 2048] {
        for count in [127, 128] {
            let report = report_of(&thousands(n, count));
            assert_eq!(rt;
                matches!(&report, Report::List(_)),
                count == 127,
                "{n} {count}"
            );
            match read_report(&report, n) {
                Some(set) => {
                    assert_eq!(rt; set.count(), count, "{n}");
                    assert_eq!(rt; set.first_from(0), Some(1000), "{n}");
                    assert_eq!(rt; set.first_from(1000 + count), None, "{n}");
                }
                None => assert!(rt; false, "{n} {count}"),
            }
        }
    }
}

fn reads(report: &Report, n: u16, numbers: &[u16]) -> bool
    requires { n ≤ 2048 }
{
    match read_report(report, n) {
        Some(set) => set.bound() == n && is_set(&set, numbers),
        None => false,
    }
}

fn names_none(report: &Report, n: u16) -> bool
    requires { n ≤ 2048 }
{
    read_report(report, n).is_none()
}

#[test]
fn a_report_names_its_set(rt: HostRuntime) {
    assert!(rt; reads(&Report::All, 3, &[0, 1, 2]));
    assert!(rt; reads(&Report::All, 0, &[]));
    assert!(rt; reads(&Report::Nothing, 21, &[]));
    assert!(rt; reads(&bits(b"\x00\x00\x10"), 21, &[20]));
    assert!(rt; reads(&bits(b"\x01\x80"), 16, &[0, 15]));
    assert!(rt; reads(&bits(b""), 0, &[]));
    assert!(rt; reads(&list(&[9, 0, 9]), 21, &[0, 9]));
    assert!(rt; reads(&list(&[]), 0, &[]));
    assert!(rt; reads(&list(&[2047]), 2048, &[2047]));
}

#[test]
fn a_report_that_names_no_set_is_refused(rt: HostRuntime) {
    assert!(rt; names_none(&bits(b"\x00\x00\x20"), 21));
    assert!(rt; names_none(&bits(b"\x00\x00"), 21));
    assert!(rt; names_none(&bits(b"\x00\x00\x00\x00"), 21));
    assert!(rt; names_none(&bits(b"\x00"), 0));
    assert!(rt; names_none(&bits(b"\x02"), 1));
    assert!(rt; names_none(&list(&[0, 21]), 21));
    assert!(rt; names_none(&list(&[0]), 0));
    assert!(rt; names_none(&list(&[2047]), 2047));
}
