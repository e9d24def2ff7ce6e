use mu_image::{Digesting, Meta, fwid_of, made_byte, make_image, meta_from, meta_octets};

// SHA-256 of "a" and of "abc", the second as in FIPS 180-4's example.
const DIGEST_OF_A: &str = "ca978112ca1bbdcafac231b39a23dc4da786eff8147c4e72b9807785afee48bb";

const DIGEST_OF_ABC: &str = "ba7816bf8f01cfea414140de5dae2223b00361a396177a9cb410ff61f20015ad";

fn digest_of(pieces: &[&[u8]]) -> [u8; 32] {
    let mut digesting = Digesting::new();
    for piece in pieces {
        digesting.take(piece);
    }
    digesting.done()
}

#[test]
fn digests_are_those_of_the_standard(rt: HostRuntime) -> Result<(), anyhow::Error> {
    let alloc = rt.alloc();
    assert_eq!(rt;
        hex::encode(alloc, &digest_of(&[b"a"]))?.as_str(),
        DIGEST_OF_A
    );
    assert_eq!(rt;
        hex::encode(alloc, &digest_of(&[b"abc"]))?.as_str(),
        DIGEST_OF_ABC
    );
    assert_eq!(rt;
        hex::encode(alloc, &digest_of(&[b"a", b"", b"bc"]))?.as_str(),
        DIGEST_OF_ABC
    );
    Ok(())
}

#[test]
fn metadata_and_firmware_id_have_their_octets(rt: HostRuntime) -> Result<(), anyhow::Error> {
    let alloc = rt.alloc();
    let meta = Meta {
        size: 3,
        version: 2,
        digest: digest_of(&[b"abc"]),
    };
    let octets = meta_octets(&meta);
    let text = hex::encode(alloc, &octets)?;
    assert_eq!(rt;
        text.as_str(),
        "0300000002000000ba7816bf8f01cfea414140de5dae2223b00361a396177a9cb410ff61f20015ad"
    );
    assert!(rt; meta_from(&octets) == Some(meta));
    assert!(rt; meta_from(&[1; 39]) == None);
    let id = fwid_of(0xFFFF, &meta);
    let text = hex::encode(alloc, id.as_slice())?;
    assert_eq!(rt;
        text.as_str(),
        "ffff02000000ba7816bf8f01cfea414140de5dae2223b00361a396177a9cb410ff61f20015ad"
    );
    Ok(())
}

#[test]
fn metadata_of_no_octets_is_none(rt: HostRuntime) {
    let mut octets = [0; 41];
    octets[4] = 1;
    assert!(rt; meta_from(&octets[..40]) == None);
    octets[3] = 1;
    assert!(rt; meta_from(&octets) == None);
    match meta_from(&octets[..40]) {
        Some(meta) => assert_eq!(rt; meta.size, 0x0100_0000),
        None => assert!(rt; false),
    }
}

#[test]
fn made_octets_are_those_of_the_formula(rt: HostRuntime) -> Result<(), anyhow::Error> {
    for (seed, i, octet) in [
        (0, 0, 0),
        (0, 1, 7),
        (0, 255, 249),
        (0, 256, 1),
        (9, 300, 62),
        (65535, 65535, 247),
        (u64::MAX, u64::MAX, 247),
    ] {
        assert_eq!(rt; made_byte(seed, i), octet, "at {seed} {i}");
    }
    let image = make_image(rt.alloc(), 9, 4096)?;
    assert_eq!(rt; image.len(), 4096);
    assert_eq!(rt; image[300], 62);
    Ok(())
}
