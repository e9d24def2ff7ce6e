use mu_model_image::Meta;
use mu_model_node::{Parameters, Stored};
use mu_note::{
    Active, BlobJob, Foreign, NodeNote, Note, NoteJob, blob_part_of, node_note_from,
    node_note_octets, note_of, old_node_note_octets, tag_of,
};

const PARAMETERS: Parameters = Parameters {
    mode: 1,
    size: 0x0001_0203,
    log: 12,
    mtu: 380,
};

const JOB: BlobJob = BlobJob {
    id: 0x0807_0605_0403_0201,
    size: 0x0001_0203,
    base: 0x0302,
    bank: 1,
    parameters: Some(PARAMETERS),
};

const META: Meta = Meta {
    size: 3,
    version: 2,
    digest: [0xD1; 32],
};

// The first octets of the BLOB part of the job.
const PART: [u8; 20] = [
    1, 1, 0x7C, 1, 1, 2, 3, 4, 5, 6, 7, 8, 3, 2, 1, 0, 2, 3, 1, 12,
];

fn note_of_octet(octet: u8) -> Note {
    [octet; 1728]
}

#[test]
fn a_job_has_its_places(rt: HostRuntime) {
    let tag = tag_of(&Some(JOB), &note_of_octet(7));
    assert_eq!(rt; &tag[..20], PART.as_slice());
    assert_eq!(rt; &tag[20..64], [0; 44].as_slice());
    assert_eq!(rt; &tag[64..], note_of_octet(7).as_slice());
    assert_eq!(rt; blob_part_of(&tag), Ok(Some(JOB)));
    assert_eq!(rt; note_of(&tag).as_slice(), note_of_octet(7).as_slice());
    let unbegun = BlobJob {
        parameters: None,
        ..JOB
    };
    let tag = tag_of(&Some(unbegun), &note_of_octet(0));
    assert_eq!(rt; &tag[..4], [1, 0, 0, 0].as_slice());
    assert_eq!(rt; &tag[4..19], &PART[4..19]);
    assert_eq!(rt; &tag[19..], [0; 1773].as_slice());
    assert_eq!(rt; blob_part_of(&tag), Ok(Some(unbegun)));
    let tag = tag_of(&None, &note_of_octet(0));
    assert_eq!(rt; tag.as_slice(), [0; 1792].as_slice());
    assert_eq!(rt; blob_part_of(&tag), Ok(None));
}

fn node_with(active: Active, stored: Stored, index: u8) -> NodeNote {
    NodeNote {
        active,
        job: Some(NoteJob {
            stored,
            ttl: 5,
            meta: META,
            index,
        }),
    }
}

#[test]
fn the_new_note_has_its_places(rt: HostRuntime) {
    let octets = node_note_octets(&node_with(Active::Two(2, 1), Stored::Verified, 1));
    assert_eq!(rt;
        &octets[..12],
        [3, 2, 4, 5, 3, 0, 0, 0, 2, 0, 0, 0].as_slice()
    );
    assert_eq!(rt; &octets[12..44], [0xD1; 32].as_slice());
    assert_eq!(rt; &octets[44..47], [1, 1, 0].as_slice());
    assert_eq!(rt; &octets[47..], [0; 1681].as_slice());
    let new = NodeNote {
        active: Active::One(0),
        job: None,
    };
    let octets = node_note_octets(&new);
    assert_eq!(rt; octets[0], 3);
    assert_eq!(rt; &octets[1..], [0; 1727].as_slice());
    let octets = old_node_note_octets(&NodeNote {
        active: Active::One(1),
        job: None,
    });
    assert_eq!(rt; &octets[..2], [1, 1].as_slice());
    assert_eq!(rt; &octets[2..], [0; 1726].as_slice());
}

#[test]
fn notes_are_read_back(rt: HostRuntime) {
    for stored in [
        Stored::Filling,
        Stored::Verified,
        Stored::Refused,
        Stored::Applied,
    ] {
        let one = node_with(Active::One(1), stored, 0);
        let two = node_with(Active::Two(0, 2), stored, 1);
        assert_eq!(rt; node_note_from(2, &node_note_octets(&one)), Ok(one));
        assert_eq!(rt; node_note_from(2, &old_node_note_octets(&one)), Ok(one));
        assert_eq!(rt; node_note_from(3, &node_note_octets(&two)), Ok(two));
        assert_eq!(rt; node_note_from(2, &node_note_octets(&two)), Err(Foreign));
        assert_eq!(rt;
            node_note_from(3, &old_node_note_octets(&one)),
            Err(Foreign)
        );
        assert_eq!(rt; node_note_from(4, &node_note_octets(&two)), Err(Foreign));
    }
}
