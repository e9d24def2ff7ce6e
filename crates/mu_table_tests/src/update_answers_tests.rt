use mu_codec::Outbox;
use mu_image::Meta;
use mu_model_node::{Link, Stored};
use mu_update_answers::{octets_of, request_at, send};
use mu_update_rows::{
    ActiveMetas, JobLook, NodeLook, UpdateAnswer, UpdateRequest, check_answer, information,
    update_answer,
};

const OLD: Meta = Meta {
    size: 1,
    version: 4,
    digest: [0x11; 32],
};

const NEW: Meta = Meta {
    size: 16,
    version: 5,
    digest: [0x22; 32],
};

// A node of two images whose update of image 1 is verified.
const LOOK: NodeLook = NodeLook {
    capacity: 4096,
    active: ActiveMetas {
        first: OLD,
        second: Some(NEW),
    },
    job: Some(JobLook {
        id: 0x0807_0605_0403_0201,
        index: 1,
        meta: NEW,
        ttl: 5,
        base: 0x0102,
        stored: Stored::Verified,
        is_whole: true,
    }),
    link: Link::Running,
};

// A request as a letter: I information, M metadata, G get, S start, C cancel, A apply, - none.
fn letter(payload: &[u8]) -> u8 {
    match request_at(payload) {
        Some(UpdateRequest::InformationGet { .. }) => b'I',
        Some(UpdateRequest::MetadataCheck { .. }) => b'M',
        Some(UpdateRequest::UpdateGet) => b'G',
        Some(UpdateRequest::StartUpdate(_)) => b'S',
        Some(UpdateRequest::UpdateCancel) => b'C',
        Some(UpdateRequest::UpdateApply) => b'A',
        None => b'-',
    }
}

#[test]
fn each_request_is_read_and_nothing_else(rt: HostRuntime) {
    assert_eq!(rt; letter(&[0x83, 0x08, 0, 1]), b'I');
    assert_eq!(rt; letter(&[0x83, 0x08, 0, 1, 0]), b'-');
    assert_eq!(rt; letter(&[0x83, 0x09, 1, 0]), b'-');
    assert_eq!(rt; letter(&[0x83, 0x0A, 0]), b'M');
    assert_eq!(rt; letter(&[0x83, 0x0B, 0, 0]), b'-');
    assert_eq!(rt; letter(&[0x83, 0x0C]), b'G');
    assert_eq!(rt;
        letter(&[0x83, 0x0D, 5, 2, 1, 1, 2, 3, 4, 5, 6, 7, 8, 0]),
        b'S'
    );
    assert_eq!(rt;
        letter(&[0x83, 0x0D, 5, 2, 1, 1, 2, 3, 4, 5, 6, 7, 8]),
        b'-'
    );
    assert_eq!(rt; letter(&[0x83, 0x0E]), b'C');
    assert_eq!(rt; letter(&[0x83, 0x0F]), b'A');
    assert_eq!(rt; letter(&[0x83, 0x10, 0]), b'-');
    assert_eq!(rt; letter(&[0x83, 0x18]), b'-');
    assert_eq!(rt; letter(&[]), b'-');
}

#[test]
fn what_is_answered_goes_to_its_destination(rt: HostRuntime) {
    let mut out = Outbox::new();
    send(2, 1, update_answer(&LOOK, 0), &mut out);
    let Some(packet) = out.first() else {
        return;
    };
    assert_eq!(rt; (packet.from, packet.to), (2, 1));
    assert_eq!(rt;
        packet.payload.as_slice(),
        [0x83, 0x10, 0x80, 5, 0, 2, 1, 1, 2, 3, 4, 5, 6, 7, 8, 1].as_slice()
    );
}

fn answered(answer: UpdateAnswer, octets: &[u8]) -> bool {
    octets_of(answer).as_slice() == octets
}

#[test]
fn images_and_checks_are_told(rt: HostRuntime) {
    // The length of the Firmware ID, its company, version and digest, and the length of the empty URI.
    let mut second = [0x22; 44];
    second[..11].copy_from_slice(&[0x83, 0x09, 2, 1, 0x26, 0xFF, 0xFF, 5, 0, 0, 0]);
    second[43] = 0;
    assert!(rt; answered(information(&LOOK, 1, 1), &second));
    assert!(rt; answered(information(&LOOK, 2, 1), &[0x83, 0x09, 2, 2]));
    assert!(rt; answered(check_answer(&LOOK, 2, &[]), &[0x83, 0x0B, 4, 2]));
    assert!(rt; answered(check_answer(&LOOK, 1, &[]), &[0x83, 0x0B, 5, 1]));
}
