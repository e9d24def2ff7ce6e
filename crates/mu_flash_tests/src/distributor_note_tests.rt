ghost use Rattle.mu_distributor_note.specs.Rules.{HasModeAndPolicy};

use arrayvec::ArrayVec;
use mu_distributor_note::{
    Foreign, NoteHead, ReceiverRow, UploadPhase, distributor_note_from, distributor_note_octets,
};
use mu_image::Meta;
use mu_model_distributor::{DistPhase, Settings};

const ROW: ReceiverRow = ReceiverRow {
    address: 0x0102,
    phase: 8,
    update_status: 3,
    transfer_status: 9,
    progress: 0,
    image_index: 4,
};

fn head() -> NoteHead
    ensures { HasModeAndPolicy result.settings }
{
    let mut banks = ArrayVec::new();
    banks.push(3);
    banks.push(1);
    NoteHead {
        phase: DistPhase::ApplyingUpdate,
        upload: UploadPhase::TransferError,
        banks,
        counter: 0x0605_0403_0201,
        settings: Settings {
            appkey: 0x0ABC,
            ttl: 5,
            base: 0x0708,
            mode: 2,
            policy: 1,
            image: 1,
            group: 0xC001,
        },
        upload_ttl: 6,
        upload_meta: Meta {
            size: 3,
            version: 2,
            digest: [0xD1; 32],
        },
    }
}

// The first octets of the note, and those of its row.
const FIRST: [u8; 36] = [
    2, 3, 2, 2, 3, 1, 0, 0, 1, 2, 3, 4, 5, 6, 0, 0, 5, 8, 7, 6, 1, 0, 1, 0xC0, 0xBC, 0x0A, 1, 6, 3,
    0, 0, 0, 2, 0, 0, 0,
];

const ROW_OCTETS: [u8; 6] = [2, 1, 4, 8, 3, 9];

#[test]
fn a_distributor_has_its_places(rt: HostRuntime) {
    let note = distributor_note_octets(&head(), &[ROW]);
    assert_eq!(rt; &note[..36], FIRST.as_slice());
    assert_eq!(rt; &note[36..68], [0xD1; 32].as_slice());
    assert_eq!(rt; &note[68..128], [0; 60].as_slice());
    assert_eq!(rt; &note[128..134], ROW_OCTETS.as_slice());
    assert_eq!(rt; &note[134..], [0; 1594].as_slice());
    match distributor_note_from(&note) {
        Err(_) => assert!(rt; false),
        Ok((head, rows)) => {
            assert_eq!(rt; head.counter, 0x0605_0403_0201);
            assert_eq!(rt; head.banks.as_slice(), [3, 1].as_slice());
            assert!(rt; rows.as_slice() == [ROW].as_slice());
        }
    }
}

// Whether the note is Foreign with this octet at this place.
fn is_foreign_with(place: usize, octet: u8) -> bool {
    let mut note = distributor_note_octets(&head(), &[ROW]);
    let Some(at) = note.get_mut(place) else {
        return false;
    };
    *at = octet;
    distributor_note_from(&note).is_err()
}

#[test]
fn an_octet_out_of_its_range_is_foreign(rt: HostRuntime) {
    let places = [
        (0, 1),
        (1, 8),
        (2, 4),
        (3, 5),
        (5, 3),
        (6, 1),
        (14, 1),
        (19, 3),
        (23, 0xBF),
        (25, 0x10),
        (26, 2),
        (68, 1),
        (129, 0x80),
        (131, 11),
        (132, 8),
        (133, 11),
        (134, 1),
        (1727, 1),
    ];
    assert_eq!(rt;
        places.map(|(place, octet)| is_foreign_with(place, octet)),
        [true; 18]
    );
    let kept = [(1, 1), (2, 3), (4, 0), (13, 9), (16, 255), (130, 255)];
    assert_eq!(rt;
        kept.map(|(place, octet)| is_foreign_with(place, octet)),
        [false; 6]
    );
}
