use mu_image::{Meta, meta_octets};
use mu_model_node::{Link, Stored};
use mu_update_rows::{
    ActiveMetas, JobLook, NodeLook, UpdateStart, UpdateStep, apply_step, cancel_step, phase_of,
    start_step,
};

const OLD: Meta = Meta {
    size: 1,
    version: 4,
    digest: [1; 32],
};

const NEW: Meta = Meta {
    size: 4096,
    version: 5,
    digest: [2; 32],
};

// A node of one image whose job is NEW for it.
fn node(stored: Stored, is_whole: bool, link: Link) -> NodeLook {
    NodeLook {
        capacity: 4096,
        active: ActiveMetas {
            first: OLD,
            second: None,
        },
        job: Some(JobLook {
            id: 7,
            index: 0,
            meta: NEW,
            ttl: 5,
            base: 1,
            stored,
            is_whole,
        }),
        link,
    }
}

// A node in each phase, in the order of their numbers.
fn nodes() -> [NodeLook; 7] {
    let mut idle = node(Stored::Filling, false, Link::Cut);
    idle.job = None;
    [
        idle,
        node(Stored::Filling, false, Link::Cut),
        node(Stored::Filling, false, Link::Ready),
        node(Stored::Filling, true, Link::Running),
        node(Stored::Verified, true, Link::Running),
        node(Stored::Refused, false, Link::Cut),
        node(Stored::Applied, true, Link::Cut),
    ]
}

// A step as a letter: R ready, H heard, T taken, L lost, A applied, a status as its digit.
fn letter(step: UpdateStep) -> u8 {
    match step {
        UpdateStep::MakeReady => b'R',
        UpdateStep::Hear => b'H',
        UpdateStep::Take(_) => b'T',
        UpdateStep::Lose => b'L',
        UpdateStep::Apply => b'A',
        UpdateStep::Answer(status) => match status {
            0 => b'0',
            2 => b'2',
            4 => b'4',
            5 => b'5',
            _ => b'?',
        },
    }
}

fn asked<'a>(metadata: &'a [u8], index: u8) -> UpdateStart<'a> {
    UpdateStart {
        ttl: 5,
        base: 1,
        id: 7,
        index,
        metadata,
    }
}

fn starts(metadata: &[u8], index: u8) -> [u8; 7] {
    nodes().map(|look| letter(start_step(&look, asked(metadata, index))))
}

#[test]
fn each_phase_has_its_number(rt: HostRuntime) {
    assert_eq!(rt;
        nodes().map(|look| phase_of(&look).number()),
        [0, 1, 2, 3, 4, 5, 6]
    );
}

#[test]
fn a_start_is_judged_by_phase_and_fields(rt: HostRuntime) {
    assert_eq!(rt; starts(&meta_octets(&NEW), 0), *b"TRH00T0");
    let newer = meta_octets(&Meta { version: 6, ..NEW });
    assert_eq!(rt; starts(&newer, 0), *b"TT222T2");
    let equal = meta_octets(&Meta { version: 4, ..NEW });
    assert_eq!(rt; starts(&equal, 0), *b"5522252");
    let larger = meta_octets(&Meta { size: 4097, ..NEW });
    assert_eq!(rt; starts(&larger, 0), *b"5522252");
    assert_eq!(rt; starts(&newer, 1), *b"4422242");
    assert_eq!(rt; starts(&[], 0), *b"5522252");
}

#[test]
fn cancel_and_apply_are_judged_by_phase(rt: HostRuntime) {
    assert_eq!(rt; nodes().map(|look| letter(cancel_step(&look))), *b"0LLLLL2");
    assert_eq!(rt; nodes().map(|look| letter(apply_step(&look))), *b"2222A20");
}
