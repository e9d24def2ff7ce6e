// An image of three blocks, of which the last is short, and a client that sends it.
use mu_blobmsg::{BlobMsg, in_range, read};
use mu_blobsrv::{BlobServer, Booted, Expect, Note, StoreFault};
use mu_codec::Outbox;
use mu_image::Meta;
use mu_outside::{CutFlash, Flash};
use mu_store::{boot, format};
use std::alloc::Global;
use std::process::Abort;
use std::test::Fail;

pub const ME: u16 = 1;

pub const CLIENT: u16 = 2;

pub const ID: u64 = 7;

pub const SIZE: u32 = 8292;

// How a transfer is sent: its mode, and the octets of a chunk.
#[derive(Clone, Copy, Debug, PartialEq, Eq)]
pub struct Sent {
    pub mode: u8,
    pub chunk_size: u16,
}

pub const PUSH: Sent = Sent {
    mode: 1,
    chunk_size: 376,
};

pub const PULL: Sent = Sent {
    mode: 2,
    chunk_size: 200,
};

pub const NOTE: Note = [0; 1728];

pub const WHAT: Expect = Expect {
    id: ID,
    size: SIZE,
    base: 0,
    bank: 1,
};

// SHA-256 of the octets 0 to 250, over and over, 8,292 of them.
pub const META: Meta = Meta {
    size: SIZE,
    version: 2,
    digest: [
        0x7B, 0x80, 0x66, 0xD3, 0x54, 0xF2, 0x47, 0x7A, 0x44, 0x89, 0xB7, 0x1E, 0xC3, 0x99, 0x5F,
        0x98, 0xA9, 0xDE, 0xA5, 0x0F, 0xF9, 0x3E, 0xC5, 0x31, 0x84, 0x05, 0xEE, 0x83, 0xA3, 0xCE,
        0xC5, 0x71,
    ],
};

// The octets of the image.
pub fn image(alloc: Global) -> Result<Vec<u8>, Fail> {
    let mut octets = Vec::new(alloc);
    for i in 0..SIZE {
        octets.push((i % 251) as u8)?;
    }
    Ok(octets)
}

// A server without a job, over two banks of three pages.
pub fn server(alloc: Global) -> Result<Option<BlobServer<CutFlash>>, Fail> {
    match format(CutFlash::new(alloc, 10)?, 2, 3, &[0; 1792]) {
        Ok(store) => match BlobServer::from_boot(Booted::Rest(store)) {
            Ok(server) => Ok(Some(server)),
            Err(_) => Ok(None),
        },
        Err(_) => Ok(None),
    }
}

// The power returns, and the server is booted.
pub fn again(server: BlobServer<CutFlash>) -> Option<BlobServer<CutFlash>> {
    let mut flash = server.into_flash();
    flash.power_on();
    match boot(flash) {
        Ok(booted) => match BlobServer::from_boot(booted) {
            Ok(server) => Some(server),
            Err(_) => None,
        },
        Err(_) => None,
    }
}

// What a message is answered with. Nothing is sent with a fault.
pub fn told<F: Flash>(
    rt: &impl Abort,
    server: &mut BlobServer<F>,
    msg: &BlobMsg,
    now: u64,
) -> Result<Outbox, StoreFault> {
    assert!(rt; in_range(msg));
    let mut out = Outbox::new();
    match server.on_blob(ME, CLIENT, msg, now, &mut out) {
        Ok(()) => Ok(out),
        Err(why) => {
            assert!(rt; out.is_empty());
            assert_eq!(rt; server.fault(), Some(why));
            Err(why)
        }
    }
}

// Whether the one packet that was sent goes to the client and says this.
pub fn says(out: &Outbox, msg: &BlobMsg) -> bool {
    match out.as_slice() {
        [packet] => {
            packet.from == ME
                && packet.to == CLIENT
                && matches!(read(packet.payload.as_slice()), Ok(said) if said == *msg)
        }
        _ => false,
    }
}

pub fn start(mode: u8, size: u32, log: u8, mtu: u16) -> BlobMsg<'static> {
    BlobMsg::TransferStart {
        mode,
        id: ID,
        size,
        log,
        mtu,
    }
}

// The job is there, and a Cut link is Ready.
pub fn expect<F: Flash>(
    rt: &impl Abort,
    server: &mut BlobServer<F>,
    now: u64,
) -> Result<(), StoreFault> {
    if let Some(why) = server.fault() {
        return Err(why);
    }
    if server.job().is_some() {
        server.resume(now);
        return Ok(());
    }
    assert!(rt; server.capacity() >= SIZE);
    assert!(rt; server.banks() > 1);
    server.expect(WHAT, &NOTE, now)
}

// A chunk of a block.
pub fn chunk<F: Flash>(
    rt: &impl Abort,
    server: &mut BlobServer<F>,
    image: &[u8],
    sent: Sent,
    block: u16,
    chunk: u16,
    now: u64,
) -> Result<Outbox, StoreFault> {
    let begin = block as usize * 4096;
    let at = begin + chunk as usize * sent.chunk_size as usize;
    let end = image
        .len()
        .min(begin + 4096)
        .min(at + sent.chunk_size as usize);
    match image.get(at..end) {
        Some(octets) if !octets.is_empty() => told(
            rt,
            server,
            &BlobMsg::ChunkTransfer { chunk, octets },
            now,
        ),
        _ => Ok(Outbox::new()),
    }
}

// The chunks that the server asks for as time passes are sent.
fn pulled<F: Flash>(
    rt: &impl Abort,
    server: &mut BlobServer<F>,
    image: &[u8],
    sent: Sent,
    block: u16,
    now: u64,
) -> Result<(), StoreFault> {
    if let Some(why) = server.fault() {
        return Err(why);
    }
    let mut out = Outbox::new();
    server.on_time(ME, now, &mut out);
    for packet in &out {
        if let Ok(BlobMsg::PartialBlockReport { missing }) = read(packet.payload.as_slice()) {
            for number in &missing {
                chunk(rt, server, image, sent, block, *number, now)?;
            }
        }
    }
    Ok(())
}

// One of the blocks is sent: all its chunks, or in pull mode those that the server asks for within three seconds.
pub fn block<F: Flash>(
    rt: &impl Abort,
    server: &mut BlobServer<F>,
    image: &[u8],
    sent: Sent,
    block: u16,
    now: u64,
) -> Result<(), StoreFault> {
    let begin = BlobMsg::BlockStart {
        block,
        chunk_size: sent.chunk_size,
    };
    told(rt, server, &begin, now)?;
    if sent == PULL {
        for second in 1..3 {
            pulled(
                rt,
                server,
                image,
                sent,
                block,
                now.saturating_add(second * 1000),
            )?;
        }
    } else {
        for number in 0..11 {
            chunk(rt, server, image, sent, block, number, now)?;
        }
    }
    Ok(())
}

// The image is verified, where it isn't yet.
fn verify<F: Flash>(rt: &impl Abort, server: &mut BlobServer<F>) -> Result<(), StoreFault> {
    if let Some(why) = server.fault() {
        return Err(why);
    }
    assert!(rt; server.is_whole());
    if server.fills() {
        assert_eq!(rt; server.verify(&META, true, &NOTE, &NOTE)?, true);
    }
    Ok(())
}

// The job is carried to its end, from wherever it stands.
pub fn carry<F: Flash>(
    rt: &impl Abort,
    server: &mut BlobServer<F>,
    image: &[u8],
    sent: Sent,
) -> Result<(), StoreFault> {
    expect(rt, server, 0)?;
    told(rt, server, &start(sent.mode, SIZE, 12, 380), 0)?;
    for number in 0..3 {
        if let Some(why) = server.fault() {
            return Err(why);
        }
        if server.blocks_missing().contains(number) {
            block(rt, server, image, sent, number, 0)?;
        }
    }
    verify(rt, server)
}

// Each call that can answer a fault answers this one.
pub fn keeps<F: Flash>(rt: &impl Abort, server: &mut BlobServer<F>, why: StoreFault) {
    assert_eq!(rt; server.fault(), Some(why));
    assert_eq!(rt; server.verify(&META, true, &NOTE, &NOTE), Err(why));
    assert_eq!(rt; server.commit(&NOTE), Err(why));
    assert_eq!(rt; server.drop_job(&NOTE), Err(why));
    assert_eq!(rt; expect(rt, server, 0), Err(why));
    for msg in &[
        BlobMsg::BlobInformationGet,
        BlobMsg::TransferGet,
        BlobMsg::BlockGet,
    ] {
        match told(rt, server, msg, 0) {
            Ok(_) => assert!(rt; false),
            Err(again) => assert_eq!(rt; again, why),
        }
    }
}
