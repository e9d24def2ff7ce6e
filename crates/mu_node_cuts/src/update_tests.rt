// Update messages, one after the other, and each operation of the record that takes an update torn.
ghost use Rattle.std.specs.Prelude.{◌≡◌, IfSome, None, false};
ghost use Rattle.mu_node.specs.Views.{fault_in, seen_of};

use mu_codec::Outbox;
use mu_image::{Meta, meta_octets};
use mu_node::{Node, NodeConfig, StoreFault, UpdateRequest, UpdateStart};
use mu_outside::{BytesSource, CutFlash, Flash, Pattern};
use mu_updsrv::make_node;
use std::alloc::Global;
use std::process::Abort;
use std::test::Fail;

const CONFIG: NodeConfig = NodeConfig {
    address: 5,
    group: 0,
};

// The flash of a node of one image of version 7, of two banks of a page.
fn made(alloc: Global) -> Result<Option<CutFlash>, Fail> {
    let mut source = BytesSource::new(alloc, b"abc", &[])?;
    match make_node(CutFlash::new(alloc, 6)?, 1, &mut source, 7) {
        Ok(flash) => Ok(Some(flash)),
        Err(_) => Ok(None),
    }
}

// The node of a flash whose power is turned on.
fn booted(mut flash: CutFlash) -> Option<Node<CutFlash>>
    ensures on { IfSome result (λ node. (seen_of ⟦<CutFlash as Flash>⟧.seen node).off ≡ false) }
    ensures fault { IfSome result (λ node. fault_in node ≡ None) }
{
    flash.power_on();
    match Node::boot(flash, CONFIG) {
        Ok(node) => Some(node),
        Err(_) => None,
    }
}

// The third octet of what is answered: status and phase.
fn asked(node: &mut Node<CutFlash>, request: UpdateRequest) -> Result<Option<u8>, StoreFault> {
    let mut out = Outbox::new();
    match node.on_update(1, request, 10, &mut out) {
        Ok(()) => match out.as_slice() {
            [packet] => Ok(packet.payload.as_slice().get(2).copied()),
            _ => Ok(None),
        },
        Err(why) => Err(why),
    }
}

fn offered(version: u32) -> [u8; 40] {
    meta_octets(&Meta {
        size: 3,
        version,
        digest: [9; 32],
    })
}

// An Update Start of a version.
fn start(node: &mut Node<CutFlash>, version: u32) -> Result<Option<u8>, StoreFault> {
    let metadata = offered(version);
    asked(
        node,
        UpdateRequest::StartUpdate(UpdateStart {
            ttl: 4,
            base: 1,
            id: 77,
            index: 0,
            metadata: &metadata,
        }),
    )
}

#[test]
fn an_update_is_taken_and_canceled(rt: HostRuntime) -> Result<(), Fail> {
    let Some(flash) = made(rt.alloc())? else {
        assert!(rt; false);
        return Ok(());
    };
    let Some(mut node) = booted(flash) else {
        assert!(rt; false);
        return Ok(());
    };
    assert!(rt; asked(&mut node, UpdateRequest::UpdateGet) == Ok(Some(0)));
    assert!(rt; start(&mut node, 7) == Ok(Some(5)));
    assert!(rt; start(&mut node, 8) == Ok(Some(0x40)));
    assert!(rt; start(&mut node, 8) == Ok(Some(0x40)));
    assert!(rt; start(&mut node, 9) == Ok(Some(0x42)));
    assert!(rt; asked(&mut node, UpdateRequest::UpdateApply) == Ok(Some(0x42)));
    assert!(rt; asked(&mut node, UpdateRequest::UpdateCancel) == Ok(Some(0)));
    assert!(rt; asked(&mut node, UpdateRequest::UpdateGet) == Ok(Some(0)));
    assert!(rt; node.fault().is_none());
    assert!(rt; node.count() == 4);
    Ok(())
}

// Tears an operation of the record that takes an update. The fault is answered again, and a boot finds this count and phase.
fn torn(
    rt: &impl Abort,
    alloc: Global,
    number: u32,
    pattern: Pattern,
) -> Result<Option<(u32, u8)>, Fail> {
    let Some(flash) = made(alloc)? else {
        return Ok(None);
    };
    let Some(mut node) = booted(flash) else {
        return Ok(None);
    };
    assert!(rt; number > 0);
    node.arm(number, pattern);
    assert!(rt; start(&mut node, 8) == Err(StoreFault::Flash));
    assert!(rt; asked(&mut node, UpdateRequest::UpdateGet) == Err(StoreFault::Flash));
    match booted(node.into_flash()) {
        Some(node) => Ok(Some((node.count(), node.phase()))),
        None => Ok(None),
    }
}

#[test]
fn a_torn_record_leaves_the_old_state_or_the_new_one(rt: HostRuntime) -> Result<(), Fail> {
    let alloc = rt.alloc();
    assert!(rt; torn(&rt, alloc, 1, Pattern::Old)? == Some((2, 0)));
    assert!(rt; torn(&rt, alloc, 1, Pattern::New)? == Some((2, 0)));
    assert!(rt; torn(&rt, alloc, 1, Pattern::Made(7))? == Some((2, 0)));
    assert!(rt; torn(&rt, alloc, 2, Pattern::Old)? == Some((2, 0)));
    assert!(rt; torn(&rt, alloc, 2, Pattern::Made(7))? == Some((2, 0)));
    assert!(rt; torn(&rt, alloc, 2, Pattern::New)? == Some((3, 1)));
    Ok(())
}
