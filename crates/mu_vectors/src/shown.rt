//! The lines that show the messages of the vectors.
use crate::{Vector, blob, distribution, update};
use mu_access::{read, show};
use mu_outside::BytesSink;
use std::alloc::{AllocError, Global};

// Whether the shown line of the message that the octets are is the vector's.
fn is_shown(alloc: Global, vector: &Vector) -> Result<bool, AllocError> {
    let mut sink = BytesSink::new(alloc, 1000, &[])?;
    let Ok(message) = read(vector.octets) else {
        return Ok(false);
    };
    let shown = show(&message, &mut sink).is_ok();
    Ok(shown && sink.bytes() == vector.shown)
}

#[test]
fn vectors_are_shown(rt: HostRuntime) -> Result<(), AllocError> {
    for table in [blob::VECTORS, update::VECTORS, distribution::VECTORS] {
        for vector in table {
            assert!(rt; is_shown(rt.alloc(), vector)?, "at {:?}", vector.octets);
        }
    }
    Ok(())
}
