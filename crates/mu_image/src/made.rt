ghost use Rattle.std.specs.Prelude.{◌≡◌, IfOk};
ghost use Rattle.mu_model_image.specs.Made.{made_octet, made_image};

use std::alloc::{AllocError, Global};

/// Octet `i` of a seed: `(seed + 7 * i + i / 256) mod 256` over whole numbers.
pub fn made_byte(seed: u64, i: u64) -> u8
    ensures { result ≡ made_octet seed i }
{
    ((seed % 256 + 7 * (i % 256) + i / 256 % 256) % 256) as u8
}

/// The image of `size` octets of a seed.
pub fn make_image(alloc: Global, seed: u16, size: u32) -> Result<Vec<u8>, AllocError>
    ensures { IfOk result (λ image. image.items ≡ made_image seed size) }
{
    let mut image = Vec::with_capacity(alloc, size as usize)?;
    for i in 0..size {
        image.push(made_byte(seed as u64, i as u64))?;
    }
    Ok(image)
}
