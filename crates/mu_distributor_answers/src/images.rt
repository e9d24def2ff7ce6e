// The images that stand after a deletion.
ghost use Rattle.std.specs.Prelude.{◌≡◌, ◌<◌, ◌++◌, ◌∷◌, [], true, false, List, length, take};
ghost use Rattle.arrayvec.specs.ArrayVec.{array_vec_len};
ghost use Rattle.mu_model_distributor.specs.DistState.{StoredImage};
ghost use Rattle.mu_distributor_answers.specs.Images.{AreImages, without_id};

use arrayvec::ArrayVec;
use mu_distributor_rows::has_id;
use mu_image::Meta;

// A bank and its metadata go behind those that are kept, unless the image goes.
fn keep_unless(gone: bool, kept: &mut ArrayVec<u8, 4>, metas: &mut [Meta; 4], bank: u8, meta: Meta)
    requires { array_vec_len kept.old < 4 }
    ensures gone { gone ≡ true → (kept.new.items ≡ kept.old.items) × (metas.new ≡ metas.old) }
    ensures kept { gone ≡ false → (kept.new.items ≡ kept.old.items ++ bank ∷ []) × (take (length kept.new.items) metas.new ≡ take (length kept.old.items) metas.old ++ meta ∷ []) }
{
    if !gone {
        metas[kept.len()] = meta;
        kept.push(bank);
    }
}

/// Deletes each image with a Firmware ID, and the others close up in their order. As many of the metadata as there are banks are the
/// images'; those past them say nothing.
pub fn delete_images(banks: &mut ArrayVec<u8, 4>, metas: &mut [Meta; 4], fwid: &[u8])
    ensures { (images : List StoredImage) → AreImages banks.old.items metas.old images → AreImages banks.new.items metas.new (without_id fwid.now images) }
{
    let stored = *metas;
    let mut kept = ArrayVec::new();
    for i in 0..banks.len() {
        let gone = has_id(&stored[i], fwid);
        keep_unless(gone, &mut kept, metas, banks.as_slice()[i], stored[i]);
    }
    *banks = kept;
}
