// Where a client reads the image that it sends.
ghost use Rattle.std.specs.Prelude.{◌≡◌, ℕ, ◌+◌, ◌≤◌, ◌<◌, ◌^◌, ◌↔◌, List, IsTrue, IsErr, Some, true, false, Contains, length, slice_range, OnOk, OnErr};
ghost use Rattle.mu_model_flash.specs.Cause.{HasCause};
ghost use Rattle.mu_receivers.specs.Image.{Image, Gives, IsSame};

use mu_model_flash::Failed;

/// The octets of an image.
pub trait ImageBytes {
    /// All that it means at a moment.
    ghost image: { Self → Image };

    /// How it stands after a call to how it stood before: what else stays.
    ghost stays: { Self → Self → Type 0 };

    fn len(&self) -> u32
        ensures { result ≡ (image self.now).size };

    /// Reads the octets from `at` on, which lie in the image.
    fn read(&mut self, at: u32, out: &mut [u8]) -> Result<(), Failed>
        requires { at + length out.old ≤ (image self.old).size }
        ensures gives { OnOk result (Gives (image self.old) at out.new) }
        ensures long { length out.new ≡ length out.old }
        ensures same { IsSame (image self.old) (image self.new) }
        ensures fails { OnErr result (IsTrue (image self.old).can_fail) }
        ensures cause { HasCause (image self.old).faults (image self.new).faults result }
        ensures stays { stays self.old self.new };

    ghost stays_so: { (image : Self) → stays image image };

    ghost stays_on: { (a b c : Self) → stays a b → stays b c → stays a c };
}

/// An image in memory, which never fails.
#[derive(Drop)]
pub struct SliceImage<'a> {
    bytes: &'a [u8],
    ghost few: { length bytes.now ≤ 2 ^ 20 },
}

impl<'a> SliceImage<'a> {
    pub fn new(bytes: &'a [u8]) -> SliceImage<'a>
        requires { length bytes.now ≤ 2 ^ 20 }
        ensures { result.bytes.now ≡ bytes.now }
    {
        SliceImage { bytes }
    }
}

impl<'a> ImageBytes for SliceImage<'a> {
    ghost image = { λ x. record { size = length x.bytes.now; octets = Some x.bytes.now; can_fail = false; faults = 0 } };

    ghost stays = { λ a b. b ≡ a };

    fn len(&self) -> u32 {
        let bytes = self.bytes;
        bytes.len() as u32
    }

    fn read(&mut self, at: u32, out: &mut [u8]) -> Result<(), Failed> {
        let bytes = self.bytes;
        out.copy_from_slice(&bytes[at as usize..at as usize + out.len()]);
        Ok(())
    }

    ghost use Rattle.std.proofs.Common.{refl, ◌∙◌};

    ghost stays_so = { λ x. refl };

    ghost stays_on = { λ a b c p q. q ∙ p };
}

/// An image in memory, of which the reads with these numbers fail. Reads are numbered from 1.
#[derive(Drop)]
pub struct FaultyImage<'a> {
    bytes: &'a [u8],
    fails: &'a [u32],
    made: u64,
    faults: u64,
    ghost few: { length bytes.now ≤ 2 ^ 20 },
}

impl<'a> FaultyImage<'a> {
    pub fn new(bytes: &'a [u8], fails: &'a [u32]) -> FaultyImage<'a>
        requires { length bytes.now ≤ 2 ^ 20 }
        ensures octets { result.bytes.now ≡ bytes.now }
        ensures fails { result.fails.now ≡ fails.now }
    {
        FaultyImage {
            bytes,
            fails,
            made: 0,
            faults: 0,
        }
    }
}

impl<'a> ImageBytes for FaultyImage<'a> {
    ghost image = { λ x. record { size = length x.bytes.now; octets = Some x.bytes.now; can_fail = true; faults = x.faults } };

    ghost stays = { λ a b. b.fails ≡ a.fails };

    fn len(&self) -> u32 {
        let bytes = self.bytes;
        bytes.len() as u32
    }

    fn read(&mut self, at: u32, out: &mut [u8]) -> Result<(), Failed> {
        self.made = self.made.saturating_add(1);
        let number = self.made;
        if self.fails.iter().any(|named| u64::from(*named) == number) {
            self.faults = self.faults.saturating_add(1);
            return Err(Failed);
        }
        let bytes = self.bytes;
        out.copy_from_slice(&bytes[at as usize..at as usize + out.len()]);
        Ok(())
    }

    ghost use Rattle.std.proofs.Common.{refl, ◌∙◌};

    ghost stays_so = { λ x. refl };

    ghost stays_on = { λ a b c p q. q ∙ p };
}
