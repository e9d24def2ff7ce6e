ghost use Rattle.std.specs.Prelude.{◌≡◌, ◌≤◌, ◌+◌, ◌++◌, length};
ghost use Rattle.byteorder.specs.Endian.{little_bytes};
ghost use Rattle.mu_model_wire.specs.Limits.{most_octets};
ghost use Rattle.arrayvec.specs.ArrayVec.{array_vec_len};

use crate::packet::Payload;

/// Appends a number of one octet. There is room.
pub fn put_u8(out: &mut Payload, value: u8)
    requires { array_vec_len out.old + 1 ≤ most_octets }
    ensures items { out.new.items ≡ out.old.items ++ little_bytes 1 value }
    ensures len { array_vec_len out.new ≡ array_vec_len out.old + 1 }
{
    out.push(value);
}

/// Appends a number of two octets, the lowest first. There is room.
pub fn put_u16(out: &mut Payload, value: u16)
    requires { array_vec_len out.old + 2 ≤ most_octets }
    ensures items { out.new.items ≡ out.old.items ++ little_bytes 2 value }
    ensures len { array_vec_len out.new ≡ array_vec_len out.old + 2 }
{
    put_octets(out, &value.to_le_bytes());
}

/// Appends a number of four octets, the lowest first. There is room.
pub fn put_u32(out: &mut Payload, value: u32)
    requires { array_vec_len out.old + 4 ≤ most_octets }
    ensures items { out.new.items ≡ out.old.items ++ little_bytes 4 value }
    ensures len { array_vec_len out.new ≡ array_vec_len out.old + 4 }
{
    put_octets(out, &value.to_le_bytes());
}

/// Appends a number of eight octets, the lowest first. There is room.
pub fn put_u64(out: &mut Payload, value: u64)
    requires { array_vec_len out.old + 8 ≤ most_octets }
    ensures items { out.new.items ≡ out.old.items ++ little_bytes 8 value }
    ensures len { array_vec_len out.new ≡ array_vec_len out.old + 8 }
{
    put_octets(out, &value.to_le_bytes());
}

/// Appends octets. There is room.
pub fn put_octets(out: &mut Payload, octets: &[u8])
    requires { array_vec_len out.old + length octets.now ≤ most_octets }
    ensures items { out.new.items ≡ out.old.items ++ octets.now }
    ensures len { array_vec_len out.new ≡ array_vec_len out.old + length octets.now }
{
    if out.try_extend_from_slice(octets).is_err() {
        prove!(false);
    }
}

/// Appends the five lowest octets of a number, the lowest first. There is room.
pub fn put_u40(out: &mut Payload, value: u64)
    requires { array_vec_len out.old + 5 ≤ most_octets }
    ensures items { out.new.items ≡ out.old.items ++ little_bytes 5 value }
    ensures len { array_vec_len out.new ≡ array_vec_len out.old + 5 }
{
    put_octets(out, &value.to_le_bytes()[..5]);
}
