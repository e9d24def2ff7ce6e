// The kinds of addresses.
ghost use Rattle.std.specs.Prelude.{◌≡◌};
ghost use Rattle.mu_model_wire.specs.Packet.{is_unicast, is_group};

/// Whether an address is a unicast address (Mesh Protocol, Addresses).
pub fn is_unicast(address: u16) -> bool
    ensures { result ≡ is_unicast address }
{
    address >= 0x0001 && address <= 0x7FFF
}

/// Whether an address is a group address (Mesh Protocol, Addresses).
pub fn is_group(address: u16) -> bool
    ensures { result ≡ is_group address }
{
    address >= 0xC000
}
