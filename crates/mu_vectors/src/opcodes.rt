//! Payloads that are too long for any message, or whose opcode lacks an octet or is in no row.
use crate::Refused;
use mu_codec::Why;

/// Payloads that are refused whatever follows their opcode.
pub const REFUSED: &[Refused] = &[
    (&[0xFF; 381], 380, Why::Long),
    (&[0xFF; 380], 0, Why::Opcode),
    (&[0x66; 381], 380, Why::Long),
    (b"", 0, Why::Short),
    (b"\x80", 0, Why::Short),
    (b"\x83", 0, Why::Short),
    (b"\xBF", 0, Why::Short),
    (b"\x00", 0, Why::Opcode),
    (b"\x65\x00\x00\x00", 0, Why::Opcode),
    (b"\x69", 0, Why::Opcode),
    (b"\x7F", 0, Why::Opcode),
    (b"\xC0", 0, Why::Opcode),
    (b"\xFF\x83\x00", 0, Why::Opcode),
    (b"\x80\x00", 0, Why::Opcode),
    (b"\x82\xFF", 0, Why::Opcode),
    (b"\x83\x28", 0, Why::Opcode),
    (b"\x83\xFF", 0, Why::Opcode),
    (b"\x84\x00", 0, Why::Opcode),
    (b"\x00\x83", 0, Why::Opcode),
    (b"\xBF\xFF", 0, Why::Opcode),
];
