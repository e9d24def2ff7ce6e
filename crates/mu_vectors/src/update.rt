//! The messages of the Firmware Update model, worked out from its rows and not by the program.
use crate::{Longest, Refused, Vector};
use mu_codec::Why;

/// Payloads that are messages.
pub const VECTORS: &[Vector] = &[
    // Firmware Update Information Get.
    Vector {
        octets: b"\x83\x08\x01\xFF",
        canonical: b"\x83\x08\x01\xFF",
        shown: b"information-get first=1 limit=255\n",
    },
    // Firmware Update Information Status.
    Vector {
        octets: b"\x83\x09\x00\x00",
        canonical: b"\x83\x09\x00\x00",
        shown: b"information-status count=0 first=0 entries=\n",
    },
    Vector {
        octets: b"\x83\x09\x01\x00\x26\xFF\xFF\x01\x00\x00\x00\xCA\x97\x81\x12\xCA\x1B\xBD\xCA\xFA\xC2\
            \x31\xB3\x9A\x23\xDC\x4D\xA7\x86\xEF\xF8\x14\x7C\x4E\x72\xB9\x80\x77\x85\xAF\xEE\x48\
            \xBB\x00",
        canonical: b"\x83\x09\x01\x00\x26\xFF\xFF\x01\x00\x00\x00\xCA\x97\x81\x12\xCA\x1B\xBD\xCA\xFA\xC2\
            \x31\xB3\x9A\x23\xDC\x4D\xA7\x86\xEF\xF8\x14\x7C\x4E\x72\xB9\x80\x77\x85\xAF\xEE\x48\
            \xBB\x00",
        shown: b"information-status count=1 first=0 \
            entries=ffff01000000ca978112ca1bbdcafac231b39a23dc4da786eff8147c4e72b9807785afee48bb\
            :\n",
    },
    Vector {
        octets: b"\x83\x09\xFF\xFE\x02\x01\x02\x03\x75\x72\x69\x03\x0A\x0B\x0C\x00",
        canonical: b"\x83\x09\xFF\xFE\x02\x01\x02\x03\x75\x72\x69\x03\x0A\x0B\x0C\x00",
        shown: b"information-status count=255 first=254 entries=0102:757269,0a0b0c:\n",
    },
    // Firmware Update Firmware Metadata Check.
    Vector {
        octets: b"\x83\x0A\x00\x03\x00\x00\x00\x02\x00\x00\x00\xBA\x78\x16\xBF\x8F\x01\xCF\xEA\x41\x41\
            \x40\xDE\x5D\xAE\x22\x23\xB0\x03\x61\xA3\x96\x17\x7A\x9C\xB4\x10\xFF\x61\xF2\x00\x15\
            \xAD",
        canonical: b"\x83\x0A\x00\x03\x00\x00\x00\x02\x00\x00\x00\xBA\x78\x16\xBF\x8F\x01\xCF\xEA\x41\x41\
            \x40\xDE\x5D\xAE\x22\x23\xB0\x03\x61\xA3\x96\x17\x7A\x9C\xB4\x10\xFF\x61\xF2\x00\x15\
            \xAD",
        shown: b"metadata-check index=0 \
            metadata=0300000002000000ba7816bf8f01cfea414140de5dae2223b00361a396177a9cb410ff61f20\
            015ad\n",
    },
    Vector {
        octets: b"\x83\x0A\xFF",
        canonical: b"\x83\x0A\xFF",
        shown: b"metadata-check index=255 metadata=\n",
    },
    // Firmware Update Firmware Metadata Status.
    Vector {
        octets: b"\x83\x0B\x00\x00",
        canonical: b"\x83\x0B\x00\x00",
        shown: b"metadata-status status=0 additional=0 index=0\n",
    },
    Vector {
        octets: b"\x83\x0B\xFF\xFF",
        canonical: b"\x83\x0B\xFF\xFF",
        shown: b"metadata-status status=7 additional=31 index=255\n",
    },
    Vector {
        octets: b"\x83\x0B\x0D\x02",
        canonical: b"\x83\x0B\x0D\x02",
        shown: b"metadata-status status=5 additional=1 index=2\n",
    },
    // Firmware Update Get.
    Vector {
        octets: b"\x83\x0C",
        canonical: b"\x83\x0C",
        shown: b"update-get\n",
    },
    // Firmware Update Start.
    Vector {
        octets: b"\x83\x0D\x05\x00\x00\x07\x00\x00\x00\x00\x00\x01\x00\x00\x03\x00\x00\x00\x02\x00\x00\
            \x00\xBA\x78\x16\xBF\x8F\x01\xCF\xEA\x41\x41\x40\xDE\x5D\xAE\x22\x23\xB0\x03\x61\xA3\
            \x96\x17\x7A\x9C\xB4\x10\xFF\x61\xF2\x00\x15\xAD",
        canonical: b"\x83\x0D\x05\x00\x00\x07\x00\x00\x00\x00\x00\x01\x00\x00\x03\x00\x00\x00\x02\x00\x00\
            \x00\xBA\x78\x16\xBF\x8F\x01\xCF\xEA\x41\x41\x40\xDE\x5D\xAE\x22\x23\xB0\x03\x61\xA3\
            \x96\x17\x7A\x9C\xB4\x10\xFF\x61\xF2\x00\x15\xAD",
        shown: b"update-start ttl=5 base=0 id=281474976710663 index=0 \
            metadata=0300000002000000ba7816bf8f01cfea414140de5dae2223b00361a396177a9cb410ff61f20\
            015ad\n",
    },
    Vector {
        octets: b"\x83\x0D\xFF\xFF\xFF\xFF\xFF\xFF\xFF\xFF\xFF\xFF\xFF\xFF",
        canonical: b"\x83\x0D\xFF\xFF\xFF\xFF\xFF\xFF\xFF\xFF\xFF\xFF\xFF\xFF",
        shown: b"update-start ttl=255 base=65535 id=18446744073709551615 index=255 metadata=\n",
    },
    // Firmware Update Cancel.
    Vector {
        octets: b"\x83\x0E",
        canonical: b"\x83\x0E",
        shown: b"update-cancel\n",
    },
    // Firmware Update Apply.
    Vector {
        octets: b"\x83\x0F",
        canonical: b"\x83\x0F",
        shown: b"update-apply\n",
    },
    // Firmware Update Status.
    Vector {
        octets: b"\x83\x10\x00",
        canonical: b"\x83\x10\x00",
        shown: b"update-status status=0 phase=0\n",
    },
    Vector {
        octets: b"\x83\x10\x1F",
        canonical: b"\x83\x10\x07",
        shown: b"update-status status=7 phase=0\n",
    },
    Vector {
        octets: b"\x83\x10\x80\x05\x00\x00\x00\x07\x00\x00\x00\x00\x00\x01\x00\x00",
        canonical: b"\x83\x10\x80\x05\x00\x00\x00\x07\x00\x00\x00\x00\x00\x01\x00\x00",
        shown: b"update-status status=0 phase=4 ttl=5 additional=0 base=0 id=281474976710663 \
            index=0\n",
    },
    Vector {
        octets: b"\x83\x10\x20\xFF\x1F\xFF\xFF\xFF\xFF\xFF\xFF\xFF\xFF\xFF\xFF\xFF",
        canonical: b"\x83\x10\x20\xFF\x1F\xFF\xFF\xFF\xFF\xFF\xFF\xFF\xFF\xFF\xFF\xFF",
        shown: b"update-status status=0 phase=1 ttl=255 additional=31 base=65535 \
            id=18446744073709551615 index=255\n",
    },
    Vector {
        octets: b"\x83\x10\xDA\x05\xE9\x01\x02\x01\x02\x03\x04\x05\x06\x07\x08\x03",
        canonical: b"\x83\x10\xC2\x05\x09\x01\x02\x01\x02\x03\x04\x05\x06\x07\x08\x03",
        shown: b"update-status status=2 phase=6 ttl=5 additional=9 base=513 id=578437695752307201 \
            index=3\n",
    },
];

/// Payloads that are refused.
pub const REFUSED: &[Refused] = &[
    // Firmware Update Information Get.
    (b"\x83\x08", 2, Why::Short),
    (b"\x83\x08\x01", 3, Why::Short),
    (b"\x83\x08\x01\xFF\x00", 4, Why::Long),
    // Firmware Update Information Status.
    (b"\x83\x09", 2, Why::Short),
    (b"\x83\x09\x01", 3, Why::Short),
    (b"\x83\x09\x01\x00\x00", 4, Why::Value),
    (b"\x83\x09\x01\x00\x01\xAA\x00", 4, Why::Value),
    (
        b"\x83\x09\x01\x00\x6D\xAA\xAA\xAA\xAA\xAA\xAA\xAA\xAA\xAA\xAA\xAA\xAA\xAA\xAA\xAA\xAA\
            \xAA\xAA\xAA\xAA\xAA\xAA\xAA\xAA\xAA\xAA\xAA\xAA\xAA\xAA\xAA\xAA\xAA\xAA\xAA\xAA\xAA\
            \xAA\xAA\xAA\xAA\xAA\xAA\xAA\xAA\xAA\xAA\xAA\xAA\xAA\xAA\xAA\xAA\xAA\xAA\xAA\xAA\xAA\
            \xAA\xAA\xAA\xAA\xAA\xAA\xAA\xAA\xAA\xAA\xAA\xAA\xAA\xAA\xAA\xAA\xAA\xAA\xAA\xAA\xAA\
            \xAA\xAA\xAA\xAA\xAA\xAA\xAA\xAA\xAA\xAA\xAA\xAA\xAA\xAA\xAA\xAA\xAA\xAA\xAA\xAA\xAA\
            \xAA\xAA\xAA\xAA\xAA\xAA\xAA\xAA\xAA\x00",
        4,
        Why::Value,
    ),
    (b"\x83\x09\x01\x00\x02", 5, Why::Short),
    (b"\x83\x09\x01\x00\x02\xAA", 5, Why::Short),
    (b"\x83\x09\x01\x00\x02\xAA\xBB", 7, Why::Short),
    (b"\x83\x09\x01\x00\x02\xAA\xBB\x01", 8, Why::Short),
    (b"\x83\x09\x01\x00\x02\xAA\xBB\x02\xCC", 8, Why::Short),
    (b"\x83\x09\x01\x00\x02\xAA\xBB\x01\xCC\x01", 9, Why::Value),
    (b"\x83\x09\x01\x00\x02\xAA\xBB\x01\xCC\x6D", 9, Why::Value),
    (
        b"\x83\x09\x01\x00\x02\xAA\xBB\x01\xCC\x02\xAA",
        10,
        Why::Short,
    ),
    (
        b"\x83\x09\x01\x00\x02\xAA\xBB\x01\xCC\x02\xAA\xBB",
        12,
        Why::Short,
    ),
    (
        b"\x83\x09\x01\x00\x02\xAA\xBB\x01\xCC\x02\xAA\xBB\x02\xCC",
        13,
        Why::Short,
    ),
    // Firmware Update Firmware Metadata Check.
    (b"\x83\x0A", 2, Why::Short),
    // Firmware Update Firmware Metadata Status.
    (b"\x83\x0B", 2, Why::Short),
    (b"\x83\x0B\x0D", 3, Why::Short),
    (b"\x83\x0B\x0D\x02\x00", 4, Why::Long),
    // Firmware Update Get.
    (b"\x83\x0C\x00", 2, Why::Long),
    // Firmware Update Start.
    (b"\x83\x0D", 2, Why::Short),
    (b"\x83\x0D\x05", 3, Why::Short),
    (b"\x83\x0D\x05\x01", 3, Why::Short),
    (b"\x83\x0D\x05\x01\x02", 5, Why::Short),
    (
        b"\x83\x0D\x05\x01\x02\x01\x02\x03\x04\x05\x06\x07",
        5,
        Why::Short,
    ),
    (
        b"\x83\x0D\x05\x01\x02\x01\x02\x03\x04\x05\x06\x07\x08",
        13,
        Why::Short,
    ),
    // Firmware Update Cancel.
    (b"\x83\x0E\x00", 2, Why::Long),
    // Firmware Update Apply.
    (b"\x83\x0F\x00", 2, Why::Long),
    // Firmware Update Status.
    (b"\x83\x10", 2, Why::Short),
    (b"\x83\x10\xE1", 2, Why::Value),
    (b"\x83\x10\x01\x00", 3, Why::Long),
    (b"\x83\x10\x41", 3, Why::Short),
    (b"\x83\x10\x41\x05", 4, Why::Short),
    (b"\x83\x10\x41\x05\x09", 5, Why::Short),
    (b"\x83\x10\x41\x05\x09\x01", 5, Why::Short),
    (b"\x83\x10\x41\x05\x09\x01\x02", 7, Why::Short),
    (
        b"\x83\x10\x41\x05\x09\x01\x02\x01\x02\x03\x04\x05\x06\x07",
        7,
        Why::Short,
    ),
    (
        b"\x83\x10\x41\x05\x09\x01\x02\x01\x02\x03\x04\x05\x06\x07\x08",
        15,
        Why::Short,
    ),
    (
        b"\x83\x10\x41\x05\x09\x01\x02\x01\x02\x03\x04\x05\x06\x07\x08\x03\x00",
        16,
        Why::Long,
    ),
];

/// Payloads of the greatest length.
pub const LONGEST: &[Longest] = &[
    Longest {
        head: b"\x83\x09\x00\x00",
        repeated: b"\x02\xAA\xBB\x00",
        length: 380,
        past: Why::Long,
    },
    Longest {
        head: b"\x83\x09\x00\x00\x6C",
        repeated: b"\xAA",
        length: 284,
        past: Why::Value,
    },
    Longest {
        head: b"\x83\x09\x00\x00\x02\xAA\xBB\xFF",
        repeated: b"\xBB",
        length: 263,
        past: Why::Value,
    },
    Longest {
        head: b"\x83\x0A\x00",
        repeated: b"\xA5",
        length: 258,
        past: Why::Long,
    },
    Longest {
        head: b"\x83\x0D\x05\x00\x00\x01\x02\x03\x04\x05\x06\x07\x08\x00",
        repeated: b"\xA5",
        length: 269,
        past: Why::Long,
    },
];
