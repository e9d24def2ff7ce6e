//! The messages of the BLOB Transfer model, worked out from its rows and not by the program.
use crate::{Longest, Refused, Vector};
use mu_codec::Why;

/// Payloads that are messages.
pub const VECTORS: &[Vector] = &[
    // BLOB Transfer Get.
    Vector {
        octets: b"\x83\x00",
        canonical: b"\x83\x00",
        shown: b"transfer-get\n",
    },
    // BLOB Transfer Start.
    Vector {
        octets: b"\x83\x01\x40\x00\x00\x00\x00\x00\x00\x00\x00\x01\x00\x00\x00\x06\x14\x00",
        canonical: b"\x83\x01\x40\x00\x00\x00\x00\x00\x00\x00\x00\x01\x00\x00\x00\x06\x14\x00",
        shown: b"transfer-start mode=1 id=0 size=1 log=6 mtu=20\n",
    },
    Vector {
        octets: b"\x83\x01\x80\xFF\xFF\xFF\xFF\xFF\xFF\xFF\xFF\xFF\xFF\xFF\xFF\x20\xFF\xFF",
        canonical: b"\x83\x01\x80\xFF\xFF\xFF\xFF\xFF\xFF\xFF\xFF\xFF\xFF\xFF\xFF\x20\xFF\xFF",
        shown: b"transfer-start mode=2 id=18446744073709551615 size=4294967295 log=32 mtu=65535\n",
    },
    Vector {
        octets: b"\x83\x01\x7F\x07\x00\x00\x00\x00\x00\x01\x00\x03\x00\x00\x00\x0C\x7C\x01",
        canonical: b"\x83\x01\x40\x07\x00\x00\x00\x00\x00\x01\x00\x03\x00\x00\x00\x0C\x7C\x01",
        shown: b"transfer-start mode=1 id=281474976710663 size=3 log=12 mtu=380\n",
    },
    // BLOB Transfer Cancel.
    Vector {
        octets: b"\x83\x02\x01\x02\x03\x04\x05\x06\x07\x08",
        canonical: b"\x83\x02\x01\x02\x03\x04\x05\x06\x07\x08",
        shown: b"transfer-cancel id=578437695752307201\n",
    },
    // BLOB Transfer Status.
    Vector {
        octets: b"\x83\x03\x00\x00",
        canonical: b"\x83\x03\x00\x00",
        shown: b"transfer-status status=0 mode=0 phase=0\n",
    },
    Vector {
        octets: b"\x83\x03\xBA\x00",
        canonical: b"\x83\x03\x8A\x00",
        shown: b"transfer-status status=10 mode=2 phase=0\n",
    },
    Vector {
        octets: b"\x83\x03\x46\x01\x01\x02\x03\x04\x05\x06\x07\x08",
        canonical: b"\x83\x03\x46\x01\x01\x02\x03\x04\x05\x06\x07\x08",
        shown: b"transfer-status status=6 mode=1 phase=1 id=578437695752307201\n",
    },
    Vector {
        octets: b"\x83\x03\x74\x01\x01\x02\x03\x04\x05\x06\x07\x08",
        canonical: b"\x83\x03\x44\x01\x01\x02\x03\x04\x05\x06\x07\x08",
        shown: b"transfer-status status=4 mode=1 phase=1 id=578437695752307201\n",
    },
    Vector {
        octets: b"\x83\x03\x40\x02\x00\x00\x00\x00\x00\x00\x00\x00\x01\x00\x00\x00\x06\x14\x00",
        canonical: b"\x83\x03\x40\x02\x00\x00\x00\x00\x00\x00\x00\x00\x01\x00\x00\x00\x06\x14\x00",
        shown: b"transfer-status status=0 mode=1 phase=2 id=0 size=1 log=6 mtu=20 blocks=\n",
    },
    Vector {
        octets: b"\x83\x03\x40\x03\x07\x00\x00\x00\x00\x00\x01\x00\x03\x00\x00\x00\x0C\x7C\x01\x01",
        canonical: b"\x83\x03\x40\x03\x07\x00\x00\x00\x00\x00\x01\x00\x03\x00\x00\x00\x0C\x7C\x01\x01",
        shown: b"transfer-status status=0 mode=1 phase=3 id=281474976710663 size=3 log=12 mtu=380 \
            blocks=01\n",
    },
    Vector {
        octets: b"\x83\x03\xB8\x04\x01\x02\x03\x04\x05\x06\x07\x08\x00\x00\x10\x00\x0E\x7C\x01\x00\xFF\
            \x7E",
        canonical: b"\x83\x03\x88\x04\x01\x02\x03\x04\x05\x06\x07\x08\x00\x00\x10\x00\x0E\x7C\x01\x00\xFF\
            \x7E",
        shown: b"transfer-status status=8 mode=2 phase=4 id=578437695752307201 size=1048576 log=14 \
            mtu=380 blocks=00ff7e\n",
    },
    Vector {
        octets: b"\x83\x03\x01\x05\xFF\xFF\xFF\xFF\xFF\xFF\xFF\xFF\xFF\xFF\xFF\xFF\x20\xFF\xFF\xA5\x01",
        canonical: b"\x83\x03\x01\x05\xFF\xFF\xFF\xFF\xFF\xFF\xFF\xFF\xFF\xFF\xFF\xFF\x20\xFF\xFF\xA5\x01",
        shown: b"transfer-status status=1 mode=0 phase=5 id=18446744073709551615 size=4294967295 \
            log=32 mtu=65535 blocks=a501\n",
    },
    // BLOB Block Start.
    Vector {
        octets: b"\x83\x04\x01\x02\x03\x04",
        canonical: b"\x83\x04\x01\x02\x03\x04",
        shown: b"block-start block=513 chunk-size=1027\n",
    },
    Vector {
        octets: b"\x83\x04\x00\x00\x08\x00",
        canonical: b"\x83\x04\x00\x00\x08\x00",
        shown: b"block-start block=0 chunk-size=8\n",
    },
    // BLOB Block Get.
    Vector {
        octets: b"\x83\x05",
        canonical: b"\x83\x05",
        shown: b"block-get\n",
    },
    // BLOB Information Get.
    Vector {
        octets: b"\x83\x06",
        canonical: b"\x83\x06",
        shown: b"blob-information-get\n",
    },
    // BLOB Information Status.
    Vector {
        octets: b"\x83\x07\x0C\x0E\x00\x08\x78\x01\x00\x00\x10\x00\x7C\x01\x03",
        canonical: b"\x83\x07\x0C\x0E\x00\x08\x78\x01\x00\x00\x10\x00\x7C\x01\x03",
        shown: b"blob-information-status min-log=12 max-log=14 max-chunks=2048 max-chunk-size=376 \
            max-size=1048576 mtu=380 push=1 pull=1\n",
    },
    Vector {
        octets: b"\x83\x07\x06\x20\x00\x00\x00\x00\x00\x00\x00\x00\x00\x00\x00",
        canonical: b"\x83\x07\x06\x20\x00\x00\x00\x00\x00\x00\x00\x00\x00\x00\x00",
        shown: b"blob-information-status min-log=6 max-log=32 max-chunks=0 max-chunk-size=0 \
            max-size=0 mtu=0 push=0 pull=0\n",
    },
    Vector {
        octets: b"\x83\x07\x20\x06\x01\x02\x03\x04\x05\x06\x07\x08\x09\x0A\x01",
        canonical: b"\x83\x07\x20\x06\x01\x02\x03\x04\x05\x06\x07\x08\x09\x0A\x01",
        shown: b"blob-information-status min-log=32 max-log=6 max-chunks=513 max-chunk-size=1027 \
            max-size=134678021 mtu=2569 push=1 pull=0\n",
    },
    Vector {
        octets: b"\x83\x07\x07\x08\xFF\xFF\xFF\xFF\xFF\xFF\xFF\xFF\xFF\xFF\xFE",
        canonical: b"\x83\x07\x07\x08\xFF\xFF\xFF\xFF\xFF\xFF\xFF\xFF\xFF\xFF\x02",
        shown: b"blob-information-status min-log=7 max-log=8 max-chunks=65535 max-chunk-size=65535 \
            max-size=4294967295 mtu=65535 push=0 pull=1\n",
    },
    // BLOB Chunk Transfer.
    Vector {
        octets: b"\x66\x00\x00\x61\x62\x63",
        canonical: b"\x66\x00\x00\x61\x62\x63",
        shown: b"chunk-transfer chunk=0 octets=616263\n",
    },
    Vector {
        octets: b"\x66\x01\x02\x00",
        canonical: b"\x66\x01\x02\x00",
        shown: b"chunk-transfer chunk=513 octets=00\n",
    },
    // BLOB Block Status.
    Vector {
        octets: b"\x67\x00\x00\x00\x08\x00",
        canonical: b"\x67\x00\x00\x00\x08\x00",
        shown: b"block-status status=0 format=0 block=0 chunk-size=8\n",
    },
    Vector {
        octets: b"\x67\x3A\x01\x02\x03\x04",
        canonical: b"\x67\x0A\x01\x02\x03\x04",
        shown: b"block-status status=10 format=0 block=513 chunk-size=1027\n",
    },
    Vector {
        octets: b"\x67\x40\x01\x00\xC8\x00",
        canonical: b"\x67\x40\x01\x00\xC8\x00",
        shown: b"block-status status=0 format=1 block=1 chunk-size=200\n",
    },
    Vector {
        octets: b"\x67\x74\xFF\xFF\xFF\xFF",
        canonical: b"\x67\x44\xFF\xFF\xFF\xFF",
        shown: b"block-status status=4 format=1 block=65535 chunk-size=65535\n",
    },
    Vector {
        octets: b"\x67\x80\x02\x00\x78\x01\xFE\x00\x20",
        canonical: b"\x67\x80\x02\x00\x78\x01\xFE\x00\x20",
        shown: b"block-status status=0 format=2 block=2 chunk-size=376 bits=fe0020\n",
    },
    Vector {
        octets: b"\x67\x80\x02\x00\x78\x01",
        canonical: b"\x67\x80\x02\x00\x78\x01",
        shown: b"block-status status=0 format=2 block=2 chunk-size=376 bits=\n",
    },
    Vector {
        octets: b"\x67\xB3\x02\x00\x78\x01\x80",
        canonical: b"\x67\x83\x02\x00\x78\x01\x80",
        shown: b"block-status status=3 format=2 block=2 chunk-size=376 bits=80\n",
    },
    Vector {
        octets: b"\x67\xC0\x00\x00\xC8\x00\x00\x09",
        canonical: b"\x67\xC0\x00\x00\xC8\x00\x00\x09",
        shown: b"block-status status=0 format=3 block=0 chunk-size=200 missing=0,9\n",
    },
    Vector {
        octets: b"\x67\xC0\x00\x00\xC8\x00",
        canonical: b"\x67\xC0\x00\x00\xC8\x00",
        shown: b"block-status status=0 format=3 block=0 chunk-size=200 missing=\n",
    },
    Vector {
        octets: b"\x67\xF9\x00\x00\xC8\x00\x00\x7F\xC2\x80\xDF\xBF\xE0\xA0\x80\xEF\xBF\xBF",
        canonical: b"\x67\xC9\x00\x00\xC8\x00\x00\x7F\xC2\x80\xDF\xBF\xE0\xA0\x80\xEF\xBF\xBF",
        shown: b"block-status status=9 format=3 block=0 chunk-size=200 \
            missing=0,127,128,2047,2048,65535\n",
    },
    // BLOB Partial Block Report.
    Vector {
        octets: b"\x68",
        canonical: b"\x68",
        shown: b"partial-block-report missing=\n",
    },
    Vector {
        octets: b"\x68\x03\x07",
        canonical: b"\x68\x03\x07",
        shown: b"partial-block-report missing=3,7\n",
    },
    Vector {
        octets: b"\x68\xDF\xBF\xC2\x80\x7F\x00\x00",
        canonical: b"\x68\xDF\xBF\xC2\x80\x7F\x00\x00",
        shown: b"partial-block-report missing=2047,128,127,0,0\n",
    },
    Vector {
        octets: b"\x68\xE0\xA0\x80\xED\xA0\x80\xED\xBF\xBF\xEF\xBF\xBF",
        canonical: b"\x68\xE0\xA0\x80\xED\xA0\x80\xED\xBF\xBF\xEF\xBF\xBF",
        shown: b"partial-block-report missing=2048,55296,57343,65535\n",
    },
];

/// Payloads that are refused.
pub const REFUSED: &[Refused] = &[
    // BLOB Transfer Get.
    (b"\x83\x00\x00", 2, Why::Long),
    // BLOB Transfer Start.
    (b"\x83\x01", 2, Why::Short),
    (
        b"\x83\x01\x00\x01\x02\x03\x04\x05\x06\x07\x08\x09\x0A\x0B\x0C\x0C\x7C\x01",
        2,
        Why::Value,
    ),
    (
        b"\x83\x01\xC0\x01\x02\x03\x04\x05\x06\x07\x08\x09\x0A\x0B\x0C\x0C\x7C\x01",
        2,
        Why::Value,
    ),
    (b"\x83\x01\x40", 3, Why::Short),
    (b"\x83\x01\x40\x01\x02\x03\x04\x05\x06\x07", 3, Why::Short),
    (
        b"\x83\x01\x40\x01\x02\x03\x04\x05\x06\x07\x08",
        11,
        Why::Short,
    ),
    (
        b"\x83\x01\x40\x01\x02\x03\x04\x05\x06\x07\x08\x09\x0A\x0B",
        11,
        Why::Short,
    ),
    (
        b"\x83\x01\x40\x01\x02\x03\x04\x05\x06\x07\x08\x00\x00\x00\x00\x0C\x7C\x01",
        11,
        Why::Value,
    ),
    (
        b"\x83\x01\x40\x01\x02\x03\x04\x05\x06\x07\x08\x09\x0A\x0B\x0C",
        15,
        Why::Short,
    ),
    (
        b"\x83\x01\x40\x01\x02\x03\x04\x05\x06\x07\x08\x09\x0A\x0B\x0C\x05\x7C\x01",
        15,
        Why::Value,
    ),
    (
        b"\x83\x01\x40\x01\x02\x03\x04\x05\x06\x07\x08\x09\x0A\x0B\x0C\x21\x7C\x01",
        15,
        Why::Value,
    ),
    (
        b"\x83\x01\x40\x01\x02\x03\x04\x05\x06\x07\x08\x09\x0A\x0B\x0C\x0C",
        16,
        Why::Short,
    ),
    (
        b"\x83\x01\x40\x01\x02\x03\x04\x05\x06\x07\x08\x09\x0A\x0B\x0C\x0C\x7C",
        16,
        Why::Short,
    ),
    (
        b"\x83\x01\x40\x01\x02\x03\x04\x05\x06\x07\x08\x09\x0A\x0B\x0C\x0C\x13\x00",
        16,
        Why::Value,
    ),
    (
        b"\x83\x01\x40\x01\x02\x03\x04\x05\x06\x07\x08\x09\x0A\x0B\x0C\x0C\x7C\x01\x00",
        18,
        Why::Long,
    ),
    // BLOB Transfer Cancel.
    (b"\x83\x02", 2, Why::Short),
    (b"\x83\x02\x01\x02\x03\x04\x05\x06\x07", 2, Why::Short),
    (
        b"\x83\x02\x01\x02\x03\x04\x05\x06\x07\x08\x00",
        10,
        Why::Long,
    ),
    // BLOB Transfer Status.
    (b"\x83\x03", 2, Why::Short),
    (b"\x83\x03\x4B\x00", 2, Why::Value),
    (b"\x83\x03\x4F\x00", 2, Why::Value),
    (b"\x83\x03\xC0\x00", 2, Why::Value),
    (b"\x83\x03\x40", 3, Why::Short),
    (b"\x83\x03\x40\x06", 3, Why::Value),
    (b"\x83\x03\x40\xFF", 3, Why::Value),
    (b"\x83\x03\x40\x00\x00", 4, Why::Long),
    (b"\x83\x03\x40\x01", 4, Why::Short),
    (
        b"\x83\x03\x40\x01\x01\x02\x03\x04\x05\x06\x07",
        4,
        Why::Short,
    ),
    (
        b"\x83\x03\x40\x01\x01\x02\x03\x04\x05\x06\x07\x08\x00",
        12,
        Why::Long,
    ),
    (
        b"\x83\x03\x40\x02\x01\x02\x03\x04\x05\x06\x07\x08",
        12,
        Why::Short,
    ),
    (
        b"\x83\x03\x40\x02\x01\x02\x03\x04\x05\x06\x07\x08\x09\x0A\x0B",
        12,
        Why::Short,
    ),
    (
        b"\x83\x03\x40\x02\x01\x02\x03\x04\x05\x06\x07\x08\x00\x00\x00\x00\x0C\x7C\x01\x01",
        12,
        Why::Value,
    ),
    (
        b"\x83\x03\x40\x02\x01\x02\x03\x04\x05\x06\x07\x08\x09\x0A\x0B\x0C",
        16,
        Why::Short,
    ),
    (
        b"\x83\x03\x40\x02\x01\x02\x03\x04\x05\x06\x07\x08\x09\x0A\x0B\x0C\x05\x7C\x01\x01",
        16,
        Why::Value,
    ),
    (
        b"\x83\x03\x40\x02\x01\x02\x03\x04\x05\x06\x07\x08\x09\x0A\x0B\x0C\x21\x7C\x01\x01",
        16,
        Why::Value,
    ),
    (
        b"\x83\x03\x40\x02\x01\x02\x03\x04\x05\x06\x07\x08\x09\x0A\x0B\x0C\x0C",
        17,
        Why::Short,
    ),
    (
        b"\x83\x03\x40\x02\x01\x02\x03\x04\x05\x06\x07\x08\x09\x0A\x0B\x0C\x0C\x7C",
        17,
        Why::Short,
    ),
    (
        b"\x83\x03\x40\x02\x01\x02\x03\x04\x05\x06\x07\x08\x09\x0A\x0B\x0C\x0C\x13\x00\x01",
        17,
        Why::Value,
    ),
    (
        b"\x83\x03\x00\x05\x01\x02\x03\x04\x05\x06\x07\x08",
        12,
        Why::Short,
    ),
    // BLOB Block Start.
    (b"\x83\x04", 2, Why::Short),
    (b"\x83\x04\x01", 2, Why::Short),
    (b"\x83\x04\x01\x02", 4, Why::Short),
    (b"\x83\x04\x01\x02\x03", 4, Why::Short),
    (b"\x83\x04\x01\x02\x03\x04\x00", 6, Why::Long),
    // BLOB Block Get.
    (b"\x83\x05\x00", 2, Why::Long),
    // BLOB Information Get.
    (b"\x83\x06\x00", 2, Why::Long),
    // BLOB Information Status.
    (b"\x83\x07", 2, Why::Short),
    (
        b"\x83\x07\x05\x0E\x01\x02\x03\x04\x05\x06\x07\x08\x09\x0A\x03",
        2,
        Why::Value,
    ),
    (
        b"\x83\x07\x21\x0E\x01\x02\x03\x04\x05\x06\x07\x08\x09\x0A\x03",
        2,
        Why::Value,
    ),
    (b"\x83\x07\x0C", 3, Why::Short),
    (
        b"\x83\x07\x0C\x05\x01\x02\x03\x04\x05\x06\x07\x08\x09\x0A\x03",
        3,
        Why::Value,
    ),
    (
        b"\x83\x07\x0C\x21\x01\x02\x03\x04\x05\x06\x07\x08\x09\x0A\x03",
        3,
        Why::Value,
    ),
    (b"\x83\x07\x0C\x0E", 4, Why::Short),
    (b"\x83\x07\x0C\x0E\x01", 4, Why::Short),
    (b"\x83\x07\x0C\x0E\x01\x02", 6, Why::Short),
    (b"\x83\x07\x0C\x0E\x01\x02\x03", 6, Why::Short),
    (b"\x83\x07\x0C\x0E\x01\x02\x03\x04", 8, Why::Short),
    (
        b"\x83\x07\x0C\x0E\x01\x02\x03\x04\x05\x06\x07",
        8,
        Why::Short,
    ),
    (
        b"\x83\x07\x0C\x0E\x01\x02\x03\x04\x05\x06\x07\x08",
        12,
        Why::Short,
    ),
    (
        b"\x83\x07\x0C\x0E\x01\x02\x03\x04\x05\x06\x07\x08\x09",
        12,
        Why::Short,
    ),
    (
        b"\x83\x07\x0C\x0E\x01\x02\x03\x04\x05\x06\x07\x08\x09\x0A",
        14,
        Why::Short,
    ),
    (
        b"\x83\x07\x0C\x0E\x01\x02\x03\x04\x05\x06\x07\x08\x09\x0A\x03\x00",
        15,
        Why::Long,
    ),
    // BLOB Chunk Transfer.
    (b"\x66", 1, Why::Short),
    (b"\x66\x00", 1, Why::Short),
    (b"\x66\x00\x01", 3, Why::Short),
    // BLOB Block Status.
    (b"\x67", 1, Why::Short),
    (b"\x67\x0B\x01\x02\x03\x04", 1, Why::Value),
    (b"\x67\x0F\x01\x02\x03\x04", 1, Why::Value),
    (b"\x67\x00", 2, Why::Short),
    (b"\x67\x00\x01", 2, Why::Short),
    (b"\x67\x00\x01\x02", 4, Why::Short),
    (b"\x67\x00\x01\x02\x03", 4, Why::Short),
    (b"\x67\x00\x01\x02\x03\x04\x00", 6, Why::Long),
    (b"\x67\x40\x01\x02\x03\x04\x00", 6, Why::Long),
    (b"\x67\x4B\x01\x02\x03\x04", 1, Why::Value),
    (b"\x67\x8B\x01\x02\x03\x04", 1, Why::Value),
    (b"\x67\xCB\x01\x02\x03\x04", 1, Why::Value),
    (b"\x67\xC0\x00\x00\x08\x00\xC2", 6, Why::Short),
    (b"\x67\xC0\x00\x00\x08\x00\xE0\x82", 6, Why::Short),
    (b"\x67\xC0\x00\x00\x08\x00\x80", 6, Why::Value),
    (b"\x67\xC0\x00\x00\x08\x00\xE0\x82\x80", 6, Why::Value),
    (b"\x67\xC0\x00\x00\x08\x00\xFF", 6, Why::Value),
    (
        b"\x67\xC0\x00\x00\x08\x00\x00\x7F\xC2\x80\xC2",
        10,
        Why::Short,
    ),
    (
        b"\x67\xC0\x00\x00\x08\x00\x00\xC2\x80\xE0\xA0",
        9,
        Why::Short,
    ),
    (b"\x67\xC0\x00\x00\x08\x00\x09\xC2\x80\xC0", 9, Why::Value),
    (
        b"\x67\xC0\x00\x00\x08\x00\xC2\x80\xE0\xA0\x80\x80",
        11,
        Why::Value,
    ),
    // BLOB Partial Block Report.
    (b"\x68\xC2", 1, Why::Short),
    (b"\x68\xE0\x82", 1, Why::Short),
    (b"\x68\xE0", 1, Why::Short),
    (b"\x68\xE1\x00", 1, Why::Short),
    (b"\x68\xEF", 1, Why::Short),
    (b"\x68\x80", 1, Why::Value),
    (b"\x68\xBF", 1, Why::Value),
    (b"\x68\xC0\x80", 1, Why::Value),
    (b"\x68\xC1\xBF", 1, Why::Value),
    (b"\x68\xC2\x7F", 1, Why::Value),
    (b"\x68\xC2\xC0", 1, Why::Value),
    (b"\x68\xE0\x82\x80", 1, Why::Value),
    (b"\x68\xE0\x9F\xBF", 1, Why::Value),
    (b"\x68\xE1\x7F\x80", 1, Why::Value),
    (b"\x68\xE1\xC0\x80", 1, Why::Value),
    (b"\x68\xE1\x80\x7F", 1, Why::Value),
    (b"\x68\xE1\x80\xC0", 1, Why::Value),
    (b"\x68\xF0\x80\x80\x80", 1, Why::Value),
    (b"\x68\xFF", 1, Why::Value),
    (b"\x68\x00\x7F\xC2\x80\xC2", 5, Why::Short),
    (b"\x68\x00\xC2\x80\xE0\xA0", 4, Why::Short),
    (b"\x68\x09\xC2\x80\xC0", 4, Why::Value),
    (b"\x68\xC2\x80\xE0\xA0\x80\x80", 6, Why::Value),
];

/// Payloads of the greatest length.
pub const LONGEST: &[Longest] = &[
    Longest {
        head: b"\x83\x03\x00\x02\x01\x02\x03\x04\x05\x06\x07\x08\x01\x00\x00\x00\x06\x14\x00",
        repeated: b"\xA5",
        length: 380,
        past: Why::Long,
    },
    Longest {
        head: b"\x66\x00\x00",
        repeated: b"\xA5",
        length: 380,
        past: Why::Long,
    },
    Longest {
        head: b"\x67\x80\x00\x00\x00\xC8",
        repeated: b"\xA5",
        length: 380,
        past: Why::Long,
    },
    Longest {
        head: b"\x67\xC0\x00\x00\x00\xC8",
        repeated: b"\x01",
        length: 380,
        past: Why::Long,
    },
    Longest {
        head: b"\x68",
        repeated: b"\x01",
        length: 380,
        past: Why::Long,
    },
];
