//! The messages of the Firmware Distribution model, worked out from its rows and not by the program.
use crate::{Longest, Refused, Vector};
use mu_codec::Why;

/// Payloads that are messages.
pub const VECTORS: &[Vector] = &[
    // Firmware Distribution Receivers Add.
    Vector {
        octets: b"\x83\x11\x02\x00\x00",
        canonical: b"\x83\x11\x02\x00\x00",
        shown: b"receivers-add entries=2:0\n",
    },
    Vector {
        octets: b"\x83\x11\x01\x00\xFF\xFF\x7F\x00\x01\x02\x03",
        canonical: b"\x83\x11\x01\x00\xFF\xFF\x7F\x00\x01\x02\x03",
        shown: b"receivers-add entries=1:255,32767:0,513:3\n",
    },
    // Firmware Distribution Receivers Delete All.
    Vector {
        octets: b"\x83\x12",
        canonical: b"\x83\x12",
        shown: b"receivers-delete-all\n",
    },
    // Firmware Distribution Receivers Status.
    Vector {
        octets: b"\x83\x13\x00\x01\x00",
        canonical: b"\x83\x13\x00\x01\x00",
        shown: b"receivers-status status=0 count=1\n",
    },
    Vector {
        octets: b"\x83\x13\x0D\xFF\xFF",
        canonical: b"\x83\x13\x0D\xFF\xFF",
        shown: b"receivers-status status=13 count=65535\n",
    },
    // Firmware Distribution Receivers Get.
    Vector {
        octets: b"\x83\x14\x01\x02\x4A\x00",
        canonical: b"\x83\x14\x01\x02\x4A\x00",
        shown: b"receivers-get first=513 limit=74\n",
    },
    // Firmware Distribution Receivers List.
    Vector {
        octets: b"\x83\x15\x00\x00\x00\x00",
        canonical: b"\x83\x15\x00\x00\x00\x00",
        shown: b"receivers-list count=0 first=0 entries=\n",
    },
    Vector {
        octets: b"\x83\x15\x01\x00\x00\x00\x02\x00\x04\xC8\x00",
        canonical: b"\x83\x15\x01\x00\x00\x00\x02\x00\x04\xC8\x00",
        shown: b"receivers-list count=1 first=0 entries=2:8:0:0:50:0\n",
    },
    Vector {
        octets: b"\x83\x15\xFF\xFF\xFE\xFF\x01\x00\x00\x00\x00\xFF\x7F\xBD\xCA\xFF",
        canonical: b"\x83\x15\xFF\xFF\xFE\xFF\x01\x00\x00\x00\x00\xFF\x7F\xBD\xCA\xFF",
        shown: b"receivers-list count=65535 first=65534 entries=1:0:0:0:0:0,32767:10:7:10:50:255\n",
    },
    Vector {
        octets: b"\x83\x15\x01\x02\x03\x04\x02\x81\x6A\x86\x03",
        canonical: b"\x83\x15\x01\x02\x03\x04\x02\x81\x6A\x86\x03",
        shown: b"receivers-list count=513 first=1027 entries=258:5:5:9:33:3\n",
    },
    // Firmware Distribution Capabilities Get.
    Vector {
        octets: b"\x83\x16",
        canonical: b"\x83\x16",
        shown: b"capabilities-get\n",
    },
    // Firmware Distribution Capabilities Status.
    Vector {
        octets: b"\x83\x17\x80\x00\x04\x00\x00\x00\x10\x00\x00\x00\x40\x00\x00\x00\x30\x00\x00",
        canonical: b"\x83\x17\x80\x00\x04\x00\x00\x00\x10\x00\x00\x00\x40\x00\x00\x00\x30\x00\x00",
        shown: b"capabilities-status receivers=128 images=4 max-size=1048576 space=4194304 \
            remaining=3145728 oob=0 schemes=\n",
    },
    Vector {
        octets: b"\x83\x17\x01\x02\x03\x04\x05\x06\x07\x08\x09\x0A\x0B\x0C\x0D\x0E\x0F\x10\x01\x17\x16",
        canonical: b"\x83\x17\x01\x02\x03\x04\x05\x06\x07\x08\x09\x0A\x0B\x0C\x0D\x0E\x0F\x10\x01\x17\x16",
        shown: b"capabilities-status receivers=513 images=1027 max-size=134678021 space=202050057 \
            remaining=269422093 oob=1 schemes=1716\n",
    },
    // Firmware Distribution Get.
    Vector {
        octets: b"\x83\x18",
        canonical: b"\x83\x18",
        shown: b"distribution-get\n",
    },
    // Firmware Distribution Start.
    Vector {
        octets: b"\x83\x19\x00\x00\x05\x00\x00\x05\x00\x00\x00\xC0",
        canonical: b"\x83\x19\x00\x00\x05\x00\x00\x05\x00\x00\x00\xC0",
        shown: b"distribution-start appkey=0 ttl=5 base=0 mode=1 policy=1 image=0 group=49152\n",
    },
    Vector {
        octets: b"\x83\x19\xFF\x0F\xFF\xFF\xFF\x02\xFF\xFF\x00\x00",
        canonical: b"\x83\x19\xFF\x0F\xFF\xFF\xFF\x02\xFF\xFF\x00\x00",
        shown: b"distribution-start appkey=4095 ttl=255 base=65535 mode=2 policy=0 image=65535 \
            group=0\n",
    },
    Vector {
        octets: b"\x83\x19\x01\x00\x02\x03\x00\xF9\x04\x00\xFF\xFF",
        canonical: b"\x83\x19\x01\x00\x02\x03\x00\x01\x04\x00\xFF\xFF",
        shown: b"distribution-start appkey=1 ttl=2 base=3 mode=1 policy=0 image=4 group=65535\n",
    },
    Vector {
        octets: b"\x83\x19\x01\x00\x02\x03\x00\x01\x04\x00\xA0\xA1\xA2\xA3\xA4\xA5\xA6\xA7\xA8\xA9\xAA\
            \xAB\xAC\xAD\xAE\xAF",
        canonical: b"\x83\x19\x01\x00\x02\x03\x00\x01\x04\x00\xA0\xA1\xA2\xA3\xA4\xA5\xA6\xA7\xA8\xA9\xAA\
            \xAB\xAC\xAD\xAE\xAF",
        shown: b"distribution-start appkey=1 ttl=2 base=3 mode=1 policy=0 image=4 \
            label=a0a1a2a3a4a5a6a7a8a9aaabacadaeaf\n",
    },
    Vector {
        octets: b"\x83\x19\xFF\x0F\x07\x01\x02\xFE\x03\x00\x00\x00\x00\x00\x00\x00\x00\x00\x00\x00\x00\
            \x00\x00\x00\x00\x00",
        canonical: b"\x83\x19\xFF\x0F\x07\x01\x02\x06\x03\x00\x00\x00\x00\x00\x00\x00\x00\x00\x00\x00\x00\
            \x00\x00\x00\x00\x00",
        shown: b"distribution-start appkey=4095 ttl=7 base=513 mode=2 policy=1 image=3 \
            label=00000000000000000000000000000000\n",
    },
    // Firmware Distribution Suspend.
    Vector {
        octets: b"\x83\x1A",
        canonical: b"\x83\x1A",
        shown: b"distribution-suspend\n",
    },
    // Firmware Distribution Cancel.
    Vector {
        octets: b"\x83\x1B",
        canonical: b"\x83\x1B",
        shown: b"distribution-cancel\n",
    },
    // Firmware Distribution Apply.
    Vector {
        octets: b"\x83\x1C",
        canonical: b"\x83\x1C",
        shown: b"distribution-apply\n",
    },
    // Firmware Distribution Status.
    Vector {
        octets: b"\x83\x1D\x00\x00",
        canonical: b"\x83\x1D\x00\x00",
        shown: b"distribution-status status=0 phase=0\n",
    },
    Vector {
        octets: b"\x83\x1D\x0D\x00",
        canonical: b"\x83\x1D\x0D\x00",
        shown: b"distribution-status status=13 phase=0\n",
    },
    Vector {
        octets: b"\x83\x1D\x00\x01\x00\xC0\x00\x00\x05\x00\x00\x05\x00\x00",
        canonical: b"\x83\x1D\x00\x01\x00\xC0\x00\x00\x05\x00\x00\x05\x00\x00",
        shown: b"distribution-status status=0 phase=1 group=49152 appkey=0 ttl=5 base=0 mode=1 \
            policy=1 image=0\n",
    },
    Vector {
        octets: b"\x83\x1D\x02\x07\x00\x80\xFF\x0F\xFF\xFF\xFF\x02\xFF\xFF",
        canonical: b"\x83\x1D\x02\x07\x00\x80\xFF\x0F\xFF\xFF\xFF\x02\xFF\xFF",
        shown: b"distribution-status status=2 phase=7 group=32768 appkey=4095 ttl=255 base=65535 \
            mode=2 policy=0 image=65535\n",
    },
    Vector {
        octets: b"\x83\x1D\x0C\x03\xFF\xBF\x01\x00\x02\x03\x00\x05\x04\x00",
        canonical: b"\x83\x1D\x0C\x03\xFF\xBF\x01\x00\x02\x03\x00\x05\x04\x00",
        shown: b"distribution-status status=12 phase=3 group=49151 appkey=1 ttl=2 base=3 mode=1 \
            policy=1 image=4\n",
    },
    Vector {
        octets: b"\x83\x1D\x00\x04\x00\x00\x01\x00\x02\x03\x00\xFE\x04\x00",
        canonical: b"\x83\x1D\x00\x04\x00\x00\x01\x00\x02\x03\x00\x06\x04\x00",
        shown: b"distribution-status status=0 phase=4 group=0 appkey=1 ttl=2 base=3 mode=2 policy=1 \
            image=4\n",
    },
    Vector {
        octets: b"\x83\x1D\x00\x05\xFF\xFF\x01\x02\x04\x05\x06\x01\x07\x08",
        canonical: b"\x83\x1D\x00\x05\xFF\xFF\x01\x02\x04\x05\x06\x01\x07\x08",
        shown: b"distribution-status status=0 phase=5 group=65535 appkey=513 ttl=4 base=1541 mode=1 \
            policy=0 image=2055\n",
    },
    // Firmware Distribution Upload Get.
    Vector {
        octets: b"\x83\x1E",
        canonical: b"\x83\x1E",
        shown: b"upload-get\n",
    },
    // Firmware Distribution Upload Start.
    Vector {
        octets: b"\x83\x1F\x05\x00\x00\x01\x00\x00\x00\x00\x00\x09\x00\x03\x00\x00\x00\x28\x03\x00\x00\
            \x00\x02\x00\x00\x00\xBA\x78\x16\xBF\x8F\x01\xCF\xEA\x41\x41\x40\xDE\x5D\xAE\x22\x23\
            \xB0\x03\x61\xA3\x96\x17\x7A\x9C\xB4\x10\xFF\x61\xF2\x00\x15\xAD\xFF\xFF\x02\x00\x00\
            \x00\xBA\x78\x16\xBF\x8F\x01\xCF\xEA\x41\x41\x40\xDE\x5D\xAE\x22\x23\xB0\x03\x61\xA3\
            \x96\x17\x7A\x9C\xB4\x10\xFF\x61\xF2\x00\x15\xAD",
        canonical: b"\x83\x1F\x05\x00\x00\x01\x00\x00\x00\x00\x00\x09\x00\x03\x00\x00\x00\x28\x03\x00\x00\
            \x00\x02\x00\x00\x00\xBA\x78\x16\xBF\x8F\x01\xCF\xEA\x41\x41\x40\xDE\x5D\xAE\x22\x23\
            \xB0\x03\x61\xA3\x96\x17\x7A\x9C\xB4\x10\xFF\x61\xF2\x00\x15\xAD\xFF\xFF\x02\x00\x00\
            \x00\xBA\x78\x16\xBF\x8F\x01\xCF\xEA\x41\x41\x40\xDE\x5D\xAE\x22\x23\xB0\x03\x61\xA3\
            \x96\x17\x7A\x9C\xB4\x10\xFF\x61\xF2\x00\x15\xAD",
        shown: b"upload-start ttl=5 base=0 id=2533274790395905 size=3 \
            metadata=0300000002000000ba7816bf8f01cfea414140de5dae2223b00361a396177a9cb410ff61f20\
            015ad \
            fwid=ffff02000000ba7816bf8f01cfea414140de5dae2223b00361a396177a9cb410ff61f20015ad\n",
    },
    Vector {
        octets: b"\x83\x1F\xFF\xFF\xFF\xFF\xFF\xFF\xFF\xFF\xFF\xFF\xFF\xFF\xFF\xFF\xFF\x00\xAA\xBB",
        canonical: b"\x83\x1F\xFF\xFF\xFF\xFF\xFF\xFF\xFF\xFF\xFF\xFF\xFF\xFF\xFF\xFF\xFF\x00\xAA\xBB",
        shown: b"upload-start ttl=255 base=65535 id=18446744073709551615 size=4294967295 metadata= \
            fwid=aabb\n",
    },
    Vector {
        octets: b"\x83\x1F\x00\x01\x00\x00\x00\x00\x00\x00\x00\x00\x00\x01\x00\x00\x00\x01\x55\xAA\xBB\
            \xCC",
        canonical: b"\x83\x1F\x00\x01\x00\x00\x00\x00\x00\x00\x00\x00\x00\x01\x00\x00\x00\x01\x55\xAA\xBB\
            \xCC",
        shown: b"upload-start ttl=0 base=1 id=0 size=1 metadata=55 fwid=aabbcc\n",
    },
    // Firmware Distribution Upload OOB Start.
    Vector {
        octets: b"\x83\x20\x03\x75\x72\x69\xFF\xFF\x02\x00\x00\x00\xBA\x78\x16\xBF\x8F\x01\xCF\xEA\x41\
            \x41\x40\xDE\x5D\xAE\x22\x23\xB0\x03\x61\xA3\x96\x17\x7A\x9C\xB4\x10\xFF\x61\xF2\x00\
            \x15\xAD",
        canonical: b"\x83\x20\x03\x75\x72\x69\xFF\xFF\x02\x00\x00\x00\xBA\x78\x16\xBF\x8F\x01\xCF\xEA\x41\
            \x41\x40\xDE\x5D\xAE\x22\x23\xB0\x03\x61\xA3\x96\x17\x7A\x9C\xB4\x10\xFF\x61\xF2\x00\
            \x15\xAD",
        shown: b"upload-start-oob uri=757269 \
            fwid=ffff02000000ba7816bf8f01cfea414140de5dae2223b00361a396177a9cb410ff61f20015ad\n",
    },
    Vector {
        octets: b"\x83\x20\x00\xAA\xBB",
        canonical: b"\x83\x20\x00\xAA\xBB",
        shown: b"upload-start-oob uri= fwid=aabb\n",
    },
    // Firmware Distribution Upload Cancel.
    Vector {
        octets: b"\x83\x21",
        canonical: b"\x83\x21",
        shown: b"upload-cancel\n",
    },
    // Firmware Distribution Upload Status.
    Vector {
        octets: b"\x83\x22\x00\x00",
        canonical: b"\x83\x22\x00\x00",
        shown: b"upload-status status=0 phase=0\n",
    },
    Vector {
        octets: b"\x83\x22\x0D\x00",
        canonical: b"\x83\x22\x0D\x00",
        shown: b"upload-status status=13 phase=0\n",
    },
    Vector {
        octets: b"\x83\x22\x00\x01\x00\xAA\xBB",
        canonical: b"\x83\x22\x00\x01\x00\xAA\xBB",
        shown: b"upload-status status=0 phase=1 progress=0 kind=0 fwid=aabb\n",
    },
    Vector {
        octets: b"\x83\x22\x01\x03\xE4\xFF\xFF\x02\x00\x00\x00\xBA\x78\x16\xBF\x8F\x01\xCF\xEA\x41\x41\
            \x40\xDE\x5D\xAE\x22\x23\xB0\x03\x61\xA3\x96\x17\x7A\x9C\xB4\x10\xFF\x61\xF2\x00\x15\
            \xAD",
        canonical: b"\x83\x22\x01\x03\xE4\xFF\xFF\x02\x00\x00\x00\xBA\x78\x16\xBF\x8F\x01\xCF\xEA\x41\x41\
            \x40\xDE\x5D\xAE\x22\x23\xB0\x03\x61\xA3\x96\x17\x7A\x9C\xB4\x10\xFF\x61\xF2\x00\x15\
            \xAD",
        shown: b"upload-status status=1 phase=3 progress=100 kind=1 \
            fwid=ffff02000000ba7816bf8f01cfea414140de5dae2223b00361a396177a9cb410ff61f20015ad\n",
    },
    Vector {
        octets: b"\x83\x22\x03\x02\x25\xAA\xBB\xCC",
        canonical: b"\x83\x22\x03\x02\x25\xAA\xBB\xCC",
        shown: b"upload-status status=3 phase=2 progress=37 kind=0 fwid=aabbcc\n",
    },
    // Firmware Distribution Firmware Get.
    Vector {
        octets: b"\x83\x23\xFF\xFF\x02\x00\x00\x00\xBA\x78\x16\xBF\x8F\x01\xCF\xEA\x41\x41\x40\xDE\x5D\
            \xAE\x22\x23\xB0\x03\x61\xA3\x96\x17\x7A\x9C\xB4\x10\xFF\x61\xF2\x00\x15\xAD",
        canonical: b"\x83\x23\xFF\xFF\x02\x00\x00\x00\xBA\x78\x16\xBF\x8F\x01\xCF\xEA\x41\x41\x40\xDE\x5D\
            \xAE\x22\x23\xB0\x03\x61\xA3\x96\x17\x7A\x9C\xB4\x10\xFF\x61\xF2\x00\x15\xAD",
        shown: b"firmware-get \
            fwid=ffff02000000ba7816bf8f01cfea414140de5dae2223b00361a396177a9cb410ff61f20015ad\n",
    },
    Vector {
        octets: b"\x83\x23\xAA\xBB",
        canonical: b"\x83\x23\xAA\xBB",
        shown: b"firmware-get fwid=aabb\n",
    },
    // Firmware Distribution Firmware Get By Index.
    Vector {
        octets: b"\x83\x24\x01\x02",
        canonical: b"\x83\x24\x01\x02",
        shown: b"firmware-get-by-index index=513\n",
    },
    // Firmware Distribution Firmware Delete.
    Vector {
        octets: b"\x83\x25\xFF\xFF\x02\x00\x00\x00\xBA\x78\x16\xBF\x8F\x01\xCF\xEA\x41\x41\x40\xDE\x5D\
            \xAE\x22\x23\xB0\x03\x61\xA3\x96\x17\x7A\x9C\xB4\x10\xFF\x61\xF2\x00\x15\xAD",
        canonical: b"\x83\x25\xFF\xFF\x02\x00\x00\x00\xBA\x78\x16\xBF\x8F\x01\xCF\xEA\x41\x41\x40\xDE\x5D\
            \xAE\x22\x23\xB0\x03\x61\xA3\x96\x17\x7A\x9C\xB4\x10\xFF\x61\xF2\x00\x15\xAD",
        shown: b"firmware-delete \
            fwid=ffff02000000ba7816bf8f01cfea414140de5dae2223b00361a396177a9cb410ff61f20015ad\n",
    },
    Vector {
        octets: b"\x83\x25\xAA\xBB",
        canonical: b"\x83\x25\xAA\xBB",
        shown: b"firmware-delete fwid=aabb\n",
    },
    // Firmware Distribution Firmware Delete All.
    Vector {
        octets: b"\x83\x26",
        canonical: b"\x83\x26",
        shown: b"firmware-delete-all\n",
    },
    // Firmware Distribution Firmware Status.
    Vector {
        octets: b"\x83\x27\x00\x01\x00\x00\x00\xFF\xFF\x02\x00\x00\x00\xBA\x78\x16\xBF\x8F\x01\xCF\xEA\
            \x41\x41\x40\xDE\x5D\xAE\x22\x23\xB0\x03\x61\xA3\x96\x17\x7A\x9C\xB4\x10\xFF\x61\xF2\
            \x00\x15\xAD",
        canonical: b"\x83\x27\x00\x01\x00\x00\x00\xFF\xFF\x02\x00\x00\x00\xBA\x78\x16\xBF\x8F\x01\xCF\xEA\
            \x41\x41\x40\xDE\x5D\xAE\x22\x23\xB0\x03\x61\xA3\x96\x17\x7A\x9C\xB4\x10\xFF\x61\xF2\
            \x00\x15\xAD",
        shown: b"firmware-status status=0 count=1 index=0 \
            fwid=ffff02000000ba7816bf8f01cfea414140de5dae2223b00361a396177a9cb410ff61f20015ad\n",
    },
    Vector {
        octets: b"\x83\x27\x0D\x00\x00\xFF\xFF",
        canonical: b"\x83\x27\x0D\x00\x00\xFF\xFF",
        shown: b"firmware-status status=13 count=0 index=65535\n",
    },
    Vector {
        octets: b"\x83\x27\x04\x01\x02\x03\x04\xAA\xBB",
        canonical: b"\x83\x27\x04\x01\x02\x03\x04\xAA\xBB",
        shown: b"firmware-status status=4 count=513 index=1027 fwid=aabb\n",
    },
];

/// Payloads that are refused.
pub const REFUSED: &[Refused] = &[
    // Firmware Distribution Receivers Add.
    (b"\x83\x11", 2, Why::Short),
    (b"\x83\x11\x02", 2, Why::Short),
    (b"\x83\x11\x02\x00", 4, Why::Short),
    (b"\x83\x11\x00\x00\x00", 2, Why::Value),
    (b"\x83\x11\x00\x80\x00", 2, Why::Value),
    (b"\x83\x11\xFF\xFF\x00", 2, Why::Value),
    (b"\x83\x11\x02\x00\x00\x03", 5, Why::Short),
    (b"\x83\x11\x02\x00\x00\x03\x00", 7, Why::Short),
    (b"\x83\x11\x02\x00\x00\x00\x00\x00", 5, Why::Value),
    (b"\x83\x11\x02\x00\x00\x00\x80\x00", 5, Why::Value),
    // Firmware Distribution Receivers Delete All.
    (b"\x83\x12\x00", 2, Why::Long),
    // Firmware Distribution Receivers Status.
    (b"\x83\x13", 2, Why::Short),
    (b"\x83\x13\x0E\x01\x02", 2, Why::Value),
    (b"\x83\x13\xFF\x01\x02", 2, Why::Value),
    (b"\x83\x13\x00", 3, Why::Short),
    (b"\x83\x13\x00\x01", 3, Why::Short),
    (b"\x83\x13\x00\x01\x02\x00", 5, Why::Long),
    // Firmware Distribution Receivers Get.
    (b"\x83\x14", 2, Why::Short),
    (b"\x83\x14\x01", 2, Why::Short),
    (b"\x83\x14\x01\x02", 4, Why::Short),
    (b"\x83\x14\x01\x02\x4A", 4, Why::Short),
    (b"\x83\x14\x01\x02\x4A\x00\x00", 6, Why::Long),
    // Firmware Distribution Receivers List.
    (b"\x83\x15", 2, Why::Short),
    (b"\x83\x15\x01", 2, Why::Short),
    (b"\x83\x15\x01\x02", 4, Why::Short),
    (b"\x83\x15\x01\x02\x03", 4, Why::Short),
    (b"\x83\x15\x01\x00\x00\x00\x02", 6, Why::Short),
    (b"\x83\x15\x01\x00\x00\x00\x02\x00\x04\xC8", 6, Why::Short),
    (
        b"\x83\x15\x01\x00\x00\x00\x00\x00\x04\xC8\x00",
        6,
        Why::Value,
    ),
    (
        b"\x83\x15\x01\x00\x00\x00\x02\x80\x05\xC8\x00",
        6,
        Why::Value,
    ),
    (
        b"\x83\x15\x01\x00\x00\x00\x02\x80\x07\xC8\x00",
        6,
        Why::Value,
    ),
    (
        b"\x83\x15\x01\x00\x00\x00\x02\x00\xC4\xCA\x00",
        6,
        Why::Value,
    ),
    (
        b"\x83\x15\x01\x00\x00\x00\x02\x00\xC4\xCB\x00",
        6,
        Why::Value,
    ),
    (
        b"\x83\x15\x01\x00\x00\x00\x02\x00\x04\xCC\x00",
        6,
        Why::Value,
    ),
    (
        b"\x83\x15\x01\x00\x00\x00\x02\x00\x04\xFC\x00",
        6,
        Why::Value,
    ),
    (
        b"\x83\x15\x01\x00\x00\x00\x02\x00\x04\xC8\x00\x03\x00\x04\xC8",
        11,
        Why::Short,
    ),
    (
        b"\x83\x15\x01\x00\x00\x00\x02\x00\x04\xC8\x00\x00\x00\x04\xC8\x00",
        11,
        Why::Value,
    ),
    // Firmware Distribution Capabilities Get.
    (b"\x83\x16\x00", 2, Why::Long),
    // Firmware Distribution Capabilities Status.
    (b"\x83\x17", 2, Why::Short),
    (b"\x83\x17\x01", 2, Why::Short),
    (b"\x83\x17\x01\x02", 4, Why::Short),
    (b"\x83\x17\x01\x02\x03", 4, Why::Short),
    (b"\x83\x17\x01\x02\x03\x04", 6, Why::Short),
    (b"\x83\x17\x01\x02\x03\x04\x05\x06\x07", 6, Why::Short),
    (b"\x83\x17\x01\x02\x03\x04\x05\x06\x07\x08", 10, Why::Short),
    (
        b"\x83\x17\x01\x02\x03\x04\x05\x06\x07\x08\x09\x0A\x0B",
        10,
        Why::Short,
    ),
    (
        b"\x83\x17\x01\x02\x03\x04\x05\x06\x07\x08\x09\x0A\x0B\x0C",
        14,
        Why::Short,
    ),
    (
        b"\x83\x17\x01\x02\x03\x04\x05\x06\x07\x08\x09\x0A\x0B\x0C\x0D\x0E\x0F",
        14,
        Why::Short,
    ),
    (
        b"\x83\x17\x01\x02\x03\x04\x05\x06\x07\x08\x09\x0A\x0B\x0C\x0D\x0E\x0F\x10",
        18,
        Why::Short,
    ),
    (
        b"\x83\x17\x01\x02\x03\x04\x05\x06\x07\x08\x09\x0A\x0B\x0C\x0D\x0E\x0F\x10\x02",
        18,
        Why::Value,
    ),
    (
        b"\x83\x17\x01\x02\x03\x04\x05\x06\x07\x08\x09\x0A\x0B\x0C\x0D\x0E\x0F\x10\xFF",
        18,
        Why::Value,
    ),
    // Firmware Distribution Get.
    (b"\x83\x18\x00", 2, Why::Long),
    // Firmware Distribution Start.
    (b"\x83\x19", 2, Why::Short),
    (b"\x83\x19\x01", 2, Why::Short),
    (
        b"\x83\x19\x00\x10\x02\x01\x02\x01\x03\x04\xA1\xC0",
        2,
        Why::Value,
    ),
    (
        b"\x83\x19\xFF\xFF\x02\x01\x02\x01\x03\x04\xA1\xC0",
        2,
        Why::Value,
    ),
    (b"\x83\x19\x01\x00", 4, Why::Short),
    (b"\x83\x19\x01\x00\x02", 5, Why::Short),
    (b"\x83\x19\x01\x00\x02\x01", 5, Why::Short),
    (b"\x83\x19\x01\x00\x02\x01\x02", 7, Why::Short),
    (
        b"\x83\x19\x01\x00\x02\x01\x02\x00\x03\x04\xA1\xC0",
        7,
        Why::Value,
    ),
    (
        b"\x83\x19\x01\x00\x02\x01\x02\x03\x03\x04\xA1\xC0",
        7,
        Why::Value,
    ),
    (b"\x83\x19\x01\x00\x02\x01\x02\x01", 8, Why::Short),
    (b"\x83\x19\x01\x00\x02\x01\x02\x01\x03", 8, Why::Short),
    (b"\x83\x19\x01\x00\x02\x01\x02\x01\x03\x04", 10, Why::Short),
    (
        b"\x83\x19\x01\x00\x02\x01\x02\x01\x03\x04\xA1",
        10,
        Why::Short,
    ),
    (
        b"\x83\x19\x01\x00\x02\x01\x02\x01\x03\x04\x01\x00",
        10,
        Why::Value,
    ),
    (
        b"\x83\x19\x01\x00\x02\x01\x02\x01\x03\x04\xFF\x7F",
        10,
        Why::Value,
    ),
    (
        b"\x83\x19\x01\x00\x02\x01\x02\x01\x03\x04\x00\x80",
        10,
        Why::Value,
    ),
    (
        b"\x83\x19\x01\x00\x02\x01\x02\x01\x03\x04\xFF\xBF",
        10,
        Why::Value,
    ),
    (
        b"\x83\x19\x01\x00\x02\x01\x02\x01\x03\x04\xA1\xC0\x00",
        12,
        Why::Long,
    ),
    (
        b"\x83\x19\x01\x00\x02\x01\x02\x01\x03\x04\xA0\xA1\xA2\xA3\xA4\xA5\xA6\xA7\xA8\xA9\xAA\
            \xAB\xAC\xAD\xAE",
        10,
        Why::Value,
    ),
    (
        b"\x83\x19\x01\x00\x02\x01\x02\x01\x03\x04\xA0\xC0\xA2\xA3\xA4\xA5\xA6\xA7\xA8\xA9\xAA\
            \xAB\xAC\xAD\xAE",
        12,
        Why::Long,
    ),
    (
        b"\x83\x19\x01\x00\x02\x01\x02\x01\x03\x04\xA0\xA1\xA2\xA3\xA4\xA5\xA6\xA7\xA8\xA9\xAA\
            \xAB\xAC\xAD\xAE\xAF\x00",
        26,
        Why::Long,
    ),
    // Firmware Distribution Suspend.
    (b"\x83\x1A\x00", 2, Why::Long),
    // Firmware Distribution Cancel.
    (b"\x83\x1B\x00", 2, Why::Long),
    // Firmware Distribution Apply.
    (b"\x83\x1C\x00", 2, Why::Long),
    // Firmware Distribution Status.
    (b"\x83\x1D", 2, Why::Short),
    (b"\x83\x1D\x0E\x00", 2, Why::Value),
    (b"\x83\x1D\xFF\x00", 2, Why::Value),
    (b"\x83\x1D\x00", 3, Why::Short),
    (b"\x83\x1D\x00\x08", 3, Why::Value),
    (b"\x83\x1D\x00\xFF", 3, Why::Value),
    (b"\x83\x1D\x00\x00\x00", 4, Why::Long),
    (b"\x83\x1D\x00\x01", 4, Why::Short),
    (b"\x83\x1D\x00\x01\xA1", 4, Why::Short),
    (
        b"\x83\x1D\x00\x01\x01\x00\x01\x02\x04\x05\x06\x01\x07\x08",
        4,
        Why::Value,
    ),
    (
        b"\x83\x1D\x00\x01\xFF\x7F\x01\x02\x04\x05\x06\x01\x07\x08",
        4,
        Why::Value,
    ),
    (b"\x83\x1D\x00\x01\xA1\xC0", 6, Why::Short),
    (b"\x83\x1D\x00\x01\xA1\xC0\x01", 6, Why::Short),
    (
        b"\x83\x1D\x00\x01\xA1\xC0\x00\x10\x04\x05\x06\x01\x07\x08",
        6,
        Why::Value,
    ),
    (
        b"\x83\x1D\x00\x01\xA1\xC0\xFF\xFF\x04\x05\x06\x01\x07\x08",
        6,
        Why::Value,
    ),
    (b"\x83\x1D\x00\x01\xA1\xC0\x01\x02", 8, Why::Short),
    (b"\x83\x1D\x00\x01\xA1\xC0\x01\x02\x04", 9, Why::Short),
    (b"\x83\x1D\x00\x01\xA1\xC0\x01\x02\x04\x05", 9, Why::Short),
    (
        b"\x83\x1D\x00\x01\xA1\xC0\x01\x02\x04\x05\x06",
        11,
        Why::Short,
    ),
    (
        b"\x83\x1D\x00\x01\xA1\xC0\x01\x02\x04\x05\x06\x00\x07\x08",
        11,
        Why::Value,
    ),
    (
        b"\x83\x1D\x00\x01\xA1\xC0\x01\x02\x04\x05\x06\x03\x07\x08",
        11,
        Why::Value,
    ),
    (
        b"\x83\x1D\x00\x01\xA1\xC0\x01\x02\x04\x05\x06\x01",
        12,
        Why::Short,
    ),
    (
        b"\x83\x1D\x00\x01\xA1\xC0\x01\x02\x04\x05\x06\x01\x07",
        12,
        Why::Short,
    ),
    (
        b"\x83\x1D\x00\x01\xA1\xC0\x01\x02\x04\x05\x06\x01\x07\x08\x00",
        14,
        Why::Long,
    ),
    // Firmware Distribution Upload Get.
    (b"\x83\x1E\x00", 2, Why::Long),
    // Firmware Distribution Upload Start.
    (b"\x83\x1F", 2, Why::Short),
    (b"\x83\x1F\x05", 3, Why::Short),
    (b"\x83\x1F\x05\x01", 3, Why::Short),
    (b"\x83\x1F\x05\x01\x02", 5, Why::Short),
    (
        b"\x83\x1F\x05\x01\x02\x01\x02\x03\x04\x05\x06\x07",
        5,
        Why::Short,
    ),
    (
        b"\x83\x1F\x05\x01\x02\x01\x02\x03\x04\x05\x06\x07\x08",
        13,
        Why::Short,
    ),
    (
        b"\x83\x1F\x05\x01\x02\x01\x02\x03\x04\x05\x06\x07\x08\x09\x0A\x0B",
        13,
        Why::Short,
    ),
    (
        b"\x83\x1F\x05\x01\x02\x01\x02\x03\x04\x05\x06\x07\x08\x00\x00\x00\x00\x03\x61\x62\x63\
            \xAA\xBB",
        13,
        Why::Value,
    ),
    (
        b"\x83\x1F\x05\x01\x02\x01\x02\x03\x04\x05\x06\x07\x08\x09\x0A\x0B\x0C",
        17,
        Why::Short,
    ),
    (
        b"\x83\x1F\x05\x01\x02\x01\x02\x03\x04\x05\x06\x07\x08\x09\x0A\x0B\x0C\x03",
        18,
        Why::Short,
    ),
    (
        b"\x83\x1F\x05\x01\x02\x01\x02\x03\x04\x05\x06\x07\x08\x09\x0A\x0B\x0C\x03\x61\x62",
        18,
        Why::Short,
    ),
    (
        b"\x83\x1F\x05\x01\x02\x01\x02\x03\x04\x05\x06\x07\x08\x09\x0A\x0B\x0C\x03\x61\x62\x63",
        21,
        Why::Short,
    ),
    (
        b"\x83\x1F\x05\x01\x02\x01\x02\x03\x04\x05\x06\x07\x08\x09\x0A\x0B\x0C\x03\x61\x62\x63\
            \xAA",
        21,
        Why::Short,
    ),
    // Firmware Distribution Upload OOB Start.
    (b"\x83\x20", 2, Why::Short),
    (b"\x83\x20\x03", 3, Why::Short),
    (b"\x83\x20\x03\x75\x72", 3, Why::Short),
    (b"\x83\x20\x03\x75\x72\x69", 6, Why::Short),
    (b"\x83\x20\x03\x75\x72\x69\xAA", 6, Why::Short),
    // Firmware Distribution Upload Cancel.
    (b"\x83\x21\x00", 2, Why::Long),
    // Firmware Distribution Upload Status.
    (b"\x83\x22", 2, Why::Short),
    (b"\x83\x22\x0E\x00", 2, Why::Value),
    (b"\x83\x22\xFF\x00", 2, Why::Value),
    (b"\x83\x22\x00", 3, Why::Short),
    (b"\x83\x22\x00\x04", 3, Why::Value),
    (b"\x83\x22\x00\xFF", 3, Why::Value),
    (b"\x83\x22\x00\x00\x00", 4, Why::Long),
    (b"\x83\x22\x00\x01", 4, Why::Short),
    (b"\x83\x22\x00\x01\xE5\xAA\xBB", 4, Why::Value),
    (b"\x83\x22\x00\x01\xFF\xAA\xBB", 4, Why::Value),
    (b"\x83\x22\x00\x01\xB2", 5, Why::Short),
    (b"\x83\x22\x00\x01\xB2\xAA", 5, Why::Short),
    // Firmware Distribution Firmware Get.
    (b"\x83\x23", 2, Why::Short),
    (b"\x83\x23\xAA", 2, Why::Short),
    // Firmware Distribution Firmware Get By Index.
    (b"\x83\x24", 2, Why::Short),
    (b"\x83\x24\x01", 2, Why::Short),
    (b"\x83\x24\x01\x02\x00", 4, Why::Long),
    // Firmware Distribution Firmware Delete.
    (b"\x83\x25", 2, Why::Short),
    (b"\x83\x25\xAA", 2, Why::Short),
    // Firmware Distribution Firmware Delete All.
    (b"\x83\x26\x00", 2, Why::Long),
    // Firmware Distribution Firmware Status.
    (b"\x83\x27", 2, Why::Short),
    (b"\x83\x27\x0E\x01\x02\x03\x04", 2, Why::Value),
    (b"\x83\x27\xFF\x01\x02\x03\x04", 2, Why::Value),
    (b"\x83\x27\x00", 3, Why::Short),
    (b"\x83\x27\x00\x01", 3, Why::Short),
    (b"\x83\x27\x00\x01\x02", 5, Why::Short),
    (b"\x83\x27\x00\x01\x02\x03", 5, Why::Short),
    (b"\x83\x27\x00\x01\x02\x03\x04\xAA", 7, Why::Short),
];

/// Payloads of the greatest length.
pub const LONGEST: &[Longest] = &[
    Longest {
        head: b"\x83\x11",
        repeated: b"\x02\x00\x00",
        length: 380,
        past: Why::Long,
    },
    Longest {
        head: b"\x83\x15\x01\x00\x00\x00",
        repeated: b"\x02\x00\x04\xC8\x00",
        length: 376,
        past: Why::Short,
    },
    Longest {
        head: b"\x83\x17\x00\x00\x00\x00\x00\x00\x00\x00\x00\x00\x00\x00\x00\x00\x00\x00\x00",
        repeated: b"\xA5",
        length: 380,
        past: Why::Long,
    },
    Longest {
        head: b"\x83\x1F\x05\x00\x00\x01\x02\x03\x04\x05\x06\x07\x08\x01\x00\x00\x00\x00",
        repeated: b"\xA5",
        length: 126,
        past: Why::Long,
    },
    Longest {
        head: b"\x83\x1F\x05\x00\x00\x01\x02\x03\x04\x05\x06\x07\x08\x01\x00\x00\x00\xFF",
        repeated: b"\xA5",
        length: 380,
        past: Why::Long,
    },
    Longest {
        head: b"\x83\x20\x00",
        repeated: b"\xA5",
        length: 111,
        past: Why::Long,
    },
    Longest {
        head: b"\x83\x20\xFF",
        repeated: b"\xA5",
        length: 366,
        past: Why::Long,
    },
    Longest {
        head: b"\x83\x22\x00\x01\x00",
        repeated: b"\xA5",
        length: 113,
        past: Why::Long,
    },
    Longest {
        head: b"\x83\x23",
        repeated: b"\xA5",
        length: 110,
        past: Why::Long,
    },
    Longest {
        head: b"\x83\x25",
        repeated: b"\xA5",
        length: 110,
        past: Why::Long,
    },
    Longest {
        head: b"\x83\x27\x00\x01\x00\x00\x00",
        repeated: b"\xA5",
        length: 115,
        past: Why::Long,
    },
];
