use mu_arith::{block_count, block_len, chunk_count, chunk_len, percent};

#[test]
fn ten_thousand_octets_have_three_blocks(rt: HostRuntime) {
    assert_eq!(rt; block_count(10_000, 12), 3);
    assert_eq!(rt; block_len(10_000, 12, 0), 4096);
    assert_eq!(rt; block_len(10_000, 12, 2), 1808);
    assert_eq!(rt; chunk_count(4096, 200), 21);
    assert_eq!(rt; chunk_len(4096, 200, 20), 96);
    assert_eq!(rt; chunk_count(1808, 200), 10);
    assert_eq!(rt; chunk_len(1808, 200, 0), 200);
    assert_eq!(rt; chunk_len(1808, 200, 9), 8);
}

#[test]
fn least_and_most_have_their_counts(rt: HostRuntime) {
    for (size, log, blocks) in [
        (1, 12, 1),
        (4096, 12, 1),
        (4097, 12, 2),
        (16384, 14, 1),
        (16385, 14, 2),
        (1_048_576, 12, 256),
        (1_048_576, 14, 64),
    ] {
        assert_eq!(rt; block_count(size, log), blocks, "at {size} {log}");
    }
    for (len, size, chunks) in [
        (1, 8, 1),
        (8, 8, 1),
        (9, 8, 2),
        (376, 376, 1),
        (377, 376, 2),
        (16384, 8, 2048),
        (16384, 376, 44),
    ] {
        assert_eq!(rt; chunk_count(len, size), chunks, "at {len} {size}");
    }
    assert_eq!(rt; block_len(1, 12, 0), 1);
    assert_eq!(rt; block_len(1_048_576, 12, 255), 4096);
    assert_eq!(rt; chunk_len(1, 8, 0), 1);
}

#[test]
fn per_cent_is_rounded_down(rt: HostRuntime) {
    for (done, all, want) in [
        (0, 1, 0),
        (1, 1, 100),
        (1, 3, 33),
        (2, 3, 66),
        (199, 200, 99),
        (65535, 65535, 100),
        (65534, 65535, 99),
    ] {
        assert_eq!(rt; percent(done, all), want, "at {done} {all}");
    }
}
