use mu_block::BlockBuffer;

// A block of so many octets, in which octet `i` is `i % 251`, and a chunk of it.
fn octet(i: usize) -> u8 {
    (i % 251) as u8
}

fn chunk_at(begin: usize, len: usize) -> [u8; 376] {
    let mut octets = [0; 376];
    for (i, place) in octets.iter_mut().enumerate() {
        if i < len {
            *place = octet(begin.wrapping_add(i));
        }
    }
    octets
}

// Hands a chunk over, of the length that the block asks.
fn give(block: &mut BlockBuffer, chunk: u16, chunk_size: usize) -> bool {
    let Some(len) = block.octets_of(chunk) else {
        return false;
    };
    let octets = chunk_at((chunk as usize).wrapping_mul(chunk_size), len as usize);
    match octets.get(..len as usize) {
        Some(octets) => {
            if octets.len() == len as usize {
                block.put(chunk, octets);
                true
            } else {
                false
            }
        }
        None => false,
    }
}

fn is_image(octets: &[u8], len: usize) -> bool {
    for (i, found) in octets.iter().enumerate() {
        if *found != octet(i) {
            return false;
        }
    }
    octets.len() == len
}

#[test]
fn without_a_block_there_is_nothing(rt: HostRuntime) {
    let mut block = BlockBuffer::new();
    for _ in 0..2 {
        assert!(rt; !block.is_open() && !block.is_full() && !block.has(0));
        assert_eq!(rt; block.number(), None);
        assert_eq!(rt; block.chunk_size(), None);
        assert_eq!(rt; block.size(), None);
        assert_eq!(rt; block.octets_of(0), None);
        assert_eq!(rt; block.count(), 0);
        assert_eq!(rt; block.received_count(), 0);
        assert_eq!(rt; block.missing_count(), 0);
        assert_eq!(rt; block.missing().bound(), 0);
        assert_eq!(rt; block.received().bound(), 0);
        assert!(rt; block.octets().is_none());
        block.open(1, 8, 20);
        block.close();
    }
}

#[test]
fn chunks_come_in_any_order(rt: HostRuntime) {
    // Block of so many octets, chunk size, chunks, octets of the last one.
    let cases: [(u16, u16, u16, u16); 8] = [
        (1, 8, 1, 1),
        (8, 8, 1, 8),
        (9, 8, 2, 1),
        (1808, 200, 10, 8),
        (4096, 200, 21, 96),
        (16384, 376, 44, 216),
        (16384, 8, 2048, 8),
        (5000, 376, 14, 112),
    ];
    let mut block = BlockBuffer::new();
    for (size, chunk_size, count, last) in cases {
        block.open(7, chunk_size, size);
        assert_eq!(rt; block.count(), count, "{size} {chunk_size}");
        assert_eq!(rt; block.octets_of(count), None);
        assert_eq!(rt;
            block.octets_of(count.wrapping_sub(1)),
            Some(last),
            "{size} {chunk_size}"
        );
        assert_eq!(rt; block.missing_count(), count);
        for i in 0..count {
            let chunk = count.wrapping_sub(1).wrapping_sub(i);
            assert!(rt; !block.is_full() && !block.has(chunk));
            assert!(rt; block.octets().is_none());
            assert!(rt; give(&mut block, chunk, chunk_size as usize));
            // A copy changes nothing.
            assert!(rt; give(&mut block, chunk, chunk_size as usize));
            assert!(rt; block.has(chunk));
            assert_eq!(rt; block.received_count(), i.wrapping_add(1));
            assert_eq!(rt;
                block.missing().first_from(0),
                if chunk == 0 { None } else { Some(0) }
            );
            assert_eq!(rt; block.received().first_from(0), Some(chunk));
        }
        assert!(rt; block.is_full());
        assert_eq!(rt; block.missing_count(), 0);
        assert!(rt;
            match block.octets() {
                Some(octets) => is_image(octets, size as usize),
                None => false
            },
            "{size} {chunk_size}"
        );
    }
}

#[test]
fn another_block_begins_with_no_chunk(rt: HostRuntime) {
    let mut block = BlockBuffer::new();
    block.open(3, 8, 24);
    assert!(rt; give(&mut block, 1, 8));
    block.open(4, 16, 24);
    assert_eq!(rt; block.number(), Some(4));
    assert_eq!(rt; block.chunk_size(), Some(16));
    assert_eq!(rt; block.size(), Some(24));
    assert_eq!(rt; block.count(), 2);
    assert!(rt; !block.has(1));
    assert_eq!(rt; block.received_count(), 0);
}
