//! Counts and lengths of blocks and chunks, and progress in per cent.
#![tactic(auto)]

ghost use Rattle.std.specs.Prelude.{◌≡◌, ◌≤◌, ◌<◌, ◌*◌, ◌/◌};
ghost use Rattle.mu_model_image.specs.Pieces.{block_count, block_length, chunk_count, chunk_length};

/// How many blocks of `2^log` octets an image has, the last perhaps shorter.
pub fn block_count(size: u32, log: u8) -> u16
    requires some { 1 ≤ size }
    requires size_most { size ≤ 1048576 }
    requires log_least { 12 ≤ log }
    requires log_most { log ≤ 14 }
    ensures count { result ≡ block_count size log }
    ensures most { result ≤ 256 }
{
    size.div_ceil(1 << log) as u16
}

/// How many octets block `i` has.
pub fn block_len(size: u32, log: u8, i: u16) -> u32
    requires size_most { size ≤ 1048576 }
    requires log_least { 12 ≤ log }
    requires log_most { log ≤ 14 }
    requires within { i < block_count size log }
    ensures length { result ≡ block_length size log i }
    ensures least { 1 ≤ result }
    ensures most { result ≤ 16384 }
{
    let begin = (i as u32) << log;
    (size - begin).min(1 << log)
}

/// How many chunks of `c` octets a block has, the last perhaps shorter.
pub fn chunk_count(len: u32, c: u16) -> u16
    requires some { 1 ≤ len }
    requires len_most { len ≤ 16384 }
    requires chunk_least { 8 ≤ c }
    requires chunk_most { c ≤ 376 }
    ensures count { result ≡ chunk_count len c }
    ensures most { result ≤ 2048 }
{
    len.div_ceil(c as u32) as u16
}

/// How many octets chunk `j` has.
pub fn chunk_len(len: u32, c: u16, j: u16) -> u16
    requires len_most { len ≤ 16384 }
    requires chunk_least { 8 ≤ c }
    requires chunk_most { c ≤ 376 }
    requires within { j < chunk_count len c }
    ensures length { result ≡ chunk_length len c j }
    ensures least { 1 ≤ result }
    ensures most { result ≤ c }
{
    let begin = j as u32 * c as u32;
    (len - begin).min(c as u32) as u16
}

/// So many of all in per cent, rounded down.
pub fn percent(done: u16, all: u16) -> u8
    requires some { 1 ≤ all }
    requires most { done ≤ all }
    ensures percent { result ≡ 100 * done / all }
    ensures within { result ≤ 100 }
{
    (100 * done as u32 / all as u32) as u8
}
