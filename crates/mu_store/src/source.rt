// A source that is read page by page.
ghost use Rattle.std.specs.Prelude.{◌≡◌, ℕ, ◌<◌, ◌≤◌, List, [], take, length, IfOk, OnErr, Result};
ghost use Rattle.mu_model_flash.specs.Cause.{HasCause};
ghost use Rattle.mu_store.specs.Source.{Gave, IsAtEnd, GivesMore};

use mu_outside::{Failed, Source};

// Reads a source until the piece is full or the source is at its end, and answers how many octets it gave.
pub(crate) fn read_piece<S: Source>(source: &mut S, piece: &mut [u8]) -> Result<usize, Failed>
    ensures most { IfOk result (λ n. n ≤ length piece.old) }
    ensures gave { IfOk result (λ n. Gave (S.left source.old) (S.left source.new) (take n piece.new)) }
    ensures end { IfOk result (λ n. n < length piece.old → IsAtEnd (S.left source.new)) }
    ensures part { OnErr result ((octets : List ℕ) × (length octets < length piece.old) × Gave (S.left source.old) (S.left source.new) octets) }
    ensures cause { HasCause (S.faults source.old) (S.faults source.new) result }
{
    let mut filled = 0;
    while filled < piece.len() {
        let count = source.read(&mut piece[filled..])?;
        if count == 0 {
            return Ok(filled);
        }
        filled += count;
    }
    Ok(filled)
}

// Whether a source has an octet more, which is then read.
pub(crate) fn has_more<S: Source>(source: &mut S) -> Result<bool, Failed>
    ensures more { IfOk result (GivesMore (S.left source.old) (S.left source.new)) }
    ensures none { OnErr result (Gave (S.left source.old) (S.left source.new) []) }
    ensures cause { HasCause (S.faults source.old) (S.faults source.new) result }
{
    let mut octet = [0; 1];
    let count = source.read(&mut octet)?;
    Ok(count > 0)
}
