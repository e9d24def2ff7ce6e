// The ranges of a record's fields.
ghost use Rattle.std.specs.Prelude.{◌≡◌, ℕ, ◌+◌, ◌*◌, ◌<◌, ◌≤◌, ◌↔◌, IsTrue, slice_index_or};
ghost use Rattle.mu_model_record.specs.declared.BankState.TheVariants.{Empty};
ghost use Rattle.mu_model_record.specs.Record.{IsFilling};
ghost use Rattle.mu_record.specs.Ranges.{AreInRange, HasNumbers, HasOneFilling, HasRanges, IsInRange};

use mu_model_record::{BankState, Record};

// The octets of a bank of so many pages.
fn capacity(pages: u16) -> u32
    ensures { result ≡ 4096 * pages }
{
    4096 * pages as u32
}

fn is_in_range(pages: u16, entry: &BankState) -> bool
    ensures { IsTrue result ↔ IsInRange pages entry.now }
{
    match entry {
        BankState::Empty => true,
        BankState::Filling { size, log } => 0 < *size
            && *size <= capacity(pages)
            && 12 <= *log
            && *log <= 14,
        BankState::Sealed(meta) => 0 < meta.size && meta.size <= capacity(pages),
    }
}

fn is_empty(entry: &BankState) -> bool
    ensures { IsTrue result ↔ (entry.now ≡ Empty) }
{
    match entry {
        BankState::Empty => true,
        _ => false,
    }
}

pub(crate) fn is_filling(entry: &BankState) -> bool
    ensures { IsTrue result ↔ IsFilling entry.now }
{
    match entry {
        BankState::Filling { .. } => true,
        _ => false,
    }
}

fn are_in_range(fields: &Record) -> bool
    ensures { IsTrue result ↔ AreInRange fields.now }
{
    for b in 0..4u8 {
        let entry = &fields.banks[b as usize];
        if b < fields.number {
            if !is_in_range(fields.pages, entry) {
                return false;
            }
        } else if !is_empty(entry) {
            return false;
        }
    }
    true
}

fn has_one_filling(fields: &Record) -> bool
    ensures { IsTrue result ↔ HasOneFilling fields.now }
{
    let mut found = false;
    for b in 0..4usize {
        if is_filling(&fields.banks[b]) {
            if found {
                return false;
            }
            found = true;
        }
    }
    true
}

fn has_numbers(fields: &Record) -> bool
    ensures { IsTrue result ↔ HasNumbers fields.now }
{
    2 <= fields.number
        && fields.number <= 4
        && 1 <= fields.pages
        && fields.pages <= 256
        && 1 <= fields.count
}

// Whether the fields of a record are in their ranges, as far as their types don't give them.
pub(crate) fn has_ranges(fields: &Record) -> bool
    ensures { IsTrue result ↔ HasRanges fields.now }
{
    if !has_numbers(fields) {
        return false;
    }
    if !are_in_range(fields) {
        return false;
    }
    has_one_filling(fields)
}
