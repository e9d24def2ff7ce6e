// The entries of a record, changed.
ghost use Rattle.std.specs.Prelude.{◌≡◌, ◌<◌, if◌then◌else◌, slice_set};
ghost use Rattle.mu_model_record.specs.declared.BankState.TheVariants.{Empty};
ghost use Rattle.mu_model_record.specs.Changes.{cleared};

use mu_record::BankState;

fn empty_if(named: bool, entry: BankState) -> BankState
    ensures { result ≡ (if named then Empty else entry) }
{
    if named { BankState::Empty } else { entry }
}

// The entries with those of the named banks Empty.
pub(crate) fn cleared(entries: &[BankState; 4], named: &[bool; 4]) -> [BankState; 4]
    ensures { result ≡ cleared Empty named.now entries.now }
{
    [
        empty_if(named[0], entries[0]),
        empty_if(named[1], entries[1]),
        empty_if(named[2], entries[2]),
        empty_if(named[3], entries[3]),
    ]
}

// The entries with another one of a bank.
pub(crate) fn with_entry(entries: &[BankState; 4], bank: u8, entry: BankState) -> [BankState; 4]
    requires { bank < 4 }
    ensures { result ≡ slice_set entries.now bank entry }
{
    let mut changed = *entries;
    changed[bank as usize] = entry;
    changed
}
