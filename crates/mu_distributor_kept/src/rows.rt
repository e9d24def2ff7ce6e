ghost use Rattle.std.specs.Prelude.{◌≡◌, ◌==◌};
ghost use Rattle.std.specs.List.{list_any};
ghost use Rattle.mu_model_distributor.specs.Receivers.{has_address};
ghost use Rattle.mu_distributor_kept.specs.Views.{row_receivers};

use arrayvec::ArrayVec;
use mu_distmsg::ReceiverRow;

/// The receivers of a distributor, at most 128.
pub type Rows = ArrayVec<ReceiverRow, 128>;

fn any_has(rows: &[ReceiverRow], address: u16) -> bool
    ensures { result ≡ list_any (λ row. row.address == address) rows.now }
{
    rows.iter().any(|row| row.address == address)
}

/// Whether a receiver has this address: each is looked at once at most.
pub fn has_address(rows: &[ReceiverRow], address: u16) -> bool
    ensures { result ≡ has_address (row_receivers rows.now) address }
{
    any_has(rows, address)
}
