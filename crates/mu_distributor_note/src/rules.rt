// The rules on a note that look at nothing else.
ghost use Rattle.std.specs.Prelude.{◌≡◌, ◌↔◌, [], IsTrue};
ghost use Rattle.mu_model_distributor.specs.DistState.{is_at_rest};
ghost use Rattle.mu_model_distributor.specs.Sound.{AreSettings, IsGroup, IsReceiver, no_settings};
ghost use Rattle.mu_model_represents.specs.Images.{is_among, AllDiffer};
ghost use Rattle.mu_distributor_kept.specs.Views.{row_receiver, row_receivers};
ghost use Rattle.mu_distributor_note.specs.Views.{distributor_note};
ghost use Rattle.mu_distributor_note.specs.Rules.{IsBegun, HasDistribution, AreRows, FollowsRules};

use crate::note::NoteHead;
use mu_distributor_kept::{ReceiverRow, has_address};
use mu_model_distributor::{DistPhase, Settings};

const NO_SETTINGS: Settings = Settings {
    appkey: 0,
    ttl: 0,
    base: 0,
    mode: 0,
    policy: 0,
    image: 0,
    group: 0,
};

fn is_group(group: u16) -> bool
    ensures { IsTrue result ↔ IsGroup group }
{
    group == 0 || group >= 0xC000
}

fn are_settings(settings: Settings) -> bool
    ensures { IsTrue result ↔ AreSettings settings }
{
    settings.appkey <= 4095
        && settings.mode >= 1
        && settings.mode <= 2
        && settings.policy <= 1
        && is_group(settings.group)
}

fn are_unset(settings: Settings) -> bool
    ensures { IsTrue result ↔ (settings ≡ no_settings) }
{
    settings == NO_SETTINGS
}

fn is_begun(head: &NoteHead) -> bool
    ensures { IsTrue result ↔ IsBegun (distributor_note head.now []) }
{
    if head.counter == 0 {
        head.phase == DistPhase::Idle && are_unset(head.settings)
    } else {
        head.counter < 0x1_0000_0000_0000 && are_settings(head.settings)
    }
}

/// Whether there is no distribution in this phase.
pub(crate) fn is_at_rest(phase: DistPhase) -> bool
    ensures { result ≡ is_at_rest phase }
{
    matches!(
        phase,
        DistPhase::Idle | DistPhase::Completed | DistPhase::Failed
    )
}

fn has_distribution(head: &NoteHead, rows: &[ReceiverRow]) -> bool
    ensures { IsTrue result ↔ HasDistribution (distributor_note head.now rows.now) }
{
    is_at_rest(head.phase)
        || usize::from(head.settings.image) < head.banks.len() && !rows.is_empty()
}

fn is_receiver(row: ReceiverRow) -> bool
    ensures { IsTrue result ↔ IsReceiver (row_receiver row) }
{
    row.address >= 1
        && row.address <= 0x7FFF
        && row.phase <= 10
        && row.update_status <= 7
        && row.transfer_status <= 10
}

fn are_rows(rows: &[ReceiverRow]) -> bool
    ensures { IsTrue result ↔ AreRows (row_receivers rows.now) }
{
    for i in 0..rows.len() {
        let row = rows[i];
        if !is_receiver(row) || has_address(&rows[i + 1..], row.address) {
            return false;
        }
    }
    true
}

fn is_among(banks: &[u8], bank: u8) -> bool
    ensures { result ≡ is_among banks.now bank }
{
    banks.iter().any(|b| *b == bank)
}

fn all_differ(banks: &[u8]) -> bool
    ensures { IsTrue result ↔ AllDiffer banks.now }
{
    for i in 0..banks.len() {
        let bank = banks[i];
        if is_among(&banks[i + 1..], bank) {
            return false;
        }
    }
    true
}

/// Whether a note follows the rules that look neither at the record's banks nor at the BLOB part.
pub(crate) fn follows_rules(head: &NoteHead, rows: &[ReceiverRow]) -> bool
    ensures { IsTrue result ↔ FollowsRules (distributor_note head.now rows.now) }
{
    all_differ(head.banks.as_slice())
        && is_begun(head)
        && has_distribution(head, rows)
        && are_rows(rows)
}
