// The distribution: a function for each request, by the phase that it comes in.
ghost use Rattle.std.specs.Prelude.{◌≡◌, ◌≤◌, ℕ, Option};
ghost use Rattle.mu_model_distributor.specs.declared.Settings.{Settings as AnySettings};
ghost use Rattle.mu_model_distributor.specs.DistState.{DistState, dist_number};
ghost use Rattle.mu_model_distributor.specs.Distribution.{are_settings, distribution_status, distribution_start, distribution_suspend, distribution_cancel, distribution_apply, settings_in};
ghost use Rattle.mu_distributor_rows.specs.Due.{changes, IsDueIn};
ghost use Rattle.mu_distributor_rows.specs.Looks.{seen, LooksAs};
ghost use Rattle.mu_distributor_rows.specs.Decided.{is_uploading, begun, distribution_started, distribution_suspended, distribution_canceled, distribution_applied};
ghost use Rattle.mu_distributor_rows.specs.Rows.{distribution_stepped};
ghost use Rattle.mu_distributor_rows.specs.Replies.{HasSettings, ShowsSettings};
ghost use Rattle.mu_distributor_rows.specs.Fits.{IsKnown};

use crate::looks::{DistLook, run_phase};
use crate::replies::{DistAnswer, DistReply};
use mu_distributor_kept::UploadPhase;
use mu_model_distributor::{DistPhase, Settings};

/// What a request on the distribution does. What changes is answered with status 0.
#[derive(Clone, Copy)]
pub enum DistributionStep {
    /// Nothing, and it is answered with status 0.
    Keep,
    /// A distribution with these settings begins under the next number, with all receivers anew.
    Begin(Settings),
    /// The client begins again.
    Resume,
    /// The distribution is suspended.
    Suspend,
    /// The client cancels: each row of rank below 5 becomes Transfer Canceled.
    Cancel,
    /// The distribution is Idle.
    Rest,
    /// The client applies.
    Apply,
    /// Nothing changes, and this status is answered.
    Refuse(u8),
}

impl DistributionStep {
    ghost use Rattle.mu_distributor_rows.specs.Due.{changes};

    /// Whether what is kept changes, so that a record is due.
    pub fn is_due(self) -> bool
        ensures { result ≡ changes self }
    {
        match self {
            DistributionStep::Keep | DistributionStep::Refuse(_) => false,
            _ => true,
        }
    }
}

// A label has no equal.
fn is_same(asked: Option<Settings>, settings: Settings) -> bool
    ensures { result ≡ are_settings asked settings }
{
    match asked {
        None => false,
        Some(asked) => {
            asked.appkey == settings.appkey
                && asked.ttl == settings.ttl
                && asked.base == settings.base
                && asked.mode == settings.mode
                && asked.policy == settings.policy
                && asked.image == settings.image
                && asked.group == settings.group
        }
    }
}

fn is_uploading(phase: UploadPhase) -> bool
    ensures { result ≡ is_uploading phase }
{
    match phase {
        UploadPhase::TransferActive => true,
        _ => false,
    }
}

fn begin<'a>(look: DistLook<'a>, asked: Option<Settings>) -> DistributionStep
    ensures known { IsKnown result }
    ensures step { result ≡ begun (seen look.entry) asked }
{
    let Some(settings) = asked else {
        return DistributionStep::Refuse(1);
    };
    if is_uploading(run_phase(look.recorded, look.lags)) {
        DistributionStep::Refuse(8)
    } else if usize::from(settings.image) >= look.metas.len() {
        DistributionStep::Refuse(4)
    } else if look.receivers == 0 {
        DistributionStep::Refuse(6)
    } else if look.counter == 0xFFFF_FFFF_FFFF {
        DistributionStep::Refuse(1)
    } else {
        DistributionStep::Begin(settings)
    }
}

fn start<'a>(look: DistLook<'a>, asked: Option<Settings>) -> DistributionStep
    ensures known { IsKnown result }
    ensures step { result ≡ distribution_started (seen look.entry) asked look.entry.phase }
{
    let is_same = is_same(asked, look.settings);
    match look.phase {
        DistPhase::Idle | DistPhase::Completed | DistPhase::Failed => begin(look, asked),
        DistPhase::TransferSuspended if is_same => DistributionStep::Resume,
        DistPhase::TransferSuspended => DistributionStep::Refuse(2),
        _ if is_same => DistributionStep::Keep,
        _ => DistributionStep::Refuse(7),
    }
}

/// Firmware Distribution Start; none asks for a label.
pub fn distribution_start<'a>(look: DistLook<'a>, asked: Option<Settings>) -> DistributionStep
    ensures known { IsKnown result }
    ensures step { (address : ℕ) (s : DistState) → LooksAs look.entry s → distribution_start address s asked s.durable.phase ≡ distribution_stepped address s result }
    ensures due { (address : ℕ) (s : DistState) → LooksAs look.entry s → IsDueIn (changes result) s (distribution_stepped address s result) }
{
    start(look, asked)
}

fn suspend(phase: DistPhase) -> DistributionStep
    ensures known { IsKnown result }
    ensures step { result ≡ distribution_suspended phase }
{
    match phase {
        DistPhase::TransferActive => DistributionStep::Suspend,
        DistPhase::TransferSuspended => DistributionStep::Keep,
        _ => DistributionStep::Refuse(2),
    }
}

/// Firmware Distribution Suspend.
pub fn distribution_suspend<'a>(look: DistLook<'a>) -> DistributionStep
    ensures known { IsKnown result }
    ensures step { (address : ℕ) (s : DistState) → LooksAs look.entry s → distribution_suspend s s.durable.phase ≡ distribution_stepped address s result }
    ensures due { (address : ℕ) (s : DistState) → LooksAs look.entry s → IsDueIn (changes result) s (distribution_stepped address s result) }
{
    suspend(look.phase)
}

fn cancel(phase: DistPhase) -> DistributionStep
    ensures known { IsKnown result }
    ensures step { result ≡ distribution_canceled phase }
{
    match phase {
        DistPhase::TransferActive | DistPhase::TransferSuccess | DistPhase::TransferSuspended =>
            DistributionStep::Cancel,
        DistPhase::Completed | DistPhase::Failed => DistributionStep::Rest,
        DistPhase::ApplyingUpdate => DistributionStep::Refuse(2),
        DistPhase::Idle | DistPhase::CancelingUpdate => DistributionStep::Keep,
    }
}

/// Firmware Distribution Cancel.
pub fn distribution_cancel<'a>(look: DistLook<'a>) -> DistributionStep
    ensures known { IsKnown result }
    ensures step { (address : ℕ) (s : DistState) → LooksAs look.entry s → distribution_cancel s s.durable.phase ≡ distribution_stepped address s result }
    ensures due { (address : ℕ) (s : DistState) → LooksAs look.entry s → IsDueIn (changes result) s (distribution_stepped address s result) }
{
    cancel(look.phase)
}

fn apply(phase: DistPhase) -> DistributionStep
    ensures known { IsKnown result }
    ensures step { result ≡ distribution_applied phase }
{
    match phase {
        DistPhase::TransferSuccess => DistributionStep::Apply,
        DistPhase::ApplyingUpdate => DistributionStep::Keep,
        _ => DistributionStep::Refuse(2),
    }
}

/// Firmware Distribution Apply.
pub fn distribution_apply<'a>(look: DistLook<'a>) -> DistributionStep
    ensures known { IsKnown result }
    ensures step { (address : ℕ) (s : DistState) → LooksAs look.entry s → distribution_apply s s.durable.phase ≡ distribution_stepped address s result }
    ensures due { (address : ℕ) (s : DistState) → LooksAs look.entry s → IsDueIn (changes result) s (distribution_stepped address s result) }
{
    apply(look.phase)
}

// The phase on the wire.
fn number(phase: DistPhase) -> u8
    ensures number { result ≡ dist_number phase }
    ensures shows { (settings : AnySettings) → HasSettings phase settings → ShowsSettings result (settings_in phase settings) }
{
    match phase {
        DistPhase::Idle => 0,
        DistPhase::TransferActive => 1,
        DistPhase::TransferSuccess => 2,
        DistPhase::ApplyingUpdate => 3,
        DistPhase::Completed => 4,
        DistPhase::Failed => 5,
        DistPhase::CancelingUpdate => 6,
        DistPhase::TransferSuspended => 7,
    }
}

fn settings_shown(phase: DistPhase, settings: Settings) -> Option<Settings>
    ensures { result ≡ settings_in phase settings }
{
    match phase {
        DistPhase::Idle => None,
        _ => Some(settings),
    }
}

/// The Firmware Distribution Status, which shows the settings in every phase but Idle.
#[tactic(auto, using(crate::proofs::DistributionRows::status_is))]
pub fn distribution_answer<'a>(look: DistLook<'a>, status: u8) -> DistAnswer
    requires known { status ≤ 13 }
    requires settings { HasSettings look.phase look.settings }
    ensures { (s : DistState) → LooksAs look.entry s → result ≡ distribution_status status s }
{
    DistAnswer::new(DistReply::DistributionStatus {
        status,
        phase: number(look.phase),
        settings: settings_shown(look.phase, look.settings),
    })
}
