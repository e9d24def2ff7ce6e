// What the rows of the table look at of the job of an upload.
ghost use Rattle.std.specs.Prelude.{◌≡◌, ◌≤◌, None, not, length};
ghost use Rattle.std.specs.List.{count_by};
ghost use Rattle.std.specs.Option.{option_map};
ghost use Rattle.mu_model_distributor.specs.DistState.{DistState, job_of};
ghost use Rattle.mu_model_distributor.specs.Uploads.{percent};
ghost use Rattle.mu_kept.specs.Views.{flags_in};
ghost use Rattle.mu_blobsrv.specs.Views.{store_of, fault_of};
ghost use Rattle.mu_distributor_rows.specs.Fits.{IsPercent};
ghost use Rattle.mu_distributor_rows.specs.Looks.{job_look};
ghost use Rattle.mu_distributor_server.specs.Shows.{IsServing};

use mu_blobsrv::BlobServer;
use mu_distributor_memory::UploadLook;
use mu_distributor_rows::transfer_progress;
use mu_outside::Flash;
use mu_report::NumberSet;

// How many numbers below the bound aren't in a set.
fn others(missing: &NumberSet) -> u16
    ensures others { result ≡ count_by not missing.now }
    ensures few { result ≤ length missing.now }
{
    let mut count = 0;
    for i in 0..missing.bound() {
        if !missing.contains(i) {
            count += 1;
        }
    }
    count
}

// The per cent of blocks held; 0 where there is none.
fn progress(missing: &NumberSet) -> u8
    ensures progress { result ≡ percent (count_by not missing.now) (length missing.now) }
    ensures most { result ≤ 100 }
{
    let all = missing.bound();
    if all == 0 {
        return 0;
    }
    transfer_progress(others(missing), all)
}

// What is looked at of the job, with the per cent of its blocks that are held. No fault is kept.
pub(crate) fn upload_look<F: Flash>(server: &BlobServer<F>) -> Option<UploadLook>
    requires { fault_of server.now ≡ None }
    ensures looks { (s : DistState) → IsServing server.now s → option_map job_look (job_of s.durable.upload) ≡ result }
    ensures percent { IsPercent result }
{
    let Some(job) = server.job() else {
        return None;
    };
    let has_parameters = server.has_parameters();
    let progress = if has_parameters {
        progress(&server.blocks_missing())
    } else {
        0
    };
    Some(UploadLook {
        id: job.id,
        size: job.size,
        base: job.base,
        bank: job.bank,
        has_parameters,
        progress,
    })
}
