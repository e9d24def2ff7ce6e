// The tag of a job.
ghost use Rattle.std.specs.Prelude.{◌≡◌};
ghost use Rattle.std.specs.Option.{option_map};
ghost use Rattle.mu_model_represents.specs.BlobPart.{blob_part, note_part, IsBlobPart};
ghost use Rattle.mu_note.specs.Views.{part_job};
ghost use Rattle.mu_kept.specs.Tags.{tag_with, CanSpell};

use mu_model_represents::laws::blob_parts;
use mu_note::{BlobJob, Note, Tag, tag_of};

// The tag of a job, or of none, with a note. Both are read back from it.
pub(crate) fn tag_with(job: Option<BlobJob>, note: &Note) -> Tag
    requires { CanSpell job }
    ensures tag { result ≡ tag_with job note.now }
    ensures part { IsBlobPart (option_map part_job job) (blob_part result) }
    ensures note { note_part result ≡ note.now }
{
    blob_parts();
    tag_of(&job, note)
}
