// The BLOB part of a tag.
ghost use Rattle.std.specs.Prelude.{ℕ, ◌≡◌, ◌++◌, Option, Some, IfOk, OnErr, length};
ghost use Rattle.std.specs.Option.{option_map};
ghost use Rattle.mu_model_node.specs.declared.Parameters.{Parameters as TransferParameters};
ghost use Rattle.mu_model_represents.specs.BlobPart.{BlobJob as PartJob, blob_part, note_part, IsBlobPart, SpellsJob, HasParameters, blob_octets, mode_of, mtu_of, log_of};
ghost use Rattle.mu_note.specs.Views.{part_job};

use crate::zero::is_zero;
use crate::{Foreign, Note};
use byteorder::{ByteOrder, LittleEndian};
use mu_model_node::Parameters;
use mu_model_record::Tag;

/// What the BLOB part of a tag keeps of a job.
#[derive(Clone, Copy, Debug, PartialEq, Eq)]
pub struct BlobJob {
    /// The BLOB ID.
    pub id: u64,
    /// Octets that are expected.
    pub size: u32,
    /// The Timeout Base.
    pub base: u16,
    /// The bank that they come into.
    pub bank: u8,
    /// None where no transfer was begun. Their size isn't kept: it is that of the job.
    pub parameters: Option<Parameters>,
}

fn mode_of(parameters: &Option<Parameters>) -> u8
    ensures { result ≡ mode_of parameters.now }
{
    match parameters {
        Some(parameters) => parameters.mode,
        None => 0,
    }
}

fn mtu_of(parameters: &Option<Parameters>) -> u16
    ensures { result ≡ mtu_of parameters.now }
{
    match parameters {
        Some(parameters) => parameters.mtu,
        None => 0,
    }
}

fn log_of(parameters: &Option<Parameters>) -> u8
    ensures { result ≡ log_of parameters.now }
{
    match parameters {
        Some(parameters) => parameters.log,
        None => 0,
    }
}

// The 64 octets of the part of a job.
fn job_octets(job: &BlobJob) -> [u8; 64]
    ensures { result ≡ blob_octets (Some (part_job job.now)) }
{
    let mtu = mtu_of(&job.parameters).to_le_bytes();
    let id = job.id.to_le_bytes();
    let size = job.size.to_le_bytes();
    let base = job.base.to_le_bytes();
    let mut octets = [0; 64];
    octets[0] = 1;
    octets[1] = mode_of(&job.parameters);
    octets[2..4].copy_from_slice(&mtu);
    octets[4..12].copy_from_slice(&id);
    octets[12..16].copy_from_slice(&size);
    octets[16..18].copy_from_slice(&base);
    octets[18] = job.bank;
    octets[19] = log_of(&job.parameters);
    octets
}

// The 64 octets of the part.
fn blob_octets(job: &Option<BlobJob>) -> [u8; 64]
    ensures { result ≡ blob_octets (option_map part_job job.now) }
{
    match job {
        Some(job) => job_octets(job),
        None => [0; 64],
    }
}

/// The tag of a job of the BLOB server, or of none, with a note.
pub fn tag_of(job: &Option<BlobJob>, note: &Note) -> Tag
    ensures { result ≡ blob_octets (option_map part_job job.now) ++ note.now }
{
    let mut tag = [0; 1792];
    tag[..64].copy_from_slice(&blob_octets(job));
    tag[64..].copy_from_slice(note);
    tag
}

/// The note of a tag.
pub fn note_of(tag: &Tag) -> &Note
    ensures { result.now ≡ note_part tag.now }
{
    let Some(note) = tag.last_chunk() else {
        unreachable!()
    };
    note
}

fn parameters_from(size: u32, octets: &[u8]) -> Result<Option<Parameters>, Foreign>
    requires { length octets.now ≡ 64 }
    ensures read { IfOk result (λ parameters. HasParameters size parameters octets.now) }
    ensures foreign { OnErr result ((parameters : Option TransferParameters) → ¬ HasParameters size parameters octets.now) }
{
    let mtu = LittleEndian::read_u16(&octets[2..]);
    let mode = octets[1];
    let log = octets[19];
    if mode == 0 {
        return if mtu == 0 && log == 0 {
            Ok(None)
        } else {
            Err(Foreign)
        };
    }
    if mode > 2 {
        return Err(Foreign);
    }
    if mtu < 20 {
        return Err(Foreign);
    }
    Ok(Some(Parameters {
        mode,
        size,
        log,
        mtu,
    }))
}

fn job_from(octets: &[u8]) -> Result<BlobJob, Foreign>
    requires { length octets.now ≡ 64 }
    ensures read { IfOk result (λ job. SpellsJob (part_job job) octets.now) }
    ensures foreign { OnErr result ((job : PartJob) → ¬ SpellsJob job octets.now) }
{
    if octets[0] != 1 {
        return Err(Foreign);
    }
    if !is_zero(&octets[20..64]) {
        return Err(Foreign);
    }
    let size = LittleEndian::read_u32(&octets[12..]);
    match parameters_from(size, octets) {
        Ok(parameters) => Ok(BlobJob {
            id: LittleEndian::read_u64(&octets[4..]),
            size,
            base: LittleEndian::read_u16(&octets[16..]),
            bank: octets[18],
            parameters,
        }),
        Err(foreign) => Err(foreign),
    }
}

fn blob_from(octets: &[u8]) -> Result<Option<BlobJob>, Foreign>
    requires { length octets.now ≡ 64 }
    ensures read { IfOk result (λ part. IsBlobPart (option_map part_job part) octets.now) }
    ensures foreign { OnErr result ((part : Option PartJob) → ¬ IsBlobPart part octets.now) }
{
    if is_zero(octets) {
        return Ok(None);
    }
    match job_from(octets) {
        Ok(job) => Ok(Some(job)),
        Err(foreign) => Err(foreign),
    }
}

/// The job of the BLOB server that a tag says, or that there is none. Foreign exactly where its first 64 octets are no BLOB part.
/// The rules against the banks of the record aren't looked at.
pub fn blob_part_of(tag: &Tag) -> Result<Option<BlobJob>, Foreign>
    ensures read { IfOk result (λ part. IsBlobPart (option_map part_job part) (blob_part tag.now)) }
    ensures foreign { OnErr result ((part : Option PartJob) → ¬ IsBlobPart part (blob_part tag.now)) }
{
    let (part, _) = tag.split_at(64);
    blob_from(part)
}
