// The note of a node.
ghost use Rattle.std.specs.Prelude.{ℕ, ◌≡◌, ◌+◌, List, Option, IfOk, OnErr, IfSome, IfNone, length, slice_index};
ghost use Rattle.std.specs.Option.{option_map};
ghost use Rattle.mu_model_node.specs.declared.Stored.{Stored as StoredPhase};
ghost use Rattle.mu_model_represents.specs.NodeNote.{NodeNote as NoteOfNode, NoteJob as JobOfNote, HasNoteJob, SpellsActive, SpellsNote, SpellsOldNote, IsNodeNote, index_of, stored_number, job_octets, note_octets, old_note_octets};
ghost use Rattle.mu_note.specs.Views.{active_banks, note_job, node_note};

use crate::zero::is_zero;
use crate::{Foreign, Note};
use mu_image::{meta_from, meta_octets};
use mu_model_image::Meta;
use mu_model_node::Stored;

/// The active banks of a node, by the index of the image.
#[derive(Clone, Copy, Debug, PartialEq, Eq)]
pub enum Active {
    /// Of two banks.
    One(u8),
    /// Of three.
    Two(u8, u8),
}

/// What the note keeps of a job beside the BLOB part.
#[derive(Clone, Copy, Debug, PartialEq, Eq)]
pub struct NoteJob {
    /// How far the update is.
    pub stored: Stored,
    pub ttl: u8,
    /// The new image's.
    pub meta: Meta,
    /// The index of the image, 0 or 1.
    pub index: u8,
}

/// What the note of a node says.
#[derive(Clone, Copy, Debug, PartialEq, Eq)]
pub struct NodeNote {
    pub active: Active,
    pub job: Option<NoteJob>,
}

// The first kind of note, of nodes with one image.
const OLD: u8 = 1;

const NEW: u8 = 3;

fn stored_number(stored: Stored) -> u8
    ensures { result ≡ stored_number stored }
{
    match stored {
        Stored::Filling => 2,
        Stored::Verified => 4,
        Stored::Refused => 5,
        Stored::Applied => 6,
    }
}

fn stored_from(number: u8) -> Option<Stored>
    ensures some { IfSome result (λ stored. number ≡ stored_number stored) }
    ensures none { IfNone result ((stored : StoredPhase) → number ≡ stored_number stored → ⊥) }
{
    match number {
        2 => Some(Stored::Filling),
        4 => Some(Stored::Verified),
        5 => Some(Stored::Refused),
        6 => Some(Stored::Applied),
        _ => None,
    }
}

fn first_of(active: Active) -> u8
    ensures { result ≡ slice_index (active_banks active) 0 }
{
    match active {
        Active::One(first) => first,
        Active::Two(first, _) => first,
    }
}

fn second_of(active: Active) -> u8
    ensures { result ≡ slice_index (active_banks active) 1 }
{
    match active {
        Active::One(_) => 0,
        Active::Two(_, second) => second,
    }
}

fn index_of(job: &Option<NoteJob>) -> u8
    ensures { result ≡ index_of (option_map note_job job.now) }
{
    match job {
        Some(job) => job.index,
        None => 0,
    }
}

// Stored phase, TTL and metadata; 0 without a job.
fn job_octets(job: &Option<NoteJob>) -> [u8; 42]
    ensures { result ≡ job_octets (option_map note_job job.now) }
{
    let mut octets = [0; 42];
    if let Some(job) = job {
        octets[0] = stored_number(job.stored);
        octets[1] = job.ttl;
        octets[2..].copy_from_slice(&meta_octets(&job.meta));
    }
    octets
}

/// The note of a node, as it is written.
pub fn node_note_octets(note: &NodeNote) -> Note
    ensures { result ≡ note_octets (node_note note.now) }
{
    let mut octets = [0; 1728];
    octets[0] = NEW;
    octets[1] = first_of(note.active);
    octets[2..44].copy_from_slice(&job_octets(&note.job));
    octets[44] = second_of(note.active);
    octets[45] = index_of(&note.job);
    octets
}

/// The old note of a node, of which only the first active bank is kept and no index.
pub fn old_node_note_octets(note: &NodeNote) -> Note
    ensures { result ≡ old_note_octets (node_note note.now) }
{
    let mut octets = [0; 1728];
    octets[0] = OLD;
    octets[1] = first_of(note.active);
    octets[2..44].copy_from_slice(&job_octets(&note.job));
    octets
}

// What the octets of a note of either kind say of a job, whose index is said elsewhere.
fn job_from(octets: &[u8], index: u8) -> Result<Option<NoteJob>, Foreign>
    requires { length octets.now ≡ 1728 }
    ensures read { IfOk result (λ job. HasNoteJob (option_map note_job job) octets.now × (index_of (option_map note_job job) ≡ index)) }
    ensures foreign { OnErr result ((job : Option JobOfNote) → index_of job ≡ index → ¬ HasNoteJob job octets.now) }
{
    if octets[2] == 0 {
        return if index == 0 && is_zero(&octets[4..44]) {
            Ok(None)
        } else {
            Err(Foreign)
        };
    }
    let Some(stored) = stored_from(octets[2]) else {
        return Err(Foreign);
    };
    match meta_from(&octets[4..44]) {
        Some(meta) => Ok(Some(NoteJob {
            stored,
            ttl: octets[3],
            meta,
            index,
        })),
        None => Err(Foreign),
    }
}

fn active_from(banks: u8, octets: &[u8]) -> Result<Active, Foreign>
    requires { length octets.now ≡ 1728 }
    ensures read { IfOk result (λ active. (banks ≡ 1 + length (active_banks active)) × SpellsActive (active_banks active) octets.now) }
    ensures foreign { OnErr result ((active : List ℕ) → banks ≡ 1 + length active → ¬ SpellsActive active octets.now) }
{
    match banks {
        2 if octets[44] == 0 => Ok(Active::One(octets[1])),
        3 => Ok(Active::Two(octets[1], octets[44])),
        _ => Err(Foreign),
    }
}

fn new_note_from(banks: u8, octets: &[u8]) -> Result<NodeNote, Foreign>
    requires { length octets.now ≡ 1728 }
    ensures read { IfOk result (λ note. (banks ≡ 1 + length (node_note note).active) × SpellsNote (node_note note) octets.now) }
    ensures foreign { OnErr result ((note : NoteOfNode) → banks ≡ 1 + length note.active → ¬ SpellsNote note octets.now) }
{
    if octets[0] != NEW {
        return Err(Foreign);
    }
    if !is_zero(&octets[46..1728]) {
        return Err(Foreign);
    }
    let active = match active_from(banks, octets) {
        Ok(active) => active,
        Err(foreign) => return Err(foreign),
    };
    match job_from(octets, octets[45]) {
        Ok(job) => Ok(NodeNote { active, job }),
        Err(foreign) => Err(foreign),
    }
}

fn old_note_from(banks: u8, octets: &[u8]) -> Result<NodeNote, Foreign>
    requires { length octets.now ≡ 1728 }
    ensures read { IfOk result (λ note. (banks ≡ 1 + length (node_note note).active) × SpellsOldNote (node_note note) octets.now) }
    ensures foreign { OnErr result ((note : NoteOfNode) → banks ≡ 1 + length note.active → ¬ SpellsOldNote note octets.now) }
{
    if banks != 2 {
        return Err(Foreign);
    }
    if octets[0] != OLD {
        return Err(Foreign);
    }
    if !is_zero(&octets[44..1728]) {
        return Err(Foreign);
    }
    match job_from(octets, 0) {
        Ok(job) => Ok(NodeNote {
            active: Active::One(octets[1]),
            job,
        }),
        Err(foreign) => Err(foreign),
    }
}

/// What a note says of a node with so many banks, be it of the new kind or the old one. Foreign exactly where it is no note of a node.
/// The rules against the banks of the record aren't looked at.
pub fn node_note_from(banks: u8, note: &Note) -> Result<NodeNote, Foreign>
    ensures read { IfOk result (λ node. IsNodeNote banks (node_note node) note.now) }
    ensures foreign { OnErr result ((node : NoteOfNode) → ¬ IsNodeNote banks node note.now) }
{
    match new_note_from(banks, note) {
        Ok(node) => Ok(node),
        Err(_) => old_note_from(banks, note),
    }
}
