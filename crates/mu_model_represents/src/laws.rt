//! Laws of the definitions: functions that do nothing, whose contracts are proved.

ghost use Rattle.mu_model_represents.specs.Blocks.{HeldBlocksAreCut, CutBlocksAreAllHeld, BlockIsPut, ImagesStayByBlocks, NodeBlockIsPut};
ghost use Rattle.mu_model_represents.specs.Boots.{RepresentedStoreIsFound, ServersAreNotForeign, NodesAreNotForeign};
ghost use Rattle.mu_model_represents.specs.Images.{BankIsOneImage, BankImageIsGood, SealedBankHasAnImage};
ghost use Rattle.mu_model_represents.specs.Laws.{BlobPartIsOne, OctetsAreOneJob, BlobPartIsSound, ParametersOfBlocksFit, NodeTagIsOne, TagIsOneByItsNote, NodeRecordIsANode, StoreIsOneNode, OctetsAreOneNode, NodeNotesAreOfTwoKinds, OtherKindsAreNoNodes, RepresentedIsAState, NodeIsSound, RepresentedNodeIsSound, SoundNodeIsRepresented};
ghost use Rattle.mu_model_represents.specs.Made.{StoresAreMade};
ghost use Rattle.mu_model_represents.specs.Notes.{NodeNoteIsReadBack};
ghost use Rattle.mu_model_represents.specs.Octets.{TagLaws};
ghost use Rattle.mu_model_represents.specs.Short.{RecordIsShortByItsNote, NodeRecordIsShort, StoresAreReadAsNodes};
ghost use Rattle.mu_model_represents.specs.Written.{BlobPartIsReadBack, NodeTagIsATag, NodeTagIsReadBack, OldNodeTagIsReadBack};
ghost use Rattle.mu_model_represents.specs.WorkedNode.{NodeTags, DigestIsOctets, NoNodes};

use mu_model_flash::laws::ranges_of_octets;
use mu_model_image::laws::{blocks, images, metadata};
use mu_model_record::laws::{changes, stores};

/// Octets that are cut, joined and compared field by field, for the laws of any tag.
pub fn octets_of_tags()
    ensures { TagLaws }
{
    ranges_of_octets();
}

/// A bank of a store holds one image at most, within the ranges; one that is Sealed holds one, and any fit images can lie in the banks of a store.
pub fn images_of_banks()
    ensures one { BankIsOneImage }
    ensures good { BankImageIsGood }
    ensures found { SealedBankHasAnImage }
    ensures made { StoresAreMade }
{}

/// A store, and the octets of a flash, represent what one node keeps at most.
pub fn represented_is_one()
    ensures node { StoreIsOneNode }
    ensures node_octets { OctetsAreOneNode }
    ensures kinds { NodeNotesAreOfTwoKinds }
    ensures other_kinds { OtherKindsAreNoNodes }
{
    ranges_of_octets();
    stores();
}

/// Each octet of a tag counts: what is read from two tags is the same only where the tags are, but for the TTL that a node's note has without a
/// job, and but for the new note and the old one of one node.
pub fn octets_count()
    ensures node { NodeTagIsOne }
    ensures by_note { TagIsOneByItsNote }
{
    ranges_of_octets();
    metadata();
}

/// What is represented is a durable state that a boot may find, with its numbers in their ranges.
pub fn represented_is_sound()
    ensures store { RepresentedIsAState }
    ensures node { NodeIsSound }
    ensures node_octets { RepresentedNodeIsSound }
{
    ranges_of_octets();
    changes();
    blocks();
    metadata();
}

/// The BLOB part says one job at most, which has its places, and is read back whatever note follows it.
pub fn blob_parts()
    ensures one { BlobPartIsOne }
    ensures one_job { OctetsAreOneJob }
    ensures sound { BlobPartIsSound }
    ensures fit { ParametersOfBlocksFit }
    ensures read_back { BlobPartIsReadBack }
{
    blocks();
}

/// A store whose record is a node's, by every rule of its tag, represents what that one keeps.
pub fn found_is_represented()
    ensures node { NodeRecordIsANode }
{}

/// A boot finds the store that octets represent alone: what represents what a BLOB server or a node keeps isn't foreign to it.
pub fn foreign_to_others()
    ensures found { RepresentedStoreIsFound }
    ensures servers { ServersAreNotForeign }
    ensures nodes { NodesAreNotForeign }
{
    stores();
}

/// The tag that is written for a node is read back as the node, and each sound state of a node is represented by a store.
pub fn written_node()
    ensures tag { NodeTagIsATag }
    ensures read_back { NodeTagIsReadBack }
    ensures old_read_back { OldNodeTagIsReadBack }
    ensures represented { SoundNodeIsRepresented }
{
    blocks();
    metadata();
}

/// The note that is written for a node is read back by itself, whatever BLOB part stands before it.
pub fn written_note()
    ensures { NodeNoteIsReadBack }
{
    metadata();
}

/// A record is short by the octets of its note from 192 on, and a node's is.
pub fn records_are_short()
    ensures by_note { RecordIsShortByItsNote }
    ensures node { NodeRecordIsShort }
{
    ranges_of_octets();
}

/// Runs of a flash through states of a store are runs through the nodes that these represent.
pub fn runs_are_read()
    ensures nodes { StoresAreReadAsNodes }
{}

/// A block that is put is one of the job's, and changes nothing else; blocks that are all held are the image that they make.
pub fn blocks_of_jobs()
    ensures cut { HeldBlocksAreCut }
    ensures all { CutBlocksAreAllHeld }
    ensures put { BlockIsPut }
    ensures images { ImagesStayByBlocks }
    ensures node { NodeBlockIsPut }
{
    blocks();
}

/// Worked rows: the tags of a node, and records that are no node's.
pub fn worked_node()
    ensures tags { NodeTags }
    ensures digest { DigestIsOctets }
    ensures others { NoNodes }
{
    images();
    metadata();
}
