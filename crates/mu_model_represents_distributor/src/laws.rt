//! Laws of the definitions: functions that do nothing, whose contracts are proved.

ghost use Rattle.mu_model_represents_distributor.specs.Blocks.{DistributorBlockIsPut};
ghost use Rattle.mu_model_represents_distributor.specs.Boots.{DistributorsAreNotForeign, OthersAreForeign};
ghost use Rattle.mu_model_represents_distributor.specs.Laws.{DistributorTagIsOne, DistributorRecordIsADistributor, StoreIsOneDistributor, StoreIsNotBoth, OctetsAreOneDistributor, OctetsAreNotBoth, OtherKindsAreNoDistributors, DistributorIsSound, RepresentedDistributorIsSound, SoundDistributorIsRepresented};
ghost use Rattle.mu_model_represents_distributor.specs.Short.{DistributorRecordIsLongByReceivers, StoresAreReadAsDistributors};
ghost use Rattle.mu_model_represents_distributor.specs.Written.{DistributorTagIsATag, DistributorTagIsReadBack};
ghost use Rattle.mu_model_represents_distributor.specs.WorkedDistributor.{DistributorTags, NoDistributors};

use mu_model_flash::laws::ranges_of_octets;
use mu_model_record::laws::stores;
use mu_model_represents::laws::{
    blob_parts, blocks_of_jobs, foreign_to_others, images_of_banks, octets_count, octets_of_tags,
    records_are_short, represented_is_one, represented_is_sound, worked_node,
};

/// A store, and the octets of a flash, represent what one distributor keeps at most, and then what no node keeps.
pub fn one_distributor()
    ensures distributor { StoreIsOneDistributor }
    ensures not_both { StoreIsNotBoth }
    ensures distributor_octets { OctetsAreOneDistributor }
    ensures not_both_octets { OctetsAreNotBoth }
    ensures other_kinds { OtherKindsAreNoDistributors }
{
    ranges_of_octets();
    stores();
    blob_parts();
    images_of_banks();
    represented_is_one();
}

/// Each octet of a distributor's tag counts: what is read from two tags is the same only where the tags are.
pub fn octets_of_distributors_count()
    ensures distributor { DistributorTagIsOne }
{
    ranges_of_octets();
    octets_of_tags();
    octets_count();
}

/// What is represented of a distributor is a durable state that a boot may find, with its numbers in their ranges.
pub fn distributor_is_sound()
    ensures distributor { DistributorIsSound }
    ensures distributor_octets { RepresentedDistributorIsSound }
{
    ranges_of_octets();
    octets_of_tags();
    blob_parts();
    images_of_banks();
    represented_is_sound();
}

/// A store whose record is a distributor's, by every rule of its tag, represents what that one keeps.
pub fn found_distributor()
    ensures distributor { DistributorRecordIsADistributor }
{
    images_of_banks();
}

/// Octets that represent what a node or a distributor keeps are foreign to the other alone.
pub fn foreign_to_distributors()
    ensures distributors { DistributorsAreNotForeign }
    ensures others { OthersAreForeign }
{
    stores();
    foreign_to_others();
    represented_is_one();
}

/// The tag that is written for a distributor is read back as the distributor, and each sound state of a distributor is represented by a store.
pub fn written_distributor()
    ensures tag { DistributorTagIsATag }
    ensures read_back { DistributorTagIsReadBack }
    ensures represented { SoundDistributorIsRepresented }
{
    octets_of_tags();
    blob_parts();
    images_of_banks();
}

/// A distributor's record is long exactly where the model says so, by its receivers.
pub fn distributor_records_are_short()
    ensures distributor { DistributorRecordIsLongByReceivers }
{
    ranges_of_octets();
    octets_of_tags();
    records_are_short();
}

/// Runs of a flash through states of a store are runs through the distributors that these represent.
pub fn distributor_runs_are_read()
    ensures distributors { StoresAreReadAsDistributors }
{}

/// A block of an upload that is put changes nothing else of a distributor.
pub fn blocks_of_uploads()
    ensures distributor { DistributorBlockIsPut }
{
    blocks_of_jobs();
}

/// Worked rows: the tags of a distributor, and records that are no distributor's.
pub fn worked_distributor()
    ensures tags { DistributorTags }
    ensures others { NoDistributors }
{
    octets_of_tags();
    blob_parts();
    worked_node();
}
