//! Laws of the definitions: functions that do nothing, whose contracts are proved.

ghost use Rattle.mu_model_stored_distributor.specs.DistributorIn.{DistributorNoteIsRead, DistributorIsRead};
ghost use Rattle.mu_model_stored_distributor.specs.Steps.{DistributorFreshIsTheSame, DistributorRecordSteps, DistributorBeginSteps, DistributorBlockSteps, WorkIsOfThePassed};
ghost use Rattle.mu_model_stored_distributor.specs.Kept.{DistributorIsKept, UploadStays, NoUploadIsLeft, FirstUploadComes, UploadBegins, UploadGoes, UploadComes, UploadIsStored, UploadTakesABlock, ImageIsStocked, ImagesAreReleased, ChangesShowInTheTag};

use mu_model_jobs::laws::{banks_change, parts};
use mu_model_represents::laws::{blocks_of_jobs, images_of_banks};
use mu_model_represents_distributor::laws::distributor_records_are_short;

/// The function of a store's state is the distributor that it represents.
pub fn distributor_is_read()
    ensures note { DistributorNoteIsRead }
    ensures distributor { DistributorIsRead }
{
    parts();
}

/// The operations of a record, of a bank that is begun and of a block that is put are the flash work of a distributor, state by state, and leave
/// as many slots fresh.
pub fn distributor_steps()
    ensures fresh { DistributorFreshIsTheSame }
    ensures one_record { DistributorRecordSteps }
    ensures begin { DistributorBeginSteps }
    ensures block { DistributorBlockSteps }
    ensures passed { WorkIsOfThePassed }
{
    distributor_records_are_short();
}

/// What a distributor keeps beside the tag, before and after each call.
pub fn distributor_is_kept()
    ensures kept { DistributorIsKept }
    ensures stays { UploadStays }
    ensures none_left { NoUploadIsLeft }
    ensures first { FirstUploadComes }
    ensures begins { UploadBegins }
    ensures goes { UploadGoes }
    ensures comes { UploadComes }
    ensures is_stored { UploadIsStored }
    ensures block { UploadTakesABlock }
    ensures stocked { ImageIsStocked }
    ensures are_released { ImagesAreReleased }
{
    banks_change();
    blocks_of_jobs();
}

/// Over one store, what a distributor keeps is another exactly where its note or its job is: a commit is due there.
pub fn changes_show()
    ensures { ChangesShowInTheTag }
{
    images_of_banks();
}
