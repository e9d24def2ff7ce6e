//! Laws of the definitions: functions that do nothing, whose contracts are proved.

ghost use Rattle.mu_model_image.specs.Laws.{MetaIsReadBack, MetaHasOneSpelling, MetaThatIsReadIsInRange, FirmwareIdsDiffer, ImagesFit, ImagesHaveMetadata, FitIsTested, BlocksAreTheImage, BlocksAreThoseWithin, BlockHasItsLength, BlockLengthsSumToTheSize, ChunksAreTheBlock, ChunksAreThoseWithin, ChunkHasItsLength, ChunkLengthsSumToTheLength, MadeImageHasItsSize, MadeImageHasItsOctets};

/// Metadata and its octets are one to one.
pub fn metadata()
    ensures read_back { MetaIsReadBack }
    ensures one_spelling { MetaHasOneSpelling }
    ensures in_range { MetaThatIsReadIsInRange }
{}

/// A Firmware ID names one company, version and digest.
pub fn firmware_ids()
    ensures { FirmwareIdsDiffer }
{}

/// An image fits its own metadata, which is in the ranges.
pub fn images()
    ensures fit { ImagesFit }
    ensures metadata { ImagesHaveMetadata }
    ensures tested { FitIsTested }
{}

/// Blocks tile the image.
pub fn blocks()
    ensures joined { BlocksAreTheImage }
    ensures within { BlocksAreThoseWithin }
    ensures length { BlockHasItsLength }
    ensures sum { BlockLengthsSumToTheSize }
{}

/// Chunks tile the block.
pub fn chunks()
    ensures joined { ChunksAreTheBlock }
    ensures within { ChunksAreThoseWithin }
    ensures length { ChunkHasItsLength }
    ensures sum { ChunkLengthsSumToTheLength }
{}

/// A made image has its size and its octets.
pub fn made()
    ensures size { MadeImageHasItsSize }
    ensures octets { MadeImageHasItsOctets }
{}
