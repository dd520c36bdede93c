//! Laws of an image's parts and its bytes. The functions do nothing; their contracts say the laws.
ghost use Rattle.image_round.specs.Laws.{AcceptedImagesAreWritten, ImagesReadBack, KeptPartsAreImages, KeptPartsCanBeWritten, PartsAreDetermined};

/// Parts that keep the rules are small enough to be written.
pub fn kept_parts_can_be_written()
    ensures { KeptPartsCanBeWritten }
{}

/// What is written of parts that keep the rules is an image: its bytes keep the table of the layout.
pub fn kept_parts_are_images()
    ensures { KeptPartsAreImages }
{}

/// What is read of such an image are the parts that were written: the counts, the wheel, and each entry of each section.
pub fn images_read_back()
    ensures { ImagesReadBack }
{}

/// Bytes that keep the table of the layout, and so each image that a view accepts, are written of parts that keep the rules.
pub fn accepted_images_are_written()
    ensures { AcceptedImagesAreWritten }
{}

/// Parts that keep the rules and are written as the same bytes are the same: one wheel, and equal lists.
pub fn parts_are_determined()
    ensures { PartsAreDetermined }
{}
