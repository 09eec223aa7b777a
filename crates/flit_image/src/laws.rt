ghost use Rattle.flit_image.specs.AboutTexts.{OneShape, OneListOfWords, ImageOrFault, ImageWithoutFault, OneFault, WrittenIsRead, ReadIsWritten};

/// A text is that of one image.
pub fn one_image()
    ensures shape { OneShape }
    ensures words { OneListOfWords }
{}

/// Each text is that of an image or has a first fault, but not both; and it has one first fault.
pub fn image_or_fault()
    ensures some { ImageOrFault }
    ensures image { ImageWithoutFault }
    ensures one { OneFault }
{}

/// What is written is read again, and a text of an image that ends with LF is written again as it is.
pub fn both_ways()
    ensures read { WrittenIsRead }
    ensures written { ReadIsWritten }
{}
