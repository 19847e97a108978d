//! What holds of all images: the contract of each function is the law, and it does nothing.
#![tactic(auto)]

ghost use Rattle.image.specs.RoundTrip.{ImageLength, ImageSizes, ReadBack, WrittenBack};
ghost use Rattle.image.specs.Earlier.{EarlierAsked, EarlierReadBack, EarlierExtended, LayoutsApart};

/// How long an image is (Manual 8.1).
#[tactic(auto, using(crate::proofs::Image::length_write_image, crate::proofs::Image::image_sizes))]
pub fn image_sizes()
    ensures length { ImageLength }
    ensures sizes { ImageSizes }
{}

/// Reading and writing undo each other (Manual 8.2).
#[tactic(auto, using(crate::proofs::Image::read_image_write_image, crate::proofs::Image::write_image_read_image))]
pub fn round_trip()
    ensures read_back { ReadBack }
    ensures written_back { WrittenBack }
{}

/// The earlier layout (Manual 8.3 and 9.4).
#[tactic(auto, using(crate::proofs::Image::earlier_asked, crate::proofs::Image::earlier_read_back, crate::proofs::Image::layouts_apart))]
pub fn earlier_layout()
    ensures asked { EarlierAsked }
    ensures read_back { EarlierReadBack }
    ensures extended { EarlierExtended }
    ensures apart { LayoutsApart }
{}
