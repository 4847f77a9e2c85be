//! A law of the blank image: it is the contract of a function that does nothing.
ghost use Rattle.std.specs.Prelude.{◌≡◌, false, Ok};
ghost use Rattle.flash_dev.specs.Blank.{blank_image};
ghost use Rattle.flash_dev.specs.Geometry.{image_geometry};

/// The blank image is accepted.
pub fn blank_images_are_accepted()
    ensures { image_geometry blank_image ≡ Ok (record { plain = false }) }
{}
