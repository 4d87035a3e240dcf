// What the listing says of an image before any line.
ghost use Rattle.std.specs.Prelude.{◌≡◌};
ghost use Rattle.tape.specs.Listing.{examined};

use tape::{Geometry, ImageFault};

pub fn examine(image: &[u8]) -> Result<usize, ImageFault>
    ensures { result ≡ examined image.now }
{
    if Geometry::IMAGE_LIMIT < image.len() {
        return Err(ImageFault::TooLong);
    }
    if image.len() % Geometry::BLOCK != 0 {
        return Err(ImageFault::NotWhole);
    }
    let e = image.len() / Geometry::BLOCK;
    match crate::sweep(image, e) {
        Ok(_) => Ok(e),
        Err(d) => Err(ImageFault::Bad(d)),
    }
}
