ghost use Rattle.std.specs.Prelude.{◌≡◌, map};
ghost use Rattle.track.specs.Ways.{charted};
ghost use Rattle.track.specs.declared.ways.Ways.{Ways};

use crate::drawing::Drawing;
use crate::ways::Ways;

pub mod lookup;

// A finished layout. Nothing is added any more to the drawing that it was finished from.
#[derive(Drop)]
pub struct Layout {
    pub(crate) drawing: Drawing,
    // the ways from each section, worked out from the links
    pub(crate) ways: [Ways; 32],
    ghost led: { map (λ (w : Ways). w.points) ways ≡ charted drawing.links },
}
