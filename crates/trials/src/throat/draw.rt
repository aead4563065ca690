use crate::throat::Throat;
use track::drawing::Drawing;
use track::layout::Layout;
use track::refusal::Refusal;

impl Throat {
    // The layout of this throat.
    pub fn layout(&self) -> Result<Layout, Refusal> {
        let mut drawing = Drawing::new();
        drawing.add_sections(self.sections)?;
        for link in &self.links {
            drawing.add_link(link.a, link.b, link.points)?;
        }
        for foul in &self.fouls {
            drawing.add_foul(foul.a, foul.b, foul.c, foul.d)?;
        }
        Ok(drawing.finish())
    }
}
