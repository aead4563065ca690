use roster::train::Train;

mod pose;

// A throat of so many sections, with links between two sections that run over so many points; the trains on its roster, and the steps.
// A `Link` for each would be no plainer: it takes five lines for one, and the call that draws it takes the three numbers.
#[derive(Clone, Copy)]
pub struct Case<'a> {
    pub sections: u8,
    pub links: &'a [(u8, u8, u8)],
    pub trains: &'a [Train],
    pub steps: usize,
}
