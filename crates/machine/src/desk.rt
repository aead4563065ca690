use track::drawing::Drawing;

mod draw;

// What there is before the finish: the drawing, and the rule, the scale and the search that the planner will be made with.
#[derive(Drop)]
pub struct Desk<R, S, Q> {
    pub drawing: Drawing,
    pub rule: R,
    pub scale: S,
    pub below: Q,
}
