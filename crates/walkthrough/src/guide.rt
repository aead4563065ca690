use walk::walk::Walk;

mod plan;
mod show;

// A guide through the throat: where it prints, and the walk that it plans with.
#[derive(Drop)]
pub struct Guide<'a> {
    pub rt: &'a HostRuntime,
    pub walk: Walk,
}
