ghost use Rattle.std.specs.Prelude.{◌≡◌};
ghost use Rattle.std.specs.Vec.{vec_len};

pub mod make;

// The table search. From one question to the next it keeps nothing but the room for its runs of cells, which it has from when it is made,
// so that no answer asks for memory.
#[derive(Drop)]
pub struct Table<C> {
    pub(crate) room: Vec<Option<C>>,
    ghost a_run_for_each_train: { vec_len room ≡ 264 },
}
