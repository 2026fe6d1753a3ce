//! The two states of a house, each a type of its own.
ghost use Rattle.std.specs.Prelude.{◌≡◌, vec_len};

use crate::house::House;

/// A closed house.
#[derive(Drop)]
pub struct Closed<R> {
    pub(crate) house: House<R>,
    ghost none: { vec_len house.placed ≡ 0 },
}

/// A trading house.
#[derive(Drop)]
pub struct Trading<R> {
    pub(crate) house: House<R>,
}
