ghost use Rattle.instance_book.specs.Orders.{Rises, numbers_of};

use crate::numbered::Numbered;

/// Things in the order of their numbers, which are all different.
#[derive(Drop)]
pub struct InOrder<T> {
    pub(crate) things: Vec<Numbered<T>>,
    ghost rising: { Rises (numbers_of things.items) },
}
