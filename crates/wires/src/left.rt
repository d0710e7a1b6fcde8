ghost use Rattle.std.specs.Prelude.{map};
ghost use Rattle.wires.specs.Orders.{Lacking};
ghost use Rattle.wires.specs.Parts.{numbers_of, posted_of};

use crate::batch_list::BatchList;
use crate::post::Post;
use std::marker::Model;

// The posted batches that a list lacks. A contract sees the posts and the list.
#[derive(Drop)]
pub struct Left<'a> {
    pub posts: &'a [Post],
    pub list: &'a BatchList,
}

impl<'a> Model for Left<'a> {
    ghost Value = { Lacking };

    ghost view = { λ l. record { posts = map posted_of l.posts.now; list = numbers_of l.list.now } };
}
