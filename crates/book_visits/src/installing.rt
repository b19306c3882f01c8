ghost use Rattle.std.specs.Prelude.{◌≡◌};
ghost use Rattle.instance_book.specs.Makes.{MakesUnder};
ghost use Rattle.book_visits.specs.Changes.{put_into};
ghost use Rattle.instance_book.specs.Changes.{HasRoomFor, KeepsPlacesBy, KeepsStatesBy};

use crate::prepared::Prepared;
use instance_book::Book;
use script_value::Reply;

/// Makes the change of a prepared visit, and gives the visit's reply. It takes no memory.
///
/// It asks that the book is as `prepare` left it, `spend` aside: that the room is there, and the pages that go.
pub fn install(book: &mut Book, prepared: Prepared) -> Reply
    requires { HasRoomFor prepared.change book.old }
    ensures book { MakesUnder (λ library. put_into library prepared) book.old book.new }
    ensures reply { result ≡ prepared.reply }
    ensures placed { KeepsPlacesBy prepared.change book.old book.new }
    ensures states { KeepsStatesBy prepared.change book.old book.new }
{
    let Prepared {
        reply,
        logged,
        change,
    } = prepared;
    book.change(change);
    book.count_to(logged);
    reply
}
