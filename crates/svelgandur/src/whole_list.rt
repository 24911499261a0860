// The list call from C.
ghost use Rattle.svelgandur.specs.Promises.{ListPromise};

use answers;

// The number of each written node of a plain requirement at each item.
// Good: 1, items, written nodes, the scale of the root. Refused: 0, side, number, place; the table is then untouched.
pub fn svelgandur_list(image: &[u8], message: &[u8], table: &mut [u32], answer: &mut [u64; 4])
    ensures { ListPromise image.now message.now table.old table.new answer.new }
{
    answers::of(answer, tabling::list_of(image, message, table));
}
