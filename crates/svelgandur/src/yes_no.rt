// The yes/no call from C.
ghost use Rattle.svelgandur.specs.Promises.{MemberPromise};

use answers;

// Whether an item meets a requirement; a yes writes the map.
// Yes: 1, places written, 0, 0. No: 2, 0, 0, 0. Refused: 0, side, number, place.
pub fn svelgandur_member(
    image: &[u8],
    message: &[u8],
    item: u64,
    map: &mut [u16],
    answer: &mut [u64; 4],
)
    ensures { MemberPromise image.now message.now item map.old map.new answer.new }
{
    answers::of(answer, deciding::decide(image, message, item as usize, map));
}
