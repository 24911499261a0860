// The writing call from C.
ghost use Rattle.svelgandur.specs.Promises.{WritePromise};

use answers;

// Writes the message of a requirement that is handed over as lists.
// Good: 1, bytes written, 0, 0. Refused: 0, side, number, place.
pub fn svelgandur_write_requirement(
    nodes: &[u64],
    thresholds: &[u64],
    inner: &[u64],
    message: &mut [u8],
    answer: &mut [u64; 4],
)
    ensures { WritePromise nodes.now thresholds.now inner.now message.old message.new answer.new }
{
    answers::of(answer, writer::write(nodes, thresholds, inner, message));
}
