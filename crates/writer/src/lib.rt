// Writing the message of a requirement that is handed over as lists of numbers (the crate `lists` says how). What is refused is tested first, in the
// document's order; then the message is written, and nothing can go wrong any more.
#![tactic(auto)]

ghost use Rattle.std.specs.Prelude.{◌≡◌, ◌++◌, ◌+◌, ◌*◌, ◌-◌, ◌/◌, ◌≤◌, ◌<◌, T, length};
ghost use Rattle.std.proofs.lemmas.List.Edits.{sets};
ghost use Rattle.meaning.specs.Lists.{form, said};
ghost use Rattle.meaning.specs.Message.{thresholds_bytes, requirement_bytes, encode};
ghost use Rattle.meaning.specs.Rules.{paper};
ghost use Rattle.meaning.specs.Writing.{limits_from, lists_in, lists_fit, whole};
ghost use Rattle.writer.specs.Promise.{WritePromise};
ghost use Rattle.limits.specs.Flat.{fixed_at, after, Each, thresholds};
ghost use Rattle.writer.specs.Ready.{Ready};

use lists::Handed;
use meaning::{Refusal, Rule};

// The k-th node with its thresholds, the j-th of all up to `end`, without its role. Where the inner nodes of the next threshold begin is answered.
fn put_labelled(
    of: &Handed,
    k: usize,
    j: usize,
    end: usize,
    first: usize,
    out: &mut [u8],
    at: usize,
) -> usize
    requires k_in_bounds { (k < length of.now.nodes / 3) × (length of.now.nodes / 3 ≤ k + 64) }
    requires j_le_end { (j ≤ end) × (end - j < 256) × Each of.now.limits of.now.inner j first (end - j) }
    requires first_in_bounds { at + 10 + 6 * (end - j) + 11 * (after of.now.limits j first (end - j) - first) ≤ length out.old }
    ensures value { result ≡ after of.now.limits j first (end - j) }
    ensures out_after { out.new ≡ sets out.old at
        (fixed_at of.now.nodes k (length of.now.nodes / 3) (end - j)
        ++ thresholds_bytes (thresholds (limits_from of.now.limits of.now.inner j first (end - j)))) }
{
    limits::put_node(&of.nodes, k, end - j, out, at);
    limits::put_limits(of, j, end, first, out, at + 10)
}

// The nodes, each with its thresholds, from the fourth byte on: the root, then each other behind its role.
fn put_nodes(of: &Handed, out: &mut [u8])
    requires ready { Ready of.now.nodes of.now.limits of.now.inner }
    requires inner_in_bounds { 2 + 11 * (length of.now.nodes / 3) + 6 * (length of.now.limits / 5) + 11 * (length of.now.inner / 3) ≤ length out.old }
    ensures { out.new ≡ sets out.old 3
        (requirement_bytes (said (lists_in of.now.nodes of.now.limits of.now.inner))) }
{
    let mut j = limits::own_count(&of.limits, 0, 0);
    let mut first = put_labelled(of, 0, 0, j, 0, out, 3);
    for k in 1..of.nodes.count() {
        let at = 2 + 11 * k + 6 * j + 11 * first;
        fields::put(out, at, 1, of.nodes.role(k));
        let end = j + limits::own_count(&of.limits, k, j);
        first = put_labelled(of, k, j, end, first, out, at + 1);
        j = end;
    }
}

// How long the message is: 3 bytes of head, 11 for each node but the role of each root, and 7 for each threshold.
fn message_len(of: &Handed) -> usize
    requires { T (whole of.now.nodes of.now.limits of.now.inner) × T (form (lists_in of.now.nodes of.now.limits of.now.inner)) }
    ensures { result ≡ length (encode (said (lists_in of.now.nodes of.now.limits of.now.inner))) }
{
    2 + 11 * of.nodes.count() + 6 * of.limits.count() + 11 * of.inner.count()
}

// The message: its head, and the nodes.
fn put_message(of: &Handed, len: usize, out: &mut [u8])
    requires ready { Ready of.now.nodes of.now.limits of.now.inner }
    requires len_value { (len ≡ length (encode (said (lists_in of.now.nodes of.now.limits of.now.inner)))) × (len ≤ length out.old) }
    ensures { out.new ≡ sets out.old 0 (encode (said (lists_in of.now.nodes of.now.limits of.now.inner))) }
{
    fields::put(out, 0, 1, 1);
    fields::put(out, 1, 2, len - 3);
    put_nodes(of, out);
}

// What reading would refuse of the lists, on the call's side.
fn fit(of: &Handed) -> Result<(), Refusal>
    requires { T (whole of.now.nodes of.now.limits of.now.inner) × T (form (lists_in of.now.nodes of.now.limits of.now.inner)) }
    ensures { paper result ≡ lists_fit 0 (lists_in of.now.nodes of.now.limits of.now.inner).outer
        (lists_in of.now.nodes of.now.limits of.now.inner).limits }
{
    faults::fault(of).map_err(|rule| rule.of_call())
}

// Writes the message of the requirement that the lists say, from the first byte of `out` on. How long it is is answered.
pub fn write(nodes: &[u64], limits: &[u64], inner: &[u64], out: &mut [u8]) -> Result<usize, Refusal>
    ensures { WritePromise nodes.now limits.now inner.now out.old out.new result }
{
    let of = Handed::new(nodes, limits, inner);
    if !of.form() {
        return Err(Rule::NoRequirement.of_call());
    }
    fit(&of)?;
    let len = message_len(&of);
    if out.len() < len {
        return Err(Rule::OutputTooShort.of_call());
    }
    put_message(&of, len, out);
    Ok(len)
}
