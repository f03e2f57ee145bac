// The entry point for C on a whole site. It has no answer slice of its own: each item's numbers go to its place in the list.
ghost use Rattle.simmergate.specs.Calls.{BatchCall};

// Simplifies the tables of a site, end to end with a list of their lengths, one after the other in what remains of the areas.
pub fn simmergate_batch(
    limit: usize,
    edition: usize,
    tables: &[u8],
    lengths: &[u8],
    out: &mut [u8],
    steps: &mut [u8],
    work: &mut [u8],
    answers: &mut [u8],
) -> u32
    ensures { BatchCall limit edition tables lengths out steps work answers result }
{
    match batch::batch(limit, edition, tables, lengths, out, steps, work, answers) {
        Ok(()) => 0,
        Err(refusal) => refusal.number(),
    }
}
