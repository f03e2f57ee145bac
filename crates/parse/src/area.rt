// Records written to an area where they lie in it, so that a first pass over the empty area measures and a second one writes.
ghost use Rattle.std.specs.Prelude.{◌≡◌, ◌+◌, ◌*◌, ◌^◌, ◌<◌, ◌≤◌};
ghost use Rattle.paper.specs.Table.{record_of};
ghost use Rattle.parse.specs.Written.{Written, Shifted};

use record::SIZE;

// Record d, where it lies in the area.
pub fn put_record(out: &mut [u8], d: usize, kind: u8, count: usize, bits: u64)
    ensures { Written (record_of kind count 0 bits) out.old d out.new }
{
    if out.len() / SIZE <= d {
        return;
    }
    record::write_record(out, d, kind, count, 0, bits);
}

// The records from d up to q, shifted one record on, where they lie in the area then.
pub fn make_room(out: &mut [u8], d: usize, q: usize)
    requires { d ≤ q }
    ensures { Shifted out.old d q out.new }
{
    if out.len() / SIZE <= q {
        return;
    }
    stretch::shift_right(out, d * SIZE + SIZE, d * SIZE, (q - d) * SIZE);
}
