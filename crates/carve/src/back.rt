// Regions that were taken out and go back whole, at the end of the list.
ghost use Rattle.std.specs.Prelude.{◌≡◌, ◌<◌, ◌≤◌, length};
ghost use Rattle.model.specs.Layout.{word_count, machine};
ghost use Rattle.carve.specs.PutBack.{slice, push_all, Rooms};

use split::list::push;

// Puts the slots from one place of `out` up to another last in list order.
pub fn put_back(words: &mut [u64], out: &[u64], from: usize, to: usize, process: usize)
    requires words_len { length words.old ≡ word_count }
    requires out_len { length out.now ≡ 64 }
    requires process_bound { process < 8 }
    requires from_le_to { from ≤ to }
    requires to_bound { to ≤ 64 }
    requires rooms { Rooms process (slice out.now from to) (machine words.old) }
    ensures { machine words.new ≡ push_all process (slice out.now from to) (machine words.old) }
{
    for i in from..to {
        push(words, process, out[i] as usize);
    }
}
