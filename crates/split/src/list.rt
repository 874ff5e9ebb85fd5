// A slot more in a process's list.
ghost use Rattle.std.specs.Prelude.{◌≡◌, ◌<◌, length};
ghost use Rattle.model.specs.Layout.{word_count, machine};
ghost use Rattle.model.specs.Carve as carve;
ghost use Rattle.split.specs.ListRoom.{Room};

use model::SLOTS;
use regions::counts::put_attached;
use rows::processes::process_at;
use rows::slots::put_order;

// Puts a slot last in list order.
pub fn push(words: &mut [u64], process: usize, slot: usize)
    requires words_len { length words.old ≡ word_count }
    requires process_bound { process < 8 }
    requires room { Room (machine words.old) process }
    ensures { machine words.new ≡ carve.push (machine words.old) process slot }
{
    let p = process_at(&words[..], process);
    put_order(words, process * SLOTS + p.attached as usize, slot as u64);
    put_attached(words, process, p.attached + 1);
}
