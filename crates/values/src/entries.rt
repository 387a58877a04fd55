// The polynomials of words that were read, stored in arrays: what systems and certificates have in common.
ghost use Rattle.std.specs.Prelude.{◌≡◌};
ghost use Rattle.words.specs.Starts.{first_entries, HasEntries};
ghost use Rattle.write_frame.specs.Framing.{Covers};
ghost use Rattle.values.specs.Laid.{sizes_over, laid_over};

use loader::copy_payloads;
use read_frame::word::payload_of;
use write_frame::format::Format;

// Stores the polynomials that stand behind the head of the words.
pub fn load_entries(sizes: &mut [usize], values: &mut [u64], words: &[u32], format: Format)
    requires { HasEntries format.limit format.count words.now × Covers format sizes.old values.old }
    ensures { (sizes.new ≡ sizes_over (first_entries words.now format.count) sizes.old)
        × (values.new
        ≡ laid_over format.stride (first_entries words.now format.count) values.old) }
{
    let mut at = 1;
    for k in 0..format.count {
        let size = payload_of(words[at]) as usize;
        sizes[k] = size;
        copy_payloads(values, format.stride * k, words, at + 1, size);
        at += 1 + size;
    }
}
