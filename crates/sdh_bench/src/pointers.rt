//! Pointer words, read and sent again.
ghost use Rattle.std.specs.Prelude.{◌≡◌, length};

use sdh_pointer::{Gen, Interp, Word};

/// Reads pointer words with one interpreter, and writes to `out` the words of the generator that follows it.
#[unsafe(no_mangle)]
pub extern "C" fn sdh_bench_pointers(words: &[u16], out: &mut [u16])
    requires { length words.now ≡ length out.old }
{
    let mut interpreter = Interp::new();
    let mut generator = Gen::new();
    for i in 0..words.len() {
        let action = interpreter.step(Word(words[i]));
        generator.step(action, interpreter.value());
        out[i] = generator.word().0;
    }
}
