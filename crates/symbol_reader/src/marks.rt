// Sets of numbers as marks, 64 to a word: the indices of a list, the fingerprints of names.
ghost use Rattle.std.specs.Prelude.{◌≡◌, ◌||◌, eqb, length, ℕ, ◌*◌, ◌<◌};
ghost use Rattle.symbol_reader.specs.Marks.{marked};

// Whether n is marked. No number beyond the words is.
pub(crate) fn is_marked(words: &[u64], n: usize) -> bool
    ensures { result ≡ marked words.now n }
{
    let word = words.get(n / 64).copied().unwrap_or(0);
    (word >> (n % 64)) % 2 == 1
}

// n is marked, if it is not beyond the words.
pub(crate) fn mark(words: &mut [u64], n: usize)
    ensures by_index { (k : ℕ) → k < 64 * length words.old → marked words.new k ≡ (eqb k n || marked words.old k) }
    ensures words_len_unchanged { length words.new ≡ length words.old }
{
    let w = n / 64;
    if w < words.len() {
        words[w] = sets::union(words[w], sets::single(n % 64));
    }
}
