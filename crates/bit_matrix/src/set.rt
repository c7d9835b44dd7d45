//! A set of small numbers, one bit for each.
ghost use Rattle.std.specs.Prelude.{◌≡◌, ◌≢◌, ◌<◌, ◌≤◌, ◌+◌, ◌*◌, ◌/◌, ◌%◌, ◌^◌, ◌&&◌, ◌||◌, ℕ, false, not, nat_eq};
ghost use Rattle.std.specs.Prelude.{nat_lt, length, IsOk, IsTrue, OnOk, OnErr, IfOk};
ghost use Rattle.bit_matrix.specs.Set.{has, bit_of, is_bit, new_below};

use std::alloc::{AllocError, Global};

/// A set of numbers. It owns words of 64 bits up to its greatest member, and none while it is empty.
#[derive(Drop)]
pub struct BitSet {
    words: Vec<u64>,
}

impl BitSet {
    /// The empty set.
    pub fn new(alloc: Global) -> BitSet
        ensures { (n : ℕ) → has result n ≡ false }
    {
        BitSet {
            words: Vec::new(alloc),
        }
    }

    /// Whether a number is in the set.
    pub fn contains(&self, n: usize) -> bool
        ensures { result ≡ has self.now n }
    {
        match self.words.get(n / 64) {
            Some(word) => (*word >> (n % 64)) & 1 == 1,
            None => false,
        }
    }

    /// Adds a number. Returns whether it is new.
    ///
    /// # Errors
    ///
    /// Out of memory, for a new member alone; the set has the same members then.
    pub fn insert(&mut self, n: usize) -> Result<bool, AllocError>
        ensures there { OnOk result (IsTrue (has self.new n)) }
        ensures others { (m : ℕ) → m ≢ n → has self.new m ≡ has self.old m }
        ensures fresh { IfOk result (λ fresh. fresh ≡ not (has self.old n)) }
        ensures err { OnErr result (has self.new n ≡ has self.old n) }
        ensures succeeds { IsTrue (has self.old n) → IsOk result }
    {
        self.grow(n / 64 + 1)?;
        let word = self.words[n / 64];
        let bit = 1u64 << (n % 64);
        self.words[n / 64] = word | bit;
        Ok(word & bit == 0)
    }

    /// Adds the members of another set that are less than `limit`. Returns how many of them are new.
    ///
    /// # Errors
    ///
    /// Out of memory; the set has the same members then.
    pub fn insert_below(&mut self, others: &BitSet, limit: usize) -> Result<usize, AllocError>
        ensures union { OnOk result ((n : ℕ) → has self.new n
            ≡ (has self.old n || (has others.now n && nat_lt n limit))) }
        ensures added { IfOk result (λ added. added ≡ new_below self.old self.new limit) }
        ensures err { OnErr result ((n : ℕ) → has self.new n ≡ has self.old n) }
    {
        let whole = others.words.len().min(limit / 64);
        let cut = others.word_below(limit);
        if cut == 0 {
            let words = used(&others.words[..whole]);
            self.grow(words.len())?;
            return Ok(self.insert_words(words));
        }
        self.grow(limit / 64 + 1)?;
        let before = self.insert_words(&others.words[..whole]);
        let last = self.insert_word(limit / 64, cut);
        Ok(before + last)
    }

    /// Removes all numbers, and keeps the memory.
    pub fn clear(&mut self)
        ensures { (n : ℕ) → has self.new n ≡ false }
    {
        self.words.clear();
    }

    // Extends the words with zeros to this many.
    fn grow(&mut self, count: usize) -> Result<(), AllocError>
        requires { count ≤ 2 ^ 58 }
        ensures same { (m : ℕ) → has self.new m ≡ has self.old m }
        ensures room { OnOk result (count ≤ length self.new.words.items) }
        ensures succeeds { count ≤ length self.old.words.items → IsOk result }
    {
        if self.words.len() < count {
            self.words.resize(count, 0)?;
        }
        Ok(())
    }

    // The word that contains the limit, without the bits from the limit on.
    fn word_below(&self, limit: usize) -> u64
        ensures { (n : ℕ) → n / 64 ≡ limit / 64 → is_bit result (n % 64) ≡ (has self.now n && nat_lt n limit) }
    {
        match self.words.get(limit / 64) {
            Some(word) => *word % (1u64 << (limit % 64)),
            None => 0,
        }
    }

    // Adds the numbers of words that the set has room for. Returns how many of them are new.
    fn insert_words(&mut self, words: &[u64]) -> usize
        requires room { length words.now ≤ length self.old.words.items }
        requires few { length words.now < 2 ^ 58 }
        ensures union { (n : ℕ) → has self.new n ≡ (has self.old n || bit_of words.now n) }
        ensures added { (end : ℕ) → 64 * length words.now ≤ end → result ≡ new_below self.old self.new end }
        ensures room { length self.new.words.items ≡ length self.old.words.items }
    {
        let mut added = 0;
        for (i, word) in words.iter().enumerate() {
            added += self.insert_word(i, *word);
        }
        added
    }

    // Adds the numbers of the word of this index. Returns how many of them are new.
    fn insert_word(&mut self, index: usize, word: u64) -> usize
        requires { index < length self.old.words.items }
        ensures union { (n : ℕ) → has self.new n ≡ (has self.old n || (nat_eq (n / 64) index && is_bit word (n % 64))) }
        ensures added { (end : ℕ) → 64 * index + 64 ≤ end → result ≡ new_below self.old self.new end }
        ensures room { length self.new.words.items ≡ length self.old.words.items }
    {
        let old = self.words[index];
        self.words[index] = old | word;
        (word & !old).count_ones() as usize
    }
}

// The words without the zeros at their end, since a set owns no words after its greatest member.
fn used(words: &[u64]) -> &[u64]
    ensures same { (n : ℕ) → bit_of result.now n ≡ bit_of words.now n }
    ensures within { length result.now ≤ length words.now }
{
    let mut count = words.len();
    while count > 0 && words[count - 1] == 0 {
        count -= 1;
    }
    &words[..count]
}
