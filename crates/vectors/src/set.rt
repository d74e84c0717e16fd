ghost use Rattle.std.specs.Prelude.{◌≡◌, ℕ, ◌+◌, ◌*◌, ◌%◌, ◌^◌, ◌<◌, ◌≤◌, Bool, true, false, IfOk, if◌then◌else◌, Some, None, Ok, Err, nat_lt, ◌≢◌, MatchOption};
ghost use Rattle.vectors.specs.declared.faults.Fault.TheVariants.{NoGroup};
ghost use Rattle.vectors.specs.Sets.{group as group_of, members, none, with, without, joined, words_of, blank, gained, cleared, usable_word, AllUsable, count_to, count as count_of};
ghost use Rattle.vectors.specs.Search.{highest as highest_of, classed, IsHighest};

use super::faults::Fault;
use super::group::Group;

// A set of vectors: vector v is bit v mod 64 of word v div 64, which is its group.
#[derive(Clone, Copy, PartialEq, Eq, Debug)]
pub struct VectorSet {
    words: [u64; 4],
}

// The set of four words, and the words of a set.
impl From<[u64; 4]> for VectorSet {
    ghost from_gives = { λ words set. set.words ≡ words };

    fn from(words: [u64; 4]) -> VectorSet {
        VectorSet { words }
    }
}

impl From<VectorSet> for [u64; 4] {
    ghost from_gives = { λ set words. words ≡ set.words };

    fn from(set: VectorSet) -> [u64; 4] {
        set.words
    }
}

impl VectorSet {
    pub fn empty() -> VectorSet
        ensures set { members result ≡ none }
        ensures words { words_of result ≡ blank }
    {
        VectorSet { words: [0; 4] }
    }

    pub fn contains(&self, v: u8) -> bool
        ensures { result ≡ members self.now v }
    {
        self.has_bit(Group::of(v), v % 64)
    }

    pub fn insert(&mut self, v: u8)
        ensures set { members self.new ≡ with (members self.old) v }
        ensures words { words_of self.new ≡ gained (words_of self.old) v }
    {
        self.add(Group::of(v), mask(v));
    }

    pub fn remove(&mut self, v: u8)
        ensures { members self.new ≡ without (members self.old) v }
    {
        self.clear(Group::of(v), mask(v));
    }

    // Adds the vectors of a group that a word stands for.
    pub fn join(&mut self, group: u8, word: u64) -> Result<(), Fault>
        ensures answer { result ≡ (if nat_lt group 4 then Ok tt else Err NoGroup) }
        ensures after { members self.new ≡ (if nat_lt group 4 then joined (members self.old) group word else members self.old) }
    {
        self.add(Group::try_from(group)?, word);
        Ok(())
    }

    // The word of a group. Usable vectors are a condition here and below: a set that was read may have others.
    pub fn word(&self, group: u8) -> Result<u64, Fault>
        ensures answer { result ≡ (if nat_lt group 4 then Ok (words_of self.now group) else Err NoGroup) }
        ensures usable { IfOk result (λ w. AllUsable (members self.now) → usable_word group w ≡ true) }
    {
        Ok(self.word_of(Group::try_from(group)?))
    }

    // The word of a group, whose vectors leave the set.
    pub fn draw(&mut self, group: u8) -> Result<u64, Fault>
        ensures answer { result ≡ (if nat_lt group 4 then Ok (words_of self.old group) else Err NoGroup) }
        ensures after { words_of self.new ≡ (if nat_lt group 4 then cleared (words_of self.old) group else words_of self.old) }
        ensures usable { IfOk result (λ w. AllUsable (members self.old) → usable_word group w ≡ true) }
        ensures keeps { AllUsable (members self.old) → AllUsable (members self.new) }
    {
        let group = Group::try_from(group)?;
        let word = self.word_of(group);
        self.empty_group(group);
        Ok(word)
    }

    pub fn count(&self) -> u32
        ensures { result ≡ count_of (members self.now) }
    {
        // Not `sum()`: tried, and that the sum of each run fits its type did not close.
        let mut count = 0;
        for word in &self.words {
            count += word.count_ones();
        }
        count
    }

    pub fn is_empty(&self) -> bool
        ensures yes { result ≡ true → members self.now ≡ none }
        ensures no { members self.now ≡ none → result ≡ true }
    {
        self.highest().is_none()
    }

    // The highest vector with its class: the groups are looked at from the top one down.
    pub fn highest(&self) -> Option<(u8, u8)>
        ensures value { result ≡ classed (highest_of (members self.now)) }
        ensures law { IsHighest (members self.now) result }
        ensures bounded { (k : ℕ) → 256 ≤ k → members self.now k ≡ false }
    {
        let (g, word) = self.top_group()?;
        let v = (g * 64) as u8 + (63 - word.leading_zeros()) as u8;
        Some((v, v / 16))
    }

    // The highest group that has a vector, and its word.
    fn top_group(&self) -> Option<(usize, u64)>
        ensures { MatchOption result ((g : ℕ) → words_of self.now g ≡ 0) (λ p. (p.0 < 4) × (p.1 ≡ words_of self.now p.0) × (words_of self.now p.0 ≢ 0) × ((h : ℕ) → p.0 < h → words_of self.now h ≡ 0)) }
    {
        for g in (0..4).rev() {
            let word = self.words[g];
            if word != 0 {
                return Some((g, word));
            }
        }
        None
    }

    // Whether the word of a group has bit k.
    fn has_bit(&self, group: Group, k: u8) -> bool
        requires { k < 64 }
        ensures { (v : ℕ) → group ≡ group_of v → k ≡ v % 64 → result ≡ members self.now v }
    {
        (self.words[group.index()] >> k) & 1 == 1
    }

    // Adds the vectors of a group that a word stands for.
    fn add(&mut self, group: Group, word: u64)
        ensures all { members self.new ≡ joined (members self.old) group word }
        ensures one { (v : ℕ) → group ≡ group_of v → word ≡ 2 ^ (v % 64) → members self.new ≡ with (members self.old) v }
        ensures words { (v : ℕ) → group ≡ group_of v → word ≡ 2 ^ (v % 64) → words_of self.new ≡ gained (words_of self.old) v }
    {
        self.words[group.index()] |= word;
    }

    // Removes the vectors of a group that a word stands for.
    fn clear(&mut self, group: Group, word: u64)
        ensures { (v : ℕ) → group ≡ group_of v → word ≡ 2 ^ (v % 64) → members self.new ≡ without (members self.old) v }
    {
        self.words[group.index()] &= !word;
    }

    fn word_of(&self, group: Group) -> u64
        ensures value { result ≡ words_of self.now group }
        ensures usable { AllUsable (members self.now) → usable_word group result ≡ true }
    {
        self.words[group.index()]
    }

    fn empty_group(&mut self, group: Group)
        ensures after { words_of self.new ≡ cleared (words_of self.old) group }
        ensures keeps { AllUsable (members self.old) → AllUsable (members self.new) }
    {
        self.words[group.index()] = 0;
    }
}

// The word that has the bit of vector v in its group alone.
fn mask(v: u8) -> u64
    ensures { result ≡ 2 ^ (v % 64) }
{
    1 << (v % 64)
}
