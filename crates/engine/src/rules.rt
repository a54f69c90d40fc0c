// What the engine knows of rules and of inputs: two traits. An implementation says what it means by ghost members; the contracts hold
// the code to that.
ghost use Rattle.std.specs.Prelude.{◌≡◌, ℕ, ◌+◌, ◌*◌, ◌<◌, ◌≤◌, List, [], length, take, drop};
ghost use Rattle.engine.specs.declared.key.Key.{Key};
ghost use Rattle.engine.specs.Engine.{Ans, Rules as RuleBook, Inputs as InputBook};
ghost use Rattle.engine.specs.Says.{row, GoSays, InputSays};

use crate::key::Key;

// Where a rule stands: it asks; it's done, with so many words of answer in what was lent; or too few words were lent.
pub enum Turn {
    Ask(Key),
    Done(usize),
    Narrow,
}

// Rules for an engine that knows nothing of them. A rule is told its key and the answers to what it asked so far, and it counts how
// often it was told: 'book' is what the rules are, 'runs' the count.
pub trait Rules {
    ghost book: { Self → RuleBook };

    ghost runs: { Self → ℕ };

    // A key's rank: what its rule asks has a smaller one.
    fn rank(&self, k: &Key) -> u32
        ensures { result ≡ RuleBook.rank (book self.now) k.now };

    // Whether a key's answer is handed in.
    fn is_input(&self, k: &Key) -> bool
        ensures { result ≡ RuleBook.input (book self.now) k.now };

    // A rule is told. The answers' row, count answers, stands in the first words, up to at; what is behind it is there to work in, and
    // for the answer.
    fn go(&mut self, k: &Key, words: &mut [u32], at: usize, count: usize) -> Turn
        requires { (runs self.old < 9223372036854775808) × (at ≤ length words.old) }
        ensures { (book self.new ≡ book self.old) × ((runs self.new ≡ runs self.old + 1) × ((length words.new ≡ length words.old) × ((take «at» words.new ≡ take «at» words.old) × (((as₁ : List Ans) → length as₁ ≡ count → row as₁ ≡ take «at» words.old → GoSays (RuleBook.next (book self.old) k.now as₁) «at» (drop «at» words.old) (drop «at» words.new) result))))) };
}

// What is handed in, read from words that stand before known; an answer is written behind at.
pub trait Inputs {
    ghost given: { Self → List ℕ → InputBook };

    // An input's answer: how many words of it stand behind at, or none if there are too few.
    fn get(&self, k: &Key, words: &mut [u32], known: usize, at: usize) -> Option<usize>
        requires { (known ≤ «at») × («at» ≤ length words.old) }
        ensures { (length words.new ≡ length words.old) × ((take «at» words.new ≡ take «at» words.old) × (InputSays (given self.now (take known words.old) k.now) (drop «at» words.old) (drop «at» words.new) result)) };
}
